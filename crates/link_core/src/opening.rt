//! A link that has no batch yet.

ghost use Rattle.std.specs.Prelude.{◌≤◌, [], IfOk};
ghost use Rattle.link_flags.specs.FlagWords.{words_of};
ghost use Rattle.link_db_texts.specs.Causes.{IsGiven, TellsCause};
ghost use Rattle.link_db_texts.specs.Holds.{platform_of};
ghost use Rattle.link_rules.specs.Places.{Bytes};
ghost use Rattle.link_rules.specs.Refusals.{text_refusal};
ghost use Rattle.link_rules.specs.World.{World};
ghost use Rattle.link_db.specs.Seen.{seen};
ghost use Rattle.link_core.specs.Steps.{IsNew, IsSteady};

use link_db::SymbolDb;
use link_flags::PerSymbolFlags;
use link_input::{Options, Platform, Scripts};
use link_resolve::Resolver;
use link_rules::LinkError;
use std::alloc::Global;

/// What a link has between its batches: the database of their files, the flags of symbols, and which objects are loaded.
#[derive(Drop)]
pub(crate) struct OpenLink<P: Platform> {
    pub(crate) db: SymbolDb<P>,
    pub(crate) flags: PerSymbolFlags,
    pub(crate) resolver: Resolver,
}

/// A link with these options and texts, and no batch. It stands apart, so that what reading texts takes of the stack is given back before batches come.
#[inline(never)]
pub(crate) fn open_link<P: Platform>(
    alloc: Global,
    options: Options,
    texts: &Scripts,
    workers: usize,
) -> Result<OpenLink<P>, LinkError>
    requires workers { (1 ≤ workers) × (workers ≤ 256) }
    requires files { (1 ≤ options.files_per_group) × (options.files_per_group ≤ 256) }
    ensures cause { (w : World) → IsGiven (platform_of P.Platform) options texts.now w → TellsCause (text_refusal w) result }
    ensures steady { IfOk result (λ link. IsSteady (seen link.db) (words_of link.flags) link.resolver.known) }
    ensures new { IfOk result (λ link. (demangle : Bytes → Bytes) → IsNew (platform_of P.Platform) demangle options texts.now (seen link.db) (words_of link.flags) link.resolver.known) }
{
    let db = SymbolDb::new(alloc, options, texts, workers)?;
    let flags = PerSymbolFlags::new(alloc);
    let resolver = Resolver::new(alloc);
    Ok(OpenLink {
        db,
        flags,
        resolver,
    })
}
