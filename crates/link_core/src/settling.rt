//! The rivals of a link are settled.

ghost use Rattle.std.specs.Prelude.{◌≡◌, [], IfErr, IfOk, length};
ghost use Rattle.link_db_files.specs.GroupFiles.{symbols_in};
ghost use Rattle.link_flags.specs.FlagWords.{numbers_of, words_of};
ghost use Rattle.link_db_texts.specs.Holds.{platform_of};
ghost use Rattle.link_rules.specs.Places.{Bytes};
ghost use Rattle.link_rules.specs.Selection.{Selection};
ghost use Rattle.link_rules.specs.World.{World};
ghost use Rattle.link_db.specs.Seen.{seen};
ghost use Rattle.link_resolve.specs.Known.{IsListed};
ghost use Rattle.link_core.specs.Steps.{HasRoom, IsPointedWith, IsRefusedWith, IsSettledWith};

use link_db::SymbolDb;
use link_flags::PerSymbolFlags;
use link_input::Platform;
use link_resolve::{Resolver, resolve_alternative_symbol_definitions};
use link_rules::LinkError;
use std::alloc::Global;

/// Settles which of several definitions of a name counts. After a refusal the database is gone.
pub(crate) fn settle_rivals<P: Platform>(
    alloc: Global,
    db: SymbolDb<P>,
    flags: &mut PerSymbolFlags,
    resolver: &Resolver,
) -> Result<SymbolDb<P>, LinkError>
    requires room { HasRoom (seen db) (words_of flags.old) }
    requires listed { IsListed (seen db) }
    requires strengths { length resolver.now.known.strengths ≡ length (symbols_in (seen db).mapping.files.groups) }
    ensures room { IfOk result (λ left. HasRoom (seen left) (words_of flags.new)) }
    ensures options { IfOk result (λ left. (seen left).options ≡ (seen db).options) }
    ensures added { IfOk result (λ left. (seen left).mapping.files.added ≡ []) }
    ensures refused { IfErr result (λ error. (demangle : Bytes → Bytes) (w : World) (l : Selection) → IsPointedWith (platform_of P.Platform) demangle w l (seen db) (numbers_of (words_of flags.old)) resolver.now
        → IsRefusedWith w error) }
    ensures settled { IfOk result (λ left. (demangle : Bytes → Bytes) (w : World) (l : Selection) → IsPointedWith (platform_of P.Platform) demangle w l (seen db) (numbers_of (words_of flags.old)) resolver.now
        → IsSettledWith (platform_of P.Platform) demangle w l (seen left) (numbers_of (words_of flags.new)) resolver.now) }
{
    let left = resolve_alternative_symbol_definitions(alloc, db, flags, resolver.resolved())?;
    Ok(left)
}
