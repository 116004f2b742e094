//! Behind the last batch of a link: one step after another, to its answer.

ghost use Rattle.std.specs.Prelude.{◌≡◌, IfErr, IfOk, length};
ghost use Rattle.link_db_files.specs.GroupFiles.{symbols_in};
ghost use Rattle.link_db_files.specs.Inputs.{objects_in};
ghost use Rattle.link_flags.specs.FlagWords.{numbers_of, words_of};
ghost use Rattle.link_db_texts.specs.Holds.{platform_of};
ghost use Rattle.link_resolve.specs.Known.{IsListed};
ghost use Rattle.link_resolve_explanation.specs.Rooted.{FollowsFrom};
ghost use Rattle.link_rules.specs.Answer.{IsLinked};
ghost use Rattle.link_rules.specs.Explained.{Explains};
ghost use Rattle.link_rules.specs.Loading.{root_symbols};
ghost use Rattle.link_rules.specs.Selection.{Selection};
ghost use Rattle.link_rules.specs.World.{World};
ghost use Rattle.link_db.specs.Seen.{seen};
ghost use Rattle.link_core_answer.specs.Parts.{answer_of};
ghost use Rattle.link_core_answer.specs.Seen as answer;
ghost use Rattle.link_core.specs.Steps.{HasRoom, IsKept, IsLoadedWith, IsPointedWith, IsRefusedWith, IsSteady};

use crate::ending::end_link;
use crate::opening::OpenLink;
use crate::pointing::point_symbols;
use crate::settling::settle_rivals;
use link_core_answer::Linked;
use link_db::SymbolDb;
use link_flags::PerSymbolFlags;
use link_input::Platform;
use link_resolve::Resolver;
use link_resolve_explanation::explain;
use link_resolve_requests::root_symbols;
use link_rules::{Explanation, FoundRoot, LinkError};
use link_script::Demangler;
use std::alloc::Global;

/// Ends a link in which each symbol points to what it stands for: rivals are settled, and what is told at the end is found.
fn settle_and_end<P: Platform, D: Demangler>(
    alloc: Global,
    db: SymbolDb<P>,
    mut flags: PerSymbolFlags,
    resolver: Resolver,
    demangler: &D,
) -> Result<Linked<P>, LinkError>
    requires room { HasRoom (seen db) (words_of flags) }
    requires listed { IsListed (seen db) }
    requires strengths { length resolver.known.strengths ≡ length (symbols_in (seen db).mapping.files.groups) }
    ensures refused { IfErr result (λ error. (w : World) (l : Selection)
        → IsPointedWith (platform_of P.Platform) (D.demangled demangler.now) w l (seen db) (numbers_of (words_of flags)) resolver → IsRefusedWith w error) }
    ensures objects { IfOk result (λ linked. (w : World) (l : Selection)
        → IsPointedWith (platform_of P.Platform) (D.demangled demangler.now) w l (seen db) (numbers_of (words_of flags)) resolver
        → objects_in (answer.seen linked).db.mapping.files.groups ≡ l.stage.objects) }
    ensures kept { IfOk result (λ linked. (w : World) (l : Selection)
        → IsPointedWith (platform_of P.Platform) (D.demangled demangler.now) w l (seen db) (numbers_of (words_of flags)) resolver
        → IsKept l (answer.seen linked).db (answer.seen linked).known (answer.seen linked).groups) }
    ensures linked { IfOk result (λ linked. (w : World) (l : Selection)
        → IsPointedWith (platform_of P.Platform) (D.demangled demangler.now) w l (seen db) (numbers_of (words_of flags)) resolver
        → IsLinked w (answer_of (answer.seen linked))) }
    ensures roots { IfOk result (λ linked. (w : World) (l : Selection)
        → IsPointedWith (platform_of P.Platform) (D.demangled demangler.now) w l (seen db) (numbers_of (words_of flags)) resolver
        → (answer.seen linked).roots ≡ root_symbols l.stage) }
{
    let sections = Vec::from_clones(alloc, db.options().custom_sections.as_slice())?;
    let roots = root_symbols(alloc, &db)?;
    let db = settle_rivals(alloc, db, &mut flags, &resolver)?;
    end_link(alloc, db, flags, resolver, &sections, roots, demangler)
}

/// Ends a link behind its last batch.
pub(crate) fn finish_link<P: Platform, D: Demangler>(
    alloc: Global,
    link: OpenLink<P>,
    demangler: &D,
) -> Result<Linked<P>, LinkError>
    requires room { HasRoom (seen link.db) (words_of link.flags) }
    requires steady { IsSteady (seen link.db) (words_of link.flags) link.resolver.known }
    ensures refused { IfErr result (λ error. (w : World) (l : Selection)
        → IsLoadedWith (platform_of P.Platform) (D.demangled demangler.now) w l (seen link.db) (numbers_of (words_of link.flags)) link.resolver → IsRefusedWith w error) }
    ensures objects { IfOk result (λ linked. (w : World) (l : Selection)
        → IsLoadedWith (platform_of P.Platform) (D.demangled demangler.now) w l (seen link.db) (numbers_of (words_of link.flags)) link.resolver
        → objects_in (answer.seen linked).db.mapping.files.groups ≡ l.stage.objects) }
    ensures kept { IfOk result (λ linked. (w : World) (l : Selection)
        → IsLoadedWith (platform_of P.Platform) (D.demangled demangler.now) w l (seen link.db) (numbers_of (words_of link.flags)) link.resolver
        → IsKept l (answer.seen linked).db (answer.seen linked).known (answer.seen linked).groups) }
    ensures linked { IfOk result (λ linked. (w : World) (l : Selection)
        → IsLoadedWith (platform_of P.Platform) (D.demangled demangler.now) w l (seen link.db) (numbers_of (words_of link.flags)) link.resolver
        → IsLinked w (answer_of (answer.seen linked))) }
    ensures roots { IfOk result (λ linked. (w : World) (l : Selection)
        → IsLoadedWith (platform_of P.Platform) (D.demangled demangler.now) w l (seen link.db) (numbers_of (words_of link.flags)) link.resolver
        → (answer.seen linked).roots ≡ root_symbols l.stage) }
{
    let OpenLink {
        mut db,
        flags,
        mut resolver,
    } = link;
    point_symbols(alloc, &mut db, &flags, &mut resolver)?;
    settle_and_end(alloc, db, flags, resolver, demangler)
}

/// The same, with the explanation of the link by what was found for root names, in their order.
pub(crate) fn explain_link<P: Platform, D: Demangler>(
    alloc: Global,
    link: OpenLink<P>,
    roots: &[FoundRoot],
    demangler: &D,
) -> Result<(Linked<P>, Explanation), LinkError>
    requires room { HasRoom (seen link.db) (words_of link.flags) }
    requires steady { IsSteady (seen link.db) (words_of link.flags) link.resolver.known }
    ensures refused { IfErr result (λ error. (w : World) (l : Selection)
        → IsLoadedWith (platform_of P.Platform) (D.demangled demangler.now) w l (seen link.db) (numbers_of (words_of link.flags)) link.resolver → IsRefusedWith w error) }
    ensures objects { IfOk result (λ told. (w : World) (l : Selection)
        → IsLoadedWith (platform_of P.Platform) (D.demangled demangler.now) w l (seen link.db) (numbers_of (words_of link.flags)) link.resolver
        → objects_in (answer.seen told.0).db.mapping.files.groups ≡ l.stage.objects) }
    ensures kept { IfOk result (λ told. (w : World) (l : Selection)
        → IsLoadedWith (platform_of P.Platform) (D.demangled demangler.now) w l (seen link.db) (numbers_of (words_of link.flags)) link.resolver
        → IsKept l (answer.seen told.0).db (answer.seen told.0).known (answer.seen told.0).groups) }
    ensures linked { IfOk result (λ told. (w : World) (l : Selection)
        → IsLoadedWith (platform_of P.Platform) (D.demangled demangler.now) w l (seen link.db) (numbers_of (words_of link.flags)) link.resolver
        → IsLinked w (answer_of (answer.seen told.0))) }
    ensures roots { IfOk result (λ told. (w : World) (l : Selection)
        → IsLoadedWith (platform_of P.Platform) (D.demangled demangler.now) w l (seen link.db) (numbers_of (words_of link.flags)) link.resolver
        → (answer.seen told.0).roots ≡ root_symbols l.stage) }
    ensures explained { IfOk result (λ told. (w : World) (l : Selection)
        → IsLoadedWith (platform_of P.Platform) (D.demangled demangler.now) w l (seen link.db) (numbers_of (words_of link.flags)) link.resolver
        → FollowsFrom roots.now l → Explains l roots.now told.1) }
{
    let OpenLink {
        mut db,
        flags,
        mut resolver,
    } = link;
    point_symbols(alloc, &mut db, &flags, &mut resolver)?;
    let explanation = explain(alloc, &db, resolver.resolved(), roots)?;
    let linked = settle_and_end(alloc, db, flags, resolver, demangler)?;
    Ok((linked, explanation))
}
