//! What is told at the end of a link.

ghost use Rattle.std.specs.Prelude.{◌≡◌, ◌<◌, ◌++◌, ℕ, List, [], ◌∷◌, All, IfErr, IfOk, OnOk, filter, is_none, length, if◌then◌else◌};
ghost use Rattle.link_db_files.specs.Inputs.{objects_in};
ghost use Rattle.link_flags.specs.FlagWords.{numbers_of, words_of};
ghost use Rattle.link_db_texts.specs.Holds.{AreRulesOf, platform_of};
ghost use Rattle.link_db_mapping.specs.Mapped.{mapping_of};
ghost use Rattle.link_rules.specs.Answer.{IsLinked};
ghost use Rattle.link_rules.specs.Places.{Bytes};
ghost use Rattle.link_rules.specs.Rules.{Rules};
ghost use Rattle.link_rules.specs.Selection.{Selection};
ghost use Rattle.link_rules.specs.World.{World};
ghost use Rattle.link_db.specs.Database.{HasTable, symbol_names};
ghost use Rattle.link_db.specs.Seen.{seen};
ghost use Rattle.link_core_answer.specs.Parts.{answer_of};
ghost use Rattle.link_core_answer.specs.Seen as answer;
ghost use Rattle.link_rules.specs.Undefined.{resolved};
ghost use Rattle.link_core.specs.Steps.{HasRoom, IsEndedWith, IsKept, IsRefusedWith, IsSettledWith, undefined_ids};

use link_core_answer::Linked;
use link_db::SymbolDb;
use link_flags::PerSymbolFlags;
use link_ids::SymbolId;
use link_input::Platform;
use link_names::Name;
use link_resolve::{Resolver, symbol_versions};
use link_rules::{GivenVersion, LinkError};
use link_script::Demangler;
use std::alloc::{AllocError, Global};

/// Adds a name if nothing defines it.
fn push_missing(
    alloc: Global,
    missing: &mut Vec<Name>,
    is_missing: bool,
    name: &Name,
) -> Result<(), AllocError>
    ensures { OnOk result (missing.new.items ≡ missing.old.items ++ (if is_missing then name.now ∷ [] else [])) }
{
    if is_missing {
        missing.push(Name::from_slice(alloc, name.as_slice())?)?;
    }
    Ok(())
}

/// Those of these names that are mapped to nothing, in their order.
fn missing_among<P: Platform>(
    alloc: Global,
    db: &SymbolDb<P>,
    names: &[Name],
) -> Result<Vec<Name>, AllocError>
    ensures { IfOk result (λ missing. missing.items ≡ filter (λ name. is_none (mapping_of (seen db.now).mapping name)) names.now) }
{
    let mut missing = Vec::new(alloc);
    for name in names {
        let is_missing = db.get_unversioned(name.as_slice()).is_none();
        push_missing(alloc, &mut missing, is_missing, name)?;
    }
    Ok(missing)
}

/// The names that the export list requires and nothing defines, in the order of the list.
fn missing_exports<P: Platform>(alloc: Global, db: &SymbolDb<P>) -> Result<Vec<Name>, AllocError>
    ensures { IfOk result (λ names. (demangle : Bytes → Bytes) (rules : Rules) → AreRulesOf (platform_of P.Platform) demangle (seen db.now).rules rules
        → names.items ≡ filter (λ name. is_none (mapping_of (seen db.now).mapping name)) rules.required_exports) }
{
    let missing = missing_among(alloc, db, db.required_export_symbols())?;
    Ok(missing)
}

/// Does what a version script of the Rust form says, and finds what stands for undefined references. The answer is the references that stand for
/// undefined names.
fn end_symbols<P: Platform>(
    alloc: Global,
    db: &mut SymbolDb<P>,
    flags: &mut PerSymbolFlags,
    resolver: &Resolver,
    custom_sections: &[Name],
) -> Result<Vec<SymbolId>, AllocError>
    requires room { HasRoom (seen db.old) (words_of flags.old) }
    requires added { (seen db.old).mapping.files.added ≡ [] }
    requires sections { custom_sections.now ≡ (seen db.old).options.custom_sections }
    ensures table { OnOk result (HasTable (seen db.new)) }
    ensures words { OnOk result (length (words_of flags.new) ≡ length (symbol_names (seen db.new))) }
    ensures within { IfOk result (λ ids. All (λ s. s < length (symbol_names (seen db.new))) ids.items) }
    ensures ended { OnOk result ((demangle : Bytes → Bytes) (w : World) (l : Selection) → IsSettledWith (platform_of P.Platform) demangle w l (seen db.old) (numbers_of (words_of flags.old)) resolver.now
        → IsEndedWith (platform_of P.Platform) demangle w l (seen db.new) (numbers_of (words_of flags.new)) resolver.now) }
    ensures undefined { IfOk result (λ ids. (demangle : Bytes → Bytes) (w : World) (l : Selection)
        → IsSettledWith (platform_of P.Platform) demangle w l (seen db.old) (numbers_of (words_of flags.old)) resolver.now → ids.items ≡ undefined_ids l) }
{
    db.handle_rust_version_script(flags);
    let undefined = resolver.canonicalise_undefined(alloc, db, flags, custom_sections)?;
    Ok(undefined)
}

/// What is told at the end: the references that stand for undefined names, the versions of symbols, and the missing exports.
fn endings<P: Platform, D: Demangler>(
    alloc: Global,
    db: &mut SymbolDb<P>,
    flags: &mut PerSymbolFlags,
    resolver: &Resolver,
    custom_sections: &[Name],
    demangler: &D,
) -> Result<(Vec<SymbolId>, Vec<GivenVersion>, Vec<Name>), LinkError>
    requires room { HasRoom (seen db.old) (words_of flags.old) }
    requires added { (seen db.old).mapping.files.added ≡ [] }
    requires sections { custom_sections.now ≡ (seen db.old).options.custom_sections }
    ensures table { OnOk result (HasTable (seen db.new)) }
    ensures words { OnOk result (length (words_of flags.new) ≡ length (symbol_names (seen db.new))) }
    ensures within { IfOk result (λ told. All (λ s. s < length (symbol_names (seen db.new))) told.0.items) }
    ensures refused { IfErr result (λ error. (w : World) (l : Selection)
        → IsSettledWith (platform_of P.Platform) (D.demangled demangler.now) w l (seen db.old) (numbers_of (words_of flags.old)) resolver.now → IsRefusedWith w error) }
    ensures objects { OnOk result ((w : World) (l : Selection)
        → IsSettledWith (platform_of P.Platform) (D.demangled demangler.now) w l (seen db.old) (numbers_of (words_of flags.old)) resolver.now
        → objects_in (seen db.new).mapping.files.groups ≡ l.stage.objects) }
    ensures kept { OnOk result ((w : World) (l : Selection)
        → IsSettledWith (platform_of P.Platform) (D.demangled demangler.now) w l (seen db.old) (numbers_of (words_of flags.old)) resolver.now
        → IsKept l (seen db.new) resolver.now.known resolver.now.groups) }
    ensures linked { IfOk result (λ told. (w : World) (l : Selection) (roots : List ℕ)
        → IsSettledWith (platform_of P.Platform) (D.demangled demangler.now) w l (seen db.old) (numbers_of (words_of flags.old)) resolver.now
        → IsLinked w (answer_of (record {
          db = seen db.new;
          known = resolver.now.known;
          groups = resolver.now.groups;
          flags = numbers_of (words_of flags.new);
          versions = told.1.items;
          undefined = told.0.items;
          missing = told.2.items;
          roots = roots;
        }))) }
{
    let missing = missing_exports(alloc, db)?;
    let undefined = end_symbols(alloc, db, flags, resolver, custom_sections)?;
    let versions = symbol_versions(alloc, db, resolver.resolved(), demangler)?;
    Ok((undefined, versions, missing))
}

/// Ends a link whose rivals are settled, and in which root names are mapped to these symbols.
pub(crate) fn end_link<P: Platform, D: Demangler>(
    alloc: Global,
    mut db: SymbolDb<P>,
    mut flags: PerSymbolFlags,
    resolver: Resolver,
    custom_sections: &[Name],
    roots: Vec<SymbolId>,
    demangler: &D,
) -> Result<Linked<P>, LinkError>
    requires room { HasRoom (seen db) (words_of flags) }
    requires added { (seen db).mapping.files.added ≡ [] }
    requires sections { custom_sections.now ≡ (seen db).options.custom_sections }
    ensures refused { IfErr result (λ error. (w : World) (l : Selection)
        → IsSettledWith (platform_of P.Platform) (D.demangled demangler.now) w l (seen db) (numbers_of (words_of flags)) resolver → IsRefusedWith w error) }
    ensures objects { IfOk result (λ linked. (w : World) (l : Selection)
        → IsSettledWith (platform_of P.Platform) (D.demangled demangler.now) w l (seen db) (numbers_of (words_of flags)) resolver
        → objects_in (answer.seen linked).db.mapping.files.groups ≡ l.stage.objects) }
    ensures kept { IfOk result (λ linked. (w : World) (l : Selection)
        → IsSettledWith (platform_of P.Platform) (D.demangled demangler.now) w l (seen db) (numbers_of (words_of flags)) resolver
        → IsKept l (answer.seen linked).db (answer.seen linked).known (answer.seen linked).groups) }
    ensures linked { IfOk result (λ linked. (w : World) (l : Selection)
        → IsSettledWith (platform_of P.Platform) (D.demangled demangler.now) w l (seen db) (numbers_of (words_of flags)) resolver → IsLinked w (answer_of (answer.seen linked))) }
    ensures roots { IfOk result (λ linked. (answer.seen linked).roots ≡ roots.items) }
{
    let (undefined, versions, missing) = endings(
        alloc,
        &mut db,
        &mut flags,
        &resolver,
        custom_sections,
        demangler,
    )?;
    Ok(Linked::new(db, resolver, flags, versions, undefined, missing, roots))
}
