//! Which of several definitions of a name counts, once it is known which objects are loaded.

ghost use Rattle.std.specs.Prelude.{◌≡◌, ◌++◌, ◌<◌, ◌≤◌, ◌^◌, All, IfOk, OnErr, OnOk, length, map, take};
ghost use Rattle.link_db_files.specs.GroupFiles.{symbols_in};
ghost use Rattle.link_db_files.specs.Inputs.{objects_in};
ghost use Rattle.link_flags.specs.FlagWords.{numbers_of, words_of};
ghost use Rattle.link_input.specs.Symbols.{is_shared, visibility_in};
ghost use Rattle.link_db_texts.specs.Causes.{TellsCause};
ghost use Rattle.link_db_texts.specs.Holds.{platform_of};
ghost use Rattle.link_resolve_rivals.specs.Settled.{IsInside, clash_line};
ghost use Rattle.link_resolve_rivals.specs.Survivors.{Tells};
ghost use Rattle.link_db_mapping.specs.Mapped.{AreHeadsMarked};
ghost use Rattle.link_rules.specs.Places.{Bytes, each_from};
ghost use Rattle.link_rules.specs.Refusals.{duplicate_lines, plain_duplicates, unless_none, versioned_duplicates};
ghost use Rattle.link_rules.specs.Rivals.{plain_table, reference_table, versioned_table};
ghost use Rattle.link_rules.specs.Selection.{Selection};
ghost use Rattle.link_rules.specs.Sorting.{sorted_texts};
ghost use Rattle.link_rules.specs.Visibility.{narrowed_symbol};
ghost use Rattle.link_rules.specs.World.{Stage};
ghost use Rattle.link_db.specs.Database.{HasTable, symbol_names};
ghost use Rattle.link_db.specs.Seen.{seen};
ghost use Rattle.link_resolve.specs.Known.{IsListed, IsSelection};
ghost use Rattle.link_resolve.specs.Settled.{IsSettled};

use crate::duplicates::refuse_duplicates;
use crate::lists::{PlainLists, VersionedLists};
use crate::resolved::Resolved;
use link_db::SymbolDb;
use link_flags::{PerSymbolFlags, Visibility};
use link_ids::SymbolId;
use link_input::Platform;
use link_resolve_marks::{RivalColumns, held_symbols, rival_columns};
use link_resolve_rivals::{Clash, Survivors, narrow, settle};
use link_rules::LinkError;
use std::alloc::{AllocError, Global};

/// Settles the definitions of plain names, over what references give.
fn settle_plain<P: Platform>(
    alloc: Global,
    db: &SymbolDb<P>,
    heads: &[bool],
    survivors: &Survivors,
    table: &mut [SymbolId],
) -> Result<Vec<Clash>, AllocError>
    requires listed { IsListed (seen db.now) }
    requires heads { AreHeadsMarked (seen db.now).mapping heads.now }
    requires count { length table.old ≡ length (symbols_in (seen db.now).mapping.files.groups) }
    requires columns { length survivors.now.strengths.now ≡ length table.old }
    requires inside { All (λ t. t < length table.old) table.old }
    requires numbers { length table.old ≤ 2 ^ 32 }
    ensures table { OnOk result ((l : Selection) → Tells survivors.now l → l.stage.symbols ≡ symbols_in (seen db.now).mapping.files.groups
        → table.old ≡ reference_table l → table.new ≡ plain_table l) }
    ensures clashes { IfOk result (λ told. (l : Selection) → Tells survivors.now l → l.stage.symbols ≡ symbols_in (seen db.now).mapping.files.groups
        → table.old ≡ reference_table l → map (clash_line l.stage) told.items ≡ plain_duplicates l) }
    ensures inside { All (λ t. t < length table.new) table.new }
    ensures len { length table.new ≡ length table.old }
    ensures told { IfOk result (λ told. All (IsInside (length table.old)) told.items) }
{
    let clashes = settle(alloc, survivors, &PlainLists { db, heads }, table)?;
    Ok(clashes)
}

/// Settles the definitions of names with versions, over what plain names are settled to.
fn settle_versioned<P: Platform>(
    alloc: Global,
    db: &SymbolDb<P>,
    heads: &[bool],
    survivors: &Survivors,
    table: &mut [SymbolId],
) -> Result<Vec<Clash>, AllocError>
    requires listed { IsListed (seen db.now) }
    requires heads { AreHeadsMarked (seen db.now).mapping heads.now }
    requires count { length table.old ≡ length (symbols_in (seen db.now).mapping.files.groups) }
    requires columns { length survivors.now.strengths.now ≡ length table.old }
    requires inside { All (λ t. t < length table.old) table.old }
    requires numbers { length table.old ≤ 2 ^ 32 }
    ensures table { OnOk result ((l : Selection) → Tells survivors.now l → l.stage.symbols ≡ symbols_in (seen db.now).mapping.files.groups
        → table.old ≡ plain_table l → table.new ≡ versioned_table l) }
    ensures clashes { IfOk result (λ told. (l : Selection) → Tells survivors.now l → l.stage.symbols ≡ symbols_in (seen db.now).mapping.files.groups
        → table.old ≡ plain_table l → map (clash_line l.stage) told.items ≡ versioned_duplicates l (plain_table l)) }
    ensures inside { All (λ t. t < length table.new) table.new }
    ensures len { length table.new ≡ length table.old }
    ensures told { IfOk result (λ told. All (IsInside (length table.old)) told.items) }
{
    let clashes = settle(alloc, survivors, &VersionedLists { db, heads }, table)?;
    Ok(clashes)
}

/// Settles the definitions of plain names, and then those of names with versions, over what references give. The answer is the clashes of both.
fn settle_names<P: Platform>(
    alloc: Global,
    db: &SymbolDb<P>,
    resolved: &Resolved,
    dynamic: &[bool],
    heads: &[bool],
    table: &mut [SymbolId],
) -> Result<(Vec<Clash>, Vec<Clash>), AllocError>
    requires listed { IsListed (seen db.now) }
    requires heads { AreHeadsMarked (seen db.now).mapping heads.now }
    requires dynamic { dynamic.now ≡ map (λ x. is_shared x.origin) (symbols_in (seen db.now).mapping.files.groups) }
    requires count { length table.old ≡ length (symbols_in (seen db.now).mapping.files.groups) }
    requires known { length resolved.now.strengths ≡ length (symbols_in (seen db.now).mapping.files.groups) }
    requires inside { All (λ t. t < length table.old) table.old }
    requires numbers { length table.old ≤ 2 ^ 32 }
    ensures table { OnOk result ((demangle : Bytes → Bytes) (l : Selection) → IsSelection (platform_of P.Platform) demangle (seen db.now) resolved.now l
        → table.old ≡ reference_table l → table.new ≡ versioned_table l) }
    ensures plain { IfOk result (λ told. (demangle : Bytes → Bytes) (l : Selection) → IsSelection (platform_of P.Platform) demangle (seen db.now) resolved.now l
        → table.old ≡ reference_table l → map (clash_line l.stage) told.0.items ≡ plain_duplicates l) }
    ensures versioned { IfOk result (λ told. (demangle : Bytes → Bytes) (l : Selection) → IsSelection (platform_of P.Platform) demangle (seen db.now) resolved.now l
        → table.old ≡ reference_table l → map (clash_line l.stage) told.1.items ≡ versioned_duplicates l (plain_table l)) }
    ensures inside { All (λ t. t < length table.new) table.new }
    ensures told_plain { IfOk result (λ told. All (IsInside (length table.old)) told.0.items) }
    ensures told_versioned { IfOk result (λ told. All (IsInside (length table.old)) told.1.items) }
{
    let held = held_symbols(alloc, db.files(), resolved.loaded())?;
    let survivors = Survivors {
        strengths: resolved.strengths(),
        dynamic,
        held: held.as_slice(),
        weak_overrides_common: P::WEAK_SYMBOLS_OVERRIDE_COMMON,
        allow_multiple: db.options().allow_multiple,
    };
    let plain = settle_plain(alloc, db, heads, &survivors, table)?;
    let versioned = settle_versioned(alloc, db, heads, &survivors, table)?;
    Ok((plain, versioned))
}

/// Settles names in the table of the database. The answer is the clashes of plain names, and of names with versions. The only refusal is want of
/// memory; then the table is gone.
fn settle_table<P: Platform>(
    alloc: Global,
    db: &mut SymbolDb<P>,
    resolved: &Resolved,
    dynamic: &[bool],
    heads: &[bool],
) -> Result<(Vec<Clash>, Vec<Clash>), AllocError>
    requires listed { IsListed (seen db.old) }
    requires heads { AreHeadsMarked (seen db.old).mapping heads.now }
    requires table { HasTable (seen db.old) }
    requires dynamic { dynamic.now ≡ map (λ x. is_shared x.origin) (symbols_in (seen db.old).mapping.files.groups) }
    requires known { length resolved.now.strengths ≡ length (symbols_in (seen db.old).mapping.files.groups) }
    ensures table { OnOk result ((demangle : Bytes → Bytes) (l : Selection) → IsSelection (platform_of P.Platform) demangle (seen db.old) resolved.now l
        → (seen db.old).table ≡ reference_table l → (seen db.new).table ≡ versioned_table l) }
    ensures plain { IfOk result (λ told. (demangle : Bytes → Bytes) (l : Selection) → IsSelection (platform_of P.Platform) demangle (seen db.old) resolved.now l
        → (seen db.old).table ≡ reference_table l → map (clash_line l.stage) told.0.items ≡ plain_duplicates l) }
    ensures versioned { IfOk result (λ told. (demangle : Bytes → Bytes) (l : Selection) → IsSelection (platform_of P.Platform) demangle (seen db.old) resolved.now l
        → (seen db.old).table ≡ reference_table l → map (clash_line l.stage) told.1.items ≡ versioned_duplicates l (plain_table l)) }
    ensures rest { OnOk result (seen db.new ≡ record (seen db.old) { table = (seen db.new).table }) }
    ensures whole { OnOk result (HasTable (seen db.new)) }
    ensures told_plain { IfOk result (λ told. All (IsInside (length (symbol_names (seen db.old)))) told.0.items) }
    ensures told_versioned { IfOk result (λ told. All (IsInside (length (symbol_names (seen db.old)))) told.1.items) }
{
    let _numbers = db.num_symbols();
    let mut table = db.take_definitions();
    let (plain, versioned) = settle_names(
        alloc,
        db,
        resolved,
        dynamic,
        heads,
        table.as_mut_slice(),
    )?;
    db.restore_definitions(table);
    Ok((plain, versioned))
}

/// Makes each symbol as visible as the strictest of its name, and of its name and version.
fn narrow_names<P: Platform>(
    db: &SymbolDb<P>,
    visibilities: &[Visibility],
    dynamic: &[bool],
    heads: &[bool],
    flags: &mut PerSymbolFlags,
)
    requires listed { IsListed (seen db.now) }
    requires heads { AreHeadsMarked (seen db.now).mapping heads.now }
    requires visibilities { visibilities.now ≡ map (λ x. visibility_in x.origin) (symbols_in (seen db.now).mapping.files.groups) }
    requires dynamic { dynamic.now ≡ map (λ x. is_shared x.origin) (symbols_in (seen db.now).mapping.files.groups) }
    requires flags { length (words_of flags.old) ≡ length dynamic.now }
    requires numbers { length dynamic.now ≤ 2 ^ 32 }
    ensures flags { (w : Stage) → w.symbols ≡ symbols_in (seen db.now).mapping.files.groups
        → numbers_of (words_of flags.new) ≡ each_from (narrowed_symbol w (numbers_of (words_of flags.old))) 0 w.symbols }
    ensures len { length (words_of flags.new) ≡ length (words_of flags.old) }
{
    narrow(&PlainLists { db, heads }, visibilities, dynamic, flags);
    narrow(&VersionedLists { db, heads }, visibilities, dynamic, flags);
}

/// Settles rivals in a database, and makes their symbols as visible as the strictest.
fn settle_rivals<P: Platform>(
    alloc: Global,
    db: &mut SymbolDb<P>,
    flags: &mut PerSymbolFlags,
    resolved: &Resolved,
) -> Result<(), LinkError>
    requires listed { IsListed (seen db.old) }
    requires table { HasTable (seen db.old) }
    requires known { length resolved.now.strengths ≡ length (symbols_in (seen db.old).mapping.files.groups) }
    requires flags { length (words_of flags.old) ≡ length (symbols_in (seen db.old).mapping.files.groups) }
    ensures cause { (demangle : Bytes → Bytes) (l : Selection) → IsSelection (platform_of P.Platform) demangle (seen db.old) resolved.now l
        → (seen db.old).table ≡ reference_table l → TellsCause (unless_none (duplicate_lines l)) result }
    ensures table { OnOk result ((demangle : Bytes → Bytes) (l : Selection) → IsSelection (platform_of P.Platform) demangle (seen db.old) resolved.now l
        → (seen db.old).table ≡ reference_table l → (seen db.new).table ≡ versioned_table l) }
    ensures flags { OnOk result ((w : Stage) → w.symbols ≡ symbols_in (seen db.old).mapping.files.groups
        → numbers_of (words_of flags.new) ≡ each_from (narrowed_symbol w (numbers_of (words_of flags.old))) 0 w.symbols) }
    ensures rest { OnOk result (seen db.new ≡ record (seen db.old) {
      table = (seen db.new).table;
      mapping = record (seen db.old).mapping { lists = λ key. take 1 ((seen db.old).mapping.lists key) };
    }) }
    ensures whole { OnOk result (HasTable (seen db.new)) }
    ensures words { length (words_of flags.new) ≡ length (words_of flags.old) }
    ensures err { OnErr result (words_of flags.new ≡ words_of flags.old) }
{
    let _numbers = db.num_symbols();
    let RivalColumns {
        dynamic,
        visibilities,
    } = rival_columns(alloc, db.files())?;
    let heads = db.heads_of_several(alloc)?;
    let (plain, versioned) = settle_table(
        alloc,
        db,
        resolved,
        dynamic.as_slice(),
        heads.as_slice(),
    )?;
    match refuse_duplicates(alloc, db, plain.as_slice(), versioned.as_slice()) {
        Err(error) => Err(error),
        Ok(()) => {
            narrow_names(
                db,
                visibilities.as_slice(),
                dynamic.as_slice(),
                heads.as_slice(),
                flags,
            );
            db.release_alternatives();
            Ok(())
        }
    }
}

/// Settles which of several definitions of a name counts, now that it is known which objects are loaded. Where two or more symbols define a name, or a
/// name and version, each of them points to the one that counts; all of them that no shared file gives become as visible as the strictest, loaded or not. The
/// later definitions of names are given up then.
///
/// It is refused with the names of which two strong definitions are left, where the options don't allow several, and with `Memory`; then the
/// database is gone, and the flags are as they were.
pub fn resolve_alternative_symbol_definitions<P: Platform>(
    alloc: Global,
    mut db: SymbolDb<P>,
    flags: &mut PerSymbolFlags,
    resolved: &Resolved,
) -> Result<SymbolDb<P>, LinkError>
    requires listed { IsListed (seen db) }
    requires table { HasTable (seen db) }
    requires known { length resolved.now.strengths ≡ length (symbols_in (seen db).mapping.files.groups) }
    requires flags { length (words_of flags.old) ≡ length (symbols_in (seen db).mapping.files.groups) }
    ensures cause { (demangle : Bytes → Bytes) (l : Selection) → IsSelection (platform_of P.Platform) demangle (seen db) resolved.now l
        → (seen db).table ≡ reference_table l → TellsCause (unless_none (duplicate_lines l)) result }
    ensures table { IfOk result (λ left. (demangle : Bytes → Bytes) (l : Selection) → IsSelection (platform_of P.Platform) demangle (seen db) resolved.now l
        → (seen db).table ≡ reference_table l → (seen left).table ≡ versioned_table l) }
    ensures flags { OnOk result ((w : Stage) → w.symbols ≡ symbols_in (seen db).mapping.files.groups
        → numbers_of (words_of flags.new) ≡ each_from (narrowed_symbol w (numbers_of (words_of flags.old))) 0 w.symbols) }
    ensures rest { IfOk result (λ left. seen left ≡ record (seen db) {
      table = (seen left).table;
      mapping = record (seen db).mapping { lists = λ key. take 1 ((seen db).mapping.lists key) };
    }) }
    ensures settled { IfOk result (λ left. (demangle : Bytes → Bytes) (l : Selection) → IsSelection (platform_of P.Platform) demangle (seen db) resolved.now l
        → IsSettled (seen left) resolved.now l) }
    ensures whole { IfOk result (λ left. HasTable (seen left)) }
    ensures words { length (words_of flags.new) ≡ length (words_of flags.old) }
    ensures err { OnErr result (words_of flags.new ≡ words_of flags.old) }
{
    match settle_rivals(alloc, &mut db, flags, resolved) {
        Ok(()) => Ok(db),
        Err(error) => Err(error),
    }
}
