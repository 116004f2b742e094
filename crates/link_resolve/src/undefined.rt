//! What stands for the references that stay undefined, over a database.

ghost use Rattle.std.specs.Prelude.{◌≡◌, ◌+◌, ◌*◌, ◌++◌, ◌<◌, ◌≤◌, ◌^◌, [], All, IfOk, OnOk, length, map, slice_index_or};
ghost use Rattle.link_db_files.specs.Adding.{EndsInSynthetic};
ghost use Rattle.link_db_files.specs.GroupFiles.{symbols_in};
ghost use Rattle.link_db_files.specs.Inputs.{objects_in};
ghost use Rattle.link_db_mapping.specs.Mapped.{mapping_of};
ghost use Rattle.link_flags.specs.FlagWords.{numbers_of, words_of};
ghost use Rattle.link_rules.specs.Places.{Bytes};
ghost use Rattle.link_rules.specs.Rivals.{versioned_table};
ghost use Rattle.link_rules.specs.Selection.{Selection};
ghost use Rattle.link_rules.specs.Undefined.{boundary_makers, final_table, left_undefined, resolved as resolution};
ghost use Rattle.link_rules.specs.Visibility.{narrowed_flags};
ghost use Rattle.link_resolve_undefined.specs.Flagged.{flagged, new_words};
ghost use Rattle.link_resolve_undefined.specs.UndefinedNames.{undefined_references};
ghost use Rattle.link_db.specs.Database.{HasTable, symbol_names};
ghost use Rattle.link_db.specs.Seen.{seen};
ghost use Rattle.link_resolve.specs.Settled.{IsSettled, boundary_names, meaning_at_end, with_linker_group, with_linker_symbols};

use crate::definitions::Definitions;
use crate::resolved::Resolved;
use link_db::SymbolDb;
use link_flags::PerSymbolFlags;
use link_ids::{SymbolId, SymbolIdRange};
use link_input::Platform;
use link_names::Name;
use link_resolve_undefined::{
    AskedNames, flag_undefined, point_undefined, references_left, undefined_references,
};
use std::alloc::{AllocError, Global};

/// A copy of what each symbol points to.
fn copied_definitions<P: Platform>(
    alloc: Global,
    db: &mut SymbolDb<P>,
) -> Result<Vec<SymbolId>, AllocError>
    requires { HasTable (seen db.old) }
    ensures same { seen db.new ≡ seen db.old }
    ensures copy { IfOk result (λ table. table.items ≡ (seen db.old).table) }
    ensures inside { IfOk result (λ table. All (λ t. t < length (symbol_names (seen db.old))) table.items) }
{
    let taken = db.take_definitions();
    let copy = Vec::from_slice(alloc, taken.as_slice());
    db.restore_definitions(taken);
    Ok(copy?)
}

/// A copy of flags.
fn copied_flags(alloc: Global, flags: &PerSymbolFlags) -> Result<PerSymbolFlags, AllocError>
    requires { length (words_of flags.now) < 2 ^ 32 }
    ensures { IfOk result (λ copy. words_of copy ≡ words_of flags.now) }
{
    let words = flags.raw_range(SymbolIdRange::prelude(flags.len()));
    let mut copy = PerSymbolFlags::new(alloc);
    for word in words {
        copy.push(word.get())?;
    }
    Ok(copy)
}

/// The names of these symbols.
fn names_of<P: Platform>(
    alloc: Global,
    db: &SymbolDb<P>,
    ids: &[SymbolId],
) -> Result<Vec<Name>, AllocError>
    requires { All (λ s. s < length (symbol_names (seen db.now))) ids.now }
    ensures { IfOk result (λ names. names.items ≡ map (λ s. slice_index_or (symbol_names (seen db.now)) s []) ids.now) }
{
    let mut names = Vec::with_capacity(alloc, ids.len())?;
    for id in ids {
        names.push(Name::from_slice(alloc, db.symbol_name(*id).as_slice())?)?;
    }
    Ok(names)
}

/// What stands for undefined names.
#[derive(Drop)]
struct Canonical {
    /// The names for which new symbols are to be made, in their order.
    new_names: Vec<Name>,
    /// The references that stand for the other names, in the order of their ids.
    references: Vec<SymbolId>,
}

/// Points the references that stay undefined to what stands for their names, and flags them and that, in a table of versions and in narrowed
/// flags. The table and the flags have an entry for each new symbol that is to be made.
fn point_and_flag<P: Platform>(
    alloc: Global,
    db: &SymbolDb<P>,
    resolved: &Resolved,
    custom_sections: &[Name],
    table: &mut Vec<SymbolId>,
    flags: &mut PerSymbolFlags,
) -> Result<Canonical, AllocError>
    requires added { (seen db.now).mapping.files.added ≡ [] }
    requires fits { length (symbol_names (seen db.now)) + 2 * length custom_sections.now ≤ 2 ^ 32 }
    requires table { length table.old.items ≡ length (symbol_names (seen db.now)) }
    requires flags { length (words_of flags.old) ≡ length (symbol_names (seen db.now)) }
    ensures table { OnOk result ((l : Selection) → IsSettled (seen db.now) resolved.now l → l.stage.options.custom_sections ≡ custom_sections.now
        → table.old.items ≡ versioned_table l → table.new.items ≡ final_table l) }
    ensures flags { OnOk result ((l : Selection) → IsSettled (seen db.now) resolved.now l → l.stage.options.custom_sections ≡ custom_sections.now
        → table.old.items ≡ versioned_table l → numbers_of (words_of flags.old) ≡ narrowed_flags l
        → numbers_of (words_of flags.new) ≡ flagged (resolution l) (narrowed_flags l) (new_words (resolution l))) }
    ensures names { IfOk result (λ made. (l : Selection) → IsSettled (seen db.now) resolved.now l → l.stage.options.custom_sections ≡ custom_sections.now
        → made.new_names.items ≡ map (λ m. m.1.name) (boundary_makers l.stage (left_undefined l))) }
    ensures few { IfOk result (λ made. length made.new_names.items ≤ 2 * length custom_sections.now) }
    ensures entries { IfOk result (λ made. length table.new.items ≡ length (symbol_names (seen db.now)) + length made.new_names.items) }
    ensures words { IfOk result (λ made. length (words_of flags.new) ≡ length (symbol_names (seen db.now)) + length made.new_names.items) }
    ensures inside { IfOk result (λ made. All (λ t. t < length (symbol_names (seen db.now))) table.old.items
        → All (λ t. t < length (symbol_names (seen db.now)) + length made.new_names.items) table.new.items) }
    ensures undefined { IfOk result (λ made. (l : Selection) → IsSettled (seen db.now) resolved.now l → l.stage.options.custom_sections ≡ custom_sections.now
        → made.references.items ≡ map (λ u. u.0) (undefined_references l.stage (left_undefined l))) }
    ensures undefined_within { IfOk result (λ made. All (λ s. s < length (symbols_in (seen db.now).mapping.files.groups)) made.references.items) }
{
    let files = db.files();
    let left = references_left(alloc, files, resolved.loaded(), resolved.targets())?;
    let left = left.as_slice();
    let asked = AskedNames::new(alloc, files, left, custom_sections, files.next_symbol_id())?;
    point_undefined(alloc, files, left, &asked, table)?;
    let names = Definitions { db };
    let output = db.output_kind();
    flag_undefined(files, left, &names, &asked, table.as_slice(), output, flags)?;
    let references = undefined_references(alloc, files, left, &asked)?;
    let new_names = names_of(alloc, db, asked.makers())?;
    Ok(Canonical {
        new_names,
        references,
    })
}

/// Adds a symbol of each of these names to the last group, that of the symbols that the linker makes.
fn add_symbols<P: Platform>(
    db: &mut SymbolDb<P>,
    flags: &mut PerSymbolFlags,
    names: Vec<Name>,
) -> Result<(), AllocError>
    requires last { EndsInSynthetic (seen db.old).mapping.files.groups }
    requires table { HasTable (seen db.old) }
    requires flags { length (words_of flags.old) ≡ length (symbol_names (seen db.old)) }
    requires fits { length (symbol_names (seen db.old)) + length names.items < 2 ^ 32 }
    ensures { OnOk result (seen db.new
        ≡ record (seen db.old) { mapping = with_linker_symbols names.items (seen db.old).mapping; table = (seen db.new).table }) }
{
    for name in names {
        db.add_synthetic_symbol(flags, name)?;
    }
    Ok(())
}

/// Adds a group of symbols that the linker makes, one of each of these names.
fn add_group_of<P: Platform>(
    alloc: Global,
    db: &mut SymbolDb<P>,
    flags: &mut PerSymbolFlags,
    names: Vec<Name>,
) -> Result<(), AllocError>
    requires groups { length (seen db.old).mapping.files.groups < 2 ^ 24 }
    requires table { HasTable (seen db.old) }
    requires flags { length (words_of flags.old) ≡ length (symbol_names (seen db.old)) }
    requires fits { length (symbol_names (seen db.old)) + length names.items < 2 ^ 32 }
    ensures { OnOk result (seen db.new
        ≡ record (seen db.old) { mapping = with_linker_group names.items (seen db.old).mapping; table = (seen db.new).table }) }
{
    let _file = db.new_synthetic_symbols_group(alloc)?;
    add_symbols(db, flags, names)?;
    Ok(())
}

/// Points the references that stay undefined to what stands for their names: the last reference that asks for the same, or a new symbol for the start or
/// the end of one of these custom sections. The new symbols stand in a group of their own behind all files; flags are those of the
/// end, but for those of signatures. It wants the table of versions and narrowed flags. The answer is the references that stand for undefined names, in
/// the order of their ids.
///
/// The only refusal is want of memory; then database and flags are of no use.
///
/// Mirrors Wild's `canonicalise_undefined`.
pub(crate) fn canonicalise_references<P: Platform>(
    alloc: Global,
    db: &mut SymbolDb<P>,
    flags: &mut PerSymbolFlags,
    resolved: &Resolved,
    custom_sections: &[Name],
) -> Result<Vec<SymbolId>, AllocError>
    requires added { (seen db.old).mapping.files.added ≡ [] }
    requires table { HasTable (seen db.old) }
    requires flags { length (words_of flags.old) ≡ length (symbol_names (seen db.old)) }
    requires groups { length (seen db.old).mapping.files.groups < 2 ^ 24 }
    requires fits { length (symbol_names (seen db.old)) + 2 * length custom_sections.now < 2 ^ 32 }
    ensures table { OnOk result ((l : Selection) → IsSettled (seen db.old) resolved.now l → l.stage.options.custom_sections ≡ custom_sections.now
        → (seen db.old).table ≡ versioned_table l → (seen db.new).table ≡ final_table l) }
    ensures flags { OnOk result ((l : Selection) → IsSettled (seen db.old) resolved.now l → l.stage.options.custom_sections ≡ custom_sections.now
        → (seen db.old).table ≡ versioned_table l → numbers_of (words_of flags.old) ≡ narrowed_flags l
        → numbers_of (words_of flags.new) ≡ flagged (resolution l) (narrowed_flags l) (new_words (resolution l))) }
    ensures added { OnOk result ((l : Selection) → IsSettled (seen db.old) resolved.now l → l.stage.options.custom_sections ≡ custom_sections.now
        → (seen db.new).mapping.files.added ≡ map (λ m. m.1.name) (boundary_makers l.stage (left_undefined l))) }
    ensures mapping { OnOk result ((l : Selection) → IsSettled (seen db.old) resolved.now l → l.stage.options.custom_sections ≡ custom_sections.now
        → (seen db.new).mapping ≡ with_linker_group (boundary_names l) (seen db.old).mapping) }
    ensures meanings { OnOk result ((l : Selection) → IsSettled (seen db.old) resolved.now l → l.stage.options.custom_sections ≡ custom_sections.now
        → (name : Bytes) → mapping_of (seen db.new).mapping name ≡ meaning_at_end l name) }
    ensures symbols { OnOk result (symbols_in (seen db.new).mapping.files.groups ≡ symbols_in (seen db.old).mapping.files.groups) }
    ensures objects { OnOk result (objects_in (seen db.new).mapping.files.groups ≡ objects_in (seen db.old).mapping.files.groups) }
    ensures options { OnOk result ((seen db.new).options ≡ (seen db.old).options) }
    ensures rules { OnOk result ((seen db.new).rules ≡ (seen db.old).rules) }
    ensures whole { OnOk result (HasTable (seen db.new)) }
    ensures words { OnOk result (length (words_of flags.new) ≡ length (symbol_names (seen db.new))) }
    ensures undefined { IfOk result (λ ids. (l : Selection) → IsSettled (seen db.old) resolved.now l → l.stage.options.custom_sections ≡ custom_sections.now
        → ids.items ≡ map (λ u. u.0) (undefined_references l.stage (left_undefined l))) }
    ensures undefined_within { IfOk result (λ ids. All (λ s. s < length (symbols_in (seen db.old).mapping.files.groups)) ids.items) }
{
    let mut table = copied_definitions(alloc, db)?;
    let mut ended = copied_flags(alloc, flags)?;
    let made = point_and_flag(alloc, db, resolved, custom_sections, &mut table, &mut ended)?;
    let Canonical {
        new_names,
        references,
    } = made;
    add_group_of(alloc, db, flags, new_names)?;
    db.restore_definitions(table);
    *flags = ended;
    Ok(references)
}
