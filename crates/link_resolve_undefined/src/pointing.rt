//! What each symbol points to, once undefined references are done.

ghost use Rattle.std.specs.Prelude.{◌≡◌, ◌&&◌, ◌+◌, ◌++◌, ◌≤◌, ◌<◌, ℕ, All, List, OnErr, OnOk, is_some, length};
ghost use Rattle.link_db_files.specs.GroupFiles.{symbols_in};
ghost use Rattle.link_input.specs.Symbols.{Symbol};
ghost use Rattle.link_rules.specs.Places.{each_from, is_number};
ghost use Rattle.link_rules.specs.Rivals.{versioned_table};
ghost use Rattle.link_rules.specs.Selection.{Selection};
ghost use Rattle.link_rules.specs.Undefined.{final_entry, final_table_over, left_undefined};
ghost use Rattle.link_resolve_undefined.specs.Asked.{AreBelow, last_in, makers_in};
ghost use Rattle.link_resolve_undefined.specs.Edited.{edited};
ghost use Rattle.link_resolve_undefined.specs.Keys.{Asks, name_of, version_of};
ghost use Rattle.link_resolve_undefined.specs.Pointed.{AreLeftOf, pointed};
ghost use Rattle.link_resolve_undefined.specs.Records.{AreSome, numbered_at};

use crate::asked_name::AskedName;
use crate::asked_names::AskedNames;
use link_db_files::Files;
use link_ids::SymbolId;
use link_input::Platform;
use std::alloc::{AllocError, Global};

/// Whether the reference of this id is the last that asks for its name and version, and asks for a version.
fn keeps_entry<'a>(asked: &AskedNames<'a>, name: AskedName<'a>, id: SymbolId) -> bool
    ensures { result ≡ (is_some (version_of name.entry) && is_number (last_in asked.now (name_of name.entry) (version_of name.entry)) id) }
{
    !name.is_plain() && asked.last(name) == Some(id)
}

/// What the reference of this id points to: to what stands for its name, but the last to a name with a version to what it did.
fn pointed<'a>(asked: &AskedNames<'a>, name: AskedName<'a>, id: SymbolId, old: SymbolId) -> SymbolId
    ensures { (x : Symbol) → Asks name.entry x → result ≡ pointed asked.now (id, x) old }
{
    if keeps_entry(asked, name, id) {
        old
    } else {
        asked.canonical(name).unwrap_or(id)
    }
}

/// Points these references to what stands for their names.
fn point_all<'a, P: Platform>(
    files: &'a Files<P>,
    left: &[SymbolId],
    asked: &AskedNames<'a>,
    table: &mut [SymbolId],
)
    requires left { All (λ s. s < length (symbols_in files.now.groups)) left.now }
    requires table { length (symbols_in files.now.groups) ≤ length table.old }
    ensures { table.new ≡ edited (pointed asked.now) (numbered_at (symbols_in files.now.groups) left.now) table.old }
{
    for id in left {
        let place = id.as_usize();
        table[place] = pointed(asked, AskedName::of(files, *id), *id, table[place]);
    }
}

/// Points the references that stay undefined to what stands for their names, where the table is that of versions: of several to a name all
/// but the last. What stands behind the entries of all symbols stays.
pub fn point_references<'a, P: Platform>(
    files: &'a Files<P>,
    left: &[SymbolId],
    asked: &AskedNames<'a>,
    table: &mut [SymbolId],
)
    requires left { AreSome (symbols_in files.now.groups) left.now }
    requires table { length (symbols_in files.now.groups) ≤ length table.old }
    ensures entries { (l : Selection) → (more : List ℕ) → AreLeftOf (symbols_in files.now.groups) left.now asked.now l → table.old ≡ versioned_table l ++ more
        → table.new ≡ each_from (final_entry l (left_undefined l) (versioned_table l)) 0 l.stage.symbols ++ more }
    ensures below { (count : ℕ) → AreBelow count asked.now → length (symbols_in files.now.groups) ≤ count
        → All (λ t. t < count) table.old → All (λ t. t < count) table.new }
{
    point_all(files, left, asked, table);
}

/// What each symbol points to at the end, where the table is that of versions: the references that stay undefined to what stands for their
/// names, and each new symbol to itself. After a refusal, which is want of memory, the table is as before.
pub fn point_undefined<'a, P: Platform>(
    alloc: Global,
    files: &'a Files<P>,
    left: &[SymbolId],
    asked: &AskedNames<'a>,
    table: &mut Vec<SymbolId>,
) -> Result<(), AllocError>
    requires left { AreSome (symbols_in files.now.groups) left.now }
    requires table { length (symbols_in files.now.groups) ≤ length table.old.items }
    ensures ok { OnOk result ((l : Selection) → AreLeftOf (symbols_in files.now.groups) left.now asked.now l → table.old.items ≡ versioned_table l
        → table.new.items ≡ final_table_over l (left_undefined l)) }
    ensures len { OnOk result (length table.new.items ≡ length table.old.items + length (makers_in asked.now)) }
    ensures below { OnOk result ((count : ℕ) → AreBelow count asked.now → length (symbols_in files.now.groups) ≤ count
        → All (λ t. t < count) table.old.items → All (λ t. t < count) table.new.items) }
    ensures err { OnErr result (table.new.items ≡ table.old.items) }
{
    let mut new = asked.new_ids(alloc)?;
    table.append(&mut new)?;
    point_references(files, left, asked, table.as_mut_slice());
    Ok(())
}
