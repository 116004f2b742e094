//! The symbol tables of a made-up link.

ghost use Rattle.std.specs.Prelude.{◌≡◌, ◌≤◌, ◌++◌, IfOk, OnOk};
ghost use Rattle.link_manifest_bulk.specs.Tables.{null_entry, global_entry, reference_to, references, member_symbols, shared_group, member_table, main_table};

use crate::names::{main_file, member_file, own_name, shared_name};
use link_flags::Visibility;
use link_input::{ObjectTable, Place, SectionGroup, SymbolBinding, SymbolEntry, SymbolKind};
use link_names::{Name, Seq};
use std::alloc::{AllocError, Global};

/// The entry that stands before all others of a table.
pub(crate) fn null_entry(alloc: Global) -> SymbolEntry
    ensures { result ≡ null_entry }
{
    SymbolEntry {
        name: Name::new(Vec::new(alloc)),
        version: None,
        is_default: true,
        binding: SymbolBinding::Local,
        visibility: Visibility::Default,
        kind: SymbolKind::Plain,
        size: 0,
        place: Place::Undefined,
    }
}

/// A global symbol that is plain in all else.
pub(crate) fn global_entry(name: Name, place: Place) -> SymbolEntry
    ensures { result ≡ global_entry name place }
{
    SymbolEntry {
        name,
        version: None,
        is_default: true,
        binding: SymbolBinding::Global,
        visibility: Visibility::Default,
        kind: SymbolKind::Plain,
        size: 0,
        place,
    }
}

/// Adds a reference to what a member defines, if there are so many members.
fn push_reference(
    alloc: Global,
    symbols: &mut Seq<SymbolEntry>,
    members: usize,
    member: usize,
) -> Result<(), AllocError>
    ensures { OnOk result (symbols.new ≡ symbols.old ++ reference_to members member) }
{
    if member <= members {
        symbols.push(global_entry(own_name(alloc, member)?, Place::Undefined))?;
    }
    Ok(())
}

/// Adds the references of a member.
fn push_references(
    alloc: Global,
    symbols: &mut Seq<SymbolEntry>,
    members: usize,
    member: usize,
) -> Result<(), AllocError>
    requires { member ≤ 100000 }
    ensures { OnOk result (symbols.new ≡ symbols.old ++ references members member) }
{
    if member % 5 != 0 {
        push_reference(alloc, symbols, members, 2 * member)?;
        push_reference(alloc, symbols, members, 2 * member + 1)?;
    }
    Ok(())
}

/// The symbols of a member: its own, the one that it shares, and its references.
fn member_symbols(
    alloc: Global,
    members: usize,
    member: usize,
) -> Result<Seq<SymbolEntry>, AllocError>
    requires { member ≤ 100000 }
    ensures { IfOk result (λ symbols. symbols ≡ member_symbols members member) }
{
    let mut symbols = Seq::new(alloc);
    symbols.push(null_entry(alloc))?;
    symbols.push(global_entry(own_name(alloc, member)?, Place::Section(1)))?;
    symbols.push(global_entry(shared_name(alloc, member)?, Place::Section(2)))?;
    push_references(alloc, &mut symbols, members, member)?;
    Ok(symbols)
}

/// A COMDAT group of one section, whose signature is the name that members share.
fn shared_group(alloc: Global) -> Result<SectionGroup, AllocError>
    ensures { IfOk result (λ group. group ≡ shared_group) }
{
    Ok(SectionGroup {
        index: 3,
        signature_symbol: 2,
        is_comdat: true,
        members: Seq::from_vec(Vec::from_slice(alloc, &[2])?),
    })
}

/// What is read of a member.
pub(crate) fn member_table(
    alloc: Global,
    members: usize,
    member: usize,
) -> Result<ObjectTable, AllocError>
    requires { member ≤ 100000 }
    ensures { IfOk result (λ table. table ≡ member_table members member) }
{
    let mut groups = Seq::new(alloc);
    groups.push(shared_group(alloc)?)?;
    Ok(ObjectTable {
        is_dynamic: false,
        lib_name: member_file(alloc, member)?,
        sections: 4,
        symbols: member_symbols(alloc, members, member)?,
        groups,
        section_references: Seq::new(alloc),
        retained_sections: Seq::new(alloc),
    })
}

/// What is read of the object that asks for the first member.
pub(crate) fn main_table(alloc: Global) -> Result<ObjectTable, AllocError>
    ensures { IfOk result (λ table. table ≡ main_table) }
{
    let mut symbols = Seq::new(alloc);
    symbols.push(null_entry(alloc))?;
    symbols.push(global_entry(own_name(alloc, 1)?, Place::Undefined))?;
    Ok(ObjectTable {
        is_dynamic: false,
        lib_name: main_file(alloc)?,
        sections: 0,
        symbols,
        groups: Seq::new(alloc),
        section_references: Seq::new(alloc),
        retained_sections: Seq::new(alloc),
    })
}
