//! The checks of a table, each over the whole table.

ghost use Rattle.std.specs.Prelude.{◌≡◌, ◌==◌, ◌||◌, ℕ, IfOk, OnOk, length, nat_le, find};
ghost use Rattle.std.specs.Ordering.{nat_cmp};
ghost use Rattle.std.specs.List.{list_any};
ghost use Rattle.std.specs.BTreeSet.{contains};
ghost use Rattle.link_input.specs.Checks.{first_place, lacks_null, is_undefined_local, is_versionless_not_default, is_outside, missing_section, missing_member, repeats_header, has_member_header, is_member, is_outside_reference, symbol_fault, group_fault, section_fault, first_fault};

use crate::object::{ObjectTable, SectionGroup, SectionReference};
use crate::symbol_entry::{Place, SymbolEntry};
use crate::table_error::TableError;
use std::alloc::{AllocError, Global};
use std::collections::BTreeSet;

/// The first check that a table fails, on a platform that has a null entry or has none.
pub fn first_fault(
    alloc: Global,
    has_null: bool,
    table: &ObjectTable,
) -> Result<Option<TableError>, AllocError>
    ensures { IfOk result (λ fault. fault ≡ first_fault has_null table.now) }
{
    let symbols = table.symbols.as_slice();
    if let Some(fault) = symbol_fault(has_null, table.sections, symbols) {
        return Ok(Some(fault));
    }
    let groups = table.groups.as_slice();
    if let Some(fault) = group_fault(alloc, table.sections, symbols.len(), groups)? {
        return Ok(Some(fault));
    }
    let references = table.section_references.as_slice();
    let retained = table.retained_sections.as_slice();
    Ok(section_fault(table.sections, symbols.len(), references, retained))
}

/// The first check that the symbols fail.
fn symbol_fault(has_null: bool, sections: u32, symbols: &[SymbolEntry]) -> Option<TableError>
    ensures { result ≡ symbol_fault has_null sections symbols.now }
{
    if lacks_null(has_null, symbols) {
        return Some(TableError::NullEntry);
    }
    if let Some(symbol) = undefined_local(has_null, symbols) {
        return Some(TableError::UndefinedLocal(symbol));
    }
    if let Some(symbol) = versionless_not_default(symbols) {
        return Some(TableError::VersionlessNotDefault(symbol));
    }
    if let Some(symbol) = outside_section(sections, symbols) {
        return Some(TableError::SectionRange(symbol));
    }
    None
}

/// The first check that the groups fail.
fn group_fault(
    alloc: Global,
    sections: u32,
    symbols: usize,
    groups: &[SectionGroup],
) -> Result<Option<TableError>, AllocError>
    ensures { IfOk result (λ fault. fault ≡ group_fault sections symbols groups.now) }
{
    if let Some(group) = outside_signature(symbols, groups) {
        return Ok(Some(TableError::SignatureRange(group)));
    }
    if let Some(fault) = missing_member(sections, groups) {
        return Ok(Some(fault));
    }
    if let Some(group) = repeated_header(alloc, groups)? {
        return Ok(Some(TableError::HeaderTwice(group)));
    }
    if let Some(group) = member_header(alloc, groups)? {
        return Ok(Some(TableError::HeaderIsMember(group)));
    }
    Ok(None)
}

/// The first check that the references of sections and the retained ones fail.
fn section_fault(
    sections: u32,
    symbols: usize,
    references: &[SectionReference],
    retained: &[u32],
) -> Option<TableError>
    ensures { result ≡ section_fault sections symbols references.now retained.now }
{
    if let Some(reference) = outside_reference(sections, symbols, references) {
        return Some(TableError::ReferenceRange(reference));
    }
    if let Some(place) = outside_retained(sections, retained) {
        return Some(TableError::RetainRange(place));
    }
    None
}

/// Entry 0 is there and is to stand for no symbol, and doesn't.
fn lacks_null(has_null: bool, symbols: &[SymbolEntry]) -> bool
    ensures { result ≡ lacks_null has_null symbols.now }
{
    match symbols {
        [first, ..] => has_null && !first.is_null(),
        [] => false,
    }
}

/// The first symbol that is undefined and local, and not the null entry.
fn undefined_local(has_null: bool, symbols: &[SymbolEntry]) -> Option<usize>
    ensures { result ≡ first_place (is_undefined_local has_null) 0 symbols.now }
{
    for (i, symbol) in symbols.iter().enumerate() {
        if symbol.place.is_undefined() && symbol.binding.is_local() && !(has_null && i == 0) {
            return Some(i);
        }
    }
    None
}

/// The first symbol that has no version and is not default.
fn versionless_not_default(symbols: &[SymbolEntry]) -> Option<usize>
    ensures { result ≡ first_place (λ i. is_versionless_not_default) 0 symbols.now }
{
    for (i, symbol) in symbols.iter().enumerate() {
        if symbol.version.is_none() && !symbol.is_default {
            return Some(i);
        }
    }
    None
}

/// The first symbol that stands in a section that isn't there.
fn outside_section(sections: u32, symbols: &[SymbolEntry]) -> Option<usize>
    ensures { result ≡ first_place (λ i. is_outside sections) 0 symbols.now }
{
    for (i, symbol) in symbols.iter().enumerate() {
        if stands_outside(sections, symbol) {
            return Some(i);
        }
    }
    None
}

/// The symbol stands in a section that isn't there.
fn stands_outside(sections: u32, symbol: &SymbolEntry) -> bool
    ensures { result ≡ is_outside sections symbol.now }
{
    match symbol.place {
        Place::Section(section) => sections <= section,
        _ => false,
    }
}

/// The first group whose signature is no symbol of so many.
fn outside_signature(symbols: usize, groups: &[SectionGroup]) -> Option<usize>
    ensures { result ≡ first_place (λ i g. nat_le symbols g.signature_symbol) 0 groups.now }
{
    for (i, group) in groups.iter().enumerate() {
        if symbols <= group.signature_symbol as usize {
            return Some(i);
        }
    }
    None
}

/// The first group that names a section that isn't there.
fn missing_member(sections: u32, groups: &[SectionGroup]) -> Option<TableError>
    ensures { result ≡ missing_member sections 0 groups.now }
{
    for (group, it) in groups.iter().enumerate() {
        if let Some(section) = missing_section(sections, it) {
            return Some(TableError::MemberRange { group, section });
        }
    }
    None
}

/// The header of a group, or its first member, that isn't there.
fn missing_section(sections: u32, group: &SectionGroup) -> Option<u32>
    ensures { result ≡ missing_section sections group.now }
{
    if sections <= group.index {
        return Some(group.index);
    }
    first_outside(sections, group.members.as_slice())
}

/// The first member that isn't there.
fn first_outside(sections: u32, members: &[u32]) -> Option<u32>
    ensures { result ≡ find (λ n. nat_le sections n) members.now }
{
    members.iter().copied().find(|member| sections <= *member)
}

/// The first reference whose section or symbol isn't there.
fn outside_reference(
    sections: u32,
    symbols: usize,
    references: &[SectionReference],
) -> Option<usize>
    ensures { result ≡ first_place (λ i. is_outside_reference sections symbols) 0 references.now }
{
    for (i, reference) in references.iter().enumerate() {
        if sections <= reference.from || symbols <= reference.to as usize {
            return Some(i);
        }
    }
    None
}

/// The place of the first retained section that isn't there.
fn outside_retained(sections: u32, retained: &[u32]) -> Option<usize>
    ensures { result ≡ first_place (λ i section. nat_le sections section) 0 retained.now }
{
    for (i, section) in retained.iter().enumerate() {
        if sections <= *section {
            return Some(i);
        }
    }
    None
}

/// The first group whose header heads an earlier one.
fn repeated_header(alloc: Global, groups: &[SectionGroup]) -> Result<Option<usize>, AllocError>
    ensures { IfOk result (λ place. place ≡ first_place (repeats_header groups.now) 0 groups.now) }
{
    let mut headers = BTreeSet::new(alloc);
    for (i, group) in groups.iter().enumerate() {
        if !headers.insert(group.index)? {
            return Ok(Some(i));
        }
    }
    Ok(None)
}

/// The first group whose header is a member of a group.
fn member_header(alloc: Global, groups: &[SectionGroup]) -> Result<Option<usize>, AllocError>
    ensures { IfOk result (λ place. place ≡ first_place (λ i. has_member_header groups.now) 0 groups.now) }
{
    let members = members_of(alloc, groups)?;
    Ok(first_header_in(&members, groups))
}

/// The first group whose header is among the sections.
fn first_header_in(sections: &BTreeSet<u32>, groups: &[SectionGroup]) -> Option<usize>
    ensures { result ≡ first_place (λ i g. contains nat_cmp sections.now g.index) 0 groups.now }
{
    for (i, group) in groups.iter().enumerate() {
        if sections.contains(&group.index) {
            return Some(i);
        }
    }
    None
}

/// The members of all groups.
fn members_of(alloc: Global, groups: &[SectionGroup]) -> Result<BTreeSet<u32>, AllocError>
    ensures { IfOk result (λ sections. (q : ℕ) → contains nat_cmp sections q ≡ is_member groups.now q) }
{
    let mut sections = BTreeSet::new(alloc);
    for group in groups {
        add_all(&mut sections, group.members.as_slice())?;
    }
    Ok(sections)
}

/// Adds the members to the sections.
fn add_all(sections: &mut BTreeSet<u32>, members: &[u32]) -> Result<(), AllocError>
    ensures { OnOk result ((q : ℕ) → contains nat_cmp sections.new q ≡ (contains nat_cmp sections.old q || list_any (λ member. member == q) members.now)) }
{
    for member in members {
        sections.insert(*member)?;
    }
    Ok(())
}
