//! What the tests of several crates are made of: printed values, and symbols and objects.

use link_flags::Visibility;
use link_input::{
    InputObject, Modifiers, ObjectTable, ParsedInputObject, Place, Platform, SymbolBinding,
    SymbolEntry, SymbolKind,
};
use link_names::Name;
use std::alloc::{AllocError, Global};
use std::fmt;
use std::process::Abort;
use std::test::Fail;

/// The value prints as this text.
/// That it fails otherwise is left to the tests that call it: no clause says it.
pub fn shows<D: fmt::Display>(
    rt: &impl Abort,
    alloc: Global,
    value: &D,
    want: &str,
) -> Result<(), Fail> {
    assert_eq!(rt; format!(in alloc; "{value}")?.as_str(), want);
    Ok(())
}

/// A plain symbol of this name.
/// What it holds is left to the tests that ask of it: no clause says it.
pub fn symbol(
    alloc: Global,
    name: &[u8],
    binding: SymbolBinding,
    place: Place,
) -> Result<SymbolEntry, AllocError> {
    Ok(SymbolEntry {
        name: Name::from_slice(alloc, name)?,
        version: None,
        is_default: true,
        binding,
        visibility: Visibility::Default,
        kind: SymbolKind::Plain,
        size: 0,
        place,
    })
}

/// An object of this name with these tables.
/// What it holds is left to the tests that ask of it: no clause says it.
pub fn object<P: Platform>(
    alloc: Global,
    name: &[u8],
    table: ObjectTable,
) -> Result<ParsedInputObject<P>, Fail> {
    let modifiers = Modifiers {
        archive: false,
        whole_archive: false,
        as_needed: false,
    };
    let kept = InputObject::new(alloc, table)?;
    let name = Name::from_slice(alloc, name)?;
    Ok(ParsedInputObject::new(name, kept, modifiers))
}
