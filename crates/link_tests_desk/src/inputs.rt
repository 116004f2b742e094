//! Batches of one object.

use link_flags::Visibility;
use link_input::{
    ElfLike, InputObject, Inputs, Modifiers, ObjectTable, ParsedInputObject, Place, SymbolBinding,
    SymbolEntry, SymbolKind,
};
use link_names::{Name, Seq};
use std::alloc::{AllocError, Global};

/// What the object of a batch has behind its null entry.
#[derive(Clone, Copy, Debug)]
pub(crate) enum Has {
    Nothing,
    /// A reference to the name of this number.
    Reference(usize),
    /// A definition of it.
    Definition(usize),
}

/// The name of a number.
/// Which it is, is left to the tests that ask for it: no clause says it.
pub(crate) fn name_of(alloc: Global, number: usize) -> Result<Name, AllocError> {
    Name::from_slice(alloc, number.to_le_bytes().as_slice())
}

fn entry(name: Name, binding: SymbolBinding, place: Place) -> SymbolEntry {
    SymbolEntry {
        name,
        version: None,
        is_default: true,
        binding,
        visibility: Visibility::Default,
        kind: SymbolKind::Plain,
        size: 0,
        place,
    }
}

fn entries_of(alloc: Global, has: Has) -> Result<Seq<SymbolEntry>, AllocError> {
    let mut entries = Seq::new(alloc);
    let null = Name::new(Vec::new(alloc));
    entries.push(entry(null, SymbolBinding::Local, Place::Undefined))?;
    match has {
        Has::Nothing => {}
        Has::Reference(number) => {
            let name = name_of(alloc, number)?;
            entries.push(entry(name, SymbolBinding::Global, Place::Undefined))?;
        }
        Has::Definition(number) => {
            let name = name_of(alloc, number)?;
            entries.push(entry(name, SymbolBinding::Global, Place::Section(1)))?;
        }
    }
    Ok(entries)
}

/// No file.
/// What it holds is left to the tests that add it: no clause says it.
pub(crate) fn nothing(alloc: Global) -> Inputs<ElfLike> {
    Inputs {
        objects: Seq::new(alloc),
        scripts: Seq::new(alloc),
        stubs: Seq::new(alloc),
    }
}

/// One object, perhaps the member of an archive.
/// What it holds is left to the tests that add it: no clause says it.
pub(crate) fn batch_of(
    alloc: Global,
    archive: bool,
    has: Has,
) -> Result<Inputs<ElfLike>, AllocError> {
    let table = ObjectTable {
        is_dynamic: false,
        lib_name: Name::new(Vec::new(alloc)),
        sections: 2,
        symbols: entries_of(alloc, has)?,
        groups: Seq::new(alloc),
        section_references: Seq::new(alloc),
        retained_sections: Seq::new(alloc),
    };
    let modifiers = Modifiers {
        archive,
        whole_archive: false,
        as_needed: false,
    };
    // The table passes every check, so what is refused is want of memory.
    let Ok(object) = InputObject::new(alloc, table) else {
        return Err(AllocError);
    };
    let input = Name::from_slice(alloc, b"object")?;
    let mut inputs = nothing(alloc);
    inputs
        .objects
        .push(ParsedInputObject::new(input, object, modifiers))?;
    Ok(inputs)
}
