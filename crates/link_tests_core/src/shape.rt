//! Links told by a few numbers.

ghost use Rattle.std.specs.Prelude.{◌≤◌};

use link_closure::Edge;
use link_flags::Visibility;
use link_input::{
    ElfLike, InputObject, Inputs, Modifiers, ObjectTable, ParsedInputObject, Place, SectionGroup,
    SymbolBinding, SymbolEntry, SymbolKind,
};
use link_manifest::{Manifest, PlatformWorld};
use link_manifest_bulk::chain_manifest;
use link_names::{Name, Seq};
use std::alloc::{AllocError, Global};

/// What a symbol of an object is.
#[derive(Clone, Copy, Debug)]
pub(crate) enum Kind {
    Reference,
    Definition,
    WeakDefinition,
}

/// A symbol of an object, whose name is told by a number.
#[derive(Clone, Copy, Debug)]
pub(crate) struct Symbol {
    pub(crate) name: usize,
    pub(crate) kind: Kind,
}

/// The objects of a link: so many that are loaded in any case, behind them members of archives; and the symbols of each.
#[derive(Drop)]
pub(crate) struct Shape {
    pub(crate) required: usize,
    pub(crate) objects: Vec<Vec<Symbol>>,
    /// In each object the section of definitions is the member of a COMDAT group, which the first symbol signs.
    pub(crate) is_comdat: bool,
}

impl Shape {
    /// Objects without symbols.
    /// What a shape is of is left open, here and below: tests show it.
    pub(crate) fn without_symbols(
        alloc: Global,
        required: usize,
        count: usize,
    ) -> Result<Shape, AllocError> {
        let mut objects = Vec::new(alloc);
        for _ in 0..count {
            objects.push(Vec::new(alloc))?;
        }
        Ok(Shape {
            required,
            objects,
            is_comdat: false,
        })
    }

    /// Adds a symbol to an object, if there is such an object.
    /// What is added is left open.
    pub(crate) fn add(&mut self, object: usize, name: usize, kind: Kind) -> Result<(), AllocError> {
        if let Some(symbols) = self.objects.get_mut(object) {
            symbols.push(Symbol { name, kind })?;
        }
        Ok(())
    }

    /// So many objects, of which each member defines the name of its own number, and for each edge the object at its start refers to the name of
    /// that at its end.
    /// What it is of is left open.
    pub(crate) fn of_edges(
        alloc: Global,
        required: usize,
        count: usize,
        edges: &[Edge],
    ) -> Result<Shape, AllocError> {
        let mut shape = Shape::without_symbols(alloc, required, count)?;
        for member in required..count {
            shape.add(member, member, Kind::Definition)?;
        }
        for edge in edges {
            shape.add(edge.from, edge.to, Kind::Reference)?;
        }
        Ok(shape)
    }
}

/// An entry of a symbol table: undefined or in the section 1, of default visibility and without a version.
fn entry(name: Name, binding: SymbolBinding, place: Place) -> SymbolEntry {
    SymbolEntry {
        name,
        version: None,
        is_default: true,
        binding,
        visibility: Visibility::Default,
        kind: SymbolKind::Plain,
        size: 0,
        place,
    }
}

/// The entry of a symbol of this name.
pub(crate) fn entry_of(name: Name, kind: Kind) -> SymbolEntry {
    match kind {
        Kind::Reference => entry(name, SymbolBinding::Global, Place::Undefined),
        Kind::Definition => entry(name, SymbolBinding::Global, Place::Section(1)),
        Kind::WeakDefinition => entry(name, SymbolBinding::Weak, Place::Section(1)),
    }
}

/// The section groups of an object: none, or a COMDAT group with the section 1 and the header 2, whose signature is the first symbol.
fn groups_of(alloc: Global, is_comdat: bool) -> Result<Seq<SectionGroup>, AllocError> {
    let mut groups = Seq::new(alloc);
    if is_comdat {
        let mut members = Seq::new(alloc);
        members.push(1)?;
        groups.push(SectionGroup {
            index: 2,
            signature_symbol: 1,
            is_comdat: true,
            members,
        })?;
    }
    Ok(groups)
}

/// The null entry alone, with which each symbol table begins.
pub(crate) fn null_entries(alloc: Global) -> Result<Vec<SymbolEntry>, AllocError> {
    let null = Name::new(Vec::new(alloc));
    let mut entries = Vec::new(alloc);
    entries.push(entry(null, SymbolBinding::Local, Place::Undefined))?;
    Ok(entries)
}

/// The symbol table of an object, behind a null entry.
fn entries_of(alloc: Global, symbols: &[Symbol]) -> Result<Vec<SymbolEntry>, AllocError> {
    let mut entries = null_entries(alloc)?;
    for symbol in symbols {
        let name = Name::from_slice(alloc, symbol.name.to_le_bytes().as_slice())?;
        entries.push(entry_of(name, symbol.kind))?;
    }
    Ok(entries)
}

/// An object of three sections with this symbol table, which is an archive's member or stands by itself.
/// What it holds is left open: what is loaded of it shows it.
pub(crate) fn object_of(
    alloc: Global,
    entries: Vec<SymbolEntry>,
    is_comdat: bool,
    archive: bool,
) -> Result<ParsedInputObject<ElfLike>, AllocError> {
    let modifiers = Modifiers {
        archive,
        whole_archive: false,
        as_needed: false,
    };
    let table = ObjectTable {
        is_dynamic: false,
        lib_name: Name::new(Vec::new(alloc)),
        sections: 3,
        symbols: Seq::from_vec(entries),
        groups: groups_of(alloc, is_comdat)?,
        section_references: Seq::new(alloc),
        retained_sections: Seq::new(alloc),
    };
    // Each table passes every check, so what is refused is want of memory.
    let Ok(object) = InputObject::new(alloc, table) else {
        return Err(AllocError);
    };
    let input = Name::from_slice(alloc, b"object")?;
    Ok(ParsedInputObject::new(input, object, modifiers))
}

/// The files of a link.
/// What they hold is left open: what is loaded of them shows it.
pub(crate) fn inputs_of(alloc: Global, shape: &Shape) -> Result<Inputs<ElfLike>, AllocError> {
    let mut objects = Seq::new(alloc);
    for (place, symbols) in shape.objects.iter().enumerate() {
        let entries = entries_of(alloc, symbols)?;
        let archive = place >= shape.required;
        objects.push(object_of(alloc, entries, shape.is_comdat, archive)?)?;
    }
    Ok(Inputs {
        objects,
        scripts: Seq::new(alloc),
        stubs: Seq::new(alloc),
    })
}

/// The files of the made-up link in which each of so many members refers to the next one alone.
/// Which they are is left to the tests that link them: no clause says it.
pub(crate) fn chain_files(alloc: Global, members: usize) -> Result<Inputs<ElfLike>, AllocError>
    requires some { 1 ≤ members }
    requires in_range { members ≤ 100000 }
{
    let Manifest { world, claim: _ } = chain_manifest(alloc, members)?;
    match world {
        PlatformWorld::Elf(world) => Ok(world.inputs),
        // It is for a platform like ELF.
        PlatformWorld::Mach(_) => Err(AllocError),
    }
}
