//! Where each symbol stands.

ghost use Rattle.std.specs.Prelude.{◌≡◌, ◌+◌, ◌-◌, ◌++◌, ◌<◌, ◌≤◌, ◌^◌, IfOk, List, OnOk, length, map};
ghost use Rattle.link_input.specs.InputFiles.{InputFile, object_count};
ghost use Rattle.link_input.specs.SequencedFiles.{SequencedFile};
ghost use Rattle.link_input.specs.Symbols.{file_symbols, symbols_of};
ghost use Rattle.link_db_files.specs.Outlines.{outline_of};
ghost use Rattle.link_db_files.specs.Sources.{file_source, sources_of};

use crate::outlines::FileOutline;
use std::alloc::{AllocError, Global};

/// The object that holds a symbol, and whether its file is shared.
#[derive(Clone, Copy, Debug, PartialEq, Eq)]
pub struct SymbolSource {
    /// The place of the object among all objects of the link. None where another file has the symbol.
    pub object: Option<usize>,
    /// It stands in a shared object or in a stub library.
    pub is_shared: bool,
}

/// Where the symbols of a file of this outline stand, before which there are so many objects: all of them at one place.
fn file_source(outline: &FileOutline, objects: usize) -> SymbolSource
    ensures { (f : InputFile) → outline.now ≡ outline_of f → result ≡ file_source objects f }
{
    SymbolSource {
        object: if outline.is_object {
            Some(objects)
        } else {
            None
        },
        is_shared: outline.is_shared,
    }
}

/// Adds where the symbols of a file of this outline stand, before which there are so many objects.
fn push_sources(
    sources: &mut Vec<SymbolSource>,
    outline: &FileOutline,
    objects: usize,
) -> Result<(), AllocError>
    ensures { OnOk result ((f : InputFile) → outline.now ≡ outline_of f → sources.new.items ≡ sources.old.items ++ sources_of (file_symbols objects f)) }
{
    let source = file_source(outline, objects);
    for _ in 0..outline.symbols {
        sources.push(source)?;
    }
    Ok(())
}

/// How many objects there are before what follows a file of this outline, before which there are so many.
fn objects_behind(outline: &FileOutline, objects: usize) -> usize
    requires { objects < 2 ^ 64 - 1 }
    ensures value { (f : InputFile) → outline.now ≡ outline_of f → result ≡ objects + object_count f }
    ensures few { result ≤ objects + 1 }
{
    if outline.is_object {
        objects + 1
    } else {
        objects
    }
}

/// Where the symbols of files of these outlines stand, before which there are so many objects. Room is made for so many symbols at once.
pub(crate) fn sources_of(
    alloc: Global,
    symbols: usize,
    objects: usize,
    outlines: &[FileOutline],
) -> Result<Vec<SymbolSource>, AllocError>
    requires { objects + length outlines.now < 2 ^ 64 }
    ensures { IfOk result (λ sources. (files : List SequencedFile) → outlines.now ≡ map (λ f. outline_of f.file) files
        → sources.items ≡ sources_of (symbols_of objects (map (λ f. f.file) files))) }
{
    let mut sources = Vec::with_capacity(alloc, symbols)?;
    let mut before = objects;
    for outline in outlines {
        push_sources(&mut sources, outline, before)?;
        before = objects_behind(outline, before);
    }
    Ok(sources)
}
