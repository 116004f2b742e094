//! What passes over all files ask of each.

ghost use Rattle.std.specs.Prelude.{◌≡◌, ◌++◌, IfOk, OnOk};
ghost use Rattle.link_db_files.specs.Outlines.{group_outlines, has_groups_file, outline_of, outlines_of};
ghost use Rattle.link_input_groups.specs.SequencedInputs.{sequenced_file};
ghost use Rattle.link_input.specs.InputFiles.{InputFile, object_count, symbol_count};

use link_input::Platform;
use link_input_groups::{Group, SequencedInput};
use std::alloc::{AllocError, Global};

/// What passes over all files ask of each: outlines stand side by side in memory, so that such a pass leaves the files alone.
#[derive(Clone, Copy, Debug, PartialEq, Eq)]
pub struct FileOutline {
    /// How many symbols stand in its table.
    pub symbols: usize,
    /// It is an object, a regular or a shared one.
    pub is_object: bool,
    /// Its symbols are found at run time: it is a shared object, or the stub of one.
    pub is_shared: bool,
    /// It is linked only where it is asked for.
    pub is_optional: bool,
    /// It is an object that has section groups.
    pub has_groups: bool,
}

impl FileOutline {
    /// How many objects a file of this outline is.
    pub fn num_objects(&self) -> usize
        ensures { (f : InputFile) → self.now ≡ outline_of f → result ≡ object_count f }
    {
        if self.is_object { 1 } else { 0 }
    }
}

/// How many symbols stand in the table of a file.
pub fn symbol_count<P: Platform>(file: &SequencedInput<P>) -> usize
    ensures { result ≡ symbol_count (sequenced_file file.now).file }
{
    match file {
        SequencedInput::Prelude(prelude) => prelude.num_symbols(),
        SequencedInput::Object(object) => object.parsed.num_symbols(),
        SequencedInput::LinkerScript(script) => script.parsed.num_symbols(),
        SequencedInput::StubLibrary(stub) => stub.defined_symbols.len(),
        SequencedInput::SyntheticSymbols(_) => 0,
    }
}

/// How many objects a file is.
pub fn object_count<P: Platform>(file: &SequencedInput<P>) -> usize
    ensures { result ≡ object_count (sequenced_file file.now).file }
{
    match file {
        SequencedInput::Object(_) => 1,
        SequencedInput::Prelude(_)
        | SequencedInput::LinkerScript(_)
        | SequencedInput::StubLibrary(_)
        | SequencedInput::SyntheticSymbols(_) => 0,
    }
}

/// Whether a file is an object that has section groups.
fn has_groups<P: Platform>(file: &SequencedInput<P>) -> bool
    ensures { result ≡ has_groups_file (sequenced_file file.now).file }
{
    match file {
        SequencedInput::Object(object) => !object.parsed.object().groups().is_empty(),
        SequencedInput::Prelude(_)
        | SequencedInput::LinkerScript(_)
        | SequencedInput::StubLibrary(_)
        | SequencedInput::SyntheticSymbols(_) => false,
    }
}

/// The outline of a file.
fn outline_of<P: Platform>(file: &SequencedInput<P>) -> FileOutline
    ensures { result ≡ outline_of (sequenced_file file.now).file }
{
    FileOutline {
        symbols: symbol_count(file),
        is_object: object_count(file) == 1,
        is_shared: file.is_dynamic(),
        is_optional: file.is_optional(),
        has_groups: has_groups(file),
    }
}

/// How many symbols files of these outlines have.
/// The number is left open: it only tells how much room is made.
pub(crate) fn symbols_told(outlines: &[FileOutline]) -> usize {
    let mut symbols = 0usize;
    for outline in outlines {
        symbols = symbols.saturating_add(outline.symbols);
    }
    symbols
}

/// Adds those of the files of a group.
fn push_outlines<P: Platform>(
    outlines: &mut Vec<FileOutline>,
    group: &Group<P>,
) -> Result<(), AllocError>
    ensures { OnOk result (outlines.new.items ≡ outlines.old.items ++ group_outlines group.now) }
{
    for place in 0..group.num_files() {
        outlines.push(outline_of(&group.file(place)))?;
    }
    Ok(())
}

/// Those of the files of groups.
pub(crate) fn outlines_of<P: Platform>(
    alloc: Global,
    groups: &[Group<P>],
) -> Result<Vec<FileOutline>, AllocError>
    ensures { IfOk result (λ outlines. outlines.items ≡ outlines_of groups.now) }
{
    let mut outlines = Vec::new(alloc);
    for group in groups {
        push_outlines(&mut outlines, group)?;
    }
    Ok(outlines)
}
