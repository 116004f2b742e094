//! Files in groups, which are read side by side.

ghost use Rattle.std.specs.Prelude.{◌≡◌, ◌<◌, ◌^◌, Some, length, option_map, slice_get};
ghost use Rattle.std.specs.Fmt.{WritesOnOk};
ghost use Rattle.link_input_groups.specs.Groups.{files_of, file_ids, symbol_spans, length_of_spans, RunsOn};
ghost use Rattle.link_input.specs.Limits.{total};
ghost use Rattle.link_input_groups.specs.GroupText.{objects_text};
ghost use Rattle.link_input_groups.specs.SequencedInputs.{sequenced_file};

use crate::sequenced::{
    SequencedInputObject, SequencedLinkerScript, SequencedStubLibrary, SyntheticSymbols,
};
use crate::sequenced_input::SequencedInput;
use link_ids::{FileId, PRELUDE_FILE_ID, SymbolId, SymbolIdRange};
use link_input::{Platform, Prelude};
use link_names::Seq;
use std::fmt;

/// Files that follow one another and are read as one piece of work. Mirrors Wild's `Group`.
#[derive(Drop)]
pub enum Group<P: Platform> {
    Prelude(Prelude),
    Objects(Seq<SequencedInputObject<P>>),
    LinkerScripts(Seq<SequencedLinkerScript>),
    StubLibraries(Seq<SequencedStubLibrary>),
    SyntheticSymbols(SyntheticSymbols),
}

impl<P: Platform> Group<P> {
    /// The number of the group. It may not be empty.
    pub fn group_id(&self) -> usize
        requires { 0 < length (file_ids self.now) }
        ensures { option_map (λ id. id.group) (slice_get (file_ids self.now) 0) ≡ Some result }
    {
        self.first_file_id().group()
    }

    /// The id of the first file.
    fn first_file_id(&self) -> FileId
        requires { 0 < length (file_ids self.now) }
        ensures { slice_get (file_ids self.now) 0 ≡ Some result }
    {
        match self {
            Group::Prelude(_) => PRELUDE_FILE_ID,
            Group::Objects(objects) => objects.as_slice()[0].file_id,
            Group::LinkerScripts(scripts) => scripts.as_slice()[0].file_id,
            Group::StubLibraries(stubs) => stubs.as_slice()[0].file_id,
            Group::SyntheticSymbols(synthetic) => synthetic.file_id,
        }
    }

    /// The ids of the symbols of a file of the group.
    fn symbol_ids_of(&self, place: usize) -> SymbolIdRange
        requires there { place < length (symbol_spans self.now) }
        requires fits { length_of_spans (symbol_spans self.now) < 2 ^ 32 }
        ensures { slice_get (symbol_spans self.now) place ≡ Some result }
    {
        match self {
            Group::Prelude(prelude) => prelude.symbol_id_range(),
            Group::Objects(objects) => objects.as_slice()[place].symbol_id_range,
            Group::LinkerScripts(scripts) => scripts.as_slice()[place].symbol_id_range,
            Group::StubLibraries(stubs) => stubs.as_slice()[place].symbol_id_range,
            Group::SyntheticSymbols(synthetic) => synthetic.symbol_id_range,
        }
    }

    /// How many files it has.
    pub fn num_files(&self) -> usize
        ensures { result ≡ length (files_of self.now) }
    {
        match self {
            Group::Prelude(_) | Group::SyntheticSymbols(_) => 1,
            Group::Objects(objects) => objects.len(),
            Group::LinkerScripts(scripts) => scripts.len(),
            Group::StubLibraries(stubs) => stubs.len(),
        }
    }

    /// One of its files.
    pub fn file(&self, place: usize) -> SequencedInput<'_, P>
        requires { place < length (files_of self.now) }
        ensures { slice_get (files_of self.now) place ≡ Some (sequenced_file result) }
    {
        match self {
            Group::Prelude(prelude) => SequencedInput::Prelude(prelude),
            Group::Objects(objects) => SequencedInput::Object(&objects.as_slice()[place]),
            Group::LinkerScripts(scripts) => {
                SequencedInput::LinkerScript(&scripts.as_slice()[place])
            }
            Group::StubLibraries(stubs) => SequencedInput::StubLibrary(&stubs.as_slice()[place]),
            Group::SyntheticSymbols(synthetic) => SequencedInput::SyntheticSymbols(synthetic),
        }
    }

    /// The id of its first symbol, or where it would stand. The group may not be empty.
    pub fn start_symbol_id(&self) -> SymbolId
        requires some { 0 < length (symbol_spans self.now) }
        requires fits { length_of_spans (symbol_spans self.now) < 2 ^ 32 }
        ensures { option_map (λ ids. ids.start) (slice_get (symbol_spans self.now) 0) ≡ Some result }
    {
        self.symbol_ids_of(0).start()
    }

    /// The ids of its symbols. The group may not be empty, and the ids of its files need to run on.
    pub fn symbol_id_range(&self) -> SymbolIdRange
        requires some { 0 < length (symbol_spans self.now) }
        requires fits { length_of_spans (symbol_spans self.now) < 2 ^ 32 }
        requires runs { RunsOn (symbol_spans self.now) }
        ensures start { option_map (λ ids. ids.start) (slice_get (symbol_spans self.now) 0) ≡ Some result.start }
        ensures len { result.len ≡ length_of_spans (symbol_spans self.now) }
    {
        let first = self.symbol_ids_of(0);
        let last = self.symbol_ids_of(self.num_files() - 1);
        SymbolIdRange::covering(first, last)
    }

    /// How many symbols it has. The group may not be empty, and the ids of its files need to run on.
    pub fn num_symbols(&self) -> usize
        requires some { 0 < length (symbol_spans self.now) }
        requires fits { length_of_spans (symbol_spans self.now) < 2 ^ 32 }
        requires runs { RunsOn (symbol_spans self.now) }
        ensures { result ≡ length_of_spans (symbol_spans self.now) }
    {
        self.symbol_id_range().len()
    }
}

/// How many symbols objects have.
fn symbols_of_objects<P: Platform>(objects: &[SequencedInputObject<P>]) -> u128
    ensures { result ≡ total (λ o. o.symbol_id_range.len) objects.now }
{
    let mut count = 0u128;
    for object in objects {
        count += object.symbol_id_range.len() as u128;
    }
    count
}

/// Writes how many objects there are, and how many symbols they have.
fn write_objects<W: fmt::Write>(
    f: &mut fmt::Formatter<W>,
    objects: usize,
    symbols: u128,
) -> fmt::Result
    ensures { WritesOnOk W.write_str_gives f.old result (objects_text objects symbols) f.new }
{
    write!(f, "num_objects: {objects} num_symbols: {symbols}")
}

impl<P: Platform> fmt::Display for Group<P> {
    ghost use Rattle.std.specs.Prelude.{Some};
    ghost use Rattle.link_input_groups.specs.GroupText.{group_text};

    ghost output = { λ g. Some (group_text g) };

    fn fmt<W: fmt::Write>(&self, f: &mut fmt::Formatter<W>) -> fmt::Result {
        match self {
            Group::Prelude(_) => f.write_str("<prelude>"),
            Group::Objects(objects) => {
                let symbols = symbols_of_objects(objects.as_slice());
                write_objects(f, objects.len(), symbols)
            }
            Group::LinkerScripts(scripts) => {
                let count = scripts.len();
                write!(f, "{count} linker script(s)")
            }
            Group::StubLibraries(stubs) => {
                let count = stubs.len();
                write!(f, "{count} Mach-O stub library(s)")
            }
            Group::SyntheticSymbols(_) => f.write_str("<epilogue>"),
        }
    }
}
