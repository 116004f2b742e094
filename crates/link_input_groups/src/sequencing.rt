//! Files are given their ids, one after another.

ghost use Rattle.std.specs.Prelude.{◌≡◌, ◌+◌, ◌<◌, ◌≤◌, ◌^◌, ◌++◌, IfOk, OnOk, length, map};
ghost use Rattle.link_input.specs.InputFiles.{object, linker_script, stub_symbol, stub_symbols, symbol_count, section_count, sections_of, stub_input};
ghost use Rattle.link_input.specs.SequencedFiles.{object_sections, sequenced};
ghost use Rattle.link_input_groups.specs.Groups.{object_file, script_file, stub_file};
ghost use Rattle.link_input.specs.Limits.{total};
ghost use Rattle.link_input_groups.specs.FileIds.{ids_from};

use crate::sequenced::{SequencedInputObject, SequencedLinkerScript, SequencedStubLibrary};
use link_ids::{FileId, InputSectionId, SectionIdRange, SymbolId, SymbolIdRange};
use link_input::{ParsedInputObject, Platform, ProcessedLinkerScript, StubLibrary, StubSymbol};
use link_names::{Name, Seq};
use std::alloc::{AllocError, Global};

/// The first ids that no file has yet.
#[derive(Clone, Copy, Debug)]
pub(crate) struct NextIds {
    pub(crate) symbols: usize,
    pub(crate) sections: usize,
}

impl NextIds {
    /// The ids of so many symbols more.
    fn take_symbols(&mut self, count: usize) -> SymbolIdRange
        requires { self.old.symbols + count < 2 ^ 32 }
        ensures ids { result ≡ record { start = self.old.symbols; len = count } }
        ensures next { self.new ≡ record self.old { symbols = self.old.symbols + count } }
    {
        let ids = SymbolIdRange::input(SymbolId::from_usize(self.symbols), count);
        self.symbols += count;
        ids
    }

    /// The ids of so many sections more.
    fn take_sections(&mut self, count: usize) -> SectionIdRange
        requires { self.old.sections + count < 2 ^ 32 }
        ensures ids { result ≡ record { start = self.old.sections; len = count } }
        ensures next { self.new ≡ record self.old { sections = self.old.sections + count } }
    {
        let ids = SectionIdRange::input(InputSectionId::from_usize(self.sections), count);
        self.sections += count;
        ids
    }

    /// The ids of the sections of an object, which a shared object has none of.
    fn take_object_sections<P: Platform>(&mut self, parsed: &ParsedInputObject<P>) -> SectionIdRange
        requires { self.old.sections + sections_of parsed.now < 2 ^ 32 }
        ensures ids { result ≡ object_sections self.old.sections parsed.now }
        ensures next { self.new ≡ record self.old { sections = self.old.sections + sections_of parsed.now } }
    {
        if parsed.is_dynamic() {
            SectionIdRange::empty()
        } else {
            self.take_sections(parsed.object().num_sections() as usize)
        }
    }
}

/// An object with the next ids.
fn sequence_object<P: Platform>(
    parsed: ParsedInputObject<P>,
    file_id: FileId,
    next: &mut NextIds,
) -> SequencedInputObject<P>
    requires symbols { next.old.symbols + length parsed.object.symbols < 2 ^ 32 }
    requires sections { next.old.sections + sections_of parsed < 2 ^ 32 }
    ensures value { result ≡ record { parsed = parsed; symbol_id_range = record { start = next.old.symbols; len = length parsed.object.symbols }; file_id = file_id; section_id_range = object_sections next.old.sections parsed } }
    ensures next { next.new ≡ record { symbols = next.old.symbols + length parsed.object.symbols; sections = next.old.sections + sections_of parsed } }
{
    let symbol_id_range = next.take_symbols(parsed.num_symbols());
    let section_id_range = next.take_object_sections(&parsed);
    SequencedInputObject {
        parsed,
        symbol_id_range,
        file_id,
        section_id_range,
    }
}

/// The objects of a group with the next ids, in order.
pub(crate) fn sequence_objects<P: Platform>(
    alloc: Global,
    objects: Vec<ParsedInputObject<P>>,
    group: usize,
    next: &mut NextIds,
) -> Result<Vec<SequencedInputObject<P>>, AllocError>
    requires group { group < 2 ^ 24 }
    requires few { length objects.items ≤ 256 }
    requires symbols { next.old.symbols + total symbol_count (map object objects.items) < 2 ^ 32 }
    requires sections { next.old.sections + total section_count (map object objects.items) < 2 ^ 32 }
    ensures files { IfOk result (λ files. map object_file files.items ≡ sequenced next.old.symbols next.old.sections (map object objects.items)) }
    ensures ids { IfOk result (λ files. map (λ o. o.file_id) files.items ≡ ids_from group 0 objects.items) }
    ensures symbols { OnOk result (next.new.symbols ≡ next.old.symbols + total symbol_count (map object objects.items)) }
    ensures sections { OnOk result (next.new.sections ≡ next.old.sections + total section_count (map object objects.items)) }
{
    let mut files = Vec::new(alloc);
    for parsed in objects {
        let file_id = FileId::new(group, files.len());
        files.push(sequence_object(parsed, file_id, next))?;
    }
    Ok(files)
}

/// The linker scripts as a group with the next ids, in order.
pub(crate) fn sequence_scripts(
    alloc: Global,
    scripts: Vec<ProcessedLinkerScript>,
    group: usize,
    next: &mut NextIds,
) -> Result<Vec<SequencedLinkerScript>, AllocError>
    requires group { group < 2 ^ 24 }
    requires few { length scripts.items ≤ 256 }
    requires symbols { next.old.symbols + total symbol_count (map linker_script scripts.items) < 2 ^ 32 }
    ensures files { IfOk result (λ files. map script_file files.items ≡ sequenced next.old.symbols next.old.sections (map linker_script scripts.items)) }
    ensures ids { IfOk result (λ files. map (λ s. s.file_id) files.items ≡ ids_from group 0 scripts.items) }
    ensures symbols { OnOk result (next.new.symbols ≡ next.old.symbols + total symbol_count (map linker_script scripts.items)) }
    ensures sections { next.new.sections ≡ next.old.sections }
{
    let mut files = Vec::new(alloc);
    for parsed in scripts {
        let file_id = FileId::new(group, files.len());
        let symbol_id_range = next.take_symbols(parsed.num_symbols());
        files.push(SequencedLinkerScript {
            parsed,
            symbol_id_range,
            file_id,
        })?;
    }
    Ok(files)
}

/// Appends symbols of a stub library.
fn append_stub_symbols(
    symbols: &mut Vec<StubSymbol>,
    names: Seq<Name>,
    is_weak: bool,
) -> Result<(), AllocError>
    ensures { OnOk result (symbols.new.items ≡ symbols.old.items ++ map (stub_symbol is_weak) names) }
{
    for name in names.into_vec() {
        symbols.push(StubSymbol { name, is_weak })?;
    }
    Ok(())
}

/// A stub library with the next ids.
fn sequence_stub(
    alloc: Global,
    stub: StubLibrary,
    file_id: FileId,
    next: &mut NextIds,
) -> Result<SequencedStubLibrary, AllocError>
    requires { next.old.symbols + length (stub_symbols stub) < 2 ^ 32 }
    ensures value { IfOk result (λ file. file ≡ record { input = stub.input; defined_symbols = stub_symbols stub; symbol_id_range = record { start = next.old.symbols; len = length (stub_symbols stub) }; file_id = file_id }) }
    ensures next { OnOk result (next.new ≡ record next.old { symbols = next.old.symbols + length (stub_symbols stub) }) }
    ensures sections { next.new.sections ≡ next.old.sections }
{
    let StubLibrary {
        input,
        strong,
        weak,
    } = stub;
    let mut symbols = Vec::new(alloc);
    append_stub_symbols(&mut symbols, strong, false)?;
    append_stub_symbols(&mut symbols, weak, true)?;
    let symbol_id_range = next.take_symbols(symbols.len());
    Ok(SequencedStubLibrary {
        input,
        defined_symbols: Seq::from_vec(symbols),
        symbol_id_range,
        file_id,
    })
}

/// The stub libraries as a group with the next ids, in order.
pub(crate) fn sequence_stubs(
    alloc: Global,
    stubs: Vec<StubLibrary>,
    group: usize,
    next: &mut NextIds,
) -> Result<Vec<SequencedStubLibrary>, AllocError>
    requires group { group < 2 ^ 24 }
    requires few { length stubs.items ≤ 256 }
    requires symbols { next.old.symbols + total symbol_count (map stub_input stubs.items) < 2 ^ 32 }
    ensures files { IfOk result (λ files. map stub_file files.items ≡ sequenced next.old.symbols next.old.sections (map stub_input stubs.items)) }
    ensures ids { IfOk result (λ files. map (λ s. s.file_id) files.items ≡ ids_from group 0 stubs.items) }
    ensures symbols { OnOk result (next.new.symbols ≡ next.old.symbols + total symbol_count (map stub_input stubs.items)) }
    ensures sections { next.new.sections ≡ next.old.sections }
{
    let mut files = Vec::new(alloc);
    for stub in stubs {
        let file_id = FileId::new(group, files.len());
        files.push(sequence_stub(alloc, stub, file_id, next)?)?;
    }
    Ok(files)
}
