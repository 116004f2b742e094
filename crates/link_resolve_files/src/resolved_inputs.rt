//! The files of a link that are no objects. They are always linked.

ghost use Rattle.std.specs.Prelude.{◌≡◌, Some, length, option_map, slice_get};
ghost use Rattle.link_ids.specs.Span.{IsInside, offset_in};
ghost use Rattle.link_input.specs.Symbols.{stub_strength};

use link_flags::SymbolStrength;
use link_ids::{FileId, SymbolId, SymbolIdRange};
use link_input::{InternalSymDefInfo, Prelude, StubSymbol};
use link_input_groups::{SequencedLinkerScript, SequencedStubLibrary, SyntheticSymbols};
use link_names::Name;

/// The prelude. Mirrors Wild's `ResolvedPrelude`.
#[derive(Drop)]
pub struct ResolvedPrelude<'a> {
    pub prelude: &'a Prelude,
}

/// A linker script. Mirrors Wild's `ResolvedLinkerScript`.
#[derive(Drop)]
pub struct ResolvedLinkerScript<'a> {
    pub sequenced: &'a SequencedLinkerScript,
}

/// A stub library. Mirrors Wild's `ResolvedStubLibrary`.
#[derive(Drop)]
pub struct ResolvedStubLibrary<'a> {
    pub sequenced: &'a SequencedStubLibrary,
}

/// The file of the symbols that the linker adds behind those of all other files. Mirrors Wild's `ResolvedSyntheticSymbols`.
#[derive(Drop)]
pub struct ResolvedSyntheticSymbols<'a> {
    pub sequenced: &'a SyntheticSymbols,
}

impl<'a> ResolvedPrelude<'a> {
    /// Its symbols, in the order of their ids from 0.
    pub fn symbol_definitions(&self) -> &'a [InternalSymDefInfo]
        ensures { result.now ≡ self.now.prelude.now }
    {
        self.prelude.symbols()
    }
}

impl<'a> ResolvedLinkerScript<'a> {
    /// The name of its file.
    pub fn input(&self) -> &'a Name
        ensures { result.now ≡ self.now.sequenced.now.parsed.input }
    {
        &self.sequenced.parsed.input
    }

    /// The id of the file.
    pub fn file_id(&self) -> FileId
        ensures { result ≡ self.now.sequenced.now.file_id }
    {
        self.sequenced.file_id
    }

    /// The ids of its symbols, in the order of their definitions.
    pub fn symbol_id_range(&self) -> SymbolIdRange
        ensures { result ≡ self.now.sequenced.now.symbol_id_range }
    {
        self.sequenced.symbol_id_range
    }

    /// Its symbols, in the order of their ids.
    pub fn symbol_definitions(&self) -> &'a [InternalSymDefInfo]
        ensures { result.now ≡ self.now.sequenced.now.parsed.symbol_defs }
    {
        self.sequenced.parsed.symbol_defs.as_slice()
    }
}

impl<'a> ResolvedStubLibrary<'a> {
    /// The name of its file.
    pub fn input(&self) -> &'a Name
        ensures { result.now ≡ self.now.sequenced.now.input }
    {
        &self.sequenced.input
    }

    /// The id of the file.
    pub fn file_id(&self) -> FileId
        ensures { result ≡ self.now.sequenced.now.file_id }
    {
        self.sequenced.file_id
    }

    /// The ids of its symbols, in their order.
    pub fn symbol_id_range(&self) -> SymbolIdRange
        ensures { result ≡ self.now.sequenced.now.symbol_id_range }
    {
        self.sequenced.symbol_id_range
    }

    /// The strong symbols, and then the weak ones, in the order of their ids.
    pub fn defined_symbols(&self) -> &'a [StubSymbol]
        ensures { result.now ≡ self.now.sequenced.now.defined_symbols }
    {
        self.sequenced.defined_symbols.as_slice()
    }

    /// How strongly a symbol of the library binds: strong or weak, by its list.
    pub fn input_symbol_strength(&self, id: SymbolId) -> SymbolStrength
        requires table { self.now.sequenced.now.symbol_id_range.len ≡ length self.now.sequenced.now.defined_symbols }
        requires inside { IsInside self.now.sequenced.now.symbol_id_range id }
        ensures { option_map stub_strength (slice_get self.now.sequenced.now.defined_symbols (offset_in self.now.sequenced.now.symbol_id_range id)) ≡ Some result }
    {
        self.sequenced.input_symbol_strength(id)
    }
}

impl<'a> ResolvedSyntheticSymbols<'a> {
    /// The id of the file.
    pub fn file_id(&self) -> FileId
        ensures { result ≡ self.now.sequenced.now.file_id }
    {
        self.sequenced.file_id
    }

    /// The id of its first symbol, or where that would stand.
    pub fn start_symbol_id(&self) -> SymbolId
        ensures { result ≡ self.now.sequenced.now.symbol_id_range.start }
    {
        self.sequenced.symbol_id_range.start()
    }

    /// The ids of its symbols. Their names stand where the linker adds them.
    pub fn symbol_id_range(&self) -> SymbolIdRange
        ensures { result ≡ self.now.sequenced.now.symbol_id_range }
    {
        self.sequenced.symbol_id_range
    }
}
