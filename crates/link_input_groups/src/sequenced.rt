//! Files with their places in a link: the ids of their symbols and sections, and the id of the file.

ghost use Rattle.std.specs.Prelude.{◌≡◌, ◌<◌, Some, length, option_map, slice_get};
ghost use Rattle.std.specs.Option.{option_and_then};
ghost use Rattle.link_ids.specs.Span.{IsInside, offset_in};
ghost use Rattle.link_input.specs.BindingStrength.{binding_strength};
ghost use Rattle.link_input.specs.Symbols.{section_id, stub_strength};
ghost use Rattle.link_input.specs.ObjectFile.{is_optional};

use link_flags::SymbolStrength;
use link_ids::{
    FileId, InputSectionId, InputSectionIndex, SectionIdRange, SymbolId, SymbolIdRange,
};
use link_input::{ParsedInputObject, Platform, ProcessedLinkerScript, StubSymbol, SymbolRow};
use link_names::{Name, NameView, Seq};

/// An object with its place in a link. Mirrors Wild's `SequencedInputObject`.
#[derive(Drop)]
pub struct SequencedInputObject<P: Platform> {
    pub parsed: ParsedInputObject<P>,
    /// The ids of its symbols, in the order of its table.
    pub symbol_id_range: SymbolIdRange,
    pub file_id: FileId,
    /// The ids of its sections; none where it is a shared object.
    pub section_id_range: SectionIdRange,
}

/// A linker script with its place in a link. Mirrors Wild's `SequencedLinkerScript`.
#[derive(Debug, Drop)]
pub struct SequencedLinkerScript {
    pub parsed: ProcessedLinkerScript,
    /// The ids of its symbols, in the order of their definitions.
    pub symbol_id_range: SymbolIdRange,
    pub file_id: FileId,
}

/// A stub library with its place in a link. Mirrors Wild's `SequencedStubLibrary`.
#[derive(Debug, Drop)]
pub struct SequencedStubLibrary {
    /// The name of its file.
    pub input: Name,
    /// The strong symbols, and then the weak ones.
    pub defined_symbols: Seq<StubSymbol>,
    /// The ids of its symbols, in their order.
    pub symbol_id_range: SymbolIdRange,
    pub file_id: FileId,
}

/// The file of the symbols that the linker adds behind those of all other files. Mirrors Wild's `SyntheticSymbols`.
#[derive(Debug, Drop)]
pub struct SyntheticSymbols {
    pub file_id: FileId,
    pub symbol_id_range: SymbolIdRange,
}

impl<P: Platform> SequencedInputObject<P> {
    /// The entry of a symbol of the object, as its table lends it.
    pub fn symbol_row(&self, id: SymbolId) -> SymbolRow<'_>
        requires table { self.now.symbol_id_range.len ≡ length self.now.parsed.object.symbols }
        requires inside { IsInside self.now.symbol_id_range id }
        ensures { slice_get self.now.parsed.object.symbols (offset_in self.now.symbol_id_range id) ≡ Some result }
    {
        let place = id.to_offset(self.symbol_id_range);
        self.parsed.object().symbol_at(place)
    }

    /// The name of a symbol of the object.
    pub fn symbol_name(&self, id: SymbolId) -> NameView<'_>
        requires table { self.now.symbol_id_range.len ≡ length self.now.parsed.object.symbols }
        requires inside { IsInside self.now.symbol_id_range id }
        ensures { option_map (λ e. e.name) (slice_get self.now.parsed.object.symbols (offset_in self.now.symbol_id_range id)) ≡ Some result }
    {
        let place = id.to_offset(self.symbol_id_range);
        self.parsed.object().symbol_name_at(place)
    }

    /// The version of a symbol of the object, where it has one.
    pub fn symbol_version_debug(&self, id: SymbolId) -> Option<NameView<'_>>
        requires table { self.now.symbol_id_range.len ≡ length self.now.parsed.object.symbols }
        requires inside { IsInside self.now.symbol_id_range id }
        ensures { result ≡ option_and_then (λ e. e.version) (slice_get self.now.parsed.object.symbols (offset_in self.now.symbol_id_range id)) }
    {
        self.symbol_row(id).version()
    }

    /// It is linked only where it is asked for: a member of an archive that isn't taken whole, or a shared object that is
    /// taken as needed.
    pub fn is_optional(&self) -> bool
        ensures { result ≡ is_optional self.now.parsed }
    {
        let modifiers = self.parsed.modifiers();
        (modifiers.archive && !modifiers.whole_archive)
            || (self.parsed.is_dynamic() && modifiers.as_needed)
    }

    /// It is a shared object.
    pub fn is_dynamic(&self) -> bool
        ensures { result ≡ self.now.parsed.object.is_dynamic }
    {
        self.parsed.is_dynamic()
    }

    /// How strongly a symbol of the object binds.
    pub fn input_symbol_strength(&self, id: SymbolId) -> SymbolStrength
        requires table { self.now.symbol_id_range.len ≡ length self.now.parsed.object.symbols }
        requires inside { IsInside self.now.symbol_id_range id }
        ensures { option_map binding_strength (slice_get self.now.parsed.object.symbols (offset_in self.now.symbol_id_range id)) ≡ Some result }
    {
        self.symbol_row(id).strength()
    }

    /// The id of the section that a symbol of the object stands in: none where it stands in no section, or where the object
    /// has no ids for its sections, as a shared object.
    pub fn input_section_id_for_symbol(&self, id: SymbolId) -> Option<InputSectionId>
        requires table { self.now.symbol_id_range.len ≡ length self.now.parsed.object.symbols }
        requires inside { IsInside self.now.symbol_id_range id }
        ensures { result ≡ option_and_then (section_id self.now.section_id_range) (slice_get self.now.parsed.object.symbols (offset_in self.now.symbol_id_range id)) }
    {
        let section = self.symbol_row(id).section()?;
        if section.as_usize() < self.section_id_range.len() {
            let index = InputSectionIndex::from(section);
            Some(self.section_id_range.input_to_id(index))
        } else {
            None
        }
    }
}

impl SequencedLinkerScript {
    /// The name of a symbol of the script.
    pub fn symbol_name(&self, id: SymbolId) -> NameView<'_>
        requires table { self.now.symbol_id_range.len ≡ length self.now.parsed.symbol_defs }
        requires inside { IsInside self.now.symbol_id_range id }
        ensures { option_map (λ symbol. symbol.name) (slice_get self.now.parsed.symbol_defs (offset_in self.now.symbol_id_range id)) ≡ Some result }
    {
        let symbols = self.parsed.symbol_defs.as_slice();
        let symbol = &symbols[id.to_offset(self.symbol_id_range)];
        NameView::new(symbol.name.as_slice())
    }
}

impl SequencedStubLibrary {
    /// A symbol of the library.
    pub fn symbol(&self, id: SymbolId) -> &StubSymbol
        requires table { self.now.symbol_id_range.len ≡ length self.now.defined_symbols }
        requires inside { IsInside self.now.symbol_id_range id }
        ensures { slice_get self.now.defined_symbols (offset_in self.now.symbol_id_range id) ≡ Some result.now }
    {
        let symbols = self.defined_symbols.as_slice();
        &symbols[id.to_offset(self.symbol_id_range)]
    }

    /// The name of a symbol of the library.
    pub fn symbol_name(&self, id: SymbolId) -> NameView<'_>
        requires table { self.now.symbol_id_range.len ≡ length self.now.defined_symbols }
        requires inside { IsInside self.now.symbol_id_range id }
        ensures { option_map (λ symbol. symbol.name) (slice_get self.now.defined_symbols (offset_in self.now.symbol_id_range id)) ≡ Some result }
    {
        NameView::new(self.symbol(id).name.as_slice())
    }

    /// How strongly a symbol of the library binds: strong or weak, by its list.
    pub fn input_symbol_strength(&self, id: SymbolId) -> SymbolStrength
        requires table { self.now.symbol_id_range.len ≡ length self.now.defined_symbols }
        requires inside { IsInside self.now.symbol_id_range id }
        ensures { option_map stub_strength (slice_get self.now.defined_symbols (offset_in self.now.symbol_id_range id)) ≡ Some result }
    {
        if self.symbol(id).is_weak {
            SymbolStrength::Weak
        } else {
            SymbolStrength::Strong
        }
    }
}
