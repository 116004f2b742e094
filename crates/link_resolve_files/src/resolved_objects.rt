//! Objects, once it is known which of them are loaded.

ghost use Rattle.std.specs.Prelude.{◌≡◌, Some, length, option_map, slice_get};
ghost use Rattle.link_ids.specs.Span.{IsInside, offset_in};
ghost use Rattle.link_input.specs.BindingStrength.{binding_strength};

use link_flags::SymbolStrength;
use link_ids::{FileId, SectionIdRange, SymbolId, SymbolIdRange};
use link_input::{InputObject, Platform};
use link_input_groups::SequencedInputObject;
use link_names::Name;
use link_resolve_comdat::ObjectSectionGroups;

/// An object that isn't loaded: only its ids are left. Mirrors Wild's `NotLoaded`.
#[derive(Drop)]
pub struct NotLoaded<'a, P: Platform> {
    pub(crate) sequenced: &'a SequencedInputObject<P>,
}

/// What a loaded object is, whether regular or shared. Mirrors Wild's `ResolvedCommon`.
#[derive(Drop)]
pub struct ResolvedCommon<'a, P: Platform> {
    pub sequenced: &'a SequencedInputObject<P>,
}

/// A loaded regular object. Mirrors Wild's `ResolvedObject`.
#[derive(Drop)]
pub struct ResolvedObject<'a, P: Platform> {
    pub common: ResolvedCommon<'a, P>,
    /// Its section groups, and what became of them.
    pub section_groups: Option<&'a ObjectSectionGroups>,
}

/// A loaded shared object. Mirrors Wild's `ResolvedDynamic`.
#[derive(Drop)]
pub struct ResolvedDynamic<'a, P: Platform> {
    pub common: ResolvedCommon<'a, P>,
}

impl<'a, P: Platform> NotLoaded<'a, P> {
    ghost use Rattle.link_resolve_files.specs.ResolvedFiles.{sections_left, symbols_left};

    /// The ids of its symbols.
    pub fn symbol_id_range(&self) -> SymbolIdRange
        ensures { result ≡ symbols_left self.now }
    {
        self.sequenced.symbol_id_range
    }

    /// The ids of its sections; none where it is a shared object.
    pub fn section_id_range(&self) -> SectionIdRange
        ensures { result ≡ sections_left self.now }
    {
        self.sequenced.section_id_range
    }
}

impl<'a, P: Platform> ResolvedCommon<'a, P> {
    /// The name of its file.
    pub fn input(&self) -> &'a Name
        ensures { result.now ≡ self.now.sequenced.now.parsed.input }
    {
        self.sequenced.parsed.input()
    }

    /// Its table.
    pub fn object(&self) -> &'a InputObject<P>
        ensures { result.now ≡ self.now.sequenced.now.parsed.object }
    {
        self.sequenced.parsed.object()
    }

    /// The id of the file.
    pub fn file_id(&self) -> FileId
        ensures { result ≡ self.now.sequenced.now.file_id }
    {
        self.sequenced.file_id
    }

    /// The ids of its symbols, in the order of its table.
    pub fn symbol_id_range(&self) -> SymbolIdRange
        ensures { result ≡ self.now.sequenced.now.symbol_id_range }
    {
        self.sequenced.symbol_id_range
    }

    /// How strongly a symbol of the object binds.
    pub fn input_symbol_strength(&self, id: SymbolId) -> SymbolStrength
        requires table { self.now.sequenced.now.symbol_id_range.len ≡ length self.now.sequenced.now.parsed.object.symbols }
        requires inside { IsInside self.now.sequenced.now.symbol_id_range id }
        ensures { option_map binding_strength (slice_get self.now.sequenced.now.parsed.object.symbols (offset_in self.now.sequenced.now.symbol_id_range id)) ≡ Some result }
    {
        self.sequenced.input_symbol_strength(id)
    }
}

impl<'a, P: Platform> ResolvedObject<'a, P> {
    /// The ids of its sections, in the order of its table.
    pub fn section_id_range(&self) -> SectionIdRange
        ensures { result ≡ self.now.common.sequenced.now.section_id_range }
    {
        self.common.sequenced.section_id_range
    }
}

impl<'a, P: Platform> ResolvedDynamic<'a, P> {
    /// The name by which a program asks for the shared object at run time.
    pub fn lib_name(&self) -> &'a Name
        ensures { result.now ≡ self.now.common.sequenced.now.parsed.object.lib_name }
    {
        self.common.object().lib_name()
    }
}
