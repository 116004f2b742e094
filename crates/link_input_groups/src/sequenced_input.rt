//! One file of a group.

ghost use Rattle.std.specs.Prelude.{◌≡◌, ◌<◌, ◌^◌, Some, option_map};
ghost use Rattle.link_ids.specs.Span.{IsInside, offset_in};
ghost use Rattle.link_input.specs.InputFiles.{is_optional_file, is_shared_file, symbol_count};
ghost use Rattle.link_input.specs.Symbols.{name_at, section_at, strength_at, version_at};
ghost use Rattle.link_input_groups.specs.Asked.{AreIdsOf};
ghost use Rattle.link_input_groups.specs.SequencedInputs.{sequenced_file};

use crate::sequenced::{
    SequencedInputObject, SequencedLinkerScript, SequencedStubLibrary, SyntheticSymbols,
};
use link_flags::SymbolStrength;
use link_ids::{InputSectionId, SymbolId, SymbolIdRange};
use link_input::{Platform, Prelude};
use link_names::NameView;
use std::fmt;

/// One file of a group. Mirrors Wild's `SequencedInput`.
#[derive(Drop)]
pub enum SequencedInput<'a, P: Platform> {
    Prelude(&'a Prelude),
    Object(&'a SequencedInputObject<P>),
    LinkerScript(&'a SequencedLinkerScript),
    StubLibrary(&'a SequencedStubLibrary),
    SyntheticSymbols(&'a SyntheticSymbols),
}

impl<'a, P: Platform> SequencedInput<'a, P> {
    /// The ids of its symbols.
    pub fn symbol_id_range(&self) -> SymbolIdRange
        requires fits { (sequenced_file self.now).symbols.len < 2 ^ 32 }
        ensures { result ≡ (sequenced_file self.now).symbols }
    {
        match self {
            SequencedInput::Prelude(prelude) => prelude.symbol_id_range(),
            SequencedInput::Object(object) => object.symbol_id_range,
            SequencedInput::LinkerScript(script) => script.symbol_id_range,
            SequencedInput::StubLibrary(stub) => stub.symbol_id_range,
            SequencedInput::SyntheticSymbols(synthetic) => synthetic.symbol_id_range,
        }
    }

    /// The name of a symbol of the file.
    pub fn symbol_name(&self, id: SymbolId) -> NameView<'a>
        requires table { (sequenced_file self.now).symbols.len ≡ symbol_count (sequenced_file self.now).file }
        requires inside { IsInside (sequenced_file self.now).symbols id }
        ensures { name_at (sequenced_file self.now).file (offset_in (sequenced_file self.now).symbols id) ≡ Some result }
    {
        match self {
            SequencedInput::Prelude(prelude) => {
                NameView::new(prelude.symbol_name(id).as_slice())
            }
            SequencedInput::Object(object) => object.symbol_name(id),
            SequencedInput::LinkerScript(script) => script.symbol_name(id),
            SequencedInput::StubLibrary(stub) => stub.symbol_name(id),
            SequencedInput::SyntheticSymbols(_) => unreachable!(),
        }
    }

    /// The version of a symbol of the file, where it has one: only objects' symbols have.
    pub fn symbol_version_debug(&self, id: SymbolId) -> Option<NameView<'a>>
        requires table { AreIdsOf (sequenced_file self.now).file (sequenced_file self.now).symbols.len }
        requires inside { IsInside (sequenced_file self.now).symbols id }
        ensures { result ≡ version_at (sequenced_file self.now).file (offset_in (sequenced_file self.now).symbols id) }
    {
        match self {
            SequencedInput::Object(object) => object.symbol_version_debug(id),
            SequencedInput::Prelude(_)
            | SequencedInput::LinkerScript(_)
            | SequencedInput::StubLibrary(_)
            | SequencedInput::SyntheticSymbols(_) => None,
        }
    }

    /// It is linked only where it is asked for: an object that is a member of an archive, or a shared object that is taken as
    /// needed.
    pub fn is_optional(&self) -> bool
        ensures { result ≡ is_optional_file (sequenced_file self.now).file }
    {
        match self {
            SequencedInput::Object(object) => object.is_optional(),
            SequencedInput::Prelude(_)
            | SequencedInput::LinkerScript(_)
            | SequencedInput::StubLibrary(_)
            | SequencedInput::SyntheticSymbols(_) => false,
        }
    }

    /// Its symbols are found at run time: it is a shared object, or the stub of one.
    pub fn is_dynamic(&self) -> bool
        ensures { result ≡ is_shared_file (sequenced_file self.now).file }
    {
        match self {
            SequencedInput::Object(object) => object.is_dynamic(),
            SequencedInput::StubLibrary(_) => true,
            SequencedInput::Prelude(_)
            | SequencedInput::LinkerScript(_)
            | SequencedInput::SyntheticSymbols(_) => false,
        }
    }

    /// How strongly a symbol of the file binds: those of the prelude and of linker scripts, and the start and stop symbols,
    /// count as undefined.
    pub fn input_symbol_strength(&self, id: SymbolId) -> SymbolStrength
        requires table { AreIdsOf (sequenced_file self.now).file (sequenced_file self.now).symbols.len }
        requires inside { IsInside (sequenced_file self.now).symbols id }
        ensures { strength_at (sequenced_file self.now).file (offset_in (sequenced_file self.now).symbols id) ≡ Some result }
    {
        match self {
            SequencedInput::Object(object) => object.input_symbol_strength(id),
            SequencedInput::StubLibrary(stub) => stub.input_symbol_strength(id),
            SequencedInput::Prelude(_) | SequencedInput::LinkerScript(_) => {
                SymbolStrength::Undefined
            }
            SequencedInput::SyntheticSymbols(_) => SymbolStrength::Undefined,
        }
    }

    /// The id of the section that a symbol of the file stands in: none where it stands in no section, in a shared object, or
    /// in no object.
    pub fn input_section_id_for_symbol(&self, id: SymbolId) -> Option<InputSectionId>
        requires table { AreIdsOf (sequenced_file self.now).file (sequenced_file self.now).symbols.len }
        requires inside { IsInside (sequenced_file self.now).symbols id }
        ensures { result ≡ section_at (sequenced_file self.now).file (sequenced_file self.now).sections (offset_in (sequenced_file self.now).symbols id) }
    {
        match self {
            SequencedInput::Object(object) => object.input_section_id_for_symbol(id),
            SequencedInput::Prelude(_)
            | SequencedInput::LinkerScript(_)
            | SequencedInput::StubLibrary(_)
            | SequencedInput::SyntheticSymbols(_) => None,
        }
    }
}

impl<P: Platform> fmt::Display for SequencedInput<'_, P> {
    ghost use Rattle.std.specs.Prelude.{Some};
    ghost use Rattle.link_input_groups.specs.GroupText.{file_text};
    ghost use Rattle.link_input_groups.specs.SequencedInputs.{sequenced_file};

    ghost output = { λ i. Some (file_text (sequenced_file i).file) };

    fn fmt<W: fmt::Write>(&self, f: &mut fmt::Formatter<W>) -> fmt::Result {
        match self {
            SequencedInput::Prelude(_) => f.write_str("<prelude>"),
            SequencedInput::Object(object) => object.parsed.input().fmt(f),
            SequencedInput::LinkerScript(script) => script.parsed.input.fmt(f),
            SequencedInput::StubLibrary(stub) => stub.input.fmt(f),
            SequencedInput::SyntheticSymbols(_) => f.write_str("<epilogue>"),
        }
    }
}
