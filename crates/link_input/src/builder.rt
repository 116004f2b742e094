//! Definitions of the linker's own symbols that are made one by one.

ghost use Rattle.std.specs.Prelude.{◌≡◌, [], IfOk};
ghost use Rattle.std.specs.Borrow.{sem};
ghost use Rattle.link_input.specs.declared.internal_symbols.SymbolPlacement.TheVariants.{SectionStart, SectionEnd, SectionGroupEnd, PlatformSpecific};
ghost use Rattle.link_input.specs.Adding.{LendsAdded, visible};

use crate::internal_symbols::{InternalSymDefInfo, SymbolPlacement};
use link_names::{Name, Seq};
use std::alloc::{AllocError, Global};
use std::marker::Model;

/// Definitions of symbols that the linker makes, in order. Mirrors Wild's `InternalSymbolsBuilder`. A contract sees their
/// list.
#[derive(Debug, Drop)]
pub struct InternalSymbolsBuilder {
    definitions: Vec<InternalSymDefInfo>,
}

impl Model for InternalSymbolsBuilder {
    ghost use Rattle.std.specs.Prelude.{List};
    ghost use Rattle.link_input.specs.declared.internal_symbols.InternalSymDefInfo.{InternalSymDefInfo};

    ghost Value = { List InternalSymDefInfo };

    ghost view = { λ b. b.definitions.items };
}

impl InternalSymbolsBuilder {
    /// No definition. Takes no memory.
    pub fn new(alloc: Global) -> Self
        ensures { result ≡ [] }
    {
        InternalSymbolsBuilder {
            definitions: Vec::new(alloc),
        }
    }

    /// Appends a definition and lends it. After a refusal, which is want of memory, the definitions are as before.
    pub fn add_symbol(
        &mut self,
        definition: InternalSymDefInfo,
    ) -> Result<&mut InternalSymDefInfo, AllocError>
        ensures* writes_back { sem 𝓛 (LendsAdded self.entry result) }
        ensures value { IfOk result (λ lent. lent.now ≡ definition) }
    {
        let index = self.definitions.len();
        self.definitions.push(definition)?;
        Ok(&mut self.definitions[index])
    }

    /// Appends a symbol at the start of an output section, not hidden, and lends it. After a refusal, which is want of
    /// memory, the definitions are as before.
    pub fn section_start(
        &mut self,
        section: u32,
        name: Name,
    ) -> Result<&mut InternalSymDefInfo, AllocError>
        ensures* writes_back { sem 𝓛 (LendsAdded self.entry result) }
        ensures value { IfOk result (λ lent. lent.now ≡ visible (SectionStart section) name) }
    {
        let placement = SymbolPlacement::SectionStart(section);
        self.add_symbol(InternalSymDefInfo::new(placement, name))
    }

    /// Appends a symbol one past the last byte of an output section, not hidden, and lends it. After a refusal, which is
    /// want of memory, the definitions are as before.
    pub fn section_end(
        &mut self,
        section: u32,
        name: Name,
    ) -> Result<&mut InternalSymDefInfo, AllocError>
        ensures* writes_back { sem 𝓛 (LendsAdded self.entry result) }
        ensures value { IfOk result (λ lent. lent.now ≡ visible (SectionEnd section) name) }
    {
        let placement = SymbolPlacement::SectionEnd(section);
        self.add_symbol(InternalSymDefInfo::new(placement, name))
    }

    /// Appends a symbol at the end of a group of output sections, not hidden, and lends it. After a refusal, which is want
    /// of memory, the definitions are as before.
    pub fn section_group_end(
        &mut self,
        section: u32,
        name: Name,
    ) -> Result<&mut InternalSymDefInfo, AllocError>
        ensures* writes_back { sem 𝓛 (LendsAdded self.entry result) }
        ensures value { IfOk result (λ lent. lent.now ≡ visible (SectionGroupEnd section) name) }
    {
        let placement = SymbolPlacement::SectionGroupEnd(section);
        self.add_symbol(InternalSymDefInfo::new(placement, name))
    }

    /// Appends a symbol of which the platform alone knows the place, not hidden, and lends it. After a refusal, which is
    /// want of memory, the definitions are as before.
    pub fn platform_specific(&mut self, name: Name) -> Result<&mut InternalSymDefInfo, AllocError>
        ensures* writes_back { sem 𝓛 (LendsAdded self.entry result) }
        ensures value { IfOk result (λ lent. lent.now ≡ visible PlatformSpecific name) }
    {
        self.add_symbol(InternalSymDefInfo::new(SymbolPlacement::PlatformSpecific, name))
    }

    /// Lends the definitions.
    pub fn definitions(&self) -> &[InternalSymDefInfo]
        ensures { result.now ≡ self.now }
    {
        self.definitions.as_slice()
    }

    /// The definitions, which are handed over.
    pub fn into_definitions(self) -> Seq<InternalSymDefInfo>
        ensures { result ≡ self }
    {
        let InternalSymbolsBuilder { definitions } = self;
        Seq::from_vec(definitions)
    }
}
