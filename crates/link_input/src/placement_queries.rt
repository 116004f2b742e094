//! Where the linker's own symbols stand, and what is said of their redirects.

ghost use Rattle.std.specs.Prelude.{◌≡◌, IfOk, false, true};
ghost use Rattle.std.specs.String.{string_bytes};
ghost use Rattle.link_input.specs.Locations.{loc_section, relative_section, placement_section};
ghost use Rattle.link_input.specs.RedirectText.{is_provide, missing_target_text, missing_resolution_text};

use crate::internal_symbols::{InternalSymDefInfo, RedirectKind, SymbolLoc, SymbolPlacement};
use link_names::Name;
use std::alloc::{AllocError, Global};
use std::fmt;

impl SymbolLoc {
    /// The output section that it names.
    pub fn section_id(self) -> Option<u32>
        ensures { result ≡ loc_section self }
    {
        match self {
            SymbolLoc::SectionStartRelative(section)
            | SymbolLoc::SectionEndRelative(section)
            | SymbolLoc::SectionEnd(section) => Some(section),
            SymbolLoc::LocationCounter(counter) => counter.section,
            SymbolLoc::FirstSection | SymbolLoc::None => None,
        }
    }

    /// The output section that a value is counted from.
    pub fn relative_section_id(self) -> Option<u32>
        ensures { result ≡ relative_section self }
    {
        match self {
            SymbolLoc::SectionStartRelative(section) | SymbolLoc::SectionEndRelative(section) => {
                Some(section)
            }
            SymbolLoc::LocationCounter(counter) => counter.section,
            SymbolLoc::SectionEnd(_) | SymbolLoc::FirstSection | SymbolLoc::None => None,
        }
    }
}

impl SymbolPlacement {
    /// The output section that it names, a redirect's by its location.
    pub fn section_id(&self) -> Option<u32>
        ensures { result ≡ placement_section self.now }
    {
        match self {
            SymbolPlacement::SectionStart(section)
            | SymbolPlacement::SectionEnd(section)
            | SymbolPlacement::TlsEnd(section)
            | SymbolPlacement::SectionGroupEnd(section) => Some(*section),
            SymbolPlacement::Redirect(redirect) => redirect.loc.section_id(),
            SymbolPlacement::Undefined
            | SymbolPlacement::ForceUndefined
            | SymbolPlacement::LoadBaseAddress
            | SymbolPlacement::PlatformSpecific => None,
        }
    }
}

impl InternalSymDefInfo {
    /// A definition that isn't hidden.
    pub fn new(placement: SymbolPlacement, name: Name) -> Self
        ensures { result ≡ record { placement = placement; name = name; hidden = false } }
    {
        InternalSymDefInfo {
            placement,
            name,
            hidden: false,
        }
    }

    /// The definition, hidden or not.
    pub fn with_hidden(self, hidden: bool) -> Self
        ensures { result ≡ record self { hidden = hidden } }
    {
        InternalSymDefInfo { hidden, ..self }
    }

    /// Hides it, or not.
    pub fn set_hidden(&mut self, hidden: bool)
        ensures { self.new ≡ record self.old { hidden = hidden } }
    {
        self.hidden = hidden;
    }

    /// Hides it.
    pub fn hide(&mut self)
        ensures { self.new ≡ record self.old { hidden = true } }
    {
        self.hidden = true;
    }

    /// The output section that it stands at.
    pub fn section_id(&self) -> Option<u32>
        ensures { result ≡ placement_section self.now.placement }
    {
        self.placement.section_id()
    }
}

impl RedirectKind {
    /// It holds only where nothing else defines the name (`PROVIDE`).
    pub fn is_provide(self) -> bool
        ensures { result ≡ is_provide self }
    {
        matches!(self, RedirectKind::Provide)
    }

    /// What is said where the symbol that a redirect refers to doesn't exist.
    pub fn missing_target(self, alloc: Global, name: &Name) -> Result<String, AllocError>
        ensures { IfOk result (λ t. string_bytes t ≡ missing_target_text self name.now) }
    {
        format!(in alloc; "Symbol '{name}' referenced by {self} does not exist")
    }

    /// What is said where the symbol that a redirect refers to has no value.
    pub fn missing_resolution(self, alloc: Global, name: &Name) -> Result<String, AllocError>
        ensures { IfOk result (λ t. string_bytes t ≡ missing_resolution_text self name.now) }
    {
        format!(in alloc; "Symbol '{name}' referenced by {self} has no resolution.")
    }
}

impl fmt::Display for RedirectKind {
    ghost use Rattle.std.specs.Prelude.{Some};
    ghost use Rattle.link_input.specs.RedirectText.{kind_text};

    ghost output = { λ k. Some (kind_text k) };

    fn fmt<W: fmt::Write>(&self, f: &mut fmt::Formatter<W>) -> fmt::Result {
        match self {
            RedirectKind::DefSym => f.write_str("--defsym"),
            RedirectKind::Script | RedirectKind::Provide => f.write_str("linker script"),
        }
    }
}
