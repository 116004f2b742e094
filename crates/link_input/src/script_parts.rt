//! Linker scripts and stub libraries, copied and compared.

use crate::internal_symbols::{InternalSymDefInfo, Redirect, SymbolPlacement};
use crate::parts::Part;
use crate::world::{ProcessedLinkerScript, StubLibrary};
use std::alloc::{AllocError, Global};

impl Part for Redirect {
    fn try_copy(&self, alloc: Global) -> Result<Self, AllocError> {
        self.try_clone(alloc)
    }

    fn same(&self, other: &Self) -> bool {
        self.kind == other.kind && self.loc == other.loc && self.targets.same(&other.targets)
    }
}

impl Part for SymbolPlacement {
    fn try_copy(&self, alloc: Global) -> Result<Self, AllocError> {
        self.try_clone(alloc)
    }

    fn same(&self, other: &Self) -> bool {
        match self {
            SymbolPlacement::Undefined => matches!(other, SymbolPlacement::Undefined),
            SymbolPlacement::SectionStart(section) => {
                matches!(other, SymbolPlacement::SectionStart(to) if *to == *section)
            }
            SymbolPlacement::SectionEnd(section) => {
                matches!(other, SymbolPlacement::SectionEnd(to) if *to == *section)
            }
            SymbolPlacement::TlsEnd(section) => {
                matches!(other, SymbolPlacement::TlsEnd(to) if *to == *section)
            }
            SymbolPlacement::SectionGroupEnd(section) => {
                matches!(other, SymbolPlacement::SectionGroupEnd(to) if *to == *section)
            }
            SymbolPlacement::ForceUndefined => matches!(other, SymbolPlacement::ForceUndefined),
            SymbolPlacement::Redirect(redirect) => match other {
                SymbolPlacement::Redirect(to) => redirect.same(to),
                _ => false,
            },
            SymbolPlacement::LoadBaseAddress => matches!(other, SymbolPlacement::LoadBaseAddress),
            SymbolPlacement::PlatformSpecific => matches!(other, SymbolPlacement::PlatformSpecific),
        }
    }
}

impl Part for InternalSymDefInfo {
    fn try_copy(&self, alloc: Global) -> Result<Self, AllocError> {
        self.try_clone(alloc)
    }

    fn same(&self, other: &Self) -> bool {
        self.hidden == other.hidden
            && self.name.same(&other.name)
            && self.placement.same(&other.placement)
    }
}

impl Part for ProcessedLinkerScript {
    fn try_copy(&self, alloc: Global) -> Result<Self, AllocError> {
        Ok(ProcessedLinkerScript {
            input: self.input.try_copy(alloc)?,
            entry: self.entry.try_copy(alloc)?,
            version: self.version.try_copy(alloc)?,
            symbol_defs: self.symbol_defs.try_copy(alloc)?,
        })
    }

    fn same(&self, other: &Self) -> bool {
        self.input.same(&other.input)
            && self.entry.same(&other.entry)
            && self.version.same(&other.version)
            && self.symbol_defs.same(&other.symbol_defs)
    }
}

impl Part for StubLibrary {
    fn try_copy(&self, alloc: Global) -> Result<Self, AllocError> {
        Ok(StubLibrary {
            input: self.input.try_copy(alloc)?,
            strong: self.strong.try_copy(alloc)?,
            weak: self.weak.try_copy(alloc)?,
        })
    }

    fn same(&self, other: &Self) -> bool {
        self.input.same(&other.input)
            && self.strong.same(&other.strong)
            && self.weak.same(&other.weak)
    }
}
