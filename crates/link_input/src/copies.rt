//! Copies of the linker's own symbols.

ghost use Rattle.std.specs.Prelude.{◌≡◌, IfOk};

use crate::internal_symbols::{InternalSymDefInfo, Redirect, SymbolPlacement};
use link_names::{Name, Seq};
use std::alloc::{AllocError, Global};

/// Copies of names, in order.
fn copies_of(alloc: Global, names: &[Name]) -> Result<Seq<Name>, AllocError>
    ensures { IfOk result (λ copies. copies ≡ names.now) }
{
    let mut copies = Seq::new(alloc);
    for name in names {
        copies.push(name.clone()?)?;
    }
    Ok(copies)
}

impl Redirect {
    /// A copy. Its only refusal is want of memory.
    pub fn try_clone(&self, alloc: Global) -> Result<Self, AllocError>
        ensures { IfOk result (λ copy. copy ≡ self.now) }
    {
        let targets = copies_of(alloc, self.targets.as_slice())?;
        Ok(Redirect {
            kind: self.kind,
            targets,
            loc: self.loc,
        })
    }
}

impl SymbolPlacement {
    /// A copy. Its only refusal is want of memory.
    pub fn try_clone(&self, alloc: Global) -> Result<Self, AllocError>
        ensures { IfOk result (λ copy. copy ≡ self.now) }
    {
        Ok(match self {
            SymbolPlacement::Undefined => SymbolPlacement::Undefined,
            SymbolPlacement::SectionStart(section) => SymbolPlacement::SectionStart(*section),
            SymbolPlacement::SectionEnd(section) => SymbolPlacement::SectionEnd(*section),
            SymbolPlacement::TlsEnd(section) => SymbolPlacement::TlsEnd(*section),
            SymbolPlacement::SectionGroupEnd(section) => SymbolPlacement::SectionGroupEnd(*section),
            SymbolPlacement::ForceUndefined => SymbolPlacement::ForceUndefined,
            SymbolPlacement::Redirect(redirect) => {
                SymbolPlacement::Redirect(redirect.try_clone(alloc)?)
            }
            SymbolPlacement::LoadBaseAddress => SymbolPlacement::LoadBaseAddress,
            SymbolPlacement::PlatformSpecific => SymbolPlacement::PlatformSpecific,
        })
    }
}

impl InternalSymDefInfo {
    /// A copy. Its only refusal is want of memory.
    pub fn try_clone(&self, alloc: Global) -> Result<Self, AllocError>
        ensures { IfOk result (λ copy. copy ≡ self.now) }
    {
        let placement = self.placement.try_clone(alloc)?;
        let name = self.name.clone()?;
        Ok(InternalSymDefInfo {
            placement,
            name,
            hidden: self.hidden,
        })
    }
}
