//! Symbols that no object gives: the linker's own, those of the options, and those of linker scripts.

use link_names::{Name, Seq};

/// Who defined a symbol as another name: `--defsym`, or a linker script, there perhaps by `PROVIDE`.
#[derive(Clone, Copy, Debug, PartialEq, Eq)]
pub enum RedirectKind {
    DefSym,
    Script,
    Provide,
}

/// A place between sections, by the number of its counter, and the section that it follows.
#[derive(Clone, Copy, Debug, PartialEq, Eq)]
pub struct LocationCounter {
    pub counter: u32,
    pub section: Option<u32>,
}

/// Relative to what a redirect stands. Sections are output sections by number.
#[derive(Clone, Copy, Debug, PartialEq, Eq)]
pub enum SymbolLoc {
    SectionStartRelative(u32),
    SectionEndRelative(u32),
    SectionEnd(u32),
    FirstSection,
    LocationCounter(LocationCounter),
    None,
}

/// A definition that refers to other names.
#[derive(Debug, Drop)]
pub struct Redirect {
    pub kind: RedirectKind,
    /// The names that it refers to.
    pub targets: Seq<Name>,
    pub loc: SymbolLoc,
}

/// Where a symbol of the linker stands. Mirrors Wild's `SymbolPlacement`. Sections are output sections by number.
#[derive(Debug, Drop)]
pub enum SymbolPlacement {
    /// Nowhere: symbol 0, which stands for no definition.
    Undefined,
    SectionStart(u32),
    /// One past the last byte of the section.
    SectionEnd(u32),
    TlsEnd(u32),
    SectionGroupEnd(u32),
    /// Nowhere: a name that the user wants to be defined (`--undefined`).
    ForceUndefined,
    Redirect(Redirect),
    LoadBaseAddress,
    PlatformSpecific,
}

/// A symbol that the linker itself defines.
#[derive(Debug, Drop)]
pub struct InternalSymDefInfo {
    pub placement: SymbolPlacement,
    pub name: Name,
    pub hidden: bool,
}
