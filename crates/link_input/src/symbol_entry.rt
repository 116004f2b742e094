//! One entry of the symbol table of an object.

use link_flags::Visibility;
use link_names::Name;

/// How a symbol binds (ELF gABI, "Symbol Table", `STB_LOCAL`, `STB_GLOBAL`, `STB_WEAK`; `STB_GNU_UNIQUE`).
#[derive(Clone, Copy, Debug, PartialEq, Eq)]
pub enum SymbolBinding {
    /// Other files do not see it.
    Local,
    /// Every file sees it.
    Global,
    /// As global, but it yields to a definition that isn't weak, and a weak reference asks for no file.
    Weak,
    /// As global, and one for the whole process.
    Unique,
}

/// What a symbol is (ELF gABI, "Symbol Table", `STT_FUNC`, `STT_TLS`; `STT_GNU_IFUNC`); all else is plain.
#[derive(Clone, Copy, Debug, PartialEq, Eq)]
pub enum SymbolKind {
    Plain,
    Func,
    Ifunc,
    Tls,
}

/// Where a symbol stands (ELF gABI, "Symbol Table", `st_shndx`: `SHN_UNDEF`, `SHN_ABS`, `SHN_COMMON`, or a section).
#[derive(Clone, Copy, Debug, PartialEq, Eq)]
pub enum Place {
    /// In no file yet: the entry refers to a symbol of its name.
    Undefined,
    /// At a fixed value.
    Absolute,
    /// In space that the linker has still to set aside.
    Common,
    /// In this section of its object.
    Section(u32),
}

/// One entry of the symbol table of an object, its name and version split.
#[derive(Debug, Drop)]
pub struct SymbolEntry {
    pub name: Name,
    /// The version that stood behind an `@` of the name.
    pub version: Option<Name>,
    /// It stands for its plain name too (`@@`); true without a version.
    pub is_default: bool,
    pub binding: SymbolBinding,
    pub visibility: Visibility,
    pub kind: SymbolKind,
    /// Its size in bytes.
    pub size: u64,
    pub place: Place,
}

impl SymbolEntry {
    ghost use Rattle.std.specs.Prelude.{◌≡◌};
    ghost use Rattle.link_input.specs.Checks.{is_null};

    /// It stands for no symbol, as `SymbolRow::is_null` says.
    pub fn is_null(&self) -> bool
        ensures { result ≡ is_null self.now }
    {
        self.place.is_undefined()
            && self.binding.is_local()
            && self.name.is_empty()
            && matches!(self.visibility, Visibility::Default)
            && self.version.is_none()
    }
}
