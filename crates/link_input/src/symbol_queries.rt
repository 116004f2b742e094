//! What the fields of an entry of a symbol table say.

ghost use Rattle.std.specs.Prelude.{◌≡◌};
ghost use Rattle.link_input.specs.Entries.{is_undefined, is_absolute, is_common, section_of, is_func, is_ifunc, is_tls, is_local, is_weak, is_unique};

use crate::symbol_entry::{Place, SymbolBinding, SymbolKind};
use link_ids::SectionIndex;

impl Place {
    /// The entry refers to a symbol of its name, and defines none (`SHN_UNDEF`).
    pub fn is_undefined(self) -> bool
        ensures { result ≡ is_undefined self }
    {
        matches!(self, Place::Undefined)
    }

    /// The entry's value is a number and not an address (`SHN_ABS`).
    pub fn is_absolute(self) -> bool
        ensures { result ≡ is_absolute self }
    {
        matches!(self, Place::Absolute)
    }

    /// The entry is a tentative definition (`SHN_COMMON`).
    pub fn is_common(self) -> bool
        ensures { result ≡ is_common self }
    {
        matches!(self, Place::Common)
    }

    /// The section of its object that the entry stands in.
    pub fn section(self) -> Option<SectionIndex>
        ensures { result ≡ section_of self }
    {
        match self {
            Place::Section(section) => Some(SectionIndex::new(section)),
            _ => None,
        }
    }
}

impl SymbolKind {
    /// It is a function (`STT_FUNC`); a resolver is none.
    pub fn is_func(self) -> bool
        ensures { result ≡ is_func self }
    {
        matches!(self, SymbolKind::Func)
    }

    /// It is a resolver, which answers the function's address at run time (`STT_GNU_IFUNC`).
    pub fn is_ifunc(self) -> bool
        ensures { result ≡ is_ifunc self }
    {
        matches!(self, SymbolKind::Ifunc)
    }

    /// Each thread has its own (`STT_TLS`).
    pub fn is_tls(self) -> bool
        ensures { result ≡ is_tls self }
    {
        matches!(self, SymbolKind::Tls)
    }
}

impl SymbolBinding {
    /// Other files do not see the symbol (`STB_LOCAL`).
    pub fn is_local(self) -> bool
        ensures { result ≡ is_local self }
    {
        matches!(self, SymbolBinding::Local)
    }

    /// The symbol is a weak definition or a weak reference (`STB_WEAK`).
    pub fn is_weak(self) -> bool
        ensures { result ≡ is_weak self }
    {
        matches!(self, SymbolBinding::Weak)
    }

    /// There is one for the whole process (`STB_GNU_UNIQUE`).
    pub fn is_unique(self) -> bool
        ensures { result ≡ is_unique self }
    {
        matches!(self, SymbolBinding::Unique)
    }
}
