//! An entry of a symbol table, as a table lends it.

ghost use Rattle.std.specs.Prelude.{◌≡◌, ◌<◌, Some, length, option_map, slice_get};
ghost use Rattle.link_input.specs.Entries.{is_undefined, is_absolute, is_common, section_of, is_func, is_ifunc, is_tls, is_local, is_weak, is_hidden};
ghost use Rattle.link_input.specs.BindingStrength.{binding_strength};
ghost use Rattle.link_input.specs.Checks.{is_null};

use crate::symbol_columns::SymbolColumns;
use crate::symbol_entry::{Place, SymbolBinding, SymbolKind};
use link_flags::{SymbolStrength, Visibility};
use link_ids::SectionIndex;
use link_names::NameView;
use std::marker::Model;

/// An entry of a symbol table, as the table lends it: a field is read from its column when it is asked for, so a pass over a table reads no column that
/// it doesn't ask for. A contract sees the entry.
#[derive(Drop)]
pub struct SymbolRow<'a> {
    columns: &'a SymbolColumns,
    place: usize,
}

impl<'a> Model for SymbolRow<'a> {
    ghost use Rattle.std.specs.Prelude.{◌<◌, length};
    ghost use Rattle.link_input.specs.declared.symbol_entry.SymbolEntry.{SymbolEntry};
    ghost use Rattle.link_input.specs.Columns.{entry_at};

    ghost Value = { SymbolEntry };

    ghost view = { λ r. entry_at r.columns.now r.place };

    ghost invariant = { λ r. r.place < length r.columns.now };
}

impl<'a> SymbolRow<'a> {
    /// The entry at a place of columns. `len` is the test.
    pub(crate) fn new(columns: &'a SymbolColumns, place: usize) -> Self
        requires { place < length columns.now }
        ensures { slice_get columns.now place ≡ Some result }
    {
        SymbolRow { columns, place }
    }

    /// Its name.
    pub fn name(&self) -> NameView<'a>
        ensures { result ≡ self.now.name }
    {
        NameView::new(self.columns.name(self.place))
    }

    /// The bytes of that version, by which names are looked up.
    pub fn version_bytes(&self) -> Option<&'a [u8]>
        ensures { option_map (λ v. v.now) result ≡ self.now.version }
    {
        self.version().map(|version| version.as_slice())
    }

    /// The version that stood behind an `@` of the name.
    pub fn version(&self) -> Option<NameView<'a>>
        ensures { result ≡ self.now.version }
    {
        match self.columns.version(self.place) {
            Some(bytes) => Some(NameView::new(bytes)),
            None => None,
        }
    }

    /// It stands for its plain name too (`@@`); true without a version.
    pub fn is_default(&self) -> bool
        ensures { result ≡ self.now.is_default }
    {
        self.columns.is_default(self.place)
    }

    /// How it binds.
    pub fn binding(&self) -> SymbolBinding
        ensures { result ≡ self.now.binding }
    {
        self.columns.binding(self.place)
    }

    /// How far it can be seen.
    pub fn visibility(&self) -> Visibility
        ensures { result ≡ self.now.visibility }
    {
        self.columns.visibility(self.place)
    }

    /// What it is.
    pub fn kind(&self) -> SymbolKind
        ensures { result ≡ self.now.kind }
    {
        self.columns.kind(self.place)
    }

    /// Its size in bytes.
    pub fn size(&self) -> u64
        ensures { result ≡ self.now.size }
    {
        self.columns.size(self.place)
    }

    /// Where it stands.
    pub fn place(&self) -> Place
        ensures { result ≡ self.now.place }
    {
        self.columns.place(self.place)
    }

    /// It stands for no symbol (ELF gABI, "Symbol Table", index 0): undefined, local, of the empty name and no version, and
    /// of default visibility.
    pub fn is_null(&self) -> bool
        ensures { result ≡ is_null self.now }
    {
        self.is_undefined()
            && self.is_local()
            && self.name().is_empty()
            && matches!(self.visibility(), Visibility::Default)
            && self.version().is_none()
    }

    /// It refers to a symbol of its name, and defines none (`SHN_UNDEF`).
    pub fn is_undefined(&self) -> bool
        ensures { result ≡ is_undefined self.now.place }
    {
        self.place().is_undefined()
    }

    /// Its value is a number and not an address (`SHN_ABS`).
    pub fn is_absolute(&self) -> bool
        ensures { result ≡ is_absolute self.now.place }
    {
        self.place().is_absolute()
    }

    /// It is a tentative definition (`SHN_COMMON`).
    pub fn is_common(&self) -> bool
        ensures { result ≡ is_common self.now.place }
    {
        self.place().is_common()
    }

    /// The section of its object that it stands in.
    pub fn section(&self) -> Option<SectionIndex>
        ensures { result ≡ section_of self.now.place }
    {
        self.place().section()
    }

    /// It is a function (`STT_FUNC`); a resolver is none.
    pub fn is_func(&self) -> bool
        ensures { result ≡ is_func self.now.kind }
    {
        self.kind().is_func()
    }

    /// It is a resolver, which answers the function's address at run time (`STT_GNU_IFUNC`).
    pub fn is_ifunc(&self) -> bool
        ensures { result ≡ is_ifunc self.now.kind }
    {
        self.kind().is_ifunc()
    }

    /// Each thread has its own (`STT_TLS`).
    pub fn is_tls(&self) -> bool
        ensures { result ≡ is_tls self.now.kind }
    {
        self.kind().is_tls()
    }

    /// Other files do not see it (`STB_LOCAL`).
    pub fn is_local(&self) -> bool
        ensures { result ≡ is_local self.now.binding }
    {
        self.binding().is_local()
    }

    /// It is a weak definition or a weak reference (`STB_WEAK`).
    pub fn is_weak(&self) -> bool
        ensures { result ≡ is_weak self.now.binding }
    {
        self.binding().is_weak()
    }

    /// Other modules do not see it (`STV_HIDDEN`).
    pub fn is_hidden(&self) -> bool
        ensures { result ≡ is_hidden self.now.visibility }
    {
        matches!(self.visibility(), Visibility::Hidden)
    }

    /// How strongly it binds as a definition: weak before tentative, before unique in the process, before strong.
    pub fn strength(&self) -> SymbolStrength
        ensures { result ≡ binding_strength self.now }
    {
        if self.is_weak() {
            SymbolStrength::Weak
        } else if self.is_common() {
            SymbolStrength::Common(self.size())
        } else if self.binding().is_unique() {
            SymbolStrength::GnuUnique
        } else {
            SymbolStrength::Strong
        }
    }
}
