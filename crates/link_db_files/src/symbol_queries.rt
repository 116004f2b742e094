//! What is asked of the symbols of the files that a link holds.

ghost use Rattle.std.specs.Prelude.{◌≡◌, ◌<◌, length, option_map};

use crate::files::Files;
use link_flags::{SymbolStrength, Visibility};
use link_ids::SymbolId;
use link_input::{InternalSymDefInfo, Platform, SymbolRow};
use link_input_groups::SequencedInput;
use link_names::NameView;

impl<P: Platform> Files<P> {
    ghost use Rattle.link_db_files.specs.HeldFiles.{entry_of, is_shared_in, is_undefined_in, names_in, prelude_definition_of, strength_of, version_of, visibility_of};

    /// The version of the symbol, where it has one.
    pub fn symbol_version(&self, id: SymbolId) -> Option<NameView<'_>>
        requires { id < length (names_in self.now) }
        ensures { result ≡ version_of self.now id }
    {
        self.file_of(id).symbol_version_debug(id)
    }

    /// How strongly the symbol binds, whether its file is loaded or not.
    pub fn symbol_strength(&self, id: SymbolId) -> SymbolStrength
        requires { id < length (names_in self.now) }
        ensures { result ≡ strength_of self.now id }
    {
        self.file_of(id).input_symbol_strength(id)
    }

    /// Whether the symbol stands in a shared object or in a stub library.
    pub fn is_shared(&self, id: SymbolId) -> bool
        requires { id < length (names_in self.now) }
        ensures { result ≡ is_shared_in self.now id }
    {
        self.file_of(id).is_dynamic()
    }

    /// The entry of the symbol, as the table of its object lends it. None where it stands in no object.
    pub fn symbol_row(&self, id: SymbolId) -> Option<SymbolRow<'_>>
        requires { id < length (names_in self.now) }
        ensures { result ≡ entry_of self.now id }
    {
        match self.file_of(id) {
            SequencedInput::Object(object) => Some(object.symbol_row(id)),
            _ => None,
        }
    }

    /// How far the symbol can be seen.
    pub fn symbol_visibility(&self, id: SymbolId) -> Visibility
        requires { id < length (names_in self.now) }
        ensures { result ≡ visibility_of self.now id }
    {
        match self.symbol_row(id) {
            Some(row) => row.visibility(),
            None => Visibility::Default,
        }
    }

    /// Whether the symbol stands in an object that doesn't define it.
    pub fn is_undefined(&self, id: SymbolId) -> bool
        requires { id < length (names_in self.now) }
        ensures { result ≡ is_undefined_in self.now id }
    {
        match self.symbol_row(id) {
            Some(row) => row.is_undefined(),
            None => false,
        }
    }

    /// The definition of the symbol in the prelude. None where it doesn't stand there.
    pub fn prelude_symbol_def(&self, id: SymbolId) -> Option<&InternalSymDefInfo>
        requires { id < length (names_in self.now) }
        ensures { option_map (λ d. d.now) result ≡ prelude_definition_of self.now id }
    {
        match self.file_of(id) {
            SequencedInput::Prelude(prelude) => Some(prelude.symbol_def(id)),
            _ => None,
        }
    }
}
