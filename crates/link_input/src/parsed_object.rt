//! Objects with the names of their files.

ghost use Rattle.std.specs.Prelude.{◌≡◌, length};

use crate::object::InputObject;
use crate::platform::Platform;
use link_names::Name;
use std::fmt;
use std::marker::Model;

/// How an object was named on the command line. Mirrors Wild's `Modifiers` and its archive semantics.
#[derive(Clone, Copy, Debug, PartialEq, Eq)]
pub struct Modifiers {
    /// It is a member of an archive, which is taken only where it is asked for.
    pub archive: bool,
    /// All members of its archive are taken (`--whole-archive`).
    pub whole_archive: bool,
    /// A shared object is taken only where it is asked for (`--as-needed`).
    pub as_needed: bool,
}

/// An object of a platform with the name of its file. A contract sees the name, the table and the modifiers.
#[derive(Drop)]
pub struct ParsedInputObject<P: Platform> {
    input: Name,
    object: InputObject<P>,
    modifiers: Modifiers,
}

impl<P: Platform> Model for ParsedInputObject<P> {
    ghost use Rattle.link_input.specs.ObjectFile.{ObjectFile};

    ghost Value = { ObjectFile };

    ghost view = { λ o. record { input = o.input; object = o.object; modifiers = o.modifiers } };
}

impl<P: Platform> ParsedInputObject<P> {
    /// The object in the file of this name.
    pub fn new(input: Name, object: InputObject<P>, modifiers: Modifiers) -> Self
        ensures { result ≡ record { input = input; object = object; modifiers = modifiers } }
    {
        ParsedInputObject {
            input,
            object,
            modifiers,
        }
    }

    /// The name of its file.
    pub fn input(&self) -> &Name
        ensures { result.now ≡ self.now.input }
    {
        &self.input
    }

    /// Its checked table.
    pub fn object(&self) -> &InputObject<P>
        ensures { result.now ≡ self.now.object }
    {
        &self.object
    }

    /// How it was named on the command line.
    pub fn modifiers(&self) -> Modifiers
        ensures { result ≡ self.now.modifiers }
    {
        self.modifiers
    }

    /// It is a shared object.
    pub fn is_dynamic(&self) -> bool
        ensures { result ≡ self.now.object.is_dynamic }
    {
        self.object.is_dynamic()
    }

    /// How many entries its symbol table has.
    pub fn num_symbols(&self) -> usize
        ensures { result ≡ length self.now.object.symbols }
    {
        self.object.num_symbols()
    }
}

impl<P: Platform> fmt::Display for ParsedInputObject<P> {
    ghost use Rattle.std.specs.Prelude.{Some};
    ghost use Rattle.link_names.specs.NameText.{name_text};

    ghost output = { λ o. Some (name_text o.input) };

    fn fmt<W: fmt::Write>(&self, f: &mut fmt::Formatter<W>) -> fmt::Result {
        self.input.fmt(f)
    }
}
