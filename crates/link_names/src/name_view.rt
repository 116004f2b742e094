//! A name that is lent out of a block of bytes.

ghost use Rattle.std.specs.Prelude.{◌≡◌, ◌==◌, length};
ghost use Rattle.std.specs.Str.{bytes_eq};

use crate::name_text::write_name;
use std::fmt;
use std::marker::Model;

/// A name whose bytes stand in a block that others own, as where the names of a table lie one behind the other. A contract
/// sees it as the list of its bytes, as it sees a `Name`.
#[derive(Debug, Drop)]
pub struct NameView<'a> {
    bytes: &'a [u8],
}

impl<'a> Model for NameView<'a> {
    ghost use Rattle.std.specs.Prelude.{List, ℕ};

    ghost Value = { List ℕ };

    ghost view = { λ n. n.bytes.now };
}

impl<'a> NameView<'a> {
    /// The name of these bytes.
    pub fn new(bytes: &'a [u8]) -> Self
        ensures { result ≡ bytes.now }
    {
        NameView { bytes }
    }

    /// Lends the bytes, for as long as their block is lent.
    pub fn as_slice(&self) -> &'a [u8]
        ensures { result.now ≡ self.now }
    {
        self.bytes
    }

    /// It is exactly these bytes.
    pub fn is(&self, bytes: &[u8]) -> bool
        ensures { result ≡ bytes_eq self.now bytes.now }
    {
        self.bytes == bytes
    }

    /// How many bytes it has.
    pub fn len(&self) -> usize
        ensures { result ≡ length self.now }
    {
        self.bytes.len()
    }

    /// It has no byte.
    pub fn is_empty(&self) -> bool
        ensures { result ≡ (length self.now == 0) }
    {
        self.bytes.is_empty()
    }
}

impl<'a> fmt::Display for NameView<'a> {
    ghost use Rattle.std.specs.Prelude.{Some};
    ghost use Rattle.link_names.specs.NameText.{name_text};

    ghost output = { λ n. Some (name_text n) };

    fn fmt<W: fmt::Write>(&self, f: &mut fmt::Formatter<W>) -> fmt::Result {
        write_name(f, self.as_slice())
    }
}
