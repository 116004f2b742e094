//! Versions that a file defines.

ghost use Rattle.std.specs.Prelude.{◌≡◌, IsTrue};
ghost use Rattle.std.specs.Option.{SomeIff};
ghost use Rattle.link_verdef.specs.Item.{are_lawful, is_lawful, is_lawful_count, is_lawful_parent};

use link_names::{Name, Seq};
use std::marker::Model;

/// A version that a file defines: its name, and the number of the version that it extends, where it extends one.
/// Number 0 is the base, whose name is the file's own (its soname); the versions behind it have the numbers from 1.
#[derive(Debug, PartialEq, Eq, Drop)]
pub struct VersionItem {
    pub name: Name,
    pub parent: Option<u16>,
}

/// The versions that a file defines, the base first: none at all, or from 2 to 32,767 of them, and a version extends only
/// one of those behind the base and before itself. A contract sees the list.
#[derive(Debug, Drop)]
pub struct VersionItems {
    items: Seq<VersionItem>,
}

impl Model for VersionItems {
    ghost use Rattle.std.specs.Prelude.{IsTrue, List};
    ghost use Rattle.link_verdef.specs.declared.item.VersionItem.{VersionItem};
    ghost use Rattle.link_verdef.specs.Item.{is_lawful};

    ghost Value = { List VersionItem };

    ghost view = { λ s. s.items };

    ghost invariant = { λ s. IsTrue (is_lawful s.items) };
}

/// Whether a file can define so many versions.
fn is_lawful_count(count: usize) -> bool
    ensures { result ≡ is_lawful_count count }
{
    count == 0 || (2..=32_767).contains(&count)
}

/// Whether the version of this number can extend that one.
fn is_lawful_parent(number: usize, parent: Option<u16>) -> bool
    ensures { result ≡ is_lawful_parent number parent }
{
    match parent {
        Some(parent) => 1 <= parent && usize::from(parent) < number,
        None => true,
    }
}

/// Whether each version can extend what it extends.
fn are_lawful(items: &[VersionItem]) -> bool
    ensures { result ≡ are_lawful items.now }
{
    items
        .iter()
        .enumerate()
        .all(|(number, item)| is_lawful_parent(number, item.parent))
}

impl VersionItems {
    /// The items, where a file can define them, and otherwise none. Takes no memory.
    pub fn new(items: Seq<VersionItem>) -> Option<VersionItems>
        ensures { SomeIff result (IsTrue (is_lawful items)) items }
    {
        if is_lawful_count(items.len()) && are_lawful(items.as_slice()) {
            Some(VersionItems { items })
        } else {
            None
        }
    }

    /// Lends the items.
    pub fn as_slice(&self) -> &[VersionItem]
        ensures value { result.now ≡ self.now }
        ensures lawful { IsTrue (is_lawful self.now) }
    {
        self.items.as_slice()
    }
}
