//! Sets of names.

ghost use Rattle.std.specs.Prelude.{◌≡◌, ◌==◌, [], ℕ, length, List, IsTrue, IsOk, OnOk, OnErr};
ghost use Rattle.link_names.specs.Names.{AreNoted, noted_in, is_member, has_room, AddsName};

use crate::name::Name;
use crate::name_map::NameMap;
use std::alloc::{AllocError, Global};
use std::collections::btree_map::Iter;
use std::marker::Model;

/// Names, and room for some more. A contract asks by `is_member` which ones are in it, and by `has_room` which ones are
/// taken without memory.
#[derive(Drop)]
pub struct NameSet {
    names: NameMap<bool>,
}

impl Model for NameSet {
    ghost use Rattle.link_names.specs.Names.{Names};

    ghost Value = { Names };

    ghost view = { λ s. s.names };
}

impl NameSet {
    /// No names. Takes no memory.
    pub fn new(alloc: Global) -> NameSet
        ensures { result ≡ [] }
    {
        NameSet {
            names: NameMap::new(alloc),
        }
    }

    /// Adds a name. Where there is room for it, it takes no memory.
    pub fn insert(&mut self, name: Name) -> Result<(), AllocError>
        ensures ok { OnOk result (AddsName name self.old self.new) }
        ensures err { OnErr result (self.new ≡ self.old) }
        ensures succeeds { IsTrue (has_room self.old name) → IsOk result }
        ensures room { (asked : List ℕ) → IsTrue (has_room self.old asked) → IsTrue (has_room self.new asked) }
    {
        self.names.note(name, true)
    }

    /// Makes room for a name.
    pub fn reserve(&mut self, name: Name) -> Result<(), AllocError>
        ensures same { (asked : List ℕ) → is_member self.new asked ≡ is_member self.old asked }
        ensures ok { OnOk result (IsTrue (has_room self.new name)) }
        ensures room { (asked : List ℕ) → IsTrue (has_room self.old asked) → IsTrue (has_room self.new asked) }
    {
        self.names.note_first(name, false)
    }

    /// The names in order, and of each whether it is in the set or has room alone.
    pub(crate) fn iter(&self) -> Iter<'_, Vec<u8>, bool>
        ensures all { noted_in result ≡ self.now }
        ensures noted { AreNoted self.now self.now }
    {
        self.names.iter()
    }

    /// Whether there is no name, and no room for one.
    pub fn is_empty(&self) -> bool
        ensures { result ≡ (length self.now == 0) }
    {
        self.names.is_empty()
    }

    /// Whether the name is in the set.
    pub fn contains(&self, name: &[u8]) -> bool
        ensures { result ≡ is_member self.now name.now }
    {
        self.names.get(name).unwrap_or(false)
    }
}
