//! Maps from names.

ghost use Rattle.std.specs.Prelude.{◌≡◌, ◌==◌, [], ℕ, length, List, Some, None, IsTrue, is_some, IsOk, OnOk, OnErr, if◌then◌else◌};
ghost use Rattle.std.specs.Option.{option_or};
ghost use Rattle.std.specs.Str.{bytes_eq};
ghost use Rattle.link_names.specs.Names.{AreNoted, is_member, noted_in, value_in};

use crate::name::Name;
use crate::name_set::NameSet;
use std::alloc::{AllocError, Global};
use std::collections::BTreeMap;
use std::collections::btree_map::Iter;
use std::marker::Model;

/// Names, and what is noted of each. A contract sees the pairs, and asks by `value_in` what is noted of a name. The names
/// are kept in order, so that no choice of names makes a look-up slow.
#[derive(Drop)]
pub struct NameMap<V> {
    notes: BTreeMap<Vec<u8>, V>,
}

impl<V> Model for NameMap<V> {
    ghost use Rattle.link_names.specs.Names.{Noted, noted_in};

    ghost Value = { Noted V };

    ghost view = { λ m. noted_in m.notes.entries };
}

impl<V: Copy + Drop> NameMap<V> {
    /// No names. Takes no memory.
    pub fn new(alloc: Global) -> NameMap<V>
        ensures { result ≡ [] }
    {
        NameMap {
            notes: BTreeMap::new(alloc),
        }
    }

    /// What is noted of the name.
    pub fn get(&self, name: &[u8]) -> Option<V>
        ensures { result ≡ value_in self.now name.now }
    {
        self.notes.get(name).copied()
    }

    /// Notes the value of the name, in place of the one that was noted. Of a known name it takes no memory.
    pub fn note(&mut self, name: Name, value: V) -> Result<(), AllocError>
        ensures ok { OnOk result ((asked : List ℕ) → value_in self.new asked ≡ (if bytes_eq asked name then Some value else value_in self.old asked)) }
        ensures err { OnErr result (self.new ≡ self.old) }
        ensures succeeds { IsTrue (is_some (value_in self.old name)) → IsOk result }
    {
        self.notes.insert(name.into_vec(), value)?;
        Ok(())
    }

    /// Notes the value of the name, where none was noted.
    pub fn note_first(&mut self, name: Name, value: V) -> Result<(), AllocError>
        ensures ok { OnOk result ((asked : List ℕ) → value_in self.new asked ≡ option_or (value_in self.old asked) (if bytes_eq asked name then Some value else None)) }
        ensures err { OnErr result (self.new ≡ self.old) }
    {
        if self.notes.contains_key(name.as_slice()) {
            return Ok(());
        }
        self.note(name, value)
    }

    /// Whether nothing is noted.
    pub fn is_empty(&self) -> bool
        ensures { result ≡ (length self.now == 0) }
    {
        self.notes.len() == 0
    }

    /// The names in order, with what is noted of each.
    pub(crate) fn iter(&self) -> Iter<'_, Vec<u8>, V>
        ensures all { noted_in result ≡ self.now }
        ensures noted { AreNoted self.now self.now }
    {
        self.notes.iter()
    }

    /// Notes the value of each name of the set of which none was noted.
    pub fn note_all(&mut self, alloc: Global, names: &NameSet, value: V) -> Result<(), AllocError>
        ensures { OnOk result ((asked : List ℕ) → value_in self.new asked ≡ option_or (value_in self.old asked) (if is_member names.now asked then Some value else None)) }
    {
        for (name, is_member) in names.iter() {
            if *is_member {
                self.note_first(Name::from_slice(alloc, name.as_slice())?, value)?;
            }
        }
        Ok(())
    }
}
