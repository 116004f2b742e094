//! Ids of symbols by names and versions.

ghost use Rattle.std.specs.Prelude.{◌≡◌, ℕ, List, None, Option, OnOk, Some, if◌then◌else◌};
ghost use Rattle.std.specs.Option.{option_or};
ghost use Rattle.link_resolve_undefined.specs.Keys.{same_name};

use crate::asked_name::AskedName;
use std::alloc::{AllocError, Global};
use std::collections::BTreeMap;

/// What is noted of names with their versions. They are kept in order, so that no choice of names makes a look-up slow; their
/// bytes are lent.
#[derive(Drop)]
pub struct NameIds<'a> {
    ids: BTreeMap<AskedName<'a>, u32>,
}

impl<'a> NameIds<'a> {
    ghost use Rattle.link_resolve_undefined.specs.NameIds.{id_in};
    ghost use Rattle.link_resolve_undefined.specs.Keys.{name_of, version_of};

    /// Nothing noted. Takes no memory.
    pub fn new(alloc: Global) -> Self
        ensures { (name : List ℕ) → (version : Option (List ℕ)) → id_in result name version ≡ None }
    {
        NameIds {
            ids: BTreeMap::new(alloc),
        }
    }

    /// Notes the id, in place of what was noted of the name.
    pub fn note(&mut self, asked: AskedName<'a>, id: u32) -> Result<(), AllocError>
        ensures { OnOk result ((name : List ℕ) → (version : Option (List ℕ)) → id_in self.new name version ≡ (if same_name (name_of asked.entry) (version_of asked.entry) name version then Some id else id_in self.old name version)) }
    {
        self.ids.insert(asked, id)?;
        Ok(())
    }

    /// Notes the id, where nothing was noted of the name.
    pub fn note_first(&mut self, asked: AskedName<'a>, id: u32) -> Result<(), AllocError>
        ensures { OnOk result ((name : List ℕ) → (version : Option (List ℕ)) → id_in self.new name version ≡ option_or (id_in self.old name version) (if same_name (name_of asked.entry) (version_of asked.entry) name version then Some id else None)) }
    {
        if self.get(asked).is_none() {
            self.note(asked, id)?;
        }
        Ok(())
    }

    /// What is noted of the name.
    pub fn get(&self, asked: AskedName<'a>) -> Option<u32>
        ensures { result ≡ id_in self.now (name_of asked.entry) (version_of asked.entry) }
    {
        self.ids.get(&asked).copied()
    }
}
