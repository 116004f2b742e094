//! Lists of symbols by names.

ghost use Rattle.std.specs.Prelude.{◌≡◌, ◌++◌, [], ◌∷◌, ◌&&◌, OnOk, List, Option, ℕ, option_map, if◌then◌else◌};
ghost use Rattle.std.specs.Str.{bytes_eq};
ghost use Rattle.link_rules.specs.Places.{same_version};
ghost use Rattle.link_check_names.specs.Lists.{list_in};

use crate::keys::name_key;
use link_ids::SymbolId;
use std::alloc::{AllocError, Global};
use std::collections::BTreeMap;
use std::marker::Model;

/// Lists of symbols, found by a name, with its version where it has one. A contract sees the names with their lists, and asks by
/// `list_in` what is listed of one. The names are kept in order, so that no choice of names makes a look-up slow.
#[derive(Drop)]
pub struct NameLists<'a> {
    lists: BTreeMap<(u64, &'a [u8], Option<&'a [u8]>), Vec<SymbolId>>,
}

impl<'a> Model for NameLists<'a> {
    ghost use Rattle.link_check_names.specs.Lists.{Listed, listed_in};

    ghost Value = { Listed };

    ghost view = { λ n. listed_in n.lists.entries };
}

impl<'a> NameLists<'a> {
    /// No lists. Takes no memory.
    pub fn new(alloc: Global) -> Self
        ensures { result ≡ [] }
    {
        NameLists {
            lists: BTreeMap::new(alloc),
        }
    }

    /// The symbols that are listed of a name, in the order in which they came.
    pub fn get(&self, name: &'a [u8], version: Option<&'a [u8]>) -> &[SymbolId]
        ensures { result.now ≡ list_in self.now name.now (option_map (λ v. v.now) version.entry) }
    {
        match self.lists.get(&name_key(name, version)) {
            Some(list) => list.as_slice(),
            None => &[],
        }
    }

    /// Lists one symbol more of a name.
    pub fn push(
        &mut self,
        alloc: Global,
        name: &'a [u8],
        version: Option<&'a [u8]>,
        id: SymbolId,
    ) -> Result<(), AllocError>
        ensures { OnOk result ((asked : List ℕ) (asked_version : Option (List ℕ)) → list_in self.new asked asked_version
            ≡ (if bytes_eq name.now asked && same_version (option_map (λ v. v.now) version.entry) asked_version
            then list_in self.old asked asked_version ++ id ∷ [] else list_in self.old asked asked_version)) }
    {
        let key = name_key(name, version);
        match self.lists.get_mut(&key) {
            Some(list) => list.push(id)?,
            None => {
                let list = vec![in alloc; id]?;
                self.lists.insert(key, list)?;
            }
        }
        Ok(())
    }
}
