//! Ids that are noted of names with their versions.

ghost use Rattle.std.specs.Prelude.{◌≡◌, ◌&&◌, [], ℕ, List, Option, OnOk, Some, None, option_map, if◌then◌else◌};
ghost use Rattle.std.specs.Option.{option_or};
ghost use Rattle.std.specs.Str.{bytes_eq};
ghost use Rattle.link_input.specs.Symbols.{Symbol};
ghost use Rattle.link_rules.specs.Places.{same_version};
ghost use Rattle.link_rules.specs.Undefined.{asks_same};
ghost use Rattle.link_check_undefined.specs.Noted.{id_in, id_of};

use link_check_names::name_key;
use link_check_symbols::SymbolView;
use std::alloc::{AllocError, Global};
use std::collections::BTreeMap;
use std::marker::Model;

/// Ids by names, each with its version where it has one. A contract sees the names with their ids, and asks by `id_in` what is noted of
/// one. The names are kept in order, so that no choice of names makes a look-up slow.
#[derive(Drop)]
pub struct NotedIds<'a> {
    ids: BTreeMap<(u64, &'a [u8], Option<&'a [u8]>), usize>,
}

impl<'a> Model for NotedIds<'a> {
    ghost use Rattle.link_check_undefined.specs.Noted.{Noted};

    ghost Value = { Noted };

    ghost view = { λ n. n.ids.entries };
}

impl<'a> NotedIds<'a> {
    /// Nothing is noted. Takes no memory.
    pub fn new(alloc: Global) -> Self
        ensures { result ≡ [] }
    {
        NotedIds {
            ids: BTreeMap::new(alloc),
        }
    }

    /// What is noted of a name and version.
    fn get(&self, name: &'a [u8], version: Option<&'a [u8]>) -> Option<usize>
        ensures { result ≡ id_in self.now name.now (option_map (λ v. v.now) version.entry) }
    {
        self.ids.get(&name_key(name, version)).copied()
    }

    /// Notes the id of a name and version, in place of one that was noted.
    fn put(
        &mut self,
        name: &'a [u8],
        version: Option<&'a [u8]>,
        id: usize,
    ) -> Result<(), AllocError>
        ensures { OnOk result ((asked : List ℕ) (asked_version : Option (List ℕ)) → id_in self.new asked asked_version
            ≡ (if bytes_eq name.now asked && same_version (option_map (λ v. v.now) version.entry) asked_version then Some id
            else id_in self.old asked asked_version)) }
    {
        self.ids.insert(name_key(name, version), id)?;
        Ok(())
    }

    /// What is noted of the name and version of a symbol.
    pub fn of(&self, symbol: &SymbolView<'a>) -> Option<usize>
        ensures { result ≡ id_of self.now symbol.now }
    {
        self.get(symbol.name().as_slice(), symbol.version())
    }

    /// Notes the id of the name and version of a symbol, in place of one that was noted.
    pub fn note(&mut self, symbol: &SymbolView<'a>, id: usize) -> Result<(), AllocError>
        ensures { OnOk result ((x : Symbol) → id_of self.new x ≡ (if asks_same symbol.now x then Some id else id_of self.old x)) }
    {
        self.put(symbol.name().as_slice(), symbol.version(), id)
    }

    /// The same where none was noted.
    pub fn note_first(&mut self, symbol: &SymbolView<'a>, id: usize) -> Result<(), AllocError>
        ensures { OnOk result ((x : Symbol) → id_of self.new x
            ≡ option_or (id_of self.old x) (if asks_same symbol.now x then Some id else None)) }
    {
        if self.of(symbol).is_none() {
            self.note(symbol, id)?;
        }
        Ok(())
    }
}
