//! What names are mapped to.

ghost use Rattle.std.specs.Prelude.{◌≡◌, ◌≤◌, ◌^◌, IfOk, length, map};
ghost use Rattle.link_rules.specs.Names.{definitions_of, first_versioned_definition, versioned_definitions_of};
ghost use Rattle.link_check_names.specs.Named.{mapped_name};

use crate::changes::{changes, mapped};
use crate::definitions::definition_lists;
use crate::lists::NameLists;
use crate::wraps::WrappedName;
use link_check_symbols::SymbolView;
use link_ids::SymbolId;
use link_names::NameMap;
use std::alloc::{AllocError, Global};
use std::marker::Model;

/// The names of a link of one batch: which symbols define each, and what it is mapped to. A contract sees the symbols and the wrapped
/// names. A name that is asked for lives as long as the symbols, since the tree of names asks by keys of its own kind.
#[derive(Drop)]
pub struct LinkNames<'a> {
    symbols: &'a [SymbolView<'a>],
    wraps: &'a [WrappedName],
    /// The definitions of each name, and of each name and version.
    lists: NameLists<'a>,
    /// What the wraps changed.
    changed: NameMap<SymbolId>,
}

impl<'a> Model for LinkNames<'a> {
    ghost use Rattle.std.specs.Prelude.{map};
    ghost use Rattle.link_check_names.specs.Named.{KnowsNames, Named};

    ghost Value = { Named };

    ghost view = { λ n. record { symbols = n.symbols.now; wrap = map (λ w. w.name) n.wraps.now } };

    ghost invariant = { λ n. KnowsNames (record { symbols = n.symbols.now; wrap = map (λ w. w.name) n.wraps.now }) n.lists n.changed };
}

impl<'a> LinkNames<'a> {
    /// The names of these symbols, which stand in the order of their ids, with these wrapped names. The only refusal is want of memory.
    pub fn new(
        alloc: Global,
        symbols: &'a [SymbolView<'a>],
        wraps: &'a [WrappedName],
    ) -> Result<Self, AllocError>
        requires { length symbols.now ≤ 2 ^ 32 }
        ensures { IfOk result (λ names. names ≡ record { symbols = symbols.now; wrap = map (λ w. w.name) wraps.now }) }
    {
        let lists = definition_lists(alloc, symbols)?;
        let changed = changes(alloc, &lists, wraps)?;
        Ok(LinkNames {
            symbols,
            wraps,
            lists,
            changed,
        })
    }

    /// The symbols, in the order of their ids.
    pub fn symbols(&self) -> &'a [SymbolView<'a>]
        ensures { result.now ≡ self.now.symbols }
    {
        self.symbols
    }

    /// The definitions of a plain name, in the order of their ids.
    pub fn definitions(&self, name: &'a [u8]) -> &[SymbolId]
        ensures { result.now ≡ definitions_of self.now.symbols name.now }
    {
        self.lists.get(name, None)
    }

    /// The definitions of a name and version, in the order of their ids.
    pub fn versioned_definitions(&self, name: &'a [u8], version: &'a [u8]) -> &[SymbolId]
        ensures { result.now ≡ versioned_definitions_of self.now.symbols name.now version.now }
    {
        self.lists.get(name, Some(version))
    }

    /// What a name is mapped to: its first definition, but for the wraps.
    pub fn first_definition(&self, name: &'a [u8]) -> Option<SymbolId>
        ensures { result ≡ mapped_name self.now name.now }
    {
        mapped(&self.lists, &self.changed, name)
    }

    /// What a name and version are mapped to: their first definition.
    pub fn first_versioned_definition(&self, name: &'a [u8], version: &'a [u8]) -> Option<SymbolId>
        ensures { result ≡ first_versioned_definition self.now.symbols name.now version.now }
    {
        self.versioned_definitions(name, version).first().copied()
    }
}
