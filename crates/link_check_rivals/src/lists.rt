//! Lists of definitions, and what their entries stand for.

ghost use Rattle.std.specs.Prelude.{◌≡◌, [], slice_index};
ghost use Rattle.std.specs.Option.{option_map_or};
ghost use Rattle.link_check_rivals.specs.Lists.{own_list};

use crate::loaded::LoadedSymbols;
use link_check_names::LinkNames;
use link_check_symbols::SymbolView;
use link_ids::SymbolId;
use std::alloc::{AllocError, Global};

/// Under what a definition is listed.
#[derive(Clone, Copy, Debug, PartialEq, Eq)]
pub enum Naming {
    /// Its plain name.
    Plain,
    /// Its name and version.
    Versioned,
}

/// The definitions of a symbol's name, or of its name and version, where the symbol is one of them.
pub fn own_list<'n, 'a>(
    names: &'n LinkNames<'a>,
    naming: Naming,
    symbol: &SymbolView<'a>,
) -> &'n [SymbolId]
    ensures { result.now ≡ own_list naming names.now.symbols symbol.now }
{
    let name = symbol.name().as_slice();
    match naming {
        Naming::Plain if symbol.is_listed() => names.definitions(name),
        Naming::Versioned if symbol.is_version_listed() => match symbol.version() {
            Some(version) => names.versioned_definitions(name, version),
            None => &[],
        },
        _ => &[],
    }
}

/// What a table has for the symbol of this id; 0 past its end.
pub fn entry_at(table: &[SymbolId], id: SymbolId) -> SymbolId
    ensures { result ≡ slice_index table.now id }
{
    match table.get(id.as_usize()) {
        Some(entry) => *entry,
        None => SymbolId::undefined(),
    }
}

impl<'n, 'a> LoadedSymbols<'n, 'a> {
    ghost use Rattle.std.specs.Prelude.{◌≡◌, IfOk};
    ghost use Rattle.link_rules.specs.Selection.{Selection};
    ghost use Rattle.link_check_rivals.specs.Lists.{entries_of, entry_in};
    ghost use Rattle.link_check_rivals.specs.Told.{Tells};

    /// What an entry of a list stands for: itself among plain names, else what it points to, unless a shared file gives that.
    fn entry(&self, naming: Naming, table: &[SymbolId], id: SymbolId) -> SymbolId
        ensures { (l : Selection) → Tells self.now l → result ≡ entry_in naming l table.now id }
    {
        match naming {
            Naming::Plain => id,
            Naming::Versioned => {
                let pointed = entry_at(table, id);
                if self.is_shared(pointed) { id } else { pointed }
            }
        }
    }

    /// What the entries of a list stand for.
    pub(crate) fn entries(
        &self,
        alloc: Global,
        naming: Naming,
        table: &[SymbolId],
        own: &[SymbolId],
    ) -> Result<Vec<SymbolId>, AllocError>
        ensures { IfOk result (λ entries. (l : Selection) → Tells self.now l → entries.items ≡ entries_of naming l table.now own.now) }
    {
        let mut entries = Vec::with_capacity(alloc, own.len())?;
        for id in own {
            entries.push(self.entry(naming, table, *id))?;
        }
        Ok(entries)
    }
}
