//! The definitions of names, with and without versions.

ghost use Rattle.std.specs.Prelude.{◌≡◌, ◌≤◌, ◌^◌, ◌++◌, ◌&&◌, [], IfOk, OnOk, None, Some, ℕ, List, Option, length, option_map};
ghost use Rattle.std.specs.Str.{bytes_eq};
ghost use Rattle.link_rules.specs.Names.{definitions_of, is_listed, is_version_listed, versioned_definitions_of};
ghost use Rattle.link_rules.specs.Places.{kept_if, same_version};
ghost use Rattle.link_check_names.specs.Lists.{list_in};

use crate::lists::NameLists;
use link_check_symbols::SymbolView;
use link_ids::SymbolId;
use std::alloc::{AllocError, Global};

/// Lists a symbol under a name, where it stands in that list.
fn push_if<'a>(
    alloc: Global,
    lists: &mut NameLists<'a>,
    is_listed: bool,
    name: &'a [u8],
    version: Option<&'a [u8]>,
    id: SymbolId,
) -> Result<(), AllocError>
    ensures { OnOk result ((asked : List ℕ) (asked_version : Option (List ℕ)) → list_in lists.new asked asked_version
        ≡ list_in lists.old asked asked_version
        ++ kept_if (is_listed && bytes_eq name.now asked && same_version (option_map (λ v. v.now) version.entry) asked_version) id []) }
{
    if is_listed {
        lists.push(alloc, name, version, id)?;
    }
    Ok(())
}

/// Lists a symbol under its plain name, and under its name and version, where it stands in these lists.
fn list_symbol<'a>(
    alloc: Global,
    lists: &mut NameLists<'a>,
    id: SymbolId,
    symbol: &SymbolView<'a>,
) -> Result<(), AllocError>
    ensures plain { OnOk result ((name : List ℕ) → list_in lists.new name None
        ≡ list_in lists.old name None ++ kept_if (is_listed symbol.now && bytes_eq symbol.now.name name) id []) }
    ensures versioned { OnOk result ((name version : List ℕ) → list_in lists.new name (Some version)
        ≡ list_in lists.old name (Some version)
        ++ kept_if (is_version_listed symbol.now && bytes_eq symbol.now.name name && same_version symbol.now.version (Some version)) id []) }
{
    let name = symbol.name().as_slice();
    push_if(alloc, lists, symbol.is_listed(), name, None, id)?;
    push_if(
        alloc,
        lists,
        symbol.is_version_listed(),
        name,
        symbol.version(),
        id,
    )?;
    Ok(())
}

/// The definitions of all names of a link's symbols, in the order of their ids.
pub fn definition_lists<'a>(
    alloc: Global,
    symbols: &[SymbolView<'a>],
) -> Result<NameLists<'a>, AllocError>
    requires { length symbols.now ≤ 2 ^ 32 }
    ensures plain { IfOk result (λ lists. (name : List ℕ) → list_in lists name None ≡ definitions_of symbols.now name) }
    ensures versioned { IfOk result (λ lists. (name version : List ℕ) → list_in lists name (Some version) ≡ versioned_definitions_of symbols.now name version) }
{
    let mut lists = NameLists::new(alloc);
    for (place, symbol) in symbols.iter().enumerate() {
        list_symbol(alloc, &mut lists, SymbolId::from_usize(place), symbol)?;
    }
    Ok(lists)
}
