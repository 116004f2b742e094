//! What wraps change of that to which names are mapped.

ghost use Rattle.std.specs.Prelude.{◌≡◌, [], ℕ, IfOk, List, OnOk, fold, map};
ghost use Rattle.link_names.specs.Names.{value_in};
ghost use Rattle.link_rules.specs.Names.{mapping_with, wrapped};
ghost use Rattle.link_check_names.specs.Named.{mapped_by};

use crate::lists::NameLists;
use crate::wraps::WrappedName;
use link_ids::SymbolId;
use link_names::{Name, NameMap};
use std::alloc::{AllocError, Global};

/// What a name is mapped to: what wraps changed, else the first that is listed.
pub fn mapped<'a>(
    lists: &NameLists<'a>,
    changed: &NameMap<SymbolId>,
    name: &'a [u8],
) -> Option<SymbolId>
    ensures { result ≡ mapped_by lists.now changed.now name.now }
{
    match changed.get(name) {
        Some(id) => Some(id),
        None => lists.get(name, None).first().copied(),
    }
}

/// Notes the symbol of a name, if there is one.
fn note(
    changed: &mut NameMap<SymbolId>,
    name: &Name,
    id: Option<SymbolId>,
) -> Result<(), AllocError>
    ensures { OnOk result ((asked : List ℕ) → value_in changed.new asked ≡ mapping_with name.now id (value_in changed.old) asked) }
{
    if let Some(id) = id {
        changed.note(name.clone()?, id)?;
    }
    Ok(())
}

/// Wraps one name more: it stands for its wrapper, and its real name for what it had.
fn wrap<'a>(
    lists: &NameLists<'a>,
    changed: &mut NameMap<SymbolId>,
    name: &'a WrappedName,
) -> Result<(), AllocError>
    ensures { OnOk result ((asked : List ℕ) → mapped_by lists.now changed.new asked ≡ wrapped (mapped_by lists.now changed.old) name.now.name asked) }
{
    let wrapper = mapped(lists, changed, name.wrapper().as_slice());
    let original = match mapped(lists, changed, name.real().as_slice()) {
        Some(id) => Some(id),
        None => mapped(lists, changed, name.name().as_slice()),
    };
    note(changed, name.name(), wrapper)?;
    note(changed, name.real(), original)
}

/// What the wraps change, one after another.
pub fn changes<'a>(
    alloc: Global,
    lists: &NameLists<'a>,
    wraps: &'a [WrappedName],
) -> Result<NameMap<SymbolId>, AllocError>
    ensures { IfOk result (λ changed. (asked : List ℕ) → mapped_by lists.now changed asked ≡ fold wrapped (mapped_by lists.now []) (map (λ w. w.name) wraps.now) asked) }
{
    let mut changed = NameMap::new(alloc);
    for name in wraps {
        wrap(lists, &mut changed, name)?;
    }
    Ok(changed)
}
