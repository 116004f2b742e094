//! What references stand for.

ghost use Rattle.std.specs.Prelude.{◌≡◌, ◌≤◌, ◌^◌, Bool, IfOk, length};
ghost use Rattle.link_rules.specs.Places.{each_from};
ghost use Rattle.link_rules.specs.Targets.{mapped_in};
ghost use Rattle.link_rules.specs.World.{Stage};
ghost use Rattle.link_check_targets.specs.Stages.{IsFirstStage, stage_targets};
ghost use Rattle.link_check_targets.specs.Tables.{hidden_at, hidden_target, reference_target, table_of, target_by};

use crate::hidden::hidden_targets;
use link_check_names::LinkNames;
use link_check_symbols::SymbolView;
use link_ids::SymbolId;
use std::alloc::{AllocError, Global};

/// What the name of a symbol, or its name and version, is mapped to.
fn mapped<'a>(names: &LinkNames<'a>, symbol: &SymbolView<'a>) -> Option<SymbolId>
    ensures { result ≡ mapped_in (table_of names.now) symbol.now.name symbol.now.version }
{
    let name = symbol.name().as_slice();
    match symbol.version() {
        Some(version) => names.first_versioned_definition(name, version),
        None => names.first_definition(name),
    }
}

/// The target of a hidden reference whose name is mapped to the symbol of this id, as a column has it.
fn hidden_at(hidden: &[Option<SymbolId>], id: SymbolId) -> Option<SymbolId>
    ensures { result ≡ hidden_at hidden.now id }
{
    match hidden.get(id.as_usize()) {
        Some(target) => *target,
        None => Some(id),
    }
}

/// The symbol that a reference stands for: what its name is mapped to, but for a shared one that it passes by.
fn target_of<'a>(
    names: &LinkNames<'a>,
    hidden: &[Option<SymbolId>],
    symbol: &SymbolView<'a>,
) -> Option<SymbolId>
    ensures { (weak_overrides_common : Bool) → hidden.now ≡ each_from (λ s x. hidden_target weak_overrides_common names.now s) 0 names.now.symbols
        → result ≡ target_by weak_overrides_common names.now symbol.now }
{
    let first = mapped(names, symbol)?;
    if symbol.is_open() {
        Some(first)
    } else {
        hidden_at(hidden, first)
    }
}

/// What a symbol stands for, if it is a reference.
fn reference_target<'a>(
    names: &LinkNames<'a>,
    hidden: &[Option<SymbolId>],
    symbol: &SymbolView<'a>,
) -> Option<SymbolId>
    ensures { (weak_overrides_common : Bool) → hidden.now ≡ each_from (λ s x. hidden_target weak_overrides_common names.now s) 0 names.now.symbols
        → result ≡ reference_target weak_overrides_common names.now symbol.now }
{
    if symbol.is_reference() {
        target_of(names, hidden, symbol)
    } else {
        None
    }
}

/// What each reference of a link of one batch stands for, by its id; other symbols stand for nothing. The only refusal is want of
/// memory.
pub fn reference_targets(
    alloc: Global,
    names: &LinkNames,
    weak_overrides_common: bool,
) -> Result<Vec<Option<SymbolId>>, AllocError>
    requires { length names.now.symbols ≤ 2 ^ 32 }
    ensures { IfOk result (λ targets. (w : Stage) → IsFirstStage weak_overrides_common names.now w → targets.items ≡ stage_targets w) }
{
    let hidden = hidden_targets(alloc, names, weak_overrides_common)?;
    let symbols = names.symbols();
    let mut targets = Vec::with_capacity(alloc, symbols.len())?;
    for symbol in symbols {
        targets.push(reference_target(names, &hidden, symbol))?;
    }
    Ok(targets)
}
