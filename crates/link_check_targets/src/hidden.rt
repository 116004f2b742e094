//! What a reference that other files may not see stands for: it passes by a shared definition.

ghost use Rattle.std.specs.Prelude.{◌≡◌, ◌≤◌, ◌^◌, IfOk, length};
ghost use Rattle.link_flags.specs.Pick.{pick};
ghost use Rattle.link_rules.specs.Names.{later_definitions};
ghost use Rattle.link_rules.specs.Places.{each_from};
ghost use Rattle.link_check_targets.specs.Tables.{after_unshared, hidden_target, is_shared_in, unshared};

use link_check_names::LinkNames;
use link_check_symbols::SymbolView;
use link_flags::SymbolPrioritySelector;
use link_ids::SymbolId;
use std::alloc::{AllocError, Global};

/// Whether the symbol of this id stands in a shared file.
fn is_shared_in(symbols: &[SymbolView], id: SymbolId) -> bool
    ensures { result ≡ is_shared_in symbols.now id }
{
    match symbols.get(id.as_usize()) {
        Some(symbol) => symbol.is_shared(),
        None => false,
    }
}

/// Considers the symbol of this id, if it is not shared.
fn consider_unshared(symbols: &[SymbolView], selector: &mut SymbolPrioritySelector, id: SymbolId)
    ensures { selector.new ≡ after_unshared symbols.now selector.old id }
{
    if let Some(symbol) = symbols.get(id.as_usize()) {
        if !symbol.is_shared() {
            selector.consider(id, symbol.binding_strength());
        }
    }
}

/// The pick of those of these symbols that are not shared.
fn pick_unshared(
    symbols: &[SymbolView],
    weak_overrides_common: bool,
    ids: &[SymbolId],
) -> Option<SymbolId>
    ensures { result ≡ pick weak_overrides_common (unshared symbols.now ids.now) }
{
    let mut selector = SymbolPrioritySelector::new();
    for id in ids {
        consider_unshared(symbols, &mut selector, *id);
    }
    selector.best(weak_overrides_common)
}

/// The definitions of the symbol's name that come after it, where it is the first of them.
fn later_definitions<'n, 'a>(names: &'n LinkNames<'a>, id: SymbolId) -> &'n [SymbolId]
    ensures { result.now ≡ later_definitions names.now.symbols id }
{
    let Some(symbol) = names.symbols().get(id.as_usize()) else {
        return &[];
    };
    match names.definitions(symbol.name().as_slice()).split_first() {
        Some((head, rest)) if *head == id => rest,
        _ => &[],
    }
}

/// What a reference that other files may not see stands for, where its name is mapped to the symbol of this id.
fn hidden_target(names: &LinkNames, weak_overrides_common: bool, id: SymbolId) -> Option<SymbolId>
    ensures { result ≡ hidden_target weak_overrides_common names.now id }
{
    if is_shared_in(names.symbols(), id) {
        pick_unshared(
            names.symbols(),
            weak_overrides_common,
            later_definitions(names, id),
        )
    } else {
        Some(id)
    }
}

/// The same for each symbol. Only the first symbol of a list has later ones, so each list is gone over once.
pub fn hidden_targets(
    alloc: Global,
    names: &LinkNames,
    weak_overrides_common: bool,
) -> Result<Vec<Option<SymbolId>>, AllocError>
    requires { length names.now.symbols ≤ 2 ^ 32 }
    ensures { IfOk result (λ targets. targets.items ≡ each_from (λ s x. hidden_target weak_overrides_common names.now s) 0 names.now.symbols) }
{
    let symbols = names.symbols();
    let mut targets = Vec::with_capacity(alloc, symbols.len())?;
    for place in 0..symbols.len() {
        let id = SymbolId::from_usize(place);
        targets.push(hidden_target(names, weak_overrides_common, id))?;
    }
    Ok(targets)
}
