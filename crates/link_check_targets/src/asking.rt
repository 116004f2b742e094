//! Which objects references ask for.

ghost use Rattle.std.specs.Prelude.{◌≡◌, IfOk};
ghost use Rattle.link_rules.specs.World.{Stage};
ghost use Rattle.link_check_targets.specs.Stages.{stage_requests, stage_targets};
ghost use Rattle.link_check_targets.specs.Tables.{request_by, request_between_in, target_at};

use link_check_symbols::SymbolView;
use link_ids::SymbolId;
use std::alloc::{AllocError, Global};

/// The object of a target, where that loads it: another one than the symbol's, and not both are shared.
fn request_between(symbols: &[SymbolView], symbol: &SymbolView, target: SymbolId) -> Option<usize>
    ensures { result ≡ request_between_in symbols.now symbol.now target }
{
    let target = symbols.get(target.as_usize())?;
    let object = target.object()?;
    let both_shared = symbol.is_shared() && target.is_shared();
    if both_shared || symbol.object() == Some(object) {
        None
    } else {
        Some(object)
    }
}

/// The object that a symbol with this target asks for: only a reference that is not weak asks for any.
fn request_of(
    symbols: &[SymbolView],
    symbol: &SymbolView,
    target: Option<SymbolId>,
) -> Option<usize>
    ensures { result ≡ request_by symbols.now symbol.now target }
{
    if !symbol.is_reference() || symbol.is_weak() {
        return None;
    }
    match target {
        Some(target) => request_between(symbols, symbol, target),
        None => None,
    }
}

/// The target that a column has for the symbol of this id.
fn target_at(targets: &[Option<SymbolId>], id: usize) -> Option<SymbolId>
    ensures { result ≡ target_at targets.now id }
{
    match targets.get(id) {
        Some(target) => *target,
        None => None,
    }
}

/// The place of the object that each symbol of a link asks for, by the id of the symbol. The targets are those of its references. The
/// only refusal is want of memory.
pub fn requests(
    alloc: Global,
    symbols: &[SymbolView],
    targets: &[Option<SymbolId>],
) -> Result<Vec<Option<usize>>, AllocError>
    ensures { IfOk result (λ requests. (w : Stage) → w.symbols ≡ symbols.now → targets.now ≡ stage_targets w → requests.items ≡ stage_requests w) }
{
    let mut requests = Vec::with_capacity(alloc, symbols.len())?;
    for (id, symbol) in symbols.iter().enumerate() {
        requests.push(request_of(symbols, symbol, target_at(targets, id)))?;
    }
    Ok(requests)
}
