//! The first part of a claim: which objects are loaded.

ghost use Rattle.std.specs.Prelude.{◌≡◌, ◌↔◌, ℕ, IfOk, IsTrue};
ghost use Rattle.std.specs.BTreeMap.{get};
ghost use Rattle.std.specs.Ordering.{nat_cmp};
ghost use Rattle.link_closure.specs.Closure.{is_marked};
ghost use Rattle.link_rules.specs.Loading.{is_root};
ghost use Rattle.link_rules.specs.World.{Stage};
ghost use Rattle.link_check_claims.specs.Claims.{AreLoaded};
ghost use Rattle.link_check_targets.specs.Stages.{stage_requests};
ghost use Rattle.link_check_loaded.specs.Accepted.{accepts, are_sound};

use crate::closing::are_closed;
use crate::grounds::are_grounded;
use crate::ranks::{are_rising, ranks_of};
use link_check_claims::ClaimedObject;
use link_check_symbols::SymbolView;
use std::alloc::{AllocError, Global};
use std::collections::BTreeMap;

/// Whether each claimed object has a reason, and they are closed.
fn are_sound(
    ranks: &BTreeMap<usize, usize>,
    symbols: &[SymbolView],
    requests: &[Option<usize>],
    roots: &[bool],
    loaded: &[ClaimedObject],
) -> bool
    ensures { result ≡ are_sound (get nat_cmp ranks.now) symbols.now requests.now roots.now loaded.now }
{
    are_grounded(ranks, symbols, requests, roots, loaded)
        && are_closed(ranks, symbols, requests, roots)
}

/// Whether the claimed objects pass all tests.
fn accepts(
    alloc: Global,
    symbols: &[SymbolView],
    requests: &[Option<usize>],
    roots: &[bool],
    loaded: &[ClaimedObject],
) -> Result<bool, AllocError>
    ensures { IfOk result (λ holds. holds ≡ accepts symbols.now requests.now roots.now loaded.now) }
{
    if !are_rising(loaded) {
        return Ok(false);
    }
    let ranks = ranks_of(alloc, loaded)?;
    Ok(are_sound(&ranks, symbols, requests, roots, loaded))
}

/// Whether the objects that are claimed, in this order, are those that are loaded at a stage: true exactly where they rise, each has its
/// reason, and they are closed. The symbols are those of the stage, the requests what these ask for, and the roots a mark for each
/// object that is loaded whatever refers to it. The only refusal is want of memory.
pub fn are_loaded(
    alloc: Global,
    symbols: &[SymbolView],
    requests: &[Option<usize>],
    roots: &[bool],
    loaded: &[ClaimedObject],
) -> Result<bool, AllocError>
    ensures { IfOk result (λ holds. (w : Stage) → w.symbols ≡ symbols.now → requests.now ≡ stage_requests w
        → ((f : ℕ) → is_root w f ≡ is_marked roots.now f) → IsTrue holds ↔ AreLoaded w loaded.now) }
{
    accepts(alloc, symbols, requests, roots, loaded)
}
