//! Whether the claimed objects are closed: roots are claimed, and what claimed objects ask for.

ghost use Rattle.std.specs.Prelude.{◌≡◌};
ghost use Rattle.std.specs.BTreeMap.{get};
ghost use Rattle.std.specs.Ordering.{nat_cmp};
ghost use Rattle.link_check_loaded.specs.Accepted.{all_from, are_closed, keeps_request, keeps_root};

use crate::grounds::request_at;
use link_check_symbols::SymbolView;
use std::collections::BTreeMap;

/// Whether the object at this place is claimed, if it is a root.
fn keeps_root(ranks: &BTreeMap<usize, usize>, object: usize, is_root: bool) -> bool
    ensures { result ≡ keeps_root (get nat_cmp ranks.now) object is_root }
{
    !is_root || ranks.contains_key(&object)
}

/// Whether each root is claimed.
fn keeps_roots(ranks: &BTreeMap<usize, usize>, roots: &[bool]) -> bool
    ensures { result ≡ all_from (keeps_root (get nat_cmp ranks.now)) 0 roots.now }
{
    for (object, is_root) in roots.iter().enumerate() {
        if !keeps_root(ranks, object, *is_root) {
            return false;
        }
    }
    true
}

/// Whether what a symbol asks for is claimed, if its object is.
fn keeps_request(
    ranks: &BTreeMap<usize, usize>,
    requests: &[Option<usize>],
    id: usize,
    symbol: &SymbolView,
) -> bool
    ensures { result ≡ keeps_request (get nat_cmp ranks.now) requests.now id symbol.now }
{
    let Some(object) = symbol.object() else {
        return true;
    };
    if !ranks.contains_key(&object) {
        return true;
    }
    match request_at(requests, id) {
        Some(asked) => ranks.contains_key(&asked),
        None => true,
    }
}

/// Whether what claimed objects ask for is claimed.
fn keeps_requests(
    ranks: &BTreeMap<usize, usize>,
    symbols: &[SymbolView],
    requests: &[Option<usize>],
) -> bool
    ensures { result ≡ all_from (keeps_request (get nat_cmp ranks.now) requests.now) 0 symbols.now }
{
    for (id, symbol) in symbols.iter().enumerate() {
        if !keeps_request(ranks, requests, id, symbol) {
            return false;
        }
    }
    true
}

/// Whether roots are claimed, and what claimed objects ask for.
pub fn are_closed(
    ranks: &BTreeMap<usize, usize>,
    symbols: &[SymbolView],
    requests: &[Option<usize>],
    roots: &[bool],
) -> bool
    ensures { result ≡ are_closed (get nat_cmp ranks.now) symbols.now requests.now roots.now }
{
    keeps_roots(ranks, roots) && keeps_requests(ranks, symbols, requests)
}
