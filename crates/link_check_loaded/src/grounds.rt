//! The reasons of claimed objects.

ghost use Rattle.std.specs.Prelude.{◌≡◌, option_and_then};
ghost use Rattle.std.specs.BTreeMap.{get};
ghost use Rattle.std.specs.List.{list_all};
ghost use Rattle.std.specs.Ordering.{nat_cmp};
ghost use Rattle.link_rules.specs.Places.{is_number};
ghost use Rattle.link_check_targets.specs.Tables.{object_at, target_at};
ghost use Rattle.link_check_loaded.specs.Accepted.{is_below, is_grounded, refers};

use link_check_claims::ClaimedObject;
use link_check_symbols::SymbolView;
use link_closure::is_marked;
use std::collections::BTreeMap;

/// The place of the object that holds the symbol of this id.
fn object_at(symbols: &[SymbolView], id: usize) -> Option<usize>
    ensures { result ≡ object_at symbols.now id }
{
    match symbols.get(id) {
        Some(symbol) => symbol.object(),
        None => None,
    }
}

/// The object that the symbol of this id asks for.
pub fn request_at(requests: &[Option<usize>], id: usize) -> Option<usize>
    ensures { result ≡ target_at requests.now id }
{
    match requests.get(id) {
        Some(request) => *request,
        None => None,
    }
}

/// Whether the symbol of this id asks for the object.
fn asks_for(requests: &[Option<usize>], id: usize, object: usize) -> bool
    ensures { result ≡ is_number (target_at requests.now id) object }
{
    match request_at(requests, id) {
        Some(asked) => asked == object,
        None => false,
    }
}

/// Whether there is a rank that is smaller.
fn is_below(smaller: Option<usize>, rank: usize) -> bool
    ensures { result ≡ is_below smaller rank }
{
    match smaller {
        Some(smaller) => smaller < rank,
        None => false,
    }
}

/// The rank that an object is claimed with.
fn rank_of(ranks: &BTreeMap<usize, usize>, object: Option<usize>) -> Option<usize>
    ensures { result ≡ option_and_then (get nat_cmp ranks.now) object }
{
    match object {
        Some(object) => ranks.get(&object).copied(),
        None => None,
    }
}

/// Whether the reference of this id stands in a claimed object of a smaller rank, and asks for the claimed one.
fn refers(
    ranks: &BTreeMap<usize, usize>,
    symbols: &[SymbolView],
    requests: &[Option<usize>],
    claimed: &ClaimedObject,
    by: usize,
) -> bool
    ensures { result ≡ refers (get nat_cmp ranks.now) symbols.now requests.now claimed.now.object claimed.now.rank by }
{
    let smaller = rank_of(ranks, object_at(symbols, by));
    is_below(smaller, claimed.rank) && asks_for(requests, by, claimed.object)
}

/// Whether the reason of a claimed object is one: it is a root, or the reference that is claimed leads to it.
fn is_grounded(
    ranks: &BTreeMap<usize, usize>,
    symbols: &[SymbolView],
    requests: &[Option<usize>],
    roots: &[bool],
    claimed: &ClaimedObject,
) -> bool
    ensures { result ≡ is_grounded (get nat_cmp ranks.now) symbols.now requests.now roots.now claimed.now }
{
    match claimed.by {
        Some(by) => refers(ranks, symbols, requests, claimed, by),
        None => is_marked(roots, claimed.object),
    }
}

/// Whether each claimed object has a reason.
pub fn are_grounded(
    ranks: &BTreeMap<usize, usize>,
    symbols: &[SymbolView],
    requests: &[Option<usize>],
    roots: &[bool],
    loaded: &[ClaimedObject],
) -> bool
    ensures { result ≡ list_all (is_grounded (get nat_cmp ranks.now) symbols.now requests.now roots.now) loaded.now }
{
    for claimed in loaded {
        if !is_grounded(ranks, symbols, requests, roots, claimed) {
            return false;
        }
    }
    true
}
