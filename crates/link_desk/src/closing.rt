//! How the calls of passes are compared with a history.

ghost use Rattle.std.specs.Prelude.{◌≡◌, ◌≢◌, ◌⊎◌, ◌↔◌, ◌+◌, ◌<◌, ◌≤◌, ◌^◌, IfSome, IsTrue, MatchOption, Some, length, slice_get, vec_len, ℕ};
ghost use Rattle.link_closure.specs.Graph.{IsMarked};
ghost use Rattle.link_desk.specs.declared.pass.Kept.{Kept};
ghost use Rattle.link_desk.specs.Passes.{AreClaimed, AreRight, Carried, IsCallAt, IsFirstWrong, IsPassRight, IsRightAt, IsWrongIn, calls_in, parts_in};

use crate::entry::Entry;
use crate::opening::Opening;
use crate::pass::{Kept, Pass};
use crate::state::DeskState;
use link_closure::is_marked;
use std::sync::ledger::{Book, Ledger, Total};

/// Why a desk is not closed.
#[derive(Drop)]
pub enum CloseError<L: Opening> {
    /// The passes have fewer calls than the book counts. The total is what the book counted.
    SharesMissing {
        book: usize,
        sum: usize,
        total: Total<L>,
    },
    /// This call is the first that is not as the history has it.
    Differs {
        state: DeskState<L>,
        pass: usize,
        call: Entry,
        place: usize,
    },
}

/// Whether the call stands at its place.
fn stands(history: &[Entry], call: &Kept) -> bool
    ensures { IsTrue result ↔ (slice_get history.now call.now.place ≡ Some call.now.entry) }
{
    match history.get(call.place) {
        Some(entry) => entry.same(&call.entry),
        None => false,
    }
}

/// Whether the call stands past the one before it.
fn is_past(calls: &[Kept], k: usize) -> bool
    requires { k < length calls.now }
    ensures { IsTrue result ↔ ((j : ℕ) (y x : Kept) → j + 1 ≡ k → slice_get calls.now j ≡ Some y → slice_get calls.now k ≡ Some x → y.place < x.place) }
{
    if k == 0 {
        return true;
    }
    calls[k - 1].place < calls[k].place
}

/// Whether the k-th call of pass p is right, where the entries are marked that the passes before it claim.
fn is_right<L: Ledger>(
    history: &[Entry],
    claimed: &[bool],
    passes: &[Pass<L>],
    p: usize,
    k: usize,
) -> bool
    requires pass { p < length passes.now }
    requires call { (c : Carried) → slice_get passes.now p ≡ Some c → k < length c.calls }
    requires each { length claimed.now ≡ length history.now }
    requires claimed { AreClaimed claimed.now passes.now p }
    ensures { IsTrue result ↔ IsRightAt history.now passes.now p k }
{
    let calls = passes[p].calls();
    let call = &calls[k];
    if !stands(history, call) {
        return false;
    }
    if !is_past(calls, k) {
        return false;
    }
    !is_marked(claimed, call.place)
}

/// The first wrong call of pass p, where the entries are marked that the passes before it claim.
fn wrong_in<L: Ledger>(
    history: &[Entry],
    claimed: &[bool],
    passes: &[Pass<L>],
    p: usize,
) -> Option<usize>
    requires pass { p < length passes.now }
    requires each { length claimed.now ≡ length history.now }
    requires claimed { AreClaimed claimed.now passes.now p }
    ensures { MatchOption result (IsPassRight history.now passes.now p) (λ k. (x : Kept) × IsWrongIn history.now passes.now p k x) }
{
    for k in 0..passes[p].calls().len() {
        if !is_right(history, claimed, passes, p, k) {
            return Some(k);
        }
    }
    None
}

/// Marks the entry at the place of a call.
fn claim(claimed: &mut [bool], place: usize)
    ensures each { length claimed.new ≡ length claimed.old }
    ensures claimed { place < length claimed.old → IsMarked claimed.new place }
    ensures kept { (i : ℕ) → IsMarked claimed.old i → IsMarked claimed.new i }
    ensures only { (i : ℕ) → IsMarked claimed.new i → IsMarked claimed.old i ⊎ (i ≡ place) }
{
    if place < claimed.len() {
        claimed[place] = true;
    }
}

/// Marks the entries at the places of the calls.
fn claim_all(claimed: &mut [bool], calls: &[Kept])
    ensures each { length claimed.new ≡ length claimed.old }
    ensures claimed { (j : ℕ) (y : Kept) → slice_get calls.now j ≡ Some y → y.place < length claimed.old → IsMarked claimed.new y.place }
    ensures kept { (i : ℕ) → IsMarked claimed.old i → IsMarked claimed.new i }
    ensures only { (i : ℕ) → IsMarked claimed.new i → IsMarked claimed.old i ⊎ ((j : ℕ) × (y : Kept) × (slice_get calls.now j ≡ Some y) × (y.place ≡ i)) }
{
    for call in calls {
        claim(claimed, call.place);
    }
}

/// The first wrong call: its pass, and its place in the pass's list. There is a mark for each entry of the history.
fn first_wrong<L: Ledger>(
    history: &[Entry],
    claimed: &mut [bool],
    passes: &[Pass<L>],
) -> Option<(usize, usize)>
    requires { length claimed.old ≡ length history.now }
    ensures each { length claimed.new ≡ length claimed.old }
    ensures first { MatchOption result (AreRight history.now passes.now) (λ at. (x : Kept) × IsFirstWrong history.now passes.now at.0 at.1 x) }
{
    claimed.fill(false);
    for p in 0..passes.len() {
        if let Some(k) = wrong_in(history, claimed, passes, p) {
            return Some((p, k));
        }
        claim_all(claimed, passes[p].calls());
    }
    None
}

/// Takes the k-th call of pass p out.
fn taken_at<L: Ledger>(passes: &mut Vec<Pass<L>>, p: usize, k: usize) -> Kept
    requires pass { p < vec_len passes.old }
    requires call { (c : Carried) → slice_get passes.old.items p ≡ Some c → k < length c.calls }
    ensures call { IsCallAt passes.old.items p k result }
    ensures calls { calls_in passes.new.items ≡ calls_in passes.old.items }
    ensures parts { parts_in passes.new.items ≡ parts_in passes.old.items }
{
    passes[p].taken(k)
}

/// Takes the first wrong call out, with the number of its pass. There is a mark for each entry of the history.
pub(crate) fn take_wrong<L: Ledger>(
    history: &[Entry],
    claimed: &mut [bool],
    passes: &mut Vec<Pass<L>>,
) -> Option<(usize, Kept)>
    requires { length claimed.old ≡ length history.now }
    ensures each { length claimed.new ≡ length claimed.old }
    ensures call { MatchOption result (AreRight history.now passes.old.items) (λ found. (k : ℕ) × IsFirstWrong history.now passes.old.items found.0 k found.1) }
    ensures calls { calls_in passes.new.items ≡ calls_in passes.old.items }
    ensures parts { parts_in passes.new.items ≡ parts_in passes.old.items }
{
    let Some((p, k)) = first_wrong(history, claimed, passes.as_slice()) else {
        return None;
    };
    let call = taken_at(passes, p, k);
    Some((p, call))
}

/// How many calls the passes have.
pub(crate) fn gathered<L: Ledger>(book: &mut Book<L>, mut passes: Vec<Pass<L>>) -> usize
    requires { book.old.total < 2 ^ 64 }
    ensures total { book.new.total ≡ book.old.total }
    ensures sum { result ≡ calls_in passes.items }
    ensures bound { result ≤ book.old.total }
    ensures whole { 0 < L.parts → parts_in passes.items ≡ L.parts → result ≡ book.old.total }
{
    let Some(pass) = passes.pop() else {
        return 0;
    };
    let Pass {
        share: mut all,
        calls,
    } = pass;
    book.audit(&mut all);
    let mut sum = calls.len();
    while let Some(pass) = passes.pop() {
        let Pass { share, calls } = pass;
        all.merge(share);
        book.audit(&mut all);
        sum += calls.len();
    }
    book.audit(&mut all);
    sum
}
