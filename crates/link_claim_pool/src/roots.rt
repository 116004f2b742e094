//! What is asked for from the start.
ghost use Rattle.std.specs.Prelude.{◌≡◌, ℕ, ◌<◌, length, slice_get, Some, Contains, vec_len};
ghost use Rattle.link_closure.specs.declared.workload.Mark.{Mark};
ghost use Rattle.link_claim.specs.Later.{IsLater};

use crate::hints::Dealer;
use crate::readable::Readable;
use link_claim::{AtomicPerSymbolFlags, Words, WorkSeat};

/// Asks for the root at this index.
fn request_root<P: Readable>(
    words: &Words<P>,
    seat: &mut WorkSeat,
    plan: &P,
    dealer: &mut Dealer,
    index: usize,
)
    requires table { seat.old.table ≡ words.now }
    requires work { seat.old.view.work ≡ P.work plan.now }
    ensures table { seat.new.table ≡ seat.old.table }
    ensures later { IsLater seat.old.view seat.new.view }
    ensures workers { vec_len dealer.new.all ≡ vec_len dealer.old.all }
    ensures known { (f : ℕ) → slice_get (P.work plan.now).roots index ≡ Some f → Contains seat.new.view.known f }
{
    let Some(file) = plan.root_at(index) else {
        return;
    };
    if seat.request(words, file) {
        dealer.deal_items(plan, file);
    }
}

/// Makes the root mark at this index.
fn mark_root<P: Readable>(words: &Words<P>, seat: &mut WorkSeat, plan: &P, index: usize)
    requires table { seat.old.table ≡ words.now }
    requires work { seat.old.view.work ≡ P.work plan.now }
    ensures table { seat.new.table ≡ seat.old.table }
    ensures later { IsLater seat.old.view seat.new.view }
    ensures listed { (m : Mark) → slice_get (P.work plan.now).root_marks index ≡ Some m → Contains seat.new.view.marks m }
{
    let Some(mark) = plan.root_mark_at(index) else {
        return;
    };
    AtomicPerSymbolFlags::new(words)
        .get_atomic(mark.0)
        .or_assign(seat, mark.1);
}

/// Asks for all roots.
pub(crate) fn request_roots<P: Readable>(
    words: &Words<P>,
    seat: &mut WorkSeat,
    plan: &P,
    dealer: &mut Dealer,
)
    requires table { seat.old.table ≡ words.now }
    requires work { seat.old.view.work ≡ P.work plan.now }
    ensures table { seat.new.table ≡ seat.old.table }
    ensures later { IsLater seat.old.view seat.new.view }
    ensures workers { vec_len dealer.new.all ≡ vec_len dealer.old.all }
    ensures known { (f : ℕ) → Contains (P.work plan.now).roots f → Contains seat.new.view.known f }
{
    for index in 0..plan.root_count() {
        request_root(words, seat, plan, dealer, index);
    }
}

/// Makes all root marks.
pub(crate) fn mark_roots<P: Readable>(words: &Words<P>, seat: &mut WorkSeat, plan: &P)
    requires table { seat.old.table ≡ words.now }
    requires work { seat.old.view.work ≡ P.work plan.now }
    ensures table { seat.new.table ≡ seat.old.table }
    ensures later { IsLater seat.old.view seat.new.view }
    ensures listed { (m : Mark) → Contains (P.work plan.now).root_marks m → Contains seat.new.view.marks m }
{
    for index in 0..plan.root_mark_count() {
        mark_root(words, seat, plan, index);
    }
}
