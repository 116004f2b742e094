//! One item at a time.
ghost use Rattle.std.specs.Prelude.{◌≡◌, ◌+◌, ◌∷◌, [], ℕ, ◌<◌, ◌^◌, length, slice_get, Some, Contains, IfOk, OnOk};
ghost use Rattle.link_closure.specs.declared.workload.Item.{Item};
ghost use Rattle.link_closure.specs.declared.workload.Mark.{Mark};
ghost use Rattle.link_closure.specs.Workload.{HasItem};
ghost use Rattle.link_claim.specs.declared.view.View.{View};
ghost use Rattle.link_claim.specs.Later.{IsLater, HasRead};
ghost use Rattle.link_claim_pool.specs.Found.{AreAsked, AreClaimed};

use crate::readable::Readable;
use link_claim::{AtomicPerSymbolFlags, Gate, Passage, Words, WorkSeat};
use std::alloc::{AllocError, Global};

/// What the reading of an item comes to.
#[derive(Drop)]
pub struct ItemRead<T> {
    /// The files that its requests claimed, in the order of the requests.
    pub claimed: Vec<usize>,
    /// What was found in it.
    pub found: T,
    /// How many requests it made.
    pub requests: u64,
}

/// Asks for the file that the item requests at this index, and counts it.
fn read_request<P: Readable>(
    words: &Words<P>,
    seat: &mut WorkSeat,
    plan: &P,
    item: usize,
    read: &P::Read,
    index: usize,
    claimed: &mut Vec<usize>,
    count: &mut u64,
) -> Result<(), AllocError>
    requires table { seat.old.table ≡ words.now }
    requires work { seat.old.view.work ≡ P.work plan.now }
    requires item { item < length (P.work plan.now).items }
    requires begun { Contains seat.old.view.known_items item }
    requires found { P.read_in plan.now item read.now }
    requires index { (it : Item) → HasItem (P.work plan.now) item it → index < length it.requests }
    requires room { count.old + 1 < 2 ^ 64 }
    ensures table { seat.new.table ≡ seat.old.table }
    ensures later { IsLater seat.old.view seat.new.view }
    ensures begins { seat.new.view.begins ≡ seat.old.view.begins }
    ensures read { (it : Item) → HasItem (P.work plan.now) item it → (f : ℕ) → slice_get it.requests index ≡ Some f → Contains seat.new.view.known f }
    ensures claimed { OnOk result ((v : View) → AreClaimed claimed.old.items v seat.old.view → AreClaimed claimed.new.items v seat.new.view) }
    ensures asked { OnOk result ((it : Item) → HasItem (P.work plan.now) item it → (f : ℕ) → slice_get it.requests index ≡ Some f → AreAsked (f ∷ []) seat.old.view seat.new.view) }
    ensures count { OnOk result (count.new ≡ count.old + 1) }
{
    let Some(file) = plan.request_at(item, read, index) else {
        return Ok(());
    };
    if seat.request_counted(words, file, count) {
        claimed.push(file)?;
    }
    Ok(())
}

/// Makes the mark that the item has at this index.
fn read_mark<P: Readable>(
    words: &Words<P>,
    seat: &mut WorkSeat,
    plan: &P,
    item: usize,
    read: &P::Read,
    index: usize,
)
    requires table { seat.old.table ≡ words.now }
    requires work { seat.old.view.work ≡ P.work plan.now }
    requires item { item < length (P.work plan.now).items }
    requires begun { Contains seat.old.view.known_items item }
    requires found { P.read_in plan.now item read.now }
    ensures table { seat.new.table ≡ seat.old.table }
    ensures later { IsLater seat.old.view seat.new.view }
    ensures begins { seat.new.view.begins ≡ seat.old.view.begins }
    ensures claims { seat.new.view.claims ≡ seat.old.view.claims }
    ensures known { seat.new.view.known ≡ seat.old.view.known }
    ensures read { (it : Item) → HasItem (P.work plan.now) item it → (m : Mark) → slice_get it.marks index ≡ Some m → Contains seat.new.view.marks m }
{
    let Some(mark) = plan.mark_at(item, read, index) else {
        return;
    };
    AtomicPerSymbolFlags::new(words)
        .get_atomic(mark.0)
        .or_assign(seat, mark.1);
}

/// Asks for all that the item requests. How many requests it made.
fn read_requests<P: Readable>(
    words: &Words<P>,
    seat: &mut WorkSeat,
    plan: &P,
    item: usize,
    read: &P::Read,
    claimed: &mut Vec<usize>,
) -> Result<u64, AllocError>
    requires table { seat.old.table ≡ words.now }
    requires work { seat.old.view.work ≡ P.work plan.now }
    requires item { item < length (P.work plan.now).items }
    requires begun { Contains seat.old.view.known_items item }
    requires found { P.read_in plan.now item read.now }
    ensures table { seat.new.table ≡ seat.old.table }
    ensures later { IsLater seat.old.view seat.new.view }
    ensures begins { seat.new.view.begins ≡ seat.old.view.begins }
    ensures read { OnOk result ((it : Item) → HasItem (P.work plan.now) item it → (f : ℕ) → Contains it.requests f → Contains seat.new.view.known f) }
    ensures claimed { OnOk result ((v : View) → AreClaimed claimed.old.items v seat.old.view → AreClaimed claimed.new.items v seat.new.view) }
    ensures asked { OnOk result ((it : Item) → HasItem (P.work plan.now) item it → AreAsked it.requests seat.old.view seat.new.view) }
    ensures requests { IfOk result (λ n. (it : Item) → HasItem (P.work plan.now) item it → n ≡ length it.requests) }
{
    let mut count = 0u64;
    for index in 0..plan.request_count(item, read) {
        read_request(words, seat, plan, item, read, index, claimed, &mut count)?;
    }
    Ok(count)
}

/// Makes all marks of the item.
fn read_marks<P: Readable>(
    words: &Words<P>,
    seat: &mut WorkSeat,
    plan: &P,
    item: usize,
    read: &P::Read,
)
    requires table { seat.old.table ≡ words.now }
    requires work { seat.old.view.work ≡ P.work plan.now }
    requires item { item < length (P.work plan.now).items }
    requires begun { Contains seat.old.view.known_items item }
    requires found { P.read_in plan.now item read.now }
    ensures table { seat.new.table ≡ seat.old.table }
    ensures later { IsLater seat.old.view seat.new.view }
    ensures begins { seat.new.view.begins ≡ seat.old.view.begins }
    ensures claims { seat.new.view.claims ≡ seat.old.view.claims }
    ensures known { seat.new.view.known ≡ seat.old.view.known }
    ensures read { (it : Item) → HasItem (P.work plan.now) item it → (m : Mark) → Contains it.marks m → Contains seat.new.view.marks m }
{
    for index in 0..plan.mark_count(item, read) {
        read_mark(words, seat, plan, item, read, index);
    }
}

/// Reads an item that is known to be begun: then its requests are made, each once and counted, then its marks, and what is found in it is kept.
/// It refuses only for want of memory.
pub fn read_item<P: Readable>(
    alloc: Global,
    plan: &P,
    words: &Words<P>,
    seat: &mut WorkSeat,
    item: usize,
) -> Result<ItemRead<P::Found>, AllocError>
    requires table { seat.old.table ≡ words.now }
    requires work { seat.old.view.work ≡ P.work plan.now }
    requires item { item < length (P.work plan.now).items }
    requires begun { Contains seat.old.view.known_items item }
    ensures table { seat.new.table ≡ seat.old.table }
    ensures later { IsLater seat.old.view seat.new.view }
    ensures begins { seat.new.view.begins ≡ seat.old.view.begins }
    ensures read { OnOk result (HasRead seat.new.view item) }
    ensures found { IfOk result (λ r. P.found_in plan.now item r.found) }
    ensures claimed { IfOk result (λ r. AreClaimed r.claimed.items seat.old.view seat.new.view) }
    ensures asked { OnOk result ((it : Item) → HasItem (P.work plan.now) item it → AreAsked it.requests seat.old.view seat.new.view) }
    ensures requests { IfOk result (λ r. (it : Item) → HasItem (P.work plan.now) item it → r.requests ≡ length it.requests) }
{
    let read = plan.read(alloc, item)?;
    let mut claimed = Vec::new(alloc);
    let requests = read_requests(words, seat, plan, item, &read, &mut claimed)?;
    read_marks(words, seat, plan, item, &read);
    Ok(ItemRead {
        claimed,
        found: plan.found(item, read),
        requests,
    })
}

/// `read_item` for a thread whose item is between the two calls of a gate: the item is that of the passage.
pub(crate) fn read_through<P: Readable, G: Gate>(
    alloc: Global,
    plan: &P,
    words: &Words<P>,
    seat: &mut WorkSeat,
    passage: &Passage<G>,
) -> Result<ItemRead<P::Found>, AllocError>
    requires table { seat.old.table ≡ words.now }
    requires work { seat.old.view.work ≡ P.work plan.now }
    requires item { passage.now < length (P.work plan.now).items }
    requires begun { Contains seat.old.view.known_items passage.now }
    ensures table { seat.new.table ≡ seat.old.table }
    ensures later { IsLater seat.old.view seat.new.view }
    ensures begins { seat.new.view.begins ≡ seat.old.view.begins }
    ensures read { OnOk result (HasRead seat.new.view passage.now) }
    ensures found { IfOk result (λ r. P.found_in plan.now passage.now r.found) }
{
    read_item(alloc, plan, words, seat, passage.item())
}
