//! One thread's work.
ghost use Rattle.std.specs.Prelude.{◌≡◌, ◌∷◌, ◌<◌, length, All, MatchBool, MatchOption, IfOk, IfSome, OnOk};
ghost use Rattle.std.specs.Bool.{OnTrue};
ghost use Rattle.link_claim.specs.Later.{IsLater};
ghost use Rattle.link_claim_pool.specs.Found.{IsFound, IsBegun};
ghost use Rattle.link_claim_pool.specs.Jobs.{AllFound, AreKept, IsReady, IsBack};

use crate::hints::Hints;
use crate::readable::Readable;
use crate::reading::{ItemRead, read_through};
use crossbeam_utils::Backoff;
use link_claim::{Gate, Passage, Words, WorkSeat};
use std::alloc::{AllocError, Global};

/// How many turns in a row without a hint end a worker. Behind each it pauses, longer and longer, and then lets other threads run: so one that
/// begins before there are hints for all is still there once another has read its first items.
const IDLE_TURNS: u32 = 64;

/// What one thread begins with.
#[derive(Drop)]
pub(crate) struct Job {
    pub(crate) seat: WorkSeat,
    pub(crate) hints: Hints,
    /// How many items it begins room for: its share of all.
    pub(crate) share: usize,
}

/// What was found in an item.
#[derive(Drop)]
pub(crate) struct Finding<T> {
    pub(crate) item: usize,
    pub(crate) found: T,
}

/// What one thread hands back.
#[derive(Drop)]
pub(crate) struct Back<T> {
    pub(crate) seat: WorkSeat,
    pub(crate) findings: Vec<Finding<T>>,
}

/// Begins an item that a hint names, if there is such an item and its file is claimed. Whether this call began it.
fn begin_hinted<P: Readable>(words: &Words<P>, seat: &mut WorkSeat, plan: &P, item: usize) -> bool
    requires table { seat.old.table ≡ words.now }
    requires work { seat.old.view.work ≡ P.work plan.now }
    ensures table { seat.new.table ≡ seat.old.table }
    ensures later { IsLater seat.old.view seat.new.view }
    ensures begun { OnTrue result (IsBegun (P.work plan.now) seat.new.view item) }
    ensures begins { MatchBool result
        (seat.new.view.begins ≡ item ∷ seat.old.view.begins)
        (seat.new.view.begins ≡ seat.old.view.begins) }
{
    if item >= plan.items() {
        return false;
    }
    if !seat.check(words, plan.file_of(item)) {
        return false;
    }
    seat.begin(words, item)
}

/// Reads an item that a hint names, if its file is claimed and nobody began it. It leaves the gate also where the reading is refused.
fn follow<P: Readable, G: Gate>(
    alloc: Global,
    words: &Words<P>,
    seat: &mut WorkSeat,
    plan: &P,
    gate: &G,
    hints: &mut Hints,
    item: usize,
) -> Result<Option<Finding<P::Found>>, AllocError>
    requires table { seat.old.table ≡ words.now }
    requires work { seat.old.view.work ≡ P.work plan.now }
    ensures table { seat.new.table ≡ seat.old.table }
    ensures later { IsLater seat.old.view seat.new.view }
    ensures found { IfOk result (λ r. IfSome r (λ f. IsFound (P.found_in plan.now) seat.new.view f.item f.found)) }
    ensures begins { IfOk result (λ r. MatchOption r
        (seat.new.view.begins ≡ seat.old.view.begins)
        (λ f. seat.new.view.begins ≡ f.item ∷ seat.old.view.begins)) }
{
    if !begin_hinted(words, seat, plan, item) {
        return Ok(None);
    }
    let passage = Passage::enter(gate, item);
    let read = read_through(alloc, plan, words, seat, &passage);
    passage.leave(gate);
    let ItemRead { claimed, found, .. } = read?;
    hints.add_items(plan, &claimed);
    Ok(Some(Finding { item, found }))
}

/// Follows a hint, and writes down what was found.
fn turn<P: Readable, G: Gate>(
    alloc: Global,
    words: &Words<P>,
    seat: &mut WorkSeat,
    plan: &P,
    gate: &G,
    hints: &mut Hints,
    findings: &mut Vec<Finding<P::Found>>,
    item: usize,
) -> Result<(), AllocError>
    requires table { seat.old.table ≡ words.now }
    requires work { seat.old.view.work ≡ P.work plan.now }
    requires found { AllFound (P.found_in plan.now) seat.old.view findings.old.items }
    requires kept { AreKept seat.old.view findings.old.items }
    ensures table { seat.new.table ≡ seat.old.table }
    ensures later { IsLater seat.old.view seat.new.view }
    ensures found { OnOk result (AllFound (P.found_in plan.now) seat.new.view findings.new.items) }
    ensures kept { OnOk result (AreKept seat.new.view findings.new.items) }
{
    if let Some(finding) = follow(alloc, words, seat, plan, gate, hints, item)? {
        findings.push(finding)?;
    }
    Ok(())
}

/// Reads the items that hints name, until none comes.
pub(crate) fn work<P: Readable, G: Gate>(
    alloc: Global,
    words: &Words<P>,
    plan: &P,
    gate: &G,
    job: Job,
) -> Result<Back<P::Found>, AllocError>
    requires { IsReady (P.work plan.now) words.now job }
    ensures { IfOk result (IsBack (P.work plan.now) (P.found_in plan.now) words.now) }
{
    let Job {
        mut seat,
        mut hints,
        share,
    } = job;
    let mut findings = Vec::with_capacity(alloc, share)?;
    let items = plan.items();
    let mut idle = 0u32;
    let mut taken = 0usize;
    let pause = Backoff::new();
    while idle < IDLE_TURNS && taken < items {
        let Some(item) = hints.find() else {
            idle += 1;
            pause.snooze();
            continue;
        };
        idle = 0;
        pause.reset();
        taken += 1;
        turn(
            alloc,
            words,
            &mut seat,
            plan,
            gate,
            &mut hints,
            &mut findings,
            item,
        )?;
    }
    Ok(Back { seat, findings })
}
