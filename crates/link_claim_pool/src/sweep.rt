//! What the threads left is read by one.
ghost use Rattle.std.specs.Prelude.{◌≡◌, ℕ, ◌<◌, ◌≤◌, length, slice_get, MatchBool, None, Some, IfOk, OnOk};
ghost use Rattle.std.specs.Bool.{OnTrue};
ghost use Rattle.link_claim.specs.Later.{HasRead};
ghost use Rattle.link_claim.specs.Views.{MayBegin};
ghost use Rattle.link_claim_pool.specs.Found.{AreNotDue, missing, Visits, Sweeps};
ghost use Rattle.link_claim_pool.specs.Sweeping.{GoesOn, MaySweep};

use crate::readable::Readable;
use crate::reading::{ItemRead, read_through};
use link_claim::{Gate, Passage, Words, WorkSeat};
use std::alloc::{AllocError, Global};

/// Begins the item, and reads it even if another began it. The files that it claims go to those whose items are yet to be visited.
fn read_anyway<P: Readable, G: Gate>(
    alloc: Global,
    words: &Words<P>,
    seat: &mut WorkSeat,
    plan: &P,
    gate: &G,
    claimed: &mut Vec<usize>,
    item: usize,
) -> Result<P::Found, AllocError>
    requires table { seat.old.table ≡ words.now }
    requires work { seat.old.view.work ≡ P.work plan.now }
    requires item { item < length (P.work plan.now).items }
    requires may { MayBegin seat.old.view item }
    ensures goes_on { GoesOn seat.old seat.new }
    ensures read { OnOk result (HasRead seat.new.view item) }
    ensures found { IfOk result (P.found_in plan.now item) }
{
    seat.begin(words, item);
    let passage = Passage::enter(gate, item);
    let read = read_through(alloc, plan, words, seat, &passage);
    passage.leave(gate);
    let ItemRead {
        claimed: mut files,
        found,
        ..
    } = read?;
    claimed.append(&mut files)?;
    Ok(found)
}

/// Whether the result of the item is missing.
fn is_missing<T>(results: &[Option<T>], item: usize) -> bool
    ensures missing { MatchBool result
        (slice_get results.now item ≡ Some None)
        (¬ (slice_get results.now item ≡ Some None)) }
    ensures inside { OnTrue result (item < length results.now) }
{
    match results.get(item) {
        Some(None) => true,
        _ => false,
    }
}

/// Reads the item, if its result is missing and its file is claimed. Whether it did.
fn visit<P: Readable, G: Gate>(
    alloc: Global,
    words: &Words<P>,
    seat: &mut WorkSeat,
    plan: &P,
    gate: &G,
    claimed: &mut Vec<usize>,
    results: &mut [Option<P::Found>],
    item: usize,
) -> Result<bool, AllocError>
    requires may { MaySweep (P.found_in plan.now) (P.work plan.now) words.now seat.old results.old }
    ensures goes_on { GoesOn seat.old seat.new }
    ensures may { OnOk result (MaySweep (P.found_in plan.now) (P.work plan.now) words.now seat.new results.new) }
    ensures visit { IfOk result (λ b. Visits b results.old seat.old.view results.new seat.new.view item) }
{
    if !is_missing(results, item) {
        return Ok(false);
    }
    if !seat.check(words, plan.file_of(item)) {
        return Ok(false);
    }
    let found = read_anyway(alloc, words, seat, plan, gate, claimed, item)?;
    results[item] = Some(found);
    Ok(true)
}

/// Visits each item once. Whether it read one.
fn pass<P: Readable, G: Gate>(
    alloc: Global,
    words: &Words<P>,
    seat: &mut WorkSeat,
    plan: &P,
    gate: &G,
    claimed: &mut Vec<usize>,
    results: &mut [Option<P::Found>],
) -> Result<bool, AllocError>
    requires may { MaySweep (P.found_in plan.now) (P.work plan.now) words.now seat.old results.old }
    ensures goes_on { GoesOn seat.old seat.new }
    ensures may { OnOk result (MaySweep (P.found_in plan.now) (P.work plan.now) words.now seat.new results.new) }
    ensures sweep { IfOk result (λ b. Sweeps b results.old seat.old.view results.new seat.new.view (length (P.work plan.now).items)) }
{
    let mut more = false;
    for item in 0..plan.items() {
        let read = visit(alloc, words, seat, plan, gate, claimed, results, item)?;
        more |= read;
    }
    Ok(more)
}

/// Visits the items of the file. No clause says that it visits each, since a further pass would come to what it left out.
fn visit_file<P: Readable, G: Gate>(
    alloc: Global,
    words: &Words<P>,
    seat: &mut WorkSeat,
    plan: &P,
    gate: &G,
    claimed: &mut Vec<usize>,
    results: &mut [Option<P::Found>],
    file: usize,
) -> Result<(), AllocError>
    requires may { MaySweep (P.found_in plan.now) (P.work plan.now) words.now seat.old results.old }
    ensures goes_on { GoesOn seat.old seat.new }
    ensures may { OnOk result (MaySweep (P.found_in plan.now) (P.work plan.now) words.now seat.new results.new) }
    ensures fewer { OnOk result (missing results.new ≤ missing results.old) }
{
    let (first, count) = plan.items_of(file);
    let end = first.saturating_add(count).min(plan.items());
    for item in first..end {
        visit(alloc, words, seat, plan, gate, claimed, results, item)?;
    }
    Ok(())
}

/// Visits the items of the claimed files, and of those that are claimed thereby: no more than there are, since no file is
/// claimed twice.
fn visit_claimed<P: Readable, G: Gate>(
    alloc: Global,
    words: &Words<P>,
    seat: &mut WorkSeat,
    plan: &P,
    gate: &G,
    claimed: &mut Vec<usize>,
    results: &mut [Option<P::Found>],
) -> Result<(), AllocError>
    requires may { MaySweep (P.found_in plan.now) (P.work plan.now) words.now seat.old results.old }
    ensures goes_on { GoesOn seat.old seat.new }
    ensures may { OnOk result (MaySweep (P.found_in plan.now) (P.work plan.now) words.now seat.new results.new) }
    ensures fewer { OnOk result (missing results.new ≤ missing results.old) }
{
    for _ in 0..plan.files() {
        let Some(file) = claimed.pop() else {
            return Ok(());
        };
        visit_file(alloc, words, seat, plan, gate, claimed, results, file)?;
    }
    Ok(())
}

/// Visits each item, and then those of the files that it claimed thereby. Whether it read one.
fn sweep<P: Readable, G: Gate>(
    alloc: Global,
    words: &Words<P>,
    seat: &mut WorkSeat,
    plan: &P,
    gate: &G,
    results: &mut [Option<P::Found>],
) -> Result<bool, AllocError>
    requires may { MaySweep (P.found_in plan.now) (P.work plan.now) words.now seat.old results.old }
    ensures goes_on { GoesOn seat.old seat.new }
    ensures may { OnOk result (MaySweep (P.found_in plan.now) (P.work plan.now) words.now seat.new results.new) }
    ensures sweep { IfOk result (λ b. Sweeps b results.old seat.old.view results.new seat.new.view (length (P.work plan.now).items)) }
{
    let mut claimed = Vec::new(alloc);
    if !pass(alloc, words, seat, plan, gate, &mut claimed, results)? {
        return Ok(false);
    }
    visit_claimed(alloc, words, seat, plan, gate, &mut claimed, results)?;
    Ok(true)
}

/// Reads each item of a claimed file whose result is missing, until there is none.
pub(crate) fn sweep_all<P: Readable, G: Gate>(
    alloc: Global,
    words: &Words<P>,
    seat: &mut WorkSeat,
    plan: &P,
    gate: &G,
    results: &mut [Option<P::Found>],
) -> Result<(), AllocError>
    requires may { MaySweep (P.found_in plan.now) (P.work plan.now) words.now seat.old results.old }
    ensures goes_on { GoesOn seat.old seat.new }
    ensures may { OnOk result (MaySweep (P.found_in plan.now) (P.work plan.now) words.now seat.new results.new) }
    ensures left { OnOk result (AreNotDue results.new seat.new.view (length (P.work plan.now).items)) }
{
    let mut more = true;
    while more {
        more = sweep(alloc, words, seat, plan, gate, results)?;
    }
    Ok(())
}
