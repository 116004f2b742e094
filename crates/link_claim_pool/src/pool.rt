//! Many threads read, and one brings together what they found.
ghost use Rattle.std.specs.Prelude.{◌≡◌, ℕ, ◌<◌, ◌≤◌, ◌==◌, if◌then◌else◌, None, Some, List, length, option_map, slice_get, slice_set, All, Contains, IfOk, IsOkAnd, OnOk, vec_len};
ghost use Rattle.link_closure.specs.declared.workload.Mark.{Mark};
ghost use Rattle.link_claim.specs.Later.{IsLater, HasReadAll};
ghost use Rattle.link_claim.specs.Seats.{IsSettled};
ghost use Rattle.link_claim_pool.specs.Found.{AreFound, AreNotDue, AreWritten, HasResult};
ghost use Rattle.link_claim_pool.specs.Jobs.{IsReady, IsBack, IsTakenIn};
ghost use Rattle.link_claim_pool.specs.Results.{AreResultsOf};

use crate::hints::{Dealer, Hints};
use crate::readable::Readable;
use crate::roots::{mark_roots, request_roots};
use crate::sweep::sweep_all;
use crate::worker::{Back, Finding, Job, work};
use link_claim::{Closed, Gate, Words, WorkSeat};
use std::alloc::{AllocError, Global};
use std::thread;
use std::thread::Threads;

/// How many threads the caller's own thread starts at most. Each of them starts others where there are more workers.
const MOST_STARTS: usize = 7;

/// How many workers get hints. One worker alone is the caller's own thread: it sweeps over all items, in their order, with no hint and no list
/// of findings.
fn hinted(workers: usize) -> usize
    ensures { result ≡ (if workers == 1 then 0 else workers) }
{
    if workers == 1 { 0 } else { workers }
}

/// A job for each worker's hints.
fn jobs_of<P: Readable>(
    alloc: Global,
    words: &Words<P>,
    seat: &mut WorkSeat,
    plan: &P,
    mut all: Vec<Hints>,
) -> Result<Vec<Job>, AllocError>
    requires table { seat.old.table ≡ words.now }
    requires work { seat.old.view.work ≡ P.work plan.now }
    ensures same { seat.new ≡ seat.old }
    ensures ready { IfOk result (λ v. All (IsReady (P.work plan.now) words.now) v.items) }
    ensures count { IfOk result (λ v. vec_len v ≡ vec_len all) }
{
    let mut jobs = Vec::new(alloc);
    let share = plan.items() / all.len().max(1);
    while let Some(hints) = all.pop() {
        jobs.push(Job {
            seat: seat.split(words),
            hints,
            share,
        })?;
    }
    Ok(jobs)
}

/// Does each job in a thread of its own. The list is halved at each step, and one half goes to a new thread.
fn run_halved<R: Threads + Sync, P: Readable + Sync, G: Gate + Sync>(
    rt: &R,
    alloc: Global,
    words: &Words<P>,
    plan: &P,
    gate: &G,
    jobs: Vec<Job>,
) -> Result<Vec<Result<Back<P::Found>, AllocError>>, AllocError>
    requires { All (IsReady (P.work plan.now) words.now) jobs.items }
    ensures back { IfOk result (λ v. All (λ r. IfOk r (IsBack (P.work plan.now) (P.found_in plan.now) words.now)) v.items) }
    ensures count { IfOk result (λ v. vec_len v ≡ vec_len jobs) }
{
    thread::map_vec(
        rt,
        jobs,
        &|job: Job| -> Result<Back<P::Found>, AllocError>
            requires { IsReady (P.work plan.now) words.now job }
            ensures { IfOk result (IsBack (P.work plan.entry.now) (P.found_in plan.entry.now) words.entry.now) }
        { work(alloc, words, plan, gate, job) },
    )
}

/// Does each job in a thread of its own. This thread starts so many of them one after another, each with an equal share of the jobs, and does
/// what is left itself. A system puts a thread that is started by one that has only begun on that one's processor, and leaves it there for long.
#[cycle(starts)]
fn run<R: Threads + Sync, P: Readable + Sync, G: Gate + Sync>(
    rt: &R,
    alloc: Global,
    words: &Words<P>,
    plan: &P,
    gate: &G,
    starts: usize,
    mut jobs: Vec<Job>,
) -> Result<Vec<Result<Back<P::Found>, AllocError>>, AllocError>
    requires { All (IsReady (P.work plan.now) words.now) jobs.items }
    ensures back { IfOk result (λ v. All (λ r. IfOk r (IsBack (P.work plan.now) (P.found_in plan.now) words.now)) v.items) }
    ensures count { IfOk result (λ v. vec_len v ≡ vec_len jobs) }
{
    if starts == 0 || jobs.len() < 2 {
        return run_halved(rt, alloc, words, plan, gate, jobs);
    }
    let share = jobs.len().div_ceil(starts.saturating_add(1));
    let left = jobs.len().saturating_sub(share);
    let theirs = jobs.split_off(left)?;
    let next = starts - 1;
    let there = move || -> Result<Vec<Result<Back<P::Found>, AllocError>>, AllocError>
        requires { All (IsReady (P.work plan.now) words.now) theirs.items }
        ensures count { IfOk result (λ v. vec_len v ≡ vec_len theirs) }
        ensures back { IfOk result (λ v. All (λ r. IfOk r (IsBack (P.work plan.entry.now) (P.found_in plan.entry.now) words.entry.now)) v.items) }
    { run_halved(rt, alloc, words, plan, gate, theirs) };
    let here = move || -> Result<Vec<Result<Back<P::Found>, AllocError>>, AllocError>
        requires { All (IsReady (P.work plan.now) words.now) jobs.items }
        ensures count { IfOk result (λ v. vec_len v ≡ vec_len jobs) }
        ensures back { IfOk result (λ v. All (λ r. IfOk r (IsBack (P.work plan.entry.now) (P.found_in plan.entry.now) words.entry.now)) v.items) }
    { run(rt, alloc, words, plan, gate, next, jobs) };
    let (backs, own) = thread::join(rt, there, here);
    let mut all = backs?;
    let mut rest = own?;
    all.append(&mut rest)?;
    Ok(all)
}

/// Writes down what was found in an item.
fn put<T: Drop>(results: &mut [Option<T>], finding: Finding<T>)
    requires { finding.item < length results.old }
    ensures { results.new ≡ slice_set results.old finding.item (Some finding.found) }
{
    let Finding { item, found } = finding;
    results[item] = Some(found);
}

/// Takes a seat back, and writes down what it found.
fn absorb<P: Readable>(
    words: &Words<P>,
    seat: &mut WorkSeat,
    plan: &P,
    back: Back<P::Found>,
    results: &mut [Option<P::Found>],
)
    requires table { seat.old.table ≡ words.now }
    requires work { seat.old.view.work ≡ P.work plan.now }
    requires back { IsBack (P.work plan.now) (P.found_in plan.now) words.now back }
    requires wide { length results.old ≡ length (P.work plan.now).items }
    requires found { AreFound (P.found_in plan.now) seat.old.view results.old }
    ensures table { seat.new.table ≡ seat.old.table }
    ensures later { IsLater seat.old.view seat.new.view }
    ensures found { AreFound (P.found_in plan.now) seat.new.view results.new }
    ensures taken { IsTakenIn seat.new.view results.new back }
    ensures stays { (i : ℕ) → HasResult results.old i → HasResult results.new i }
    ensures written { (before : List ℕ) → AreWritten before seat.old.view results.old → AreWritten before seat.new.view results.new }
{
    let Back {
        seat: other,
        mut findings,
    } = back;
    seat.join(words, other);
    while let Some(finding) = findings.pop() {
        put(results, finding);
    }
}

/// Takes all seats back, each with what it found. How many there are.
fn absorb_all<P: Readable>(
    words: &Words<P>,
    seat: &mut WorkSeat,
    plan: &P,
    mut backs: Vec<Result<Back<P::Found>, AllocError>>,
    results: &mut [Option<P::Found>],
) -> Result<usize, AllocError>
    requires table { seat.old.table ≡ words.now }
    requires work { seat.old.view.work ≡ P.work plan.now }
    requires back { All (λ r. IfOk r (IsBack (P.work plan.now) (P.found_in plan.now) words.now)) backs.items }
    requires wide { length results.old ≡ length (P.work plan.now).items }
    requires found { AreFound (P.found_in plan.now) seat.old.view results.old }
    ensures table { seat.new.table ≡ seat.old.table }
    ensures later { IsLater seat.old.view seat.new.view }
    ensures found { AreFound (P.found_in plan.now) seat.new.view results.new }
    ensures taken { OnOk result (All (λ r. IsOkAnd r (IsTakenIn seat.new.view results.new)) backs.items) }
    ensures written { OnOk result (AreWritten seat.old.view.begins seat.new.view results.new) }
    ensures count { IfOk result (λ n. n ≡ vec_len backs) }
{
    let count = backs.len();
    while let Some(back) = backs.pop() {
        absorb(words, seat, plan, back?, results);
    }
    Ok(count)
}

/// A result for each item, all of them missing.
fn none_found<T: Drop>(alloc: Global, count: usize) -> Result<Vec<Option<T>>, AllocError>
    ensures count { IfOk result (λ v. length v.items ≡ count) }
    ensures found { IfOk result (λ v. All (λ o. o ≡ None) v.items) }
{
    let mut results = Vec::with_capacity(alloc, count)?;
    for _ in 0..count {
        results.push(None)?;
    }
    Ok(results)
}

/// Asks for the roots, and makes the root marks. The hints of each worker.
fn begin<P: Readable>(
    alloc: Global,
    workers: usize,
    plan: &P,
    words: &Words<P>,
    seat: &mut WorkSeat,
) -> Result<Vec<Hints>, AllocError>
    requires table { seat.old.table ≡ words.now }
    requires work { seat.old.view.work ≡ P.work plan.now }
    ensures table { seat.new.table ≡ seat.old.table }
    ensures later { IsLater seat.old.view seat.new.view }
    ensures known { OnOk result ((f : ℕ) → Contains (P.work plan.now).roots f → Contains seat.new.view.known f) }
    ensures listed { OnOk result ((m : Mark) → Contains (P.work plan.now).root_marks m → Contains seat.new.view.marks m) }
    ensures count { IfOk result (λ v. vec_len v ≡ (if workers == 1 then 0 else workers)) }
{
    let mut dealer = Dealer::new(alloc, hinted(workers))?;
    request_roots(words, seat, plan, &mut dealer);
    mark_roots(words, seat, plan);
    Ok(dealer.into_hints())
}

/// Reads by threads, and then reads what they left. How many seats were handed out and taken back.
fn read_known<R: Threads + Sync, P: Readable + Sync, G: Gate + Sync>(
    rt: &R,
    alloc: Global,
    gate: &G,
    plan: &P,
    words: &Words<P>,
    seat: &mut WorkSeat,
    hints: Vec<Hints>,
    results: &mut [Option<P::Found>],
) -> Result<usize, AllocError>
    requires table { seat.old.table ≡ words.now }
    requires work { seat.old.view.work ≡ P.work plan.now }
    requires wide { length results.old ≡ length (P.work plan.now).items }
    requires found { AreFound (P.found_in plan.now) seat.old.view results.old }
    ensures table { seat.new.table ≡ seat.old.table }
    ensures later { IsLater seat.old.view seat.new.view }
    ensures found { OnOk result (AreFound (P.found_in plan.now) seat.new.view results.new) }
    ensures left { OnOk result (AreNotDue results.new seat.new.view (length (P.work plan.now).items)) }
    ensures count { IfOk result (λ n. n ≡ vec_len hints) }
{
    let jobs = jobs_of(alloc, words, seat, plan, hints)?;
    let backs = run(rt, alloc, words, plan, gate, MOST_STARTS, jobs)?;
    let count = absorb_all(words, seat, plan, backs, results)?;
    sweep_all(alloc, words, seat, plan, gate, results)?;
    Ok(count)
}

/// The end of the sharing, once all that is asked for was read.
#[derive(Drop)]
pub struct AllRead<T> {
    /// The words that are left.
    pub closed: Closed,
    /// What was found in each item of a claimed file, and nothing for the other items.
    pub found: Vec<Option<T>>,
    /// How many workers read: as many as seats were handed out and taken back, or where there were none the caller's own thread.
    pub readers: usize,
}

impl<T> AllRead<T> {
    /// What was found in the item, if its file is claimed.
    pub fn found_at(&self, item: usize) -> Option<&T>
        requires { item < length self.now.found.items }
        ensures { slice_get self.now.found.items item ≡ Some (option_map (λ x. x.now) result) }
    {
        self.found[item].as_ref()
    }
}

/// Reads all that is asked for, by so many threads, and ends the sharing; one worker is the caller's own thread. Each item is
/// read between two calls of the gate. It refuses only for want of memory, at the first thread that is refused.
pub fn read_all<R: Threads + Sync, P: Readable + Sync, G: Gate + Sync>(
    rt: &R,
    alloc: Global,
    gate: &G,
    workers: usize,
    plan: &P,
    words: Words<P>,
    mut seat: WorkSeat,
) -> Result<AllRead<P::Found>, AllocError>
    requires table { seat.table ≡ words }
    requires work { seat.view.work ≡ P.work plan.now }
    requires some { 0 < workers }
    requires most { workers ≤ 256 }
    ensures work { IfOk result (λ r. r.closed.view.work ≡ P.work plan.now) }
    ensures read { IfOk result (λ r. HasReadAll r.closed.view) }
    ensures settled { IfOk result (λ r. IsSettled r.closed) }
    ensures found { IfOk result (λ r. AreResultsOf (P.work plan.now) (P.found_in plan.now) r.closed r.found.items) }
    ensures readers { IfOk result (λ r. r.readers ≡ workers) }
{
    let mut found = none_found(alloc, plan.items())?;
    let hints = begin(alloc, workers, plan, &words, &mut seat)?;
    let slots = found.as_mut_slice();
    let joined = read_known(rt, alloc, gate, plan, &words, &mut seat, hints, slots)?;
    let closed = words.close(seat);
    Ok(AllRead {
        closed,
        found,
        readers: joined.max(1),
    })
}
