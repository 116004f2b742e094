/// What no clause says: that results come, for every number of workers, and that threads run beside each other.
ghost use Rattle.std.specs.Prelude.{◌≡◌, ◌<◌, ◌≤◌, ◌^◌, ◌*◌, ◌+◌, IfOk, length};
ghost use Rattle.link_closure.specs.Graph.{AreInRange};
ghost use Rattle.link_claim_pool.specs.Examples.{first_request, second_request};

use bitflags::Flags;
use link_claim::{Closed, Gate, OpenGate, Plan, Words};
use link_claim_pool::{AllRead, Readable, read_all};
use link_closure::{Edge, least_closed};
use link_flags::ValueFlags;
use link_ids::SymbolId;
use std::alloc::{AllocError, Global};
use std::sync::atomic::{AtomicU64, Ordering};
use std::test::Fail;
use std::thread::Threads;

/// Each file has one item, which requests two files and has one mark. In a chain both are the file before it.
#[derive(Drop)]
struct Scattered {
    files: usize,
    roots: usize,
    chain: bool,
    // How many items were read.
    reads: AtomicU64,
    // How often the file of an item was asked.
    looks: AtomicU64,
    // How often the items of a file were asked, and which of these calls tells none, so that the hint of the file's item is lost.
    calls: AtomicU64,
    lost: Option<u64>,
    ghost small: { files ≤ 2 ^ 20 },
    ghost most: { roots ≤ files },
}

impl Scattered {
    fn new(files: usize, roots: usize, chain: bool) -> Scattered
        requires small { files ≤ 2 ^ 20 }
        requires most { roots ≤ files }
        ensures files { result.files ≡ files }
        ensures roots { result.roots ≡ roots }
    {
        Scattered {
            files,
            roots,
            chain,
            reads: AtomicU64::new(0),
            looks: AtomicU64::new(0),
            calls: AtomicU64::new(0),
            lost: None,
        }
    }

    fn first_request(&self, item: usize) -> usize
        requires { item < self.now.files }
        ensures is { result ≡ first_request self.now.chain self.now.files item }
        ensures below { result < self.now.files }
    {
        let number = if self.chain {
            item + (self.files - 1)
        } else {
            item / 4 * 577 + 13
        };
        number % self.files
    }

    fn second_request(&self, item: usize) -> usize
        requires { item < self.now.files }
        ensures is { result ≡ second_request self.now.chain self.now.files item }
        ensures below { result < self.now.files }
    {
        let number = if self.chain {
            item + (self.files - 1)
        } else {
            item / 4 * 331 + 41
        };
        number % self.files
    }
}

impl Plan for Scattered {
    ghost use Rattle.link_claim_pool.specs.Examples.{scattered, scattered_sound, scattered_fit};

    ghost work = { λ p. scattered p.chain p.files p.roots };

    fn files(&self) -> usize {
        self.files
    }

    fn items(&self) -> usize {
        self.files
    }

    fn symbols(&self) -> usize {
        8
    }

    fn is_root(&self, file: usize) -> bool {
        file < self.roots
    }

    fn file_of(&self, item: usize) -> usize {
        self.looks.fetch_add(1, Ordering::SeqCst);
        item
    }

    fn opening(&self, _symbol: SymbolId) -> ValueFlags {
        ValueFlags::empty()
    }

    ghost sound = { λ p. scattered_sound p.chain p.files p.roots p.most };

    ghost fits = { λ p. scattered_fit p.chain p.files p.roots };
}

impl Readable for Scattered {
    type Read = usize;

    type Found = usize;

    ghost read_in = { λ p item x. x ≡ item * 3 + 1 };

    ghost found_in = { λ p item x. x ≡ item * 3 + 1 };

    fn root_count(&self) -> usize {
        self.roots
    }

    fn root_at(&self, index: usize) -> Option<usize> {
        if index < self.roots {
            Some(index)
        } else {
            None
        }
    }

    fn root_mark_count(&self) -> usize {
        1
    }

    fn root_mark_at(&self, index: usize) -> Option<(SymbolId, ValueFlags)> {
        match index {
            0 => Some((SymbolId::from_usize(3), ValueFlags::ABSOLUTE)),
            _ => None,
        }
    }

    fn read(&self, _alloc: Global, item: usize) -> Result<usize, AllocError> {
        self.reads.fetch_add(1, Ordering::SeqCst);
        Ok(item * 3 + 1)
    }

    fn request_count(&self, _item: usize, _read: &usize) -> usize {
        2
    }

    fn request_at(&self, _item: usize, read: &usize, index: usize) -> Option<usize> {
        let item = *read / 3;
        if item >= self.files {
            return None;
        }
        match index {
            0 => Some(self.first_request(item)),
            1 => Some(self.second_request(item)),
            _ => None,
        }
    }

    fn mark_count(&self, _item: usize, _read: &usize) -> usize {
        1
    }

    fn mark_at(&self, _item: usize, read: &usize, index: usize) -> Option<(SymbolId, ValueFlags)> {
        match index {
            0 => Some((SymbolId::from_usize(*read / 3 % 8), ValueFlags::DYNAMIC)),
            _ => None,
        }
    }

    fn found(&self, _item: usize, read: usize) -> usize {
        read
    }

    fn items_of(&self, file: usize) -> (usize, usize) {
        let call = self.calls.fetch_add(1, Ordering::SeqCst);
        (file, if self.lost == Some(call) { 0 } else { 1 })
    }
}

/// The edges of the graph of files.
fn edges_of(alloc: Global, plan: &Scattered) -> Result<Vec<Edge>, AllocError>
    ensures { IfOk result (λ v. AreInRange plan.now.files v.items) }
{
    let mut edges = Vec::new(alloc);
    for item in 0..plan.files {
        edges.push(Edge {
            from: item,
            to: plan.first_request(item),
        })?;
        edges.push(Edge {
            from: item,
            to: plan.second_request(item),
        })?;
    }
    Ok(edges)
}

/// Which files are roots.
fn roots_of(alloc: Global, plan: &Scattered) -> Result<Vec<bool>, AllocError>
    ensures { IfOk result (λ v. length v.items ≡ plan.now.files) }
{
    let mut roots = Vec::new(alloc);
    for file in 0..plan.files {
        roots.push(file < plan.roots)?;
    }
    Ok(roots)
}

/// The plain work list.
fn by_work_list(alloc: Global, plan: &Scattered) -> Result<Vec<bool>, AllocError> {
    let roots = roots_of(alloc, plan)?;
    let edges = edges_of(alloc, plan)?;
    least_closed(alloc, &roots, &edges)
}

/// What a run leaves: the flags of the last symbol, and for each file what was found, if it was claimed.
#[derive(Drop, PartialEq, Eq, Debug)]
struct Outcome {
    flags: u32,
    claimed: Vec<bool>,
    found: Vec<Option<usize>>,
}

/// Which files were claimed.
fn claimed_of(alloc: Global, plan: &Scattered, closed: &Closed) -> Result<Vec<bool>, AllocError>
    requires { closed.now.view.work.files ≡ plan.now.files }
{
    let mut claimed = Vec::new(alloc);
    for file in 0..plan.files {
        claimed.push(closed.is_claimed(file))?;
    }
    Ok(claimed)
}

/// What was found in each item.
fn found_of(alloc: Global, read: &AllRead<usize>) -> Result<Vec<Option<usize>>, AllocError> {
    let mut found = Vec::new(alloc);
    for item in 0..read.found.len() {
        found.push(read.found_at(item).copied())?;
    }
    Ok(found)
}

/// What so many threads leave.
fn by_threads<R: Threads + Sync, G: Gate + Sync>(
    rt: &R,
    alloc: Global,
    gate: &G,
    workers: usize,
    plan: &Scattered,
) -> Result<Outcome, AllocError>
    requires some { 0 < workers }
    requires most { workers ≤ 256 }
{
    let (words, seat) = Words::create(alloc, plan)?;
    let read = read_all(rt, alloc, gate, workers, plan, words, seat)?;
    Ok(Outcome {
        flags: read.closed.flags(SymbolId::from_usize(7)).bits(),
        claimed: claimed_of(alloc, plan, &read.closed)?,
        found: found_of(alloc, &read)?,
    })
}

/// A thousand files, of which five are roots.
fn thousand_files() -> Scattered {
    Scattered::new(1000, 5, false)
}

/// What is found in each file, where it is claimed.
fn found_where(alloc: Global, claimed: &[bool]) -> Result<Vec<Option<usize>>, AllocError> {
    let mut found = Vec::new(alloc);
    let mut file = 0usize;
    for &is_claimed in claimed {
        found.push(is_claimed.then_some(file.saturating_mul(3).saturating_add(1)))?;
        file = file.saturating_add(1);
    }
    Ok(found)
}

/// What one thread finds.
fn by_one_thread(alloc: Global, plan: &Scattered) -> Result<Outcome, AllocError> {
    let claimed = by_work_list(alloc, plan)?;
    let found = found_where(alloc, &claimed)?;
    Ok(Outcome {
        flags: 2,
        claimed,
        found,
    })
}

/// How many of the thousand files one thread claims.
fn count_by_one_thread(alloc: Global) -> Result<usize, AllocError> {
    let claimed = by_work_list(alloc, &thousand_files())?;
    let mut count = 0usize;
    for &is_claimed in claimed.as_slice() {
        if is_claimed {
            count = count.saturating_add(1);
        }
    }
    Ok(count)
}

/// Whether so many threads leave what one finds in the thousand files.
fn is_as_by_one_thread<R: Threads + Sync>(
    rt: &R,
    alloc: Global,
    workers: usize,
) -> Result<bool, AllocError>
    requires some { 0 < workers }
    requires most { workers ≤ 256 }
{
    let plan = thousand_files();
    let wanted = by_one_thread(alloc, &plan)?;
    let outcome = by_threads(rt, alloc, &OpenGate, workers, &plan)?;
    Ok(outcome == wanted)
}

const WORKERS: &[usize] = &[1, 2, 8, 64];

#[test]
fn as_one_thread_finds_it(rt: HostRuntime) -> Result<(), Fail> {
    let count = count_by_one_thread(rt.alloc())?;
    assert!(rt; count > 5, "{count} files");
    assert!(rt; count < 1000, "{count} files");
    for &workers in WORKERS {
        assert!(rt;
            is_as_by_one_thread(&rt, rt.alloc(), workers.max(1).min(256))?,
            "with {workers} workers"
        );
    }
    Ok(())
}

/// Whether there are so many files, and all of them are claimed.
fn are_claimed(claimed: &[bool], files: usize) -> bool {
    claimed.len() == files && claimed.iter().all(|is_claimed| *is_claimed)
}

/// It lets a thread through once four have come, or after many turns.
#[derive(Drop)]
pub(crate) struct Meeting {
    pub(crate) came: AtomicU64,
    pub(crate) left: AtomicU64,
    pub(crate) late: AtomicU64,
}

impl Meeting {
    pub(crate) fn new() -> Meeting {
        Meeting {
            came: AtomicU64::new(0),
            left: AtomicU64::new(0),
            late: AtomicU64::new(0),
        }
    }
}

impl Gate for Meeting {
    fn before(&self, _item: usize) {
        self.came.fetch_add(1, Ordering::SeqCst);
        for _ in 0..100_000_000u64 {
            if self.came.load(Ordering::SeqCst) >= 4 {
                return;
            }
        }
        self.late.fetch_add(1, Ordering::SeqCst);
    }

    fn after(&self, _item: usize) {
        self.left.fetch_add(1, Ordering::SeqCst);
    }
}

/// Whether four threads read four files, how many of them came to the gate and left it, and how many waited in vain.
fn meet<R: Threads + Sync>(rt: &R, alloc: Global) -> Result<(bool, u64, u64, u64), AllocError> {
    let plan = Scattered::new(4, 4, false);
    let gate = Meeting::new();
    let outcome = by_threads(rt, alloc, &gate, 4, &plan)?;
    Ok((
        are_claimed(&outcome.claimed, 4),
        gate.came.load(Ordering::SeqCst),
        gate.left.load(Ordering::SeqCst),
        gate.late.load(Ordering::SeqCst),
    ))
}

#[test]
fn four_threads_meet(rt: HostRuntime) -> Result<(), Fail> {
    assert_eq!(rt; meet(&rt, rt.alloc())?, (true, 4, 4, 0));
    Ok(())
}

/// It counts the items that pass it, and the calls that come at a wrong moment, where items are read one after another.
#[derive(Drop)]
struct Watching<'a> {
    plan: &'a Scattered,
    read: AtomicU64,
    wrong: AtomicU64,
}

impl Watching<'_> {
    /// Counts a call, unless just so many items were read so far.
    fn note(&self, wanted: u64) {
        if self.plan.reads.load(Ordering::SeqCst) != wanted {
            self.wrong.fetch_add(1, Ordering::SeqCst);
        }
    }
}

impl Gate for Watching<'_> {
    fn before(&self, _item: usize) {
        self.note(self.read.load(Ordering::SeqCst));
    }

    fn after(&self, _item: usize) {
        let before = self.read.fetch_add(1, Ordering::SeqCst);
        self.note(before.saturating_add(1));
    }
}

/// How many items of a chain so many threads read, and how many calls of the gate came at a wrong moment.
fn watch<R: Threads + Sync>(rt: &R, alloc: Global, workers: usize) -> Result<(u64, u64), AllocError>
    requires some { 0 < workers }
    requires most { workers ≤ 256 }
{
    let plan = Scattered::new(100, 1, true);
    let gate = Watching {
        plan: &plan,
        read: AtomicU64::new(0),
        wrong: AtomicU64::new(0),
    };
    let _outcome = by_threads(rt, alloc, &gate, workers, &plan)?;
    Ok((
        gate.read.load(Ordering::SeqCst),
        gate.wrong.load(Ordering::SeqCst),
    ))
}

/// A chain's items are read one after another, whoever reads them.
#[test]
fn each_item_is_read_between_the_calls(rt: HostRuntime) -> Result<(), Fail> {
    for workers in 1usize..4 {
        assert_eq!(rt; watch(&rt, rt.alloc(), workers)?, (100, 0));
    }
    Ok(())
}

/// It lets the item 1 through once the item 2 has come, or after many turns.
#[derive(Drop)]
struct Passing {
    came: AtomicU64,
    late: AtomicU64,
}

impl Gate for Passing {
    fn before(&self, item: usize) {
        if item == 2 {
            self.came.fetch_add(1, Ordering::SeqCst);
        }
        if item != 1 {
            return;
        }
        for _ in 0..100_000_000u64 {
            if self.came.load(Ordering::SeqCst) > 0 {
                return;
            }
        }
        self.late.fetch_add(1, Ordering::SeqCst);
    }

    fn after(&self, _item: usize) {}
}

/// Whether two threads read three files, and how many of them waited in vain.
fn pass<R: Threads + Sync>(rt: &R, alloc: Global) -> Result<(bool, u64), AllocError> {
    let plan = Scattered::new(3, 2, false);
    let gate = Passing {
        came: AtomicU64::new(0),
        late: AtomicU64::new(0),
    };
    let outcome = by_threads(rt, alloc, &gate, 2, &plan)?;
    Ok((
        are_claimed(&outcome.claimed, 3),
        gate.late.load(Ordering::SeqCst),
    ))
}

/// The files 0 and 1 are roots. The item 0 requests the file 2, whose item is read while the item 1 still waits.
#[test]
fn there_are_no_rounds(rt: HostRuntime) -> Result<(), Fail> {
    assert_eq!(rt; pass(&rt, rt.alloc())?, (true, 0));
    Ok(())
}

/// It lets the item 1 through once an item behind it has come, and each item behind it once two of these have, or after many turns.
#[derive(Drop)]
struct Sharing {
    came: AtomicU64,
    late: AtomicU64,
}

impl Gate for Sharing {
    fn before(&self, item: usize) {
        if item == 0 {
            return;
        }
        if item > 1 {
            self.came.fetch_add(1, Ordering::SeqCst);
        }
        let wanted = if item > 1 { 2 } else { 1 };
        for _ in 0..100_000_000u64 {
            if self.came.load(Ordering::SeqCst) >= wanted {
                return;
            }
        }
        self.late.fetch_add(1, Ordering::SeqCst);
    }

    fn after(&self, _item: usize) {}
}

/// Whether two threads claim what one does, and how many of them waited in vain.
fn share<R: Threads + Sync>(rt: &R, alloc: Global) -> Result<(bool, u64), AllocError> {
    let plan = Scattered::new(11, 2, false);
    let gate = Sharing {
        came: AtomicU64::new(0),
        late: AtomicU64::new(0),
    };
    let outcome = by_threads(rt, alloc, &gate, 2, &plan)?;
    let wanted = by_work_list(alloc, &plan)?;
    Ok((outcome.claimed == wanted, gate.late.load(Ordering::SeqCst)))
}

/// The files 0 and 1 are roots. The item 0 requests the files 2 and 8, and whoever read it begins one of their items: then the item 1 is let through, and
/// whoever reads that takes the other item over.
#[test]
fn a_worker_takes_what_another_found(rt: HostRuntime) -> Result<(), Fail> {
    assert_eq!(rt; share(&rt, rt.alloc())?, (true, 0));
    Ok(())
}

/// How many files and items there are in the outcome of a plan without files, and its flags.
fn read_none<R: Threads + Sync>(rt: &R, alloc: Global) -> Result<(usize, usize, u32), AllocError> {
    let plan = Scattered::new(0, 0, false);
    let outcome = by_threads(rt, alloc, &OpenGate, 2, &plan)?;
    Ok((outcome.claimed.len(), outcome.found.len(), outcome.flags))
}

#[test]
fn a_plan_without_files_is_read(rt: HostRuntime) -> Result<(), Fail> {
    assert_eq!(rt; read_none(&rt, rt.alloc())?, (0, 0, 0));
    Ok(())
}

/// Whether every file is claimed, and every item found.
fn is_all_read(outcome: &Outcome) -> bool {
    outcome.claimed.iter().all(|claimed| *claimed)
        && outcome.found.iter().all(|found| found.is_some())
}

/// How often the files of items are asked for in a chain where the hint of this call is lost; nothing if not all is read.
fn looks_in_chain<R: Threads + Sync>(
    rt: &R,
    alloc: Global,
    workers: usize,
    lost: u64,
) -> Result<Option<u64>, AllocError>
    requires some { 0 < workers }
    requires most { workers ≤ 256 }
{
    let mut plan = Scattered::new(2000, 1, true);
    plan.lost = Some(lost);
    let outcome = by_threads(rt, alloc, &OpenGate, workers, &plan)?;
    Ok(is_all_read(&outcome).then_some(plan.looks.load(Ordering::SeqCst)))
}

/// How many workers there are, and the call whose hint is lost.
const CHAINS: &[(usize, u64)] = &[(1, 0), (1, 1), (1, 1000), (2, 0), (2, 1), (2, 1000)];

/// Where the hint of one link is lost, all behind it is left to the sweep, which asks for the files of items a few times, and not anew for
/// each link. One worker gets no hints at all.
#[test]
fn a_chain_of_lost_hints_costs_few_looks(rt: HostRuntime) -> Result<(), Fail> {
    for &(workers, lost) in CHAINS {
        let looks = looks_in_chain(&rt, rt.alloc(), workers.max(1).min(256), lost)?;
        assert!(rt;
            looks.is_some_and(|looks| looks <= 8000),
            "with {workers} workers and call {lost} lost"
        );
    }
    Ok(())
}
