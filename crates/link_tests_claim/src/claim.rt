ghost use Rattle.std.specs.Prelude.{◌≡◌, ◌<◌, [], ◌∷◌, true, false, All, Contains, IfOk};
ghost use Rattle.link_claim.specs.Views.{first_view};
ghost use Rattle.link_claim.specs.Later.{HasReadAll};
ghost use Rattle.link_claim.specs.Steps.{start, after, AllLegal, IsAllRead};
ghost use Rattle.link_claim.specs.Examples.{eight_files, three_files, three_files_read, two_workers};

use bitflags::Flags;
use link_claim::{AtomicPerSymbolFlags, Closed, OpenGate, Passage, Plan, Words, WorkSeat};
use link_flags::ValueFlags;
use link_ids::{SymbolId, SymbolIdRange};
use std::alloc::{AllocError, Global};
use std::test::Fail;
use std::thread;
use std::thread::Threads;

/// A worked example: the core, step by step, as two workers read three files.
fn two_workers_read_three_files()
    ensures ends { after (start three_files) two_workers ≡ three_files_read }
    ensures legal { AllLegal three_files (start three_files) two_workers }
    ensures read { IsAllRead three_files three_files_read }
{}

/// Eight files, all of them roots; one item of the first file; two symbols, with two root marks each.
struct EightFiles;

const FILES: usize = 8;

const STEPS: usize = 200;

impl Plan for EightFiles {
    ghost use Rattle.link_claim.specs.Examples.{eight_files, eight_files_sound, eight_files_fit};

    ghost work = { λ _. eight_files };

    fn files(&self) -> usize {
        FILES
    }

    fn items(&self) -> usize {
        1
    }

    fn symbols(&self) -> usize {
        2
    }

    fn is_root(&self, _file: usize) -> bool {
        true
    }

    fn file_of(&self, _item: usize) -> usize {
        0
    }

    fn opening(&self, symbol: SymbolId) -> ValueFlags {
        if symbol.as_usize() == 0 {
            ValueFlags::DOWNGRADE_TO_LOCAL
        } else {
            ValueFlags::DYNAMIC_FUNCTION
        }
    }

    ghost sound = { λ _. eight_files_sound };

    ghost fits = { λ _. eight_files_fit };
}

/// One of the root marks.
fn root_mark(k: u64) -> (SymbolId, ValueFlags)
    ensures mark { Contains eight_files.root_marks (record { symbol = result.0; bits = result.1.0 }) }
    ensures symbol { result.0 < 2 }
{
    match k % 4 {
        0 => (SymbolId::from_usize(0), ValueFlags::ABSOLUTE),
        1 => (SymbolId::from_usize(0), ValueFlags::DYNAMIC),
        2 => (SymbolId::from_usize(1), ValueFlags::IFUNC),
        _ => (SymbolId::from_usize(1), ValueFlags::NON_INTERPOSABLE),
    }
}

/// The next of a sequence of numbers that look random.
fn after_random(random: u64) -> u64 {
    random
        .wrapping_mul(6364136223846793005)
        .wrapping_add(1442695040888963407)
}

/// What a thread did.
#[derive(Clone, Copy, Drop)]
struct Tally {
    claims: u64,
    begins: u64,
    requests: u64,
}

/// A seat for one thread, where its numbers begin, and what it did.
#[derive(Drop)]
struct Job {
    seat: WorkSeat,
    random: u64,
    tally: Tally,
}

fn request(words: &Words<EightFiles>, seat: &mut WorkSeat, file: usize, tally: &mut Tally)
    requires table { seat.old.table ≡ words.now }
    requires work { seat.old.view.work ≡ eight_files }
    requires file { file < 8 }
    ensures table { seat.new.table ≡ seat.old.table }
    ensures work { seat.new.view.work ≡ eight_files }
{
    let mut count = 0;
    if seat.request_counted(words, file, &mut count) {
        tally.claims = tally.claims.saturating_add(1);
    }
    tally.requests = tally.requests.saturating_add(count);
}

fn mark(words: &Words<EightFiles>, seat: &mut WorkSeat, k: u64)
    requires table { seat.old.table ≡ words.now }
    requires work { seat.old.view.work ≡ eight_files }
    ensures table { seat.new.table ≡ seat.old.table }
    ensures work { seat.new.view.work ≡ eight_files }
{
    let (symbol, flags) = root_mark(k);
    let word = AtomicPerSymbolFlags::new(words).get_atomic(symbol);
    word.or_assign(seat, flags);
}

/// Begins the item, once its file is claimed.
fn begin(words: &Words<EightFiles>, seat: &mut WorkSeat, tally: &mut Tally)
    requires table { seat.old.table ≡ words.now }
    requires work { seat.old.view.work ≡ eight_files }
    ensures table { seat.new.table ≡ seat.old.table }
    ensures work { seat.new.view.work ≡ eight_files }
{
    if seat.check(words, 0) {
        if seat.begin(words, 0) {
            let passage = Passage::enter(&OpenGate, 0);
            tally.begins = tally.begins.saturating_add(1);
            passage.leave(&OpenGate);
        }
    }
}

/// One of many steps, as the number says.
fn step(words: &Words<EightFiles>, seat: &mut WorkSeat, random: u64, tally: &mut Tally)
    requires table { seat.old.table ≡ words.now }
    requires work { seat.old.view.work ≡ eight_files }
    ensures table { seat.new.table ≡ seat.old.table }
    ensures work { seat.new.view.work ≡ eight_files }
{
    let k = random >> 33;
    match k % 3 {
        0 => request(words, seat, (k / 3 % 8) as usize, tally),
        1 => mark(words, seat, k / 3),
        _ => begin(words, seat, tally),
    }
}

fn run(words: &Words<EightFiles>, job: Job) -> Job
    requires table { job.seat.table ≡ words.now }
    requires work { job.seat.view.work ≡ eight_files }
    ensures table { result.seat.table ≡ job.seat.table }
    ensures work { result.seat.view.work ≡ eight_files }
{
    let Job {
        mut seat,
        mut random,
        mut tally,
    } = job;
    for _ in 0..STEPS {
        random = after_random(random);
        step(words, &mut seat, random, &mut tally);
    }
    Job {
        seat,
        random,
        tally,
    }
}

/// A job for each thread.
fn deal(
    alloc: Global,
    words: &Words<EightFiles>,
    seat: &mut WorkSeat,
    threads: u64,
) -> Result<Vec<Job>, AllocError>
    requires table { seat.old.table ≡ words.now }
    requires work { seat.old.view.work ≡ eight_files }
    ensures same { seat.new ≡ seat.old }
    ensures jobs { IfOk result (λ v. All (λ j. (j.seat.table ≡ words.now) × (j.seat.view.work ≡ eight_files)) v.items) }
{
    let mut jobs = Vec::new(alloc);
    for random in 0..threads {
        let tally = Tally {
            claims: 0,
            begins: 0,
            requests: 0,
        };
        jobs.push(Job {
            seat: seat.split(words),
            random,
            tally,
        })?;
    }
    Ok(jobs)
}

/// A check by a seat of whose work nothing is known, but that it is of the same words as another.
fn check_by(words: &Words<EightFiles>, known: &mut WorkSeat, seat: &mut WorkSeat) -> bool
    requires known { known.old.table ≡ words.now }
    requires work { known.old.view.work ≡ eight_files }
    requires table { seat.old.table ≡ words.now }
    ensures known { known.new ≡ known.old }
    ensures table { seat.new.table ≡ seat.old.table }
{
    known.same_work(words, seat);
    seat.check(words, 0)
}

/// Takes all seats back, and adds up what was done.
fn gather(words: &Words<EightFiles>, seat: &mut WorkSeat, mut jobs: Vec<Job>) -> Tally
    requires table { seat.old.table ≡ words.now }
    requires work { seat.old.view.work ≡ eight_files }
    requires jobs { All (λ j. j.seat.table ≡ words.now) jobs.items }
    ensures table { seat.new.table ≡ seat.old.table }
    ensures work { seat.new.view.work ≡ eight_files }
{
    let mut all = Tally {
        claims: 0,
        begins: 0,
        requests: 0,
    };
    while let Some(job) = jobs.pop() {
        let Job {
            seat: mut other,
            tally,
            ..
        } = job;
        let _claimed = check_by(words, seat, &mut other);
        seat.join(words, other);
        all.claims = all.claims.saturating_add(tally.claims);
        all.begins = all.begins.saturating_add(tally.begins);
        all.requests = all.requests.saturating_add(tally.requests);
    }
    all
}

/// The flags of the second symbol, by the range of both.
fn second_flags(words: &Words<EightFiles>, seat: &mut WorkSeat) -> Option<ValueFlags>
    requires table { seat.old.table ≡ words.now }
    requires work { seat.old.view.work ≡ eight_files }
    ensures { seat.new ≡ seat.old }
{
    let ids = SymbolIdRange::input(SymbolId::from_usize(0), 2);
    let mut range = AtomicPerSymbolFlags::new(words).range(ids);
    let _first = range.next()?;
    let second = range.next()?;
    Some(second.get(seat))
}

/// The flags of the first symbol, as a mark of it found them.
fn first_flags(words: &Words<EightFiles>, seat: &mut WorkSeat) -> ValueFlags
    requires table { seat.old.table ≡ words.now }
    requires work { seat.old.view.work ≡ eight_files }
    ensures table { seat.new.table ≡ seat.old.table }
    ensures work { seat.new.view.work ≡ eight_files }
{
    let (symbol, flags) = root_mark(0);
    let word = AtomicPerSymbolFlags::new(words).get_atomic(symbol);
    word.fetch_or(seat, flags)
}

/// What is left when all threads have ended.
#[derive(Clone, Copy, Drop, PartialEq, Eq, Debug)]
struct Outcome {
    claims: u64,
    begins: u64,
    requests: u64,
    files: [bool; 8],
    flags: [u32; 2],
    // What the seat's own calls answered of the flags, before the words were closed.
    seen: [u32; 2],
}

/// Makes all steps on threads, and takes the seats back.
fn run_all<R: Threads + Sync>(
    rt: &R,
    alloc: Global,
    words: &Words<EightFiles>,
    seat: &mut WorkSeat,
    threads: u64,
) -> Result<Tally, AllocError>
    requires table { seat.old.table ≡ words.now }
    requires work { seat.old.view.work ≡ eight_files }
    ensures table { seat.new.table ≡ seat.old.table }
    ensures work { seat.new.view.work ≡ eight_files }
{
    let jobs = deal(alloc, words, seat, threads)?;
    let done = thread::map_vec(
        rt,
        jobs,
        &|job: Job| -> Job
            requires { (job.seat.table ≡ words.now) × (job.seat.view.work ≡ eight_files) }
            ensures { result.seat.table ≡ job.seat.table }
        { run(words, job) },
    )?;
    Ok(gather(words, seat, done))
}

/// What the seat's own calls answer of the flags.
fn seen_by(words: &Words<EightFiles>, seat: &mut WorkSeat) -> [u32; 2]
    requires table { seat.old.table ≡ words.now }
    requires work { seat.old.view.work ≡ eight_files }
    ensures table { seat.new.table ≡ seat.old.table }
    ensures work { seat.new.view.work ≡ eight_files }
{
    let second = second_flags(words, seat).map_or(0, |flags| flags.bits());
    let first = first_flags(words, seat).bits();
    [first, second]
}

/// Which of the eight files are claimed.
fn claimed_files(closed: &Closed) -> [bool; 8]
    requires { closed.now.view.work ≡ eight_files }
{
    let mut files = [false; 8];
    for file in 0..FILES {
        files[file] = closed.is_claimed(file);
    }
    files
}

/// The flags of both symbols.
fn closed_flags(closed: &Closed) -> [u32; 2]
    requires { closed.now.view.work ≡ eight_files }
{
    [
        closed.flags(SymbolId::from_usize(0)).bits(),
        closed.flags(SymbolId::from_usize(1)).bits(),
    ]
}

fn shared<R: Threads + Sync>(rt: &R, alloc: Global, threads: u64) -> Result<Outcome, AllocError> {
    let (words, mut seat) = Words::create(alloc, &EightFiles)?;
    let all = run_all(rt, alloc, &words, &mut seat, threads)?;
    let seen = seen_by(&words, &mut seat);
    let closed = words.close(seat);
    Ok(Outcome {
        claims: all.claims,
        begins: all.begins,
        requests: all.requests,
        files: claimed_files(&closed),
        flags: closed_flags(&closed),
        seen,
    })
}

/// What is left of requests and marks on plain values.
#[derive(Clone, Copy, Drop)]
struct PlainWork {
    files: [bool; 8],
    flags: [u32; 2],
    requests: u64,
}

impl PlainWork {
    /// One of many steps, as the number says.
    fn step(&mut self, random: u64) {
        let k = random >> 33;
        match k % 3 {
            0 => {
                self.files[(k / 3 % 8) as usize] = true;
                self.requests = self.requests.saturating_add(1);
            }
            1 => {
                let bit = k / 3 % 4;
                self.flags[(bit / 2) as usize] |= 1u32 << (bit as u32);
            }
            _ => {}
        }
    }

    /// The steps of one thread.
    fn run(&mut self, seed: u64) {
        let mut random = seed;
        for _ in 0..STEPS {
            random = after_random(random);
            self.step(random);
        }
    }
}

/// The same steps on plain values, one thread after another: each file is claimed once.
fn plain(threads: u64) -> Outcome {
    let mut left = PlainWork {
        files: [false; 8],
        flags: [16, 32],
        requests: 0,
    };
    for seed in 0..threads {
        left.run(seed);
    }
    Outcome {
        claims: 8,
        begins: 1,
        requests: left.requests,
        files: left.files,
        flags: left.flags,
        seen: left.flags,
    }
}

/// Whether so many threads leave what one leaves, all files among it.
fn is_as_plain<R: Threads + Sync>(rt: &R, alloc: Global, threads: u64) -> Result<bool, AllocError> {
    let found = shared(rt, alloc, threads)?;
    Ok(found == plain(threads) && found.files == [true; 8])
}

const THREADS: &[u64] = &[1, 2, 64];

#[test]
fn threads_leave_what_one_leaves(rt: HostRuntime) -> Result<(), Fail> {
    for &threads in THREADS {
        assert!(rt;
            is_as_plain(&rt, rt.alloc(), threads)?,
            "with {threads} threads"
        );
    }
    Ok(())
}

/// Three files, of which the first is a root and asks for the second; nothing asks for the third.
struct ThreeFiles;

impl Plan for ThreeFiles {
    ghost use Rattle.link_claim.specs.Examples.{three_files, three_files_sound, three_files_fit};

    ghost work = { λ _. three_files };

    fn files(&self) -> usize {
        3
    }

    fn items(&self) -> usize {
        3
    }

    fn symbols(&self) -> usize {
        2
    }

    fn is_root(&self, file: usize) -> bool {
        file == 0
    }

    fn file_of(&self, item: usize) -> usize {
        item
    }

    fn opening(&self, symbol: SymbolId) -> ValueFlags {
        if symbol.as_usize() == 0 {
            ValueFlags::IFUNC
        } else {
            ValueFlags::empty()
        }
    }

    ghost sound = { λ _. three_files_sound };

    ghost fits = { λ _. three_files_fit };
}

/// Reads all that is asked for, in one thread.
fn read_three_files(words: &Words<ThreeFiles>, seat: &mut WorkSeat)
    requires table { seat.old.table ≡ words.now }
    requires view { seat.old.view ≡ first_view three_files }
    ensures table { seat.new.table ≡ seat.old.table }
    ensures work { seat.new.view.work ≡ three_files }
    ensures known { seat.new.view.known ≡ 1 ∷ 0 ∷ [] }
    ensures read { HasReadAll seat.new.view }
{
    let flags = AtomicPerSymbolFlags::new(words);
    seat.request(words, 0);
    flags
        .get_atomic(SymbolId::from_usize(1))
        .or_assign(seat, ValueFlags::ABSOLUTE);
    seat.begin(words, 0);
    seat.request(words, 1);
    flags
        .get_atomic(SymbolId::from_usize(0))
        .or_assign(seat, ValueFlags::DYNAMIC);
    seat.begin(words, 1);
}

/// The flags that a mark of the second symbol found.
fn found_by_mark(words: &Words<ThreeFiles>, seat: &mut WorkSeat) -> u32
    requires table { seat.old.table ≡ words.now }
    requires work { seat.old.view.work ≡ three_files }
    ensures table { seat.new.table ≡ seat.old.table }
    ensures work { seat.new.view.work ≡ three_files }
{
    let word = AtomicPerSymbolFlags::new(words).get_atomic(SymbolId::from_usize(1));
    word.fetch_or(seat, ValueFlags::ABSOLUTE).bits()
}

#[test]
fn a_mark_finds_what_was_there(rt: HostRuntime) -> Result<(), Fail> {
    let (words, mut seat) = Words::create(rt.alloc(), &ThreeFiles)?;
    let found = [
        found_by_mark(&words, &mut seat),
        found_by_mark(&words, &mut seat),
    ];
    words.close(seat);
    assert_eq!(rt; found, [0, 1]);
    Ok(())
}

/// A worked example on the words: which files are claimed and which flags are left is known before it runs.
fn three_files_on_words(alloc: Global) -> Result<([bool; 3], [u32; 2]), AllocError>
    ensures { IfOk result (λ r. (r.0 ≡ true ∷ true ∷ false ∷ []) × (r.1 ≡ 6 ∷ 1 ∷ [])) }
{
    let (words, mut seat) = Words::create(alloc, &ThreeFiles)?;
    read_three_files(&words, &mut seat);
    let closed = words.close(seat);
    let claimed = [
        closed.is_claimed(0),
        closed.is_claimed(1),
        closed.is_claimed(2),
    ];
    let first = closed.flags(SymbolId::from_usize(0));
    let second = closed.flags(SymbolId::from_usize(1));
    Ok((claimed, [first.bits(), second.bits()]))
}

#[test]
fn three_files_are_read(rt: HostRuntime) -> Result<(), Fail> {
    let (claimed, flags) = three_files_on_words(rt.alloc())?;
    assert_eq!(rt; claimed, [true, true, false]);
    assert_eq!(rt; flags, [6, 1]);
    Ok(())
}
