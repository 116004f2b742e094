//! Hints of items that may be ready, which threads take from one another. Nothing rests on what they say.

ghost use Rattle.std.specs.Prelude.{◌≡◌, IfOk, vec_len};

use crate::readable::Readable;
use arrayvec::ArrayVec;
use crossbeam_deque::{Steal, Stealer, Worker};
use std::alloc::{AllocError, Global};

/// With room for how many lists a deque begins.
const FIRST_ROOM: usize = 16;

/// How many items a list has at most.
const LIST_ROOM: usize = 15;

/// Items that are handed on together, the first one last.
type List = ArrayVec<usize, LIST_ROOM>;

/// One worker's own hints, and the stealers of the others. A hint is the number of an item; whoever takes it checks it.
#[derive(Drop)]
pub(crate) struct Hints {
    /// What it hands on, where others steal.
    local: Worker<List>,
    others: Vec<Stealer<List>>,
    /// The list that it took last, as far as it didn't tell it.
    taken: List,
    /// What it was given and didn't hand on, the first one first.
    given: List,
}

impl Hints {
    /// A hint of its own, or else one of a list that it steals.
    /// Which one, and whether there is any, is left open: who takes a hint checks it, and the sweep reads what no hint told.
    pub(crate) fn find(&mut self) -> Option<usize> {
        if self.taken.is_empty() {
            self.taken = self.find_list()?;
        }
        let item = self.taken.pop();
        self.share();
        item
    }

    // A list of its own, or else one that it steals.
    fn find_list(&mut self) -> Option<List> {
        if let Some(list) = self.local.pop() {
            return Some(list);
        }
        if !self.given.is_empty() {
            return Some(self.take_given());
        }
        for other in self.others.iter() {
            if let Steal::Success(list) = other.steal() {
                return Some(list);
            }
        }
        None
    }

    // Where others find nothing here, what it was given is handed on, or else half of what it took. The hint that it follows next is its own: a
    // chain, which has one hint at a time, stays with one worker.
    fn share(&mut self) {
        if !self.local.is_empty() {
            return;
        }
        if self.given.is_empty() {
            self.share_taken();
        } else {
            self.share_given();
        }
    }

    // Hands on the later half of what it took.
    fn share_taken(&mut self) {
        let mut list = List::new();
        for _ in 0..self.taken.len().div_ceil(2) {
            if let Some(item) = self.taken.pop_at(0) {
                let _ = list.try_push(item);
            }
        }
        self.hand_on(list);
    }

    // Hands on what it was given.
    fn share_given(&mut self) {
        let list = self.take_given();
        self.hand_on(list);
    }

    // What it was given.
    fn take_given(&mut self) -> List {
        let mut list = self.given.take();
        list.as_mut_slice().reverse();
        list
    }

    // A push that is refused drops the list.
    fn hand_on(&mut self, list: List) {
        if !list.is_empty() {
            let _ = self.local.push(list);
        }
    }

    // Keeps a hint, and hands on those that there were before if there is no room for it.
    fn give(&mut self, item: usize) {
        if self.given.is_full() {
            self.share_given();
        }
        let _ = self.given.try_push(item);
    }

    /// Adds a hint for each item of these files, which were claimed.
    /// Which hints there are then is left open: the sweep reads what no hint told.
    pub(crate) fn add_items<P: Readable>(&mut self, plan: &P, files: &[usize]) {
        for file in files {
            let (first, count) = plan.items_of(*file);
            for k in 0..count.min(plan.items()) {
                self.give(first.wrapping_add(k));
            }
        }
    }
}

/// For each worker a deque, with the stealers of all the others, and no hints.
fn hints_of(alloc: Global, count: usize) -> Result<Vec<Hints>, AllocError>
    ensures { IfOk result (λ v. vec_len v ≡ count) }
{
    let mut all = Vec::new(alloc);
    for _ in 0..count {
        all.push(Hints {
            local: Worker::new_fifo(alloc, FIRST_ROOM)?,
            others: Vec::new(alloc),
            taken: List::new(),
            given: List::new(),
        })?;
    }
    for own in 0..count {
        let others = others_of(alloc, all.as_slice(), own)?;
        all[own].others = others;
    }
    Ok(all)
}

/// The stealers of all workers but one.
fn others_of(alloc: Global, all: &[Hints], own: usize) -> Result<Vec<Stealer<List>>, AllocError> {
    let mut others = Vec::new(alloc);
    for (i, hints) in all.iter().enumerate() {
        if i != own {
            others.push(hints.local.stealer()?)?;
        }
    }
    Ok(others)
}

/// It deals out the items of files, worker by worker.
#[derive(Drop)]
pub(crate) struct Dealer {
    all: Vec<Hints>,
    next: usize,
}

impl Dealer {
    /// With no hints for each of so many workers.
    pub(crate) fn new(alloc: Global, workers: usize) -> Result<Dealer, AllocError>
        ensures { IfOk result (λ d. vec_len d.all ≡ workers) }
    {
        let all = hints_of(alloc, workers)?;
        Ok(Dealer { all, next: 0 })
    }

    /// The hints of each worker.
    /// Which they are is left open: the sweep reads what no worker did.
    pub(crate) fn into_hints(self) -> Vec<Hints>
        ensures { vec_len result ≡ vec_len self.all }
    {
        let Dealer { mut all, .. } = self;
        for hints in all.iter_mut() {
            hints.share_given();
        }
        all
    }

    /// Deals out a hint for each item of the file, which was claimed.
    /// Who gets which hint is left open: the sweep reads what no hint told.
    pub(crate) fn deal_items<P: Readable>(&mut self, plan: &P, file: usize)
        ensures { vec_len self.new.all ≡ vec_len self.old.all }
    {
        let (first, count) = plan.items_of(file);
        for k in 0..count.min(plan.items()) {
            self.deal(first.wrapping_add(k));
        }
    }

    // Gives the hint to the next worker.
    fn deal(&mut self, item: usize)
        ensures { vec_len self.new.all ≡ vec_len self.old.all }
    {
        if self.next >= self.all.len() {
            self.next = 0;
        }
        if self.next < self.all.len() {
            self.all[self.next].give(item);
            self.next += 1;
        }
    }
}
