//! Where the heads of each hash number stand.

ghost use Rattle.std.specs.Prelude.{◌≡◌, ◌<◌, ◌≤◌, ◌^◌, length};

use crate::filter::Filter;
use crate::head::Head;
use crate::slots::{slot_among, slots_for};
use crate::walk::{Fork, Walk, bit_at, clear, link_at};
use std::alloc::{AllocError, Global};

/// Trees of the heads of a bucket, which it names by their places. A hash number falls in a slot, which says 1 + the place of the first
/// head whose number falls there, or 0 where there is none. The next one that falls there hangs on its left or its right, as a bit of
/// the number says, or by the next bit on the head that hangs there already, and so on. Heads that a walk passes share one bit more with
/// its number at each step, so it passes 64 at most whose numbers differ from it, whoever chose the names.
#[derive(Drop)]
pub(crate) struct Places {
    slots: Vec<u32>,
    forks: Vec<Fork>,
    /// Tells of most numbers that didn't come that they didn't. It is made where heads come behind others, as those of a second batch: of one
    /// batch alone each number is looked for once, which costs no more than a look at the filter.
    filter: Filter,
    alloc: Global,
    ghost roomy: { length forks.items ≤ length slots.items },
    ghost few: { length forks.items < 2 ^ 32 },
}

impl Places {
    ghost use Rattle.std.specs.Prelude.{ℕ, List, ◌++◌, [], ◌∷◌, ◌+◌, OnOk, OnErr, Some, slice_get, slice_index};
    ghost use Rattle.link_db_buckets.specs.Heads.{hashes_of};
    ghost use Rattle.link_db_buckets.specs.Slots.{may_hold, slot_of};
    ghost use Rattle.link_db_buckets.specs.Walks.{AreHung, HaveWalks, bit_at, link_at, walk_of};

    /// Nothing noted. Takes no memory.
    pub(crate) fn new(alloc: Global) -> Self
        ensures { HaveWalks result [] }
    {
        Places {
            slots: Vec::new(alloc),
            forks: Vec::new(alloc),
            filter: Filter::new(alloc),
            alloc,
        }
    }

    /// 1 + the place of the first head in the number's slot, or 0.
    pub(crate) fn first(&self, number: u64) -> usize
        ensures { result ≡ slice_index self.now.slots.items (slot_of (length self.now.slots.items) number) }
    {
        if self.slots.is_empty() {
            return 0;
        }
        self.slots[slot_among(number, self.slots.len())] as usize
    }

    /// What hangs on the head at a place, where the number's walk turns at a depth: 1 + the place of another one, or 0.
    pub(crate) fn next(&self, place: usize, depth: usize, number: u64) -> usize
        ensures { result ≡ link_at self.now.forks.items place (bit_at number depth) }
    {
        link_at(self.forks.as_slice(), place, bit_at(number, depth))
    }

    /// The heads that the number's walk passes. All heads with this number are among them.
    pub(crate) fn walk(&self, number: u64) -> Walk<'_>
        ensures { result ≡ walk_of self.now.slots.items self.now.forks.items number }
    {
        Walk::new(self.forks.as_slice(), number, self.first(number))
    }

    /// Whether a head may have the number. Most numbers that none has are told without a look at any head.
    pub(crate) fn may_have(&self, number: u64) -> bool
        ensures { result ≡ may_hold self.now.filter number }
    {
        self.filter.may_hold(number)
    }

    /// Hangs the head at a place at the end of its number's walk, where those before it hang.
    fn hang(&mut self, place: usize, number: u64)
        requires { place < length self.old.forks.items }
        ensures slots { length self.new.slots.items ≡ length self.old.slots.items }
        ensures forks { length self.new.forks.items ≡ length self.old.forks.items }
        ensures filter { self.new.filter ≡ self.old.filter }
        ensures hung { (numbers : List ℕ) → slice_get numbers place ≡ Some number → AreHung self.old.slots.items self.old.forks.items numbers place
            → AreHung self.new.slots.items self.new.forks.items numbers (place + 1) }
    {
        let link = place as u32 + 1;
        match self.walk(number).last() {
            Some((last, right)) => {
                if let Some(fork) = self.forks.get_mut(last) {
                    fork.hang(right, link);
                }
            }
            None => {
                let slot = slot_among(number, self.slots.len());
                self.slots[slot] = link;
            }
        }
    }

    /// A filter for so many slots, of which no number came yet; where there are no heads, one that tells nothing.
    /// Its size is left open: it only tells how many numbers share a bit.
    fn filter_for(alloc: Global, heads: &[Head], slots: usize) -> Result<Filter, AllocError> {
        if heads.is_empty() {
            return Ok(Filter::new(alloc));
        }
        Filter::with_room(alloc, slots)
    }

    /// Makes so many slots, and hangs these heads anew.
    fn remake(&mut self, heads: &[Head], slots: usize) -> Result<(), AllocError>
        requires each { length self.old.forks.items ≡ length heads.now }
        requires room { length heads.now ≤ slots }
        ensures walks { OnOk result (HaveWalks self.new (hashes_of heads.now)) }
        ensures slots { OnOk result (length self.new.slots.items ≡ slots) }
        ensures err { OnErr result (self.new ≡ self.old) }
    {
        let filter = Self::filter_for(self.alloc, heads, slots)?;
        self.slots = vec![in self.alloc; 0; slots]?;
        self.filter = filter;
        clear(self.forks.as_mut_slice());
        for (place, head) in heads.iter().enumerate() {
            self.filter.add(head.hash);
            self.hang(place, head.hash);
        }
        Ok(())
    }

    /// Makes slots for so many heads. What is noted stays.
    pub(crate) fn prepare(&mut self, heads: &[Head], wanted: usize) -> Result<(), AllocError>
        requires walks { HaveWalks self.old (hashes_of heads.now) }
        ensures walks { HaveWalks self.new (hashes_of heads.now) }
        ensures room { OnOk result (wanted ≤ length self.new.slots.items) }
    {
        if self.slots.len() < wanted {
            self.remake(heads, slots_for(wanted))?;
        }
        Ok(())
    }

    /// Makes room for so many heads more. What is noted stays.
    pub(crate) fn reserve(&mut self, heads: &[Head], more: usize) -> Result<(), AllocError>
        requires walks { HaveWalks self.old (hashes_of heads.now) }
        ensures walks { HaveWalks self.new (hashes_of heads.now) }
    {
        let wanted = heads.len().saturating_add(more);
        if self.filter.is_empty() && !heads.is_empty() {
            self.remake(heads, slots_for(wanted))?;
        }
        self.prepare(heads, wanted)?;
        self.forks.reserve(more)
    }

    /// Notes the number of one head more, behind the others.
    pub(crate) fn note(&mut self, number: u64) -> Result<(), AllocError>
        requires room { length self.old.forks.items < length self.old.slots.items }
        ensures ok { OnOk result ((numbers : List ℕ) → HaveWalks self.old numbers → HaveWalks self.new (numbers ++ number ∷ [])) }
        ensures err { OnErr result ((numbers : List ℕ) → HaveWalks self.old numbers → HaveWalks self.new numbers) }
    {
        let place = self.forks.len();
        if place >= u32::MAX as usize {
            return Err(AllocError);
        }
        self.forks.push(Fork::bare())?;
        self.filter.add(number);
        self.hang(place, number);
        Ok(())
    }
}
