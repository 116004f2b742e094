//! A filter of hash numbers.

ghost use Rattle.std.specs.Prelude.{◌≡◌, ◌==◌, ℕ, IsTrue, length};
ghost use Rattle.link_db_buckets.specs.Slots.{may_hold};

use crate::slots::slot_among;
use std::alloc::{AllocError, Global};
use std::marker::Model;

/// Which hash numbers came, as far as some bits tell (Bloom 1970, with one hash function): each number sets one bit, which others may
/// share. Where a number's bit is not set, it didn't come. So most numbers that didn't come are told by one look at a table that is a
/// hundredth as large as the heads. The highest bits of a number tell the bit in its word, since the lower ones picked bucket and word. A
/// contract sees the words of the bits.
#[derive(Drop)]
pub(crate) struct Filter {
    words: Vec<u64>,
}

impl Model for Filter {
    ghost use Rattle.std.specs.Prelude.{List, ℕ};

    ghost Value = { List ℕ };

    ghost view = { λ f. f.words.items };
}

impl Filter {
    /// One that tells nothing: all numbers may have come. Takes no memory.
    pub(crate) fn new(alloc: Global) -> Self
        ensures { (number : ℕ) → IsTrue (may_hold result number) }
    {
        Filter {
            words: Vec::new(alloc),
        }
    }

    /// One with eight bits for each of so many numbers, a power of two, of which none came.
    /// Its size is left open: it only tells how many numbers share a bit.
    pub(crate) fn with_room(alloc: Global, numbers: usize) -> Result<Self, AllocError> {
        let words = vec![in alloc; 0; (numbers / 8).max(1)]?;
        Ok(Filter { words })
    }

    /// Whether it tells nothing.
    pub(crate) fn is_empty(&self) -> bool
        ensures { result ≡ (length self.now == 0) }
    {
        self.words.is_empty()
    }

    /// Notes a number that came.
    pub(crate) fn add(&mut self, number: u64)
        ensures added { IsTrue (may_hold self.new number) }
        ensures kept { (other : ℕ) → IsTrue (may_hold self.old other) → IsTrue (may_hold self.new other) }
    {
        if self.words.is_empty() {
            return;
        }
        let at = slot_among(number, self.words.len());
        self.words[at] |= 1 << (number >> 58);
    }

    /// Whether the number may have come.
    pub(crate) fn may_hold(&self, number: u64) -> bool
        ensures { result ≡ may_hold self.now number }
    {
        if self.words.is_empty() {
            return true;
        }
        let at = slot_among(number, self.words.len());
        (self.words[at] >> (number >> 58)) & 1 == 1
    }
}
