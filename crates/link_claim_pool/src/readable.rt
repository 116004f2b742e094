//! A plan whose items can be read.
ghost use Rattle.std.specs.Prelude.{◌≡◌, ℕ, ◌<◌, IfOk, length, option_map, slice_get};
ghost use Rattle.link_closure.specs.declared.workload.Item.{Item};
ghost use Rattle.link_claim_pool.specs.Marks.{mark_of_pair};
ghost use Rattle.link_closure.specs.Workload.{HasItem};

use link_claim::Plan;
use link_flags::ValueFlags;
use link_ids::SymbolId;
use std::alloc::{AllocError, Global};

/// A plan that also tells what is asked for from the start, reads each item, and tells by what was read in it what the
/// item asks for.
pub trait Readable: Plan {
    /// What is read in an item: what the item asks for, and what is found in it.
    type Read: Drop + Send;

    /// What is found in an item, and kept once what it asks for was asked.
    type Found: Drop + Send;

    // What is read in the item of each number.
    ghost read_in: { Self → ℕ → Self.Read → Type 0 };

    // What is found in the item of each number.
    ghost found_in: { Self → ℕ → Self.Found → Type 0 };

    /// How many files are asked for from the start.
    fn root_count(&self) -> usize
        ensures { result ≡ length (Self.work self.now).roots };

    /// The file that is asked for from the start at this index.
    fn root_at(&self, index: usize) -> Option<usize>
        ensures { result ≡ slice_get (Self.work self.now).roots index };

    /// How many marks are made from the start.
    fn root_mark_count(&self) -> usize
        ensures { result ≡ length (Self.work self.now).root_marks };

    /// The mark that is made from the start at this index.
    fn root_mark_at(&self, index: usize) -> Option<(SymbolId, ValueFlags)>
        ensures { option_map mark_of_pair result ≡ slice_get (Self.work self.now).root_marks index };

    /// Reads the item. It refuses only for want of memory.
    fn read(&self, alloc: Global, item: usize) -> Result<Self::Read, AllocError>
        requires { item < length (Self.work self.now).items }
        ensures { IfOk result (read_in self.now item) };

    /// How many files the item requests, by what was read in it.
    fn request_count(&self, item: usize, read: &Self::Read) -> usize
        requires { read_in self.now item read.now }
        ensures { (it : Item) → HasItem (Self.work self.now) item it → result ≡ length it.requests };

    /// The file that the item requests at this index, by what was read in it.
    fn request_at(&self, item: usize, read: &Self::Read, index: usize) -> Option<usize>
        requires { read_in self.now item read.now }
        ensures { (it : Item) → HasItem (Self.work self.now) item it → result ≡ slice_get it.requests index };

    /// How many marks the item has, by what was read in it.
    fn mark_count(&self, item: usize, read: &Self::Read) -> usize
        requires { read_in self.now item read.now }
        ensures { (it : Item) → HasItem (Self.work self.now) item it → result ≡ length it.marks };

    /// The mark that the item has at this index, by what was read in it.
    fn mark_at(
        &self,
        item: usize,
        read: &Self::Read,
        index: usize,
    ) -> Option<(SymbolId, ValueFlags)>
        requires { read_in self.now item read.now }
        ensures { (it : Item) → HasItem (Self.work self.now) item it
            → option_map mark_of_pair result ≡ slice_get it.marks index };

    /// What is found in the item, by what was read in it.
    fn found(&self, item: usize, read: Self::Read) -> Self::Found
        requires { read_in self.now item read }
        ensures { found_in self.now item result };

    /// The first item of the file, and how many it has. Only the order in which items are read rests on it.
    fn items_of(&self, file: usize) -> (usize, usize);
}
