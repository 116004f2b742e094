//! What a thread carries: the right to call, and the calls that it made.

ghost use Rattle.std.specs.Prelude.{◌≡◌, ◌+◌, ◌<◌, ◌≤◌, [], Some, length, slice_get};

use crate::entry::{AskReply, Entry};
use link_names::Name;
use std::marker::Model;
use std::mem::replace;
use std::sync::ledger::{Ledger, Share};

/// A call that was made, and its place in the history, from 0.
#[derive(Drop)]
pub struct Kept {
    pub place: usize,
    pub entry: Entry,
}

/// What a thread carries to call at a desk: a share of the ledger with one part at least, and the calls that were made with
/// it, in order. The share counts them. A contract sees the parts and the calls.
#[derive(Drop)]
pub struct Pass<L: Ledger> {
    pub(crate) share: Share<L>,
    pub(crate) calls: Vec<Kept>,
}

impl<L: Ledger> Model for Pass<L> {
    ghost use Rattle.std.specs.Prelude.{◌≡◌, ◌<◌, length};
    ghost use Rattle.link_desk.specs.Passes.{Carried};

    ghost Value = { Carried };

    ghost view = { λ p. record { parts = p.share.parts; calls = p.calls.items } };

    ghost invariant = { λ p. (0 < p.share.parts) × (p.share.amount ≡ length p.calls.items) };
}

impl<L: Ledger> Pass<L> {
    /// The calls that were made with it, in order.
    pub fn calls(&self) -> &[Kept]
        ensures { result.now ≡ self.now.calls }
    {
        self.calls.as_slice()
    }

    /// Takes a call out, and leaves another in its place.
    pub(crate) fn taken(&mut self, k: usize) -> Kept
        requires { k < length self.old.calls }
        ensures call { slice_get self.old.calls k ≡ Some result }
        ensures count { length self.new.calls ≡ length self.old.calls }
        ensures parts { self.new.parts ≡ self.old.parts }
    {
        let blank = Kept {
            place: 0,
            entry: Entry::Ask(
                Name::new(Vec::new(*self.calls.allocator())),
                AskReply::Unknown,
            ),
        };
        replace(&mut self.calls[k], blank)
    }

    /// A pass without a call for another thread, with one of the parts. `create` gives all parts to the first pass. Takes no
    /// memory.
    pub fn split(&mut self) -> Pass<L>
        requires { 2 ≤ self.old.parts }
        ensures parts { self.new.parts + 1 ≡ self.old.parts }
        ensures calls { self.new.calls ≡ self.old.calls }
        ensures given { result.parts ≡ 1 }
        ensures none { result.calls ≡ [] }
    {
        let share = self.share.split_off(1, 0);
        Pass {
            share,
            calls: Vec::new(*self.calls.allocator()),
        }
    }
}
