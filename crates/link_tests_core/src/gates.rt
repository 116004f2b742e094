//! Gates that tell what threads do.

ghost use Rattle.std.specs.Prelude.{◌≡◌};

use link_claim::Gate;
use std::sync::atomic::{AtomicU64, Ordering};

/// How many turns a thread waits at most, so that a test ends also where nobody comes.
const TURNS: u64 = 100_000_000;

/// It lets a thread through once so many have come, or after many turns.
#[derive(Drop)]
pub(crate) struct Meeting {
    pub(crate) wanted: u64,
    pub(crate) came: AtomicU64,
    pub(crate) late: AtomicU64,
}

impl Meeting {
    /// It waits for so many.
    pub(crate) fn of(wanted: u64) -> Meeting
        ensures { result.wanted ≡ wanted }
    {
        Meeting {
            wanted,
            came: AtomicU64::new(0),
            late: AtomicU64::new(0),
        }
    }
}

impl Gate for Meeting {
    fn before(&self, _item: usize) {
        self.came.fetch_add(1, Ordering::SeqCst);
        for _ in 0..TURNS {
            if self.came.load(Ordering::SeqCst) >= self.wanted {
                return;
            }
        }
        self.late.fetch_add(1, Ordering::SeqCst);
    }

    fn after(&self, _item: usize) {}
}

/// What becomes of an item.
#[derive(Clone, Copy, Debug, PartialEq, Eq)]
pub(crate) enum Moment {
    Begun,
    Read,
}

/// It lets one item wait until another one was begun, or was read, or many turns went by.
#[derive(Drop)]
pub(crate) struct Following {
    waits: usize,
    other: usize,
    moment: Moment,
    came: AtomicU64,
    pub(crate) late: AtomicU64,
}

impl Following {
    /// An item waits for that moment of another one.
    /// What it waits for is left open: tests show it.
    pub(crate) fn of(waits: usize, other: usize, moment: Moment) -> Following {
        Following {
            waits,
            other,
            moment,
            came: AtomicU64::new(0),
            late: AtomicU64::new(0),
        }
    }

    /// Notes what becomes of an item.
    fn note(&self, item: usize, moment: Moment) {
        if item == self.other && moment == self.moment {
            self.came.fetch_add(1, Ordering::SeqCst);
        }
    }
}

impl Gate for Following {
    fn before(&self, item: usize) {
        self.note(item, Moment::Begun);
        if item != self.waits {
            return;
        }
        for _ in 0..TURNS {
            if self.came.load(Ordering::SeqCst) > 0 {
                return;
            }
        }
        self.late.fetch_add(1, Ordering::SeqCst);
    }

    fn after(&self, item: usize) {
        self.note(item, Moment::Read);
    }
}
