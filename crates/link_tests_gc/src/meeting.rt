//! A gate that tells what threads do.

ghost use Rattle.std.specs.Prelude.{◌≡◌};

use link_claim::Gate;
use std::sync::atomic::{AtomicU64, Ordering};

/// How many turns a thread waits at most, so that a test ends also where nobody comes.
const TURNS: u64 = 100_000_000;

/// It lets a thread through once so many have come, or after many turns.
#[derive(Drop)]
pub(crate) struct Meeting {
    wanted: u64,
    pub(crate) came: AtomicU64,
    pub(crate) late: AtomicU64,
}

impl Meeting {
    /// It waits for so many.
    pub(crate) fn of(wanted: u64) -> Meeting
        ensures { result.wanted ≡ wanted }
    {
        Meeting {
            wanted,
            came: AtomicU64::new(0),
            late: AtomicU64::new(0),
        }
    }
}

impl Gate for Meeting {
    fn before(&self, _item: usize) {
        self.came.fetch_add(1, Ordering::SeqCst);
        for _ in 0..TURNS {
            if self.came.load(Ordering::SeqCst) >= self.wanted {
                return;
            }
        }
        self.late.fetch_add(1, Ordering::SeqCst);
    }

    fn after(&self, _item: usize) {}
}
