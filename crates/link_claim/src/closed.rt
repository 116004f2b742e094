//! The words once no thread steps on them.
ghost use Rattle.std.specs.Prelude.{◌≡◌, ◌<◌, length};
ghost use Rattle.std.specs.Mem.Slots.{slots_items, slots_len, IsFull};
ghost use Rattle.link_closure.specs.Closure.{is_marked};
ghost use Rattle.link_claim.specs.Later.{HasReadAll};
ghost use Rattle.link_claim.specs.Seats.{Ending, IsEnding, IsPlaced, IsSettled, claimed_in, flags_in};

use crate::flags::flags_of_word;
use crate::plan::Plan;
use crate::view::View;
use crate::words::{Words, WorkSeat};
use atomic_table::Seat;
use link_flags::ValueFlags;
use link_ids::SymbolId;
use std::alloc::Global;
use std::marker::Model;
use std::snapshot::Snapshot;

/// The final words, with the view of the seat that they were closed with, which is what a contract sees of it.
pub struct Closed {
    closed: atomic_table::Closed<(), Global>,
    seat: Snapshot<Seat<(), View>>,
    files: usize,
    items: usize,
}

impl Model for Closed {
    ghost Value = { Ending };

    ghost view = { λ s. record { words = slots_items s.closed.words; view = s.seat.value.me.0 } };

    ghost invariant = { λ s. IsFull s.closed.words × (slots_len s.closed.slots ≡ 0)
        × IsEnding (slots_items s.closed.words) s.seat.value.me.0
        × IsPlaced s.seat.value.table_id s.seat.value.me.0 s.files s.items };
}

impl<P: Plan> Words<P> {
    /// Ends the sharing. The words that are left keep the rule, with the seat's view and with any seat that was not joined.
    /// Where the seat has read all, they are settled, whatever other seats did: the claimed files are the least closed
    /// set, just they are known, and each flag word has just the opening flags, the root marks and the marks of the items
    /// of those files.
    pub fn close(self, seat: WorkSeat) -> Closed
        requires { seat.table ≡ self }
        ensures view { result.view ≡ seat.view }
        ensures rule { IsEnding result.words result.view }
        ensures settled { HasReadAll seat.view → IsSettled result }
    {
        let Words { table } = self;
        let WorkSeat { seat, files, items } = seat;
        let seen = Snapshot::of(&seat);
        let closed = table.close_with(seat);
        Closed {
            closed,
            seat: seen,
            files,
            items,
        }
    }
}

impl Closed {
    /// Whether the file was claimed.
    pub fn is_claimed(&self, file: usize) -> bool
        requires { file < self.now.view.work.files }
        ensures { result ≡ is_marked (claimed_in self.now) file }
    {
        self.closed.word(1 + file) == 1
    }

    /// The final flags of the symbol.
    pub fn flags(&self, symbol: SymbolId) -> ValueFlags
        requires { symbol < length self.now.view.work.opening }
        ensures { result.0 ≡ flags_in self.now symbol }
    {
        let word = 1 + self.files + self.items + symbol.as_usize();
        flags_of_word(self.closed.word(word))
    }
}

impl Drop for Closed {
    fn drop(self) {
        let Self {
            closed,
            seat: _,
            files: _,
            items: _,
        } = self;
        closed.free();
    }
}
