//! Claims of files, begins of work items and marks of symbols that many threads make on shared words. The words keep a
//! rule, and the rule keeps the law of a plain core: whatever the order of the steps, once all is read the claimed files
//! are the least closed set, and the flags have the marks of just those files. What a workload is stands in
//! `link_closure`; here stand its words, and who steps on them.
//!
//! Some of its public calls are for callers of the library alone, and no crate here makes them: docs/PORT.md lists them.
#![tactic(auto)]

mod closed;
mod flags;
mod gate;
mod law;
mod plan;
mod state;
mod view;
mod words;

pub use closed::Closed;
pub use flags::{AtomicFlagsRange, AtomicPerSymbolFlags, AtomicValueFlags};
pub use gate::{Gate, OpenGate, Passage};
pub use law::{
    a_bit_is_new_once, any_interleaving, each_step_is_of_its_seat, flags_only_grow,
    no_schedule_changes_the_end, no_store_will_do,
};
pub use link_closure::{Item, Mark, Workload};
pub use plan::Plan;
pub use state::{Begun, Claimed, Core, Marked, Step};
pub use view::{View, Written};
pub use words::{Words, WorkSeat};
