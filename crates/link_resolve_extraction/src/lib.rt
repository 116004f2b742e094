//! The work of a link over its database of names, as threads share it: which parts of objects are read, what is found in each, and what
//! that asks for; and what follows once all that is asked for was read.
//!
//! Some of its public calls are for callers of the library alone, and no crate here makes them: docs/PORT.md lists them.
#![tactic(auto)]

mod answer;
mod found;
mod items;
mod loading;
mod opening;
mod plan;
mod planning;
mod roots;

pub use answer::{
    claimed_objects, closed_words_are_those_of_a_link, read_targets,
    read_targets_are_those_of_a_link, write_flags, write_targets,
};
pub use found::{FoundItem, FoundReference, ReadItem};
pub use items::{ITEM_SIZE, WorkItem, work_items};
pub use loading::{BatchRead, LoadedObjects, load_objects};
pub use plan::LinkPlan;
