//! The inputs of a link in groups, which are read side by side, with the ids of their files, symbols and sections.
//!
//! Some of its public calls are for callers of the library alone, and no crate here makes them: docs/PORT.md lists them.
#![tactic(auto)]

mod counting;
mod cut;
mod group;
mod grouping;
mod groups_error;
mod limits;
mod pushing;
mod sequence_laws;
mod sequenced;
mod sequenced_input;
mod sequencing;

pub use group::Group;
pub use grouping::create_groups;
pub use groups_error::GroupsError;
pub use sequence_laws::{ids_run_on, symbols_are_numbered};
pub use sequenced::{
    SequencedInputObject, SequencedLinkerScript, SequencedStubLibrary, SyntheticSymbols,
};
pub use sequenced_input::SequencedInput;
