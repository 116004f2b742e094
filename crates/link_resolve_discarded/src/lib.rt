//! Which sections of the loaded regular objects of a link are left out, since another object's COMDAT group has theirs.
//!
//! Some of its public calls are for callers of the library alone, and no crate here makes them: docs/PORT.md lists them.
#![tactic(auto)]

mod candidates;
mod checking;
mod indices;
mod laws;
mod loaded_groups;
mod placed;
mod signatures;

pub use candidates::regular_candidates;
pub use checking::check_groups;
pub use laws::discarded_sections_are_those_of_a_link;
pub use loaded_groups::LoadedGroups;
pub use placed::placed_objects;
pub use signatures::{first_symbol, first_symbols, signature_ids};
