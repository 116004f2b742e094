//! Which section groups of the loaded regular objects are kept, and what is asked of the groups of one object.
//!
//! Some of its public calls are for callers of the library alone, and no crate here makes them: docs/PORT.md lists them.
#![tactic(auto)]

mod candidate;
mod group_sections;
mod laws;
mod participation;
mod section_groups;
mod selection;
mod signatures;
mod tables;

pub use candidate::Candidate;
pub use group_sections::GroupSections;
pub use laws::{a_group_is_visited_once, selected_groups_are_those_of_a_link};
pub use section_groups::ObjectSectionGroups;
pub use selection::Selection;
