//! Which groups of the loaded objects are kept, and what is left of each symbol, for a check that stands apart from what resolves them.
#![tactic(auto)]

mod discarded;
mod first;
mod group;
mod groups;
mod surviving;

pub use groups::LoadedGroups;
