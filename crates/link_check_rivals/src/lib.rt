//! Which of several definitions of a name counts, for a check that stands apart from what resolves them.
#![tactic(auto)]

mod choosing;
mod entries;
mod lists;
mod loaded;
mod references;
mod settling;

pub use loaded::LoadedSymbols;
