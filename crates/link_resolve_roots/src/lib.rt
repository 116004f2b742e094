//! The objects that are found for root names as the batches of a link come.
#![tactic(auto)]

mod found;
mod noting;

pub use found::FoundRoots;
