//! Why the objects of a link are loaded: the reason of each, told once all batches are loaded.
#![tactic(auto)]

mod firsts;
mod levels;
mod reasons;
mod requests;

pub use reasons::loaded_reasons;
