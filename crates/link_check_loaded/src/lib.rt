//! Whether the objects that a claim lists are those that are loaded.
#![tactic(auto)]

mod closing;
mod grounds;
mod loaded;
mod ranks;

pub use loaded::are_loaded;
pub use ranks::ranks_of;
