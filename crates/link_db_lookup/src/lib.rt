//! What a reference stands for, by the names of the files that a link holds.
#![tactic(auto)]

mod key;
mod laws;
mod picking;
mod targets;

pub use key::SymbolKey;
pub use laws::targets_are_symbols;
pub use targets::target_of;
