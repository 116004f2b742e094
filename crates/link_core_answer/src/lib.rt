//! What a link gives: its inputs, which of them are loaded, and what each symbol means.
#![tactic(auto)]

mod linked;

pub use linked::Linked;
