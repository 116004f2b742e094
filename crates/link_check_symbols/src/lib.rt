//! The symbols of a link of one batch, one after another, for a check that stands apart from what resolves them.
#![tactic(auto)]

mod gathering;
mod view;

pub use gathering::symbols;
pub use view::{SymbolOrigin, SymbolView};
