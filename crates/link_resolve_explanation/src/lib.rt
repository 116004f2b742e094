//! The explanation of a link: why each loaded object is loaded, and which of several definitions of a name counts.
#![tactic(auto)]

mod explaining;
mod gathering;
mod heads;
mod laws;
mod listing;
mod name_lists;
mod wraps;

pub use explaining::explain;
pub use laws::{a_selection_is_told, a_settled_selection_is_told};
