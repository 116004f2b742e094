//! What the references of a link stand for, and which objects they ask for, for a check that stands apart from what resolves them.
#![tactic(auto)]

mod asking;
mod hidden;
mod laws;
mod targets;

pub use asking::requests;
pub use laws::a_first_stage_has_these_columns;
pub use targets::reference_targets;
