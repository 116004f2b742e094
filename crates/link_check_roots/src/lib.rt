//! Which objects of a link are loaded whatever refers to them, for a check that stands apart from what resolves them.
#![tactic(auto)]

mod definitions;
mod entry;
mod laws;
mod marking;
mod roots;

pub use laws::a_first_stage_has_these_roots;
pub use roots::root_marks;
