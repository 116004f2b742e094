//! Whether a claim of a link holds, by a check that shares nothing with what resolves links.
#![tactic(auto)]

mod checking;
mod comparing;
mod marking;
mod table;
mod verdict;

pub use checking::check_claim;
pub use verdict::Verdict;
