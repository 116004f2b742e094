//! What someone claims of a link, and when the claim holds. Here are types and definitions alone, with the laws that a claim which holds is
//! the link, and that some claim holds.
#![tactic(auto)]

mod claim;
mod laws;

pub use claim::{Claim, ClaimedGroup, ClaimedObject};
pub use laws::{a_claim_that_holds_is_the_link, some_claim_holds};
