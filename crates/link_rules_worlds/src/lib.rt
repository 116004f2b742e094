//! Small worlds, and what a link of each answers, computed by the checker from the definitions of `link_rules`. Nothing stands
//! on this crate, so a changed world proves it alone.
#![tactic(auto)]

mod laws_worlds;

pub use laws_worlds::{limits_of_ids, worked_worlds};
