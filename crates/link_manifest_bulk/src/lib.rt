//! Made-up links of any size: an object, and an archive with so many members that refer to each other. Nothing is read.
#![tactic(auto)]

mod chain;
mod laws;
mod manifest;
mod names;
mod objects;
mod tables;

pub use chain::chain_manifest;
pub use laws::{a_made_up_link_is_not_refused, bulk_tables_pass, chain_tables_pass};
pub use manifest::{MAX_MEMBERS, bulk_manifest};
