//! What each symbol of a link points to at the end, where some references stay undefined, for a check that stands apart from what
//! resolves them.
#![tactic(auto)]

mod boundaries;
mod columns;
mod entries;
mod last;
mod laws;
mod left;
mod makers;
mod noted;
mod table;

pub use laws::these_columns_tell_of_a_selection;
pub use table::final_table;
