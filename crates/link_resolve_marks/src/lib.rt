//! What is known of each symbol once the loaded objects are, by the ids of symbols; and the flags that references give to what they stand
//! for.
#![tactic(auto)]

mod columns;
mod marks;

pub use columns::{RivalColumns, held_symbols, object_places, rival_columns};
pub use marks::{mark_symbol, reference_flags};
