//! Which of several definitions of a name counts: lists of rivals are settled, and made as visible as their strictest entry. Lists come by
//! a trait, and what is known of symbols in columns by their ids, so nothing here knows a database.
#![tactic(auto)]

mod choosing;
mod laws;
mod lists;
mod narrowing;
mod settling;
mod survivors;

pub use choosing::{choices, name_choices};
pub use laws::{
    clashes_are_the_duplicates, names_make_lists, narrowing_twice_joins_both,
    settling_gives_the_tables,
};
pub use lists::RivalLists;
pub use narrowing::narrow;
pub use settling::{Clash, settle};
pub use survivors::Survivors;
