//! Reads the JSON value of a text as a tree that borrows from the text, and looks into it.
//!
//! What a tree stands for is told in the words of `serde_json`: an object has each key once, in
//! order, and of several members with one key the last counts.
#![tactic(auto)]

mod cutting;
mod look;
mod number;
mod root;
mod runs;
mod tree;

pub use look::{get, is_null, items, members, to_bool, to_text, to_u64};
pub use root::{CutRoot, cut_root, items_read};
pub use tree::tree_of;
