//! Which symbols define a name and which one it is mapped to, in buckets of names by their hash numbers. No name is copied:
//! a bucket keeps hash numbers and labels, and compares bytes through the tables that hold the names.
//!
//! Some of its public calls are for callers of the library alone, and no crate here makes them: docs/PORT.md lists them.
#![tactic(auto)]

mod ahead;
mod bucket;
mod buckets;
mod definition;
mod filter;
mod hashing;
mod head;
mod label;
mod laws;
mod mapped_labels;
mod places;
mod runs;
mod shares;
mod side_by_side;
mod sip_hash;
mod slots;
mod walk;

pub use bucket::Bucket;
pub use buckets::Buckets;
pub use definition::Definition;
pub use hashing::key_hash;
pub use head::{Definitions, Head};
pub use label::{Label, Names};
pub use laws::{
    buckets_do_not_show, growing_tables_keep_a_bucket, growing_tables_keep_buckets,
    heads_are_names, tables_go_back,
};
pub use mapped_labels::MappedLabels;
