//! The names of a link: lists and byte strings as contracts see them, sets and maps of names, how a name prints, and the
//! numbers that names are found by in a map.
//!
//! Some of its public calls are for callers of the library alone, and no crate here makes them: docs/PORT.md lists them.
#![tactic(auto)]

mod agreement;
mod fnv;
mod name;
mod name_map;
mod name_order;
mod name_set;
mod name_text;
mod name_view;
mod pass_through_hasher;
mod pre_hashed;
mod seq;
mod special_names;
mod symbol_name;

pub use agreement::{hash_agrees_with_eq, order_and_hash_agree_with_eq};
pub use fnv::{extend_hash, hash_bytes};
pub use name::Name;
pub use name_map::NameMap;
pub use name_set::NameSet;
pub use name_text::{text_of, write_name};
pub use name_view::NameView;
pub use pass_through_hasher::{PassThroughHasher, number_in_map};
pub use pre_hashed::{NameHash, PreHashed, equal_values_carry_equal_numbers};
pub use seq::Seq;
pub use special_names::{is_mapping_symbol_name, parse_number};
pub use symbol_name::{PreHashedSymbolName, UnversionedSymbolName, VersionedSymbolName};
