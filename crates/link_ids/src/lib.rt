//! The numbers of a link: ids of symbols, sections and files, indexes in a table, and ranges of ids.
//!
//! Some of its public calls are for callers of the library alone, and no crate here makes them: docs/PORT.md lists them.
#![tactic(auto)]

mod file_id;
mod indexes;
mod section_ids;
mod shard_key;
mod symbol_id;
mod symbol_id_range;

pub use file_id::{FileId, PRELUDE_FILE_ID};
pub use indexes::{InputSectionIndex, SectionIndex, SymbolIndex};
pub use section_ids::{InputSectionId, SectionIdRange};
pub use shard_key::ShardKey;
pub use symbol_id::{SymbolId, TooManySymbols};
pub use symbol_id_range::{
    SymbolIdRange, SymbolIdRangeIterator, ids_and_offsets_are_inverse, ranges_list_their_ids,
};
