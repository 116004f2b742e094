//! The files of a link in their groups, found by the ids of their symbols, and the symbols that the linker adds.
//!
//! Some of its public calls are for callers of the library alone, and no crate here makes them: docs/PORT.md lists them.
#![tactic(auto)]

mod adding;
mod appending;
mod asked;
mod columns;
mod counting;
mod files;
mod outlines;
mod removing;
mod search;
mod sources;
mod starts;
mod symbol_queries;

pub use files::Files;
pub use outlines::{FileOutline, object_count, symbol_count};
pub use sources::SymbolSource;
