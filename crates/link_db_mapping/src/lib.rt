//! Which symbols define a name and what the name is mapped to, over the files that a link holds.
//!
//! Some of its public calls are for callers of the library alone, and no crate here makes them: docs/PORT.md lists them.
#![tactic(auto)]

mod adding;
mod mapped_names;
mod name_tables;
mod overriding;
mod parts;
mod restoring;
mod symbol_mapping;
mod synthetic;
mod wrapping;

pub use mapped_names::MappedNames;
pub use symbol_mapping::SymbolMapping;
