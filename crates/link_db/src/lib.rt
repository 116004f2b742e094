//! The database of names and symbols: the room between the tables of files and the choices of a link.
//!
//! Some of its public calls are for callers of the library alone, and no crate here makes them: docs/PORT.md lists them.
#![tactic(auto)]

mod adding;
mod counting;
mod database;
mod definitions;
mod entry;
mod growing;
mod laws;
mod lookup;
mod mangled;
mod overrides;
mod queries;
mod rust_form;
mod rust_script;
mod showing;
mod synthetic;
mod wrapping;

pub use database::SymbolDb;
pub use entry::scripts_of;
pub use laws::targets_are_symbols;
pub use link_db_lookup::SymbolKey;
