//! Which objects of a link are loaded, and what each name and each reference then means.
//!
//! Some of its public calls are for callers of the library alone, and no crate here makes them: docs/PORT.md lists them.
#![tactic(auto)]

mod canonical;
mod definitions;
mod duplicates;
mod laws;
mod lists;
mod resolved;
mod resolver;
mod rivals;
mod signatures;
mod undefined;
mod versions;

pub use definitions::{Definitions, names_are_mapped_to_symbols};
pub use laws::the_rust_form_narrows;
pub use lists::{PlainLists, VersionedLists};
pub use resolved::{Resolved, resolved_symbol_strength};
pub use resolver::Resolver;
pub use rivals::resolve_alternative_symbol_definitions;
pub use versions::symbol_versions;
