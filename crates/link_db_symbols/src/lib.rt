//! All symbols of a link one after another, each as the definitions of a link see it.
//!
//! Some of its public calls are for callers of the library alone, and no crate here makes them: docs/PORT.md lists them.
#![tactic(auto)]

mod all_symbols;
mod file_list;
mod file_symbols;
mod objects;
mod sources;
mod strengths;
mod table;
mod targets;
mod view;

pub use all_symbols::{AllSymbols, symbols};
pub use link_db_files::SymbolSource;
pub use objects::{ObjectSymbols, PartSymbols, object_symbols};
pub use sources::source_of;
pub use strengths::{DiscardedSections, surviving_strengths};
pub use table::{FirstDefinitions, reference_table};
pub use targets::target_of;
pub use view::{SymbolOrigin, SymbolView};
