//! What is read of files, groups side by side: the flags of each symbol as its file is read, and the definitions of names that
//! symbols give.
#![tactic(auto)]

mod files;
mod group;
mod groups;
mod listing;
mod loader;
mod read_symbols;

pub use group::read_group;
pub use groups::read_groups;
pub use loader::{DynamicObjectSymbolLoader, RegularObjectSymbolLoader, SymbolLoader};
pub use read_symbols::ReadSymbols;
