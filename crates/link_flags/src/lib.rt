//! What a link knows of a symbol beside its name and id: the flags of its value, its visibility, its strength, and which
//! of several definitions the strength picks.
//!
//! Some of its public calls are for callers of the library alone, and no crate here makes them: docs/PORT.md lists them.
#![tactic(auto)]

mod per_symbol_flags;
mod selector;
mod strength;
mod value_flags;
mod visibility;

pub use per_symbol_flags::{FlagsForSymbol, PerSymbolFlags};
pub use selector::SymbolPrioritySelector;
pub use strength::SymbolStrength;
pub use value_flags::{RawFlags, ValueFlags};
pub use visibility::Visibility;
