//! How symbols are shown in messages.
//!
//! The program calls none of it: it is for those who use the crates without the program, as Wild's library has it (docs/PORT.md).
#![tactic(auto)]

mod symbol_debug;
mod symbol_name;

pub use symbol_debug::{SymbolDebug, SymbolPlace};
pub use symbol_name::SymbolNameDisplay;
