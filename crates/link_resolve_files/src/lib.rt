//! The files of a link once it is known which objects are loaded, as a linker goes on with them: views that borrow from its groups.
//!
//! The program calls none of it: it is for those who use the crates without the program, as Wild's library has it (docs/PORT.md).
#![tactic(auto)]

mod loaded_places;
mod resolved_file;
mod resolved_inputs;
mod resolved_objects;
mod resolving;
mod undefined_symbol;

pub use resolved_file::{ResolvedFile, ResolvedGroup};
pub use resolved_inputs::{
    ResolvedLinkerScript, ResolvedPrelude, ResolvedStubLibrary, ResolvedSyntheticSymbols,
};
pub use resolved_objects::{NotLoaded, ResolvedCommon, ResolvedDynamic, ResolvedObject};
pub use resolving::resolved_groups;
pub use undefined_symbol::UndefinedSymbol;
