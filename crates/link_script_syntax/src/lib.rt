//! The texts of version scripts and export lists, as GNU ld's VERSION command and Mach-O linkers have them and Wild's
//! library reads them: their grammar, what is read of them, and the first fault of a text with its place.
//!
//! Some of its public calls are for callers of the library alone, and no crate here makes them: docs/PORT.md lists them.
#![tactic(auto)]

mod block;
mod body;
mod entry;
mod fault;
mod forced_name;
mod gnu_list;
mod macho_list;
mod matcher;
mod named;
mod numbered;
mod profile;
mod script;
mod skip;
mod token;

pub use body::{RawVersionBody, Side};
pub use entry::parse_matcher;
pub use fault::{Language, ScriptError, ScriptErrorKind, ScriptFault};
pub use forced_name::read_added_entry;
pub use gnu_list::read_gnu_list;
pub use macho_list::read_macho_list;
pub use matcher::{ParsedSymbolMatcher, SymbolMatcher};
pub use named::RawVersion;
pub use profile::ScriptProfile;
pub use script::RawScript;
