//! Version scripts and export lists, as Wild's library has them: which version a symbol has by the strongest match of its
//! name, which symbols are exported, and which ones must be defined.
//!
//! Some of its public calls are for callers of the library alone, and no crate here makes them: docs/PORT.md lists them.
#![tactic(auto)]

mod export_list;
mod lookup;
mod rank;
mod regular;
mod rules;
mod rust_form;
mod script;
mod symbol_version;
mod version_globs;
mod version_index;

pub use export_list::ExportList;
pub use lookup::{Demangler, Plain};
pub use regular::RegularVersionScript;
pub use rules::{BasicMatchRules, MatchRules, Version, VersionBody};
pub use rust_form::{RustFormError, RustVersionScript};
pub use script::VersionScript;
pub use symbol_version::UndefinedVersion;
