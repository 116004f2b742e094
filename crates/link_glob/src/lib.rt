//! Glob patterns over symbol names, as version scripts and export lists write them.
//!
//! [`analyze_glob_pattern`] tells how a pattern has to be compared, [`unescape_pattern`] reads one that only escapes,
//! [`compile_glob_pattern`] and [`compile_macho_glob_pattern`] compile the others, and [`Pattern::matches`] compares a
//! name. Names and patterns are matched character by character; bytes that are not UTF-8 are no glob.
#![tactic(auto)]

mod analyze;
mod compile;
mod fault;
mod glob_index;
mod glob_key;
mod glob_list;
mod globs;
mod laws;
mod matching;
mod pattern;

pub use analyze::{GlobPatternType, analyze_glob_pattern, unescape_pattern};
pub use compile::{compile_glob_pattern, compile_macho_glob_pattern};
pub use fault::GlobError;
pub use glob_index::GlobIndex;
pub use glob_list::GlobList;
pub use globs::Globs;
pub use laws::{escaping_law, examples_law, grammar_law};
pub use pattern::Pattern;
