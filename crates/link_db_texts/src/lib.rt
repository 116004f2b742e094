//! What is read before names are resolved: the version script, the export list and the forced export names of a link, and from
//! them each symbol's flags as its file is read.
//!
//! Some of its public calls are for callers of the library alone, and no crate here makes them: docs/PORT.md lists them.
#![tactic(auto)]

mod opening;
mod reading;
mod scripts;
mod texts;

pub use opening::{
    flags_of_definition, flags_of_row, flags_of_script_symbol, flags_of_stub_symbol,
};
pub use reading::given_script;
pub use texts::{TakenScript, TextRules};
