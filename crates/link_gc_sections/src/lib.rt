//! Which sections `--gc-sections` keeps. Here are definitions alone, with the law that there is one set of live sections.
#![tactic(auto)]

mod laws;

pub use laws::live_sections_are_one_set;
