//! What a link prints: the report, the summary or the explanation of its answer, or the text of its refusal.
#![tactic(auto)]

mod counts;
mod lines;
mod refusal;
mod report;
mod runs;
mod summary;
mod symbols;
mod why;

pub use refusal::refusal_text;
pub use report::report_text;
pub use summary::summary_text;
pub use why::{choices_go_by_the_names_of_files, why_text};
