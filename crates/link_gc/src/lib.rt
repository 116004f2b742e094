//! Which sections of a link are live (`--gc-sections`): by workers, on the words by which they also load files.
#![tactic(auto)]

mod collection;
mod edges;
mod error;
mod homes;
mod live;
mod numbers;
mod roots;
mod text;

pub use collection::collect;
pub use error::GcError;
pub use live::LiveSections;
pub use text::section_text;
