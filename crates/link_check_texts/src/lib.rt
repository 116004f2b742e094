//! Why a link of one batch is refused before anything of it is loaded, and which names it must export, for a check that stands apart from
//! what resolves the link.
#![tactic(auto)]

mod limits;
mod opening;
mod scripts;
mod texts;

pub use opening::open_link;
