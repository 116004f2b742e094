//! A session that threads share: they add batches and ask names, and at the end each thread's calls are found in one history.
//!
//! No crate here makes its public calls: they are for callers of the library, and docs/PORT.md lists them.
#![tactic(auto)]

mod closing;
mod desk;
mod entry;
mod kind;
mod opening;
mod pass;
mod session_calls;
mod settling;
mod state;

pub use closing::CloseError;
pub use desk::Desk;
pub use entry::{AddReply, AskReply, Entry};
pub use kind::RefusalKind;
pub use opening::Opening;
pub use pass::{Kept, Pass};
pub use state::{DeskError, DeskState};
