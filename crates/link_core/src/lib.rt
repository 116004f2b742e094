//! The link itself: which objects are loaded, and what each symbol means.
//!
//! Some of its public calls are for callers of the library alone, and no crate here makes them: docs/PORT.md lists them.
#![tactic(auto)]

mod adding;
mod batch;
mod batch_size;
mod ending;
mod execution;
mod finishing;
mod held_link;
mod laws;
mod link;
mod opening;
mod pointing;
mod session;
mod session_error;
mod settling;
mod standing_link;

pub use laws::{a_session_can_be_sent, a_world_selects_once};
pub use link::{link_batches, link_symbols, link_why};
pub use session::Session;
pub use session_error::SessionError;
