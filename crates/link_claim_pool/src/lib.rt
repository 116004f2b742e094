//! The closure of any plan whose items can be read, found by threads that take hints from one another. Nothing rests on
//! the hints: what they miss is read by one thread in the end.
//!
//! Some of its public calls are for callers of the library alone, and no crate here makes them: docs/PORT.md lists them.
#![tactic(auto)]

mod hints;
mod pool;
mod readable;
mod reading;
mod roots;
mod sweep;
mod worker;

pub use pool::{AllRead, read_all};
pub use readable::Readable;
pub use reading::{ItemRead, read_item};
