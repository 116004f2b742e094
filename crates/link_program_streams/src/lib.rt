//! Where a program's bytes come from, and where they go: sources and sinks that may hand over or
//! take fewer bytes than asked and may fail, and how all of a source is read and all of a text
//! written.
//!
//! A source and a sink count their faults. What a contract says of a failure is said by that
//! count: an error is answered only where the count rose in the call.
//!
//! Some of its public calls are for callers of the library alone, and no crate here makes them: docs/PORT.md lists them.
#![tactic(auto)]

mod memory;
mod real;
mod stream;
#[cfg(test)]
mod tests;
mod whole;

pub use memory::{MemorySink, MemorySource, SteadySource};
pub use real::{RealSink, RealSource};
pub use stream::{Failed, Sink, Source};
pub use whole::{ReadAllError, read_all, write_all};
