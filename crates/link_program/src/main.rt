//! Links the objects of a manifest: `link W` reads it from standard input, and writes to standard
//! output which objects are loaded and what each symbol means. `why W` reads it too, and writes why each
//! object is loaded and which of several definitions counts. `gc W` reads it too, and writes which sections
//! are live. `verdef` writes the version definitions that the manifest's version script makes. `bulk N W`
//! links a made-up world, and sums up what that gives.
#![tactic(auto)]

mod answer;
mod arguments;
mod check;
mod command;
mod gc;
mod run;
mod status;
#[cfg(test)]
mod tests;
mod verdef;
mod why;
mod word;

use arguments::run_with_arguments;
use link_program_streams::{RealSink, RealSource};
use std::env;
use std::process::ExitCode;

fn main(rt: HostRuntime) -> ExitCode {
    let mut source = RealSource::new(rt.stdin());
    let mut sink = RealSink::new(rt.stdout());
    let status = run_with_arguments(&rt, rt.alloc(), env::args(&rt), &mut source, &mut sink);
    status.exit_code()
}
