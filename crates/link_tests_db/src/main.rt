//! The database by example: standard input is a list of cases, each of calls on a `SymbolDb`, and standard output is what they
//! answer. So a case costs no proof, and two compilers run it. README.md says how a case is written.
#![tactic(auto)]

mod ask;
mod calls;
mod cases;
mod definitions;
mod fault;
mod gather;
mod link;
mod naming;
mod setup;
mod stage;
mod table;
mod words;

use cases::do_cases;
use fault::Fault;
use link_program_streams::{RealSink, RealSource, Sink, Source, read_all, write_all};
use std::alloc::Global;
use std::process::ExitCode;
use std::thread::Threads;

/// At most so many bytes of cases are read.
const MAX_BYTES: usize = 1 << 20;

/// The status where something can't be done.
const FAULT_STATUS: u8 = 2;

/// Does what the cases of a source say.
fn do_input<R: Threads + Sync, S: Source, K: Sink>(
    rt: &R,
    alloc: Global,
    source: &mut S,
    sink: &mut K,
) -> Result<(), Fault> {
    let Ok(cases) = read_all(alloc, source, MAX_BYTES) else {
        return Err(Fault::Stream);
    };
    let mut text = String::new(alloc);
    let done = do_cases(rt, alloc, &mut text, &cases);
    match write_all(sink, text.as_bytes()) {
        Ok(()) => done,
        Err(_) => Err(Fault::Stream),
    }
}

fn main(rt: HostRuntime) -> ExitCode {
    let mut source = RealSource::new(rt.stdin());
    let mut sink = RealSink::new(rt.stdout());
    match do_input(&rt, rt.alloc(), &mut source, &mut sink) {
        Ok(()) => ExitCode::SUCCESS,
        Err(fault) => {
            let _ = eprintln!(rt; "{fault}");
            ExitCode::from(FAULT_STATUS)
        }
    }
}
