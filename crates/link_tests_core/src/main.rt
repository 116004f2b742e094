//! Tests of the loading of a link by threads, down to `link_claim_pool`: that they load what one thread would, and run beside each other; and of sessions. They
//! stand here, where nothing stands on them, since a crate with tests is proved twice. As a program it times the loading of made-up links.
#![tactic(auto)]

mod bench;
#[cfg(test)]
mod explanations;
#[cfg(test)]
mod gates;
mod graphs;
mod loading;
mod looking;
#[cfg(test)]
mod outcome;
#[cfg(test)]
mod road;
#[cfg(test)]
mod sessions;
mod shape;
#[cfg(test)]
mod tests;

use bench::{Fault, bench};
use std::alloc::{AllocError, Global};
use std::env;
use std::process::ExitCode;
use std::rt::Env;

/// The words behind the program's name; none where they can't be had.
fn words_of<R: Env + AllocGlobal>(rt: &R, alloc: Global) -> Result<Vec<String>, AllocError> {
    let mut words = Vec::new(alloc);
    if let Ok(args) = env::args(rt) {
        for arg in args.skip(1) {
            words.push(arg)?;
        }
    }
    Ok(words)
}

fn main(rt: HostRuntime) -> ExitCode {
    let alloc = rt.alloc();
    let Ok(words) = words_of(&rt, alloc) else {
        return ExitCode::FAILURE;
    };
    if words.is_empty() {
        return ExitCode::SUCCESS;
    }
    match bench(&rt, alloc, &words) {
        Ok(()) => ExitCode::SUCCESS,
        Err(fault) => {
            let _ = eprintln!(rt; "{fault}");
            ExitCode::FAILURE
        }
    }
}
