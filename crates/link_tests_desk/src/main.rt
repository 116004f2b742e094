//! Tests of a desk. They stand here, where nothing stands on them, since a crate with tests is proved twice. As a program it lets eight threads work at a
//! desk, or one with little memory (`tools/desk.py`).
#![tactic(auto)]

mod inputs;
#[cfg(test)]
mod tests;
mod walk;
mod work;

use std::alloc::{AllocError, Global};
use std::env;
use std::marker::Brand;
use std::process::ExitCode;
use std::rt::Env;
use std::sync::ledger::Blank;
use work::{Fault, alone, together};

/// The first word behind the program's name, if there is one.
fn word_of<R: Env + AllocGlobal>(rt: &R) -> Result<Option<String>, Fault> {
    match env::args(rt) {
        Ok(args) => Ok(args.skip(1).next()),
        Err(_) => Err(Fault::Memory),
    }
}

/// The status that tells the fault.
fn status_of(fault: Fault) -> ExitCode {
    match fault {
        Fault::Memory => ExitCode::from(6),
        Fault::Refused | Fault::Missing | Fault::Differs | Fault::Strange => ExitCode::FAILURE,
    }
}

fn main(rt: HostRuntime) -> ExitCode {
    let alloc = rt.alloc();
    let word = match word_of(&rt) {
        Ok(Some(word)) => word,
        Ok(None) => return ExitCode::SUCCESS,
        Err(fault) => return status_of(fault),
    };
    let outcome = if word.as_str() == "alone" {
        alone::<Brand, _>(&rt, alloc, Blank::new(1))
    } else {
        together::<Brand, _>(&rt, alloc, Blank::new(8))
    };
    match outcome {
        Ok(text) => match println!(rt; "{text}") {
            Ok(()) => ExitCode::SUCCESS,
            Err(_) => ExitCode::FAILURE,
        },
        Err(fault) => status_of(fault),
    }
}
