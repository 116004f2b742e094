//! Threads at a desk.

ghost use Rattle.std.specs.Prelude.{◌≡◌, ◌<◌, ◌≤◌, IfOk};
ghost use Rattle.link_desk.specs.Openings.{no_options, no_texts};

use crate::inputs::{Has, batch_of, name_of};
use crate::walk::is_as_one;
use link_desk::{AddReply, AskReply, CloseError, Desk, DeskError, DeskState, Opening, Pass};
use link_input::{Options, Scripts};
use std::alloc::{AllocError, Global};
use std::sync::Wait;
use std::sync::ledger::Blank;
use std::thread::{Threads, map_vec};

/// How many threads work together.
const THREADS: usize = 8;

/// How many batches they add.
const BATCHES: usize = 250;

/// How many batches one adds alone.
const FEW: usize = 3;

/// Why the work went wrong.
#[derive(Clone, Copy, Debug, PartialEq, Eq)]
pub(crate) enum Fault {
    Memory,
    /// A desk was not opened.
    Refused,
    /// Shares are missing.
    Missing,
    /// A call is not as the history has it.
    Differs,
    /// The history is not that of one caller, or one did not read what it added.
    Strange,
}

impl From<AllocError> for Fault {
    fn from(_: AllocError) -> Self {
        Fault::Memory
    }
}

impl From<DeskError> for Fault {
    fn from(error: DeskError) -> Self {
        match error {
            DeskError::Script { .. } => Fault::Refused,
            DeskError::Memory => Fault::Memory,
        }
    }
}

/// No text.
pub(crate) fn no_texts() -> Scripts
    ensures { result ≡ no_texts }
{
    Scripts {
        version_script: None,
        export_list: None,
    }
}

/// A desk without options and texts, and its first pass.
pub(crate) fn opened<L: Opening>(
    alloc: Global,
    blank: Blank,
) -> Result<(Desk<L>, Pass<L>), DeskError>
    requires name { blank.name ≡ L.name }
    requires parts { blank.parts ≡ L.parts }
    requires some { 0 < L.parts }
    requires options { L.options ≡ no_options }
    requires texts { L.texts ≡ no_texts }
    ensures { IfOk result (λ r. r.1.parts ≡ L.parts) }
{
    Desk::<L>::create(alloc, blank, Options::new(alloc), no_texts())
}

/// Closes a desk.
/// What it answers is left to the tests that assert it: no clause says it.
pub(crate) fn closed<L: Opening>(
    desk: Desk<L>,
    passes: Vec<Pass<L>>,
) -> Result<DeskState<L>, Fault> {
    match desk.close(passes) {
        Ok(state) => Ok(state),
        Err(CloseError::SharesMissing { .. }) => Err(Fault::Missing),
        Err(CloseError::Differs { .. }) => Err(Fault::Differs),
    }
}

/// Adds a batch that defines the name of this number, asks for the name, and for that of another number. Whether the session has ended, or else the name is
/// known now.
fn turn<L: Opening, R: Threads + Wait + Sync>(
    rt: &R,
    alloc: Global,
    desk: &Desk<L>,
    pass: &mut Pass<L>,
    number: usize,
) -> Result<bool, AllocError> {
    let batch = batch_of(alloc, false, Has::Definition(number))?;
    let (_, added) = desk.add(rt, pass, batch)?;
    let (_, asked) = desk.ask(rt, pass, name_of(alloc, number)?.as_slice())?;
    let _ = desk.ask(rt, pass, name_of(alloc, number ^ 1)?.as_slice())?;
    let is_known = matches!(asked, AskReply::Known { loaded: true, .. });
    Ok(is_known || !matches!(added, AddReply::Added { .. }))
}

/// What a thread does: its turns, and whether each was as it should be.
fn turns<L: Opening, R: Threads + Wait + Sync>(
    rt: &R,
    alloc: Global,
    desk: &Desk<L>,
    thread: usize,
    pass: Pass<L>,
) -> Result<(Pass<L>, bool), AllocError> {
    let mut pass = pass;
    let mut fine = true;
    for number in 0..BATCHES {
        if number % THREADS == thread {
            fine = turn(rt, alloc, desk, &mut pass, number)? && fine;
        }
    }
    Ok((pass, fine))
}

/// A pass for each thread, with its number.
fn split_for_all<L: Opening>(
    alloc: Global,
    pass: Pass<L>,
) -> Result<Vec<(usize, Pass<L>)>, AllocError>
    requires { pass.parts ≡ 8 }
{
    let mut first = pass;
    let mut passes = Vec::with_capacity(alloc, THREADS)?;
    for thread in 1..THREADS {
        passes.push((thread, first.split()))?;
    }
    passes.push((0, first))?;
    Ok(passes)
}

/// The only pass of a desk.
fn only<L: Opening>(alloc: Global, pass: Pass<L>) -> Result<Vec<Pass<L>>, AllocError> {
    Ok(vec![in alloc; pass]?)
}

/// The passes that threads bring back, and whether each turn was as it should be.
fn gathered<L: Opening>(
    alloc: Global,
    done: Vec<Result<(Pass<L>, bool), AllocError>>,
) -> Result<(Vec<Pass<L>>, bool), AllocError> {
    let mut passes = Vec::with_capacity(alloc, THREADS)?;
    let mut fine = true;
    for each in done {
        let (pass, is_fine) = each?;
        passes.push(pass)?;
        fine = fine && is_fine;
    }
    Ok((passes, fine))
}

/// Eight threads add batches and ask names; then the history is walked again.
/// What it answers is left to the tests that assert it: no clause says it.
pub(crate) fn together<L: Opening + Send + Sync, R: Threads + Wait + Sync>(
    rt: &R,
    alloc: Global,
    blank: Blank,
) -> Result<&'static str, Fault>
    requires name { blank.name ≡ L.name }
    requires parts { blank.parts ≡ L.parts }
    requires eight { blank.parts ≡ 8 }
    requires options { L.options ≡ no_options }
    requires texts { L.texts ≡ no_texts }
{
    let (desk, pass) = opened::<L>(alloc, blank)?;
    let passes = split_for_all(alloc, pass)?;
    let shared = &desk;
    let done = map_vec(
        rt,
        passes,
        &|(thread, pass)| { turns(rt, alloc, shared, thread, pass) },
    )?;
    let (passes, fine) = gathered(alloc, done)?;
    let state = closed(desk, passes)?;
    if fine && state.history().len() == 3 * BATCHES && is_as_one(alloc, state.history())? {
        Ok("250 batches and 500 questions of 8 threads: as of one")
    } else {
        Err(Fault::Strange)
    }
}

/// One caller adds batches and asks names, with little memory: a call that is refused is made again, and a batch for which the session lacks memory ends it.
/// What it answers is left to the tests that assert it: no clause says it.
pub(crate) fn alone<L: Opening, R: Threads + Wait + Sync>(
    rt: &R,
    alloc: Global,
    blank: Blank,
) -> Result<&'static str, Fault>
    requires name { blank.name ≡ L.name }
    requires parts { blank.parts ≡ L.parts }
    requires one { blank.parts ≡ 1 }
    requires options { L.options ≡ no_options }
    requires texts { L.texts ≡ no_texts }
{
    let (desk, mut pass) = opened::<L>(alloc, blank)?;
    let mut fine = true;
    for number in 0..FEW {
        let before = pass.calls().len();
        match turn(rt, alloc, &desk, &mut pass, number) {
            Ok(is_fine) => fine = fine && is_fine && pass.calls().len() == before.saturating_add(3),
            Err(_) => fine = fine && pass.calls().len() < before.saturating_add(3),
        }
    }
    let state = closed(desk, only(alloc, pass)?)?;
    if !fine || !is_as_one(alloc, state.history())? {
        return Err(Fault::Strange);
    }
    if state.session().is_ended() {
        Ok("ended")
    } else if state.history().len() < 3 * FEW {
        Ok("some calls were not made")
    } else {
        Ok("all calls were made")
    }
}
