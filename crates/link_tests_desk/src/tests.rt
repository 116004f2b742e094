//! What a desk replies, and that its passes are told from one another.

ghost use Rattle.std.specs.Prelude.{◌≡◌, ◌≤◌};
ghost use Rattle.link_desk.specs.Openings.{no_options, no_texts};

use crate::inputs::{Has, batch_of, name_of, nothing};
use crate::work::{closed, opened, together};
use link_desk::{AddReply, AskReply, CloseError, Desk, Entry, Opening, Pass, RefusalKind};
use std::alloc::{AllocError, Global};
use std::marker::Brand;
use std::process::Abort;
use std::sync::Wait;
use std::sync::ledger::Blank;
use std::test::Fail;
use std::thread::{Threads, join};

/// The number of the name that is asked for.
const ASKED: usize = 7;

/// A call.
#[derive(Clone, Copy, Debug)]
enum Call {
    /// An object that refers to the name.
    Main,
    /// An archive member that defines it.
    Member,
    /// An object without symbols.
    Plain,
    /// No file at all.
    Nothing,
    Ask,
}

/// What it is to be replied.
#[derive(Clone, Copy, Debug)]
enum Want {
    Add(AddReply),
    Unknown,
    /// This symbol, which is loaded.
    Known(usize),
}

fn make<L: Opening, R: Threads + Wait + Sync>(
    rt: &R,
    alloc: Global,
    desk: &Desk<L>,
    pass: &mut Pass<L>,
    call: Call,
) -> Result<(), AllocError> {
    let batch = match call {
        Call::Main => batch_of(alloc, false, Has::Reference(ASKED))?,
        Call::Member => batch_of(alloc, true, Has::Definition(ASKED))?,
        Call::Plain => batch_of(alloc, false, Has::Nothing)?,
        Call::Nothing => nothing(alloc),
        Call::Ask => {
            let _ = desk.ask(rt, pass, name_of(alloc, ASKED)?.as_slice())?;
            return Ok(());
        }
    };
    let _ = desk.add(rt, pass, batch)?;
    Ok(())
}

/// Whether the reply is the one that is wanted.
fn is_wanted(entry: &Entry, want: Want) -> bool {
    match (entry, want) {
        (Entry::Add(_, reply), Want::Add(wanted)) => *reply == wanted,
        (Entry::Ask(_, AskReply::Unknown), Want::Unknown) => true,
        (Entry::Ask(_, AskReply::Known { symbol, loaded }), Want::Known(wanted)) => {
            *loaded && symbol.as_usize() == wanted
        }
        _ => false,
    }
}

/// Whether the history ends with these replies.
fn ends_with(history: &[Entry], wants: &[Want]) -> bool {
    if history.len() < wants.len() {
        return false;
    }
    let (_, last) = history.split_at(history.len() - wants.len());
    for (entry, want) in last.iter().zip(wants) {
        if !is_wanted(entry, *want) {
            return false;
        }
    }
    true
}

/// Whether calls of one pass, behind so many batches without symbols, are replied so at the end.
fn are_replied<L: Opening, R: Threads + Wait + Sync>(
    rt: &R,
    alloc: Global,
    blank: Blank,
    before: usize,
    row: &[(Call, Want)],
) -> Result<bool, Fail>
    requires name { blank.name ≡ L.name }
    requires parts { blank.parts ≡ L.parts }
    requires one { blank.parts ≡ 1 }
    requires options { L.options ≡ no_options }
    requires texts { L.texts ≡ no_texts }
{
    let (desk, mut pass) = opened::<L>(alloc, blank)?;
    for _ in 0..before {
        make(rt, alloc, &desk, &mut pass, Call::Plain)?;
    }
    let mut wants = Vec::new(alloc);
    for (each, want) in row {
        make(rt, alloc, &desk, &mut pass, *each)?;
        wants.push(*want)?;
    }
    let state = closed(desk, vec![in alloc; pass]?)?;
    Ok(ends_with(state.history(), wants.as_slice()))
}

/// Replies of a desk, each behind so many batches without symbols.
const ROWS: &[(usize, &[(Call, Want)])] = &[
    (
        0,
        &[
            (
                Call::Main,
                Want::Add(AddReply::Added {
                    batch: 0,
                    loaded: 1,
                }),
            ),
            (Call::Ask, Want::Unknown),
            (
                Call::Member,
                Want::Add(AddReply::Added {
                    batch: 1,
                    loaded: 2,
                }),
            ),
            (Call::Ask, Want::Known(4)),
        ],
    ),
    (
        0,
        &[
            (
                Call::Nothing,
                Want::Add(AddReply::Refused(RefusalKind::NoInputs)),
            ),
            (Call::Ask, Want::Unknown),
            (Call::Main, Want::Add(AddReply::Ended)),
        ],
    ),
    (
        256,
        &[
            (Call::Plain, Want::Add(AddReply::Full)),
            (Call::Ask, Want::Unknown),
            (Call::Member, Want::Add(AddReply::Full)),
        ],
    ),
];

#[test]
fn calls_are_replied(rt: HostRuntime) -> Result<(), Fail> {
    for &(before, row) in ROWS {
        let fine = are_replied::<Brand, _>(&rt, rt.alloc(), Blank::new(1), before, row)?;
        assert!(rt; fine);
    }
    Ok(())
}

/// Adds a batch that defines the name of a number, and asks for it.
fn add_and_ask<L: Opening, R: Threads + Wait + Sync>(
    rt: &R,
    alloc: Global,
    desk: &Desk<L>,
    pass: Pass<L>,
    number: usize,
) -> Result<(Pass<L>, AskReply), AllocError> {
    let mut pass = pass;
    let batch = batch_of(alloc, false, Has::Definition(number))?;
    let _ = desk.add(rt, &mut pass, batch)?;
    let (_, asked) = desk.ask(rt, &mut pass, name_of(alloc, number)?.as_slice())?;
    Ok((pass, asked))
}

/// Two threads each add a batch, and find their own name.
fn two_threads<L: Opening + Send + Sync, R: Threads + Wait + Abort + Sync>(
    rt: &R,
    alloc: Global,
    blank: Blank,
) -> Result<(), Fail>
    requires name { blank.name ≡ L.name }
    requires parts { blank.parts ≡ L.parts }
    requires two { blank.parts ≡ 2 }
    requires options { L.options ≡ no_options }
    requires texts { L.texts ≡ no_texts }
{
    let (desk, mut first) = opened::<L>(alloc, blank)?;
    let second = first.split();
    let shared = &desk;
    let (one, two) = join(
        rt,
        || add_and_ask(rt, alloc, shared, first, 7),
        || add_and_ask(rt, alloc, shared, second, 9),
    );
    let (one, asked_one) = one?;
    let (two, asked_two) = two?;
    assert!(rt; matches!(asked_one, AskReply::Known { loaded: true, .. }));
    assert!(rt; matches!(asked_two, AskReply::Known { loaded: true, .. }));
    let state = closed(desk, vec![in alloc; one, two]?)?;
    assert_eq!(rt; state.history().len(), 4);
    Ok(())
}

#[test]
fn reads_own_add(rt: HostRuntime) -> Result<(), Fail> {
    two_threads::<Brand, _>(&rt, rt.alloc(), Blank::new(2))
}

/// Each of two passes makes a call; one of them is not handed in.
fn without_the_second<L: Opening, R: Threads + Wait + Abort + Sync>(
    rt: &R,
    alloc: Global,
    blank: Blank,
) -> Result<(), Fail>
    requires name { blank.name ≡ L.name }
    requires parts { blank.parts ≡ L.parts }
    requires two { blank.parts ≡ 2 }
    requires options { L.options ≡ no_options }
    requires texts { L.texts ≡ no_texts }
{
    let (desk, mut first) = opened::<L>(alloc, blank)?;
    let mut second = first.split();
    make(rt, alloc, &desk, &mut first, Call::Main)?;
    make(rt, alloc, &desk, &mut second, Call::Ask)?;
    drop(second);
    let missing = match desk.close(vec![in alloc; first]?) {
        Err(CloseError::SharesMissing { book, sum, .. }) => book == 2 && sum == 1,
        _ => false,
    };
    assert!(rt; missing);
    Ok(())
}

#[test]
fn a_pass_is_missing(rt: HostRuntime) -> Result<(), Fail> {
    without_the_second::<Brand, _>(&rt, rt.alloc(), Blank::new(2))
}

#[test]
fn eight_threads_are_as_one(rt: HostRuntime) -> Result<(), Fail> {
    let _ = together::<Brand, _>(&rt, rt.alloc(), Blank::new(8))?;
    Ok(())
}
