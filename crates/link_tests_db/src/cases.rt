//! Cases, one after another.

ghost use Rattle.std.specs.Prelude.{OnOk};
ghost use Rattle.link_tests_db.specs.Staged.{IsAtStage};

use crate::ask::answer;
use crate::calls::{change, write_outcome};
use crate::fault::Fault;
use crate::gather::Gathered;
use crate::link::Link;
use crate::setup::Setup;
use crate::words::lines_of;
use link_input::{ElfLike, MachLike, Platform};
use link_names::NameView;
use link_rules::LinkError;
use std::alloc::{AllocError, Global};
use std::fmt::Write;
use std::thread::Threads;

/// Writes the words of a line, and what stands behind them.
fn write_words(text: &mut String, words: &[&[u8]], behind: &str) -> Result<(), AllocError> {
    for word in words {
        let word = NameView::new(word);
        write!(text, "{word} ")?;
    }
    text.push_str(behind)
}

/// Answers what a line asks, if it was no change, and ends the line.
fn end_line<P: Platform>(
    alloc: Global,
    text: &mut String,
    link: &Link<P>,
    words: &[&[u8]],
    is_change: bool,
) -> Result<(), Fault> {
    if is_change || answer(alloc, text, link, words)? {
        Ok(text.push_str("\n")?)
    } else {
        Err(Fault::Line)
    }
}

/// Does what a line says: it tells a file of the next batch, or is a call, which is written with its answer.
fn do_line<R: Threads + Sync, P: Platform + Sync>(
    rt: &R,
    alloc: Global,
    text: &mut String,
    link: &mut Link<P>,
    files: &mut Gathered,
    words: &[&[u8]],
) -> Result<(), Fault>
    requires { IsAtStage link.old }
    ensures { OnOk result (IsAtStage link.new) }
{
    if files.take(alloc, P::HAS_NULL_SYMBOL_ENTRY, words)? {
        return Ok(());
    }
    write_words(text, words, "-> ")?;
    let is_change = change(rt, alloc, text, link, files, words)?;
    end_line(alloc, text, link, words, is_change)
}

/// Does what the lines behind `new` say. One that can't be done is written once more, behind a question mark.
fn do_lines<R: Threads + Sync, P: Platform + Sync>(
    rt: &R,
    alloc: Global,
    text: &mut String,
    link: &mut Link<P>,
    lines: &[Vec<&[u8]>],
) -> Result<(), Fault>
    requires { IsAtStage link.old }
{
    let mut files = Gathered::new(alloc);
    for words in lines {
        let words = words.as_slice();
        if let Err(fault) = do_line(rt, alloc, text, link, &mut files, words) {
            text.push_str("\n? ")?;
            write_words(text, words, "\n")?;
            return Err(fault);
        }
    }
    Ok(())
}

/// Does with a link what the lines behind `new` say.
fn do_link<R: Threads + Sync, P: Platform + Sync>(
    rt: &R,
    alloc: Global,
    text: &mut String,
    link: Link<P>,
    lines: &[Vec<&[u8]>],
) -> Result<(), Fault>
    requires { IsAtStage link }
{
    let mut link = link;
    do_lines(rt, alloc, text, &mut link, lines)
}

/// Writes why there is no link.
fn write_refused(alloc: Global, text: &mut String, error: LinkError) -> Result<(), Fault> {
    text.push_str("new -> ")?;
    write_outcome(text, alloc, Err(error))?;
    Ok(text.push_str("\n")?)
}

/// What the lines before `new` say.
fn setup_of(alloc: Global, lines: &[Vec<&[u8]>]) -> Result<Setup, Fault> {
    let mut setup = Setup::new(alloc);
    for words in lines {
        setup.set(alloc, words.as_slice())?;
    }
    Ok(setup)
}

/// Makes a link, and does what the lines say of it.
fn do_case<R: Threads + Sync, P: Platform + Sync>(
    rt: &R,
    alloc: Global,
    text: &mut String,
    setup: Setup,
    lines: &[Vec<&[u8]>],
) -> Result<(), Fault> {
    if !setup.is_within_limits() {
        return Err(Fault::Limits);
    }
    match Link::<P>::new(alloc, setup) {
        Ok(link) => {
            text.push_str("new -> done\n")?;
            do_link(rt, alloc, text, link, lines)
        }
        Err(error) => write_refused(alloc, text, error),
    }
}

/// Whether a line is `new`.
fn is_new(words: &Vec<&[u8]>) -> bool {
    match words.as_slice() {
        [b"new"] => true,
        _ => false,
    }
}

/// Does what the lines of a case say.
fn do_case_of<R: Threads + Sync>(
    rt: &R,
    alloc: Global,
    text: &mut String,
    lines: &[Vec<&[u8]>],
) -> Result<(), Fault> {
    let Some((first, rest)) = lines.split_first() else {
        return Ok(());
    };
    let Some(at) = rest.iter().position(is_new) else {
        return Err(Fault::Case);
    };
    let [b"case", name, platform] = first.as_slice() else {
        return Err(Fault::Case);
    };
    let name = NameView::new(name);
    write!(text, "case {name}\n")?;
    let setup = setup_of(alloc, &rest[..at])?;
    match *platform {
        b"elf" => do_case::<R, ElfLike>(rt, alloc, text, setup, &rest[at + 1..]),
        b"mach" => do_case::<R, MachLike>(rt, alloc, text, setup, &rest[at + 1..]),
        _ => Err(Fault::Case),
    }
}

/// Does what all cases say, and writes what is answered.
/// What is written is left to the cases, whose expected text stands beside them: no clause says it.
pub fn do_cases<R: Threads + Sync>(
    rt: &R,
    alloc: Global,
    text: &mut String,
    cases: &[u8],
) -> Result<(), Fault> {
    let lines = lines_of(alloc, cases)?;
    for case in lines
        .as_slice()
        .split(|words: &Vec<&[u8]>| words.is_empty())
    {
        do_case_of(rt, alloc, text, case)?;
    }
    Ok(())
}
