//! Lines that change a link, and what is answered.

ghost use Rattle.std.specs.Prelude.{OnOk};
ghost use Rattle.link_tests_db.specs.Staged.{IsAtStage};

use crate::ask::{symbol_of, write_symbol};
use crate::fault::Fault;
use crate::gather::Gathered;
use crate::link::Link;
use crate::words::unescaped;
use link_input::Platform;
use link_names::Name;
use link_report::refusal_text;
use link_rules::LinkError;
use std::alloc::{AllocError, Global};
use std::fmt::Write;
use std::thread::Threads;

/// Writes whether a call was done, or why it was refused.
/// What is written is left to the cases: no clause says it.
pub fn write_outcome(
    text: &mut String,
    alloc: Global,
    outcome: Result<(), LinkError>,
) -> Result<(), Fault> {
    match outcome {
        Ok(()) => text.push_str("done")?,
        Err(LinkError::Memory) => return Err(Fault::Memory),
        Err(error) => {
            let why = Name::new(refusal_text(alloc, &error)?);
            write!(text, "refused: {why}")?;
        }
    }
    Ok(())
}

/// Writes that a call was done, which changes a link.
fn done(text: &mut String) -> Result<bool, Fault> {
    text.push_str("done")?;
    Ok(true)
}

/// Adds the files of a batch, and writes whether they were added.
fn add<R: Threads + Sync, P: Platform + Sync>(
    rt: &R,
    alloc: Global,
    text: &mut String,
    link: &mut Link<P>,
    files: &mut Gathered,
) -> Result<bool, Fault>
    requires { IsAtStage link.old }
    ensures { OnOk result (IsAtStage link.new) }
{
    let told = std::mem::replace(files, Gathered::new(alloc));
    let inputs = told.into_inputs(alloc)?;
    let outcome = link.add(rt, alloc, inputs)?;
    write_outcome(text, alloc, outcome)?;
    Ok(true)
}

/// Maps a name to a symbol, and writes what it was mapped to.
fn override_name<P: Platform>(
    alloc: Global,
    text: &mut String,
    link: &mut Link<P>,
    name: &[u8],
    symbol: &[u8],
) -> Result<bool, Fault>
    requires { IsAtStage link.old }
    ensures { OnOk result (IsAtStage link.new) }
{
    let id = symbol_of(&link.db, symbol)?;
    let name = unescaped(alloc, name)?;
    let before = link.override_name(name, id)?;
    write_symbol(text, before)?;
    Ok(true)
}

/// Lets a symbol point to another.
fn point<P: Platform>(
    text: &mut String,
    link: &mut Link<P>,
    symbol: &[u8],
    definition: &[u8],
) -> Result<bool, Fault>
    requires { IsAtStage link.old }
    ensures { OnOk result (IsAtStage link.new) }
{
    let id = symbol_of(&link.db, symbol)?;
    let definition = symbol_of(&link.db, definition)?;
    link.point(id, definition);
    done(text)
}

/// Adds the group of the symbols that the linker makes, and writes the id of its file.
fn add_symbols<P: Platform>(
    alloc: Global,
    text: &mut String,
    link: &mut Link<P>,
) -> Result<bool, Fault>
    requires { IsAtStage link.old }
    ensures { OnOk result (IsAtStage link.new) }
{
    let file = link.add_symbols(alloc)?;
    write!(text, "#{file}")?;
    Ok(true)
}

/// Adds a symbol that the linker makes, and writes its id.
fn add_symbol<P: Platform>(
    alloc: Global,
    text: &mut String,
    link: &mut Link<P>,
    name: &[u8],
) -> Result<bool, Fault>
    requires { IsAtStage link.old }
    ensures { OnOk result (IsAtStage link.new) }
{
    let name = unescaped(alloc, name)?;
    let id = link.add_symbol(name)?;
    write!(text, "{id}")?;
    Ok(true)
}

/// Adds a group of a linker script that names an entry.
fn add_script<P: Platform>(
    alloc: Global,
    text: &mut String,
    link: &mut Link<P>,
    input: &[u8],
    entry: &[u8],
) -> Result<bool, Fault>
    requires { IsAtStage link.old }
    ensures { OnOk result (IsAtStage link.new) }
{
    let input = unescaped(alloc, input)?;
    let entry = unescaped(alloc, entry)?;
    link.add_script(alloc, input, entry)?;
    done(text)
}

/// Does what a line of one word says. Says whether it changes a link.
fn change_all<P: Platform>(
    alloc: Global,
    text: &mut String,
    link: &mut Link<P>,
    word: &[u8],
) -> Result<bool, Fault>
    requires { IsAtStage link.old }
    ensures { OnOk result (IsAtStage link.new) }
{
    match word {
        b"synthetic_group" => add_symbols(alloc, text, link),
        b"table" => {
            link.write_table(text)?;
            Ok(true)
        }
        b"wrap" => {
            link.wrap(alloc)?;
            done(text)
        }
        b"release" => {
            link.release();
            done(text)
        }
        b"rust" => {
            link.free_listed();
            done(text)
        }
        _ => Ok(false),
    }
}

/// Does what a line says. Says whether it changes a link.
pub fn change<R: Threads + Sync, P: Platform + Sync>(
    rt: &R,
    alloc: Global,
    text: &mut String,
    link: &mut Link<P>,
    files: &mut Gathered,
    words: &[&[u8]],
) -> Result<bool, Fault>
    requires { IsAtStage link.old }
    ensures { OnOk result (IsAtStage link.new) }
{
    match words {
        [b"add"] => add(rt, alloc, text, link, files),
        [word] => change_all(alloc, text, link, word),
        [b"synthetic", name] => add_symbol(alloc, text, link, name),
        [b"override", name, symbol] => override_name(alloc, text, link, name, symbol),
        [b"point", symbol, definition] => point(text, link, symbol, definition),
        [b"group", input, entry] => add_script(alloc, text, link, input, entry),
        _ => Ok(false),
    }
}
