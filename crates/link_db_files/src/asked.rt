//! The names that symbols ask for, by their hash numbers.

ghost use Rattle.std.specs.Prelude.{◌≡◌, ◌++◌, IfOk, None, OnOk, map, replicate};
ghost use Rattle.link_db_files.specs.Asked.{entry_asked, file_asked, group_asked, groups_asked};
ghost use Rattle.link_input_groups.specs.SequencedInputs.{sequenced_file};

use crate::outlines::symbol_count;
use link_db_buckets::key_hash;
use link_input::{InputObject, Platform, SymbolRow};
use link_input_groups::{Group, SequencedInput};
use std::alloc::{AllocError, Global};

/// The hash number of the name, or of the name and version, that an entry asks for: one that is undefined and isn't local asks for one.
fn entry_asked(row: &SymbolRow) -> Option<u64>
    ensures { result ≡ entry_asked row.now }
{
    if row.is_undefined() && !row.is_local() {
        Some(key_hash(row.name().as_slice(), row.version_bytes()))
    } else {
        None
    }
}

/// Adds those of the entries of an object.
fn push_entries<P: Platform>(
    asked: &mut Vec<Option<u64>>,
    object: &InputObject<P>,
) -> Result<(), AllocError>
    ensures { OnOk result (asked.new.items ≡ asked.old.items ++ map entry_asked object.now.symbols) }
{
    for place in 0..object.num_symbols() {
        asked.push(entry_asked(&object.symbol_at(place)))?;
    }
    Ok(())
}

/// Adds that so many symbols ask for nothing.
fn push_none(asked: &mut Vec<Option<u64>>, count: usize) -> Result<(), AllocError>
    ensures { OnOk result (asked.new.items ≡ asked.old.items ++ replicate count None) }
{
    for _ in 0..count {
        asked.push(None)?;
    }
    Ok(())
}

/// Adds those of the symbols of a file.
fn push_file<P: Platform>(
    asked: &mut Vec<Option<u64>>,
    file: &SequencedInput<P>,
) -> Result<(), AllocError>
    ensures { OnOk result (asked.new.items ≡ asked.old.items ++ file_asked (sequenced_file file.now).file) }
{
    match file {
        SequencedInput::Object(object) => push_entries(asked, object.parsed.object()),
        _ => push_none(asked, symbol_count(file)),
    }
}

/// Adds those of the files of a group.
fn push_group<P: Platform>(asked: &mut Vec<Option<u64>>, group: &Group<P>) -> Result<(), AllocError>
    ensures { OnOk result (asked.new.items ≡ asked.old.items ++ group_asked group.now) }
{
    for place in 0..group.num_files() {
        push_file(asked, &group.file(place))?;
    }
    Ok(())
}

/// Those of the files of groups. Room is made for so many symbols at once.
pub(crate) fn groups_asked<P: Platform>(
    alloc: Global,
    symbols: usize,
    groups: &[Group<P>],
) -> Result<Vec<Option<u64>>, AllocError>
    ensures { IfOk result (λ asked. asked.items ≡ groups_asked groups.now) }
{
    let mut asked = Vec::with_capacity(alloc, symbols)?;
    for group in groups {
        push_group(&mut asked, group)?;
    }
    Ok(asked)
}
