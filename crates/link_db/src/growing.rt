//! Columns that grow with the symbols.

ghost use Rattle.std.specs.Prelude.{◌≡◌, ◌-◌, ◌<◌, ◌≤◌, ◌^◌, ◌++◌, IfOk, OnOk, length, map};
ghost use Rattle.std.specs.List.{range_with_len};
ghost use Rattle.link_flags.specs.FlagWords.{numbers_of, words_of};
ghost use Rattle.link_db.specs.Adding.{flags_in};

use link_db_ingest::ReadSymbols;
use link_flags::{PerSymbolFlags, RawFlags, ValueFlags};
use link_ids::{SymbolId, SymbolIdRange};
use std::alloc::{AllocError, Global};

/// The ids from `first` up to `end`: an entry for each symbol that points to itself.
pub fn new_entries(alloc: Global, first: usize, end: usize) -> Result<Vec<SymbolId>, AllocError>
    requires order { first ≤ end }
    requires fits { end < 2 ^ 32 }
    ensures { IfOk result (λ entries. entries.items ≡ range_with_len first (end - first)) }
{
    let mut entries = Vec::with_capacity(alloc, end - first)?;
    for number in first..end {
        entries.push(SymbolId::from_usize(number))?;
    }
    Ok(entries)
}

/// Adds words.
fn push_words(flags: &mut PerSymbolFlags, words: &[RawFlags]) -> Result<(), AllocError>
    ensures { OnOk result (numbers_of (words_of flags.new) ≡ numbers_of (words_of flags.old) ++ numbers_of words.now) }
{
    for word in words {
        flags.push(word.get())?;
    }
    Ok(())
}

/// Adds the flags of symbols that were read.
fn push_flags(flags: &mut PerSymbolFlags, read: &[ValueFlags]) -> Result<(), AllocError>
    ensures { OnOk result (numbers_of (words_of flags.new) ≡ numbers_of (words_of flags.old) ++ map (λ f. f.0) read.now) }
{
    for value in read {
        flags.push(*value)?;
    }
    Ok(())
}

/// Adds the flags of symbols that were read in parts.
fn push_parts(flags: &mut PerSymbolFlags, parts: &[ReadSymbols]) -> Result<(), AllocError>
    ensures { OnOk result (numbers_of (words_of flags.new) ≡ numbers_of (words_of flags.old) ++ flags_in parts.now) }
{
    for part in parts {
        push_flags(flags, part.flags.as_slice())?;
    }
    Ok(())
}

/// The words that there are, and those of the symbols that were read behind them, of which there are so many.
pub fn grown_flags(
    alloc: Global,
    flags: &PerSymbolFlags,
    more: usize,
    parts: &[ReadSymbols],
) -> Result<PerSymbolFlags, AllocError>
    requires { length (words_of flags.now) < 2 ^ 32 }
    ensures { IfOk result (λ grown. numbers_of (words_of grown) ≡ numbers_of (words_of flags.now) ++ flags_in parts.now) }
{
    let mut grown = PerSymbolFlags::new(alloc);
    grown.reserve(flags.len().saturating_add(more))?;
    let all = SymbolIdRange::prelude(flags.len());
    push_words(&mut grown, flags.raw_range(all))?;
    push_parts(&mut grown, parts)?;
    Ok(grown)
}
