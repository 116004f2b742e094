//! A word of flags for each symbol.

ghost use Rattle.std.specs.Prelude.{◌≡◌, ◌==◌, ◌++◌, [], ◌∷◌, ◌+◌, ◌<◌, ◌≤◌, List, IsOk, OnOk, OnErr, length, slice_range};

use crate::value_flags::{RawFlags, ValueFlags};
use bitflags::Flags;
use link_ids::{SymbolId, SymbolIdRange};
use std::alloc::{AllocError, Global};

/// The words of flags of symbols, in the order of their ids from 0. Mirrors Wild's `PerSymbolFlags`.
#[derive(Debug, Drop)]
pub struct PerSymbolFlags {
    words: Vec<RawFlags>,
}

impl PerSymbolFlags {
    ghost use Rattle.std.specs.Borrow.{sem};
    ghost use Rattle.link_flags.specs.FlagWords.{words_of, room_of, with_flag, LendsWords};

    /// No word. Takes no memory.
    pub fn new(alloc: Global) -> Self
        ensures { words_of result ≡ [] }
    {
        PerSymbolFlags {
            words: Vec::new(alloc),
        }
    }

    /// Adds the word of the next symbol. Fails only where there is no room and no memory for more.
    pub fn push(&mut self, flags: ValueFlags) -> Result<(), AllocError>
        ensures ok { OnOk result (words_of self.new ≡ words_of self.old ++ record { 0 = flags.0 } ∷ []) }
        ensures err { OnErr result (words_of self.new ≡ words_of self.old) }
        ensures succeeds { length (words_of self.old) < room_of self.old → IsOk result }
    {
        self.words.push(flags.raw())?;
        Ok(())
    }

    /// Makes room for n words more.
    pub fn reserve(&mut self, n: usize) -> Result<(), AllocError>
        ensures same { words_of self.new ≡ words_of self.old }
        ensures room { OnOk result (length (words_of self.new) + n ≤ room_of self.new) }
    {
        self.words.reserve(n)
    }

    /// How many words there are.
    pub fn len(&self) -> usize
        ensures { result ≡ length (words_of self.now) }
    {
        self.words.len()
    }

    /// There are none.
    pub fn is_empty(&self) -> bool
        ensures { result ≡ (length (words_of self.now) == 0) }
    {
        self.words.is_empty()
    }

    /// Adds flags to those of a symbol that has a word.
    pub fn set_flag(&mut self, symbol: SymbolId, flags: ValueFlags)
        requires { symbol < length (words_of self.old) }
        ensures { words_of self.new ≡ with_flag (words_of self.old) symbol flags.0 }
    {
        let index = symbol.as_usize();
        let word = self.words[index];
        self.words[index] = word.get().union(flags).raw();
    }

    /// Lends the words of a range of symbols that all have one.
    pub fn raw_range(&self, range: SymbolIdRange) -> &[RawFlags]
        requires { range.start + range.len ≤ length (words_of self.now) }
        ensures { result.now ≡ slice_range (words_of self.now) range.start (range.start + range.len) }
    {
        &self.words[range.as_usize()]
    }

    /// Lends all words. Their number stays.
    pub fn flags_mut(&mut self) -> &mut [RawFlags]
        ensures* writes_back { sem 𝓛 (LendsWords self.entry result) }
        ensures value { result.now ≡ words_of self.old }
    {
        self.words.as_mut_slice()
    }
}

/// What knows the flags of symbols. Mirrors Wild's `FlagsForSymbol`.
pub trait FlagsForSymbol {
    ghost use Rattle.std.specs.Prelude.{List};
    ghost use Rattle.link_flags.specs.declared.value_flags.RawFlags.{RawFlags};
    ghost use Rattle.link_flags.specs.FlagWords.{bits_at};

    /// The words, in the order of the symbols.
    ghost words: { Self → List RawFlags };

    /// The flags of a symbol that has a word.
    fn flags_for_symbol(&self, symbol: SymbolId) -> ValueFlags
        requires { symbol < length (words self.now) }
        ensures { result.0 ≡ bits_at (words self.now) symbol };
}

impl FlagsForSymbol for PerSymbolFlags {
    ghost use Rattle.link_flags.specs.FlagWords.{words_of};

    ghost words = { words_of };

    fn flags_for_symbol(&self, symbol: SymbolId) -> ValueFlags {
        self.words[symbol.as_usize()].get()
    }
}
