//! Runs of symbol ids.

ghost use Rattle.std.specs.Prelude.{◌≡◌, ℕ, ◌+◌, ◌-◌, ◌<◌, ◌≤◌, ◌^◌, ◌↔◌, IsTrue};
ghost use Rattle.std.specs.Iterator.{YieldsFirst, item_count};
ghost use Rattle.link_ids.specs.Span.{Span, IsInside, id_at, offset_in, ids_of, NumbersAndOffsetsAreInverse, ListsTheRun};

use crate::indexes::SymbolIndex;
use crate::symbol_id::SymbolId;
use std::marker::Model;
use std::ops::Range;

/// Symbols that follow one another: those of one file, or of several files side by side. Mirrors Wild's
/// `SymbolIdRange`. A contract sees the first number and how many there are; the end is below 2^32.
#[derive(Clone, Copy, Debug, PartialEq, Eq, Hash)]
pub struct SymbolIdRange {
    start: SymbolId,
    len: u32,
}

impl Model for SymbolIdRange {
    ghost use Rattle.std.specs.Prelude.{ℕ, ◌+◌, ◌<◌, ◌^◌};
    ghost use Rattle.link_ids.specs.Span.{Span};

    ghost Value = { Span };

    ghost view = { λ r. record { start = r.start; len = r.len } };

    ghost invariant = { λ r. r.start + r.len < 2 ^ 32 };

    ghost inverse = { λ s. record { start = s.start; len = s.len } };
}

impl SymbolIdRange {
    /// The first n symbols of a link, those of the prelude.
    pub fn prelude(n: usize) -> Self
        requires { n < 2 ^ 32 }
        ensures { result ≡ record { start = 0; len = n } }
    {
        SymbolIdRange::input(SymbolId::zero(), n)
    }

    /// The n symbols of a file, from the start on.
    pub fn input(start: SymbolId, n: usize) -> Self
        requires { start + n < 2 ^ 32 }
        ensures { result ≡ record { start = start; len = n } }
    {
        SymbolIdRange {
            start,
            len: n as u32,
        }
    }

    /// No symbol.
    pub fn empty() -> Self
        ensures { result ≡ record { start = 0; len = 0 } }
    {
        SymbolIdRange {
            start: SymbolId::zero(),
            len: 0,
        }
    }

    /// From the start of one range to the end of another, which may not lie before it.
    pub fn covering(first: SymbolIdRange, last: SymbolIdRange) -> Self
        requires { first.start ≤ last.start + last.len }
        ensures start { result.start ≡ first.start }
        ensures end { result.start + result.len ≡ last.start + last.len }
    {
        let end = last.start.as_usize() + last.len as usize;
        SymbolIdRange {
            start: first.start,
            len: (end - first.start.as_usize()) as u32,
        }
    }

    /// How many symbols there are.
    pub fn len(self) -> usize
        ensures value { result ≡ self.len }
        ensures fits { self.start + result < 2 ^ 32 }
    {
        self.len as usize
    }

    /// There are none.
    pub fn is_empty(self) -> bool
        ensures { IsTrue result ↔ (self.len ≡ 0) }
    {
        self.len == 0
    }

    /// The first symbol, or the one before which an empty range stands.
    pub fn start(self) -> SymbolId
        ensures value { result ≡ self.start }
        ensures fits { result + self.len < 2 ^ 32 }
    {
        self.start
    }

    /// The numbers of the symbols, as the range of indexes that a table by symbols has for them.
    pub fn as_usize(self) -> Range<usize>
        ensures start { result.start ≡ self.start }
        ensures end { result.end ≡ self.start + self.len }
        ensures fits { result.end < 2 ^ 32 }
    {
        let start = self.start.as_usize();
        start..start + self.len as usize
    }

    /// The symbol is in the range.
    pub fn contains(self, id: SymbolId) -> bool
        ensures { IsTrue result ↔ IsInside self id }
    {
        self.start <= id && id.offset_from(self.start) < self.len as usize
    }

    /// The symbol at an offset.
    pub fn offset_to_id(self, offset: usize) -> SymbolId
        requires { offset < self.len }
        ensures value { result ≡ id_at self offset }
        ensures inside { IsInside self result }
    {
        self.start.add_usize(offset)
    }

    /// The offset of a symbol. `contains` is the test.
    pub fn id_to_offset(self, id: SymbolId) -> usize
        requires { IsInside self id }
        ensures value { result ≡ offset_in self id }
        ensures inside { result < self.len }
    {
        id.offset_from(self.start)
    }

    /// The place in the file's symbol table of the symbol at an offset: the same number.
    pub fn offset_to_input(self, offset: usize) -> SymbolIndex
        requires { offset < self.len }
        ensures { result ≡ offset }
    {
        SymbolIndex::from_usize(offset)
    }

    /// The offset of the symbol at a place in the file's symbol table: the same number.
    pub fn input_to_offset(self, input: SymbolIndex) -> usize
        requires { input < self.len }
        ensures { result ≡ input }
    {
        input.as_usize()
    }

    /// The symbol at a place in the file's symbol table.
    pub fn input_to_id(self, input: SymbolIndex) -> SymbolId
        requires { input < self.len }
        ensures value { result ≡ id_at self input }
        ensures inside { IsInside self result }
    {
        self.offset_to_id(input.as_usize())
    }

    /// The place of a symbol in the file's symbol table. `contains` is the test.
    pub fn id_to_input(self, id: SymbolId) -> SymbolIndex
        requires { IsInside self id }
        ensures value { result ≡ offset_in self id }
        ensures inside { result < self.len }
    {
        SymbolIndex::from_usize(self.id_to_offset(id))
    }
}

impl Default for SymbolIdRange {
    ghost is_default = { λ r. r ≡ record { start = 0; len = 0 } };

    fn default() -> Self {
        SymbolIdRange::empty()
    }
}

/// The symbols of a range in rising order, then nothing for good.
#[derive(Clone, Debug, Drop)]
pub struct SymbolIdRangeIterator {
    left: SymbolIdRange,
}

impl Model for SymbolIdRangeIterator {
    ghost use Rattle.link_ids.specs.Span.{Span};

    ghost Value = { Span };

    ghost view = { λ r. r.left };
}

impl Iterator for SymbolIdRangeIterator {
    type Item = SymbolId;

    ghost next_gives = { YieldsFirst ids_of };

    ghost remaining = { item_count ids_of };

    fn next(&mut self) -> Option<SymbolId> {
        let left = self.left;
        let len = left.len();
        if len == 0 {
            return None;
        }
        let first = left.start();
        self.left = SymbolIdRange::input(first.next(), len - 1);
        Some(first)
    }
}

impl IntoIterator for SymbolIdRange {
    type Item = SymbolId;

    type IntoIter = SymbolIdRangeIterator;

    ghost into_iter_gives = { λ r it. it ≡ r };

    fn into_iter(self) -> SymbolIdRangeIterator {
        SymbolIdRangeIterator { left: self }
    }
}

/// A law: inside any range, ids and offsets lead to each other; places in the symbol table are offsets.
pub fn ids_and_offsets_are_inverse()
    ensures { (s : Span) → NumbersAndOffsetsAreInverse s }
{}

/// A law: the list that a range is iterated by rises, and has exactly the ids of the range.
pub fn ranges_list_their_ids()
    ensures { (s : Span) → ListsTheRun s }
{}
