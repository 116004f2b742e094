//! The numbers of the sections of a link.

ghost use Rattle.std.specs.Prelude.{◌≡◌, ℕ, ◌+◌, ◌<◌, ◌^◌, ◌↔◌, IsTrue};
ghost use Rattle.link_ids.specs.Span.{IsInside, id_at};

use crate::indexes::InputSectionIndex;
use crate::shard_key::ShardKey;
use std::marker::Model;
use std::ops::Range;

/// The number of a section among the sections of all files of a link. Mirrors Wild's `InputSectionId`. A contract sees
/// it as the number, which is below 2^32.
#[derive(Clone, Copy, Debug, PartialEq, Eq, PartialOrd, Ord, Hash)]
pub struct InputSectionId(u32);

impl Model for InputSectionId {
    ghost Value = { ℕ };

    ghost view = { λ s. s.0 };

    ghost inverse = { λ n. record { 0 = n } };
}

impl InputSectionId {
    /// The section of this number. `u32::try_from` is the test.
    pub fn from_usize(n: usize) -> Self
        requires { n < 2 ^ 32 }
        ensures { result ≡ n }
    {
        InputSectionId(n as u32)
    }

    /// Its number.
    pub fn as_usize(self) -> usize
        ensures value { result ≡ self }
        ensures fits { result < 2 ^ 32 }
    {
        self.0 as usize
    }

    /// The section n places further on.
    pub fn add_usize(self, n: usize) -> Self
        requires { self + n < 2 ^ 32 }
        ensures { result ≡ self + n }
    {
        InputSectionId(self.0 + n as u32)
    }
}

impl ShardKey for InputSectionId {
    ghost number = { λ s. s };

    ghost determined = { λ x y e. e };

    fn zero() -> Self {
        InputSectionId(0)
    }

    fn add_usize(self, n: usize) -> Self {
        InputSectionId(self.0 + n as u32)
    }
}

/// Sections that follow one another: those of one file. Mirrors Wild's `SectionIdRange`. A contract sees the first
/// number and how many there are; the end is below 2^32.
#[derive(Clone, Copy, Debug, PartialEq, Eq, Hash)]
pub struct SectionIdRange {
    start: InputSectionId,
    len: u32,
}

impl Model for SectionIdRange {
    ghost use Rattle.std.specs.Prelude.{ℕ, ◌+◌, ◌<◌, ◌^◌};
    ghost use Rattle.link_ids.specs.Span.{Span};

    ghost Value = { Span };

    ghost view = { λ r. record { start = r.start; len = r.len } };

    ghost invariant = { λ r. r.start + r.len < 2 ^ 32 };

    ghost inverse = { λ s. record { start = s.start; len = s.len } };
}

impl SectionIdRange {
    /// The n sections of a file, from the start on.
    pub fn input(start: InputSectionId, n: usize) -> Self
        requires { start + n < 2 ^ 32 }
        ensures { result ≡ record { start = start; len = n } }
    {
        SectionIdRange {
            start,
            len: n as u32,
        }
    }

    /// No section.
    pub fn empty() -> Self
        ensures { result ≡ record { start = 0; len = 0 } }
    {
        SectionIdRange {
            start: InputSectionId(0),
            len: 0,
        }
    }

    /// How many sections there are.
    pub fn len(self) -> usize
        ensures value { result ≡ self.len }
        ensures fits { self.start + result < 2 ^ 32 }
    {
        self.len as usize
    }

    /// There are none.
    pub fn is_empty(self) -> bool
        ensures { IsTrue result ↔ (self.len ≡ 0) }
    {
        self.len == 0
    }

    /// The first section, or the one before which an empty range stands.
    pub fn start(self) -> InputSectionId
        ensures value { result ≡ self.start }
        ensures fits { result + self.len < 2 ^ 32 }
    {
        self.start
    }

    /// The numbers of the sections, as the range of indexes that a table by sections has for them.
    pub fn as_usize(self) -> Range<usize>
        ensures start { result.start ≡ self.start }
        ensures end { result.end ≡ self.start + self.len }
        ensures fits { result.end < 2 ^ 32 }
    {
        let start = self.start.as_usize();
        start..start + self.len as usize
    }

    /// The number of the section at a place in the file's section header table.
    pub fn input_to_id(self, input: InputSectionIndex) -> InputSectionId
        requires { input < self.len }
        ensures value { result ≡ id_at self input }
        ensures inside { IsInside self result }
    {
        self.start.add_usize(input.as_usize())
    }
}

impl Default for SectionIdRange {
    ghost is_default = { λ r. r ≡ record { start = 0; len = 0 } };

    fn default() -> Self {
        SectionIdRange::empty()
    }
}
