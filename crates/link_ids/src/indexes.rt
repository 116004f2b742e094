//! Places in the tables of one input.

ghost use Rattle.std.specs.Prelude.{◌≡◌, ℕ, ◌<◌, ◌^◌};

use std::marker::Model;

/// The place of a symbol in the symbol table of its file, from 0. A contract sees it as the number.
#[derive(Clone, Copy, Debug, PartialEq, Eq, PartialOrd, Ord, Hash)]
pub struct SymbolIndex(u32);

impl Model for SymbolIndex {
    ghost Value = { ℕ };

    ghost view = { λ s. s.0 };

    ghost inverse = { λ n. record { 0 = n } };
}

impl SymbolIndex {
    /// The place of this number.
    pub fn new(number: u32) -> Self
        ensures { result ≡ number }
    {
        SymbolIndex(number)
    }

    /// The place of this number. `u32::try_from` is the test.
    pub fn from_usize(n: usize) -> Self
        requires { n < 2 ^ 32 }
        ensures { result ≡ n }
    {
        SymbolIndex(n as u32)
    }

    /// Its number.
    pub fn as_usize(self) -> usize
        ensures value { result ≡ self }
        ensures fits { result < 2 ^ 32 }
    {
        self.0 as usize
    }
}

/// The place of a section in the section header table of its file, from 0, which is the null section. A contract sees
/// it as the number.
#[derive(Clone, Copy, Debug, PartialEq, Eq, PartialOrd, Ord, Hash)]
pub struct SectionIndex(u32);

impl Model for SectionIndex {
    ghost Value = { ℕ };

    ghost view = { λ s. s.0 };

    ghost inverse = { λ n. record { 0 = n } };
}

impl SectionIndex {
    /// The place of this number.
    pub fn new(number: u32) -> Self
        ensures { result ≡ number }
    {
        SectionIndex(number)
    }

    /// The place of this number. `u32::try_from` is the test.
    pub fn from_usize(n: usize) -> Self
        requires { n < 2 ^ 32 }
        ensures { result ≡ n }
    {
        SectionIndex(n as u32)
    }

    /// Its number.
    pub fn as_usize(self) -> usize
        ensures value { result ≡ self }
        ensures fits { result < 2 ^ 32 }
    {
        self.0 as usize
    }
}

/// A section of an input as the link counts it: the place in the section header table of its file. Mirrors Wild's
/// `InputSectionIndex`. A contract sees it as the number.
#[derive(Clone, Copy, Debug, PartialEq, Eq, PartialOrd, Ord, Hash)]
pub struct InputSectionIndex(u32);

impl Model for InputSectionIndex {
    ghost Value = { ℕ };

    ghost view = { λ s. s.0 };

    ghost inverse = { λ n. record { 0 = n } };
}

impl InputSectionIndex {
    /// The section of this number.
    pub fn new(number: u32) -> Self
        ensures { result ≡ number }
    {
        InputSectionIndex(number)
    }

    /// The section of this number. `u32::try_from` is the test.
    pub fn from_usize(n: usize) -> Self
        requires { n < 2 ^ 32 }
        ensures { result ≡ n }
    {
        InputSectionIndex(n as u32)
    }

    /// Its number.
    pub fn as_usize(self) -> usize
        ensures value { result ≡ self }
        ensures fits { result < 2 ^ 32 }
    {
        self.0 as usize
    }
}

impl From<SectionIndex> for InputSectionIndex {
    ghost from_gives = { λ s r. r ≡ s };

    fn from(section: SectionIndex) -> InputSectionIndex {
        InputSectionIndex(section.0)
    }
}

impl From<InputSectionIndex> for SectionIndex {
    ghost from_gives = { λ s r. r ≡ s };

    fn from(section: InputSectionIndex) -> SectionIndex {
        SectionIndex(section.0)
    }
}
