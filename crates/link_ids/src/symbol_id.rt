//! The number of a symbol.

ghost use Rattle.std.specs.Prelude.{◌≡◌, ℕ, ◌+◌, ◌<◌, ◌≤◌, ◌^◌, ◌↔◌, IsTrue};
ghost use Rattle.link_ids.specs.Span.{IsInside, offset_in};

use crate::indexes::SymbolIndex;
use crate::shard_key::ShardKey;
use crate::symbol_id_range::SymbolIdRange;
use std::fmt;
use std::marker::Model;
use thiserror::Error;

/// The number of a symbol in a link: its place in the list of all symbols of all files. 0 is the undefined symbol of
/// the prelude. Mirrors Wild's `SymbolId`. A contract sees it as the number, which is below 2^32.
#[derive(Clone, Copy, Debug, PartialEq, Eq, PartialOrd, Ord, Hash)]
pub struct SymbolId(u32);

impl Model for SymbolId {
    ghost Value = { ℕ };

    ghost view = { λ s. s.0 };

    ghost inverse = { λ n. record { 0 = n } };
}

/// A number of symbols that no id can name.
#[derive(Clone, Copy, Debug, PartialEq, Eq, Error)]
#[error("too many symbols: {0}")]
pub struct TooManySymbols(pub usize);

impl SymbolId {
    /// The symbol that stands for no definition.
    pub fn undefined() -> Self
        ensures { result ≡ 0 }
    {
        SymbolId(0)
    }

    /// The first symbol, which is the undefined one.
    pub fn zero() -> Self
        ensures { result ≡ 0 }
    {
        SymbolId(0)
    }

    /// The symbol of this number. `try_from` is the test.
    pub fn from_usize(n: usize) -> Self
        requires { n < 2 ^ 32 }
        ensures { result ≡ n }
    {
        SymbolId(n as u32)
    }

    /// Its number.
    pub fn as_usize(self) -> usize
        ensures value { result ≡ self }
        ensures fits { result < 2 ^ 32 }
    {
        self.0 as usize
    }

    /// The symbol n places further on.
    pub fn add_usize(self, n: usize) -> Self
        requires { self + n < 2 ^ 32 }
        ensures { result ≡ self + n }
    {
        SymbolId(self.0 + n as u32)
    }

    /// The symbol after it.
    pub fn next(self) -> Self
        requires { self + 1 < 2 ^ 32 }
        ensures { result ≡ self + 1 }
    {
        SymbolId(self.0 + 1)
    }

    /// How many places it lies behind the base.
    pub fn offset_from(self, base: SymbolId) -> usize
        requires { base ≤ self }
        ensures { result + base ≡ self }
    {
        (self.0 - base.0) as usize
    }

    /// Its offset in a range that contains it. `contains` is the test.
    pub fn to_offset(self, range: SymbolIdRange) -> usize
        requires { IsInside range self }
        ensures value { result ≡ offset_in range self }
        ensures inside { result < range.len }
    {
        range.id_to_offset(self)
    }

    /// Its place in the symbol table of the file that has the range. `contains` is the test.
    pub fn to_input(self, range: SymbolIdRange) -> SymbolIndex
        requires { IsInside range self }
        ensures value { result ≡ offset_in range self }
        ensures inside { result < range.len }
    {
        range.id_to_input(self)
    }

    /// It is the undefined symbol.
    pub fn is_undefined(self) -> bool
        ensures { IsTrue result ↔ (self ≡ 0) }
    {
        self.0 == 0
    }
}

impl ShardKey for SymbolId {
    ghost number = { λ s. s };

    ghost determined = { λ x y e. e };

    fn zero() -> Self {
        SymbolId::zero()
    }

    fn add_usize(self, n: usize) -> Self {
        SymbolId(self.0 + n as u32)
    }
}

impl Default for SymbolId {
    ghost is_default = { λ s. s ≡ 0 };

    fn default() -> Self {
        SymbolId::undefined()
    }
}

impl TryFrom<usize> for SymbolId {
    ghost use Rattle.link_ids.specs.Numbers.{try_symbol_id};

    type Error = TooManySymbols;

    ghost try_from_gives = { λ n r. r ≡ try_symbol_id n };

    fn try_from(n: usize) -> Result<SymbolId, TooManySymbols> {
        if n < 4_294_967_296 {
            Ok(SymbolId(n as u32))
        } else {
            Err(TooManySymbols(n))
        }
    }
}

impl fmt::Display for SymbolId {
    ghost use Rattle.std.specs.Prelude.{decimal, Some};

    ghost output = { λ s. Some (decimal s) };

    fn fmt<W: fmt::Write>(&self, f: &mut fmt::Formatter<W>) -> fmt::Result {
        let number = self.0;
        write!(f, "{number}")
    }
}
