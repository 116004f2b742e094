//! The flags with which symbols begin.

ghost use Rattle.std.specs.Prelude.{◌≡◌, ◌<◌, ◌≤◌, ◌^◌, All, slice_index};
ghost use Rattle.link_flags.specs.FlagWords.{numbers_of, words_of};
ghost use Rattle.link_resolve_extraction.specs.Planned.{opening_of};

use bitflags::Flags;
use link_flags::{FlagsForSymbol, PerSymbolFlags, ValueFlags};
use link_ids::SymbolId;

/// The flags of the symbol with this id; none where it has no word.
pub(crate) fn opening_flags(flags: &PerSymbolFlags, symbol: SymbolId) -> ValueFlags
    ensures { result.0 ≡ slice_index (numbers_of (words_of flags.now)) symbol }
{
    if symbol.as_usize() < flags.len() {
        flags.flags_for_symbol(symbol)
    } else {
        ValueFlags::empty()
    }
}

/// The bits of the flags of so many symbols are small, as those of each are a `u32`. What is read is not used, so that a program that
/// was optimised reads none of them.
pub(crate) fn opening_bits_are_small(flags: &PerSymbolFlags, symbols: usize)
    requires { symbols ≤ 2 ^ 32 }
    ensures { All (λ bits. bits < 2 ^ 32) (opening_of symbols (numbers_of (words_of flags.now))) }
{
    for symbol in 0..symbols {
        let _bits = opening_flags(flags, SymbolId::from_usize(symbol)).bits();
    }
}
