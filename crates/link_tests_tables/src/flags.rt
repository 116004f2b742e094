//! Tests of what no contract says.

ghost use Rattle.std.specs.Prelude.{◌≡◌, ◌<◌, IfOk, length};
ghost use Rattle.link_flags.specs.FlagWords.{bits_at, words_of};

use crate::fixtures::shows;
use bitflags::Flags;
use link_flags::{
    FlagsForSymbol, PerSymbolFlags, SymbolPrioritySelector, SymbolStrength, ValueFlags, Visibility,
};
use link_ids::{SymbolId, SymbolIdRange};
use link_names::hash_agrees_with_eq;
use std::alloc::{AllocError, Global};
use std::test::Fail;

#[test]
fn flags_and_visibilities_compare(rt: HostRuntime) {
    hash_agrees_with_eq::<ValueFlags>();
    assert!(rt;
        Visibility::Default < Visibility::Protected && Visibility::Protected < Visibility::Hidden
    );
}

const FLAG_NAMES: &[&str] = &[
    "ABSOLUTE",
    "DYNAMIC",
    "IFUNC",
    "NON_INTERPOSABLE",
    "DOWNGRADE_TO_LOCAL",
    "DYNAMIC_FUNCTION",
    "DIRECT",
    "GOT",
    "PLT",
    "GOT_TLS_MODULE",
    "GOT_TLS_OFFSET",
    "GOT_TLS_DESCRIPTOR",
    "EXPORT_DYNAMIC",
    "COPY_RELOCATION",
    "IFUNC_GOT_FOR_ADDRESS",
    "HAS_RANGE_LIMITED_REL",
    "HAS_NON_IR_REF",
    "CANONICAL_PLT",
    "GOT_FOR_PLT_ENTRY",
    "SYMBOL_SIZE",
    "UNDEFINED_WEAK",
    "GROUP_SIGNATURE",
];

#[test]
fn flags_have_their_bits_and_names(rt: HostRuntime) -> Result<(), Fail> {
    let mut bit = 1u32;
    for &name in FLAG_NAMES {
        shows(&rt, rt.alloc(), &ValueFlags::from_bits_truncate(bit), name)?;
        bit = bit.wrapping_mul(2);
    }
    let all = ValueFlags::all();
    assert!(rt; all.bits() == 0x3f_ffff && all.resolution_flags().bits() == 0xe_7fc0);
    Ok(())
}

#[test]
fn sets_of_flags_are_shown(rt: HostRuntime) -> Result<(), Fail> {
    let two = ValueFlags::ABSOLUTE | ValueFlags::NON_INTERPOSABLE;
    shows(&rt, rt.alloc(), &two, "ABSOLUTE | NON_INTERPOSABLE")?;
    shows(&rt, rt.alloc(), &ValueFlags::empty(), "")
}

/// The flags of a symbol, as code over any keeper of flags reads them.
fn flags_of<F: FlagsForSymbol>(flags: &F, symbol: SymbolId) -> ValueFlags
    requires { symbol < length (F.words flags.now) }
    ensures { result.0 ≡ bits_at (F.words flags.now) symbol }
{
    flags.flags_for_symbol(symbol)
}

/// The words of two symbols.
fn two_words(alloc: Global) -> Result<PerSymbolFlags, AllocError>
    ensures { IfOk result (λ flags. length (words_of flags) ≡ 2) }
{
    let mut flags = PerSymbolFlags::new(alloc);
    flags.reserve(2)?;
    flags.push(ValueFlags::DYNAMIC)?;
    flags.push(ValueFlags::IFUNC)?;
    Ok(flags)
}

/// Whether the words of the two symbols are these, in each way to read them.
fn words_are(flags: &PerSymbolFlags, first: ValueFlags, second: ValueFlags) -> bool
    requires { length (words_of flags.now) ≡ 2 }
{
    let read = flags.len() == 2
        && flags_of(flags, SymbolId::zero()) == first
        && flags_of(flags, SymbolId::from_usize(1)) == second;
    match flags.raw_range(SymbolIdRange::prelude(2)) {
        [one, other] => read && *one == first.raw() && *other == second.raw(),
        _ => false,
    }
}

#[test]
fn each_symbol_has_a_word(rt: HostRuntime) -> Result<(), Fail> {
    let mut flags = two_words(rt.alloc())?;
    let second = ValueFlags::IFUNC | ValueFlags::GOT;
    flags.set_flag(SymbolId::from_usize(1), ValueFlags::GOT);
    let set = words_are(&flags, ValueFlags::DYNAMIC, second);
    flags.flags_mut().reverse();
    let reversed = words_are(&flags, second, ValueFlags::DYNAMIC);
    drop(flags);
    assert!(rt; set && reversed);
    Ok(())
}

/// The answers of a selector: the definition that counts where weak ones stand behind tentative ones, the one where they stand before
/// them, and the first strong one.
type Answers = (Option<u32>, Option<u32>, Option<u32>);

/// Symbols with their strengths, and what is answered once they were considered.
const CONSIDERED: &[(u32, SymbolStrength, Answers)] = &[
    (5, SymbolStrength::Weak, (Some(5), Some(5), None)),
    (7, SymbolStrength::Common(4), (Some(7), Some(5), None)),
    (9, SymbolStrength::Common(8), (Some(9), Some(5), None)),
    (10, SymbolStrength::Common(8), (Some(9), Some(5), None)),
    (11, SymbolStrength::Strong, (Some(11), Some(11), Some(11))),
    (12, SymbolStrength::Strong, (Some(11), Some(11), Some(11))),
];

/// Whether the symbol of this number is found, or none where none is wanted.
fn is_found(found: Option<SymbolId>, want: Option<u32>) -> bool {
    match (found, want) {
        (Some(id), Some(number)) => id.as_usize() == number as usize,
        (None, None) => true,
        _ => false,
    }
}

/// Whether a selector answers so.
fn is_answered(selector: &SymbolPrioritySelector, want: Answers) -> bool {
    is_found(selector.best(false), want.0)
        && is_found(selector.best(true), want.1)
        && is_found(selector.first_strong(), want.2)
}

#[test]
fn the_definition_that_counts_is_picked(rt: HostRuntime) {
    let mut selector = SymbolPrioritySelector::new();
    assert!(rt; is_answered(&selector, (None, None, None)));
    for &(number, strength, want) in CONSIDERED {
        selector.consider(SymbolId::from_usize(number as usize), strength);
        assert!(rt; is_answered(&selector, want), "after {number}");
    }
}
