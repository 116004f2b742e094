//! The flags of a symbol as its file is read.

ghost use Rattle.std.specs.Prelude.{◌≡◌, ◌||◌, ℕ, not, is_some, if◌then◌else◌};
ghost use Rattle.std.specs.Int.RustNames.{bit_or};
ghost use Rattle.link_flags.specs.FlagBits as flag;
ghost use Rattle.link_flags.specs.declared.strength.SymbolStrength.{SymbolStrength};
ghost use Rattle.link_input.specs.Entries.{is_local, is_tls, is_undefined};
ghost use Rattle.link_rules.specs.Flags.{flags_if};
ghost use Rattle.link_input.specs.Symbols.{in_object, in_prelude, in_script, in_stub};
ghost use Rattle.link_rules.specs.Opening.{has_location, place_flags, placement_flags, shared_flags, source_flags, regular_flags, script_flags, is_non_interposable};
ghost use Rattle.link_rules.specs.World.{Stage};
ghost use Rattle.link_db_texts.specs.Holds.{AreRulesOf, platform_of};

use crate::texts::TextRules;
use bitflags::Flags;
use link_flags::ValueFlags;
use link_input::{InternalSymDefInfo, OutputKind, Platform, SymbolLoc, SymbolPlacement, SymbolRow};
use link_script::Demangler;

/// Whether a redirect stands at a section or between sections.
fn has_location(loc: SymbolLoc) -> bool
    ensures { result ≡ has_location loc }
{
    !matches!(loc, SymbolLoc::None)
}

/// The flags of where a symbol of the linker stands.
fn flags_of_placement(placement: &SymbolPlacement) -> ValueFlags
    ensures { result.0 ≡ placement_flags placement.now }
{
    match placement {
        SymbolPlacement::Undefined | SymbolPlacement::ForceUndefined => ValueFlags::ABSOLUTE,
        SymbolPlacement::SectionStart(_)
        | SymbolPlacement::SectionEnd(_)
        | SymbolPlacement::TlsEnd(_)
        | SymbolPlacement::SectionGroupEnd(_)
        | SymbolPlacement::LoadBaseAddress => ValueFlags::NON_INTERPOSABLE,
        SymbolPlacement::Redirect(redirect) => {
            if has_location(redirect.loc) {
                ValueFlags::NON_INTERPOSABLE
            } else {
                ValueFlags::NON_INTERPOSABLE.union(ValueFlags::ABSOLUTE)
            }
        }
        SymbolPlacement::PlatformSpecific => {
            ValueFlags::NON_INTERPOSABLE.union(ValueFlags::ABSOLUTE)
        }
    }
}

/// The flags, with `DOWNGRADE_TO_LOCAL` where the symbol is hidden.
fn hidden_if(hidden: bool, flags: ValueFlags) -> ValueFlags
    ensures { result.0 ≡ bit_or flags.0 (if hidden then flag.downgrade_to_local else 0) }
{
    if hidden {
        flags.union(ValueFlags::DOWNGRADE_TO_LOCAL)
    } else {
        flags
    }
}

/// The flags of a symbol of the prelude.
pub fn flags_of_definition(definition: &InternalSymDefInfo) -> ValueFlags
    ensures { (w : Stage) → result.0 ≡ source_flags w (in_prelude definition.now) }
{
    hidden_if(definition.hidden, flags_of_placement(&definition.placement))
}

/// The flags of a symbol of a linker script.
pub fn flags_of_script_symbol(definition: &InternalSymDefInfo) -> ValueFlags
    ensures { (w : Stage) → result.0 ≡ source_flags w (in_script definition.now) }
{
    hidden_if(definition.hidden, ValueFlags::NON_INTERPOSABLE)
}

/// The flags of each symbol of a stub library.
pub fn flags_of_stub_symbol() -> ValueFlags
    ensures { (w : Stage) (strength : SymbolStrength) → result.0 ≡ source_flags w (in_stub strength) }
{
    ValueFlags::DYNAMIC
}

/// The flags of an entry of a shared object.
fn shared_flags(row: &SymbolRow) -> ValueFlags
    ensures { result.0 ≡ shared_flags row.now }
{
    let mut flags = ValueFlags::DYNAMIC;
    if row.is_func() || row.is_ifunc() {
        flags = flags.union(ValueFlags::DYNAMIC_FUNCTION);
    }
    if row.is_undefined() {
        flags = flags.union(ValueFlags::ABSOLUTE);
    }
    flags
}

/// The flags of where an entry of a regular object stands.
fn place_flags(row: &SymbolRow) -> ValueFlags
    ensures { result.0 ≡ place_flags row.now }
{
    if row.is_absolute() {
        ValueFlags::ABSOLUTE
    } else if row.is_ifunc() {
        ValueFlags::IFUNC
    } else if row.is_undefined() {
        ValueFlags::ABSOLUTE
    } else {
        ValueFlags::empty()
    }
}

/// Whether no version script settles how far the symbol is seen: it stands in no file yet, or no other file sees it.
fn is_settled(row: &SymbolRow) -> bool
    ensures { result ≡ (is_undefined row.now.place || is_local row.now.binding) }
{
    row.is_undefined() || row.is_local()
}

/// What the version script makes local: all definitions at first where it is of the Rust form, else those that it hides.
fn script_flags<P: Platform, D: Demangler>(
    rules: &TextRules<P>,
    demangler: &D,
    row: &SymbolRow,
) -> ValueFlags
    ensures { (w : Stage) → AreRulesOf (platform_of P.Platform) (D.demangled demangler.now) rules.now w.rules
        → result.0 ≡ script_flags w row.now }
{
    if is_settled(row) {
        ValueFlags::empty()
    } else if rules.rust_names().is_some() {
        ValueFlags::DOWNGRADE_TO_LOCAL
    } else if rules.is_local_name(row.name().as_slice(), demangler) {
        hidden_flags(row)
    } else {
        ValueFlags::empty()
    }
}

/// The flags of a definition that the version script hides; each thread's own symbols may still be interposed.
fn hidden_flags(row: &SymbolRow) -> ValueFlags
    ensures { result.0 ≡ bit_or flag.downgrade_to_local (flags_if (not (is_tls row.now.kind)) flag.non_interposable) }
{
    if row.is_tls() {
        ValueFlags::DOWNGRADE_TO_LOCAL
    } else {
        ValueFlags::DOWNGRADE_TO_LOCAL.union(ValueFlags::NON_INTERPOSABLE)
    }
}

/// Whether no other file may take the symbol's place at run time, by the platform's rule.
fn is_non_interposable<P: Platform, D: Demangler>(
    rules: &TextRules<P>,
    output: OutputKind,
    demangler: &D,
    row: &SymbolRow,
) -> bool
    ensures { (w : Stage) → AreRulesOf (platform_of P.Platform) (D.demangled demangler.now) rules.now w.rules → w.options.output ≡ output
        → result ≡ is_non_interposable w row.now }
{
    P::non_interposable(
        row,
        output,
        rules.is_exported(row.name().as_slice(), demangler),
    )
}

/// The flags of an entry of a regular object.
fn regular_flags<P: Platform, D: Demangler>(
    rules: &TextRules<P>,
    output: OutputKind,
    demangler: &D,
    row: &SymbolRow,
) -> ValueFlags
    ensures { (w : Stage) → AreRulesOf (platform_of P.Platform) (D.demangled demangler.now) rules.now w.rules → w.options.output ≡ output
        → result.0 ≡ regular_flags w row.now }
{
    let mut flags = place_flags(row);
    if is_non_interposable(rules, output, demangler, row) {
        flags = flags.union(ValueFlags::NON_INTERPOSABLE);
    }
    flags.union(script_flags(rules, demangler, row))
}

/// The flags of a symbol of an object, which may be a shared one.
pub fn flags_of_row<P: Platform, D: Demangler>(
    rules: &TextRules<P>,
    output: OutputKind,
    demangler: &D,
    is_dynamic: bool,
    row: &SymbolRow,
) -> ValueFlags
    ensures { (w : Stage) (n : ℕ) → AreRulesOf (platform_of P.Platform) (D.demangled demangler.now) rules.now w.rules → w.options.output ≡ output
        → result.0 ≡ source_flags w (in_object n is_dynamic row.now) }
{
    if is_dynamic {
        shared_flags(row)
    } else {
        regular_flags(rules, output, demangler, row)
    }
}
