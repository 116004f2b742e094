//! By which of its names a symbol is found.

ghost use Rattle.std.specs.Prelude.{◌≡◌, Bool};
ghost use Rattle.link_input.specs.Symbols.{in_prelude, in_script, in_stub, stub_strength, symbol_of};
ghost use Rattle.link_input.specs.declared.world.StubSymbol.{StubSymbol};
ghost use Rattle.link_rules.specs.Names.{is_defining, is_listed, is_version_listed};
ghost use Rattle.link_rules.specs.World.{is_concealed};
ghost use Rattle.link_db_ingest.specs.Files.{entry_symbol};

use link_input::{InternalSymDefInfo, SymbolPlacement, SymbolRow};

/// By which of its names a symbol is found.
#[derive(Clone, Copy)]
pub struct Listing {
    /// By its plain name.
    pub plain: bool,
    /// By its name and version.
    pub versioned: bool,
}

/// How an entry of an object is found, where it is known whether the entry is to be passed over, as a hidden one of a shared
/// object is.
pub fn listing_of_row(is_ignored: bool, row: &SymbolRow) -> Listing
    ensures plain { (is_dynamic : Bool) → is_ignored ≡ is_concealed (entry_symbol is_dynamic row.now).origin
        → result.plain ≡ is_listed (entry_symbol is_dynamic row.now) }
    ensures versioned { (is_dynamic : Bool) → is_ignored ≡ is_concealed (entry_symbol is_dynamic row.now).origin
        → result.versioned ≡ is_version_listed (entry_symbol is_dynamic row.now) }
{
    let is_found = !row.is_undefined() && !is_ignored && !row.is_local();
    Listing {
        plain: is_found && row.is_default(),
        versioned: is_found && row.version().is_some(),
    }
}

/// Whether a symbol stands at the place, so that it defines its name.
fn is_defining(placement: &SymbolPlacement) -> bool
    ensures { result ≡ is_defining placement.now }
{
    !matches!(
        placement,
        SymbolPlacement::Undefined | SymbolPlacement::ForceUndefined
    )
}

/// How a symbol of the prelude is found.
pub fn listing_of_definition(definition: &InternalSymDefInfo) -> Listing
    ensures plain { result.plain ≡ is_listed (symbol_of definition.now.name (in_prelude definition.now)) }
    ensures versioned { result.versioned ≡ is_version_listed (symbol_of definition.now.name (in_prelude definition.now)) }
{
    Listing {
        plain: is_defining(&definition.placement),
        versioned: false,
    }
}

/// How a symbol of a linker script is found.
pub fn listing_of_script_symbol(definition: &InternalSymDefInfo) -> Listing
    ensures plain { result.plain ≡ is_listed (symbol_of definition.now.name (in_script definition.now)) }
    ensures versioned { result.versioned ≡ is_version_listed (symbol_of definition.now.name (in_script definition.now)) }
{
    Listing {
        plain: !definition.name.is_empty(),
        versioned: false,
    }
}

/// How each symbol of a stub library is found.
pub fn listing_of_stub_symbol() -> Listing
    ensures plain { (symbol : StubSymbol) → result.plain ≡ is_listed (symbol_of symbol.name (in_stub (stub_strength symbol))) }
    ensures versioned { (symbol : StubSymbol) → result.versioned ≡ is_version_listed (symbol_of symbol.name (in_stub (stub_strength symbol))) }
{
    Listing {
        plain: true,
        versioned: false,
    }
}
