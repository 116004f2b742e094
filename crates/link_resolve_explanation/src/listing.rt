//! Whether a symbol is one of the definitions of its name.

ghost use Rattle.std.specs.Prelude.{◌≡◌};
ghost use Rattle.link_rules.specs.Names.{is_defining, is_listed, is_named, is_version_listed};

use link_db_symbols::{SymbolOrigin, SymbolView};
use link_input::SymbolPlacement;

/// It is a definition where the linker puts it: all but the undefined symbol and the names that the user wants to be defined.
fn is_defining(placement: &SymbolPlacement) -> bool
    ensures { result ≡ is_defining placement.now }
{
    !matches!(
        placement,
        SymbolPlacement::Undefined | SymbolPlacement::ForceUndefined
    )
}

/// As a definition it is found by its plain name.
fn is_named(symbol: &SymbolView) -> bool
    ensures { result ≡ is_named symbol.now.name symbol.now.origin }
{
    match symbol.origin() {
        SymbolOrigin::Prelude(definition) => is_defining(&definition.placement),
        SymbolOrigin::Object { row, .. } => !row.is_local() && row.is_default(),
        SymbolOrigin::Script(definition) => !definition.name.is_empty(),
        SymbolOrigin::Stub(_) => true,
    }
}

/// It stands in the list of its plain name.
pub(crate) fn is_listed(symbol: &SymbolView) -> bool
    ensures { result ≡ is_listed symbol.now }
{
    symbol.is_definition() && is_named(symbol)
}

/// It stands in the list of its name and version.
pub(crate) fn is_version_listed(symbol: &SymbolView) -> bool
    ensures { result ≡ is_version_listed symbol.now }
{
    let is_version_named = match symbol.origin() {
        SymbolOrigin::Object { row, .. } => !row.is_local() && row.version().is_some(),
        _ => false,
    };
    symbol.is_definition() && is_version_named
}
