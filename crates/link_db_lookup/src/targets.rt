//! What a reference stands for.

ghost use Rattle.std.specs.Prelude.{◌≡◌, ◌<◌, ◌||◌, IfSome, length, not};
ghost use Rattle.link_flags.specs.Pick.{pick};
ghost use Rattle.link_db_files.specs.HeldFiles.{is_shared_in, names_in};
ghost use Rattle.link_db_mapping.specs.Seen.{seen};
ghost use Rattle.link_rules.specs.Targets.{mapped_in, target_in, unshared_in};
ghost use Rattle.link_db_lookup.specs.Tables.{name_table_in};

use crate::key::SymbolKey;
use crate::picking::pick_unshared;
use link_db_mapping::SymbolMapping;
use link_ids::SymbolId;
use link_input::Platform;

/// The symbol that a reference to the name, or to the name and version, stands for: what the name is mapped to. A reference that is not of
/// default visibility, and so doesn't allow a dynamic one, passes by a shared definition to the pick of the later definitions of its
/// name that are not shared. None where the name is not mapped, or none of these fits.
pub fn target_of<P: Platform>(
    mapping: &SymbolMapping<P>,
    key: &SymbolKey<'_>,
    allow_dynamic: bool,
) -> Option<SymbolId>
    ensures target { result ≡ target_in P.WEAK_SYMBOLS_OVERRIDE_COMMON (name_table_in (seen mapping.now)) allow_dynamic key.now.name key.now.version }
    ensures within { IfSome result (λ id. id < length (names_in (seen mapping.now).files)) }
{
    let head = mapped(mapping, key)?;
    if is_open(mapping, head, allow_dynamic) {
        Some(head)
    } else {
        pick_later(mapping, head)
    }
}

/// What the name, or the name and version, is mapped to.
fn mapped<P: Platform>(mapping: &SymbolMapping<P>, key: &SymbolKey<'_>) -> Option<SymbolId>
    ensures value { result ≡ mapped_in (name_table_in (seen mapping.now)) key.now.name key.now.version }
    ensures within { IfSome result (λ id. id < length (names_in (seen mapping.now).files)) }
{
    mapping.mapped(key.hash, key.name, key.version)
}

/// Whether the reference may stand for the symbol: it may be dynamic, or the symbol isn't shared.
fn is_open<P: Platform>(mapping: &SymbolMapping<P>, symbol: SymbolId, allow_dynamic: bool) -> bool
    requires { symbol < length (names_in (seen mapping.now).files) }
    ensures { result ≡ (allow_dynamic || not (is_shared_in (seen mapping.now).files symbol)) }
{
    allow_dynamic || !mapping.files().is_shared(symbol)
}

/// The pick of the later definitions of a symbol's name that are not shared.
fn pick_later<P: Platform>(mapping: &SymbolMapping<P>, symbol: SymbolId) -> Option<SymbolId>
    requires { symbol < length (names_in (seen mapping.now).files) }
    ensures value { result ≡ pick P.WEAK_SYMBOLS_OVERRIDE_COMMON (unshared_in (name_table_in (seen mapping.now)) symbol) }
    ensures within { IfSome result (λ id. id < length (names_in (seen mapping.now).files)) }
{
    pick_unshared(mapping.files(), mapping.later_definitions(symbol))
}
