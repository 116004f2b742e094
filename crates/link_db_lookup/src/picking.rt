//! The choice among the later definitions of a name.

ghost use Rattle.std.specs.Prelude.{◌≡◌, ◌<◌, All, IfSome, length};
ghost use Rattle.link_flags.specs.Pick.{pick};
ghost use Rattle.link_flags.specs.Selector.{after};
ghost use Rattle.link_db_files.specs.HeldFiles.{names_in};
ghost use Rattle.link_db_lookup.specs.Unshared.{after_unshared, unshared};

use link_db_files::Files;
use link_flags::SymbolPrioritySelector;
use link_ids::SymbolId;
use link_input::Platform;

/// Considers a symbol, if it is not shared.
fn consider_unshared<P: Platform>(
    files: &Files<P>,
    selector: &mut SymbolPrioritySelector,
    id: SymbolId,
)
    requires { id < length (names_in files.now) }
    ensures { selector.new ≡ after_unshared files.now selector.old id }
{
    if !files.is_shared(id) {
        selector.consider(id, files.symbol_strength(id));
    }
}

/// The pick of those of these symbols that are not shared.
pub(crate) fn pick_unshared<P: Platform>(files: &Files<P>, symbols: &[u32]) -> Option<SymbolId>
    requires { All (λ id. id < length (names_in files.now)) symbols.now }
    ensures { result ≡ pick P.WEAK_SYMBOLS_OVERRIDE_COMMON (unshared files.now symbols.now) }
{
    let mut selector = SymbolPrioritySelector::new();
    for number in symbols {
        let id = SymbolId::from_usize(*number as usize);
        consider_unshared(files, &mut selector, id);
    }
    selector.best(P::WEAK_SYMBOLS_OVERRIDE_COMMON)
}
