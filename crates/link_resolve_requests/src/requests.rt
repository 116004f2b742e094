//! What references ask for.

ghost use Rattle.std.specs.Prelude.{◌≡◌};
ghost use Rattle.link_resolve_requests.specs.Requests.{request_by, requested};

use link_db_symbols::{SymbolSource, SymbolView, source_of};
use link_ids::SymbolId;

/// The object at which a target stands, if it is another one, and not both files are shared.
fn requested(from: SymbolSource, to: SymbolSource) -> Option<usize>
    ensures { result ≡ requested from to }
{
    if from.is_shared && to.is_shared || from.object == to.object {
        None
    } else {
        to.object
    }
}

/// The object that a symbol with this target asks for: a weak one asks for none.
pub fn request_by(
    sources: &[SymbolSource],
    symbol: &SymbolView,
    target: Option<SymbolId>,
) -> Option<usize>
    ensures { result ≡ request_by sources.now symbol.now target }
{
    if symbol.is_weak() {
        return None;
    }
    let to = sources.get(target?.as_usize())?;
    requested(source_of(symbol), *to)
}
