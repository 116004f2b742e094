//! Where one symbol stands.

ghost use Rattle.std.specs.Prelude.{◌≡◌};
ghost use Rattle.link_db_files.specs.Sources.{source_of};

use crate::view::SymbolView;
use link_db_files::SymbolSource;

/// Where a symbol stands.
pub fn source_of(symbol: &SymbolView) -> SymbolSource
    ensures { result ≡ source_of symbol.now }
{
    SymbolSource {
        object: symbol.object(),
        is_shared: symbol.is_shared(),
    }
}
