//! Lists of rivals.

use link_ids::SymbolId;

/// What knows lists of rivals: the definitions of one name, or of one name and version.
pub trait RivalLists {
    ghost use Rattle.std.specs.Prelude.{◌≡◌, ◌<◌, ℕ, List};
    ghost use Rattle.link_rules.specs.Places.{behind_head};

    /// The list in which the symbol of an id stands; empty where it stands in none.
    ghost listed: { Self → ℕ → List ℕ };

    /// How many symbols there are.
    ghost count: { Self → ℕ };

    /// The entries behind the symbol, where it heads its list.
    fn later(&self, id: SymbolId) -> &[u32]
        requires { id < count self.now }
        ensures { result.now ≡ behind_head id (listed self.now id) };
}
