//! What references stand for, by their ids.

ghost use Rattle.std.specs.Prelude.{◌≡◌, ◌<◌, IfSome, ℕ};
ghost use Rattle.link_db_symbols.specs.Lookups.{AreBelow, target_at};

use link_ids::SymbolId;

/// The target that a list has for the symbol of this id, if it has one.
pub fn target_of(targets: &[Option<SymbolId>], id: SymbolId) -> Option<SymbolId>
    ensures value { result ≡ target_at targets.now id }
    ensures below { (n : ℕ) → AreBelow n targets.now → IfSome result (λ t. t < n) }
{
    match targets.get(id.as_usize()) {
        Some(target) => *target,
        None => None,
    }
}
