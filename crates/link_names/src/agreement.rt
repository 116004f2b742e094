//! That comparisons agree.

ghost use Rattle.std.specs.Prelude.{◌≡◌, ◌↔◌, IsTrue};
ghost use Rattle.std.specs.declared.cmp.Ordering.TheVariants.{Equal};

use std::hash::Hash;

/// A law of every type that is ordered and hashed, so of all ids and indexes: two values are equal exactly where their
/// comparison says so, and equal values are hashed alike.
pub fn order_and_hash_agree_with_eq<T: Ord + Hash>()
    ensures order { (x y : T) → IsTrue (T.eq x y) ↔ (T.cmp x y ≡ Equal) }
    ensures hash { (x y : T) → IsTrue (T.eq x y) → T.hash_input x ≡ T.hash_input y }
{}

/// A law of every type that is compared and hashed, so of flag sets too: equal values are hashed alike.
pub fn hash_agrees_with_eq<T: Eq + Hash>()
    ensures { (x y : T) → IsTrue (T.eq x y) → T.hash_input x ≡ T.hash_input y }
{}
