//! Values that carry their hash number.

ghost use Rattle.std.specs.Prelude.{◌≡◌, ℕ, ◌<◌, ◌^◌, IsTrue};
ghost use Rattle.std.specs.Hash as fed;

use std::hash::{Hash, Hasher};
use std::marker::Model;
use std::ops::Deref;

/// A value that is found by a number: names, of which a version is not part of the number.
pub trait NameHash: Eq {
    /// The number.
    ghost number: { Self → ℕ };

    /// The number.
    fn name_hash(&self) -> u64
        ensures { result ≡ number self.now };

    /// The number has 64 bits.
    ghost bounded: { (x : Self) → number x < 2 ^ 64 };

    /// Equal values have equal numbers.
    ghost respects: { (x y : Self) → IsTrue (Self.eq x y) → number x ≡ number y };
}

/// A value with its number, so that maps do not count it again. Equal by the value, hashed by the number. Mirrors
/// Wild's `PreHashed`. A contract sees it as the value.
#[derive(Debug, Drop)]
pub struct PreHashed<T: NameHash> {
    value: T,
    hash: u64,
}

impl<T: NameHash> Model for PreHashed<T> {
    ghost Value = { T };

    ghost coded = { T.code };

    ghost view = { λ p. p.value };

    ghost invariant = { λ p. p.hash ≡ T.number p.value };
}

impl<T: NameHash> PreHashed<T> {
    /// A value with its number, which `name_hash` counts.
    pub fn new(value: T, hash: u64) -> Self
        requires { hash ≡ T.number value }
        ensures { result ≡ value }
    {
        PreHashed { value, hash }
    }

    /// The number that it carries.
    pub fn hash(&self) -> u64
        ensures { result ≡ T.number self.now }
    {
        self.hash
    }
}

impl<T: NameHash> Deref for PreHashed<T> {
    type Target = T;

    ghost deref_gives = { λ s v. v ≡ s };

    fn deref(&self) -> &T {
        &self.value
    }
}

impl<T: NameHash> PartialEq for PreHashed<T> {
    ghost eq = { T.eq };

    ghost laws = { T.PartialEq.laws };

    fn eq(&self, other: &PreHashed<T>) -> bool {
        self.value == other.value
    }
}

impl<T: NameHash> Eq for PreHashed<T> {
    ghost laws = { T.Eq.laws };
}

impl<T: NameHash> Hash for PreHashed<T> {
    ghost use Rattle.std.proofs.Common.{ap};

    ghost hash_input = { λ p. fed.u64 (T.number p) };

    ghost respects_eq = { λ x y e. ap fed.u64 (T.NameHash.respects x y e) };

    fn hash<H: Hasher>(&self, state: &mut H) {
        state.write_u64(self.hash);
    }
}

/// A law: equal values carry equal numbers.
pub fn equal_values_carry_equal_numbers<T: NameHash>()
    ensures { (x y : T) → IsTrue (T.eq x y) → T.number x ≡ T.number y }
{}
