//! Numbers that a table can be cut by.

ghost use Rattle.std.specs.Prelude.{◌≡◌, ℕ, ◌+◌, ◌<◌, ◌^◌};

/// A number that counts the entries of a table from 0, so that a run of entries can be cut off and counted on. Mirrors
/// Wild's `ShardKey`.
pub trait ShardKey: Copy {
    /// The number.
    ghost number: { Self → ℕ };

    /// The first key.
    fn zero() -> Self
        ensures { number result ≡ 0 };

    /// The key n places further on.
    fn add_usize(self, n: usize) -> Self
        requires { number self + n < 2 ^ 32 }
        ensures { number result ≡ number self + n };

    /// A key is its number.
    ghost determined: { (x y : Self) → number x ≡ number y → x ≡ y };
}
