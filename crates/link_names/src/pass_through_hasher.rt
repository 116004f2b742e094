//! A hasher for values that carry their hash number.

ghost use Rattle.std.specs.Prelude.{◌≡◌};

use crate::pre_hashed::{NameHash, PreHashed};
use std::hash::{BuildHasher, Hasher};

/// A hasher that hands on the number that it was given last. std asks of every hasher that `write_u64` leaves what a
/// `write` of the eight bytes leaves, so a write of eight bytes is their number, the lowest first; any other write
/// changes nothing. Mirrors Wild's `PassThroughHasher`, which takes no other write than `write_u64`.
#[derive(Clone, Copy, Debug)]
pub struct PassThroughHasher {
    number: u64,
}

impl Default for PassThroughHasher {
    ghost is_default = { λ s. s.number ≡ 0 };

    fn default() -> Self {
        PassThroughHasher { number: 0 }
    }
}

impl Hasher for PassThroughHasher {
    ghost use Rattle.link_names.specs.PassThrough.{number_after};

    ghost write = { λ s bytes. record { number = number_after s.number bytes } };

    ghost finish = { λ s. s.number };

    fn finish(&self) -> u64 {
        self.number
    }

    fn write(&mut self, bytes: &[u8]) {
        if let Ok(eight) = <[u8; 8]>::try_from(bytes) {
            self.number = u64::from_le_bytes(eight);
        }
    }

    fn write_u64(&mut self, i: u64) {
        self.number = i;
    }
}

impl BuildHasher for PassThroughHasher {
    type Hasher = PassThroughHasher;

    ghost build_hasher = { λ _. record { number = 0 } };

    fn build_hasher(&self) -> PassThroughHasher {
        PassThroughHasher::default()
    }
}

/// The number that a map with this hasher finds a value by: the one that the value carries.
pub fn number_in_map<T: NameHash + Drop>(value: PreHashed<T>) -> u64
    ensures { result ≡ T.number value }
{
    PassThroughHasher::default().hash_one(value)
}
