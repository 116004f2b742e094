//! The hash number of bytes.

ghost use Rattle.std.specs.Prelude.{◌≡◌};
ghost use Rattle.link_names.specs.NameHash.{fnv_1a, fnv_1a_on};

const OFFSET_BASIS: u64 = 0xcbf2_9ce4_8422_2325;

const PRIME: u64 = 0x100_0000_01b3;

/// The FNV-1a hash of bytes, with 64 bits (Fowler, Noll, Vo; `draft-eastlake-fnv`).
pub fn hash_bytes(bytes: &[u8]) -> u64
    ensures { result ≡ fnv_1a bytes.now }
{
    extend_hash(OFFSET_BASIS, bytes)
}

/// The FNV-1a hash of bytes, of which those before these have the given one.
pub fn extend_hash(hash: u64, bytes: &[u8]) -> u64
    ensures { result ≡ fnv_1a_on hash bytes.now }
{
    let mut extended = hash;
    for byte in bytes {
        extended = (extended ^ u64::from(*byte)).wrapping_mul(PRIME);
    }
    extended
}
