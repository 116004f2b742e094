//! The hash of names in ELF files.

ghost use Rattle.std.specs.Prelude.{◌≡◌};
ghost use Rattle.link_verdef.specs.Hash.{hash_step, sysv_hash};

/// The top four bits of a word.
const TOP: u32 = 0xf000_0000;

/// The hash of one byte more.
fn hash_step(hash: u32, byte: u8) -> u32
    ensures { result ≡ hash_step hash byte }
{
    let word = hash.wrapping_mul(16).wrapping_add(u32::from(byte));
    let top = word & TOP;
    (word ^ (top >> 24)) & !TOP
}

/// The SysV hash of a name, below 2^28 (ELF gABI, "Hash Table"). `vd_hash` of a version definition is the hash of its
/// name. Takes no memory.
pub fn sysv_hash(name: &[u8]) -> u32
    ensures { result ≡ sysv_hash name.now }
{
    name.iter().fold(0, |hash, byte| hash_step(hash, *byte))
}
