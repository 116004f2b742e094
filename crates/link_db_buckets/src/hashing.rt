//! The hash numbers of names and versions.

ghost use Rattle.std.specs.Prelude.{◌≡◌};
ghost use Rattle.link_db_buckets.specs.Keys.{hash_of, key_of};

use crate::sip_hash::sip_hash;

/// The number by which a name is found, or a name and version: SipHash-1-3 of the name, under a key that is fixed and public, or of the version,
/// under the number of the name. So the versions of one name don't meet in a bucket, and we know no cheap way to choose many names with one number.
pub fn key_hash(name: &[u8], version: Option<&[u8]>) -> u64
    ensures { result ≡ hash_of (key_of name.now version.entry) }
{
    let hash = sip_hash(0, 0, name);
    match version {
        Some(version) => sip_hash(hash, 0, version),
        None => hash,
    }
}
