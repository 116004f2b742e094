//! A name, as it is looked up.

ghost use Rattle.std.specs.Prelude.{◌≡◌};
ghost use Rattle.link_db_buckets.specs.Keys.{hash_of, key_of};

use link_db_buckets::key_hash;
use std::marker::Model;

/// A name, with its version where it has one, and the hash number by which it is found. Mirrors Wild's
/// `PreHashedSymbolName`, but that the bytes are lent. A contract sees the name and the version.
#[derive(Debug, Drop)]
pub struct SymbolKey<'a> {
    pub(crate) name: &'a [u8],
    pub(crate) version: Option<&'a [u8]>,
    pub(crate) hash: u64,
}

impl<'a> Model for SymbolKey<'a> {
    ghost use Rattle.std.specs.Prelude.{◌≡◌};
    ghost use Rattle.link_db_buckets.specs.Keys.{Key, hash_of, key_of};

    ghost Value = { Key };

    ghost view = { λ k. key_of k.name.now k.version };

    ghost invariant = { λ k. k.hash ≡ hash_of (key_of k.name.now k.version) };
}

impl<'a> SymbolKey<'a> {
    /// The key of a name, and of its version where it has one.
    pub fn new(name: &'a [u8], version: Option<&'a [u8]>) -> Self
        ensures { result ≡ key_of name.now version.entry }
    {
        SymbolKey {
            name,
            version,
            hash: key_hash(name, version),
        }
    }

    /// The key of a name, and of its version where it has one, whose hash number is known.
    pub fn with_hash(name: &'a [u8], version: Option<&'a [u8]>, hash: u64) -> Self
        requires { hash ≡ hash_of (key_of name.now version) }
        ensures { result ≡ key_of name.now version.entry }
    {
        SymbolKey {
            name,
            version,
            hash,
        }
    }

    /// The name.
    pub fn name(&self) -> &'a [u8]
        ensures { result.now ≡ self.now.name }
    {
        self.name
    }

    /// The hash number of the name, or of the name and version: that of `link_db_buckets::key_hash`, SipHash-1-3 with a fixed key.
    pub fn hash(&self) -> u64
        ensures { result ≡ hash_of self.now }
    {
        self.hash
    }
}
