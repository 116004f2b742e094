//! The names that symbols are found by.

ghost use Rattle.std.specs.Prelude.{◌≡◌, List, ℕ, nat_eq};
ghost use Rattle.std.specs.Hash as fed;
ghost use Rattle.std.specs.Cmp.Lexicographic.{pointwise, nat_list_eq_equiv};
ghost use Rattle.std.specs.Cmp.{partial_equiv_from_equiv};
ghost use Rattle.std.specs.Cmp.Rules.{hashing};
ghost use Rattle.std.proofs.Common.{rules};
ghost use Rattle.link_names.specs.NameHash.{fnv_1a};

use crate::fnv::hash_bytes;
use crate::name::Name;
use crate::name_text::write_name;
use crate::pre_hashed::{NameHash, PreHashed};
use std::fmt;
use std::hash::{Hash, Hasher};
use std::marker::Model;

/// The name of a symbol without a version. Mirrors Wild's `UnversionedSymbolName`. A contract sees its bytes.
#[derive(Debug, Drop)]
pub struct UnversionedSymbolName {
    name: Name,
}

impl Model for UnversionedSymbolName {
    ghost Value = { List ℕ };

    ghost view = { λ n. n.name };
}

impl UnversionedSymbolName {
    /// The name.
    pub fn new(name: Name) -> Self
        ensures { result ≡ name }
    {
        UnversionedSymbolName { name }
    }

    /// The name with its hash number.
    pub fn prehashed(name: Name) -> PreHashed<UnversionedSymbolName>
        ensures { result ≡ name }
    {
        let name = UnversionedSymbolName::new(name);
        let hash = name.name_hash();
        PreHashed::new(name, hash)
    }

    /// Lends its bytes.
    pub fn bytes(&self) -> &[u8]
        ensures { result.now ≡ self.now }
    {
        self.name.as_slice()
    }
}

impl PartialEq for UnversionedSymbolName {
    ghost eq = { pointwise nat_eq };

    ghost laws = { partial_equiv_from_equiv nat_list_eq_equiv };

    fn eq(&self, other: &UnversionedSymbolName) -> bool {
        self.name == other.name
    }
}

impl Eq for UnversionedSymbolName {
    ghost laws = { nat_list_eq_equiv };
}

impl Hash for UnversionedSymbolName {
    ghost hash_input = { fed.slice fed.u8 };

    ghost respects_eq = { Prim.search (hashing, rules) };

    fn hash<H: Hasher>(&self, state: &mut H) {
        self.name.hash(state);
    }
}

impl NameHash for UnversionedSymbolName {
    ghost use Rattle.link_names.specs.NameHash.{fnv_1a-alike, fnv_1a-small};

    ghost number = { fnv_1a };

    ghost bounded = { fnv_1a-small };

    ghost respects = { fnv_1a-alike };

    fn name_hash(&self) -> u64 {
        hash_bytes(self.bytes())
    }
}

impl fmt::Display for UnversionedSymbolName {
    ghost use Rattle.std.specs.Prelude.{Some};
    ghost use Rattle.link_names.specs.NameText.{name_text};

    ghost output = { λ n. Some (name_text n) };

    fn fmt<W: fmt::Write>(&self, f: &mut fmt::Formatter<W>) -> fmt::Result {
        write_name(f, self.bytes())
    }
}

/// The name of a symbol with a version (`name@version`). The version counts for equality, and is not hashed. Mirrors
/// Wild's `VersionedSymbolName`.
#[derive(Debug, Drop, PartialEq, Eq, Hash)]
pub struct VersionedSymbolName {
    name: Name,
    version: Name,
}

impl VersionedSymbolName {
    /// The name and version with the hash number of the name.
    pub fn prehashed(name: Name, version: Name) -> PreHashed<VersionedSymbolName>
        ensures { result ≡ record { name = name; version = version } }
    {
        let versioned = VersionedSymbolName { name, version };
        let hash = versioned.name_hash();
        PreHashed::new(versioned, hash)
    }

    /// Lends the name.
    pub fn name(&self) -> &Name
        ensures { result.now ≡ self.now.name }
    {
        &self.name
    }

    /// Lends the version.
    pub fn version(&self) -> &Name
        ensures { result.now ≡ self.now.version }
    {
        &self.version
    }
}

impl NameHash for VersionedSymbolName {
    ghost use Rattle.link_names.specs.NameHash.{fnv_1a-alike, fnv_1a-small};
    ghost use Rattle.std.specs.Cmp.{first_so};

    ghost number = { λ v. fnv_1a v.name };

    ghost bounded = { λ v. fnv_1a-small v.name };

    ghost respects = { λ x y e. fnv_1a-alike x.name y.name (first_so (pointwise nat_eq x.name y.name) (pointwise nat_eq x.version y.version) e) };

    fn name_hash(&self) -> u64 {
        hash_bytes(self.name.as_slice())
    }
}

/// A name that a symbol is found by, with its hash number. Mirrors Wild's `PreHashedSymbolName`.
#[derive(Debug, Drop)]
pub enum PreHashedSymbolName {
    /// The name has no version.
    Unversioned(PreHashed<UnversionedSymbolName>),
    /// The name has a version.
    Versioned(PreHashed<VersionedSymbolName>),
}

impl PreHashedSymbolName {
    ghost use Rattle.link_names.specs.RawName.{name_of, raw_name};

    /// The name of a symbol table's entry, and its version where it has one.
    pub fn from_raw(name: Name, version: Option<Name>) -> Self
        ensures { result ≡ raw_name name version }
    {
        match version {
            Some(version) => {
                PreHashedSymbolName::Versioned(VersionedSymbolName::prehashed(name, version))
            }
            None => PreHashedSymbolName::Unversioned(UnversionedSymbolName::prehashed(name)),
        }
    }
    /// The hash number: that of the name, whatever the version.
    pub fn hash(&self) -> u64
        ensures { result ≡ fnv_1a (name_of self.now) }
    {
        match self {
            PreHashedSymbolName::Unversioned(name) => name.hash(),
            PreHashedSymbolName::Versioned(name) => name.hash(),
        }
    }
}
