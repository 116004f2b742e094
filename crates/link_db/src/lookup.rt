//! What a reference stands for.

use crate::database::SymbolDb;
use link_db_buckets::key_hash;
use link_db_lookup::{SymbolKey, target_of};
use link_db_mapping::MappedNames;
use link_ids::SymbolId;
use link_input::Platform;
use std::alloc::{AllocError, Global};

impl<P: Platform> SymbolDb<P> {
    ghost use Rattle.std.specs.Prelude.{◌≡◌, ◌≢◌, ◌<◌, ℕ, All, AllPairs, Contains, IfOk, IfSome, None, Option, Some, false, length};
    ghost use Rattle.link_db_buckets.specs.Keys.{hash_of};
    ghost use Rattle.link_db_mapping.specs.Mapped.{AreHeadsMarked, later_in, later_versioned_in, mapping_of};
    ghost use Rattle.link_rules.specs.Places.{Bytes};
    ghost use Rattle.link_rules.specs.Targets.{mapped_in, target_in};
    ghost use Rattle.link_db.specs.Database.{name_table_of, symbol_names};
    ghost use Rattle.link_db.specs.Seen.{seen};

    /// The symbol that a reference to the name, or to the name and version, stands for: what the name is mapped to. A reference that is not of
    /// default visibility, and so doesn't allow a dynamic one, passes by a shared definition to the pick of the later definitions of its
    /// name that are not shared. None where the name is not mapped, or none of these fits.
    pub fn get(&self, key: &SymbolKey<'_>, allow_dynamic: bool) -> Option<SymbolId>
        ensures target { result ≡ target_in P.WEAK_SYMBOLS_OVERRIDE_COMMON (name_table_of (seen self.now)) allow_dynamic key.now.name key.now.version }
        ensures within { IfSome result (λ id. id < length (symbol_names (seen self.now))) }
    {
        target_of(&self.mapping, key, allow_dynamic)
    }

    /// Whether some name, or name and version, with this hash number may be mapped: where the answer is no, none of them is, and a reference to it stands
    /// for nothing. So who knows the number need not look at the name.
    pub fn may_have(&self, hash: u64) -> bool
        ensures { result ≡ false → (name : Bytes) (version : Option Bytes) → hash_of (record { name = name; version = version }) ≡ hash
            → mapped_in (name_table_of (seen self.now)) name version ≡ None }
    {
        self.mapping.may_have(hash)
    }

    /// The symbol that the name is mapped to, whatever the reference.
    pub fn get_unversioned(&self, name: &[u8]) -> Option<SymbolId>
        ensures value { result ≡ mapping_of (seen self.now).mapping name.now }
        ensures within { IfSome result (λ id. id < length (symbol_names (seen self.now))) }
    {
        self.mapping.mapped(key_hash(name, None), name, None)
    }

    /// Each name that is mapped to a symbol, with the symbol: names without a version alone, in no promised order. Mirrors Wild's
    /// `SymbolDb::all_unversioned_symbols`.
    pub fn all_unversioned_symbols(&self) -> MappedNames<'_, P>
        ensures mapped { All (λ pair. mapping_of (seen self.now).mapping pair.0 ≡ Some pair.1) result }
        ensures complete { (name : Bytes) (id : ℕ) → mapping_of (seen self.now).mapping name ≡ Some id → Contains result (name, id) }
        ensures once { AllPairs (λ a b. a.0 ≢ b.0) result }
        ensures within { All (λ pair. pair.1 < length (symbol_names (seen self.now))) result }
    {
        self.mapping.mapped_names()
    }

    /// The definitions of the symbol's name that come behind it, where it is the first of them. Mirrors Wild's alternative definitions.
    pub fn later_definitions(&self, id: SymbolId) -> &[u32]
        requires { id < length (symbol_names (seen self.now)) }
        ensures value { result.now ≡ later_in (seen self.now).mapping id }
        ensures within { All (λ later. later < length (symbol_names (seen self.now))) result.now }
    {
        self.mapping.later_definitions(id)
    }

    /// The definitions of the symbol's name and version that come behind it, where it is the first of them. One without a version has none.
    /// Mirrors Wild's alternative versioned definitions.
    pub fn later_versioned_definitions(&self, id: SymbolId) -> &[u32]
        requires { id < length (symbol_names (seen self.now)) }
        ensures value { result.now ≡ later_versioned_in (seen self.now).mapping id }
        ensures within { All (λ later. later < length (symbol_names (seen self.now))) result.now }
    {
        self.mapping.later_versioned_definitions(id)
    }

    /// A mark for each symbol of which definitions come later, by its name, or by its name and version: a symbol without a mark has none. The only refusal is
    /// want of memory.
    pub fn heads_of_several(&self, alloc: Global) -> Result<Vec<bool>, AllocError>
        ensures { IfOk result (λ marks. AreHeadsMarked (seen self.now).mapping marks.items) }
    {
        self.mapping.heads_of_several(alloc)
    }
}
