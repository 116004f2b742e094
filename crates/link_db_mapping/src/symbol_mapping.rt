//! Which symbols define a name, and what it is mapped to.

ghost use Rattle.std.specs.Prelude.{◌≡◌};
ghost use Rattle.link_rules.specs.Places.{behind_head};
ghost use Rattle.link_db_mapping.specs.Tables.{AreNamed};

use crate::mapped_names::MappedNames;
use crate::name_tables::NameTables;
use link_db_buckets::{Buckets, Definitions, key_hash};
use link_db_files::Files;
use link_ids::SymbolId;
use link_input::Platform;
use std::alloc::{AllocError, Global};

/// The files of a link, and for each name the symbols that define it and the one that it is mapped to. Mirrors what Wild's `SymbolDb`
/// holds of names. A contract sees what `seen` tells of it.
pub struct SymbolMapping<P: Platform> {
    pub(crate) tables: NameTables<P>,
    pub(crate) buckets: Buckets,
    ghost named: { AreNamed tables.files tables.overridden.items buckets },
}

// By hand, so that what lets one go makes one call and does not name its parts.
impl<P: Platform> Drop for SymbolMapping<P> {
    fn drop(self) {
        let Self {
            tables: _,
            buckets: _,
        } = self;
    }
}

impl<P: Platform> SymbolMapping<P> {
    ghost use Rattle.std.specs.Prelude.{◌<◌, ◌≢◌, ℕ, [], List, All, AllPairs, Contains, IfOk, IfSome, None, Some, false, length, option_map, take};
    ghost use Rattle.std.specs.Option.{option_map_or};
    ghost use Rattle.link_db_buckets.specs.Keys.{Key, hash_of, key_of};
    ghost use Rattle.link_db_files.specs.HeldFiles.{names_in};
    ghost use Rattle.link_db_mapping.specs.Mapped.{AreHeadsMarked, later_in, later_versioned_in, later_with, mapped_key, mapping_of};
    ghost use Rattle.link_db_mapping.specs.Seen.{seen};

    /// No files, and so many buckets for names. The only refusal is want of memory.
    pub fn new(alloc: Global, buckets: usize) -> Result<Self, AllocError>
        requires { 0 < buckets }
        ensures files { IfOk result (λ m. (seen m).files ≡ record { groups = []; added = [] }) }
        ensures lists { IfOk result (λ m. (seen m).lists ≡ (λ _. [])) }
        ensures overridden { IfOk result (λ m. (seen m).overridden ≡ (λ _. None)) }
    {
        let tables = NameTables {
            files: Files::new(alloc),
            overridden: Vec::new(alloc),
        };
        let buckets = Buckets::new(alloc, buckets)?;
        Ok(SymbolMapping { tables, buckets })
    }

    /// The files.
    pub fn files(&self) -> &Files<P>
        ensures { result.now ≡ (seen self.now).files }
    {
        &self.tables.files
    }

    /// The definitions of the name, or of the name and version, where it has some.
    pub fn definitions(
        &self,
        hash: u64,
        name: &[u8],
        version: Option<&[u8]>,
    ) -> Option<&Definitions>
        requires hashed { hash ≡ hash_of (key_of name.now version) }
        ensures value { option_map_or (λ d. d.now) result [] ≡ (seen self.now).lists (key_of name.now version.entry) }
        ensures within { IfSome result (λ d. All (λ id. id < length (names_in (seen self.now).files)) d.now) }
    {
        self.buckets.definitions(&self.tables, hash, name, version)
    }

    /// The symbol to which the name, or the name and version, is mapped.
    pub fn mapped(&self, hash: u64, name: &[u8], version: Option<&[u8]>) -> Option<SymbolId>
        requires hashed { hash ≡ hash_of (key_of name.now version) }
        ensures value { result ≡ mapped_key (seen self.now) (key_of name.now version.entry) }
        ensures within { IfSome result (λ id. id < length (names_in (seen self.now).files)) }
    {
        let number = self.buckets.mapped(&self.tables, hash, name, version)?;
        Some(SymbolId::from_usize(number as usize))
    }

    /// Whether some name, or name and version, with this hash number may be mapped: where the answer is no, none of them is.
    pub fn may_have(&self, hash: u64) -> bool
        ensures { result ≡ false → (key : Key) → hash_of key ≡ hash → mapped_key (seen self.now) key ≡ None }
    {
        self.buckets.may_have(hash)
    }

    /// Each plain name that is mapped to a symbol, with the symbol, in no promised order. Mirrors the iterator of Wild's
    /// `SymbolDb::all_unversioned_symbols`.
    pub fn mapped_names(&self) -> MappedNames<'_, P>
        ensures mapped { All (λ pair. mapping_of (seen self.now) pair.0 ≡ Some pair.1) result }
        ensures complete { (name : List ℕ) (id : ℕ) → mapping_of (seen self.now) name ≡ Some id → Contains result (name, id) }
        ensures once { AllPairs (λ a b. a.0 ≢ b.0) result }
        ensures within { All (λ pair. pair.1 < length (names_in (seen self.now).files)) result }
    {
        MappedNames::new(&self.tables, self.buckets.mapped_labels())
    }

    /// The definitions of the symbol's name that come behind it, where it is the first of them.
    pub fn later_definitions(&self, id: SymbolId) -> &[u32]
        requires { id < length (names_in (seen self.now).files) }
        ensures value { result.now ≡ later_in (seen self.now) id }
        ensures within { All (λ later. later < length (names_in (seen self.now).files)) result.now }
    {
        self.later_of(id, None)
    }

    /// The definitions of the symbol's name and version that come behind it, where it is the first of them. One without a version has none.
    pub fn later_versioned_definitions(&self, id: SymbolId) -> &[u32]
        requires { id < length (names_in (seen self.now).files) }
        ensures value { result.now ≡ later_versioned_in (seen self.now) id }
        ensures within { All (λ later. later < length (names_in (seen self.now).files)) result.now }
    {
        match self.tables.files.symbol_version(id) {
            Some(version) => self.later_of(id, Some(version.as_slice())),
            None => &[],
        }
    }

    /// The definitions of the symbol's name, with this version or without one, that come behind it, where it is the first of them.
    fn later_of(&self, id: SymbolId, version: Option<&[u8]>) -> &[u32]
        requires { id < length (names_in (seen self.now).files) }
        ensures value { result.now ≡ later_with (seen self.now) (option_map (λ v. v.now) version.entry) id }
        ensures within { All (λ later. later < length (names_in (seen self.now).files)) result.now }
    {
        let name = self.tables.files.symbol_name(id);
        let hash = key_hash(name.as_slice(), version);
        match self.definitions(hash, name.as_slice(), version) {
            Some(definitions) => behind(definitions, id),
            None => &[],
        }
    }

    /// A mark for each symbol of which definitions come later, by its name, or by its name and version: a symbol without a mark has none. So a pass over all
    /// symbols looks at the names of few. The only refusal is want of memory.
    pub fn heads_of_several(&self, alloc: Global) -> Result<Vec<bool>, AllocError>
        ensures { IfOk result (λ marks. AreHeadsMarked (seen self.now) marks.items) }
    {
        let mut marks = vec![in alloc; false; self.tables.files.num_symbols()]?;
        self.buckets.mark_firsts(&mut marks);
        Ok(marks)
    }

    /// Gives up the definitions of each name behind its first, and their memory.
    pub fn release_later(&mut self)
        ensures lists { (seen self.new).lists ≡ (λ key. take 1 ((seen self.old).lists key)) }
        ensures mapping { (key : Key) → mapped_key (seen self.new) key ≡ mapped_key (seen self.old) key }
        ensures overridden { (seen self.new).overridden ≡ (seen self.old).overridden }
        ensures files { (seen self.new).files ≡ (seen self.old).files }
    {
        self.buckets.release_later();
    }
}

/// Those behind the symbol, where it is the first.
fn behind(definitions: &Definitions, id: SymbolId) -> &[u32]
    ensures { result.now ≡ behind_head id definitions.now }
{
    if definitions.first() as usize == id.as_usize() {
        definitions.later()
    } else {
        &[]
    }
}
