//! A bucket of names.

ghost use Rattle.link_db_buckets.specs.Heads.{hashes_of};
ghost use Rattle.link_db_buckets.specs.Walks.{HaveWalks};

use crate::head::{Definitions, Head, release_all};
use crate::label::{Label, Names};
use crate::places::Places;
use std::alloc::{AllocError, Global};

/// Names with their definitions and what they are overridden with. A bucket keeps labels and hash numbers, and compares names through
/// the table that holds them, so it says the same of a name as long as its table does.
#[derive(Drop)]
pub struct Bucket {
    heads: Vec<Head>,
    places: Places,
    alloc: Global,
    ghost placed: { HaveWalks places (hashes_of heads.items) },
}

impl Bucket {
    ghost use Rattle.std.specs.Prelude.{◌≡◌, ℕ, ◌++◌, [], ◌∷◌, ◌⊎◌, Option, None, Some, is_some, IsTrue, IfOk, OnOk, OnErr, false, length, map, take, slice_get, option_map, if◌then◌else◌};
    ghost use Rattle.std.specs.Option.{option_map_or, option_or};
    ghost use Rattle.link_db_buckets.specs.declared.label.Label.{Label};
    ghost use Rattle.link_db_buckets.specs.Keys.{Key, hash_of, key_of, leads_to, number_of, same_key};
    ghost use Rattle.link_db_buckets.specs.Heads.{first_alone, has_hash, head_of, is_head, is_labelled, without_last};
    ghost use Rattle.link_db_buckets.specs.Places.{place_from};
    ghost use Rattle.link_db_buckets.specs.Bucket.{IsKeyed, definitions_in, hashes_in, heads_in, label_in, mapped_in, overridden_in};

    /// No names. Takes no memory.
    pub fn new(alloc: Global) -> Self
        ensures keyed { (names : Label → Option Key) → IsKeyed names result }
        ensures hashes { hashes_in result ≡ [] }
        ensures definitions { (names : Label → Option Key) (asked : Key) → definitions_in names result asked ≡ [] }
        ensures overridden { (names : Label → Option Key) (asked : Key) → overridden_in names result asked ≡ None }
        ensures labels { (names : Label → Option Key) (asked : Key) → label_in names result asked ≡ None }
    {
        Bucket {
            heads: Vec::new(alloc),
            places: Places::new(alloc),
            alloc,
        }
    }

    /// Its heads. Each name that is mapped to something has one that is in use.
    pub fn heads(&self) -> &[Head]
        ensures { result.now ≡ heads_in self.now }
    {
        self.heads.as_slice()
    }

    /// Makes room for so many names more. What it holds stays.
    pub(crate) fn reserve(&mut self, more: usize) -> Result<(), AllocError>
        ensures { heads_in self.new ≡ heads_in self.old }
    {
        self.heads.reserve(more)?;
        self.places.reserve(self.heads.as_slice(), more)
    }

    /// Whether the head at the place leads to the name and version. Hash numbers are compared first.
    fn is_named<T: Names>(
        &self,
        table: &T,
        place: usize,
        hash: u64,
        name: &[u8],
        version: Option<&[u8]>,
    ) -> bool
        requires keyed { IsKeyed (T.key_at table.now) self.now }
        requires hashed { hash ≡ hash_of (key_of name.now version) }
        ensures { result ≡ option_map_or (is_head (T.key_at table.now) (key_of name.now version.entry)) (slice_get (heads_in self.now) place) false }
    {
        match self.heads.get(place) {
            Some(head) => {
                head.hash == hash && head.is_used() && table.has_key(head.label, name, version)
            }
            None => false,
        }
    }

    /// The place of the name and version.
    fn place_of<T: Names>(
        &self,
        table: &T,
        hash: u64,
        name: &[u8],
        version: Option<&[u8]>,
    ) -> Option<usize>
        requires keyed { IsKeyed (T.key_at table.now) self.now }
        requires hashed { hash ≡ hash_of (key_of name.now version) }
        ensures { result ≡ place_from (is_head (T.key_at table.now) (key_of name.now version.entry)) 0 (heads_in self.now) }
    {
        for (place, _) in self.places.walk(hash) {
            if self.is_named(table, place, hash, name, version) {
                return Some(place);
            }
        }
        None
    }

    /// The head of the name and version.
    fn head_named<T: Names>(
        &self,
        table: &T,
        hash: u64,
        name: &[u8],
        version: Option<&[u8]>,
    ) -> Option<&Head>
        requires keyed { IsKeyed (T.key_at table.now) self.now }
        requires hashed { hash ≡ hash_of (key_of name.now version) }
        ensures { option_map (λ h. h.now) result ≡ head_of (T.key_at table.now) (heads_in self.now) (key_of name.now version.entry) }
    {
        let place = self.place_of(table, hash, name, version)?;
        Some(&self.heads[place])
    }

    /// Whether the head at the place leads to the key of the label. Hash numbers are compared first.
    fn is_labelled<T: Names>(&self, table: &T, place: usize, hash: u64, label: Label) -> bool
        requires keyed { IsKeyed (T.key_at table.now) self.now }
        requires hashed { number_of (T.key_at table.now) label ≡ Some hash }
        ensures { result ≡ option_map_or (is_labelled (T.key_at table.now) label) (slice_get (heads_in self.now) place) false }
    {
        match self.heads.get(place) {
            Some(head) => {
                head.hash == hash && head.is_used() && table.have_same_key(head.label, label)
            }
            None => false,
        }
    }

    /// Where a look for a hash number begins: 1 + the place of a head, or 0.
    /// Where that is, is left open: who takes a guess checks it.
    pub(crate) fn first_guess(&self, hash: u64) -> usize {
        self.places.first(hash)
    }

    /// A guess, where its head has the hash number, and else the next one behind it, which so many heads stand before.
    /// Which it is, is left open: who takes a guess checks it.
    pub(crate) fn next_guess(&self, hash: u64, depth: usize, guess: usize) -> usize {
        if guess == 0 || self.has_hash(guess - 1, hash) {
            return guess;
        }
        self.places.next(guess - 1, depth, hash)
    }

    /// The place of the key of the label. It is looked for at a guess first, which is 1 + a place, or 0.
    fn place_by_guess<T: Names>(
        &self,
        table: &T,
        hash: u64,
        label: Label,
        guess: usize,
    ) -> Option<usize>
        requires keyed { IsKeyed (T.key_at table.now) self.now }
        requires hashed { number_of (T.key_at table.now) label ≡ Some hash }
        ensures { result ≡ place_from (is_labelled (T.key_at table.now) label) 0 (heads_in self.now) }
    {
        if guess > 0 && self.is_labelled(table, guess - 1, hash, label) {
            return Some(guess - 1);
        }
        self.place_of_label(table, hash, label)
    }

    /// The place of the key of the label.
    fn place_of_label<T: Names>(&self, table: &T, hash: u64, label: Label) -> Option<usize>
        requires keyed { IsKeyed (T.key_at table.now) self.now }
        requires hashed { number_of (T.key_at table.now) label ≡ Some hash }
        ensures { result ≡ place_from (is_labelled (T.key_at table.now) label) 0 (heads_in self.now) }
    {
        for (place, _) in self.places.walk(hash) {
            if self.is_labelled(table, place, hash, label) {
                return Some(place);
            }
        }
        None
    }

    /// Whether the head at the place has the hash number.
    fn has_hash(&self, place: usize, hash: u64) -> bool
        ensures { result ≡ option_map_or (has_hash hash) (slice_get (heads_in self.now) place) false }
    {
        match self.heads.get(place) {
            Some(head) => head.hash == hash,
            None => false,
        }
    }

    /// Whether some name may have this hash number: where none has, nothing is mapped.
    pub fn may_have(&self, hash: u64) -> bool
        ensures { result ≡ false → (names : Label → Option Key) (asked : Key) → IsKeyed names self.now → hash_of asked ≡ hash → mapped_in names self.now asked ≡ None }
    {
        if !self.places.may_have(hash) {
            return false;
        }
        for (place, _) in self.places.walk(hash) {
            if self.has_hash(place, hash) {
                return true;
            }
        }
        false
    }

    /// Adds a head behind the others.
    fn push_head(&mut self, head: Head) -> Result<(), AllocError>
        ensures ok { OnOk result (heads_in self.new ≡ heads_in self.old ++ head ∷ []) }
        ensures err { OnErr result (heads_in self.new ≡ heads_in self.old) }
    {
        let hash = head.hash;
        self.places
            .prepare(self.heads.as_slice(), self.heads.len() + 1)?;
        self.heads.push(head)?;
        if let Err(error) = self.places.note(hash) {
            self.heads.pop();
            return Err(error);
        }
        Ok(())
    }

    /// Adds a definition at the end of those of the label's key, which is looked for at a guess first: 1 + the place of a head, or 0. No guess
    /// changes what is added.
    pub fn add<T: Names>(
        &mut self,
        table: &T,
        hash: u64,
        label: Label,
        id: u32,
        guess: usize,
    ) -> Result<(), AllocError>
        requires keyed { IsKeyed (T.key_at table.now) self.old }
        requires hashed { number_of (T.key_at table.now) label ≡ Some hash }
        ensures keyed { IsKeyed (T.key_at table.now) self.new }
        ensures hashes { (hashes_in self.new ≡ hashes_in self.old) ⊎ (hashes_in self.new ≡ hashes_in self.old ++ hash ∷ []) }
        ensures definitions { OnOk result ((asked : Key) → definitions_in (T.key_at table.now) self.new asked
            ≡ (if leads_to (T.key_at table.now) label asked then definitions_in (T.key_at table.now) self.old asked ++ id ∷ [] else definitions_in (T.key_at table.now) self.old asked)) }
        ensures err { OnErr result ((asked : Key) → definitions_in (T.key_at table.now) self.new asked ≡ definitions_in (T.key_at table.now) self.old asked) }
        ensures overridden { (asked : Key) → overridden_in (T.key_at table.now) self.new asked ≡ overridden_in (T.key_at table.now) self.old asked }
        ensures labels { OnOk result ((asked : Key) → label_in (T.key_at table.now) self.new asked
            ≡ (if leads_to (T.key_at table.now) label asked then option_or (label_in (T.key_at table.now) self.old asked) (Some label) else label_in (T.key_at table.now) self.old asked)) }
        ensures labels_err { OnErr result ((asked : Key) → label_in (T.key_at table.now) self.new asked ≡ label_in (T.key_at table.now) self.old asked) }
    {
        let alloc = self.alloc;
        match self.place_by_guess(table, hash, label, guess) {
            Some(place) => {
                let head = &mut self.heads[place];
                head.add(alloc, id)
            }
            None => self.push_head(Head {
                label,
                hash,
                definitions: Some(Definitions::one(id)),
                overridden: None,
            }),
        }
    }

    /// The definitions of the name and version, where it has some.
    pub fn definitions<T: Names>(
        &self,
        table: &T,
        hash: u64,
        name: &[u8],
        version: Option<&[u8]>,
    ) -> Option<&Definitions>
        requires keyed { IsKeyed (T.key_at table.now) self.now }
        requires hashed { hash ≡ hash_of (key_of name.now version) }
        ensures { option_map_or (λ d. d.now) result [] ≡ definitions_in (T.key_at table.now) self.now (key_of name.now version.entry) }
    {
        self.head_named(table, hash, name, version)?.definitions()
    }

    /// What the name and version is mapped to.
    pub fn mapped<T: Names>(
        &self,
        table: &T,
        hash: u64,
        name: &[u8],
        version: Option<&[u8]>,
    ) -> Option<u32>
        requires keyed { IsKeyed (T.key_at table.now) self.now }
        requires hashed { hash ≡ hash_of (key_of name.now version) }
        ensures { result ≡ mapped_in (T.key_at table.now) self.now (key_of name.now version.entry) }
    {
        self.head_named(table, hash, name, version)?.mapped()
    }

    /// Overrides what the label's key is mapped to, and answers what it was mapped to before.
    pub fn override_name<T: Names>(
        &mut self,
        table: &T,
        hash: u64,
        label: Label,
        id: u32,
    ) -> Result<Option<u32>, AllocError>
        requires keyed { IsKeyed (T.key_at table.now) self.old }
        requires hashed { number_of (T.key_at table.now) label ≡ Some hash }
        ensures keyed { IsKeyed (T.key_at table.now) self.new }
        ensures hashes { (hashes_in self.new ≡ hashes_in self.old) ⊎ (hashes_in self.new ≡ hashes_in self.old ++ hash ∷ []) }
        ensures before { (asked : Key) → IsTrue (leads_to (T.key_at table.now) label asked) → IfOk result (λ before. before ≡ mapped_in (T.key_at table.now) self.old asked) }
        ensures overridden { OnOk result ((asked : Key) → overridden_in (T.key_at table.now) self.new asked
            ≡ (if leads_to (T.key_at table.now) label asked then Some id else overridden_in (T.key_at table.now) self.old asked)) }
        ensures err { OnErr result ((asked : Key) → overridden_in (T.key_at table.now) self.new asked ≡ overridden_in (T.key_at table.now) self.old asked) }
        ensures definitions { (asked : Key) → definitions_in (T.key_at table.now) self.new asked ≡ definitions_in (T.key_at table.now) self.old asked }
        ensures labels { OnOk result ((asked : Key) → label_in (T.key_at table.now) self.new asked
            ≡ (if leads_to (T.key_at table.now) label asked then option_or (label_in (T.key_at table.now) self.old asked) (Some label) else label_in (T.key_at table.now) self.old asked)) }
        ensures labels_err { OnErr result ((asked : Key) → label_in (T.key_at table.now) self.new asked ≡ label_in (T.key_at table.now) self.old asked) }
    {
        match self.place_of_label(table, hash, label) {
            Some(place) => {
                let head = &mut self.heads[place];
                let before = head.mapped();
                head.overridden = Some(id);
                Ok(before)
            }
            None => {
                self.push_head(Head {
                    label,
                    hash,
                    definitions: None,
                    overridden: Some(id),
                })?;
                Ok(None)
            }
        }
    }

    /// Overrides what the name and version is mapped to, where it is mapped to something. Takes no memory, and can't fail.
    pub fn remap<T: Names>(
        &mut self,
        table: &T,
        hash: u64,
        name: &[u8],
        version: Option<&[u8]>,
        id: u32,
    )
        requires keyed { IsKeyed (T.key_at table.now) self.old }
        requires hashed { hash ≡ hash_of (key_of name.now version) }
        requires mapped { IsTrue (is_some (mapped_in (T.key_at table.now) self.old (key_of name.now version))) }
        ensures keyed { IsKeyed (T.key_at table.now) self.new }
        ensures hashes { hashes_in self.new ≡ hashes_in self.old }
        ensures overridden { (asked : Key) → overridden_in (T.key_at table.now) self.new asked
            ≡ (if same_key (key_of name.now version.entry) asked then Some id else overridden_in (T.key_at table.now) self.old asked) }
        ensures definitions { (asked : Key) → definitions_in (T.key_at table.now) self.new asked ≡ definitions_in (T.key_at table.now) self.old asked }
        ensures labels { (asked : Key) → label_in (T.key_at table.now) self.new asked ≡ label_in (T.key_at table.now) self.old asked }
    {
        if let Some(place) = self.place_of(table, hash, name, version) {
            let head = &mut self.heads[place];
            head.overridden = Some(id);
        }
    }

    /// Takes away what the name and version is overridden with.
    pub fn restore<T: Names>(&mut self, table: &T, hash: u64, name: &[u8], version: Option<&[u8]>)
        requires keyed { IsKeyed (T.key_at table.now) self.old }
        requires hashed { hash ≡ hash_of (key_of name.now version) }
        ensures keyed { IsKeyed (T.key_at table.now) self.new }
        ensures hashes { hashes_in self.new ≡ hashes_in self.old }
        ensures overridden { (asked : Key) → overridden_in (T.key_at table.now) self.new asked
            ≡ (if same_key (key_of name.now version.entry) asked then None else overridden_in (T.key_at table.now) self.old asked) }
        ensures definitions { (asked : Key) → definitions_in (T.key_at table.now) self.new asked ≡ definitions_in (T.key_at table.now) self.old asked }
        ensures labels { (asked : Key) → label_in (T.key_at table.now) self.new asked
            ≡ (if is_some (mapped_in (T.key_at table.now) self.new asked) then label_in (T.key_at table.now) self.old asked else None) }
    {
        if let Some(place) = self.place_of(table, hash, name, version) {
            let head = &mut self.heads[place];
            head.overridden = None;
        }
    }

    /// Takes the last definition of the name and version away, where it has one.
    pub fn remove_last<T: Names>(
        &mut self,
        table: &T,
        hash: u64,
        name: &[u8],
        version: Option<&[u8]>,
    )
        requires keyed { IsKeyed (T.key_at table.now) self.old }
        requires hashed { hash ≡ hash_of (key_of name.now version) }
        ensures keyed { IsKeyed (T.key_at table.now) self.new }
        ensures hashes { hashes_in self.new ≡ hashes_in self.old }
        ensures definitions { (asked : Key) → definitions_in (T.key_at table.now) self.new asked
            ≡ (if same_key (key_of name.now version.entry) asked then without_last 1 (definitions_in (T.key_at table.now) self.old asked) else definitions_in (T.key_at table.now) self.old asked) }
        ensures overridden { (asked : Key) → overridden_in (T.key_at table.now) self.new asked ≡ overridden_in (T.key_at table.now) self.old asked }
        ensures labels { (asked : Key) → label_in (T.key_at table.now) self.new asked
            ≡ (if is_some (mapped_in (T.key_at table.now) self.new asked) then label_in (T.key_at table.now) self.old asked else None) }
    {
        if let Some(place) = self.place_of(table, hash, name, version) {
            let head = &mut self.heads[place];
            head.remove_last();
        }
    }

    /// Takes the last definition of the label's key away, where it has one.
    pub(crate) fn take_last<T: Names>(&mut self, table: &T, hash: u64, label: Label)
        requires keyed { IsKeyed (T.key_at table.now) self.old }
        requires hashed { number_of (T.key_at table.now) label ≡ Some hash }
        ensures keyed { IsKeyed (T.key_at table.now) self.new }
        ensures hashes { hashes_in self.new ≡ hashes_in self.old }
        ensures definitions { (asked : Key) → definitions_in (T.key_at table.now) self.new asked
            ≡ (if leads_to (T.key_at table.now) label asked then without_last 1 (definitions_in (T.key_at table.now) self.old asked) else definitions_in (T.key_at table.now) self.old asked) }
        ensures overridden { (asked : Key) → overridden_in (T.key_at table.now) self.new asked ≡ overridden_in (T.key_at table.now) self.old asked }
        ensures labels { (asked : Key) → label_in (T.key_at table.now) self.new asked
            ≡ (if is_some (mapped_in (T.key_at table.now) self.new asked) then label_in (T.key_at table.now) self.old asked else None) }
    {
        if let Some(place) = self.place_of_label(table, hash, label) {
            let head = &mut self.heads[place];
            head.remove_last();
        }
    }

    /// Gives up the definitions of each name behind its first, and their memory.
    pub fn release_later(&mut self)
        ensures heads { heads_in self.new ≡ map first_alone (heads_in self.old) }
        ensures keyed { (names : Label → Option Key) → IsKeyed names self.old → IsKeyed names self.new }
        ensures hashes { hashes_in self.new ≡ hashes_in self.old }
        ensures definitions { (names : Label → Option Key) (asked : Key) → definitions_in names self.new asked ≡ take 1 (definitions_in names self.old asked) }
        ensures overridden { (names : Label → Option Key) (asked : Key) → overridden_in names self.new asked ≡ overridden_in names self.old asked }
        ensures labels { (names : Label → Option Key) (asked : Key) → label_in names self.new asked ≡ label_in names self.old asked }
    {
        release_all(self.heads.as_mut_slice());
    }
}
