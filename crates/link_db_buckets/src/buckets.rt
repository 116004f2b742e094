//! The buckets of names.

ghost use Rattle.std.specs.Prelude.{◌<◌, ◌≡◌, map, vec_len};
ghost use Rattle.link_db_buckets.specs.Bucket.{heads_in};
ghost use Rattle.link_db_buckets.specs.Heads.{first_alone};

use crate::bucket::Bucket;
use crate::definition::Definition;
use crate::head::{Definitions, mark_firsts};
use crate::label::{Label, Names};
use crate::mapped_labels::MappedLabels;
use crate::runs::undo_parts;
use crate::shares::{definitions_of, place_among, room_for, threads_for};
use crate::side_by_side::apply_run;
use std::alloc::{AllocError, Global};
use std::thread::Threads;

/// Names in buckets by their hash numbers. What is said of a name is the same for every number of buckets.
#[derive(Drop)]
pub struct Buckets {
    buckets: Vec<Bucket>,
    ghost filled: { 0 < vec_len buckets },
}

impl Buckets {
    ghost use Rattle.std.specs.Prelude.{◌≡◌, ◌≢◌, ◌++◌, [], ◌∷◌, ◌%◌, ℕ, All, AllPairs, Contains, Option, None, Some, false, is_some, IsSomeAnd, IsTrue, IfOk, OnOk, OnErr, length, take, if◌then◌else◌};
    ghost use Rattle.std.specs.Option.{option_map_or, option_or};
    ghost use Rattle.link_db_buckets.specs.declared.label.Label.{Label};
    ghost use Rattle.link_db_buckets.specs.Keys.{Key, hash_of, key_of, leads_to, number_of, same_key};
    ghost use Rattle.link_db_buckets.specs.Heads.{HaveGrown, IsMarked, without_last};
    ghost use Rattle.link_db_buckets.specs.Runs.{joined};
    ghost use Rattle.link_db_buckets.specs.Buckets.{AreHashed, AreKeyed, buckets_in, definitions_at, first_label, ids_with, label_at, mapped_at, overridden_at};

    /// So many buckets, with no names.
    pub fn new(alloc: Global, count: usize) -> Result<Self, AllocError>
        requires { 0 < count }
        ensures count { IfOk result (λ bs. length (buckets_in bs) ≡ count) }
        ensures keyed { IfOk result (λ bs. (names : Label → Option Key) → AreKeyed names bs) }
        ensures definitions { IfOk result (λ bs. (names : Label → Option Key) (asked : Key) → definitions_at names bs asked ≡ []) }
        ensures overridden { IfOk result (λ bs. (names : Label → Option Key) (asked : Key) → overridden_at names bs asked ≡ None) }
        ensures labels { IfOk result (λ bs. (names : Label → Option Key) (asked : Key) → label_at names bs asked ≡ None) }
    {
        let mut buckets = Vec::new(alloc);
        for _ in 0..count {
            buckets.push(Bucket::new(alloc))?;
        }
        Ok(Buckets { buckets })
    }

    /// The buckets, for those who walk over all names.
    pub fn buckets(&self) -> &[Bucket]
        ensures { result.now ≡ buckets_in self.now }
    {
        self.buckets.as_slice()
    }

    /// A label of each name that is mapped to something, with what it is mapped to. The order is that of the buckets, and no clause tells it.
    pub fn mapped_labels(&self) -> MappedLabels<'_>
        ensures mapped { (names : Label → Option Key) → AreKeyed names self.now
            → All (λ pair. IsSomeAnd (names pair.0) (λ key. mapped_at names self.now key ≡ Some pair.1)) result }
        ensures complete { (names : Label → Option Key) (key : Key) (id : ℕ) → AreKeyed names self.now → mapped_at names self.now key ≡ Some id
            → (label : Label) × (names label ≡ Some key) × Contains result (label, id) }
        ensures once { (names : Label → Option Key) → AreKeyed names self.now → AllPairs (λ a b. names a.0 ≢ names b.0) result }
    {
        MappedLabels::new(self.buckets.as_slice())
    }

    /// The place of a hash number's bucket.
    fn place_of(&self, hash: u64) -> usize
        ensures place { result ≡ hash % length (buckets_in self.now) }
        ensures within { result < length (buckets_in self.now) }
    {
        place_among(hash, self.buckets.len())
    }

    /// Adds a definition at the end of those of the label's key.
    pub fn add<T: Names>(
        &mut self,
        table: &T,
        hash: u64,
        label: Label,
        id: u32,
    ) -> Result<(), AllocError>
        requires keyed { AreKeyed (T.key_at table.now) self.old }
        requires hashed { number_of (T.key_at table.now) label ≡ Some hash }
        ensures keyed { AreKeyed (T.key_at table.now) self.new }
        ensures definitions { OnOk result ((asked : Key) → definitions_at (T.key_at table.now) self.new asked
            ≡ (if leads_to (T.key_at table.now) label asked then definitions_at (T.key_at table.now) self.old asked ++ id ∷ [] else definitions_at (T.key_at table.now) self.old asked)) }
        ensures err { OnErr result ((asked : Key) → definitions_at (T.key_at table.now) self.new asked ≡ definitions_at (T.key_at table.now) self.old asked) }
        ensures overridden { (asked : Key) → overridden_at (T.key_at table.now) self.new asked ≡ overridden_at (T.key_at table.now) self.old asked }
        ensures labels { OnOk result ((asked : Key) → label_at (T.key_at table.now) self.new asked
            ≡ (if leads_to (T.key_at table.now) label asked then option_or (label_at (T.key_at table.now) self.old asked) (Some label) else label_at (T.key_at table.now) self.old asked)) }
        ensures labels_err { OnErr result ((asked : Key) → label_at (T.key_at table.now) self.new asked ≡ label_at (T.key_at table.now) self.old asked) }
    {
        let place = self.place_of(hash);
        let bucket = &mut self.buckets[place];
        bucket.add(table, hash, label, id, 0)
    }

    /// The definitions of the name and version, where it has some.
    pub fn definitions<T: Names>(
        &self,
        table: &T,
        hash: u64,
        name: &[u8],
        version: Option<&[u8]>,
    ) -> Option<&Definitions>
        requires keyed { AreKeyed (T.key_at table.now) self.now }
        requires hashed { hash ≡ hash_of (key_of name.now version) }
        ensures { option_map_or (λ d. d.now) result [] ≡ definitions_at (T.key_at table.now) self.now (key_of name.now version.entry) }
    {
        self.buckets[self.place_of(hash)].definitions(table, hash, name, version)
    }

    /// What the name and version is mapped to.
    pub fn mapped<T: Names>(
        &self,
        table: &T,
        hash: u64,
        name: &[u8],
        version: Option<&[u8]>,
    ) -> Option<u32>
        requires keyed { AreKeyed (T.key_at table.now) self.now }
        requires hashed { hash ≡ hash_of (key_of name.now version) }
        ensures { result ≡ mapped_at (T.key_at table.now) self.now (key_of name.now version.entry) }
    {
        self.buckets[self.place_of(hash)].mapped(table, hash, name, version)
    }

    /// Whether some name may have this hash number: where none has, nothing is mapped.
    pub fn may_have(&self, hash: u64) -> bool
        ensures { result ≡ false → (names : Label → Option Key) (asked : Key) → AreKeyed names self.now → hash_of asked ≡ hash → mapped_at names self.now asked ≡ None }
    {
        self.buckets[self.place_of(hash)].may_have(hash)
    }

    /// Overrides what the label's key is mapped to, and answers what it was mapped to before.
    pub fn override_name<T: Names>(
        &mut self,
        table: &T,
        hash: u64,
        label: Label,
        id: u32,
    ) -> Result<Option<u32>, AllocError>
        requires keyed { AreKeyed (T.key_at table.now) self.old }
        requires hashed { number_of (T.key_at table.now) label ≡ Some hash }
        ensures keyed { AreKeyed (T.key_at table.now) self.new }
        ensures before { (asked : Key) → IsTrue (leads_to (T.key_at table.now) label asked) → IfOk result (λ before. before ≡ mapped_at (T.key_at table.now) self.old asked) }
        ensures overridden { OnOk result ((asked : Key) → overridden_at (T.key_at table.now) self.new asked
            ≡ (if leads_to (T.key_at table.now) label asked then Some id else overridden_at (T.key_at table.now) self.old asked)) }
        ensures err { OnErr result ((asked : Key) → overridden_at (T.key_at table.now) self.new asked ≡ overridden_at (T.key_at table.now) self.old asked) }
        ensures definitions { (asked : Key) → definitions_at (T.key_at table.now) self.new asked ≡ definitions_at (T.key_at table.now) self.old asked }
        ensures labels { OnOk result ((asked : Key) → label_at (T.key_at table.now) self.new asked
            ≡ (if leads_to (T.key_at table.now) label asked then option_or (label_at (T.key_at table.now) self.old asked) (Some label) else label_at (T.key_at table.now) self.old asked)) }
        ensures labels_err { OnErr result ((asked : Key) → label_at (T.key_at table.now) self.new asked ≡ label_at (T.key_at table.now) self.old asked) }
    {
        let place = self.place_of(hash);
        let bucket = &mut self.buckets[place];
        bucket.override_name(table, hash, label, id)
    }

    /// Overrides what the name and version is mapped to, where it is mapped to something. Takes no memory, and can't fail.
    pub fn remap<T: Names>(
        &mut self,
        table: &T,
        hash: u64,
        name: &[u8],
        version: Option<&[u8]>,
        id: u32,
    )
        requires keyed { AreKeyed (T.key_at table.now) self.old }
        requires hashed { hash ≡ hash_of (key_of name.now version) }
        requires mapped { IsTrue (is_some (mapped_at (T.key_at table.now) self.old (key_of name.now version))) }
        ensures keyed { AreKeyed (T.key_at table.now) self.new }
        ensures overridden { (asked : Key) → overridden_at (T.key_at table.now) self.new asked
            ≡ (if same_key (key_of name.now version.entry) asked then Some id else overridden_at (T.key_at table.now) self.old asked) }
        ensures definitions { (asked : Key) → definitions_at (T.key_at table.now) self.new asked ≡ definitions_at (T.key_at table.now) self.old asked }
        ensures labels { (asked : Key) → label_at (T.key_at table.now) self.new asked ≡ label_at (T.key_at table.now) self.old asked }
    {
        let place = self.place_of(hash);
        let bucket = &mut self.buckets[place];
        bucket.remap(table, hash, name, version, id);
    }

    /// Takes away what the name and version is overridden with.
    pub fn restore<T: Names>(&mut self, table: &T, hash: u64, name: &[u8], version: Option<&[u8]>)
        requires keyed { AreKeyed (T.key_at table.now) self.old }
        requires hashed { hash ≡ hash_of (key_of name.now version) }
        ensures keyed { AreKeyed (T.key_at table.now) self.new }
        ensures overridden { (asked : Key) → overridden_at (T.key_at table.now) self.new asked
            ≡ (if same_key (key_of name.now version.entry) asked then None else overridden_at (T.key_at table.now) self.old asked) }
        ensures definitions { (asked : Key) → definitions_at (T.key_at table.now) self.new asked ≡ definitions_at (T.key_at table.now) self.old asked }
        ensures labels { (asked : Key) → label_at (T.key_at table.now) self.new asked
            ≡ (if is_some (mapped_at (T.key_at table.now) self.new asked) then label_at (T.key_at table.now) self.old asked else None) }
    {
        let place = self.place_of(hash);
        let bucket = &mut self.buckets[place];
        bucket.restore(table, hash, name, version);
    }

    /// Takes the last definition of the name and version away, where it has one.
    pub fn remove_last<T: Names>(
        &mut self,
        table: &T,
        hash: u64,
        name: &[u8],
        version: Option<&[u8]>,
    )
        requires keyed { AreKeyed (T.key_at table.now) self.old }
        requires hashed { hash ≡ hash_of (key_of name.now version) }
        ensures keyed { AreKeyed (T.key_at table.now) self.new }
        ensures definitions { (asked : Key) → definitions_at (T.key_at table.now) self.new asked
            ≡ (if same_key (key_of name.now version.entry) asked then without_last 1 (definitions_at (T.key_at table.now) self.old asked) else definitions_at (T.key_at table.now) self.old asked) }
        ensures overridden { (asked : Key) → overridden_at (T.key_at table.now) self.new asked ≡ overridden_at (T.key_at table.now) self.old asked }
        ensures labels { (asked : Key) → label_at (T.key_at table.now) self.new asked
            ≡ (if is_some (mapped_at (T.key_at table.now) self.new asked) then label_at (T.key_at table.now) self.old asked else None) }
    {
        let place = self.place_of(hash);
        let bucket = &mut self.buckets[place];
        bucket.remove_last(table, hash, name, version);
    }

    /// Adds the definitions of parts in order, all of them or none. Runs of buckets take theirs side by side, where there are many.
    pub fn apply<R: Threads + Sync, T: Names + Sync>(
        &mut self,
        rt: &R,
        table: &T,
        parts: &[&[Definition]],
    ) -> Result<(), AllocError>
        requires keyed { AreKeyed (T.key_at table.now) self.old }
        requires hashed { AreHashed (T.key_at table.now) (joined parts.now) }
        ensures keyed { AreKeyed (T.key_at table.now) self.new }
        ensures definitions { OnOk result ((asked : Key) → definitions_at (T.key_at table.now) self.new asked ≡ definitions_at (T.key_at table.now) self.old asked ++ ids_with (T.key_at table.now) (joined parts.now) asked) }
        ensures err { OnErr result ((asked : Key) → definitions_at (T.key_at table.now) self.new asked ≡ definitions_at (T.key_at table.now) self.old asked) }
        ensures overridden { (asked : Key) → overridden_at (T.key_at table.now) self.new asked ≡ overridden_at (T.key_at table.now) self.old asked }
        ensures labels { OnOk result ((asked : Key) → label_at (T.key_at table.now) self.new asked ≡ option_or (label_at (T.key_at table.now) self.old asked) (first_label (T.key_at table.now) (joined parts.now) asked)) }
        ensures labels_err { OnErr result ((asked : Key) → label_at (T.key_at table.now) self.new asked ≡ label_at (T.key_at table.now) self.old asked) }
    {
        let count = self.buckets.len();
        let all = definitions_of(parts);
        let threads = threads_for(rt, all);
        let more = room_for(all, count);
        let run = self.buckets.as_mut_slice();
        apply_run(rt, table, parts, more, threads, count, 0, run)
    }

    /// Takes the definitions back that were added last: as many of each key as there are in all parts.
    pub fn undo<T: Names>(&mut self, table: &T, parts: &[&[Definition]])
        requires keyed { AreKeyed (T.key_at table.now) self.old }
        requires hashed { AreHashed (T.key_at table.now) (joined parts.now) }
        ensures keyed { AreKeyed (T.key_at table.now) self.new }
        ensures definitions { (asked : Key) → definitions_at (T.key_at table.now) self.new asked
            ≡ without_last (length (ids_with (T.key_at table.now) (joined parts.now) asked)) (definitions_at (T.key_at table.now) self.old asked) }
        ensures overridden { (asked : Key) → overridden_at (T.key_at table.now) self.new asked ≡ overridden_at (T.key_at table.now) self.old asked }
        ensures labels { (asked : Key) → label_at (T.key_at table.now) self.new asked
            ≡ (if is_some (mapped_at (T.key_at table.now) self.new asked) then label_at (T.key_at table.now) self.old asked else None) }
    {
        let count = self.buckets.len();
        let run = self.buckets.as_mut_slice();
        undo_parts(table, count, 0, run, parts);
    }

    /// Marks the first definition of each name that has several; marks that are set stay. A symbol that has no mark then heads no list of rivals.
    pub fn mark_firsts(&self, marks: &mut [bool])
        ensures grown { HaveGrown marks.old marks.new }
        ensures marked { (names : Label → Option Key) (asked : Key) → IsMarked marks.new (definitions_at names self.now asked) }
    {
        for bucket in self.buckets.iter() {
            mark_firsts(bucket.heads(), marks);
        }
    }

    /// Gives up the definitions of each name behind its first, and their memory.
    pub fn release_later(&mut self)
        ensures keyed { (names : Label → Option Key) → AreKeyed names self.old → AreKeyed names self.new }
        ensures definitions { (names : Label → Option Key) (asked : Key) → definitions_at names self.new asked ≡ take 1 (definitions_at names self.old asked) }
        ensures overridden { (names : Label → Option Key) (asked : Key) → overridden_at names self.new asked ≡ overridden_at names self.old asked }
        ensures labels { (names : Label → Option Key) (asked : Key) → label_at names self.new asked ≡ label_at names self.old asked }
    {
        release_all(self.buckets.as_mut_slice());
    }
}

/// Gives up the definitions of each name behind its first, in each bucket.
fn release_all(buckets: &mut [Bucket])
    ensures { map heads_in buckets.new ≡ map (map first_alone) (map heads_in buckets.old) }
{
    for bucket in buckets.iter_mut() {
        bucket.release_later();
    }
}
