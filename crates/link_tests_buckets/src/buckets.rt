//! What no clause says: that the calls succeed where memory is ample, with names that share a hash number.

ghost use Rattle.std.specs.Prelude.{◌≡◌, ◌<◌, ◌&&◌, ℕ, IfOk, OnOk, Some, option_map, slice_get};
ghost use Rattle.std.specs.Option.{option_eq};
ghost use Rattle.std.specs.Str.{bytes_eq};
ghost use Rattle.link_db_buckets.specs.declared.label.Label.TheVariants.{Plain, Versioned, Added};
ghost use Rattle.link_db_buckets.specs.Buckets.{AreKeyed, AreHashed};
ghost use Rattle.link_db_buckets.specs.Keys.{key_of, number_of, same_key};

use link_db_buckets::{Buckets, Definition, Definitions, Label, Names, key_hash};
use link_names::Name;
use std::alloc::{AllocError, Global};
use std::test::Fail;
use std::thread::Threads;

/// A name of a table, with its version where it has one.
#[derive(Drop)]
struct Entry {
    name: Name,
    version: Option<Name>,
}

/// Whether both are the same version, or none.
fn is_version(own: &Option<Name>, version: Option<&[u8]>) -> bool
    ensures { result ≡ option_eq bytes_eq own.now (option_map (λ v. v.now) version.entry) }
{
    match (own, version) {
        (None, None) => true,
        (Some(own), Some(version)) => own.is(version),
        _ => false,
    }
}

/// A table whose labels lead to the entry of their number.
#[derive(Drop)]
struct Texts {
    entries: Vec<Entry>,
}

/// The number of a label.
fn number_in(label: Label) -> usize
    ensures { result ≡ elim label as (λ _. ℕ) [ Plain n ↦ n | Versioned n ↦ n | Added n ↦ n ] }
{
    match label {
        Label::Plain(number) => number as usize,
        Label::Versioned(number) => number as usize,
        Label::Added(number) => number as usize,
    }
}

impl Names for Texts {
    ghost key_at = { λ t label. option_map (λ e. record { name = e.name; version = e.version })
        (slice_get t.entries.items (elim label as (λ _. ℕ) [ Plain n ↦ n | Versioned n ↦ n | Added n ↦ n ])) };

    fn has_key(&self, label: Label, name: &[u8], version: Option<&[u8]>) -> bool {
        match self.entries.get(number_in(label)) {
            Some(entry) => entry.name.is(name) && is_version(&entry.version, version),
            None => false,
        }
    }

    fn have_same_key(&self, a: Label, b: Label) -> bool {
        match self.entries.get(number_in(b)) {
            Some(entry) => {
                let version = entry.version.as_ref().map(|version| version.as_slice());
                self.has_key(a, entry.name.as_slice(), version)
            }
            None => false,
        }
    }
}

impl Texts {
    /// The hash number of the name to which a label leads.
    fn number(&self, label: Label) -> Option<u64>
        ensures { result ≡ number_of (⟦<Texts as Names>⟧.key_at self.now) label }
    {
        let entry = self.entries.get(number_in(label))?;
        let version = entry.version.as_ref().map(|version| version.as_slice());
        Some(key_hash(entry.name.as_slice(), version))
    }
}

/// Names of which the first two have one hash number, and so have the next two. They were found by a search of some 10^10 steps for each pair.
const ENTRIES: &[(&[u8], Option<&[u8]>)] = &[
    (b"kfhclnilncdfdjoc", None),
    (b"njmejopfpibhlkfl", None),
    (b"gpkfdgdfdhpjbpol", None),
    (b"fgejahcimlndlblo", None),
    (b"f", Some(b"V1")),
    (b"f", Some(b"V2")),
    (b"f", None),
    (b"kfhclnilncdfdjoc", None),
];

/// Names and versions with their numbers, which another program computed.
const NUMBERS: &[(&[u8], Option<&[u8]>, u64)] = &[
    (b"", None, 0xd1fb_a762_150c_532c),
    (b"a", None, 0x4074_48d2_b89b_1813),
    (b"_ZdlPv_", None, 0xa626_d237_b950_27c1),
    (b"strerror", None, 0x0ed9_fd19_fa87_90fd),
    (b"pthread_x", None, 0x827e_7e5c_c1b1_29e0),
    (b"__cxa_finalize_x", None, 0xc318_d45c_806e_8e26),
    (
        b"_ZNSt6vectorIiSaIiEE9push_backE",
        None,
        0x0ce5_4d72_0677_5ad9,
    ),
    (b"kfhclnilncdfdjoc", None, 0x4585_4ea5_9d20_6308),
    (b"njmejopfpibhlkfl", None, 0x4585_4ea5_9d20_6308),
    (b"gpkfdgdfdhpjbpol", None, 0x9b03_6c8c_506a_33e9),
    (b"fgejahcimlndlblo", None, 0x9b03_6c8c_506a_33e9),
    (b"printf", Some(b"GLIBC_2.2.5"), 0x029c_da8a_1ded_4452),
    (b"printf", Some(b""), 0xdb98_6b13_d872_4ff7),
    (b"", Some(b""), 0x666f_bc8a_597d_95f8),
    (b"f", Some(b"V1"), 0x44e9_7fdd_bacc_c7cb),
    (b"f", Some(b"V2"), 0xeb09_4ab6_cc68_94ec),
];

#[test]
fn numbers_are_those_of_siphash(rt: HostRuntime) -> Result<(), Fail> {
    for &(name, version, want) in NUMBERS {
        assert_eq!(rt; key_hash(name, version), want);
    }
    Ok(())
}

/// A version on the heap, or none.
fn make_version(alloc: Global, version: Option<&[u8]>) -> Result<Option<Name>, AllocError> {
    match version {
        Some(version) => Ok(Some(Name::from_slice(alloc, version)?)),
        None => Ok(None),
    }
}

/// An entry with this name and this version.
fn make_entry(alloc: Global, name: &[u8], version: Option<&[u8]>) -> Result<Entry, AllocError> {
    let version = make_version(alloc, version)?;
    let name = Name::from_slice(alloc, name)?;
    Ok(Entry { name, version })
}

/// The table of the entries.
fn make_table(alloc: Global) -> Result<Texts, AllocError> {
    let mut entries = Vec::new(alloc);
    for &(name, version) in ENTRIES {
        entries.push(make_entry(alloc, name, version)?)?;
    }
    Ok(Texts { entries })
}

/// Appends a definition of an entry.
fn define(
    definitions: &mut Vec<Definition>,
    table: &Texts,
    entry: u32,
    id: u32,
) -> Result<(), AllocError>
    requires { AreHashed (⟦<Texts as Names>⟧.key_at table.now) definitions.old.items }
    ensures { OnOk result (AreHashed (⟦<Texts as Names>⟧.key_at table.now) definitions.new.items) }
{
    let label = Label::Plain(entry);
    if let Some(hash) = table.number(label) {
        definitions.push(Definition { hash, label, id })?;
    }
    Ok(())
}

/// Definitions of entries, with ids.
fn definitions(
    alloc: Global,
    table: &Texts,
    pairs: &[(u32, u32)],
) -> Result<Vec<Definition>, AllocError>
    ensures { IfOk result (λ v. AreHashed (⟦<Texts as Names>⟧.key_at table.now) v.items) }
{
    let mut definitions = Vec::new(alloc);
    for &(entry, id) in pairs {
        define(&mut definitions, table, entry, id)?;
    }
    Ok(definitions)
}

/// Appends an id, with a blank behind it.
fn append_id(alloc: Global, text: &mut String, id: u32) -> Result<(), AllocError> {
    text.push_str(format!(in alloc; "{id} ")?.as_str())
}

/// The ids, each with a blank behind it.
fn ids_text(alloc: Global, definitions: &Definitions) -> Result<String, AllocError> {
    let mut text = String::new(alloc);
    append_id(alloc, &mut text, definitions.first())?;
    for &id in definitions.later() {
        append_id(alloc, &mut text, id)?;
    }
    Ok(text)
}

/// The ids of definitions that a name may have.
fn listed(alloc: Global, definitions: Option<&Definitions>) -> Result<String, AllocError> {
    match definitions {
        Some(definitions) => ids_text(alloc, definitions),
        None => Ok(String::new(alloc)),
    }
}

/// What a name is mapped to.
fn mapped_text(alloc: Global, mapped: Option<u32>) -> Result<String, AllocError> {
    match mapped {
        Some(id) => format!(in alloc; "> {id}"),
        None => format!(in alloc; "> nothing"),
    }
}

/// The version of an entry.
fn version_of(entry: &Entry) -> Option<&[u8]> {
    entry.version.as_ref().map(|version| version.as_slice())
}

/// The definitions of an entry's name, and what it is mapped to.
fn shown(
    alloc: Global,
    buckets: &Buckets,
    table: &Texts,
    entry: usize,
) -> Result<String, AllocError>
    requires { AreKeyed (⟦<Texts as Names>⟧.key_at table.now) buckets.now }
{
    let Some(entry) = table.entries.get(entry) else {
        return Ok(String::new(alloc));
    };
    let name = entry.name.as_slice();
    let version = version_of(entry);
    let hash = key_hash(name, version);
    let mut text = listed(alloc, buckets.definitions(table, hash, name, version))?;
    let mapped = buckets.mapped(table, hash, name, version);
    text.push_str(mapped_text(alloc, mapped)?.as_str())?;
    Ok(text)
}

/// Appends what is shown of an entry's name, and a mark behind it.
fn append_shown(
    alloc: Global,
    text: &mut String,
    buckets: &Buckets,
    table: &Texts,
    entry: usize,
) -> Result<(), AllocError>
    requires { AreKeyed (⟦<Texts as Names>⟧.key_at table.now) buckets.now }
{
    text.push_str(shown(alloc, buckets, table, entry)?.as_str())?;
    text.push_str("; ")
}

/// Appends a sign for each head that is in use.
fn append_used(text: &mut String, buckets: &Buckets) -> Result<(), AllocError> {
    for bucket in buckets.buckets() {
        for head in bucket.heads() {
            if head.is_used() {
                text.push_str("+")?;
            }
        }
    }
    Ok(())
}

/// All names, one after another, and how many heads are in use.
fn all_shown(alloc: Global, buckets: &Buckets, table: &Texts) -> Result<String, AllocError>
    requires { AreKeyed (⟦<Texts as Names>⟧.key_at table.now) buckets.now }
{
    let mut text = String::new(alloc);
    for entry in 0..table.entries.len() {
        append_shown(alloc, &mut text, buckets, table, entry)?;
    }
    append_used(&mut text, buckets)?;
    Ok(text)
}

/// Whether this is shown of all names.
fn is_shown(alloc: Global, buckets: &Buckets, table: &Texts, want: &str) -> Result<bool, AllocError>
    requires { AreKeyed (⟦<Texts as Names>⟧.key_at table.now) buckets.now }
{
    Ok(all_shown(alloc, buckets, table)?.as_str() == want)
}

const FIRST: &[(u32, u32)] = &[
    (0, 10),
    (1, 11),
    (2, 12),
    (4, 14),
    (5, 15),
    (7, 17),
    (1, 18),
];

const SECOND: &[(u32, u32)] = &[(0, 20), (3, 23), (3, 24), (6, 26)];

const AFTER_FIRST: &str =
    "10 17 > 10; 11 18 > 11; 12 > 12; > nothing; 14 > 14; 15 > 15; > nothing; 10 17 > 10; +++++";

const AFTER_BOTH: &str =
    "10 17 20 > 10; 11 18 > 11; 12 > 12; 23 24 > 23; 14 > 14; 15 > 15; 26 > 26; 10 17 20 > 10; +++++++";

const COUNTS: &[usize] = &[1, 2, 256];

/// Adds definitions of entries.
fn add_definitions<R: Threads + Sync>(
    rt: &R,
    alloc: Global,
    buckets: &mut Buckets,
    table: &Texts,
    pairs: &[(u32, u32)],
) -> Result<(), AllocError>
    requires { AreKeyed (⟦<Texts as Names>⟧.key_at table.now) buckets.old }
    ensures { AreKeyed (⟦<Texts as Names>⟧.key_at table.now) buckets.new }
{
    let part = definitions(alloc, table, pairs)?;
    buckets.apply(rt, table, &[part.as_slice()])
}

/// Takes the last definitions of entries back.
fn take_back(
    alloc: Global,
    buckets: &mut Buckets,
    table: &Texts,
    pairs: &[(u32, u32)],
) -> Result<(), AllocError>
    requires { AreKeyed (⟦<Texts as Names>⟧.key_at table.now) buckets.old }
    ensures { AreKeyed (⟦<Texts as Names>⟧.key_at table.now) buckets.new }
{
    let part = definitions(alloc, table, pairs)?;
    buckets.undo(table, &[part.as_slice()]);
    Ok(())
}

/// Buckets with the first definitions.
fn with_first<R: Threads + Sync>(
    rt: &R,
    alloc: Global,
    table: &Texts,
    count: usize,
) -> Result<Buckets, AllocError>
    requires { 0 < count }
    ensures { IfOk result (λ bs. AreKeyed (⟦<Texts as Names>⟧.key_at table.now) bs) }
{
    let mut buckets = Buckets::new(alloc, count)?;
    add_definitions(rt, alloc, &mut buckets, table, FIRST)?;
    Ok(buckets)
}

/// Adds the second definitions, and takes them back: whether both times all that is wanted is shown.
fn are_told_apart<R: Threads + Sync>(
    rt: &R,
    alloc: Global,
    buckets: &mut Buckets,
    table: &Texts,
) -> Result<(bool, bool), AllocError>
    requires { AreKeyed (⟦<Texts as Names>⟧.key_at table.now) buckets.old }
{
    add_definitions(rt, alloc, buckets, table, SECOND)?;
    let both = is_shown(alloc, buckets, table, AFTER_BOTH)?;
    take_back(alloc, buckets, table, SECOND)?;
    Ok((both, is_shown(alloc, buckets, table, AFTER_FIRST)?))
}

/// Whether so many buckets show what is wanted once definitions are added, and once some of them are taken back.
fn added_and_taken_back<R: Threads + Sync>(
    rt: &R,
    alloc: Global,
    count: usize,
) -> Result<(bool, bool), AllocError>
    requires { 0 < count }
{
    let table = make_table(alloc)?;
    let mut buckets = with_first(rt, alloc, &table, count)?;
    are_told_apart(rt, alloc, &mut buckets, &table)
}

#[test]
fn names_are_told_apart_in_any_number_of_buckets(rt: HostRuntime) -> Result<(), Fail> {
    for &count in COUNTS {
        let (both, first) = added_and_taken_back(&rt, rt.alloc(), count.max(1))?;
        assert!(rt; both, "after both, in {count} buckets");
        assert!(rt; first, "after the first, in {count} buckets");
    }
    Ok(())
}

/// Whether some name may have the hash number of an entry.
fn may_have(buckets: &Buckets, table: &Texts, entry: u32) -> Option<bool> {
    Some(buckets.may_have(table.number(Label::Plain(entry))?))
}

/// Definitions of two entries, one of them with a hash number that another name has.
const PART: &[(u32, u32)] = &[(0, 10), (4, 14)];

/// Entries, and whether some name may have their numbers before there is any.
const KNOWN_BEFORE: &[(u32, bool)] = &[(0, false)];

/// Entries, and whether some name may have their numbers once the part is added.
const KNOWN_AFTER: &[(u32, bool)] = &[(0, true), (1, true), (2, false), (5, false)];

/// Whether it is known of each entry, as wanted, if some name may have its number.
fn are_known(buckets: &Buckets, table: &Texts, wanted: &[(u32, bool)]) -> bool {
    for &(entry, want) in wanted {
        if may_have(buckets, table, entry) != Some(want) {
            return false;
        }
    }
    true
}

/// Whether it is known as wanted, before and after the part is added.
fn known_in<R: Threads + Sync>(
    rt: &R,
    alloc: Global,
    count: usize,
) -> Result<(bool, bool), AllocError>
    requires { 0 < count }
{
    let table = make_table(alloc)?;
    let mut buckets = Buckets::new(alloc, count)?;
    let before = are_known(&buckets, &table, KNOWN_BEFORE);
    add_definitions(rt, alloc, &mut buckets, &table, PART)?;
    Ok((before, are_known(&buckets, &table, KNOWN_AFTER)))
}

#[test]
fn numbers_are_known_once_a_name_has_them(rt: HostRuntime) -> Result<(), Fail> {
    for &count in COUNTS {
        let (before, after) = known_in(&rt, rt.alloc(), count.max(1))?;
        assert!(rt; before, "before, in {count} buckets");
        assert!(rt; after, "after, in {count} buckets");
    }
    Ok(())
}

/// How often each entry is defined in a part: so often that threads share the definitions of two parts.
const ROUNDS: u32 = 1000;

/// Definitions of all entries again and again, each with the next id.
fn many_definitions(alloc: Global, table: &Texts) -> Result<Vec<Definition>, AllocError>
    ensures { IfOk result (λ v. AreHashed (⟦<Texts as Names>⟧.key_at table.now) v.items) }
{
    let mut definitions = Vec::new(alloc);
    for id in 0..8 * ROUNDS {
        define(&mut definitions, table, id % 8, id)?;
    }
    Ok(definitions)
}

/// How many definitions an entry's name has, with the first and the last of them.
fn ends(buckets: &Buckets, table: &Texts, entry: usize) -> Option<(usize, u32, u32)>
    requires { AreKeyed (⟦<Texts as Names>⟧.key_at table.now) buckets.now }
{
    let entry = table.entries.get(entry)?;
    let name = entry.name.as_slice();
    let version = version_of(entry);
    let definitions = buckets.definitions(table, key_hash(name, version), name, version)?;
    let later = definitions.later();
    Some((later.len(), definitions.first(), *later.last()?))
}

/// Two parts of many definitions are added.
fn many_added<R: Threads + Sync>(
    rt: &R,
    alloc: Global,
    table: &Texts,
    count: usize,
) -> Result<Buckets, AllocError>
    requires { 0 < count }
    ensures { IfOk result (λ bs. AreKeyed (⟦<Texts as Names>⟧.key_at table.now) bs) }
{
    let mut buckets = Buckets::new(alloc, count)?;
    let part = many_definitions(alloc, table)?;
    buckets.apply(rt, table, &[part.as_slice(), part.as_slice()])?;
    Ok(buckets)
}

/// Entries, and how many definitions their names have, with the first and the last of them.
const ENDS: &[(usize, (usize, u32, u32))] = &[
    (0, (3999, 0, 7999)),
    (1, (1999, 1, 7993)),
    (6, (1999, 6, 7998)),
    (7, (3999, 0, 7999)),
];

/// Whether the names of the entries have the wanted definitions.
fn have_ends(buckets: &Buckets, table: &Texts) -> bool
    requires { AreKeyed (⟦<Texts as Names>⟧.key_at table.now) buckets.now }
{
    for &(entry, want) in ENDS {
        if ends(buckets, table, entry) != Some(want) {
            return false;
        }
    }
    true
}

/// Whether many definitions in so many buckets are as wanted.
fn share_in<R: Threads + Sync>(rt: &R, alloc: Global, count: usize) -> Result<bool, AllocError>
    requires { 0 < count }
{
    let table = make_table(alloc)?;
    let buckets = many_added(rt, alloc, &table, count)?;
    Ok(have_ends(&buckets, &table))
}

#[test]
fn threads_share_many_definitions(rt: HostRuntime) -> Result<(), Fail> {
    for &count in COUNTS {
        assert!(rt;
            share_in(&rt, rt.alloc(), count.max(1))?,
            "in {count} buckets"
        );
    }
    Ok(())
}

/// A call on a name.
#[derive(Clone, Copy)]
enum Call {
    Add,
    Override,
    Remap,
    Restore,
    RemoveLast,
    ReleaseLater,
}

/// Makes a call on an entry.
fn called(
    buckets: &mut Buckets,
    table: &Texts,
    call: Call,
    number: u32,
    id: u32,
) -> Result<(), AllocError>
    requires { AreKeyed (⟦<Texts as Names>⟧.key_at table.now) buckets.old }
    ensures { AreKeyed (⟦<Texts as Names>⟧.key_at table.now) buckets.new }
{
    let label = Label::Versioned(number);
    let Some(hash) = table.number(label) else {
        return Ok(());
    };
    let Some(entry) = table.entries.get(number as usize) else {
        return Ok(());
    };
    let name = entry.name.as_slice();
    let version = version_of(entry);
    match call {
        Call::Add => buckets.add(table, hash, label, id)?,
        Call::Override => {
            let _before = buckets.override_name(table, hash, label, id)?;
        }
        Call::Remap => {
            if buckets
                .mapped(table, key_hash(name, version), name, version)
                .is_some()
            {
                buckets.remap(table, key_hash(name, version), name, version, id);
            }
        }
        Call::Restore => buckets.restore(table, key_hash(name, version), name, version),
        Call::RemoveLast => buckets.remove_last(table, key_hash(name, version), name, version),
        Call::ReleaseLater => buckets.release_later(),
    }
    Ok(())
}

/// Calls one after another, each on an entry with an id, and what the entry's name has then.
const CALLS: &[(Call, u32, u32, &str)] = &[
    (Call::Add, 0, 10, "10 > 10"),
    (Call::Override, 0, 20, "10 > 20"),
    (Call::Add, 7, 17, "10 17 > 20"),
    (Call::RemoveLast, 0, 0, "10 > 20"),
    (Call::RemoveLast, 0, 0, "> 20"),
    (Call::RemoveLast, 0, 0, "> 20"),
    (Call::Add, 0, 30, "30 > 20"),
    (Call::Restore, 0, 0, "30 > 30"),
    (Call::RemoveLast, 0, 0, "> nothing"),
    (Call::Restore, 0, 0, "> nothing"),
    (Call::Override, 1, 40, "> 40"),
    (Call::Add, 1, 41, "41 > 40"),
    (Call::Restore, 1, 0, "41 > 41"),
    (Call::Add, 4, 50, "50 > 50"),
    (Call::Add, 5, 51, "51 > 51"),
    (Call::RemoveLast, 5, 0, "> nothing"),
    (Call::Restore, 4, 0, "50 > 50"),
    (Call::Add, 4, 52, "50 52 > 50"),
    (Call::Remap, 4, 53, "50 52 > 53"),
    (Call::ReleaseLater, 4, 0, "50 > 53"),
    (Call::Add, 0, 60, "60 > 60"),
];

/// Whether this is shown of an entry's name.
fn has_text(
    alloc: Global,
    buckets: &Buckets,
    table: &Texts,
    entry: u32,
    want: &str,
) -> Result<bool, AllocError>
    requires { AreKeyed (⟦<Texts as Names>⟧.key_at table.now) buckets.now }
{
    Ok(shown(alloc, buckets, table, entry as usize)?.as_str() == want)
}

#[test]
fn calls_change_one_name(rt: HostRuntime) -> Result<(), Fail> {
    let alloc = rt.alloc();
    let table = make_table(alloc)?;
    let mut buckets = Buckets::new(alloc, 2)?;
    for &(call, entry, id, want) in CALLS {
        called(&mut buckets, &table, call, entry, id)?;
        assert!(rt;
            has_text(alloc, &buckets, &table, entry, want)?,
            "not {want}"
        );
    }
    Ok(())
}
