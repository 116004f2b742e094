//! How a value of the manifest is read, whatever its kind.

ghost use Rattle.std.specs.Prelude.{◌≡◌, ◌++◌, [], map, option_map, None, Result, Ok};
ghost use Rattle.std.specs.List.{list_any};
ghost use Rattle.std.specs.Str.{bytes_eq};
ghost use Rattle.serde_json.specs.Data.{Data};
ghost use Rattle.link_manifest_json.specs.Tree.{view, items_view, members_view};
ghost use Rattle.link_manifest.specs.declared.fault.ManifestFault.{ManifestFault};
ghost use Rattle.link_manifest.specs.Reading.{and_read, is_sooner, with_key, unknown_key, none_unknown, object_of_keys, required, optional, or_null, items_read, list_read, Reads};

use crate::fault::{Kind, ManifestError, Problem};
use crate::path::{at_item, at_key, error_at_key, fault_here};
use json::Value;
use link_manifest_json::{get, is_null};
use link_names::Seq;
use std::alloc::Global;
use std::marker::PhantomData;

/// A kind of value of the manifest.
pub(crate) trait Readable {
    /// What a value of the kind stands for.
    type Read: Drop;

    /// What a value stands for, or what is wrong with it.
    ghost read: { Data → Result Self.Read ManifestFault };

    /// Reads a value.
    fn read(alloc: Global, value: &Value<'_>) -> Result<Self::Read, ManifestError>
        ensures { Reads result (read (view value.now)) };
}

/// The key is one of these.
fn is_known(known: &[&str], key: &str) -> bool
    ensures { result ≡ list_any (λ k. bytes_eq k key.now) (map (λ k. k.now) known.now) }
{
    for name in known {
        if *name == key {
            return true;
        }
    }
    false
}

/// The key comes before the other one, or there is no other.
fn is_sooner(key: &str, other: Option<&str>) -> bool
    ensures { result ≡ is_sooner key.now (option_map (λ k. k.now) other.entry) }
{
    match other {
        Some(other) => key < other,
        None => true,
    }
}

/// The least unknown key among those so far and this one.
fn with_key<'a>(known: &[&str], key: &'a str, least: Option<&'a str>) -> Option<&'a str>
    ensures { option_map (λ k. k.now) result ≡ with_key (map (λ k. k.now) known.now) key.now (option_map (λ k. k.now) least.entry) }
{
    if is_known(known, key) || !is_sooner(key, least) {
        return least;
    }
    Some(key)
}

/// The least key that is none of these.
fn unknown_key<'a>(members: &[(&'a str, Value<'a>)], known: &[&str]) -> Option<&'a str>
    ensures { option_map (λ k. k.now) result ≡ unknown_key (map (λ k. k.now) known.now) (members_view members.now) }
{
    let mut least = None;
    for member in members {
        least = with_key(known, member.0, least);
    }
    least
}

/// Tells an unknown key, where there is one.
fn none_unknown(alloc: Global, unknown: Option<&str>) -> Result<(), ManifestError>
    ensures { Reads result (none_unknown (option_map (λ k. k.now) unknown.entry)) }
{
    match unknown {
        None => Ok(()),
        Some(key) => Err(error_at_key(alloc, key, fault_here(alloc, Problem::UnknownKey))),
    }
}

/// The value is an object that has no other keys than these.
pub(crate) fn object_of_keys(
    alloc: Global,
    value: &Value<'_>,
    known: &[&str],
) -> Result<(), ManifestError>
    ensures { Reads result (object_of_keys (map (λ k. k.now) known.now) (view value.now)) }
{
    match link_manifest_json::members(value) {
        Some(members) => none_unknown(alloc, unknown_key(members, known)),
        None => Err(fault_here(alloc, Problem::Expected(Kind::Object))),
    }
}

/// The value of a key that has to be there.
pub(crate) fn required<K: Readable>(
    alloc: Global,
    value: &Value<'_>,
    key: &str,
) -> Result<K::Read, ManifestError>
    ensures { Reads result (required key.now K.read (view value.now)) }
{
    match get(value, key) {
        Some(found) => at_key(alloc, key, K::read(alloc, found)),
        None => Err(error_at_key(alloc, key, fault_here(alloc, Problem::Missing))),
    }
}

/// The value of a key that may be left out.
pub(crate) fn optional<K: Readable>(
    alloc: Global,
    value: &Value<'_>,
    key: &str,
    default: K::Read,
) -> Result<K::Read, ManifestError>
    ensures { Reads result (optional key.now K.read default (view value.now)) }
{
    match get(value, key) {
        Some(found) => at_key(alloc, key, K::read(alloc, found)),
        None => Ok(default),
    }
}

/// Reads the items of a list, behind those that stand before them.
pub(crate) fn items<K: Readable>(
    alloc: Global,
    values: &[Value<'_>],
    before: Vec<K::Read>,
) -> Result<Seq<K::Read>, ManifestError>
    ensures { Reads result (and_read (items_read K.read 0 (items_view values.now)) (λ items. Ok (before.items ++ items))) }
{
    let mut read = before;
    read.reserve(values.len())?;
    for (place, value) in values.iter().enumerate() {
        read.push(at_item(place, K::read(alloc, value))?)?;
    }
    Ok(Seq::from_vec(read))
}

/// A list of values of a kind.
pub(crate) struct ListOf<K> {
    kind: PhantomData<K>,
}

impl<K: Readable> Readable for ListOf<K> {
    type Read = Seq<K::Read>;

    ghost read = { list_read K.read };

    fn read(alloc: Global, value: &Value<'_>) -> Result<Seq<K::Read>, ManifestError> {
        match link_manifest_json::items(value) {
            Some(values) => items::<K>(alloc, values, Vec::new(alloc)),
            None => Err(fault_here(alloc, Problem::Expected(Kind::List))),
        }
    }
}

/// The value of a key that is a list; one that is left out is empty.
pub(crate) fn optional_list<K: Readable>(
    alloc: Global,
    value: &Value<'_>,
    key: &str,
) -> Result<Seq<K::Read>, ManifestError>
    ensures { Reads result (optional key.now (list_read K.read) [] (view value.now)) }
{
    optional::<ListOf<K>>(alloc, value, key, Seq::new(alloc))
}

/// A value of a kind, or null.
pub(crate) struct OrNull<K> {
    kind: PhantomData<K>,
}

impl<K: Readable> Readable for OrNull<K> {
    type Read = Option<K::Read>;

    ghost read = { or_null K.read };

    fn read(alloc: Global, value: &Value<'_>) -> Result<Option<K::Read>, ManifestError> {
        if is_null(value) {
            return Ok(None);
        }
        Ok(Some(K::read(alloc, value)?))
    }
}

/// The value of a key that may be null; one that is left out is null.
pub(crate) fn nullable<K: Readable>(
    alloc: Global,
    value: &Value<'_>,
    key: &str,
) -> Result<Option<K::Read>, ManifestError>
    ensures { Reads result (optional key.now (or_null K.read) None (view value.now)) }
{
    optional::<OrNull<K>>(alloc, value, key, None)
}
