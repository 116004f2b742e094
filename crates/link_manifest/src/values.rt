//! The kinds of value of a manifest that hold no further keys.

ghost use Rattle.std.specs.Prelude.{◌≡◌, option_map};
ghost use Rattle.serde_json.specs.Find.{as_str};
ghost use Rattle.link_manifest_json.specs.Tree.{view, members_view};
ghost use Rattle.link_names.specs.Names.{value_in};
ghost use Rattle.link_manifest.specs.declared.fault.Kind.TheVariants as kind;
ghost use Rattle.link_manifest.specs.declared.fault.Problem.TheVariants.{Expected};
ghost use Rattle.link_manifest.specs.Reading.{read_or, Reads};
ghost use Rattle.link_manifest.specs.Values.{text_read, hex_text, hex_bytes, bytes_read, bool_read, number_of, number_read, size_read, group_size_of, group_size_read, profile_of, profile_read, place_words, place_of, place_read};

use crate::fault::{Kind, ManifestError, Problem};
use crate::path::fault_here;
use crate::reading::Readable;
use hex::FromHexError;
use json::Value;
use link_input::Place;
use link_manifest_json::{to_bool, to_text, to_u64};
use link_names::Name;
use link_script_syntax::ScriptProfile;
use std::alloc::Global;

/// A JSON text.
pub(crate) struct Text;

impl Readable for Text {
    type Read = Name;

    ghost read = { text_read };

    fn read(alloc: Global, value: &Value<'_>) -> Result<Name, ManifestError> {
        match to_text(value) {
            Some(text) => Ok(Name::from_slice(alloc, text.as_bytes())?),
            None => Err(fault_here(alloc, Problem::Expected(Kind::Text))),
        }
    }
}

/// Bytes.
pub(crate) struct Bytes;

/// The text of the one key of an object, where that key is `hex`.
fn hex_text<'a>(members: &[(&'a str, Value<'a>)]) -> Option<&'a str>
    ensures { option_map (λ t. t.now) result ≡ hex_text (members_view members.now) }
{
    let mut text = None;
    for member in members {
        if member.0 != "hex" {
            return None;
        }
        text = to_text(&member.1);
    }
    text
}

/// The bytes that hexadecimal digits spell.
fn hex_bytes(alloc: Global, digits: &str) -> Result<Name, ManifestError>
    ensures { Reads result (read_or (Expected kind.Bytes) (hex_bytes digits.now)) }
{
    match hex::decode(alloc, digits) {
        Ok(bytes) => Ok(Name::new(bytes)),
        Err(FromHexError::OutOfMemory) => Err(ManifestError::Memory),
        Err(_) => Err(fault_here(alloc, Problem::Expected(Kind::Bytes))),
    }
}

impl Readable for Bytes {
    type Read = Name;

    ghost read = { bytes_read };

    fn read(alloc: Global, value: &Value<'_>) -> Result<Name, ManifestError> {
        if let Some(text) = to_text(value) {
            return Ok(Name::from_slice(alloc, text.as_bytes())?);
        }
        match link_manifest_json::members(value).and_then(hex_text) {
            Some(digits) => hex_bytes(alloc, digits),
            None => Err(fault_here(alloc, Problem::Expected(Kind::Bytes))),
        }
    }
}

/// `true` or `false`.
pub(crate) struct Flag;

impl Readable for Flag {
    type Read = bool;

    ghost read = { bool_read };

    fn read(alloc: Global, value: &Value<'_>) -> Result<bool, ManifestError> {
        match to_bool(value) {
            Some(flag) => Ok(flag),
            None => Err(fault_here(alloc, Problem::Expected(Kind::Bool))),
        }
    }
}

/// A whole number.
pub(crate) struct Number;

/// A whole number without fraction or exponent, below 2^32.
fn number_of(value: &Value<'_>) -> Option<u32>
    ensures { result ≡ number_of (view value.now) }
{
    let number = to_u64(value)?;
    if number > u32::MAX as u64 {
        return None;
    }
    Some(number as u32)
}

impl Readable for Number {
    type Read = u32;

    ghost read = { number_read };

    fn read(alloc: Global, value: &Value<'_>) -> Result<u32, ManifestError> {
        match number_of(value) {
            Some(number) => Ok(number),
            None => Err(fault_here(alloc, Problem::Expected(Kind::Number))),
        }
    }
}

/// The size of a symbol: a whole number below 2^64.
pub(crate) struct Size;

impl Readable for Size {
    type Read = u64;

    ghost read = { size_read };

    fn read(alloc: Global, value: &Value<'_>) -> Result<u64, ManifestError> {
        match to_u64(value) {
            Some(size) => Ok(size),
            None => Err(fault_here(alloc, Problem::Expected(Kind::Number))),
        }
    }
}

/// How many files may be one group.
pub(crate) struct GroupSize;

/// A number from 1 to 256.
fn group_size_of(value: &Value<'_>) -> Option<u32>
    ensures { result ≡ group_size_of (view value.now) }
{
    let size = number_of(value)?;
    if size < 1 || size > 256 {
        return None;
    }
    Some(size)
}

impl Readable for GroupSize {
    type Read = u32;

    ghost read = { group_size_read };

    fn read(alloc: Global, value: &Value<'_>) -> Result<u32, ManifestError> {
        match group_size_of(value) {
            Some(size) => Ok(size),
            None => Err(fault_here(alloc, Problem::Expected(Kind::Number))),
        }
    }
}

/// The number of a profile in which scripts are read.
pub(crate) struct Profile;

/// The profile of number 1, Wild's, or of number 2, the lenient one.
fn profile_of(value: &Value<'_>) -> Option<ScriptProfile>
    ensures { result ≡ profile_of (view value.now) }
{
    match number_of(value)? {
        1 => Some(ScriptProfile::Wild),
        2 => Some(ScriptProfile::Lenient),
        _ => None,
    }
}

impl Readable for Profile {
    type Read = ScriptProfile;

    ghost read = { profile_read };

    fn read(alloc: Global, value: &Value<'_>) -> Result<ScriptProfile, ManifestError> {
        match profile_of(value) {
            Some(profile) => Ok(profile),
            None => Err(fault_here(alloc, Problem::Expected(Kind::Number))),
        }
    }
}

/// Where a symbol stands.
pub(crate) struct SymbolPlace;

/// The place outside every section that a word stands for.
fn place_word(word: &str) -> Option<Place>
    ensures { result ≡ value_in place_words word.now }
{
    match word {
        "undefined" => Some(Place::Undefined),
        "absolute" => Some(Place::Absolute),
        "common" => Some(Place::Common),
        _ => None,
    }
}

/// The place that a word stands for, or the number of a section.
fn place_of(value: &Value<'_>) -> Option<Place>
    ensures { result ≡ place_of (as_str (view value.now)) (number_of (view value.now)) }
{
    match to_text(value) {
        Some(word) => place_word(word),
        None => Some(Place::Section(number_of(value)?)),
    }
}

impl Readable for SymbolPlace {
    type Read = Place;

    ghost read = { place_read };

    fn read(alloc: Global, value: &Value<'_>) -> Result<Place, ManifestError> {
        match place_of(value) {
            Some(place) => Ok(place),
            None => Err(fault_here(alloc, Problem::Expected(Kind::Place))),
        }
    }
}
