//! What a tree is, and what stands in it.

ghost use Rattle.std.specs.Prelude.{◌≡◌, is_some, option_and_then, option_map};
ghost use Rattle.serde_json.specs.Find.{as_array, as_bool, as_null, as_number, as_object, as_str, as_u64};
ghost use Rattle.serde_json.specs.Find as find;
ghost use Rattle.link_manifest_json.specs.Tree.{view, items_view, members_view};

use crate::number;
use json::Value;

/// The value is null.
pub fn is_null(value: &Value<'_>) -> bool
    ensures { result ≡ is_some (as_null (view value.now)) }
{
    value.is_null()
}

/// The truth value that a value is.
pub fn to_bool(value: &Value<'_>) -> Option<bool>
    ensures { result ≡ as_bool (view value.now) }
{
    value.as_bool()
}

/// The text that a value is.
pub fn to_text<'a>(value: &Value<'a>) -> Option<&'a str>
    ensures { option_map (λ s. s.now) result ≡ as_str (view value.now) }
{
    value.as_str()
}

/// The whole number below 2^64, without fraction or exponent, that a value is.
pub fn to_u64(value: &Value<'_>) -> Option<u64>
    ensures { result ≡ option_and_then as_u64 (as_number (view value.now)) }
{
    number::whole(value.as_number()?)
}

/// The items of a value that is a list.
pub fn items<'v, 'a>(value: &'v Value<'a>) -> Option<&'v [Value<'a>]>
    ensures { option_map (λ values. items_view values.now) result ≡ as_array (view value.now) }
{
    match value {
        Value::Array(items) => Some(items.as_slice()),
        _ => None,
    }
}

/// The members of a value that is an object, in the order of the text. A key may come twice, and the
/// last of them counts.
pub fn members<'v, 'a>(value: &'v Value<'a>) -> Option<&'v [(&'a str, Value<'a>)]>
    ensures { option_map (λ members. members_view members.now) result ≡ as_object (view value.now) }
{
    match value {
        Value::Object(members) => Some(members.as_slice()),
        _ => None,
    }
}

/// The value of a key of an object: that of the last member with the key. It walks the members from
/// the end.
pub fn get<'v, 'a>(value: &'v Value<'a>, key: &str) -> Option<&'v Value<'a>>
    ensures { option_map (λ found. view found.now) result ≡ find.get key.now (view value.now) }
{
    value.get(key)
}
