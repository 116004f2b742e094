//! The numbers of JSON, read from their text.

ghost use Rattle.std.specs.Prelude.{◌≡◌, ◌<◌, ◌==◌, true, false, length, slice_index, is_some, IsTrue};
ghost use Rattle.serde_json.specs.Find.{as_u64};
ghost use Rattle.serde_json.specs.Read.{float_of, number_from, number_of};
ghost use Rattle.link_manifest_json.specs.Tree.{number_or};

use fast_float::Numeral;

/// The text of a number begins with a minus.
fn has_minus(bytes: &[u8]) -> bool
    ensures value { result ≡ (slice_index bytes.now 0 == 45) }
    ensures some { IsTrue result → 0 < length bytes.now }
{
    !bytes.is_empty() && bytes[0] == b'-'
}

/// The nearest float is finite.
fn is_finite(is_negative: bool, numeral: &Numeral<'_>) -> bool
    ensures { result ≡ is_some (float_of is_negative numeral.now) }
{
    numeral.to_float::<f64>(is_negative).is_finite()
}

/// A number without a minus is in range.
fn is_unsigned_in_range(numeral: &Numeral<'_>) -> bool
    ensures { result ≡ is_some (number_from false numeral.now) }
{
    numeral.to_u64().is_some() || is_finite(false, numeral)
}

/// A number with a minus is in range.
fn is_negative_in_range(numeral: &Numeral<'_>) -> bool
    ensures { result ≡ is_some (number_from true numeral.now) }
{
    if let Some(number) = numeral.to_i64(true) {
        if number < 0 {
            return true;
        }
    }
    is_finite(true, numeral)
}

/// The number that a text spells is an integer of 64 bits, or its nearest float is finite.
pub(crate) fn is_in_range(text: &str) -> bool
    ensures { result ≡ is_some (number_of text.now) }
{
    let bytes = text.as_bytes();
    if has_minus(bytes) {
        is_negative_in_range(&Numeral::scan(&bytes[1..]))
    } else {
        is_unsigned_in_range(&Numeral::scan(bytes))
    }
}

/// The whole number below 2^64 that a number without a minus is.
#[tactic(auto, using(crate::proofs::Numbers::none_float))]
fn whole_unsigned(numeral: &Numeral<'_>) -> Option<u64>
    ensures { result ≡ as_u64 (number_or (number_from false numeral.now)) }
{
    numeral.to_u64()
}

/// The whole number below 2^64 that a text spells without fraction or exponent.
pub(crate) fn whole(text: &str) -> Option<u64>
    ensures { result ≡ as_u64 (number_or (number_of text.now)) }
{
    let bytes = text.as_bytes();
    if has_minus(bytes) {
        return None;
    }
    whole_unsigned(&Numeral::scan(bytes))
}
