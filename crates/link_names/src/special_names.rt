//! Names and texts that mean something of their own.

ghost use Rattle.std.specs.Prelude.{◌≡◌, ◌≤◌};
ghost use Rattle.std.specs.Str.Parse.{ParsesUnsigned};
ghost use Rattle.link_names.specs.SpecialNames.{is_mapping_name, base_of, numeral_of};

/// The name marks where code or data begins (`$x`, `$d` and names that begin so: ELF for the Arm 64-bit Architecture,
/// "Mapping symbols"), or is the assembler's label of three bytes: the letter `L`, the digit zero and a byte of value one.
/// Such symbols name nothing.
pub fn is_mapping_symbol_name(name: &[u8]) -> bool
    ensures { result ≡ is_mapping_name name.now }
{
    name.starts_with(b"$x") || name.starts_with(b"$d") || name == b"L0\x01".as_slice()
}

/// The number of a text: `0x` and hexadecimal digits, else decimal digits, with at most one plus before the digits.
/// Refused exactly where there is no digit, or another byte, or a number from 2^64 on.
pub fn parse_number(text: &str) -> Result<u64, ()>
    ensures { ParsesUnsigned 64 (base_of text.now) (numeral_of text.now) result }
{
    match text.strip_prefix("0x") {
        Some(digits) => parse_digits(digits, 16),
        None => parse_digits(text, 10),
    }
}

/// The number of digits, with at most one plus before them.
fn parse_digits(digits: &str, radix: u32) -> Result<u64, ()>
    requires lower_bound { 2 ≤ radix }
    requires upper_bound { radix ≤ 36 }
    ensures { ParsesUnsigned 64 radix digits.now result }
{
    match u64::from_str_radix(digits, radix) {
        Ok(number) => Ok(number),
        Err(_) => Err(()),
    }
}
