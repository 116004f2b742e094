//! How names are shown.

ghost use Rattle.std.specs.Prelude.{◌≡◌, Some, None, option_map, if◌then◌else◌};
ghost use Rattle.std.specs.Str.{is_utf8};
ghost use Rattle.std.specs.Fmt.{WritesOnOk};
ghost use Rattle.link_names.specs.NameText.{invalid_text, name_text, numbers_text};

use std::{fmt, str};

/// The bytes as text, where they are UTF-8.
pub fn text_of(bytes: &[u8]) -> Option<&str>
    ensures { option_map (λ s. s.now) result ≡ (if is_utf8 bytes.now then Some bytes.now else None) }
{
    match str::from_utf8(bytes) {
        Ok(text) => Some(text),
        Err(_) => None,
    }
}

/// Writes a name: its text where it is UTF-8, else `INVALID UTF-8([B, B])` with the numbers of its bytes.
pub fn write_name<W: fmt::Write>(f: &mut fmt::Formatter<W>, bytes: &[u8]) -> fmt::Result
    ensures { WritesOnOk W.write_str_gives f.old result (name_text bytes.now) f.new }
{
    match str::from_utf8(bytes) {
        Ok(text) => f.write_str(text),
        Err(_) => write_invalid(f, bytes),
    }
}

/// Writes bytes that are no text.
fn write_invalid<W: fmt::Write>(f: &mut fmt::Formatter<W>, bytes: &[u8]) -> fmt::Result
    ensures { WritesOnOk W.write_str_gives f.old result (invalid_text bytes.now) f.new }
{
    f.write_str("INVALID UTF-8([")?;
    write_numbers(f, bytes)?;
    f.write_str("])")
}

/// Writes the numbers of bytes with commas between them.
fn write_numbers<W: fmt::Write>(f: &mut fmt::Formatter<W>, bytes: &[u8]) -> fmt::Result
    ensures { WritesOnOk W.write_str_gives f.old result (numbers_text bytes.now) f.new }
{
    let Some((first, others)) = bytes.split_first() else {
        return Ok(());
    };
    write!(f, "{first}")?;
    for other in others {
        write!(f, ", {other}")?;
    }
    Ok(())
}
