//! Words of a line, and what they stand for.

ghost use Rattle.std.specs.Prelude.{◌<◌};

use crate::fault::Fault;
use link_names::{Name, Seq, text_of};
use std::alloc::{AllocError, Global};

/// The value of a hexadecimal digit, or 0.
fn digit(byte: u8) -> u8
    ensures { result < 16 }
{
    match byte {
        b'0'..=b'9' => byte - b'0',
        b'a'..=b'f' => byte - b'a' + 10,
        _ => 0,
    }
}

/// The bytes that a word stands for: `%HH` is the byte of these two hexadecimal digits.
/// How words are read is left to the cases: no clause says it.
pub fn unescaped(alloc: Global, word: &[u8]) -> Result<Name, AllocError> {
    let mut bytes = Vec::new(alloc);
    let mut parts = word.split(|byte| *byte == b'%');
    if let Some(first) = parts.next() {
        bytes.extend_from_slice(first)?;
    }
    for part in parts {
        if let [high, low, rest @ ..] = part {
            bytes.push(digit(*high) * 16 + digit(*low))?;
            bytes.extend_from_slice(rest)?;
        }
    }
    Ok(Name::new(bytes))
}

/// The names that a word lists, with commas between them.
/// How words are read is left to the cases: no clause says it.
pub fn listed(alloc: Global, word: &[u8]) -> Result<Seq<Name>, AllocError> {
    let mut names = Seq::new(alloc);
    for part in word.split(|byte| *byte == b',') {
        names.push(unescaped(alloc, part)?)?;
    }
    Ok(names)
}

/// The first word of a line and those behind it.
/// How words are read is left to the cases: no clause says it.
pub fn first_and_rest<'a, 'b>(words: &'b [&'a [u8]]) -> Result<(&'a [u8], &'b [&'a [u8]]), Fault> {
    match words {
        [first, rest @ ..] => Ok((*first, rest)),
        _ => Err(Fault::Line),
    }
}

/// The one word of a line.
/// How words are read is left to the cases: no clause says it.
pub fn only<'a>(words: &[&'a [u8]]) -> Result<&'a [u8], Fault> {
    match words {
        [word] => Ok(*word),
        _ => Err(Fault::Line),
    }
}

/// Sets a name to what a word stands for.
/// How words are read is left to the cases: no clause says it.
pub fn set_name(alloc: Global, slot: &mut Option<Name>, word: &[u8]) -> Result<(), Fault> {
    *slot = Some(unescaped(alloc, word)?);
    Ok(())
}

/// Sets names to those that a word lists.
/// How words are read is left to the cases: no clause says it.
pub fn set_names(alloc: Global, slot: &mut Seq<Name>, word: &[u8]) -> Result<(), Fault> {
    *slot = listed(alloc, word)?;
    Ok(())
}

/// The parts of a word before and behind its first `=`.
/// How words are read is left to the cases: no clause says it.
pub fn key_and_value(word: &[u8]) -> Option<(&[u8], &[u8])> {
    let at = word.iter().position(|byte| *byte == b'=')?;
    Some((&word[..at], &word[at + 1..]))
}

/// A name, and the version behind an `@`.
/// How words are read is left to the cases: no clause says it.
pub fn name_and_version(word: &[u8]) -> (&[u8], Option<&[u8]>) {
    match word.iter().position(|byte| *byte == b'@') {
        Some(at) => (&word[..at], Some(&word[at + 1..])),
        None => (word, None),
    }
}

/// The number that a word writes.
/// How words are read is left to the cases: no clause says it.
pub fn number_of(word: &[u8]) -> Result<u32, Fault> {
    let Some(text) = text_of(word) else {
        return Err(Fault::Number);
    };
    match text.parse() {
        Ok(number) => Ok(number),
        Err(_) => Err(Fault::Number),
    }
}

/// The lines of a text, each as its words; one that begins with `//` is none.
/// How a text is cut into lines is left to the cases: no clause says it.
pub fn lines_of(alloc: Global, text: &[u8]) -> Result<Vec<Vec<&[u8]>>, AllocError> {
    let mut lines = Vec::new(alloc);
    for line in text.split(|byte| *byte == b'\n') {
        if !line.starts_with(b"//") {
            lines.push(words_of(alloc, line)?)?;
        }
    }
    Ok(lines)
}

/// The words of a line, with spaces between them.
fn words_of(alloc: Global, line: &[u8]) -> Result<Vec<&[u8]>, AllocError> {
    let mut words = Vec::new(alloc);
    for word in line.split(|byte| *byte == b' ') {
        if !word.is_empty() {
            words.push(word)?;
        }
    }
    Ok(words)
}
