//! Blanks and comments, and the small steps of reading.

ghost use Rattle.std.specs.Prelude.{◌≡◌, ◌==◌, ◌+◌, ◌<◌, ◌≤◌, length, position, IfOk, IfErr, IfSome, Some, None};
ghost use Rattle.std.specs.Option.{MatchOption};
ghost use Rattle.std.specs.Prelude.{ℕ, List, Ok};
ghost use Rattle.link_script_syntax.specs.Blanks.{Skipped};
ghost use Rattle.link_script_syntax.specs.Fault.{IsWithin, Gives, syntax_at};
ghost use Rattle.link_script_syntax.specs.Skip.{skip, strips, turn, begins_with, is_blank};

use crate::fault::{Fault, ReadError, ScriptErrorKind};

/// The fault `Syntax` where this many bytes are left.
pub fn syntax(left: usize) -> ReadError
    ensures { result ≡ syntax_at left }
{
    ReadError::Fault(Fault {
        left,
        kind: ScriptErrorKind::Syntax,
    })
}

/// Where in a run of blanks and comments the reader stands.
#[derive(Clone, Copy, Debug, PartialEq, Eq)]
pub enum Mode {
    /// Outside of comments.
    Plain,
    /// In a comment up to the line's end.
    Line,
    /// Behind the `/` of a comment's opening.
    Opening,
    /// In a comment up to its closing.
    Block,
    /// Behind the `*` of a comment's closing.
    Closing,
}

/// Whether the text begins with the byte.
pub fn begins_with(text: &[u8], byte: u8) -> bool
    ensures { result ≡ begins_with text.now byte }
{
    match text {
        [first, ..] => *first == byte,
        [] => false,
    }
}

/// Whether the byte is a space, tab, CR or LF.
pub fn is_blank(byte: u8) -> bool
    ensures { result ≡ is_blank byte }
{
    byte == b' ' || byte == b'\t' || byte == b'\r' || byte == b'\n'
}

/// The mode behind this byte, if the byte is part of the run.
fn turn(mode: Mode, byte: u8, after: &[u8]) -> Option<Mode>
    ensures { result ≡ turn mode byte after.now }
{
    match mode {
        Mode::Plain => {
            if is_blank(byte) {
                return Some(Mode::Plain);
            }
            if byte == b'#' {
                return Some(Mode::Line);
            }
            if byte == b'/' && begins_with(after, b'*') {
                return Some(Mode::Opening);
            }
            None
        }
        Mode::Line => {
            if byte == b'\n' {
                return Some(Mode::Plain);
            }
            Some(Mode::Line)
        }
        Mode::Opening => Some(Mode::Block),
        Mode::Block => {
            if byte == b'*' && begins_with(after, b'/') {
                return Some(Mode::Closing);
            }
            Some(Mode::Block)
        }
        Mode::Closing => Some(Mode::Plain),
    }
}

/// The text behind its blanks and comments.
pub fn skip(text: &[u8]) -> Result<&[u8], ReadError>
    ensures gives { Gives (λ x. x.now) result (skip text.now) }
    // What is skipped is in the grammar, and what is in the grammar is skipped.
    ensures found { IfOk result (λ x. Skipped text.now x.now) }
    ensures only { (rest : List ℕ) → Skipped text.now rest → Gives (λ x. x.now) result (Ok rest) }
    ensures shorter { IfOk result (λ x. length x.now ≤ length text.now) }
    ensures inside { IfErr result (λ e. IsWithin e (length text.now)) }
{
    skip_run(text)
}

/// The same, by what reading gives alone.
fn skip_run(text: &[u8]) -> Result<&[u8], ReadError>
    ensures gives { Gives (λ x. x.now) result (skip text.now) }
    ensures shorter { IfOk result (λ x. length x.now ≤ length text.now) }
    ensures inside { IfErr result (λ e. IsWithin e (length text.now)) }
{
    let mut mode = Mode::Plain;
    let mut opened = 0;
    let mut rest = text;
    'bytes: while let Some((first, after)) = rest.split_first() {
        let Some(next) = turn(mode, *first, after) else {
            return Ok(rest);
        };
        if matches!(next, Mode::Opening) {
            opened = rest.len();
        }
        mode = next;
        rest = after;
    }
    if matches!(mode, Mode::Plain | Mode::Line) {
        Ok(rest)
    } else {
        Err(syntax(opened))
    }
}

/// What follows the prefix, where the text begins with it.
pub fn strip<'t>(text: &'t [u8], prefix: &[u8]) -> Option<&'t [u8]>
    ensures gives { MatchOption result (strips prefix.now text.now ≡ None) (λ x. strips prefix.now text.now ≡ Some x.now) }
    ensures taken { IfSome result (λ x. length x.now + length prefix.now ≡ length text.now) }
{
    let mut rest = text;
    for &byte in prefix {
        match rest {
            [first, after @ ..] if *first == byte => rest = after,
            _ => return None,
        }
    }
    Some(rest)
}

/// Where the byte stands first.
pub fn place_of(byte: u8, text: &[u8]) -> Option<usize>
    ensures value { result ≡ position (λ c. c == byte) text.now }
    ensures within { IfSome result (λ n. n < length text.now) }
{
    text.iter().position(|c| *c == byte)
}
