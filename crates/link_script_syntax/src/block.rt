//! Extern blocks.

ghost use Rattle.std.specs.Prelude.{◌≡◌, ◌<◌, ◌≤◌, length, position, Some, None, IsSome, IfOk, IfErr, IfSome};
ghost use Rattle.std.specs.Option.{MatchOption};
ghost use Rattle.link_script_syntax.specs.Fault.{IsWithin, Gives, FaultIs};
ghost use Rattle.link_script_syntax.specs.Block.{language_at, extern_text, inner_extern, is_close, without_blanks, close_place, semicolon_before, StillFirst, block_turn, block_at};

use crate::fault::{Fault, Language, ReadError, ScriptErrorKind};
use crate::matcher::SymbolMatcher;
use crate::profile::TokenEnd;
use crate::skip::{begins_with, is_blank, place_of, skip, strip, syntax};
use crate::token::token_at;
use link_names::{Name, Seq};
use std::alloc::Global;

/// The language that is quoted here.
#[tactic(auto, unfolding(crate::specs::Block::language_at))]
pub fn language_at(text: &[u8]) -> Option<(Language, &[u8])>
    ensures gives { MatchOption result (language_at text.now ≡ None) (λ x. language_at text.now ≡ Some (x.0, x.1.now)) }
    ensures shorter { IfSome result (λ x. length x.1.now ≤ length text.now) }
{
    if let Some(rest) = strip(text, b"\"C++\"") {
        return Some((Language::Cxx, rest));
    }
    if let Some(rest) = strip(text, b"\"C\"") {
        return Some((Language::C, rest));
    }
    None
}

/// Whether `};` stands here.
fn is_close(byte: u8, after: &[u8]) -> bool
    ensures { result ≡ is_close byte after.now }
{
    byte == b'}' && begins_with(after, b';')
}

/// Where `};` stands first.
fn close_of(text: &[u8]) -> Option<usize>
    ensures value { result ≡ close_place text.now }
    ensures within { IfSome result (λ place. place < length text.now) }
{
    let mut at = 0;
    let mut rest = text;
    'places: while let Some((first, after)) = rest.split_first() {
        if is_close(*first, after) {
            return Some(at);
        }
        at += 1;
        rest = after;
    }
    None
}

/// The `};` that was found last, by how many bytes are left there.
#[derive(Drop)]
struct LastClose {
    /// `None` until one was found.
    left: Option<usize>,
}

impl LastClose {
    /// Where `};` stands first. Looks for it only where the text has passed the one that was found last.
    fn place_in(&mut self, text: &[u8]) -> Option<usize>
        requires { StillFirst self.old.left text.now }
        ensures value { result ≡ close_place text.now }
        ensures kept { StillFirst self.new.left text.now }
    {
        match self.left {
            Some(left) if left <= text.len() => Some(text.len() - left),
            _ => {
                let place = close_of(text)?;
                self.left = Some(text.len() - place);
                Some(place)
            }
        }
    }
}

/// The bytes without the blanks at their end.
fn without_blanks(bytes: &[u8]) -> &[u8]
    ensures { result.now ≡ without_blanks bytes.now }
{
    let mut n = bytes.len();
    'ends: while n > 0 {
        if !is_blank(bytes[n - 1]) {
            break;
        }
        n -= 1;
    }
    &bytes[..n]
}

/// The bytes up to the first `{`, or all, without the blanks at their end.
#[tactic(auto, unfolding(crate::specs::Block::extern_text))]
fn extern_text(text: &[u8]) -> &[u8]
    ensures { result.now ≡ extern_text text.now }
{
    let end = place_of(b'{', text).unwrap_or(text.len());
    without_blanks(&text[..end])
}

/// The fault of a language that there is none of.
pub fn unsupported(alloc: Global, left: usize, text: &[u8]) -> ReadError
    ensures { FaultIs result left (ScriptErrorKind.UnsupportedExtern (extern_text text.now)) }
{
    match Name::from_slice(alloc, extern_text(text)) {
        Ok(bytes) => ReadError::Fault(Fault {
            left,
            kind: ScriptErrorKind::UnsupportedExtern(bytes),
        }),
        Err(_) => ReadError::Memory,
    }
}

/// The fault of an `extern` in a block: its language, or the bytes in that place.
#[tactic(auto, unfolding(crate::specs::Block::inner_extern))]
fn inner_extern(alloc: Global, left: usize, text: &[u8]) -> ReadError
    ensures { FaultIs result left (inner_extern text.now) }
{
    match language_at(text) {
        Some((language, _)) => ReadError::Fault(Fault {
            left,
            kind: ScriptErrorKind::UnexpectedExtern(language),
        }),
        None => unsupported(alloc, left, text),
    }
}

/// One turn of a block: a matcher, or the block's end.
#[tactic(auto, unfolding(crate::specs::Block::block_turn))]
fn block_turn<'t>(
    alloc: Global,
    close: &mut LastClose,
    text: &'t [u8],
) -> Result<(Option<SymbolMatcher>, &'t [u8]), ReadError>
    requires { StillFirst close.old.left text.now }
    ensures gives { Gives (λ x. (x.0, x.1.now)) result (block_turn text.now) }
    ensures shorter { IfOk result (λ x. IsSome x.0 → length x.1.now < length text.now) }
    ensures no_longer { IfOk result (λ x. length x.1.now ≤ length text.now) }
    ensures kept { IfOk result (λ x. IsSome x.0 → StillFirst close.new.left x.1.now) }
    ensures inside { IfErr result (λ e. IsWithin e (length text.now)) }
{
    let text = skip(text)?;
    if let Some(rest) = strip(text, b"};") {
        return Ok((None, skip(rest)?));
    }
    if let Some(rest) = strip(text, b"extern ") {
        return Err(inner_extern(alloc, text.len(), rest));
    }
    let Some(place) = close.place_in(text) else {
        return Err(syntax(text.len()));
    };
    let end = if is_before(text, place) {
        TokenEnd::Semicolon
    } else {
        TokenEnd::Brace
    };
    let (matcher, rest) = token_at(alloc, end, text)?;
    Ok((Some(matcher), rest))
}

/// Whether a semicolon stands before this place.
fn is_before(text: &[u8], close: usize) -> bool
    ensures { result ≡ semicolon_before text.now close }
{
    match place_of(b';', text) {
        Some(at) => at < close,
        None => false,
    }
}

/// The matchers of a block, and the text after it.
#[tactic(auto, unfolding(crate::specs::Block::block_at))]
pub fn block_at(alloc: Global, text: &[u8]) -> Result<(Seq<SymbolMatcher>, &[u8]), ReadError>
    ensures gives { Gives (λ x. (x.0, x.1.now)) result (block_at text.now) }
    ensures shorter { IfOk result (λ x. length x.1.now ≤ length text.now) }
    ensures inside { IfErr result (λ e. IsWithin e (length text.now)) }
{
    let mut matchers = Seq::new(alloc);
    let mut close = LastClose { left: None };
    let mut rest = text;
    'turns: loop {
        let (matcher, after) = block_turn(alloc, &mut close, rest)?;
        let Some(matcher) = matcher else {
            return Ok((matchers, after));
        };
        matchers.push(matcher)?;
        rest = after;
    }
}
