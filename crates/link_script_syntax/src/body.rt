//! The body of a version.

ghost use Rattle.std.specs.Prelude.{◌≡◌, ◌<◌, ◌≤◌, length, IsSome, IfOk, IfErr};
ghost use Rattle.link_script_syntax.specs.Fault.{IsWithin, Gives};
ghost use Rattle.link_script_syntax.specs.Body.{body_turn, body_at, pieces_at};

use crate::entry::entry_at;
use crate::fault::ReadError;
use crate::matcher::ParsedSymbolMatcher;
use crate::profile::ScriptProfile;
use crate::skip::{skip, strip, syntax};
use link_names::Seq;
use std::alloc::Global;

/// The two sections of a version's body.
#[derive(Clone, Copy, Debug, PartialEq, Eq)]
pub enum Side {
    Global,
    Local,
}

/// The entries of a version's body, in the order of the text. Mirrors Wild's `RawVersionBody`.
#[derive(Debug, Drop)]
pub struct RawVersionBody {
    pub globals: Seq<ParsedSymbolMatcher>,
    pub locals: Seq<ParsedSymbolMatcher>,
}

/// A piece of a body.
#[derive(Debug, Drop)]
pub enum Item {
    Side(Side),
    Entry(ParsedSymbolMatcher),
}

/// One turn of a body: a piece, or the body's end.
#[tactic(auto, unfolding(crate::specs::Body::body_turn))]
fn body_turn(
    alloc: Global,
    text: &[u8],
    profile: ScriptProfile,
) -> Result<(Option<Item>, &[u8]), ReadError>
    ensures gives { Gives (λ x. (x.0, x.1.now)) result (body_turn profile text.now) }
    ensures shorter { IfOk result (λ x. IsSome x.0 → length x.1.now < length text.now) }
    ensures no_longer { IfOk result (λ x. length x.1.now ≤ length text.now) }
    ensures inside { IfErr result (λ e. IsWithin e (length text.now)) }
{
    let text = skip(text)?;
    if let Some(rest) = strip(text, b"}") {
        return Ok((None, skip(rest)?));
    }
    if let Some(rest) = strip(text, b"global:") {
        return Ok((Some(Item::Side(Side::Global)), rest));
    }
    if let Some(rest) = strip(text, b"local:") {
        return Ok((Some(Item::Side(Side::Local)), rest));
    }
    let (entry, rest) = entry_at(alloc, text, profile)?;
    Ok((Some(Item::Entry(entry)), rest))
}

/// A body: its entries by section, and the text after it.
#[tactic(auto, unfolding(crate::specs::Body::body_at))]
pub fn body_at(
    alloc: Global,
    text: &[u8],
    profile: ScriptProfile,
) -> Result<(RawVersionBody, &[u8]), ReadError>
    ensures gives { Gives (λ x. (x.0, x.1.now)) result (body_at profile text.now) }
    ensures shorter { IfOk result (λ x. length x.1.now < length text.now) }
    ensures inside { IfErr result (λ e. IsWithin e (length text.now)) }
{
    let Some(text) = strip(text, b"{") else {
        return Err(syntax(text.len()));
    };
    pieces_at(alloc, text, profile)
}

/// The entries up to the body's end.
fn pieces_at(
    alloc: Global,
    text: &[u8],
    profile: ScriptProfile,
) -> Result<(RawVersionBody, &[u8]), ReadError>
    ensures gives { Gives (λ x. (x.0, x.1.now)) result (pieces_at profile text.now) }
    ensures shorter { IfOk result (λ x. length x.1.now ≤ length text.now) }
    ensures inside { IfErr result (λ e. IsWithin e (length text.now)) }
{
    let mut globals = Seq::new(alloc);
    let mut locals = Seq::new(alloc);
    let mut now = Side::Global;
    let mut rest = text;
    'turns: loop {
        let (item, after) = body_turn(alloc, rest, profile)?;
        rest = after;
        match item {
            None => return Ok((RawVersionBody { globals, locals }, rest)),
            Some(Item::Side(side)) => now = side,
            Some(Item::Entry(entry)) => match now {
                Side::Global => globals.push(entry)?,
                Side::Local => locals.push(entry)?,
            },
        }
    }
}
