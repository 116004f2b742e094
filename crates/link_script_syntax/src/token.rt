//! One name or pattern of a script.

ghost use Rattle.std.specs.Prelude.{List, ℕ, Ok, ◌≡◌, ◌<◌, ◌≤◌, length, position, IfOk, IfErr, IfSome};
ghost use Rattle.link_script_syntax.specs.Fault.{IsWithin, Gives};
ghost use Rattle.link_script_syntax.specs.declared.matcher.SymbolMatcher.{SymbolMatcher};
ghost use Rattle.link_script_syntax.specs.Profile.{is_end};
ghost use Rattle.link_script_syntax.specs.Token.{IsToken, matcher_of, glob_at, token_at, after_semicolon, trimmed};

use crate::fault::{Fault, ReadError, ScriptErrorKind};
use crate::matcher::SymbolMatcher;
use crate::profile::TokenEnd;
use crate::skip::syntax;
use link_glob::{
    GlobError, GlobPatternType, analyze_glob_pattern, compile_glob_pattern, unescape_pattern,
};
use link_names::Name;
use std::alloc::Global;

/// The bytes without the blanks at their end.
pub fn trimmed(bytes: &[u8]) -> &[u8]
    ensures { result.now ≡ trimmed bytes.now }
{
    bytes.trim_ascii_end()
}

/// A glob of the one kind or the other.
#[tactic(auto, unfolding(crate::specs::Token::glob_at))]
fn glob_at(alloc: Global, left: usize, star: bool, token: &[u8]) -> Result<SymbolMatcher, ReadError>
    ensures gives { Gives (λ m. m) result (glob_at left star token.now) }
    ensures inside { IfErr result (λ e. IsWithin e left) }
{
    match compile_glob_pattern(alloc, token) {
        Ok(pattern) => {
            if star {
                Ok(SymbolMatcher::StarGlob(pattern))
            } else {
                Ok(SymbolMatcher::NonstarGlob(pattern))
            }
        }
        Err(GlobError::InvalidUtf8) => Err(ReadError::Fault(Fault {
            left,
            kind: ScriptErrorKind::InvalidUtf8String,
        })),
        Err(GlobError::InvalidGlob) => Err(ReadError::Fault(Fault {
            left,
            kind: ScriptErrorKind::InvalidGlobPattern,
        })),
        Err(GlobError::Memory) => Err(ReadError::Memory),
    }
}

/// What the bytes of a token mean.
#[tactic(auto, unfolding(crate::specs::Token::matcher_of))]
pub fn matcher_of(alloc: Global, left: usize, token: &[u8]) -> Result<SymbolMatcher, ReadError>
    ensures gives { Gives (λ m. m) result (matcher_of left token.now) }
    ensures inside { IfErr result (λ e. IsWithin e left) }
{
    if let [b'"', name @ .., b'"'] = token {
        return Ok(SymbolMatcher::Exact(Name::from_slice(alloc, name)?));
    }
    if let [b'*'] = token {
        return Ok(SymbolMatcher::MatchesAll);
    }
    match analyze_glob_pattern(token) {
        GlobPatternType::Exact => Ok(SymbolMatcher::Exact(Name::from_slice(alloc, token)?)),
        GlobPatternType::EscapedExact => {
            let name = unescape_pattern(alloc, token)?;
            Ok(SymbolMatcher::EscapedExact(Name::new(name)))
        }
        GlobPatternType::Star => glob_at(alloc, left, true, token),
        GlobPatternType::NonStar => glob_at(alloc, left, false, token),
    }
}

/// What follows the semicolon, where the text begins with one.
fn after_semicolon(text: &[u8]) -> &[u8]
    ensures value { result.now ≡ after_semicolon text.now }
    ensures shorter { length result.now ≤ length text.now }
{
    match text {
        [b';', after @ ..] => after,
        _ => text,
    }
}

/// Where the first byte stands that ends a token.
fn place_of_end(end: TokenEnd, text: &[u8]) -> Option<usize>
    ensures value { result ≡ position (λ c. is_end end c) text.now }
    ensures within { IfSome result (λ n. n < length text.now) }
{
    text.iter().position(|byte| end.is_end(*byte))
}

/// A token up to the first byte that ends one.
pub fn token_at(
    alloc: Global,
    end: TokenEnd,
    text: &[u8],
) -> Result<(SymbolMatcher, &[u8]), ReadError>
    ensures gives { Gives (λ x. (x.0, x.1.now)) result (token_at end text.now) }
    // What is read is a token, and a token is read.
    ensures found { IfOk result (λ x. IsToken end text.now x.0 x.1.now) }
    ensures only { (m : SymbolMatcher) (rest : List ℕ) → IsToken end text.now m rest → Gives {Y = SymbolMatcher × List ℕ} (λ x. (x.0, x.1.now)) result (Ok (m, rest)) }
    ensures shorter { IfOk result (λ x. length x.1.now < length text.now) }
    ensures inside { IfErr result (λ e. IsWithin e (length text.now)) }
{
    token_run(alloc, end, text)
}

/// The same, by what reading gives alone.
#[tactic(auto, unfolding(crate::specs::Token::token_at))]
fn token_run(alloc: Global, end: TokenEnd, text: &[u8]) -> Result<(SymbolMatcher, &[u8]), ReadError>
    ensures gives { Gives (λ x. (x.0, x.1.now)) result (token_at end text.now) }
    ensures shorter { IfOk result (λ x. length x.1.now < length text.now) }
    ensures inside { IfErr result (λ e. IsWithin e (length text.now)) }
{
    let Some(len) = place_of_end(end, text) else {
        return Err(syntax(text.len()));
    };
    if len == 0 {
        return Err(syntax(text.len()));
    }
    let (token, rest) = text.split_at(len);
    let matcher = matcher_of(alloc, text.len(), trimmed(token))?;
    Ok((matcher, after_semicolon(rest)))
}
