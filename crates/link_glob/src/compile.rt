//! Patterns from bytes.

ghost use Rattle.std.specs.Prelude.{◌≡◌, ◌==◌, ◌<◌, ◌≤◌, ◌∷◌, [], false, length, position, Some, IfOk, IfSome};
ghost use Rattle.std.specs.Option.{MatchOption};
ghost use Rattle.std.specs.Str.{chars};
ghost use Rattle.link_glob.specs.declared.compile.Dialect.{Dialect};
ghost use Rattle.link_glob.specs.declared.compile.Dialect.TheVariants.{Gnu, MachO};
ghost use Rattle.link_glob.specs.Glob.{class, views, view_token};
ghost use Rattle.link_glob.specs.Grammar.{ranges_of, with_marks};
ghost use Rattle.link_glob.specs.Reading.{Gives, class_from, class_at, star_at, token_at, Reads, ReadsBytes};
ghost use Rattle.link_glob.specs.Compile.{Compiles, IsGlob, glob_of};

use crate::fault::GlobError;
use crate::matching::split_first_char;
use crate::pattern::{CharRange, Class, Pattern, Token};
use std::alloc::{AllocError, Global};

/// How a run of stars is read.
#[derive(Clone, Copy, Debug, PartialEq, Eq)]
pub enum Dialect {
    /// Two adjacent stars are refused.
    Gnu,
    /// A run of stars is one star.
    MachO,
}

/// The first range of a class, and what is behind it: `a-b` is a range, any other character is itself.
fn split_range(content: &[char]) -> Option<(CharRange, &[char])>
    ensures split { MatchOption result (content.now ≡ []) (λ r. ranges_of content.now ≡ r.0 ∷ ranges_of r.1.now) }
    ensures shorter { IfSome result (λ r. length r.1.now < length content.now) }
{
    match content {
        [] => None,
        [first, '-', last, after @ ..] => Some((
            CharRange {
                first: *first,
                last: *last,
            },
            after,
        )),
        [only, after @ ..] => Some((
            CharRange {
                first: *only,
                last: *only,
            },
            after,
        )),
    }
}

/// The ranges of a class.
fn ranges_of(alloc: Global, content: &[char]) -> Result<Vec<CharRange>, AllocError>
    ensures { IfOk result (λ v. v.items ≡ ranges_of content.now) }
{
    let mut ranges = Vec::with_capacity(alloc, content.len())?;
    let mut left = content;
    'splits: while let Some((range, after)) = split_range(left) {
        ranges.push(range)?;
        left = after;
    }
    Ok(ranges)
}

/// Where the next `]` stands.
fn close_of(text: &[char]) -> Option<usize>
    ensures value { result ≡ position (λ c. c == 93) text.now }
    ensures within { IfSome result (λ n. n < length text.now) }
{
    text.iter().position(|c| *c == ']')
}

/// The class of this content, which is never empty.
fn class_of(alloc: Global, negated: bool, content: &[char]) -> Result<Token, AllocError>
    requires { 0 < length content.now }
    ensures { IfOk result (λ t. view_token t ≡ class negated (ranges_of content.now)) }
{
    let (first, after) = split_range(content).unwrap();
    let more = ranges_of(alloc, after)?;
    let class = Class {
        negated,
        first,
        more,
    };
    Ok(Token::Class(Box::new(alloc, class)?))
}

/// A class from its first character on, and the text after its end.
fn class_from(alloc: Global, negated: bool, text: &[char]) -> Result<(Token, &[char]), GlobError>
    ensures gives { Gives (λ x. (view_token x.0, x.1.now)) result (class_from negated text.now) }
    ensures shorter { IfOk result (λ x. length x.1.now ≤ length text.now) }
{
    let [_, after @ ..] = text else {
        return Err(GlobError::InvalidGlob);
    };
    let Some(end) = close_of(after) else {
        return Err(GlobError::InvalidGlob);
    };
    let (content, closed) = text.split_at(end + 1);
    let [_, rest @ ..] = closed else {
        return Err(GlobError::InvalidGlob);
    };
    Ok((class_of(alloc, negated, content)?, rest))
}

/// A class behind its opening bracket, and the text after its end.
fn class_at(alloc: Global, text: &[char]) -> Result<(Token, &[char]), GlobError>
    ensures gives { Gives (λ x. (view_token x.0, x.1.now)) result (class_at text.now) }
    ensures shorter { IfOk result (λ x. length x.1.now ≤ length text.now) }
{
    match text {
        ['!', after @ ..] => class_from(alloc, true, after),
        _ => class_from(alloc, false, text),
    }
}

/// What stands behind a star and, where a run of stars is one star, behind the run.
fn star_at(dialect: Dialect, text: &[char]) -> Result<(Token, &[char]), GlobError>
    ensures gives { Gives (λ x. (view_token x.0, x.1.now)) result (star_at dialect text.now) }
    ensures shorter { IfOk result (λ x. length x.1.now ≤ length text.now) }
{
    let mut rest = text;
    'stars: while let ['*', after @ ..] = rest {
        match dialect {
            Dialect::Gnu => return Err(GlobError::InvalidGlob),
            Dialect::MachO => rest = after,
        }
    }
    Ok((Token::Any, rest))
}

/// The first token, and the text after it.
fn token_at(alloc: Global, dialect: Dialect, text: &[char]) -> Result<(Token, &[char]), GlobError>
    ensures gives { Gives (λ x. (view_token x.0, x.1.now)) result (token_at dialect text.now) }
    ensures shorter { IfOk result (λ x. length x.1.now < length text.now) }
{
    match text {
        [] => Err(GlobError::InvalidGlob),
        ['*', after @ ..] => star_at(dialect, after),
        ['?', after @ ..] => Ok((Token::One, after)),
        ['[', after @ ..] => class_at(alloc, after),
        [c, after @ ..] => Ok((Token::Literal(*c), after)),
    }
}

/// The first token where one character spells it, whatever the dialect, and the text after it. Most tokens
/// are so, and those that need memory or may be refused don't slow them down.
fn split_simple(text: &[char]) -> Option<(Token, &[char])>
    ensures token { IfSome result (λ r. (dialect : Dialect) → token_at dialect text.now ≡ Some (view_token r.0, r.1.now)) }
    ensures shorter { IfSome result (λ r. length r.1.now < length text.now) }
{
    match text {
        [] | ['*', '*', ..] | ['[', ..] => None,
        ['*', after @ ..] => Some((Token::Any, after)),
        ['?', after @ ..] => Some((Token::One, after)),
        [c, after @ ..] => Some((Token::Literal(*c), after)),
    }
}

/// All tokens of the text.
fn tokens_of(alloc: Global, dialect: Dialect, text: &[char]) -> Result<Vec<Token>, GlobError>
    ensures { Reads dialect text.now (λ v. views v.items) result }
{
    let mut tokens = Vec::with_capacity(alloc, text.len())?;
    let mut rest = text;
    'tokens: while !rest.is_empty() {
        if let Some((token, after)) = split_simple(rest) {
            tokens.push(token)?;
            rest = after;
            continue;
        }
        let (token, after) = token_at(alloc, dialect, rest)?;
        tokens.push(token)?;
        rest = after;
    }
    Ok(tokens)
}

/// The characters, with each `[^` read as `[!`.
fn characters(alloc: Global, text: &str) -> Result<Vec<char>, AllocError>
    ensures { IfOk result (λ v. v.items ≡ with_marks (chars text.now)) }
{
    let mut out = Vec::with_capacity(alloc, text.len())?;
    let mut rest = text;
    let mut opened = false;
    'chars: while let Some((c, after)) = split_first_char(rest) {
        out.push(if opened && c == '^' { '!' } else { c })?;
        opened = c == '[';
        rest = after;
    }
    Ok(out)
}

/// The pattern that the bytes spell in this dialect.
fn compile(alloc: Global, dialect: Dialect, pattern: &[u8]) -> Result<Pattern, GlobError>
    ensures { ReadsBytes dialect pattern.now result }
{
    let Ok(text) = str::from_utf8(pattern) else {
        return Err(GlobError::InvalidUtf8);
    };
    let text = characters(alloc, text)?;
    let tokens = tokens_of(alloc, dialect, &text)?;
    Ok(Pattern::from_tokens(tokens))
}

/// The glob that the bytes spell, as version scripts and GNU export lists write it.
///
/// `?` is any one character, `*` any run of them, and `[..]` a class with ranges `a-b`, negated by a first `!` or `^`.
/// A backslash is a character like others. An unclosed class and two adjacent stars are `InvalidGlob`.
pub fn compile_glob_pattern(alloc: Global, pattern: &[u8]) -> Result<Pattern, GlobError>
    // The pattern is spelled by the bytes, and each refusal has its cause.
    ensures means { Compiles Gnu pattern.now result }
    ensures exact { IsGlob result (glob_of Gnu pattern.now) }
{
    compile(alloc, Dialect::Gnu, pattern)
}

/// The glob that the bytes spell, as Mach-O export lists write it: a run of stars is one star.
pub fn compile_macho_glob_pattern(alloc: Global, pattern: &[u8]) -> Result<Pattern, GlobError>
    ensures means { Compiles MachO pattern.now result }
    ensures exact { IsGlob result (glob_of MachO pattern.now) }
{
    compile(alloc, Dialect::MachO, pattern)
}
