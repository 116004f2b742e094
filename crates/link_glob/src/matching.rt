//! Whether a glob fits a name, without memory.

ghost use Rattle.std.specs.Prelude.{◌≡◌, ◌↔◌, ◌∷◌, ◌&&◌, [], IsTrue, nat_le, reverse};
ghost use Rattle.std.specs.Option.{MatchOption};
ghost use Rattle.std.specs.Str.{chars};
ghost use Rattle.link_glob.specs.Glob.{any, GlobMatches, takes, is_in_ranges, view_token, views};
ghost use Rattle.link_glob.specs.Step.{IsStep, NoStep, BeginsPlain};

use crate::pattern::{CharRange, Class, Token};

/// The first character, and the text after it.
pub(crate) fn split_first_char(text: &str) -> Option<(char, &str)>
    ensures { MatchOption result (chars text.now ≡ []) (λ r. chars text.now ≡ r.0 ∷ chars r.1.now) }
{
    let mut rest = text.chars();
    let first = rest.next()?;
    Some((first, rest.as_str()))
}

/// The last character, and the text before it.
pub(crate) fn split_last_char(text: &str) -> Option<(char, &str)>
    ensures { MatchOption result (reverse (chars text.now) ≡ []) (λ r. reverse (chars text.now) ≡ r.0 ∷ reverse (chars r.1.now)) }
{
    let mut rest = text.chars();
    let last = rest.next_back()?;
    Some((last, rest.as_str()))
}

/// Whether the character is in the range.
fn is_in_range(range: &CharRange, c: char) -> bool
    ensures { result ≡ (nat_le range.now.first c && nat_le c range.now.last) }
{
    range.first <= c && c <= range.last
}

/// Whether the character is in some range.
fn is_in_ranges(ranges: &[CharRange], c: char) -> bool
    ensures { result ≡ is_in_ranges ranges.now c }
{
    for range in ranges {
        if is_in_range(range, c) {
            return true;
        }
    }
    false
}

/// Whether the character is in some range of the class.
fn is_in_class(class: &Class, c: char) -> bool
    ensures { result ≡ is_in_ranges (class.now.first ∷ class.now.more.items) c }
{
    is_in_range(&class.first, c) || is_in_ranges(&class.more, c)
}

/// Whether a token that is no star takes this one character.
fn takes_char(token: &Token, c: char) -> bool
    ensures { result ≡ takes (view_token token.now) c }
{
    match token {
        Token::Literal(d) => c == *d,
        Token::One => true,
        Token::Any => false,
        Token::Class(class) => is_in_class(class, c) != class.negated,
    }
}

/// One step in which a token that is no star takes a character.
fn take_one<'p, 'n>(pattern: &'p [Token], name: &'n str) -> Option<(&'p [Token], &'n str)>
    ensures { MatchOption result (NoStep (views pattern.now) (chars name.now)) (λ r. IsStep (views pattern.now) (chars name.now) (views r.0.now) (chars r.1.now)) }
{
    let (token, pattern) = pattern.split_first()?;
    let (c, name) = split_first_char(name)?;
    if takes_char(token, c) {
        Some((pattern, name))
    } else {
        None
    }
}

/// What follows a star that stands first.
fn past_star(pattern: &[Token]) -> Option<&[Token]>
    ensures { MatchOption result (BeginsPlain (views pattern.now)) (λ after. views pattern.now ≡ any ∷ views after.now) }
{
    match pattern {
        [Token::Any, after @ ..] => Some(after),
        _ => None,
    }
}

/// Whether nothing is left of either.
fn are_empty(pattern: &[Token], name: &str) -> bool
    ensures { IsTrue result ↔ (views pattern.now ≡ []) × (chars name.now ≡ []) }
{
    pattern.is_empty() && split_first_char(name).is_none()
}

/// Whether the tokens fit the whole name.
///
/// Where a token does not fit, only the last star is given a character more: an earlier star could do no better.
pub(crate) fn tokens_match(tokens: &[Token], name: &str) -> bool
    ensures { IsTrue result ↔ GlobMatches (views tokens.now) (chars name.now) }
{
    let mut pattern = tokens;
    let mut rest = name;
    // What follows the last star, and the name from where that star may take one character more.
    let mut star: Option<(&[Token], &str)> = None;
    'steps: loop {
        if let Some(after) = past_star(pattern) {
            pattern = after;
            star = Some((after, rest));
            continue;
        }
        if are_empty(pattern, rest) {
            return true;
        }
        if let Some((after, more)) = take_one(pattern, rest) {
            pattern = after;
            rest = more;
            continue;
        }
        let Some((after, at)) = star else {
            return false;
        };
        let Some((_, more)) = split_first_char(at) else {
            return false;
        };
        star = Some((after, more));
        pattern = after;
        rest = more;
    }
}
