//! What kind of pattern some bytes are.

ghost use Rattle.std.specs.Prelude.{◌≡◌, IfOk};
ghost use Rattle.std.specs.Option.{MatchOption};
ghost use Rattle.link_glob.specs.Analyze.{pattern_type, unescaped, IsEscapeAt};

use memchr::memchr;
use std::alloc::{AllocError, Global};

/// How a pattern has to be compared.
#[derive(Clone, Copy, Debug, PartialEq, Eq)]
pub enum GlobPatternType {
    /// As it stands.
    Exact,
    /// As it stands without its backslashes.
    EscapedExact,
    /// By a glob with a star.
    Star,
    /// By a glob without one.
    NonStar,
}

/// How the pattern has to be compared.
///
/// A backslash takes the byte behind it out of account; otherwise a `*` makes a glob with a star, and `[`, `]` and `?`
/// one without.
pub fn analyze_glob_pattern(pattern: &[u8]) -> GlobPatternType
    ensures { result ≡ pattern_type pattern.now }
{
    let mut found = GlobPatternType::Exact;
    let mut escaped = false;
    for &byte in pattern {
        if escaped {
            escaped = false;
            continue;
        }
        match byte {
            b'*' => return GlobPatternType::Star,
            b'\\' => {
                escaped = true;
                if found == GlobPatternType::Exact {
                    found = GlobPatternType::EscapedExact;
                }
            }
            b'[' | b']' | b'?' => found = GlobPatternType::NonStar,
            _ => {}
        }
    }
    found
}

/// What stands before the first backslash, and the text from it on.
fn split_escape(pattern: &[u8]) -> Option<(&[u8], &[u8])>
    ensures { MatchOption result (unescaped pattern.now ≡ pattern.now) (λ r. IsEscapeAt pattern.now r.0.now r.1.now) }
{
    let place = memchr(b'\\', pattern)?;
    Some(pattern.split_at(place))
}

/// The pattern without the backslashes that escape a byte. A last backslash escapes none, and stays.
pub fn unescape_pattern(alloc: Global, pattern: &[u8]) -> Result<Vec<u8>, AllocError>
    ensures { IfOk result (λ v. v.items ≡ unescaped pattern.now) }
{
    let mut plain = Vec::new(alloc);
    let mut rest = pattern;
    'escapes: while let Some((front, escape)) = split_escape(rest) {
        plain.extend_from_slice(front)?;
        match escape {
            [_, byte, after @ ..] => {
                plain.push(*byte)?;
                rest = after;
            }
            _ => {
                plain.extend_from_slice(escape)?;
                return Ok(plain);
            }
        }
    }
    plain.extend_from_slice(rest)?;
    Ok(plain)
}
