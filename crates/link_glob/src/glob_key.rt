//! Keys of globs, by which a list of globs is searched.

ghost use Rattle.std.specs.Prelude.{◌≡◌, ◌∷◌, [], reverse};
ghost use Rattle.std.specs.Option.{MatchOption};
ghost use Rattle.std.specs.Str.{chars};
ghost use Rattle.link_glob.specs.Glob.{views, literal};
ghost use Rattle.link_glob.specs.GlobKey.{front_key, back_key, key_with, run_key, run_length, key_of, front_length, back_length};
ghost use Rattle.link_glob.specs.Step.{BeginsOther};

use crate::pattern::Token;

/// The key of no characters, from the front.
pub(crate) const FRONT_KEY: u64 = 0xcbf2_9ce4_8422_2325;

/// The key of no characters, from the back.
pub(crate) const BACK_KEY: u64 = 0x9e37_79b9_7f4a_7c15;

const PRIME: u64 = 0x100_0000_01b3;

/// The key with one character more (FNV-1a, over characters).
pub(crate) fn key_with(key: u64, c: char) -> u64
    ensures { result ≡ key_with key c }
{
    (key ^ u64::from(c as u32)).wrapping_mul(PRIME)
}

/// The characters that a pattern begins or ends with: how many, and their key.
#[derive(Clone, Copy)]
struct Run {
    key: u64,
    len: usize,
}

/// The characters that the tokens begin with.
fn front_run(tokens: &[Token]) -> Run
    ensures key { result.key ≡ run_key front_key (views tokens.now) }
    ensures len { result.len ≡ run_length (views tokens.now) }
{
    let mut key = FRONT_KEY;
    let mut rest = tokens;
    'characters: while let [Token::Literal(c), after @ ..] = rest {
        key = key_with(key, *c);
        rest = after;
    }
    Run {
        key,
        len: tokens.len() - rest.len(),
    }
}

/// The last token where it is a character, and the tokens before it.
fn split_last_character(tokens: &[Token]) -> Option<(char, &[Token])>
    ensures { MatchOption result (BeginsOther (reverse (views tokens.now))) (λ r. reverse (views tokens.now) ≡ literal r.0 ∷ reverse (views r.1.now)) }
{
    let (last, before) = tokens.split_last()?;
    match last {
        Token::Literal(c) => Some((*c, before)),
        _ => None,
    }
}

/// The characters that the tokens end with, the last first.
fn back_run(tokens: &[Token]) -> Run
    ensures key { result.key ≡ run_key back_key (reverse (views tokens.now)) }
    ensures len { result.len ≡ run_length (reverse (views tokens.now)) }
{
    let mut key = BACK_KEY;
    let mut rest = tokens;
    'characters: while let Some((c, before)) = split_last_character(rest) {
        key = key_with(key, c);
        rest = before;
    }
    Run {
        key,
        len: tokens.len() - rest.len(),
    }
}

/// By which of its characters a glob is filed: those that it begins with or, where there are more, those that it ends with.
#[derive(Clone, Copy)]
pub(crate) struct GlobKey {
    /// Their key.
    pub(crate) key: u64,
    /// How many they are, where the glob begins with them, and else 0.
    pub(crate) front: usize,
    /// How many they are, where the glob ends with them, and else 0.
    pub(crate) back: usize,
}

/// The key of a glob.
#[tactic(auto, unfolding(crate::specs::GlobKey::key_of, crate::specs::GlobKey::front_length, crate::specs::GlobKey::back_length))]
pub(crate) fn key_of(tokens: &[Token]) -> GlobKey
    ensures key { result.key ≡ key_of (views tokens.now) }
    ensures front { result.front ≡ front_length (views tokens.now) }
    ensures back { result.back ≡ back_length (views tokens.now) }
{
    let front = front_run(tokens);
    let back = back_run(tokens);
    if front.len < back.len {
        GlobKey {
            key: back.key,
            front: 0,
            back: back.len,
        }
    } else {
        GlobKey {
            key: front.key,
            front: front.len,
            back: 0,
        }
    }
}
