//! A compiled glob.

ghost use Rattle.std.specs.Prelude.{◌≡◌, ◌↔◌, List, IsTrue};
ghost use Rattle.link_glob.specs.Glob.{view_token};
ghost use Rattle.std.specs.Str.{chars};

use crate::glob_key::{GlobKey, key_of};
use crate::matching::tokens_match;
use std::alloc::AllocError;

/// The characters from `first` to `last`, both included; none where `last` is less.
#[derive(Clone, Copy, Debug, PartialEq, Eq)]
pub struct CharRange {
    pub first: char,
    pub last: char,
}

/// A class of characters: those in some range, or, where it is negated, those in none. Most classes have one range, and
/// take no vector for others.
#[derive(Debug, Drop)]
pub struct Class {
    pub negated: bool,
    pub first: CharRange,
    pub more: Vec<CharRange>,
}

impl Clone for Class {
    ghost is_clone = { λ x y. (y.negated ≡ x.negated) × ((y.first ≡ x.first) × (y.more.items ≡ x.more.items)) };

    fn clone(&self) -> Result<Class, AllocError> {
        Ok(Class {
            negated: self.negated,
            first: self.first,
            more: self.more.clone()?,
        })
    }
}

/// A piece of a pattern.
#[derive(Debug, Drop)]
pub enum Token {
    /// This character.
    Literal(char),
    /// Any one character.
    One,
    /// Any run of characters, the empty one too.
    Any,
    /// One character of the class, which stands apart, so that the other tokens are small.
    Class(Box<Class>),
}

impl Clone for Token {
    ghost is_clone = { λ x y. view_token y ≡ view_token x };

    fn clone(&self) -> Result<Token, AllocError> {
        match self {
            Token::Literal(c) => Ok(Token::Literal(*c)),
            Token::One => Ok(Token::One),
            Token::Any => Ok(Token::Any),
            Token::Class(class) => Ok(Token::Class(class.clone()?)),
        }
    }
}

/// A compiled glob. Contracts see it as the list of its tokens.
#[derive(Debug, Drop)]
pub struct Pattern {
    tokens: Vec<Token>,
}

impl std::marker::Model for Pattern {
    ghost use Rattle.std.specs.Prelude.{List};
    ghost use Rattle.link_glob.specs.Glob.{GlobToken, views};

    ghost Value = { List GlobToken };

    ghost view = { λ p. views p.tokens.items };
}

impl Clone for Pattern {
    ghost is_clone = { λ x y. y ≡ x };

    fn clone(&self) -> Result<Pattern, AllocError> {
        Ok(Pattern {
            tokens: self.tokens.clone()?,
        })
    }
}

impl Pattern {
    ghost use Rattle.link_glob.specs.Glob.{GlobMatches, does_match, views};
    ghost use Rattle.link_glob.specs.GlobKey.{back_length, front_length, key_of};

    /// The pattern of these tokens.
    pub(crate) fn from_tokens(tokens: Vec<Token>) -> Pattern
        ensures { result ≡ views tokens.items }
    {
        Pattern { tokens }
    }

    /// Its key in an index.
    pub(crate) fn key(&self) -> GlobKey
        ensures key { result.key ≡ key_of self.now }
        ensures front { result.front ≡ front_length self.now }
        ensures back { result.back ≡ back_length self.now }
    {
        key_of(&self.tokens)
    }

    /// Whether the pattern fits the whole name. Case counts, and `/` and `.` are characters like others.
    ///
    /// It takes no memory, and at most about as many steps as the name's length times the pattern's.
    pub fn matches(&self, name: &str) -> bool
        ensures means { IsTrue result ↔ GlobMatches self.now (chars name.now) }
        ensures value { result ≡ does_match self.now (chars name.now) }
    {
        tokens_match(&self.tokens, name)
    }
}
