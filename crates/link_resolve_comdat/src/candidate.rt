//! Objects with their places.

use link_input::{ParsedInputObject, Platform};
use std::marker::Model;

/// An object with its place among all objects of a link. The groups of loaded regular ones compete. A contract sees the pair of both.
#[derive(Drop)]
pub struct Candidate<'a, P: Platform> {
    pub place: usize,
    pub parsed: &'a ParsedInputObject<P>,
}

impl<'a, P: Platform> Model for Candidate<'a, P> {
    ghost use Rattle.std.specs.Prelude.{ℕ};
    ghost use Rattle.link_input.specs.ObjectFile.{ObjectFile};

    ghost Value = { ℕ × ObjectFile };

    ghost view = { λ c. (c.place, c.parsed.now) };
}
