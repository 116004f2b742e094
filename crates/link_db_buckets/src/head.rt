//! What a bucket keeps of a name.

ghost use Rattle.std.specs.Prelude.{◌≡◌, ◌++◌, [], ◌∷◌, ◌-◌, ◌<◌, Some, IsTrue, OnOk, OnErr, length, map, take, drop, slice_get, option_map, if◌then◌else◌, ◌↔◌, All};
ghost use Rattle.link_db_buckets.specs.Heads.{HaveGrown, IsMarked, first_alone, ids_of};

use crate::label::Label;
use std::alloc::{AllocError, Global};
use std::marker::Model;

/// The ids of a name's definitions, in order: the first, and those behind it, of which most names have none, so that they stand
/// apart. A contract sees the list of the ids.
#[derive(Debug, Drop)]
pub struct Definitions {
    first: u32,
    later: Option<Box<Vec<u32>>>,
}

impl Model for Definitions {
    ghost use Rattle.std.specs.Prelude.{List, ℕ, [], ◌∷◌};
    ghost use Rattle.std.specs.Option.{option_map_or};

    ghost Value = { List ℕ };

    ghost view = { λ d. d.first ∷ option_map_or (λ later. later.value.items) d.later [] };
}

impl Definitions {
    ghost use Rattle.link_db_buckets.specs.Heads.{without_last};

    /// One definition. Takes no memory.
    pub(crate) fn one(id: u32) -> Self
        ensures { result ≡ id ∷ [] }
    {
        Definitions {
            first: id,
            later: None,
        }
    }

    /// The first.
    pub fn first(&self) -> u32
        ensures { slice_get self.now 0 ≡ Some result }
    {
        self.first
    }

    /// Those behind the first.
    pub fn later(&self) -> &[u32]
        ensures { result.now ≡ drop 1 self.now }
    {
        match &self.later {
            Some(later) => later.as_slice(),
            None => &[],
        }
    }

    /// Adds one at the end.
    fn push(&mut self, alloc: Global, id: u32) -> Result<(), AllocError>
        ensures ok { OnOk result (self.new ≡ self.old ++ id ∷ []) }
        ensures err { OnErr result (self.new ≡ self.old) }
    {
        if let Some(later) = &mut self.later {
            later.push(id)?;
            return Ok(());
        }
        let mut later = Vec::new(alloc);
        later.push(id)?;
        self.later = Some(Box::new(alloc, later)?);
        Ok(())
    }

    /// Takes the last one away, where it isn't the only one, and says whether it did.
    fn pop_later(&mut self) -> bool
        ensures several { IsTrue result ↔ (1 < length self.old) }
        ensures rest { self.new ≡ (if result then without_last 1 self.old else self.old) }
    {
        match &mut self.later {
            Some(later) => later.pop().is_some(),
            None => false,
        }
    }

    /// Gives up those behind the first, and their memory.
    fn release_later(&mut self)
        ensures { self.new ≡ take 1 self.old }
    {
        self.later = None;
    }
}

/// A name that is defined or overridden, by a label that leads to it. Where it is neither any more, the head is not in use.
#[derive(Debug, Drop)]
pub struct Head {
    pub(crate) label: Label,
    pub(crate) hash: u64,
    pub(crate) definitions: Option<Definitions>,
    pub(crate) overridden: Option<u32>,
}

impl Head {
    ghost use Rattle.link_db_buckets.specs.Heads.{HaveGrown, IsMarked, first_alone, ids_of, is_used, mapped_of, without_last};

    /// A label that leads to the name.
    pub fn label(&self) -> Label
        ensures { result ≡ self.now.label }
    {
        self.label
    }

    /// Its definitions, where it has some.
    pub fn definitions(&self) -> Option<&Definitions>
        ensures { option_map (λ d. d.now) result ≡ self.now.definitions }
    {
        self.definitions.as_ref()
    }

    /// What it was overridden with.
    pub fn overridden(&self) -> Option<u32>
        ensures { result ≡ self.now.overridden }
    {
        self.overridden
    }

    /// What it is mapped to.
    pub fn mapped(&self) -> Option<u32>
        ensures { result ≡ mapped_of self.now }
    {
        match (self.overridden, &self.definitions) {
            (Some(id), _) => Some(id),
            (None, Some(definitions)) => Some(definitions.first()),
            (None, None) => None,
        }
    }

    /// Whether it is mapped to something. Another head is not in use, and stands for no name.
    pub fn is_used(&self) -> bool
        ensures { result ≡ is_used self.now }
    {
        self.mapped().is_some()
    }

    /// Marks its first definition, where others stand behind it.
    fn mark_first(&self, marks: &mut [bool])
        ensures grown { HaveGrown marks.old marks.new }
        ensures marked { IsMarked marks.new (ids_of self.now) }
    {
        if let Some(definitions) = &self.definitions {
            let first = definitions.first() as usize;
            if !definitions.later().is_empty() && first < marks.len() {
                marks[first] = true;
            }
        }
    }

    /// Adds a definition at the end.
    pub(crate) fn add(&mut self, alloc: Global, id: u32) -> Result<(), AllocError>
        ensures ok { OnOk result (ids_of self.new ≡ ids_of self.old ++ id ∷ []) }
        ensures err { OnErr result (ids_of self.new ≡ ids_of self.old) }
        ensures rest { self.new ≡ record self.old { definitions = self.new.definitions } }
    {
        if let Some(definitions) = &mut self.definitions {
            return definitions.push(alloc, id);
        }
        self.definitions = Some(Definitions::one(id));
        Ok(())
    }

    /// Takes the last definition away, where it has one.
    pub(crate) fn remove_last(&mut self)
        ensures ids { ids_of self.new ≡ without_last 1 (ids_of self.old) }
        ensures rest { self.new ≡ record self.old { definitions = self.new.definitions } }
    {
        if let Some(definitions) = &mut self.definitions {
            if !definitions.pop_later() {
                self.definitions = None;
            }
        }
    }

    /// Gives up the definitions behind the first, and their memory.
    pub(crate) fn release_later(&mut self)
        ensures { self.new ≡ first_alone self.old }
    {
        if let Some(definitions) = &mut self.definitions {
            definitions.release_later();
        }
    }
}

/// Gives up the definitions of each head behind its first.
pub(crate) fn release_all(heads: &mut [Head])
    ensures { heads.new ≡ map first_alone heads.old }
{
    for head in heads.iter_mut() {
        head.release_later();
    }
}

/// Marks the first of several definitions of each head.
pub(crate) fn mark_firsts(heads: &[Head], marks: &mut [bool])
    ensures grown { HaveGrown marks.old marks.new }
    ensures marked { All (λ h. IsMarked marks.new (ids_of h)) heads.now }
{
    for head in heads.iter() {
        head.mark_first(marks);
    }
}
