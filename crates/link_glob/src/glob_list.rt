//! Lists of globs, which are searched without a look at each glob.

ghost use Rattle.std.specs.Prelude.{◌≡◌, ◌==◌, ◌+◌, ◌<◌, ◌≤◌, ◌++◌, ◌∷◌, [], IsOk, IsTrue, OnOk, OnErr, length, vec_len, vec_capacity};
ghost use Rattle.std.specs.Str.{chars};
ghost use Rattle.link_glob.specs.GlobList.{last_fit};

use crate::glob_index::GlobIndex;
use crate::pattern::Pattern;
use std::alloc::{AllocError, Global};
use std::marker::Model;

/// Globs in order, and an index over the first of them. Contracts see it as the vector of its globs.
#[derive(Drop)]
pub struct GlobList {
    globs: Vec<Pattern>,
    index: GlobIndex,
}

impl Model for GlobList {
    ghost use Rattle.std.specs.Prelude.{List};
    ghost use Rattle.std.specs.Global.{Vec};
    ghost use Rattle.link_glob.specs.Glob.{GlobToken};
    ghost use Rattle.link_glob.specs.GlobKey.{IsIndexOf};

    ghost Value = { Vec (List GlobToken) };

    ghost view = { λ l. l.globs };

    ghost invariant = { λ l. IsIndexOf l.globs.items l.index };
}

impl GlobList {
    /// No globs. Takes no memory.
    pub fn new(alloc: Global) -> GlobList
        ensures { result.items ≡ [] }
    {
        GlobList {
            globs: Vec::new(alloc),
            index: GlobIndex::new(alloc),
        }
    }

    /// Whether there is none.
    pub fn is_empty(&self) -> bool
        ensures { result ≡ (length self.now.items == 0) }
    {
        self.globs.is_empty()
    }

    /// The globs in order.
    pub fn as_slice(&self) -> &[Pattern]
        ensures { result.now ≡ self.now.items }
    {
        self.globs.as_slice()
    }

    /// Adds a glob at the end.
    pub fn push(&mut self, glob: Pattern) -> Result<(), AllocError>
        ensures ok { OnOk result (self.new.items ≡ self.old.items ++ glob ∷ []) }
        ensures err { OnErr result (self.new.items ≡ self.old.items) }
        ensures capacity { vec_capacity self.old ≤ vec_capacity self.new }
        ensures succeeds { vec_len self.old < vec_capacity self.old → IsOk result }
    {
        self.globs.push(glob)?;
        Ok(())
    }

    /// Makes room for so many globs more.
    pub fn reserve(&mut self, additional: usize) -> Result<(), AllocError>
        ensures items { self.new.items ≡ self.old.items }
        ensures ok { OnOk result (vec_len self.new + additional ≤ vec_capacity self.new) }
    {
        self.globs.reserve(additional)
    }

    /// Puts all globs into the index. Until then those that were pushed are searched one after the other; so are those
    /// that a call that is refused leaves out.
    pub fn make_index(&mut self) -> Result<(), AllocError>
        ensures { self.new ≡ self.old }
    {
        self.index.add_all(&self.globs)
    }

    /// The number of the last glob that fits the name. Takes no memory.
    #[tactic(auto, unfolding(crate::specs::GlobList::last_fit))]
    pub fn last_match(&self, name: &str) -> Option<usize>
        ensures { result ≡ last_fit self.now.items (chars name.now) }
    {
        let mut left = self.globs.len();
        'behind: while left > self.index.len() {
            left -= 1;
            if self.globs[left].matches(name) {
                return Some(left);
            }
        }
        self.index.last_match(&self.globs, name)
    }
}
