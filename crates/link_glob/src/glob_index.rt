//! An index over a list of globs, by the characters that a glob begins or ends with.

ghost use Rattle.std.specs.Prelude.{◌≡◌, ◌∷◌, ◌++◌, [], ◌≤◌, ◌+◌, List, length, reverse, slice_get, take, OnOk, Some};
ghost use Rattle.std.specs.Option.{MatchOption};
ghost use Rattle.std.specs.Str.{chars};
ghost use Rattle.link_glob.specs.GlobList.{last_of, fits_at, later};
ghost use Rattle.link_glob.specs.Glob.{GlobToken};
ghost use Rattle.link_glob.specs.GlobKey.{IsIndexOf, IsWholeIndexOf, filed, front_key, back_key, last_under, last_under_some};

use crate::glob_key::{BACK_KEY, FRONT_KEY, key_of, key_with};
use crate::globs::Globs;
use crate::matching::{split_first_char, split_last_char};
use crate::pattern::Pattern;
use std::alloc::{AllocError, Global};
use std::collections::HashMap;

/// The first of some globs by their keys; the globs stand elsewhere. A look-up asks for the key of each front of a name, and of each of its
/// ends, as long as some glob is filed by so many characters, and looks at the globs with one key from the last one
/// back. Keys may coincide: a glob that is found is compared with the name.
#[derive(Drop)]
pub struct GlobIndex {
    /// The number of the last glob of each key.
    last: HashMap<u64, usize>,
    /// Of each glob the number of the one before it that has its key.
    earlier: Vec<Option<usize>>,
    /// By how many characters in front, and at the end, a glob is filed at most.
    longest_front: usize,
    longest_back: usize,
}

/// The later of two numbers, where there are both.
fn later(first: Option<usize>, second: Option<usize>) -> Option<usize>
    ensures { result ≡ later first second }
{
    match (first, second) {
        (Some(first), Some(second)) => Some(first.max(second)),
        (Some(first), None) => Some(first),
        (None, second) => second,
    }
}

impl GlobIndex {
    /// The index of no globs. Takes no memory.
    pub fn new(alloc: Global) -> GlobIndex
        ensures { IsWholeIndexOf [] result }
    {
        GlobIndex {
            last: HashMap::new(alloc),
            earlier: Vec::new(alloc),
            longest_front: 0,
            longest_back: 0,
        }
    }

    /// How many globs are in it.
    pub(crate) fn len(&self) -> usize
        ensures { result ≡ filed self.now }
    {
        self.earlier.len()
    }

    /// The last glob with this key that fits the name.
    fn last_under<G: Globs>(&self, globs: &G, key: u64, name: &str) -> Option<usize>
        requires { IsIndexOf (G.globs globs.now) self.now }
        ensures { result ≡ last_under (G.globs globs.now) key (chars name.now) (filed self.now) }
    {
        let mut place = self.last.get(&key).copied();
        'places: while let Some(at) = place {
            if globs.fits(at, name) {
                return Some(at);
            }
            place = *self.earlier.get(at)?;
        }
        None
    }

    /// The last glob under the key of some front of the name that fits the name, as far as fronts are filed.
    fn last_by_front<G: Globs>(&self, globs: &G, name: &str) -> Option<usize>
        requires { IsIndexOf (G.globs globs.now) self.now }
        ensures { result ≡ last_under_some (G.globs globs.now) front_key (take self.now.longest_front (chars name.now)) (chars name.now) (filed self.now) }
    {
        let mut key = FRONT_KEY;
        let mut found = None;
        let mut rest = name;
        let mut left = self.longest_front;
        'fronts: loop {
            found = later(found, self.last_under(globs, key, name));
            if left == 0 {
                return found;
            }
            let Some((c, after)) = split_first_char(rest) else {
                return found;
            };
            key = key_with(key, c);
            rest = after;
            left -= 1;
        }
    }

    /// The last glob under the key of some end of the name that fits the name, as far as ends are filed.
    fn last_by_back<G: Globs>(&self, globs: &G, name: &str) -> Option<usize>
        requires { IsIndexOf (G.globs globs.now) self.now }
        ensures { result ≡ last_under_some (G.globs globs.now) back_key (take self.now.longest_back (reverse (chars name.now))) (chars name.now) (filed self.now) }
    {
        let mut key = BACK_KEY;
        let mut found = None;
        let mut rest = name;
        let mut left = self.longest_back;
        'backs: loop {
            found = later(found, self.last_under(globs, key, name));
            if left == 0 {
                return found;
            }
            let Some((c, before)) = split_last_char(rest) else {
                return found;
            };
            key = key_with(key, c);
            rest = before;
            left -= 1;
        }
    }

    /// The last glob in the index that fits the name.
    pub fn last_match<G: Globs>(&self, globs: &G, name: &str) -> Option<usize>
        requires { IsIndexOf (G.globs globs.now) self.now }
        ensures { result ≡ last_of (fits_at (G.globs globs.now) (chars name.now)) (filed self.now) }
    {
        if self.earlier.is_empty() {
            return None;
        }
        later(
            self.last_by_front(globs, name),
            self.last_by_back(globs, name),
        )
    }

    /// Adds the first glob that isn't in it.
    fn file(&mut self, glob: &Pattern) -> Result<(), AllocError>
        ensures kept { (globs : List (List GlobToken)) → IsIndexOf globs self.old → slice_get globs (filed self.old) ≡ Some glob.now → IsIndexOf globs self.new }
        ensures added { OnOk result (filed self.new ≡ filed self.old + 1) }
    {
        self.earlier.reserve(1)?;
        let place = self.earlier.len();
        let filed = glob.key();
        let before = self.last.insert(filed.key, place)?;
        self.earlier.push(before).unwrap();
        self.longest_front = self.longest_front.max(filed.front);
        self.longest_back = self.longest_back.max(filed.back);
        Ok(())
    }

    /// Adds a glob behind those that are in it.
    pub fn add(&mut self, glob: &Pattern) -> Result<(), AllocError>
        ensures { OnOk result ((globs : List (List GlobToken)) → IsWholeIndexOf globs self.old → IsWholeIndexOf (globs ++ glob.now ∷ []) self.new) }
    {
        self.file(glob)?;
        Ok(())
    }

    /// Adds the globs that aren't in it.
    pub(crate) fn add_all(&mut self, globs: &[Pattern]) -> Result<(), AllocError>
        requires { IsIndexOf globs.now self.old }
        ensures { IsIndexOf globs.now self.new }
    {
        'globs: while let Some(glob) = globs.get(self.len()) {
            self.file(glob)?;
        }
        Ok(())
    }
}
