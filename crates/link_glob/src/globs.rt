//! Globs by their numbers, wherever they stand.

use crate::pattern::Pattern;

/// Globs that an index finds by their numbers. The index keeps none of them, so that nobody has to copy theirs for it.
pub trait Globs {
    ghost use Rattle.std.specs.Prelude.{◌≡◌, List};
    ghost use Rattle.std.specs.Str.{chars};
    ghost use Rattle.link_glob.specs.Glob.{GlobToken};
    ghost use Rattle.link_glob.specs.GlobList.{fits_at};

    /// The globs in order.
    ghost globs: { Self → List (List GlobToken) };

    /// Whether there is a glob of this number, and it fits the name.
    fn fits(&self, number: usize, name: &str) -> bool
        ensures { result ≡ fits_at (globs self.now) (chars name.now) number };
}

impl Globs for Vec<Pattern> {
    ghost globs = { λ v. v.items };

    fn fits(&self, number: usize, name: &str) -> bool {
        match self.get(number) {
            Some(glob) => glob.matches(name),
            None => false,
        }
    }
}
