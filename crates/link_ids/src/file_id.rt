//! The numbers of files.

ghost use Rattle.std.specs.Prelude.{◌≡◌, ◌==◌, ◌<◌, ◌^◌, ◌&&◌};
ghost use Rattle.std.specs.Cmp.{partial_order_from_own_ties};
ghost use Rattle.std.specs.Cmp.Rules.{comparing};
ghost use Rattle.std.specs.Ordering.{as_partial_cmp};
ghost use Rattle.std.proofs.Common.{rules};

use std::cmp::Ordering;
use std::fmt;
use std::marker::Model;

/// A file of a link: its group, and its place in the group. Mirrors Wild's `FileId`, which keeps 24 bits for the group
/// and 8 for the place. A contract sees the two numbers.
#[derive(Clone, Copy, Debug, PartialEq, Eq, Hash)]
pub struct FileId {
    group: u32,
    file: u8,
}

impl Model for FileId {
    ghost use Rattle.std.specs.Prelude.{◌<◌, ◌^◌};
    ghost use Rattle.link_ids.specs.FilePlace.{FilePlace};

    ghost Value = { FilePlace };

    ghost view = { λ f. record { group = f.group; file = f.file } };

    ghost invariant = { λ f. f.group < 2 ^ 24 };

    ghost inverse = { λ p. record { group = p.group; file = p.file } };
}

/// The prelude's file, the first of the first group.
pub const PRELUDE_FILE_ID: FileId = FileId { group: 0, file: 0 };

impl FileId {
    /// The file at this place of this group.
    pub fn new(group: usize, file: usize) -> Self
        requires group { group < 2 ^ 24 }
        requires file { file < 2 ^ 8 }
        ensures { result ≡ record { group = group; file = file } }
    {
        FileId {
            group: group as u32,
            file: file as u8,
        }
    }

    /// Its group.
    pub fn group(self) -> usize
        ensures value { result ≡ self.group }
        ensures fits { result < 2 ^ 24 }
    {
        self.group as usize
    }

    /// Its place in the group.
    pub fn file(self) -> usize
        ensures value { result ≡ self.file }
        ensures fits { result < 2 ^ 8 }
    {
        self.file as usize
    }

    /// It is the prelude's file.
    pub fn is_prelude(self) -> bool
        ensures { result ≡ (self.group == 0 && self.file == 0) }
    {
        self == PRELUDE_FILE_ID
    }
}

impl Ord for FileId {
    ghost use Rattle.link_ids.specs.FilePlace.{file_order};

    ghost cmp = { file_order };

    ghost total = { Prim.search (comparing, rules) };

    ghost matches_partial_cmp = { Prim.search (comparing, rules) };

    ghost matches_eq = { Prim.search (comparing, rules) };

    fn cmp(&self, other: &FileId) -> Ordering {
        let by_group = self.group.cmp(&other.group);
        by_group.then(self.file.cmp(&other.file))
    }
}

impl PartialOrd for FileId {
    ghost use Rattle.link_ids.specs.FilePlace.{file_order};

    ghost partial_cmp = { as_partial_cmp file_order };

    ghost laws = { partial_order_from_own_ties (Prim.search (comparing, rules)) (Prim.search (comparing, rules)) };

    fn partial_cmp(&self, other: &FileId) -> Option<Ordering> {
        Some(self.cmp(other))
    }
}

impl fmt::Display for FileId {
    ghost use Rattle.std.specs.Prelude.{Some};
    ghost use Rattle.link_ids.specs.FilePlace.{file_text};

    ghost output = { λ f. Some (file_text f) };

    fn fmt<W: fmt::Write>(&self, f: &mut fmt::Formatter<W>) -> fmt::Result {
        let group = self.group;
        let file = self.file;
        write!(f, "{group}/{file}")
    }
}
