//! The files of groups one after another.

ghost use Rattle.std.specs.Prelude.{◌≡◌};
ghost use Rattle.std.specs.Iterator.{YieldsFirstBy, item_count};
ghost use Rattle.link_input_groups.specs.SequencedInputs.{sequenced_file};

use link_input::Platform;
use link_input_groups::{Group, SequencedInput};
use std::marker::Model;

/// The files of groups in order. A contract sees those that are left.
#[derive(Drop)]
pub struct FileList<'a, P: Platform> {
    groups: &'a [Group<P>],
    /// The place of the next file in the first group.
    place: usize,
}

impl<'a, P: Platform> Model for FileList<'a, P> {
    ghost use Rattle.std.specs.Prelude.{List};
    ghost use Rattle.link_input.specs.SequencedFiles.{SequencedFile};
    ghost use Rattle.link_db_symbols.specs.Walk.{files_from};

    ghost Value = { List SequencedFile };

    ghost view = { λ f. files_from f.place f.groups.now };
}

impl<'a, P: Platform> FileList<'a, P> {
    ghost use Rattle.std.specs.List.{flat_map};
    ghost use Rattle.link_input_groups.specs.Groups.{files_of};

    /// The files of these groups.
    pub fn new(groups: &'a [Group<P>]) -> Self
        ensures { result ≡ flat_map files_of groups.now }
    {
        FileList { groups, place: 0 }
    }
}

impl<'a, P: Platform> Iterator for FileList<'a, P> {
    type Item = SequencedInput<'a, P>;

    ghost next_gives = { YieldsFirstBy (λ f. sequenced_file f) (λ left. left) };

    ghost remaining = { item_count (λ left. left) };

    fn next(&mut self) -> Option<SequencedInput<'a, P>> {
        while let Some((group, rest)) = self.groups.split_first() {
            if self.place < group.num_files() {
                let file = group.file(self.place);
                self.place += 1;
                return Some(file);
            }
            self.groups = rest;
            self.place = 0;
        }
        None
    }
}
