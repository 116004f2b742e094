//! How many files of a kind a link holds, and how many stand before another.

ghost use Rattle.std.specs.Prelude.{◌≡◌, ◌<◌, ◌^◌, [], ◌∷◌, length, take};
ghost use Rattle.link_db_files.specs.HeldFiles.{names_in, object_with};
ghost use Rattle.link_db_files.specs.Inputs.{objects_in, scripts_in};

use crate::files::Files;
use link_ids::SymbolId;
use link_input::Platform;
use link_input_groups::{Group, SequencedInput};

/// How many objects a group has.
fn objects_of_group<P: Platform>(group: &Group<P>) -> usize
    ensures { result ≡ length (objects_in (group.now ∷ [])) }
{
    match group {
        Group::Objects(objects) => objects.len(),
        _ => 0,
    }
}

/// How many linker scripts a group has.
fn scripts_of_group<P: Platform>(group: &Group<P>) -> usize
    ensures { result ≡ length (scripts_in (group.now ∷ [])) }
{
    match group {
        Group::LinkerScripts(scripts) => scripts.len(),
        _ => 0,
    }
}

/// How many objects groups have.
fn objects_of_groups<P: Platform>(groups: &[Group<P>]) -> usize
    requires { length (objects_in groups.now) < 2 ^ 64 }
    ensures { result ≡ length (objects_in groups.now) }
{
    let mut count = 0usize;
    for group in groups {
        count += objects_of_group(group);
    }
    count
}

/// How many linker scripts groups have.
fn scripts_of_groups<P: Platform>(groups: &[Group<P>]) -> usize
    requires { length (scripts_in groups.now) < 2 ^ 64 }
    ensures { result ≡ length (scripts_in groups.now) }
{
    let mut count = 0usize;
    for group in groups {
        count += scripts_of_group(group);
    }
    count
}

impl<P: Platform> Files<P> {
    /// How many objects there are, regular and shared ones.
    pub fn num_objects(&self) -> usize
        ensures { result ≡ length (objects_in self.now.groups) }
    {
        objects_of_groups(self.groups.as_slice())
    }

    /// How many objects stand in the groups before this one.
    fn objects_before_group(&self, group: usize) -> usize
        ensures value { result ≡ length (objects_in (take group self.now.groups)) }
        ensures fits { result < 2 ^ 63 }
    {
        let (before, _) = self.groups.split_at(group.min(self.groups.len()));
        objects_of_groups(before)
    }

    /// The place of the symbol's object among all objects, regular and shared ones. None where the symbol stands in no object.
    pub fn object_of(&self, id: SymbolId) -> Option<usize>
        requires { id < length (names_in self.now) }
        ensures { result ≡ object_with self.now id }
    {
        let place = self.file_id_for_symbol(id);
        match self.file(place) {
            SequencedInput::Object(_) => {
                Some(self.objects_before_group(place.group()) + place.file())
            }
            _ => None,
        }
    }

    /// How many linker scripts there are.
    pub fn num_scripts(&self) -> usize
        ensures { result ≡ length (scripts_in self.now.groups) }
    {
        scripts_of_groups(self.groups.as_slice())
    }
}
