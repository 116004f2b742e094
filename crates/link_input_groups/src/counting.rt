//! What is counted of the files of groups.

ghost use Rattle.std.specs.Prelude.{◌≡◌, ℕ, ◌+◌, List, length, map};
ghost use Rattle.std.specs.List.{flat_map};
ghost use Rattle.link_input.specs.InputFiles.{InputFile};
ghost use Rattle.link_input.specs.Limits.{total};
ghost use Rattle.link_input.specs.SequencedFiles.{sequenced};
ghost use Rattle.link_input_groups.specs.Asked.{AllCanBeAsked, CanBeAsked};
ghost use Rattle.link_input_groups.specs.FileCounts.{AreSmall, counts_in, no_files, plus};
ghost use Rattle.link_input_groups.specs.Groups.{files_of, object_file};

use crate::group::Group;
use crate::sequenced::SequencedInputObject;
use link_input::Platform;

/// How many files of each kind there are, and how many of their sections and symbols have ids.
#[derive(Clone, Copy, Debug)]
pub(crate) struct FileCounts {
    pub(crate) objects: u128,
    pub(crate) scripts: u128,
    pub(crate) stubs: u128,
    pub(crate) sections: u128,
    pub(crate) symbols: u128,
}

impl FileCounts {
    /// Those of no file.
    pub(crate) fn none() -> FileCounts
        ensures { result ≡ no_files }
    {
        FileCounts {
            objects: 0,
            scripts: 0,
            stubs: 0,
            sections: 0,
            symbols: 0,
        }
    }
}

/// Where the ids of the sections of objects end: behind the last object that has any, or where they would begin.
fn sections_end<P: Platform>(first: u128, objects: &[SequencedInputObject<P>]) -> u128
    requires follow { (symbols : ℕ) × (files : List InputFile) × (map object_file objects.now ≡ sequenced symbols first files) }
    ensures { result ≡ first + total (λ o. o.section_id_range.len) objects.now }
{
    let mut left = objects.len();
    while left > 0 {
        left -= 1;
        let ids = objects[left].section_id_range;
        if !ids.is_empty() {
            return ids.start().as_usize() as u128 + ids.len() as u128;
        }
    }
    first
}

/// Those of some files and of a group behind them. As ids run on, it looks at the ends of the group alone.
fn counts_behind<P: Platform>(before: FileCounts, group: &Group<P>) -> FileCounts
    requires asked { CanBeAsked group.now }
    requires follow { (files : List InputFile) × (files_of group.now ≡ sequenced before.symbols before.sections files) }
    requires small { AreSmall (plus before (counts_in (files_of group.now))) }
    ensures { result ≡ plus before (counts_in (files_of group.now)) }
{
    let mut counts = before;
    counts.symbols += group.num_symbols() as u128;
    match group {
        Group::Prelude(_) | Group::SyntheticSymbols(_) => {}
        Group::Objects(objects) => {
            counts.objects += objects.len() as u128;
            counts.sections = sections_end(before.sections, objects.as_slice());
        }
        Group::LinkerScripts(scripts) => counts.scripts += scripts.len() as u128,
        Group::StubLibraries(stubs) => counts.stubs += stubs.len() as u128,
    }
    counts
}

/// Those of the files of groups. It looks at the ends of each group alone: the first file and the last, and where the last objects
/// have no sections, those back to one that has some.
pub(crate) fn counts_of_groups<P: Platform>(groups: &[Group<P>]) -> FileCounts
    requires asked { AllCanBeAsked groups.now }
    requires ids { (files : List InputFile) × (flat_map files_of groups.now ≡ sequenced 0 0 files) }
    requires small { AreSmall (counts_in (flat_map files_of groups.now)) }
    ensures { result ≡ counts_in (flat_map files_of groups.now) }
{
    let mut counts = FileCounts::none();
    for group in groups {
        counts = counts_behind(counts, group);
    }
    counts
}
