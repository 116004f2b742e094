//! The section groups of the loaded regular objects of a link.

ghost use Rattle.std.specs.Prelude.{◌≡◌, ℕ, IfOk, filter_map, option_map};
ghost use Rattle.link_db_files.specs.Inputs.{objects_in};
ghost use Rattle.link_rules.specs.Comdat.{loaded_regular};
ghost use Rattle.link_rules.specs.Places.{first_of};
ghost use Rattle.link_rules.specs.Refusals.{group_cause};
ghost use Rattle.link_rules.specs.World.{Stage};
ghost use Rattle.link_db_texts.specs.Causes.{TellsCause};
ghost use Rattle.link_resolve_comdat.specs.Selected.{selected};
ghost use Rattle.link_resolve_discarded.specs.Indexed.{groups_at, index_at, index_of, no_groups};
ghost use Rattle.link_resolve_discarded.specs.Regular.{regular_among};

use crate::candidates::regular_candidates;
use crate::indices::index_column;
use link_db_symbols::DiscardedSections;
use link_input::Platform;
use link_input_groups::Group;
use link_resolve_comdat::{ObjectSectionGroups, Selection};
use link_rules::{KeptGroup, LinkError};
use std::alloc::Global;
use std::marker::Model;

/// The section groups of the loaded regular objects of a link, found by the places of these among all its objects. They are copies, so
/// nothing of the files is borrowed. A contract sees an `IndexedGroups`.
#[derive(Drop)]
pub struct LoadedGroups {
    /// The index of each object in the selection, by its place among all objects.
    indices: Vec<Option<usize>>,
    selection: Selection,
}

impl Model for LoadedGroups {
    ghost use Rattle.link_resolve_discarded.specs.Indexed.{IndexedGroups, AreBelow};
    ghost use Rattle.std.specs.Prelude.{length};

    ghost Value = { IndexedGroups };

    ghost view = { λ g. record { indices = g.indices.items; groups = g.selection } };

    ghost invariant = { λ g. AreBelow (length g.selection.objects) g.indices.items };
}

impl LoadedGroups {
    /// Those of no object. Takes no memory.
    pub fn none(alloc: Global) -> Self
        ensures { result ≡ no_groups }
    {
        LoadedGroups {
            indices: Vec::new(alloc),
            selection: Selection::none(alloc),
        }
    }

    /// Of the COMDAT groups of one signature in the loaded regular objects the first one is kept, in the order of the objects and of the
    /// groups in each. There is a mark for each loaded object, by its place.
    ///
    /// `SectionInTwoGroups` names the first of these objects that lists a section as a member twice, and its first member that was listed
    /// before. The only other refusal is want of memory.
    pub fn select<P: Platform>(
        alloc: Global,
        groups: &[Group<P>],
        loaded: &[bool],
    ) -> Result<LoadedGroups, LinkError>
        ensures cause { (w : Stage) → w.objects ≡ objects_in groups.now
            → TellsCause (first_of (filter_map group_cause (loaded_regular w loaded.now))) result }
        ensures groups { IfOk result (λ g. g.groups ≡ selected (regular_among loaded.now (objects_in groups.now))) }
        ensures indices { IfOk result (λ g. (f : ℕ) → index_at g.indices f ≡ index_of (regular_among loaded.now (objects_in groups.now)) f) }
    {
        let candidates = regular_candidates(alloc, groups, loaded)?;
        let selection = Selection::select(alloc, &candidates)?;
        let indices = index_column(alloc, loaded.len(), &candidates)?;
        Ok(LoadedGroups { indices, selection })
    }

    /// The groups of the object at this place among all objects; none where it isn't a loaded regular one.
    pub fn section_groups(&self, object: usize) -> Option<&ObjectSectionGroups>
        ensures { option_map (λ groups. groups.now) result ≡ groups_at self.now object }
    {
        let index = self.indices.get(object).copied().flatten()?;
        Some(self.selection.section_groups(index))
    }

    /// The COMDAT groups that are kept, in the order of the objects and of the groups in each.
    pub fn kept_comdats(&self) -> &[KeptGroup]
        ensures { result.now ≡ self.now.groups.kept }
    {
        self.selection.kept_comdats()
    }

    /// The groups of each object, in the order of the objects, without their places.
    pub fn into_selection(self) -> Selection
        ensures { result ≡ self.groups }
    {
        self.selection
    }
}

impl DiscardedSections for LoadedGroups {
    ghost use Rattle.link_resolve_discarded.specs.Discarded.{discarded_in};

    ghost discarded = { discarded_in };

    fn is_discarded(&self, object: usize, section: u32) -> bool {
        match self.section_groups(object) {
            Some(groups) => groups.is_discarded(section),
            None => false,
        }
    }
}
