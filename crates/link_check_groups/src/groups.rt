//! The groups of the loaded objects.

ghost use Rattle.std.specs.Prelude.{◌≡◌, ◌++◌, ◌||◌, ℕ, List, Bool, IfOk, OnOk, map, not};
ghost use Rattle.std.specs.Prelude.{filter};
ghost use Rattle.link_rules.specs.Answer.{kept_comdats};
ghost use Rattle.link_rules.specs.Comdat.{comdats_among, discarded_groups, is_discarded_by, is_kept_among, loaded_groups};
ghost use Rattle.link_rules.specs.Selection.{surviving_strengths};
ghost use Rattle.link_rules.specs.World.{Stage};
ghost use Rattle.link_check_claims.specs.Claims.{claimed_group};
ghost use Rattle.link_check_groups.specs.Groups.{claims_of, groups_among};
ghost use Rattle.link_check_groups.specs.Sections.{discarded_among, is_in, is_lost_with};

use crate::discarded::{Sections, add_group};
use crate::first::{first_comdats, is_same_place};
use crate::group::{ObjectGroup, push_if_loaded};
use crate::surviving::surviving_strength;
use link_check_claims::ClaimedGroup;
use link_check_symbols::SymbolView;
use link_flags::SymbolStrength;
use link_input::{ParsedInputObject, Platform};
use link_names::NameMap;
use std::alloc::{AllocError, Global};
use std::collections::BTreeSet;
use std::marker::Model;

/// The section groups of the loaded objects that are not shared. A contract sees them in order, each with its place and its signature.
#[derive(Drop)]
pub struct LoadedGroups<'a> {
    groups: Vec<ObjectGroup<'a>>,
    /// The place of the first COMDAT group of each signature.
    first: NameMap<(usize, usize)>,
}

impl<'a> Model for LoadedGroups<'a> {
    ghost use Rattle.std.specs.Prelude.{List};
    ghost use Rattle.link_rules.specs.Comdat.{PlacedGroup};
    ghost use Rattle.link_check_groups.specs.Groups.{AreFirst};

    ghost Value = { List PlacedGroup };

    ghost view = { λ g. g.groups.items };

    ghost invariant = { λ g. AreFirst g.first g.groups.items };
}

/// The groups of these objects that are loaded and not shared.
fn groups_among<'a, P: Platform>(
    alloc: Global,
    objects: &'a [ParsedInputObject<P>],
    marks: &[bool],
) -> Result<Vec<ObjectGroup<'a>>, AllocError>
    ensures { IfOk result (λ groups. groups.items ≡ groups_among objects.now marks.now) }
{
    let mut groups = Vec::new(alloc);
    for (place, object) in objects.iter().enumerate() {
        push_if_loaded(&mut groups, marks, place, object)?;
    }
    Ok(groups)
}

impl<'a> LoadedGroups<'a> {
    /// The groups of the loaded objects, where each object has a mark that says whether it is loaded. The only refusal is want of memory.
    pub fn new<P: Platform>(
        alloc: Global,
        objects: &'a [ParsedInputObject<P>],
        marks: &[bool],
    ) -> Result<Self, AllocError>
        ensures { IfOk result (λ groups. (w : Stage) → w.objects ≡ objects.now → groups ≡ loaded_groups w marks.now) }
    {
        let groups = groups_among(alloc, objects, marks)?;
        let first = first_comdats(alloc, &groups)?;
        Ok(LoadedGroups { groups, first })
    }

    /// The groups, in order.
    fn groups(&self) -> &[ObjectGroup<'a>]
        ensures { result.now ≡ self.now }
    {
        self.groups.as_slice()
    }

    /// Whether the group is no COMDAT group, or the first one of its signature.
    fn is_kept(&self, group: &ObjectGroup) -> bool
        ensures { result ≡ is_kept_among (comdats_among self.now) group.now }
    {
        if !group.is_comdat() {
            return true;
        }
        match self.first.get(group.signature()) {
            Some(first) => is_same_place(group.place(), first),
            None => false,
        }
    }

    /// Tells the place of a group, if it is a COMDAT group that is kept.
    fn push_kept(&self, kept: &mut Vec<ClaimedGroup>, group: &ObjectGroup) -> Result<(), AllocError>
        ensures { OnOk result (kept.new.items ≡ kept.old.items ++ claims_of (comdats_among self.now) group.now) }
    {
        if group.is_comdat() && self.is_kept(group) {
            kept.push(group.claimed())?;
        }
        Ok(())
    }

    /// The COMDAT groups that are kept, in order, each by its place: the first one of each signature. The only refusal is want of memory.
    pub fn kept_comdats(&self, alloc: Global) -> Result<Vec<ClaimedGroup>, AllocError>
        ensures { IfOk result (λ kept. (w : Stage) (marks : List Bool) → self.now ≡ loaded_groups w marks
            → kept.items ≡ map claimed_group (kept_comdats w marks)) }
    {
        let groups = self.groups();
        let mut kept = Vec::new(alloc);
        for group in groups {
            self.push_kept(&mut kept, group)?;
        }
        Ok(kept)
    }

    /// Adds the sections of a group, if that is not kept.
    fn add_if_discarded(
        &self,
        sections: &mut Sections,
        group: &ObjectGroup,
    ) -> Result<(), AllocError>
        ensures { OnOk result ((f n : ℕ) → is_in sections.new f n
            ≡ (is_in sections.old f n || is_lost_with (comdats_among self.now) f n group.now)) }
    {
        if !self.is_kept(group) {
            add_group(sections, group)?;
        }
        Ok(())
    }

    /// The sections of the groups that are not kept.
    fn discarded_sections(&self, alloc: Global) -> Result<Sections, AllocError>
        ensures { IfOk result (λ sections. (f n : ℕ) → is_in sections f n ≡ is_discarded_by (discarded_among self.now) f n) }
    {
        let groups = self.groups();
        let mut sections = BTreeSet::new(alloc);
        for group in groups {
            self.add_if_discarded(&mut sections, group)?;
        }
        Ok(sections)
    }

    /// How strongly each symbol binds now, by the ids of symbols: not at all, if it stands in an object that is not loaded, or in a section
    /// of a group that is not kept. The marks are those of the loaded objects. The only refusal is want of memory.
    pub fn surviving_strengths(
        &self,
        alloc: Global,
        symbols: &[SymbolView],
        marks: &[bool],
    ) -> Result<Vec<SymbolStrength>, AllocError>
        ensures { IfOk result (λ strengths. (w : Stage) → w.symbols ≡ symbols.now → self.now ≡ loaded_groups w marks.now
            → strengths.items ≡ surviving_strengths w marks.now (discarded_groups w marks.now)) }
    {
        let sections = self.discarded_sections(alloc)?;
        let mut strengths = Vec::with_capacity(alloc, symbols.len())?;
        for symbol in symbols {
            strengths.push(surviving_strength(marks, &sections, symbol))?;
        }
        Ok(strengths)
    }
}
