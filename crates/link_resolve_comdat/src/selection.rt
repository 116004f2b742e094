//! Which groups of the loaded regular objects are kept.

ghost use Rattle.std.specs.Prelude.{◌≡◌, ◌<◌, ℕ, [], None, Some, IfOk, OnOk, map, filter_map, length, slice_get, option_map};
ghost use Rattle.std.specs.List.Sorted.{IsStrictlyIncreasing};
ghost use Rattle.link_rules.specs.Places.{Bytes, first_of};
ghost use Rattle.link_rules.specs.Comdat.{groups_of};
ghost use Rattle.link_rules.specs.Refusals.{first_repeated, group_cause};
ghost use Rattle.link_rules.specs.declared.refusal.LinkError.TheVariants.{SectionInTwoGroups};
ghost use Rattle.link_db_texts.specs.Causes.{TellsCause};
ghost use Rattle.link_resolve_comdat.specs.InOrder.{is_met, met_with, object_in_order};
ghost use Rattle.link_resolve_comdat.specs.Tables.{AreInside, members_of, group_with, group_at};
ghost use Rattle.link_resolve_comdat.specs.Selected.{selected};
ghost use Rattle.link_resolve_comdat.specs.Lending.{LendsGroups};
ghost use Rattle.std.specs.Borrow.{sem};

use crate::candidate::Candidate;
use crate::section_groups::ObjectSectionGroups;
use crate::signatures::{kept_groups, tell_comdats};
use crate::tables::{empty_table, note_groups};
use link_input::{InputObject, Platform, SectionGroup};
use link_names::{Name, Seq};
use link_rules::{KeptGroup, LinkError};
use std::alloc::{AllocError, Global};
use std::collections::HashSet;
use std::marker::Model;

/// The groups of loaded regular objects, with what is kept of them. A contract sees it as a `SelectedGroups`.
#[derive(Drop)]
pub struct Selection {
    objects: Vec<ObjectSectionGroups>,
    kept: Seq<KeptGroup>,
}

impl Model for Selection {
    ghost use Rattle.link_resolve_comdat.specs.Selected.{SelectedGroups};

    ghost Value = { SelectedGroups };

    ghost view = { λ s. record { objects = s.objects.items; kept = s.kept } };
}

impl Selection {
    /// The groups of no object. Takes no memory.
    pub fn none(alloc: Global) -> Selection
        ensures { result ≡ record { objects = []; kept = [] } }
    {
        Selection {
            objects: Vec::new(alloc),
            kept: Seq::new(alloc),
        }
    }

    /// Of the COMDAT groups of one signature the first one is kept, in the order of the objects and of the groups in each. Groups that
    /// are no COMDAT groups are kept. All are pending.
    ///
    /// `SectionInTwoGroups` names the first object that lists a section as a member twice, and its first member that was listed
    /// before. The places of the objects rise.
    pub fn select<P: Platform>(
        alloc: Global,
        objects: &[Candidate<'_, P>],
    ) -> Result<Selection, LinkError>
        requires { IsStrictlyIncreasing (map (λ o. o.0) objects.now) }
        ensures cause { TellsCause (first_of (filter_map group_cause objects.now)) result }
        ensures ok { IfOk result (λ selection. selection ≡ selected objects.now) }
    {
        let mut signatures = HashSet::new(alloc);
        let mut groups = Seq::new(alloc);
        let mut kept = Seq::new(alloc);
        for candidate in objects {
            let object = object_groups(alloc, &mut signatures, candidate)?;
            tell_comdats(alloc, &mut kept, candidate, object.kept())?;
            groups.push(object)?;
        }
        Ok(Selection {
            objects: groups.into_vec(),
            kept,
        })
    }

    /// The groups of the object at this index.
    pub fn section_groups(&self, object: usize) -> &ObjectSectionGroups
        requires { object < length self.now.objects }
        ensures { slice_get self.now.objects object ≡ Some result.now }
    {
        &self.objects[object]
    }

    /// The groups of the object at this index, to be changed.
    pub fn section_groups_mut(&mut self, object: usize) -> &mut ObjectSectionGroups
        requires { object < length self.old.objects }
        ensures* writes_back { sem 𝓛 (LendsGroups self.entry object result) }
        ensures value { slice_get self.old.objects object ≡ Some result.now }
    {
        &mut self.objects[object]
    }

    /// How many objects there are.
    pub fn len(&self) -> usize
        ensures { result ≡ length self.now.objects }
    {
        self.objects.len()
    }

    /// The COMDAT groups that are kept, in the order of the objects and of the groups in each.
    pub fn kept_comdats(&self) -> &[KeptGroup]
        ensures { result.now ≡ self.now.kept }
    {
        self.kept.as_slice()
    }

    /// The groups of each object, and the COMDAT groups that are kept.
    pub fn into_parts(self) -> (Vec<ObjectSectionGroups>, Seq<KeptGroup>)
        ensures objects { result.0.items ≡ self.objects }
        ensures kept { result.1 ≡ self.kept }
    {
        let Selection { objects, kept } = self;
        (objects, kept)
    }
}

/// A copy of a group.
fn copied_group(alloc: Global, group: &SectionGroup) -> Result<SectionGroup, AllocError>
    ensures { IfOk result (λ copy. copy ≡ group.now) }
{
    Ok(SectionGroup {
        index: group.index,
        signature_symbol: group.signature_symbol,
        is_comdat: group.is_comdat,
        members: Seq::from_vec(Vec::from_slice(alloc, group.members())?),
    })
}

/// Copies of the groups of an object. Their sections are the object's.
fn copied_groups<P: Platform>(
    alloc: Global,
    object: &InputObject<P>,
) -> Result<Seq<SectionGroup>, AllocError>
    ensures same { IfOk result (λ groups. groups ≡ object.now.groups) }
    ensures inside { OnOk result (AreInside object.now.sections object.now.groups) }
{
    let mut groups = Seq::new(alloc);
    for group in 0..object.groups().len() {
        groups.push(copied_group(alloc, object.group(group))?)?;
    }
    Ok(groups)
}

/// The group of each section that is a member. Refused where a section is a member twice.
fn member_table(
    alloc: Global,
    file: &Name,
    sections: u32,
    groups: &[SectionGroup],
) -> Result<Vec<Option<usize>>, LinkError>
    requires { AreInside sections groups.now }
    ensures cause { TellsCause (option_map (λ section. SectionInTwoGroups file.now section) (first_repeated [] (members_of groups.now))) result }
    ensures once { OnOk result (first_repeated [] (members_of groups.now) ≡ None) }
    ensures table { IfOk result (λ table. (section : ℕ) → group_at table.items section ≡ group_with groups.now section) }
{
    if groups.is_empty() {
        return Ok(Vec::new(alloc));
    }
    let mut member_of = empty_table(alloc, sections as usize)?;
    match note_groups(member_of.as_mut_slice(), groups) {
        None => Ok(member_of),
        Some(section) => Err(LinkError::SectionInTwoGroups {
            file: file.clone()?,
            section,
        }),
    }
}

/// The groups of an object, where these signatures were met before.
fn object_groups<'a, P: Platform>(
    alloc: Global,
    signatures: &mut HashSet<&'a [u8]>,
    candidate: &Candidate<'a, P>,
) -> Result<ObjectSectionGroups, LinkError>
    ensures cause { TellsCause (group_cause candidate.now) result }
    ensures groups { IfOk result (λ groups. groups ≡ object_in_order (is_met signatures.old) candidate.now) }
    ensures met { OnOk result ((name : Bytes) → is_met signatures.new name ≡ met_with (is_met signatures.old) (groups_of candidate.now) name) }
{
    let object = candidate.parsed.object();
    let groups = copied_groups(alloc, object)?;
    let sections = object.num_sections();
    let member_of = member_table(alloc, candidate.parsed.input(), sections, groups.as_slice())?;
    let kept = kept_groups(alloc, signatures, candidate)?;
    Ok(ObjectSectionGroups::new(alloc, sections, groups, kept, member_of)?)
}
