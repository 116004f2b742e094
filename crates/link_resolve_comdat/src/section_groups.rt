//! The section groups of one object, and what became of them.

ghost use Rattle.std.specs.Prelude.{◌≡◌, ◌<◌, ℕ, [], true, None, Some, IfSome, IfOk, length, map, slice_get, option_map};
ghost use Rattle.link_rules.specs.Refusals.{first_repeated};
ghost use Rattle.link_resolve_comdat.specs.Tables.{AreInside, members_of, group_with, group_at};
ghost use Rattle.link_resolve_comdat.specs.ObjectGroups.{is_discarded, pending_group, after_visit, prepared, released, sections_of};

use crate::group_sections::GroupSections;
use crate::participation::keep_pending;
use crate::tables::{discarded_sections, noted_group};
use link_input::SectionGroup;
use link_names::Seq;
use std::alloc::{AllocError, Global};
use std::marker::Model;

/// The section groups of one loaded regular object with what became of them. A contract sees them as an `ObjectGroups`.
#[derive(Drop)]
pub struct ObjectSectionGroups {
    sections: u32,
    groups: Seq<SectionGroup>,
    kept: Vec<bool>,
    pending: Vec<bool>,
    /// The group of each section that is a member. Empty where there is no group.
    member_of: Vec<Option<usize>>,
    /// The header and the members of the groups that aren't kept. Empty where all are kept.
    discarded: Vec<bool>,
}

impl Model for ObjectSectionGroups {
    ghost use Rattle.link_resolve_comdat.specs.ObjectGroups.{ObjectGroups};
    ghost use Rattle.link_resolve_comdat.specs.Tables.{AreTabled};

    ghost Value = { ObjectGroups };

    ghost view = { λ o. record { sections = o.sections; groups = o.groups; kept = o.kept.items; pending = o.pending.items } };

    ghost invariant = { λ o. AreTabled
        (record { sections = o.sections; groups = o.groups; kept = o.kept.items; pending = o.pending.items })
        o.member_of.items o.discarded.items };
}

impl ObjectSectionGroups {
    /// The groups of an object with so many sections, with the group of each section, and which groups are kept. All are
    /// pending.
    pub(crate) fn new(
        alloc: Global,
        sections: u32,
        groups: Seq<SectionGroup>,
        kept: Vec<bool>,
        member_of: Vec<Option<usize>>,
    ) -> Result<Self, AllocError>
        requires each { length kept.items ≡ length groups }
        requires inside { AreInside sections groups }
        requires once { first_repeated [] (members_of groups) ≡ None }
        requires members { (section : ℕ) → group_at member_of.items section ≡ group_with groups section }
        ensures { IfOk result (λ o. o ≡ record { sections = sections; groups = groups; kept = kept.items; pending = map (λ g. true) groups }) }
    {
        let pending = vec![in alloc; true; groups.len()]?;
        let discarded = discarded_sections(alloc, sections, groups.as_slice(), kept.as_slice())?;
        Ok(ObjectSectionGroups {
            sections,
            groups,
            kept,
            pending,
            member_of,
            discarded,
        })
    }

    /// Of each group whether it is kept.
    pub(crate) fn kept(&self) -> &[bool]
        ensures { result.now ≡ self.now.kept }
    {
        self.kept.as_slice()
    }

    /// The groups of the object, in order.
    pub fn groups(&self) -> &[SectionGroup]
        ensures { result.now ≡ self.now.groups }
    {
        self.groups.as_slice()
    }

    /// The sections of the group at this place: its members in order, then its header.
    pub fn sections(&self, group: usize) -> GroupSections<'_>
        requires { group < length self.now.groups }
        ensures { option_map sections_of (slice_get self.now.groups group) ≡ Some result }
    {
        let groups = self.groups.as_slice();
        GroupSections::new(&groups[group])
    }

    /// The group at this place is kept: it is no COMDAT group, or the first one of its signature.
    pub fn is_kept(&self, group: usize) -> bool
        requires { group < length self.now.groups }
        ensures { slice_get self.now.kept group ≡ Some result }
    {
        self.kept[group]
    }

    /// The section is the header or a member of a group that isn't kept.
    pub fn is_discarded(&self, section: u32) -> bool
        ensures { result ≡ is_discarded self.now section }
    {
        self.discarded
            .get(section as usize)
            .copied()
            .unwrap_or(false)
    }

    /// The pending group of which the section is a member.
    pub fn group_for_section_before_gc(&self, section: u32) -> Option<usize>
        ensures group { result ≡ pending_group self.now section }
        ensures within { IfSome result (λ group. group < length self.now.groups) }
    {
        let group = noted_group(self.member_of.as_slice(), section)?;
        self.pending[group].then_some(group)
    }

    /// The pending group of which the section is a member, to be visited now: it is no longer pending. Its sections are
    /// `sections`.
    pub fn visit_group_once(&mut self, section: u32) -> Option<usize>
        ensures group { result ≡ pending_group self.old section }
        ensures within { IfSome result (λ group. group < length self.new.groups) }
        ensures once { self.new ≡ after_visit self.old section }
    {
        let group = self.group_for_section_before_gc(section)?;
        self.pending[group] = false;
        Some(group)
    }

    /// Before sections that nothing needs are collected: drops the memberships of each group of which fewer than two sections
    /// participate, header and members counted, since then nothing holds them together. All memberships, where that is not
    /// enabled. There is one truth value for each section.
    pub fn prepare_gc(&mut self, participates: &[bool], enabled: bool)
        requires { length participates.now ≡ self.old.sections }
        ensures { self.new ≡ prepared participates.now enabled self.old }
    {
        keep_pending(
            self.pending.as_mut_slice(),
            self.groups.as_slice(),
            participates,
            enabled,
        );
    }

    /// Drops all memberships: no group is pending.
    pub fn release_gc_phase_resources(&mut self)
        ensures { self.new ≡ released self.old }
    {
        self.pending.as_mut_slice().fill(false);
    }
}
