//! Tables by sections: which group a section is a member of, and which sections are discarded.

ghost use Rattle.std.specs.Prelude.{◌≡◌, ◌<◌, ◌||◌, ◌&&◌, ℕ, None, Some, All, IfNone, IfOk, length, not, replicate, if◌then◌else◌};
ghost use Rattle.std.specs.Option.{option_or};
ghost use Rattle.std.specs.List.{list_all, list_any, zip};
ghost use Rattle.link_closure.specs.Closure.{is_marked};
ghost use Rattle.link_rules.specs.Places.{contains};
ghost use Rattle.link_resolve_comdat.specs.ObjectGroups.{sections_of};
ghost use Rattle.link_resolve_comdat.specs.Tables.{AreInside, members_of, group_with, group_at, is_noted, first_again};

use link_input::SectionGroup;
use std::alloc::{AllocError, Global};

/// Notes the group of its members, up to the first of which a group is noted already.
fn note_members(member_of: &mut [Option<usize>], group: usize, members: &[u32]) -> Option<u32>
    requires { All (λ section. section < length member_of.old) members.now }
    ensures again { result ≡ first_again (is_noted member_of.old) members.now }
    ensures noted { IfNone result ((section : ℕ)
        → group_at member_of.new section ≡ option_or (group_at member_of.old section) (if contains section members.now then Some group else None)) }
{
    for section in members {
        let noted = &mut member_of[*section as usize];
        if noted.is_some() {
            return Some(*section);
        }
        *noted = Some(group);
    }
    None
}

/// A table that notes nothing of so many sections.
pub fn empty_table(alloc: Global, sections: usize) -> Result<Vec<Option<usize>>, AllocError>
    ensures { IfOk result (λ table. table.items ≡ replicate sections None) }
{
    vec![in alloc; None; sections]
}

/// Notes of each member its group, up to the first that is listed again.
pub fn note_groups(member_of: &mut [Option<usize>], groups: &[SectionGroup]) -> Option<u32>
    requires { AreInside (length member_of.old) groups.now }
    ensures again { result ≡ first_again (is_noted member_of.old) (members_of groups.now) }
    ensures noted { IfNone result ((section : ℕ)
        → group_at member_of.new section ≡ option_or (group_at member_of.old section) (group_with groups.now section)) }
{
    for (i, group) in groups.iter().enumerate() {
        if let Some(section) = note_members(member_of, i, group.members()) {
            return Some(section);
        }
    }
    None
}

/// The group that a table notes of a section, of those it knows.
pub fn noted_group(member_of: &[Option<usize>], section: u32) -> Option<usize>
    ensures { result ≡ group_at member_of.now section }
{
    member_of.get(section as usize).copied().flatten()
}

/// Marks the header and the members of a group.
fn mark_sections(marks: &mut [bool], group: &SectionGroup)
    requires { All (λ section. section < length marks.old) (sections_of group.now) }
    ensures { (section : ℕ) → is_marked marks.new section ≡ (is_marked marks.old section || contains section (sections_of group.now)) }
{
    for section in group.members() {
        marks[*section as usize] = true;
    }
    marks[group.index as usize] = true;
}

/// Marks the sections of the groups that aren't kept.
fn mark_discarded(marks: &mut [bool], groups: &[SectionGroup], kept: &[bool])
    requires inside { AreInside (length marks.old) groups.now }
    requires each { length kept.now ≡ length groups.now }
    ensures { (section : ℕ) → is_marked marks.new section
        ≡ (is_marked marks.old section || list_any (λ g. not g.1 && contains section (sections_of g.0)) (zip groups.now kept.now)) }
{
    for (i, group) in groups.iter().enumerate() {
        if !kept[i] {
            mark_sections(marks, group);
        }
    }
}

/// All groups are kept.
fn are_all_kept(kept: &[bool]) -> bool
    ensures { result ≡ list_all (λ is_kept. is_kept) kept.now }
{
    kept.iter().all(|is_kept| *is_kept)
}

/// The sections of the groups that aren't kept, marked in a table that is empty where all are kept.
pub fn discarded_sections(
    alloc: Global,
    sections: u32,
    groups: &[SectionGroup],
    kept: &[bool],
) -> Result<Vec<bool>, AllocError>
    requires inside { AreInside sections groups.now }
    requires each { length kept.now ≡ length groups.now }
    ensures { IfOk result (λ marks. (section : ℕ) → is_marked marks.items section
        ≡ list_any (λ g. not g.1 && contains section (sections_of g.0)) (zip groups.now kept.now)) }
{
    if are_all_kept(kept) {
        return Ok(Vec::new(alloc));
    }
    let mut marks = vec![in alloc; false; sections as usize]?;
    mark_discarded(marks.as_mut_slice(), groups, kept);
    Ok(marks)
}
