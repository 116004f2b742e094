//! Which groups hold sections together that take part in the collection of those that nothing needs.

ghost use Rattle.std.specs.Prelude.{◌≡◌, ◌<◌, ◌&&◌, All, length, map, count_by};
ghost use Rattle.std.specs.List.{zip};
ghost use Rattle.link_closure.specs.Closure.{is_marked};
ghost use Rattle.link_resolve_comdat.specs.ObjectGroups.{has_two, sections_of};
ghost use Rattle.link_resolve_comdat.specs.Tables.{AreInside};

use link_input::SectionGroup;

/// How many of the sections are marked.
fn count_marked(marks: &[bool], sections: &[u32]) -> usize
    requires { All (λ section. section < length marks.now) sections.now }
    ensures { result ≡ count_by (is_marked marks.now) sections.now }
{
    let mut count = 0;
    for section in sections {
        if marks[*section as usize] {
            count += 1;
        }
    }
    count
}

/// Two or more of the sections of a group are marked.
fn has_two(marks: &[bool], group: &SectionGroup) -> bool
    requires { All (λ section. section < length marks.now) (sections_of group.now) }
    ensures { result ≡ has_two marks.now group.now }
{
    let members = count_marked(marks, group.members());
    if marks[group.index as usize] {
        1 <= members
    } else {
        2 <= members
    }
}

/// A group that is pending stays so.
fn stays_pending(is_pending: bool, group: &SectionGroup, marks: &[bool], enabled: bool) -> bool
    requires { All (λ section. section < length marks.now) (sections_of group.now) }
    ensures { result ≡ (enabled && is_pending && has_two marks.now group.now) }
{
    enabled && is_pending && has_two(marks, group)
}

/// Of the groups that are pending those stay so of which two or more sections are marked; none, where that is not enabled.
pub fn keep_pending(pending: &mut [bool], groups: &[SectionGroup], marks: &[bool], enabled: bool)
    requires inside { AreInside (length marks.now) groups.now }
    requires each { length pending.old ≡ length groups.now }
    ensures { pending.new ≡ map (λ g. enabled && g.1 && has_two marks.now g.0) (zip groups.now pending.old) }
{
    for (i, group) in groups.iter().enumerate() {
        pending[i] = stays_pending(pending[i], group, marks, enabled);
    }
}
