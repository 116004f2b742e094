//! The numbers of the sections that may be kept, among those of all regular objects.

ghost use Rattle.std.specs.Prelude.{◌≡◌, ◌+◌, ◌<◌, ◌≤◌, ◌^◌, All, IfOk, IfSome, map, if◌then◌else◌};
ghost use Rattle.std.specs.List.{enumerate_from};
ghost use Rattle.link_db_files.specs.Inputs.{objects_in};
ghost use Rattle.link_input.specs.InputFiles.{sections_of};
ghost use Rattle.link_input.specs.Limits.{total};
ghost use Rattle.link_rules.specs.Selection.{Selection};
ghost use Rattle.link_gc.specs.Numbering.{AreNumbersOf, node_number, spans_from};

use link_closure::is_marked;
use link_db_symbols::DiscardedSections;
use link_input::{InputObject, Platform};
use link_input_groups::Group;
use link_resolve_comdat::Candidate;
use link_resolve_discarded::LoadedGroups;
use std::alloc::{AllocError, Global};

/// The numbers of the sections of an object, of which so many have one.
#[derive(Clone, Copy, Debug)]
pub(crate) struct SectionSpan {
    pub(crate) start: usize,
    pub(crate) len: usize,
}

/// How many sections of an object have a number: none of a shared object's.
fn sections_of<P: Platform>(object: &InputObject<P>) -> usize
    ensures value { result ≡ (if object.now.is_dynamic then 0 else object.now.sections) }
    ensures fits { result < 2 ^ 32 }
{
    if object.is_dynamic() {
        0
    } else {
        object.num_sections() as usize
    }
}

/// The numbers of the sections of all objects, one object after another, and how many there are. Those of an object that isn't loaded are passed over. It is
/// refused as want of memory is where there are more than can be numbered.
fn section_spans<P: Platform>(
    alloc: Global,
    objects: &[Candidate<'_, P>],
    loaded: &[bool],
) -> Result<(Vec<SectionSpan>, usize), AllocError>
    ensures spans { IfOk result (λ numbered. numbered.0.items ≡ spans_from loaded.now 0 objects.now) }
    ensures count { IfOk result (λ numbered. numbered.1 ≡ total sections_of (map (λ o. o.1) objects.now)) }
    ensures within { IfOk result (λ numbered. All (λ s. s.start + s.len ≤ numbered.1) numbered.0.items) }
{
    let mut spans = Vec::with_capacity(alloc, objects.len())?;
    let mut count = 0usize;
    for object in objects {
        let sections = sections_of(object.parsed.object());
        let end = count.checked_add(sections).ok_or(AllocError)?;
        let is_loaded = is_marked(loaded, object.place);
        let len = if is_loaded { sections } else { 0 };
        spans.push(SectionSpan { start: count, len })?;
        count = end;
    }
    Ok((spans, count))
}

/// Tells which sections of a link may be kept, and numbers them.
#[derive(Drop)]
pub(crate) struct SectionNumbers<'a> {
    pub(crate) spans: Vec<SectionSpan>,
    pub(crate) groups: &'a LoadedGroups,
    /// How many sections all regular objects have.
    pub(crate) count: usize,
    ghost within: { All (λ s. s.start + s.len ≤ count) spans.items },
}

impl<'a> SectionNumbers<'a> {
    /// Those of the objects, of which these are loaded, with the groups of these.
    pub(crate) fn new<P: Platform>(
        alloc: Global,
        objects: &[Candidate<'_, P>],
        loaded: &[bool],
        groups: &'a LoadedGroups,
    ) -> Result<Self, AllocError>
        ensures spans { IfOk result (λ numbers. numbers.spans.items ≡ spans_from loaded.now 0 objects.now) }
        ensures count { IfOk result (λ numbers. numbers.count ≡ total sections_of (map (λ o. o.1) objects.now)) }
        ensures groups { IfOk result (λ numbers. numbers.groups.now ≡ groups.now) }
    {
        let (spans, count) = section_spans(alloc, objects, loaded)?;
        Ok(SectionNumbers {
            spans,
            groups,
            count,
        })
    }

    /// The number of the section of the object at this place, where it may be kept: its object is a loaded regular one, and it doesn't go with a group.
    pub(crate) fn number(&self, object: usize, section: u32) -> Option<usize>
        ensures number { (l : Selection) → AreNumbersOf l self.now.spans.items self.now.groups.now → result ≡ node_number l (object, section) }
        ensures within { IfSome result (λ n. n < self.now.count) }
    {
        let span = self.spans.get(object)?;
        if section as usize >= span.len || self.groups.is_discarded(object, section) {
            return None;
        }
        Some(span.start + section as usize)
    }
}
