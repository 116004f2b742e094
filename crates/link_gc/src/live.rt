//! The live sections of a link.

ghost use Rattle.std.specs.Prelude.{◌≡◌, ◌+◌, ◌&&◌};
ghost use Rattle.link_closure.specs.Closure.{is_marked};
ghost use Rattle.link_gc.specs.Live.{AreLiveAt, is_live};
ghost use Rattle.link_rules.specs.Selection.{Selection};

use crate::numbers::SectionSpan;
use link_closure::is_marked;

/// The live sections of a link, those that `--gc-sections` keeps.
#[derive(Drop)]
pub struct LiveSections {
    /// The numbers of the sections of each object, by its place; none of an object that isn't loaded, or is shared.
    pub(crate) spans: Vec<SectionSpan>,
    /// A mark for each section, by its number.
    pub(crate) marks: Vec<bool>,
}

/// The mark of a section, by its number among those whose marks begin at a place. No sum is made: it could be too large for a number.
fn is_marked_behind(marks: &[bool], start: usize, section: usize) -> bool
    ensures { result ≡ is_marked marks.now (start + section) }
{
    match marks.get(start..) {
        Some(own) => is_marked(own, section),
        None => false,
    }
}

impl LiveSections {
    /// Whether the section of the object at this place is live. None is of an object that isn't loaded or is shared, nor one that the object lacks.
    pub fn is_live(&self, object: usize, section: u32) -> bool
        ensures { (l : Selection) → AreLiveAt l self.now.spans.items self.now.marks.items → result ≡ is_live l self.now.marks.items (object, section) }
    {
        match self.spans.get(object) {
            Some(span) => {
                let section = section as usize;
                section < span.len && is_marked_behind(&self.marks, span.start, section)
            }
            None => false,
        }
    }
}
