//! The names that mark the start and the end of custom sections.

ghost use Rattle.std.specs.Prelude.{◌≡◌, IfOk, List, ℕ};
ghost use Rattle.link_resolve_undefined.specs.Boundaries.{is_mark_of};

use link_names::{Name, NameSet};
use std::alloc::{AllocError, Global};

/// Before the name of a section: the mark of its start.
const START: &[u8] = b"__start_";

/// Before the name of a section: the mark of its end.
const STOP: &[u8] = b"__stop_";

/// The names of custom sections, whose starts and ends have marks.
#[derive(Drop)]
pub(crate) struct SectionMarks {
    sections: NameSet,
}

impl SectionMarks {
    ghost use Rattle.link_resolve_undefined.specs.Boundaries.{Marks};

    /// The marks of these sections.
    pub(crate) fn new(alloc: Global, sections: &[Name]) -> Result<Self, AllocError>
        ensures { IfOk result (λ marks. Marks marks sections.now) }
    {
        let mut names = NameSet::new(alloc);
        for section in sections {
            names.insert(section.clone()?)?;
        }
        Ok(SectionMarks { sections: names })
    }

    /// Whether the name marks the start or the end of a section.
    pub(crate) fn contains(&self, name: &[u8]) -> bool
        ensures { (sections : List (List ℕ)) → Marks self.now sections → result ≡ is_mark_of sections name.now }
    {
        if let Some(section) = name.strip_prefix(START) {
            return self.sections.contains(section);
        }
        if let Some(section) = name.strip_prefix(STOP) {
            return self.sections.contains(section);
        }
        false
    }
}
