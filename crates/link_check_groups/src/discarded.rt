//! The sections of discarded groups.

ghost use Rattle.std.specs.Prelude.{◌≡◌, ◌==◌, ◌&&◌, ◌||◌, ℕ, OnOk, false};
ghost use Rattle.std.specs.Option.{option_map_or};
ghost use Rattle.link_rules.specs.Comdat.{sections_in};
ghost use Rattle.link_rules.specs.Places.{contains};
ghost use Rattle.link_check_groups.specs.Sections.{is_in};

use crate::group::ObjectGroup;
use link_ids::SectionIndex;
use std::alloc::AllocError;
use std::collections::BTreeSet;

/// Sections, each with the place of its object.
pub type Sections = BTreeSet<(usize, usize)>;

/// Adds a section of the object at this place.
fn add_section(sections: &mut Sections, object: usize, section: usize) -> Result<(), AllocError>
    ensures { OnOk result ((f n : ℕ) → is_in sections.new f n ≡ (is_in sections.old f n || (object == f && section == n))) }
{
    sections.insert((object, section))?;
    Ok(())
}

/// Adds sections of the object at this place.
fn add_sections(sections: &mut Sections, object: usize, members: &[u32]) -> Result<(), AllocError>
    ensures { OnOk result ((f n : ℕ) → is_in sections.new f n ≡ (is_in sections.old f n || (object == f && contains n members.now))) }
{
    for member in members {
        add_section(sections, object, *member as usize)?;
    }
    Ok(())
}

/// Adds the header and the members of a group.
pub fn add_group(sections: &mut Sections, group: &ObjectGroup) -> Result<(), AllocError>
    ensures { OnOk result ((f n : ℕ) → is_in sections.new f n ≡ (is_in sections.old f n || contains n (sections_in f group.now))) }
{
    add_section(sections, group.object(), group.header() as usize)?;
    add_sections(sections, group.object(), group.members())?;
    Ok(())
}

/// Whether this section, if there is one, is among them, as one of the object at this place.
pub fn has_section(sections: &Sections, object: usize, section: Option<SectionIndex>) -> bool
    ensures { result ≡ option_map_or (is_in sections.now object) section false }
{
    match section {
        Some(section) => sections.contains(&(object, section.as_usize())),
        None => false,
    }
}
