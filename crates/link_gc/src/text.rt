//! What is told of the sections of a link.

ghost use Rattle.std.specs.Prelude.{◌≡◌, ◌++◌, Contains, IfOk, IsTrue, OnOk, codes, decimal, string_bytes};
ghost use Rattle.link_core.specs.Results.{HasParts};
ghost use Rattle.link_core_answer.specs.Parts.{answer_of};
ghost use Rattle.link_core_answer.specs.Seen.{seen};
ghost use Rattle.link_gc.specs.Live.{AreLiveAt, AreOf};
ghost use Rattle.link_gc.specs.Numbering.{IsOf};
ghost use Rattle.link_gc_sections.specs.LiveSections.{is_loaded_section};
ghost use Rattle.link_gc_sections.specs.SectionText.{IsSectionText, object_lines, section_line, section_text, section_word};
ghost use Rattle.link_resolve_discarded.specs.Indexed.{AreGroupsOf};
ghost use Rattle.link_rules.specs.Answer.{IsLinked};
ghost use Rattle.link_rules.specs.Comdat.{loaded_regular};
ghost use Rattle.link_rules.specs.Selection.{Selection};
ghost use Rattle.link_rules.specs.World.{World};

use crate::live::LiveSections;
use link_core_answer::Linked;
use link_db_symbols::DiscardedSections;
use link_input::Platform;
use link_resolve_comdat::Candidate;
use link_resolve_discarded::{LoadedGroups, regular_candidates};
use std::alloc::{AllocError, Global};
use std::fmt::Write;

/// A line for each section of each loaded regular object, in their order: `gone N X` where the section X of the object N goes with its group, else `live N X`
/// or `dead N X`. The sections are those that `collect` found of this link. The only refusal is want of memory.
pub fn section_text<P: Platform>(
    alloc: Global,
    linked: &Linked<P>,
    live: &LiveSections,
) -> Result<Vec<u8>, AllocError>
    ensures { IfOk result (λ text. (w : World) → IsLinked w (answer_of (seen linked.now)) → HasParts w (seen linked.now) → AreOf w live.now → IsSectionText w text.items) }
{
    let text = section_lines(alloc, linked, live)?;
    Ok(text)
}

/// The lines of a link that ends with a selection.
fn section_lines<P: Platform>(
    alloc: Global,
    linked: &Linked<P>,
    live: &LiveSections,
) -> Result<Vec<u8>, AllocError>
    ensures { IfOk result (λ text. (l : Selection) → IsOf l (seen linked.now) → AreLiveAt l live.now.spans.items live.now.marks.items → text.items ≡ section_text l live.now.marks.items) }
{
    let mut text = String::new(alloc);
    let objects = regular_candidates(alloc, linked.db().groups(), linked.resolved().loaded())?;
    for object in &objects {
        write_object_lines(&mut text, object, linked.groups(), live)?;
    }
    Ok(text.into_bytes())
}

/// Adds the lines of an object's sections. It is a loaded regular one.
fn write_object_lines<P: Platform>(
    text: &mut String,
    object: &Candidate<'_, P>,
    groups: &LoadedGroups,
    live: &LiveSections,
) -> Result<(), AllocError>
    ensures { OnOk result ((l : Selection) → AreGroupsOf l.marks l.stage.objects groups.now → AreLiveAt l live.now.spans.items live.now.marks.items
        → Contains (loaded_regular l.stage l.marks) object.now → string_bytes text.new ≡ string_bytes text.old ++ object_lines l live.now.marks.items object.now) }
{
    for section in 0..object.parsed.object().num_sections() {
        write_section_line(text, object.place, section, groups, live)?;
    }
    Ok(())
}

/// Adds the line of the section of the object at this place.
fn write_section_line(
    text: &mut String,
    object: usize,
    section: u32,
    groups: &LoadedGroups,
    live: &LiveSections,
) -> Result<(), AllocError>
    ensures { OnOk result ((l : Selection) → AreGroupsOf l.marks l.stage.objects groups.now → AreLiveAt l live.now.spans.items live.now.marks.items
        → IsTrue (is_loaded_section l (object, section)) → string_bytes text.new ≡ string_bytes text.old ++ section_line l live.now.marks.items (object, section)) }
{
    let word = section_word(object, section, groups, live);
    write_word(text, word, object, section)
}

/// Adds a line of a word and two numbers.
fn write_word(text: &mut String, word: &str, object: usize, section: u32) -> Result<(), AllocError>
    ensures { OnOk result (string_bytes text.new ≡ string_bytes text.old ++ (word.now ++ codes " " ++ decimal object ++ codes " " ++ decimal section ++ codes "\n")) }
{
    writeln!(text, "{word} {object} {section}")
}

/// The word of the section of the object at this place.
fn section_word(
    object: usize,
    section: u32,
    groups: &LoadedGroups,
    live: &LiveSections,
) -> &'static str
    ensures { (l : Selection) → AreGroupsOf l.marks l.stage.objects groups.now → AreLiveAt l live.now.spans.items live.now.marks.items
        → IsTrue (is_loaded_section l (object, section)) → result.now ≡ section_word l live.now.marks.items (object, section) }
{
    if groups.is_discarded(object, section) {
        "gone"
    } else if live.is_live(object, section) {
        "live"
    } else {
        "dead"
    }
}
