//! The summary of a link.

ghost use Rattle.std.specs.Prelude.{◌≡◌, ◌++◌, IfOk, OnOk, string_bytes};
ghost use Rattle.link_db_files.specs.Inputs.{objects_in};
ghost use Rattle.link_core_answer.specs.Parts.{answer_of};
ghost use Rattle.link_core_answer.specs.Seen.{seen};
ghost use Rattle.link_report.specs.Summary.{count_line, discarded_comdats, loaded_members, summary_text};

use crate::counts::{discarded_count, member_count};
use link_core_answer::Linked;
use link_input::Platform;
use std::alloc::{AllocError, Global};
use std::fmt::Write;

/// What is counted of the loaded objects.
#[derive(Clone, Copy, Debug)]
struct LoadedCounts {
    /// How many of them are members: all but the one that stands first.
    members: usize,
    /// How many of their COMDAT groups are not kept.
    discarded: u128,
}

/// Counts the loaded objects and their groups.
fn loaded_counts<P: Platform>(alloc: Global, linked: &Linked<P>) -> Result<LoadedCounts, AllocError>
    ensures members { IfOk result (λ counts. counts.members ≡ loaded_members (answer_of (seen linked.now))) }
    ensures discarded { IfOk result (λ counts. counts.discarded
        ≡ discarded_comdats (objects_in (seen linked.now).db.mapping.files.groups) (answer_of (seen linked.now))) }
{
    let loaded = linked.loaded_objects(alloc)?;
    Ok(LoadedCounts {
        members: member_count(&loaded),
        discarded: discarded_count(alloc, linked.kept_comdats(), &loaded)?,
    })
}

/// The summary of a link with so many archive members, of which the first object is none: how many of the members are
/// loaded, how many COMDAT groups of loaded objects are kept and how many are discarded, how many symbols there are, and how many
/// names are undefined. The only refusal is want of memory.
pub fn summary_text<P: Platform>(
    alloc: Global,
    members: usize,
    linked: &Linked<P>,
) -> Result<Vec<u8>, AllocError>
    ensures { IfOk result (λ text. text.items ≡ summary_text members (objects_in (seen linked.now).db.mapping.files.groups) (answer_of (seen linked.now))) }
{
    let loaded = loaded_counts(alloc, linked)?;
    let mut text = String::new(alloc);
    write_count(&mut text, "members", members as u128)?;
    write_count(&mut text, "loaded members", loaded.members as u128)?;
    write_count(&mut text, "kept", linked.kept_comdats().len() as u128)?;
    write_count(&mut text, "discarded", loaded.discarded)?;
    write_count(&mut text, "symbols", linked.num_symbols() as u128)?;
    write_count(&mut text, "undefined", linked.undefined().len() as u128)?;
    Ok(text.into_bytes())
}

/// Adds the line of a count.
fn write_count(text: &mut String, what: &str, count: u128) -> Result<(), AllocError>
    ensures { OnOk result (string_bytes text.new ≡ string_bytes text.old ++ count_line what.now count) }
{
    writeln!(text, "{what} {count}")
}
