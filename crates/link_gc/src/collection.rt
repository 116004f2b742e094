//! Live sections are found.

ghost use Rattle.std.specs.Prelude.{◌≡◌, ◌<◌, ◌≤◌, IfOk};
ghost use Rattle.link_core.specs.Results.{HasParts};
ghost use Rattle.link_core_answer.specs.Parts.{answer_of};
ghost use Rattle.link_core_answer.specs.Seen.{seen};
ghost use Rattle.link_gc.specs.Live.{AreLiveAt, AreOf};
ghost use Rattle.link_gc.specs.Numbering.{IsOf};
ghost use Rattle.link_rules.specs.Answer.{IsLinked};
ghost use Rattle.link_rules.specs.Selection.{Selection};
ghost use Rattle.link_rules.specs.World.{World};

use crate::edges::edges;
use crate::error::GcError;
use crate::homes::placed_numbers;
use crate::live::LiveSections;
use crate::numbers::SectionNumbers;
use crate::roots::root_marks;
use link_claim::Gate;
use link_core_answer::Linked;
use link_gc_marking::mark_live;
use link_input::Platform;
use link_resolve_discarded::placed_objects;
use std::alloc::{AllocError, Global};
use std::thread::Threads;

/// The live sections of a link that ends with a selection.
fn live_sections<R: Threads + Sync, P: Platform, G: Gate + Sync>(
    rt: &R,
    alloc: Global,
    gate: &G,
    workers: usize,
    linked: &Linked<P>,
) -> Result<LiveSections, AllocError>
    requires some { 0 < workers }
    requires most { workers ≤ 256 }
    ensures { IfOk result (λ live. (l : Selection) → IsOf l (seen linked.now) → AreLiveAt l live.spans.items live.marks.items) }
{
    let db = linked.db();
    let objects = placed_objects(alloc, db.groups())?;
    let loaded = linked.resolved().loaded();
    let numbers = SectionNumbers::new(alloc, &objects, loaded, linked.groups())?;
    let placed = placed_numbers(alloc, db.files(), &numbers)?;
    let roots = root_marks(alloc, linked, &objects, &numbers, &placed)?;
    let edges = edges(alloc, linked, &objects, &numbers, &placed)?;
    let marks = mark_live(rt, alloc, gate, workers, &roots, edges)?;
    Ok(LiveSections {
        spans: numbers.spans,
        marks,
    })
}

/// The live sections of a link: those that are retained, the homes of what root names are mapped to, where the output is shared those of the definitions to
/// which other modules may bind, and with each live section all that it refers to, and groups whole. It is what `--gc-sections` keeps. So many workers
/// look for them. The only refusal is want of memory.
pub fn collect<R: Threads + Sync, P: Platform, G: Gate + Sync>(
    rt: &R,
    alloc: Global,
    gate: &G,
    workers: usize,
    linked: &Linked<P>,
) -> Result<LiveSections, GcError>
    requires some { 0 < workers }
    requires most { workers ≤ 256 }
    ensures { IfOk result (λ live. (w : World) → IsLinked w (answer_of (seen linked.now)) → HasParts w (seen linked.now) → AreOf w live) }
{
    let live = live_sections(rt, alloc, gate, workers, linked)?;
    Ok(live)
}
