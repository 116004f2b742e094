//! `gc`: which sections of a manifest's link are live.

ghost use Rattle.std.specs.Prelude.{◌≡◌, ◌≤◌, IfOk, length, map};
ghost use Rattle.link_core.specs.Given.{given_in_batches};
ghost use Rattle.link_core.specs.Results.{HasParts};
ghost use Rattle.link_core_answer.specs.Parts.{answer_of};
ghost use Rattle.link_core_answer.specs.Seen as answer;
ghost use Rattle.link_db_texts.specs.Holds.{platform_of};
ghost use Rattle.link_input.specs.InputFiles.{batch_of};
ghost use Rattle.link_manifest.specs.Checked.{IsGroupSize, later_count, options_of};
ghost use Rattle.link_gc_sections.specs.SectionText.{IsSectionText};
ghost use Rattle.link_rules.specs.Answer.{IsLinked};
ghost use Rattle.link_rules.specs.World.{World as Meant, world_of};
ghost use Rattle.link_program.specs.Described.{world_in};
ghost use Rattle.link_program.specs.Grammar.{IsInRange};
ghost use Rattle.link_program.specs.Outcome.{IsWorldText};
ghost use Rattle.link_program.specs.Gc.{IsGcReport};

use crate::answer::{Answer, refusal_answer};
use crate::command::Command;
use crate::run::in_one_list;
use crate::status::Status;
use link_claim::OpenGate;
use link_core::link_batches;
use link_core_answer::Linked;
use link_gc::{GcError, collect, section_text};
use link_input::{Platform, World};
use link_manifest::PlatformWorld;
use link_script::Plain;
use std::alloc::{AllocError, Global};
use std::thread::Threads;

/// The sections of a link of what a manifest describes.
pub(crate) fn sections_of_manifest<R: Threads + Sync>(
    rt: &R,
    alloc: Global,
    workers: usize,
    described: PlatformWorld,
) -> Result<Answer, AllocError>
    requires in_range { IsInRange (Command.Gc workers) }
    requires group_size { IsGroupSize (options_of described).files_per_group }
    requires few { later_count described ≤ 255 }
    ensures { let w = world_in described in IfOk result (λ a. IsWorldText w (IsGcReport w) a.status a.text.items) }
{
    match described {
        PlatformWorld::Elf(world) => sections_of_world(rt, alloc, workers, world),
        PlatformWorld::Mach(world) => sections_of_world(rt, alloc, workers, world),
    }
}

/// The sections of a link of this world. It stands apart, as `answer_to_world` does, for the sake of the stack.
#[inline(never)]
fn sections_of_world<R: Threads + Sync, P: Platform + Sync>(
    rt: &R,
    alloc: Global,
    workers: usize,
    world: World<P>,
) -> Result<Answer, AllocError>
    requires in_range { IsInRange (Command.Gc workers) }
    requires group_size { IsGroupSize world.options.files_per_group }
    requires few { length world.later ≤ 255 }
    ensures { let w = world_of (platform_of P.Platform) (λ name. name) (given_in_batches (batch_of world.inputs) (map batch_of world.later) world.options world.scripts) in
        IfOk result (λ a. IsWorldText w (IsGcReport w) a.status a.text.items) }
{
    let World {
        inputs,
        later,
        options,
        scripts,
    } = world;
    let batches = in_one_list(inputs, later)?;
    match link_batches(
        rt, alloc, &OpenGate, batches, options, scripts, &Plain, workers,
    ) {
        Ok(linked) => sections_answer(rt, alloc, workers, &linked),
        Err(error) => refusal_answer(alloc, error),
    }
}

/// The answer to a link of which it is asked which sections are live.
fn sections_answer<R: Threads + Sync, P: Platform + Sync>(
    rt: &R,
    alloc: Global,
    workers: usize,
    linked: &Linked<P>,
) -> Result<Answer, AllocError>
    requires in_range { IsInRange (Command.Gc workers) }
    ensures status { IfOk result (λ a. a.status ≡ Status.Linked) }
    ensures text { IfOk result (λ a. (w : Meant) → IsLinked w (answer_of (answer.seen linked.now)) → HasParts w (answer.seen linked.now) → IsSectionText w a.text.items) }
{
    let live = match collect(rt, alloc, &OpenGate, workers, linked) {
        Ok(live) => live,
        Err(GcError::Memory) => return Err(AllocError),
    };
    let text = section_text(alloc, linked, &live)?;
    Ok(Answer {
        status: Status::Linked,
        text,
    })
}
