//! `why`: why the objects of a manifest's link are loaded.

ghost use Rattle.std.specs.Prelude.{◌≡◌, ◌≤◌, [], IfOk, length, map};
ghost use Rattle.std.specs.List.{slice_index_or};
ghost use Rattle.link_core.specs.Given.{given_in_batches};
ghost use Rattle.link_core_answer.specs.Seen as answer;
ghost use Rattle.link_db_files.specs.HeldFiles.{names_in, version_of};
ghost use Rattle.link_db_texts.specs.Holds.{platform_of};
ghost use Rattle.link_input.specs.InputFiles.{batch_of};
ghost use Rattle.link_manifest.specs.Checked.{IsGroupSize, later_count, options_of};
ghost use Rattle.link_report.specs.Why.{why_text};
ghost use Rattle.link_rules.specs.World.{world_of};
ghost use Rattle.link_program.specs.Described.{world_in};
ghost use Rattle.link_program.specs.Grammar.{IsInRange};
ghost use Rattle.link_program.specs.Outcome.{IsWorldText};
ghost use Rattle.link_program.specs.Why.{IsWhyReport};

use crate::answer::{Answer, refusal_answer};
use crate::command::Command;
use crate::run::in_one_list;
use crate::status::Status;
use link_claim::OpenGate;
use link_core::link_why;
use link_core_answer::Linked;
use link_input::{Platform, World};
use link_manifest::PlatformWorld;
use link_report::{choices_go_by_the_names_of_files, why_text};
use link_rules::Explanation;
use link_script::Plain;
use std::alloc::{AllocError, Global};
use std::thread::Threads;

/// The explanation of a link of what a manifest describes.
pub(crate) fn why_of_manifest<R: Threads + Sync>(
    rt: &R,
    alloc: Global,
    workers: usize,
    described: PlatformWorld,
) -> Result<Answer, AllocError>
    requires in_range { IsInRange (Command.Why workers) }
    requires group_size { IsGroupSize (options_of described).files_per_group }
    requires few { later_count described ≤ 255 }
    ensures { let w = world_in described in IfOk result (λ a. IsWorldText w (IsWhyReport w) a.status a.text.items) }
{
    match described {
        PlatformWorld::Elf(world) => why_of_world(rt, alloc, workers, world),
        PlatformWorld::Mach(world) => why_of_world(rt, alloc, workers, world),
    }
}

/// The explanation of a link of this world. It stands apart, as `answer_to_world` does, for the sake of the stack.
#[inline(never)]
fn why_of_world<R: Threads + Sync, P: Platform + Sync>(
    rt: &R,
    alloc: Global,
    workers: usize,
    world: World<P>,
) -> Result<Answer, AllocError>
    requires in_range { IsInRange (Command.Why workers) }
    requires group_size { IsGroupSize world.options.files_per_group }
    requires few { length world.later ≤ 255 }
    ensures { let w = world_of (platform_of P.Platform) (λ name. name) (given_in_batches (batch_of world.inputs) (map batch_of world.later) world.options world.scripts) in
        IfOk result (λ a. IsWorldText w (IsWhyReport w) a.status a.text.items) }
{
    let World {
        inputs,
        later,
        options,
        scripts,
    } = world;
    let batches = in_one_list(inputs, later)?;
    choices_go_by_the_names_of_files::<P>();
    match link_why(
        rt, alloc, &OpenGate, batches, options, scripts, &Plain, workers,
    ) {
        Ok(told) => explained_answer(alloc, &told.0, &told.1),
        Err(error) => refusal_answer(alloc, error),
    }
}

/// The answer to a link that is explained.
fn explained_answer<P: Platform>(
    alloc: Global,
    linked: &Linked<P>,
    explanation: &Explanation,
) -> Result<Answer, AllocError>
    ensures status { IfOk result (λ a. a.status ≡ Status.Linked) }
    ensures text { IfOk result (λ a. let held = (answer.seen linked.now).db.mapping.files in
        a.text.items ≡ why_text (λ s. slice_index_or (names_in held) s []) (version_of held) explanation.now) }
{
    let text = why_text(alloc, linked, explanation)?;
    Ok(Answer {
        status: Status::Linked,
        text,
    })
}
