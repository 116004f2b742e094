//! The program, over any source and sink.

ghost use Rattle.std.specs.Prelude.{◌≡◌, ◌≢◌, ◌≤◌, ◌⊎◌, ◌+◌, ◌^◌, ◌∷◌, IfOk, length, map};
ghost use Rattle.link_core_answer.specs.Parts.{answer_of};
ghost use Rattle.link_core_answer.specs.Seen as answer;
ghost use Rattle.link_core.specs.Given.{given_in_batches};
ghost use Rattle.link_db_files.specs.Inputs.{objects_in};
ghost use Rattle.link_input.specs.InputFiles.{batch_of};
ghost use Rattle.link_db_texts.specs.Holds.{platform_of};
ghost use Rattle.link_manifest.specs.Checked.{IsGroupSize, later_count, options_of};
ghost use Rattle.link_rules.specs.Places.{Bytes};
ghost use Rattle.link_rules.specs.World.{world_of};
ghost use Rattle.link_program_streams.specs.Streams.{IsAtEnd, IsCalledAtMost, GivesAtMost, Takes, Rose};
ghost use Rattle.link_program.specs.Grammar.{IsInRange, ReadsManifest, ReadsNothing};
ghost use Rattle.link_program.specs.Described.{given_in, objects_given, world_in};
ghost use Rattle.link_program.specs.Outcome.{IsCutShort, IsDue, IsOfWholeSource, IsReadText, IsReadingInRange, IsSummary, IsTextFor, IsToldOf, IsWorldText, IsWritten, ReadsAll, text_read, told_text};

use crate::answer::{Answer, error_answer, fault_answer, refusal_answer};
use crate::check::check_of_manifest;
use crate::command::{Command, command_of};
use crate::gc::sections_of_manifest;
use crate::status::Status;
use crate::verdef::verdef_of_manifest;
use crate::why::why_of_manifest;
use crate::word::Word;
use link_claim::OpenGate;
use link_core::link_batches;
use link_core_answer::Linked;
use link_input::{Inputs, Platform, World};
use link_manifest::{MAX_BYTES, ManifestError, ManifestFault, PlatformWorld, Problem, manifest_of};
use link_manifest_bulk::bulk_manifest;
use link_names::Seq;
use link_program_streams::{ReadAllError, Sink, Source, read_all, write_all};
use link_report::{report_text, summary_text};
use link_script::Plain;
use std::alloc::{AllocError, Global};
use std::thread::Threads;

/// What is asked of a manifest that is read.
#[derive(Clone, Copy, Debug, PartialEq, Eq)]
pub enum Reading {
    Link { workers: usize },
    Why { workers: usize },
    Gc { workers: usize },
    Verdef,
    Check,
}

impl Reading {
    /// How many workers read the manifest, at most.
    fn workers(self) -> usize {
        match self {
            Reading::Link { workers } | Reading::Why { workers } | Reading::Gc { workers } =>
                workers,
            Reading::Verdef | Reading::Check => 1,
        }
    }
}

/// How much is told of a link.
#[derive(Clone, Copy, Debug, PartialEq, Eq)]
pub enum Told {
    Report,
    /// The counts of a made-up world of so many members.
    Summary { members: usize },
}

/// Runs the command that the words write, and writes its answer to the sink. `link` reads what the
/// source has left as a manifest, and reports what a link of it gives; `why` reads and links it as
/// `link` does, and writes why each object is loaded and which of several definitions counts; `gc`
/// reads and links it so too, and writes which sections are live;
/// `verdef` reads it too, and writes the version definitions that its version script makes; `check`
/// judges the claim that it makes of the link; `bulk` reads nothing, and sums up what a link of a
/// made-up world gives.
///
/// For every manifest and every number of workers the report that is written is exactly the one
/// that the rules of a link give, and a link is refused exactly with the first cause that the
/// manifest holds. Neither the number of workers nor the pieces in which the bytes come and go
/// change a byte of it. A fault of source or sink is told only where one came.
pub fn run<R: Threads + Sync, S: Source, K: Sink>(
    rt: &R,
    alloc: Global,
    words: &[Word],
    source: &mut S,
    sink: &mut K,
) -> Status
    // What is written, by the status.
    ensures written { IsWritten words.now (S.left source.old) result (K.taken sink.old) (K.taken sink.new) }
    ensures part { IsCutShort words.now (S.left source.old) result (λ status. (status ≡ Status.ReadFault → Rose (S.faults source.old) (S.faults source.new))
        × (ReadsManifest words.now → ReadsAll status → IsAtEnd (S.left source.new))) (K.taken sink.old) (K.taken sink.new) }

    ensures nothing_left { ReadsManifest words.now → ReadsAll result → IsAtEnd (S.left source.new) }
    ensures nothing_read { ReadsNothing words.now → S.left source.new ≡ S.left source.old }
    ensures read_no_further { GivesAtMost (S.left source.old) (S.left source.new) (2 ^ 28 + 1) }
    ensures turns { IsCalledAtMost (S.calls source.old) (S.calls source.new) (2 ^ 28 + 1) }

    // A fault is told only where one came, and each answer that a stream failed is told.
    ensures read_fault { result ≡ Status.ReadFault → Rose (S.faults source.old) (S.faults source.new) }
    ensures write_fault { result ≡ Status.WriteFault → Rose (K.faults sink.old) (K.faults sink.new) }
    ensures source_answered { result ≢ Status.WriteFault → IsOfWholeSource result → S.refusals source.new ≡ S.refusals source.old }
    ensures sink_answered { result ≢ Status.WriteFault → K.refusals sink.new ≡ K.refusals sink.old }

    // Where there is none, what is due is written, unless memory runs out.
    ensures complete { (status : Status) (text : Bytes) → IsDue words.now (S.left source.old) status text
        → ¬ Rose (S.faults source.old) (S.faults source.new) → ¬ Rose (K.faults sink.old) (K.faults sink.new)
        → ((result ≡ status) × Takes (K.taken sink.old) (K.taken sink.new) text) ⊎ (result ≡ Status.Memory) }
{
    let answer = match answer_to(rt, alloc, words, source) {
        Ok(answer) => answer,
        Err(_) => return Status::Memory,
    };
    match write_all(sink, &answer.text) {
        Ok(()) => answer.status,
        Err(_) => Status::WriteFault,
    }
}

/// The answer to the words.
fn answer_to<R: Threads + Sync, S: Source>(
    rt: &R,
    alloc: Global,
    words: &[Word],
    source: &mut S,
) -> Result<Answer, AllocError>
    ensures text { IfOk result (λ a. IsTextFor words.now (S.left source.old) a.status a.text.items) }
    ensures nothing_left { IfOk result (λ a. ReadsManifest words.now → ReadsAll a.status → IsAtEnd (S.left source.new)) }
    ensures nothing_read { ReadsNothing words.now → S.left source.new ≡ S.left source.old }
    ensures read_no_further { GivesAtMost (S.left source.old) (S.left source.new) (2 ^ 28 + 1) }
    ensures turns { IsCalledAtMost (S.calls source.old) (S.calls source.new) (2 ^ 28 + 1) }
    ensures source_answered { IfOk result (λ a. a.status ≢ Status.ReadFault → S.refusals source.new ≡ S.refusals source.old) }
    ensures read_fault { IfOk result (λ a. a.status ≡ Status.ReadFault → Rose (S.faults source.old) (S.faults source.new)) }
    ensures answered { IfOk result (λ a. a.status ≢ Status.Memory) }
{
    match command_of(words) {
        Some(Command::Link { workers }) => {
            answer_to_source(rt, alloc, Reading::Link { workers }, source)
        }
        Some(Command::Why { workers }) => {
            answer_to_source(rt, alloc, Reading::Why { workers }, source)
        }
        Some(Command::Gc { workers }) => {
            answer_to_source(rt, alloc, Reading::Gc { workers }, source)
        }
        Some(Command::Bulk { members, workers }) => answer_to_bulk(rt, alloc, members, workers),
        Some(Command::Verdef) => answer_to_source(rt, alloc, Reading::Verdef, source),
        Some(Command::Check) => answer_to_source(rt, alloc, Reading::Check, source),
        None => error_answer(alloc, Status::Usage, b"usage"),
    }
}

/// The answer of a command that reads what a source has left.
fn answer_to_source<R: Threads + Sync, S: Source>(
    rt: &R,
    alloc: Global,
    reading: Reading,
    source: &mut S,
) -> Result<Answer, AllocError>
    requires in_range { IsReadingInRange reading }
    ensures text { IfOk result (λ a. IsReadText (text_read reading) (S.left source.old) a.status a.text.items) }
    ensures nothing_left { IfOk result (λ a. ReadsAll a.status → IsAtEnd (S.left source.new)) }
    ensures read_no_further { GivesAtMost (S.left source.old) (S.left source.new) (2 ^ 28 + 1) }
    ensures turns { IsCalledAtMost (S.calls source.old) (S.calls source.new) (2 ^ 28 + 1) }
    ensures source_answered { IfOk result (λ a. a.status ≢ Status.ReadFault → S.refusals source.new ≡ S.refusals source.old) }
    ensures read_fault { IfOk result (λ a. a.status ≡ Status.ReadFault → Rose (S.faults source.old) (S.faults source.new)) }
{
    match read_all(alloc, source, MAX_BYTES) {
        Ok(bytes) => answer_to_bytes(rt, alloc, reading, &bytes),
        Err(ReadAllError::TooLong) => {
            let fault = ManifestFault {
                path: Seq::new(alloc),
                problem: Problem::TooLong,
            };
            fault_answer(alloc, &fault)
        }
        Err(ReadAllError::ReadFault) => error_answer(alloc, Status::ReadFault, b"read fault"),
        Err(ReadAllError::Memory) => Err(AllocError),
    }
}

/// The answer of such a command to what these bytes describe.
fn answer_to_bytes<R: Threads + Sync>(
    rt: &R,
    alloc: Global,
    reading: Reading,
    bytes: &[u8],
) -> Result<Answer, AllocError>
    requires in_range { IsReadingInRange reading }
    ensures { IfOk result (λ a. text_read reading bytes.now a.status a.text.items) }
{
    match manifest_of(rt, alloc, reading.workers(), bytes) {
        Ok(manifest) => match reading {
            Reading::Link { workers } => {
                answer_to_manifest(rt, alloc, workers, Told::Report, manifest.world)
            }
            Reading::Why { workers } => why_of_manifest(rt, alloc, workers, manifest.world),
            Reading::Gc { workers } => sections_of_manifest(rt, alloc, workers, manifest.world),
            Reading::Verdef => verdef_of_manifest(alloc, manifest.world),
            Reading::Check => check_of_manifest(alloc, manifest),
        },
        Err(ManifestError::At(fault)) => fault_answer(alloc, &fault),
        Err(ManifestError::Memory) => Err(AllocError),
    }
}

/// The answer to a link of the made-up world of so many members.
fn answer_to_bulk<R: Threads + Sync>(
    rt: &R,
    alloc: Global,
    members: usize,
    workers: usize,
) -> Result<Answer, AllocError>
    requires in_range { IsInRange (Command.Bulk members workers) }
    ensures { IfOk result (λ a. (a.status ≡ Status.Linked) × IsSummary members a.text.items) }
{
    let manifest = bulk_manifest(alloc, members)?;
    answer_to_manifest(
        rt,
        alloc,
        workers,
        Told::Summary { members },
        manifest.world,
    )
}

/// The answer to a link of what a manifest describes.
fn answer_to_manifest<R: Threads + Sync>(
    rt: &R,
    alloc: Global,
    workers: usize,
    told: Told,
    described: PlatformWorld,
) -> Result<Answer, AllocError>
    requires in_range { IsInRange (Command.Link workers) }
    requires group_size { IsGroupSize (options_of described).files_per_group }
    requires few { later_count described ≤ 255 }
    ensures { let w = world_in described in
        IfOk result (λ a. IsWorldText w (IsToldOf w (told_text told (objects_given (given_in described)))) a.status a.text.items) }
{
    match described {
        PlatformWorld::Elf(world) => answer_to_world(rt, alloc, workers, told, world),
        PlatformWorld::Mach(world) => answer_to_world(rt, alloc, workers, told, world),
    }
}

/// The first batch and those behind it, as one list.
pub(crate) fn in_one_list<P: Platform>(
    first: Inputs<P>,
    later: Seq<Inputs<P>>,
) -> Result<Vec<Inputs<P>>, AllocError>
    ensures { IfOk result (λ batches. batches.items ≡ first ∷ later) }
{
    let mut batches = later.into_vec();
    batches.insert(0, first)?;
    Ok(batches)
}

/// The answer to a link of this world. It stands apart: within `answer_to_manifest`, once for each platform, it would take as much of the stack again.
#[inline(never)]
fn answer_to_world<R: Threads + Sync, P: Platform + Sync>(
    rt: &R,
    alloc: Global,
    workers: usize,
    told: Told,
    world: World<P>,
) -> Result<Answer, AllocError>
    requires in_range { IsInRange (Command.Link workers) }
    requires group_size { IsGroupSize world.options.files_per_group }
    requires few { length world.later ≤ 255 }
    ensures { let given = given_in_batches (batch_of world.inputs) (map batch_of world.later) world.options world.scripts in
        let w = world_of (platform_of P.Platform) (λ name. name) given in
        IfOk result (λ a. IsWorldText w (IsToldOf w (told_text told (objects_given given))) a.status a.text.items) }
{
    let World {
        inputs,
        later,
        options,
        scripts,
    } = world;
    let batches = in_one_list(inputs, later)?;
    match link_batches(
        rt, alloc, &OpenGate, batches, options, scripts, &Plain, workers,
    ) {
        Ok(linked) => linked_answer(rt, alloc, workers, told, &linked),
        Err(error) => refusal_answer(alloc, error),
    }
}

/// The answer to a link that stands.
fn linked_answer<R: Threads + Sync, P: Platform + Sync>(
    rt: &R,
    alloc: Global,
    workers: usize,
    told: Told,
    linked: &Linked<P>,
) -> Result<Answer, AllocError>
    ensures status { IfOk result (λ a. a.status ≡ Status.Linked) }
    ensures text { IfOk result (λ a. a.text.items
        ≡ told_text told (objects_in (answer.seen linked.now).db.mapping.files.groups) (answer_of (answer.seen linked.now))) }
{
    let text = text_of(rt, alloc, workers, told, linked)?;
    Ok(Answer {
        status: Status::Linked,
        text,
    })
}

/// What is told of a link.
fn text_of<R: Threads + Sync, P: Platform + Sync>(
    rt: &R,
    alloc: Global,
    workers: usize,
    told: Told,
    linked: &Linked<P>,
) -> Result<Vec<u8>, AllocError>
    ensures { IfOk result (λ text. text.items
        ≡ told_text told (objects_in (answer.seen linked.now).db.mapping.files.groups) (answer_of (answer.seen linked.now))) }
{
    match told {
        Told::Report => report_text(rt, alloc, workers, linked),
        Told::Summary { members } => summary_text(alloc, members, linked),
    }
}
