//! A whole link.

ghost use Rattle.std.specs.Prelude.{◌≡◌, ◌⊎◌, ◌≤◌, ◌∷◌, [], IfErr, IfOk, length, map};
ghost use Rattle.std.specs.List.{flat_map};
ghost use Rattle.link_db_files.specs.Inputs.{objects_in};
ghost use Rattle.link_input.specs.InputFiles.{batch_of};
ghost use Rattle.link_input.specs.Limits.{batch_limit};
ghost use Rattle.link_db_texts.specs.Holds.{platform_of};
ghost use Rattle.link_rules.specs.declared.refusal.LinkError.TheVariants.{Memory};
ghost use Rattle.link_core_answer.specs.Parts.{answer_of};
ghost use Rattle.link_core_answer.specs.Seen as answer;
ghost use Rattle.link_db.specs.Seen.{seen};
ghost use Rattle.link_core.specs.Results.{IsExplainedBy, IsRefusedFor, KeepsParts, LinksTo};
ghost use Rattle.link_core.specs.Standing.{Stands, came_to};

use crate::execution::Execution;
use crate::standing_link::StandingLink;
use link_claim::Gate;
use link_core_answer::Linked;
use link_input::{Inputs, Options, Platform, Scripts};
use link_rules::{Explanation, LinkError};
use link_script::Demangler;
use std::alloc::{AllocError, Global};
use std::thread::Threads;

/// The link of these batches, one after another, which may be asked for its end.
fn link_all<R: Threads + Sync, P: Platform + Sync, D: Demangler + Sync, G: Gate + Sync>(
    execution: &Execution<R, G>,
    batches: Vec<Inputs<P>>,
    options: Options,
    scripts: Scripts,
    demangler: &D,
) -> Result<StandingLink<P>, LinkError>
    requires workers { (1 ≤ execution.now.workers) × (execution.now.workers ≤ 256) }
    requires files { (1 ≤ options.files_per_group) × (options.files_per_group ≤ 256) }
    requires some { 1 ≤ length batches.items }
    requires most { length batches.items ≤ batch_limit }
    ensures standing { IfOk result (λ standing. Stands (platform_of P.Platform) (D.demangled demangler.now) standing) }
    ensures options { IfOk result (λ standing. (seen standing.link.db).options ≡ options) }
    ensures texts { IfOk result (λ standing. standing.texts ≡ scripts) }
    ensures batches { IfOk result (λ standing. came_to standing ≡ map batch_of batches.items) }
    ensures refused { IfErr result (λ error. IsRefusedFor (platform_of P.Platform) (D.demangled demangler.now) options scripts (map batch_of batches.items) error ⊎ (error ≡ Memory)) }
{
    let mut standing = StandingLink::open(execution.alloc, options, scripts, execution.workers)?;
    for inputs in batches {
        standing.link_next(execution, demangler, inputs)?;
    }
    Ok(standing)
}

/// Links batches of inputs, one after another: what an earlier batch loaded stays loaded, and what its references stand for stays. Each batch asks for what
/// its own objects and those of all before it need; what counts of several definitions is settled once, behind the last.
///
/// It is refused with the first of the causes of `link_symbols`, in the order of the batches: those of the options' texts, then for each batch those of its
/// linker scripts, of limits, and of its objects, then those behind the last batch. A version script that comes with a later batch is `LateVersionScript`,
/// unless one was taken before. `Memory` may come in place of any answer.
pub fn link_batches<R: Threads + Sync, P: Platform + Sync, D: Demangler + Sync, G: Gate + Sync>(
    rt: &R,
    alloc: Global,
    gate: &G,
    batches: Vec<Inputs<P>>,
    options: Options,
    scripts: Scripts,
    demangler: &D,
    workers: usize,
) -> Result<Linked<P>, LinkError>
    requires workers { (1 ≤ workers) × (workers ≤ 256) }
    requires files { (1 ≤ options.files_per_group) × (options.files_per_group ≤ 256) }
    requires some { 1 ≤ length batches.items }
    requires most { length batches.items ≤ batch_limit }
    ensures linked { IfOk result (λ linked. LinksTo (platform_of P.Platform) (D.demangled demangler.now) options scripts (map batch_of batches.items) (answer_of (answer.seen linked))) }
    ensures parts { IfOk result (λ linked. KeepsParts (platform_of P.Platform) (D.demangled demangler.now) options scripts (map batch_of batches.items) (answer.seen linked)) }
    ensures objects { IfOk result (λ linked. objects_in (answer.seen linked).db.mapping.files.groups ≡ flat_map (λ b. b.objects) (map batch_of batches.items)) }
    ensures refused { IfErr result (λ error. IsRefusedFor (platform_of P.Platform) (D.demangled demangler.now) options scripts (map batch_of batches.items) error ⊎ (error ≡ Memory)) }
{
    let execution = Execution {
        rt,
        alloc,
        gate,
        workers,
    };
    let standing = link_all(&execution, batches, options, scripts, demangler)?;
    standing.finish(alloc, demangler)
}

/// Links batches as `link_batches` does, and explains the link: why each loaded object is loaded, and which of several definitions of each name counts, by which
/// case. lld's `--why-extract` and GNU ld's `-Map` tell the first in part.
///
/// It is refused as `link_batches` is.
pub fn link_why<R: Threads + Sync, P: Platform + Sync, D: Demangler + Sync, G: Gate + Sync>(
    rt: &R,
    alloc: Global,
    gate: &G,
    batches: Vec<Inputs<P>>,
    options: Options,
    scripts: Scripts,
    demangler: &D,
    workers: usize,
) -> Result<(Linked<P>, Explanation), LinkError>
    requires workers { (1 ≤ workers) × (workers ≤ 256) }
    requires files { (1 ≤ options.files_per_group) × (options.files_per_group ≤ 256) }
    requires some { 1 ≤ length batches.items }
    requires most { length batches.items ≤ batch_limit }
    ensures linked { IfOk result (λ told. LinksTo (platform_of P.Platform) (D.demangled demangler.now) options scripts (map batch_of batches.items) (answer_of (answer.seen told.0))) }
    ensures parts { IfOk result (λ told. KeepsParts (platform_of P.Platform) (D.demangled demangler.now) options scripts (map batch_of batches.items) (answer.seen told.0)) }
    ensures objects { IfOk result (λ told. objects_in (answer.seen told.0).db.mapping.files.groups ≡ flat_map (λ b. b.objects) (map batch_of batches.items)) }
    ensures explained { IfOk result (λ told. IsExplainedBy (platform_of P.Platform) (D.demangled demangler.now) options scripts (map batch_of batches.items) told.1) }
    ensures refused { IfErr result (λ error. IsRefusedFor (platform_of P.Platform) (D.demangled demangler.now) options scripts (map batch_of batches.items) error ⊎ (error ≡ Memory)) }
{
    let execution = Execution {
        rt,
        alloc,
        gate,
        workers,
    };
    let standing = link_all(&execution, batches, options, scripts, demangler)?;
    standing.explain(alloc, demangler)
}

/// A list of one batch.
fn one_batch<P: Platform>(alloc: Global, inputs: Inputs<P>) -> Result<Vec<Inputs<P>>, AllocError>
    ensures { IfOk result (λ batches. batches.items ≡ inputs ∷ []) }
{
    Ok(vec![in alloc; inputs]?)
}

/// Links the inputs: loads the least set of their objects that is closed under what their references ask for, and tells what each symbol means. The inputs are
/// owned, so a refused link leaves nothing. Neither the number of workers nor the number of files in a group changes the answer.
///
/// It is refused with the first of these causes, in this order: `Script`, where the version script, the export list, or a forced export name can't be read;
/// for a linker script with a version script `MultipleVersionScripts`, where one was taken, else `Script`; `TooMany`; `NoInputs` where there is no object;
/// `SectionInTwoGroups`; `DuplicateSymbols`; `UndefinedVersion`. `Memory` may come in place of any answer.
pub fn link_symbols<R: Threads + Sync, P: Platform + Sync, D: Demangler + Sync, G: Gate + Sync>(
    rt: &R,
    alloc: Global,
    gate: &G,
    inputs: Inputs<P>,
    options: Options,
    scripts: Scripts,
    demangler: &D,
    workers: usize,
) -> Result<Linked<P>, LinkError>
    requires workers { (1 ≤ workers) × (workers ≤ 256) }
    requires files { (1 ≤ options.files_per_group) × (options.files_per_group ≤ 256) }
    ensures linked { IfOk result (λ linked. LinksTo (platform_of P.Platform) (D.demangled demangler.now) options scripts (batch_of inputs ∷ []) (answer_of (answer.seen linked))) }
    ensures parts { IfOk result (λ linked. KeepsParts (platform_of P.Platform) (D.demangled demangler.now) options scripts (batch_of inputs ∷ []) (answer.seen linked)) }
    ensures objects { IfOk result (λ linked. objects_in (answer.seen linked).db.mapping.files.groups ≡ inputs.objects) }
    ensures refused { IfErr result (λ error. IsRefusedFor (platform_of P.Platform) (D.demangled demangler.now) options scripts (batch_of inputs ∷ []) error ⊎ (error ≡ Memory)) }
{
    let batches = one_batch(alloc, inputs)?;
    link_batches(
        rt, alloc, gate, batches, options, scripts, demangler, workers,
    )
}
