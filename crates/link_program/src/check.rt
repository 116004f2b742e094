//! `check`: whether the claim that a manifest makes of its link holds.

ghost use Rattle.std.specs.Prelude.{◌≡◌, [], ◌∷◌, codes, Ok, Some, IfOk, map};
ghost use Rattle.link_input.specs.InputFiles.{batch_of};
ghost use Rattle.link_check.specs.declared.verdict.Verdict.{Verdict};
ghost use Rattle.link_check_texts.specs.Causes.{opening_refusal};
ghost use Rattle.link_check_texts.specs.Given.{given_of, platform_of};
ghost use Rattle.link_rules.specs.World.{world_of};
ghost use Rattle.link_manifest.specs.declared.fault.Step.TheVariants.{Key};
ghost use Rattle.link_program.specs.Check.{IsJudged, IsOfBatches, IsOfClaim, verdict_ending};
ghost use Rattle.link_program.specs.Described.{world_in, world_of_manifest};
ghost use Rattle.link_program.specs.Verdef.{fault_ending};

use crate::answer::{Answer, fault_answer, refusal_answer};
use crate::status::Status;
use link_check::{Verdict, check_claim};
use link_check_claims::Claim;
use link_input::{Platform, World};
use link_manifest::{Manifest, ManifestFault, PlatformWorld, Problem, Step};
use link_names::{Name, Seq};
use std::alloc::{AllocError, Global};

/// The answer of a manifest that has a fault at a key of its root.
pub(crate) fn key_fault_answer(
    alloc: Global,
    key: &[u8],
    problem: Problem,
) -> Result<Answer, AllocError>
    ensures { IfOk result (λ a. (a.status, a.text.items) ≡ fault_ending (record { path = Key key.now ∷ []; problem = problem })) }
{
    let mut path = Vec::new(alloc);
    path.push(Step::Key(Name::from_slice(alloc, key)?))?;
    let fault = ManifestFault {
        path: Seq::from_vec(path),
        problem,
    };
    fault_answer(alloc, &fault)
}

/// The text of a verdict.
fn verdict_text(alloc: Global, verdict: Verdict) -> Result<Vec<u8>, AllocError>
    ensures { IfOk result (λ text. text.items ≡ (verdict_ending verdict).1) }
{
    match verdict {
        Verdict::Holds => Vec::from_slice(alloc, b"holds\n"),
        Verdict::FailsLoaded => Vec::from_slice(alloc, b"fails loaded\n"),
        Verdict::FailsKept => Vec::from_slice(alloc, b"fails kept\n"),
        Verdict::FailsTable(id) => Ok(format!(in alloc; "fails table {id}\n")?.into_bytes()),
    }
}

/// How the program ends by a verdict.
fn verdict_status(verdict: Verdict) -> Status
    ensures { result ≡ (verdict_ending verdict).0 }
{
    match verdict {
        Verdict::Holds => Status::Linked,
        _ => Status::Fails,
    }
}

/// The answer of a claim that is judged so.
fn verdict_answer(alloc: Global, verdict: Verdict) -> Result<Answer, AllocError>
    ensures { IfOk result (λ a. (a.status, a.text.items) ≡ verdict_ending verdict) }
{
    Ok(Answer {
        status: verdict_status(verdict),
        text: verdict_text(alloc, verdict)?,
    })
}

/// The answer of a claim of a link of this world.
fn check_of_world<P: Platform>(
    alloc: Global,
    world: &World<P>,
    claim: &Claim,
) -> Result<Answer, AllocError>
    ensures { let w = world_of (platform_of P.Platform) (λ name. name) (given_of world.now) in
        IfOk result (λ a. IsOfBatches w claim.now w.later (a.status, a.text.items)) }
{
    if world.later.len() > 0 {
        return key_fault_answer(alloc, b"batches", Problem::NotWithClaim);
    }
    match check_claim(alloc, world, claim) {
        Ok(verdict) => verdict_answer(alloc, verdict),
        Err(error) => refusal_answer(alloc, error),
    }
}

/// The answer of a claim of a link of what is described.
fn check_of_platform(
    alloc: Global,
    described: &PlatformWorld,
    claim: &Claim,
) -> Result<Answer, AllocError>
    ensures { let w = world_in described.now in IfOk result (λ a. IsOfBatches w claim.now w.later (a.status, a.text.items)) }
{
    match described {
        PlatformWorld::Elf(world) => check_of_world(alloc, world, claim),
        PlatformWorld::Mach(world) => check_of_world(alloc, world, claim),
    }
}

/// The answer of a manifest: whether what it claims of the link holds, or why nothing is judged.
pub(crate) fn check_of_manifest(alloc: Global, manifest: Manifest) -> Result<Answer, AllocError>
    ensures { IfOk result (λ a. IsOfClaim (world_of_manifest manifest) manifest.claim (a.status, a.text.items)) }
{
    match &manifest.claim {
        Some(claim) => check_of_platform(alloc, &manifest.world, claim),
        None => key_fault_answer(alloc, b"claim", Problem::Missing),
    }
}
