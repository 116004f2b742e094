//! A link that stands between two batches.

ghost use Rattle.std.specs.Prelude.{◌≡◌, ◌⊎◌, ◌≤◌, ◌<◌, ◌++◌, ◌∷◌, [], Err, IfErr, IfOk, OnOk, length};
ghost use Rattle.std.specs.List.{flat_map};
ghost use Rattle.std.specs.Option.{IsSomeAnd};
ghost use Rattle.link_core_answer.specs.Parts.{answer_of};
ghost use Rattle.link_core_answer.specs.Seen as answer;
ghost use Rattle.link_db_files.specs.Inputs.{objects_in};
ghost use Rattle.link_input.specs.InputFiles.{batch_of};
ghost use Rattle.link_input.specs.Limits.{batch_limit};
ghost use Rattle.link_db_texts.specs.Causes.{IsGiven, TellsCause};
ghost use Rattle.link_db_texts.specs.Holds.{platform_of};
ghost use Rattle.link_rules.specs.declared.refusal.LinkError.TheVariants.{Memory};
ghost use Rattle.link_rules.specs.Answer.{BatchesEnd, IsLinked, IsRefused};
ghost use Rattle.link_rules.specs.Explained.{IsExplanation};
ghost use Rattle.link_rules.specs.Places.{Bytes};
ghost use Rattle.link_rules.specs.Refusals.{text_refusal};
ghost use Rattle.link_rules.specs.Selection.{Selection};
ghost use Rattle.link_rules.specs.World.{World};
ghost use Rattle.link_db.specs.Seen.{seen};
ghost use Rattle.link_core.specs.Results.{HasParts};
ghost use Rattle.link_core.specs.Standing.{Stands, came_to, next_world, standing_world};
ghost use Rattle.link_core.specs.Steps.{IsRefusedBehind, Selects};

use crate::batch::link_batch;
use crate::batch_size::BatchSize;
use crate::execution::Execution;
use crate::finishing::{explain_link, finish_link};
use crate::opening::{OpenLink, open_link};
use link_claim::Gate;
use link_core_answer::Linked;
use link_input::{Inputs, Options, Platform, Scripts};
use link_resolve_roots::FoundRoots;
use link_rules::{Explanation, LinkError};
use link_script::Demangler;
use std::alloc::{AllocError, Global};
use std::thread::Threads;

/// A link, what was found for root names as its batches came, the texts that it was given, and how many files each of its batches has.
pub(crate) struct StandingLink<P: Platform> {
    pub(crate) link: OpenLink<P>,
    pub(crate) found: FoundRoots,
    pub(crate) texts: Scripts,
    pub(crate) sizes: Vec<BatchSize>,
}

// By hand, so that what lets one go makes one call and does not name its parts.
impl<P: Platform> Drop for StandingLink<P> {
    fn drop(self) {
        let Self {
            link: _,
            found: _,
            texts: _,
            sizes: _,
        } = self;
    }
}

/// Notes how many files a batch has.
fn note_size(sizes: &mut Vec<BatchSize>, size: BatchSize) -> Result<(), AllocError>
    ensures { OnOk result (sizes.new.items ≡ sizes.old.items ++ size ∷ []) }
{
    sizes.push(size)?;
    Ok(())
}

impl<P: Platform + Sync> StandingLink<P> {
    /// A link with these options and texts, and no batch.
    pub(crate) fn open(
        alloc: Global,
        options: Options,
        texts: Scripts,
        workers: usize,
    ) -> Result<Self, LinkError>
        requires workers { (1 ≤ workers) × (workers ≤ 256) }
        requires files { (1 ≤ options.files_per_group) × (options.files_per_group ≤ 256) }
        ensures cause { (w : World) → IsGiven (platform_of P.Platform) options texts w → TellsCause (text_refusal w) result }
        ensures standing { IfOk result (λ standing. (demangle : Bytes → Bytes) → Stands (platform_of P.Platform) demangle standing) }
        ensures options { IfOk result (λ standing. (seen standing.link.db).options ≡ options) }
        ensures texts { IfOk result (λ standing. standing.texts ≡ texts) }
        ensures batches { IfOk result (λ standing. came_to standing ≡ []) }
    {
        let link = open_link(alloc, options, &texts, workers)?;
        let found = FoundRoots::new(alloc);
        let sizes = Vec::new(alloc);
        Ok(StandingLink {
            link,
            found,
            texts,
            sizes,
        })
    }

    /// Links one batch more. What is left of a refused link is of no use.
    pub(crate) fn link_next<R: Threads + Sync, G: Gate + Sync, D: Demangler + Sync>(
        &mut self,
        execution: &Execution<R, G>,
        demangler: &D,
        inputs: Inputs<P>,
    ) -> Result<(), LinkError>
        requires standing { Stands (platform_of P.Platform) (D.demangled demangler.now) self.old }
        requires few { length (came_to self.old) < batch_limit }
        ensures standing { OnOk result (Stands (platform_of P.Platform) (D.demangled demangler.now) self.new) }
        ensures batches { OnOk result (came_to self.new ≡ came_to self.old ++ batch_of inputs ∷ []) }
        ensures options { OnOk result ((seen self.new.link.db).options ≡ (seen self.old.link.db).options) }
        ensures texts { self.new.texts ≡ self.old.texts }
        ensures selects { OnOk result (IsSomeAnd (next_world (platform_of P.Platform) (D.demangled demangler.now) self.old (batch_of inputs)) (λ w. (l : Selection) × Selects w l)) }
        ensures refused { IfErr result (λ error.
            IsSomeAnd (next_world (platform_of P.Platform) (D.demangled demangler.now) self.old (batch_of inputs)) (λ w. BatchesEnd w (Err error)) ⊎ (error ≡ Memory)) }
    {
        let size = BatchSize::of(&inputs);
        link_batch(execution, demangler, &mut self.link, inputs)?;
        self.found.note_batch(execution.alloc, &self.link.db)?;
        note_size(&mut self.sizes, size)?;
        Ok(())
    }

    /// The link of all batches that came.
    pub(crate) fn finish<D: Demangler>(
        self,
        alloc: Global,
        demangler: &D,
    ) -> Result<Linked<P>, LinkError>
        requires standing { Stands (platform_of P.Platform) (D.demangled demangler.now) self }
        requires some { 0 < length (came_to self) }
        ensures linked { IfOk result (λ linked.
            IsSomeAnd (standing_world (platform_of P.Platform) (D.demangled demangler.now) self) (λ w. IsLinked w (answer_of (answer.seen linked)))) }
        ensures parts { IfOk result (λ linked.
            IsSomeAnd (standing_world (platform_of P.Platform) (D.demangled demangler.now) self) (λ w. HasParts w (answer.seen linked))) }
        ensures objects { IfOk result (λ linked. objects_in (answer.seen linked).db.mapping.files.groups ≡ flat_map (λ b. b.objects) (came_to self)) }
        ensures refused { IfErr result (λ error.
            IsSomeAnd (standing_world (platform_of P.Platform) (D.demangled demangler.now) self) (λ w. IsRefused w error) ⊎ (error ≡ Memory)) }
        ensures behind { IfErr result (λ error.
            IsSomeAnd (standing_world (platform_of P.Platform) (D.demangled demangler.now) self) (λ w. IsRefusedBehind w error) ⊎ (error ≡ Memory)) }
    {
        let StandingLink {
            link,
            found: _,
            texts: _,
            sizes: _,
        } = self;
        finish_link(alloc, link, demangler)
    }

    /// The link of all batches that came, with its explanation.
    pub(crate) fn explain<D: Demangler>(
        self,
        alloc: Global,
        demangler: &D,
    ) -> Result<(Linked<P>, Explanation), LinkError>
        requires standing { Stands (platform_of P.Platform) (D.demangled demangler.now) self }
        requires some { 0 < length (came_to self) }
        ensures linked { IfOk result (λ told.
            IsSomeAnd (standing_world (platform_of P.Platform) (D.demangled demangler.now) self) (λ w. IsLinked w (answer_of (answer.seen told.0)))) }
        ensures parts { IfOk result (λ told.
            IsSomeAnd (standing_world (platform_of P.Platform) (D.demangled demangler.now) self) (λ w. HasParts w (answer.seen told.0))) }
        ensures objects { IfOk result (λ told. objects_in (answer.seen told.0).db.mapping.files.groups ≡ flat_map (λ b. b.objects) (came_to self)) }
        ensures explained { IfOk result (λ told.
            IsSomeAnd (standing_world (platform_of P.Platform) (D.demangled demangler.now) self) (λ w. IsExplanation w told.1)) }
        ensures refused { IfErr result (λ error.
            IsSomeAnd (standing_world (platform_of P.Platform) (D.demangled demangler.now) self) (λ w. IsRefused w error) ⊎ (error ≡ Memory)) }
        ensures behind { IfErr result (λ error.
            IsSomeAnd (standing_world (platform_of P.Platform) (D.demangled demangler.now) self) (λ w. IsRefusedBehind w error) ⊎ (error ≡ Memory)) }
    {
        let StandingLink {
            link,
            found,
            texts: _,
            sizes: _,
        } = self;
        let roots = found.in_order()?;
        explain_link(alloc, link, roots.as_slice(), demangler)
    }
}
