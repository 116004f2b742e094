//! What a session holds.

ghost use Rattle.std.specs.Prelude.{◌≡◌, ◌≢◌, ◌<◌, Err, IfErr, IfOk, IfSome, OnOk, filter, length, option_and_then, slice_get};
ghost use Rattle.std.specs.List.{flat_map};
ghost use Rattle.std.specs.Option.{IsSomeAnd};
ghost use Rattle.link_closure.specs.Closure.{is_marked};
ghost use Rattle.link_core_answer.specs.Parts.{answer_of};
ghost use Rattle.link_core_answer.specs.Seen as answer;
ghost use Rattle.link_db_files.specs.Inputs.{objects_in};
ghost use Rattle.link_input.specs.InputFiles.{batch_of};
ghost use Rattle.link_input.specs.Limits.{batch_limit};
ghost use Rattle.link_input.specs.Symbols.{object_in};
ghost use Rattle.link_db_texts.specs.Holds.{platform_of};
ghost use Rattle.link_rules.specs.Answer.{BatchesEnd, IsLinked, IsRefused};
ghost use Rattle.link_rules.specs.Names.{first_definition};
ghost use Rattle.link_rules.specs.Selection.{Selection};
ghost use Rattle.link_core.specs.declared.session_error.SessionError.TheVariants.{Ended};
ghost use Rattle.link_core.specs.SessionErrors.{IsCause};
ghost use Rattle.link_core.specs.Results.{HasParts};
ghost use Rattle.link_core.specs.Sessions.{held_world, with_batch};
ghost use Rattle.link_core.specs.Steps.{IsRefusedBehind, Selects};

use crate::execution::Execution;
use crate::session_error::SessionError;
use crate::standing_link::StandingLink;
use link_claim::Gate;
use link_core_answer::Linked;
use link_ids::SymbolId;
use link_input::{Inputs, Platform};
use link_script::Demangler;
use std::alloc::Global;
use std::marker::Model;
use std::thread::Threads;

/// What a session holds as long as no batch is refused: its link, and what it was given. A contract sees what it was given.
pub(crate) struct HeldLink<P: Platform, D: Demangler + Drop> {
    pub(crate) standing: StandingLink<P>,
    pub(crate) demangler: D,
    pub(crate) workers: usize,
}

// By hand, so that what lets one go makes one call and does not name its parts.
impl<P: Platform, D: Demangler + Drop> Drop for HeldLink<P, D> {
    fn drop(self) {
        let Self {
            standing: _,
            demangler: _,
            workers: _,
        } = self;
    }
}

impl<P: Platform, D: Demangler + Drop> Model for HeldLink<P, D> {
    ghost use Rattle.link_db.specs.Seen.{seen};
    ghost use Rattle.link_db_texts.specs.Holds.{platform_of};
    ghost use Rattle.link_core.specs.Sessions.{Held};
    ghost use Rattle.link_core.specs.Standing.{Stands, came_to};

    ghost Value = { Held D };

    ghost view = { λ h. record {
      demangler = h.demangler;
      options = (seen h.standing.link.db).options;
      texts = h.standing.texts;
      batches = came_to h.standing;
    } };

    ghost invariant = { λ h. Stands (platform_of P.Platform) (D.demangled h.demangler) h.standing };
}

/// How many marks are set.
fn count_of(marks: &[bool]) -> usize
    ensures { result ≡ length (filter (λ mark. mark) marks.now) }
{
    marks.iter().filter(|mark| **mark).count()
}

impl<P: Platform + Sync, D: Demangler + Drop + Sync> HeldLink<P, D> {
    /// The same with one batch more.
    pub(crate) fn with_batch<R: Threads + Sync, G: Gate + Sync>(
        self,
        rt: &R,
        alloc: Global,
        gate: &G,
        inputs: Inputs<P>,
    ) -> Result<Self, SessionError>
        requires { length self.batches < batch_limit }
        ensures held { IfOk result (λ held. held ≡ with_batch self (batch_of inputs)) }
        ensures selects { OnOk result (IsSomeAnd (held_world (platform_of P.Platform) (D.demangled self.demangler) (with_batch self (batch_of inputs)))
            (λ w. (l : Selection) × Selects w l)) }
        ensures refused { IfErr result (IsCause (λ cause. IsSomeAnd (held_world (platform_of P.Platform) (D.demangled self.demangler) (with_batch self (batch_of inputs)))
            (λ w. BatchesEnd w (Err cause)))) }
        ensures told { result ≢ Err Ended }
    {
        let Self {
            mut standing,
            demangler,
            workers,
        } = self;
        let execution = Execution {
            rt,
            alloc,
            gate,
            workers,
        };
        standing.link_next(&execution, &demangler, inputs)?;
        Ok(HeldLink {
            standing,
            demangler,
            workers,
        })
    }

    /// The link of all batches that came.
    pub(crate) fn finish(self, alloc: Global) -> Result<Linked<P>, SessionError>
        requires { 0 < length self.batches }
        ensures linked { IfOk result (λ linked. IsSomeAnd (held_world (platform_of P.Platform) (D.demangled self.demangler) self) (λ w. IsLinked w (answer_of (answer.seen linked)))) }
        ensures parts { IfOk result (λ linked. IsSomeAnd (held_world (platform_of P.Platform) (D.demangled self.demangler) self) (λ w. HasParts w (answer.seen linked))) }
        ensures objects { IfOk result (λ linked. objects_in (answer.seen linked).db.mapping.files.groups ≡ flat_map (λ b. b.objects) self.batches) }
        ensures refused { IfErr result (IsCause (λ cause. IsSomeAnd (held_world (platform_of P.Platform) (D.demangled self.demangler) self) (λ w. IsRefused w cause))) }
        ensures behind { IfErr result (IsCause (λ cause. IsSomeAnd (held_world (platform_of P.Platform) (D.demangled self.demangler) self) (λ w. IsRefusedBehind w cause))) }
        ensures told { result ≢ Err Ended }
    {
        let Self {
            standing,
            demangler,
            workers: _,
        } = self;
        let linked = standing.finish(alloc, &demangler)?;
        Ok(linked)
    }

    /// How many batches came.
    pub(crate) fn num_batches(&self) -> usize
        ensures { result ≡ length self.now.batches }
    {
        self.standing.sizes.len()
    }

    /// How many objects they have.
    pub(crate) fn num_objects(&self) -> usize
        ensures { result ≡ length (flat_map (λ b. b.objects) self.now.batches) }
    {
        self.standing.link.db.num_regular_objects()
    }

    /// What the name means so far.
    pub(crate) fn current(&self, name: &[u8]) -> Option<SymbolId>
        ensures { IfSome (held_world (platform_of P.Platform) (D.demangled self.now.demangler) self.now) (λ w. (l : Selection) × Selects w l × (result ≡ first_definition l.stage name.now)) }
    {
        self.standing.link.db.get_unversioned(name)
    }

    /// The object that has the symbol. None where none has it, or no batch has the symbol.
    pub(crate) fn object_of(&self, symbol: SymbolId) -> Option<usize>
        ensures { IfSome (held_world (platform_of P.Platform) (D.demangled self.now.demangler) self.now)
            (λ w. (l : Selection) × Selects w l × (result ≡ option_and_then (λ x. object_in x.origin) (slice_get l.stage.symbols symbol))) }
    {
        let db = &self.standing.link.db;
        if symbol.as_usize() >= db.num_symbols() {
            return None;
        }
        db.files().object_of(symbol)
    }

    /// Whether the object is loaded so far.
    pub(crate) fn is_loaded(&self, object: usize) -> bool
        ensures { IfSome (held_world (platform_of P.Platform) (D.demangled self.now.demangler) self.now) (λ w. (l : Selection) × Selects w l × (result ≡ is_marked l.marks object)) }
    {
        let marks = self.standing.link.resolver.resolved().loaded();
        marks.get(object).copied().unwrap_or(false)
    }

    /// How many objects are loaded so far.
    pub(crate) fn num_loaded(&self) -> usize
        ensures { IfSome (held_world (platform_of P.Platform) (D.demangled self.now.demangler) self.now) (λ w. (l : Selection) × Selects w l × (result ≡ length (filter (λ mark. mark) l.marks))) }
    {
        count_of(self.standing.link.resolver.resolved().loaded())
    }
}
