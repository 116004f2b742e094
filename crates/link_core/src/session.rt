//! A link to which batches of inputs come while it stands, and which can be asked between them.

ghost use Rattle.std.specs.Prelude.{◌≡◌, ◌⊎◌, ◌≤◌, ◌<◌, [], Err, IfErr, IfOk, IfSome, None, OnErr, OnOk, Some, filter, is_none, length, option_and_then, option_map, slice_get};
ghost use Rattle.std.specs.Option.{IsSomeAnd};
ghost use Rattle.link_closure.specs.Closure.{is_marked};
ghost use Rattle.link_core_answer.specs.Parts.{answer_of};
ghost use Rattle.link_core_answer.specs.Seen as answer;
ghost use Rattle.link_db_files.specs.Inputs.{objects_in};
ghost use Rattle.link_input.specs.InputFiles.{batch_of};
ghost use Rattle.link_input.specs.Limits.{batch_limit};
ghost use Rattle.link_input.specs.Symbols.{object_in};
ghost use Rattle.link_db_texts.specs.Causes.{IsGiven};
ghost use Rattle.link_db_texts.specs.Holds.{platform_of};
ghost use Rattle.link_rules.specs.Answer.{BatchesEnd};
ghost use Rattle.link_rules.specs.Names.{first_definition};
ghost use Rattle.link_rules.specs.Refusals.{text_refusal};
ghost use Rattle.link_rules.specs.Selection.{Selection};
ghost use Rattle.link_rules.specs.World.{World};
ghost use Rattle.link_core.specs.declared.session_error.SessionError.TheVariants.{Ended};
ghost use Rattle.link_core.specs.Results.{IsRefusedFor, KeepsParts, LinksTo};
ghost use Rattle.link_core.specs.SessionErrors.{IsCause};
ghost use Rattle.link_core.specs.Sessions.{batches_of, held_world, objects_of, with_batch};
ghost use Rattle.link_core.specs.Steps.{IsRefusedBehind, Selects};

use crate::held_link::HeldLink;
use crate::session_error::SessionError;
use crate::standing_link::StandingLink;
use link_claim::Gate;
use link_core_answer::Linked;
use link_ids::SymbolId;
use link_input::{Inputs, Options, Platform, Scripts};
use link_script::Demangler;
use std::alloc::Global;
use std::marker::Model;
use std::thread::Threads;

/// A link to which batches of inputs come, one after another, as an editor or a build server has them: what an earlier batch loaded stays loaded, and what
/// its references stand for stays. Between batches it can be asked what a name means so far. A batch that is refused ends the session, which then holds
/// nothing. `link_batches` does the same with all batches at once.
#[derive(Drop)]
pub struct Session<P: Platform, D: Demangler + Drop> {
    alloc: Global,
    held: Option<HeldLink<P, D>>,
}

impl<P: Platform, D: Demangler + Drop> Model for Session<P, D> {
    ghost use Rattle.std.specs.Prelude.{Option};
    ghost use Rattle.link_core.specs.Sessions.{Held};

    ghost Value = { Option (Held D) };

    ghost view = { λ s. s.held };
}

impl<P: Platform + Sync, D: Demangler + Drop + Sync> Session<P, D> {
    /// A session without a batch. It reads the version script, the export list and the forced export names, and is refused with the first of these that
    /// can't be read.
    pub fn create(
        alloc: Global,
        options: Options,
        scripts: Scripts,
        demangler: D,
        workers: usize,
    ) -> Result<Self, SessionError>
        requires workers { (1 ≤ workers) × (workers ≤ 256) }
        requires files { (1 ≤ options.files_per_group) × (options.files_per_group ≤ 256) }
        ensures held { IfOk result (λ session. session ≡ Some (record { demangler = demangler; options = options; texts = scripts; batches = [] })) }
        ensures accepted { (w : World) → IsGiven (platform_of P.Platform) options scripts w → IfOk result (λ _. text_refusal w ≡ None) }
        ensures refused { (w : World) → IsGiven (platform_of P.Platform) options scripts w → IfErr result (IsCause (λ cause. text_refusal w ≡ Some cause)) }
    {
        let standing = StandingLink::open(alloc, options, scripts, workers)?;
        let held = HeldLink {
            standing,
            demangler,
            workers,
        };
        Ok(Session {
            alloc,
            held: Some(held),
        })
    }

    /// Links one batch more: its files come behind those of earlier batches, and the objects are loaded that count now, too. It is refused with the first
    /// cause that the batch brings, with `Ended` where an earlier one was refused, or for want of memory; and then the session holds nothing any more.
    pub fn add_batch<R: Threads + Sync, G: Gate + Sync>(
        &mut self,
        rt: &R,
        gate: &G,
        inputs: Inputs<P>,
    ) -> Result<(), SessionError>
        requires few { length (batches_of self.old) < batch_limit }
        ensures held { OnOk result (self.new ≡ option_map (λ held. with_batch held (batch_of inputs)) self.old) }
        ensures selects { IfSome self.old (λ held. OnOk result (
            IsSomeAnd (held_world (platform_of P.Platform) (D.demangled held.demangler) (with_batch held (batch_of inputs))) (λ w. (l : Selection) × Selects w l))) }
        ensures refused { IfSome self.old (λ held. IfErr result (IsCause (λ cause.
            IsSomeAnd (held_world (platform_of P.Platform) (D.demangled held.demangler) (with_batch held (batch_of inputs))) (λ w. BatchesEnd w (Err cause))))) }
        ensures ends { OnErr result (self.new ≡ None) }
        ensures ended { self.old ≡ None → result ≡ Err Ended }
        ensures told { result ≡ Err Ended → self.old ≡ None }
    {
        let Some(held) = self.held.take() else {
            return Err(SessionError::Ended);
        };
        let held = held.with_batch(rt, self.alloc, gate, inputs)?;
        self.held = Some(held);
        Ok(())
    }

    /// The link of all batches: what counts of several definitions is settled now. It is refused with the first cause that shows behind the batches, which is
    /// `DuplicateSymbols` or `UndefinedVersion`, with `Ended` where a batch was refused, or for want of memory.
    pub fn finish(self) -> Result<Linked<P>, SessionError>
        requires some { self ≡ None ⊎ (0 < length (batches_of self)) }
        ensures linked { IfSome self (λ held. IfOk result (λ linked.
            LinksTo (platform_of P.Platform) (D.demangled held.demangler) held.options held.texts held.batches (answer_of (answer.seen linked)))) }
        ensures parts { IfSome self (λ held. IfOk result (λ linked.
            KeepsParts (platform_of P.Platform) (D.demangled held.demangler) held.options held.texts held.batches (answer.seen linked))) }
        ensures objects { IfOk result (λ linked. objects_in (answer.seen linked).db.mapping.files.groups ≡ objects_of self) }
        ensures refused { IfSome self (λ held. IfErr result (IsCause (IsRefusedFor (platform_of P.Platform) (D.demangled held.demangler) held.options held.texts held.batches))) }
        ensures behind { IfSome self (λ held. IfErr result (IsCause (λ cause.
            IsSomeAnd (held_world (platform_of P.Platform) (D.demangled held.demangler) held) (λ w. IsRefusedBehind w cause)))) }
        ensures ended { self ≡ None → result ≡ Err Ended }
        ensures told { result ≡ Err Ended → self ≡ None }
    {
        let Session { alloc, held } = self;
        let Some(held) = held else {
            return Err(SessionError::Ended);
        };
        held.finish(alloc)
    }

    /// Whether a batch was refused, so that the session holds nothing any more.
    pub fn is_ended(&self) -> bool
        ensures { result ≡ is_none self.now }
    {
        self.held.is_none()
    }

    /// How many batches it holds: none where it has ended.
    pub fn batches(&self) -> usize
        ensures { result ≡ length (batches_of self.now) }
    {
        match &self.held {
            Some(held) => held.num_batches(),
            None => 0,
        }
    }

    /// What the name means so far: the symbol that it is mapped to over all batches that are held. None where it isn't mapped, or no batch is held.
    pub fn current(&self, name: &[u8]) -> Option<SymbolId>
        ensures value { IfSome self.now (λ held. IfSome (held_world (platform_of P.Platform) (D.demangled held.demangler) held)
            (λ w. (l : Selection) × Selects w l × (result ≡ first_definition l.stage name.now))) }
        ensures none { batches_of self.now ≡ [] → result ≡ None }
    {
        let held = self.held.as_ref()?;
        if held.num_batches() == 0 {
            return None;
        }
        held.current(name)
    }

    /// The object that has the symbol, by its place among all objects, batch after batch. None where the symbol stands in no object, or no batch that is
    /// held has it.
    pub fn object_of(&self, symbol: SymbolId) -> Option<usize>
        ensures value { IfSome self.now (λ held. IfSome (held_world (platform_of P.Platform) (D.demangled held.demangler) held)
            (λ w. (l : Selection) × Selects w l × (result ≡ option_and_then (λ x. object_in x.origin) (slice_get l.stage.symbols symbol)))) }
        ensures none { batches_of self.now ≡ [] → result ≡ None }
    {
        let held = self.held.as_ref()?;
        if held.num_batches() == 0 {
            return None;
        }
        held.object_of(symbol)
    }

    /// How many objects stand in the batches that it holds.
    pub fn num_objects(&self) -> usize
        ensures { result ≡ length (objects_of self.now) }
    {
        match &self.held {
            Some(held) => held.num_objects(),
            None => 0,
        }
    }

    /// Whether the object is loaded so far; objects count from 0, batch after batch. `num_objects` is the test.
    pub fn is_loaded(&self, object: usize) -> bool
        requires { object < length (objects_of self.now) }
        ensures { IfSome self.now (λ held. IfSome (held_world (platform_of P.Platform) (D.demangled held.demangler) held)
            (λ w. (l : Selection) × Selects w l × (result ≡ is_marked l.marks object))) }
    {
        match &self.held {
            Some(held) => held.is_loaded(object),
            None => false,
        }
    }

    /// How many objects are loaded so far: none where no batch is held.
    pub fn num_loaded(&self) -> usize
        ensures value { IfSome self.now (λ held. IfSome (held_world (platform_of P.Platform) (D.demangled held.demangler) held)
            (λ w. (l : Selection) × Selects w l × (result ≡ length (filter (λ mark. mark) l.marks)))) }
        ensures none { batches_of self.now ≡ [] → result ≡ 0 }
    {
        match &self.held {
            Some(held) if held.num_batches() > 0 => held.num_loaded(),
            _ => 0,
        }
    }
}
