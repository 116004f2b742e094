//! A desk, at which threads call.

ghost use Rattle.std.specs.Prelude.{◌≡◌, ◌≤◌, ◌+◌, ◌<◌, ◌++◌, [], ◌∷◌, IfErr, IfOk, None, OnErr, OnOk, Some};
ghost use Rattle.link_rules.specs.declared.refusal.LinkError.TheVariants.{Script};
ghost use Rattle.link_rules.specs.Refusals.{text_refusal};
ghost use Rattle.link_rules.specs.Rules.{elf_like};
ghost use Rattle.link_rules.specs.World.{World};
ghost use Rattle.link_db_texts.specs.Causes.{IsGiven};
ghost use Rattle.link_desk.specs.declared.entry.Entry.TheVariants.{Add, Ask};
ghost use Rattle.link_desk.specs.Closing.{IsClosed, IsDifferent};
ghost use Rattle.link_desk.specs.Openings.{IsScript};
ghost use Rattle.link_desk.specs.Passes.{parts_in};
ghost use Rattle.link_desk.specs.Seeing.{SeesAdded, SeesOwn};

use crate::closing::CloseError;
use crate::entry::{AddReply, AskReply, Entry};
use crate::opening::Opening;
use crate::pass::{Kept, Pass};
use crate::settling::settle;
use crate::state::{DeskError, DeskState};
use link_input::{ElfLike, Inputs, Options, Scripts};
use link_names::Name;
use std::alloc::{AllocError, Global};
use std::sync::ledger::Blank;
use std::sync::{Mutex, Wait};
use std::thread::Threads;

/// A session that threads share: a state behind a lock. Each thread calls with a pass of its own.
#[derive(Drop)]
pub struct Desk<L: Opening> {
    state: Mutex<DeskState<L>>,
}

impl<L: Opening> Desk<L> {
    /// Opens the ledger, and gives a desk and a pass without a call that has all parts. It is refused as
    /// `DeskState::create` is.
    pub fn create(
        alloc: Global,
        blank: Blank,
        options: Options,
        scripts: Scripts,
    ) -> Result<(Desk<L>, Pass<L>), DeskError>
        requires name { blank.name ≡ L.name }
        requires parts { blank.parts ≡ L.parts }
        requires some { 0 < L.parts }
        requires options { options ≡ L.options }
        requires texts { scripts ≡ L.texts }
        requires files { (1 ≤ options.files_per_group) × (options.files_per_group ≤ 256) }
        ensures pass { IfOk result (λ r. r.1 ≡ record { parts = L.parts; calls = [] }) }
        ensures accepted { (w : World) → IsGiven elf_like options scripts w → OnOk result (text_refusal w ≡ None) }
        ensures refused { (w : World) → IsGiven elf_like options scripts w → IfErr result (IsScript (λ origin error. text_refusal w ≡ Some (Script origin error))) }
    {
        let (state, share) = DeskState::<L>::create(alloc, blank, options, scripts)?;
        let desk = Desk {
            state: Mutex::new(state),
        };
        let pass = Pass {
            share,
            calls: Vec::new(alloc),
        };
        Ok((desk, pass))
    }

    /// Compares the calls of the passes with the history, and gives the state. It is refused with `SharesMissing` where the
    /// passes have fewer calls than the book counts, else with `Differs` and the first call that isn't as the history has
    /// it. Where the passes have all parts, no share is missing. Takes no memory, and time in the number of
    /// calls and entries. So a caller that added a batch finds its names later, unless the session ended between.
    pub fn close(self, passes: Vec<Pass<L>>) -> Result<DeskState<L>, CloseError<L>>
        ensures closed { IsClosed L.options L.texts passes.items result }
        ensures sees { IfOk result (λ state. SeesAdded state.history) }
        ensures own { IfOk result (λ state. SeesOwn state.history passes.items) }
        ensures whole { 0 < L.parts → parts_in passes.items ≡ L.parts → IfErr result IsDifferent }
    {
        let Desk { state } = self;
        settle(state.into_inner(), passes)
    }

    /// Adds a batch, and answers the place of the call in the history and its reply. It may wait for its turn. After `Err`,
    /// which is want of memory for the entry, the pass is as before.
    pub fn add<R: Threads + Wait + Sync>(
        &self,
        rt: &R,
        pass: &mut Pass<L>,
        batch: Inputs<ElfLike>,
    ) -> Result<(usize, AddReply), AllocError>
        ensures calls { IfOk result (λ r. pass.new.calls ≡ pass.old.calls ++ record { place = r.0; entry = Add batch r.1 } ∷ []) }
        ensures parts { pass.new.parts ≡ pass.old.parts }
        ensures same { OnErr result (pass.new ≡ pass.old) }
    {
        pass.calls.reserve(1)?;
        let copy = batch.copied(*pass.calls.allocator())?;
        let (place, reply) = self.state.lock(rt).add(rt, &mut pass.share, batch)?;
        pass.calls.push_reserved(Kept {
            place,
            entry: Entry::Add(copy, reply),
        });
        Ok((place, reply))
    }

    /// Asks a name, and answers the place of the call in the history and its reply. It may wait for its turn. After `Err`,
    /// which is want of memory for the entry, the pass is as before.
    pub fn ask<R: Wait>(
        &self,
        rt: &R,
        pass: &mut Pass<L>,
        name: &[u8],
    ) -> Result<(usize, AskReply), AllocError>
        ensures calls { IfOk result (λ r. pass.new.calls ≡ pass.old.calls ++ record { place = r.0; entry = Ask name.now r.1 } ∷ []) }
        ensures parts { pass.new.parts ≡ pass.old.parts }
        ensures same { OnErr result (pass.new ≡ pass.old) }
    {
        pass.calls.reserve(1)?;
        let copy = Name::from_slice(*pass.calls.allocator(), name)?;
        let (place, reply) = self.state.lock(rt).ask(&mut pass.share, name)?;
        pass.calls.push_reserved(Kept {
            place,
            entry: Entry::Ask(copy, reply.copied()),
        });
        Ok((place, reply))
    }
}
