//! What lies under the lock of a desk.

ghost use Rattle.std.specs.Prelude.{◌≡◌, ◌≤◌, ◌+◌, ◌<◌, ◌++◌, [], ◌∷◌, IfErr, IfOk, None, OnErr, OnOk, Some, length, vec_capacity, vec_len};
ghost use Rattle.link_rules.specs.declared.refusal.LinkError.TheVariants.{Script};
ghost use Rattle.link_rules.specs.Refusals.{text_refusal};
ghost use Rattle.link_rules.specs.Rules.{elf_like};
ghost use Rattle.link_rules.specs.World.{World};
ghost use Rattle.link_db_texts.specs.Causes.{IsGiven};
ghost use Rattle.link_desk.specs.declared.entry.Entry.TheVariants.{Add, Ask};
ghost use Rattle.link_desk.specs.Openings.{IsScript};
ghost use Rattle.link_desk.specs.Replay.{IsReplayed, opened};

use crate::entry::{AddReply, AskReply, Entry};
use crate::opening::Opening;
use crate::session_calls::{add_to, ask_of};
use link_core::{Session, SessionError};
use link_input::{ElfLike, Inputs, Options, Scripts};
use link_names::Name;
use link_rules::{LinkError, ScriptOrigin};
use link_script::Plain;
use link_script_syntax::ScriptError;
use std::alloc::{AllocError, Global};
use std::marker::Model;
use std::sync::ledger::{Blank, Book, Ledger, Share};
use std::thread::Threads;

/// A session that reads with one worker, the calls that it got with their replies, and the book that counts them. A
/// contract sees the three. The calls replay from a session without a batch to the one that stands, which was opened with
/// the options and texts of the ledger; and the book counts as many calls as there are.
#[derive(Drop)]
pub struct DeskState<L: Opening> {
    pub(crate) session: Session<ElfLike, Plain>,
    pub(crate) history: Vec<Entry>,
    /// A mark for each entry, which tells whether a pass claims it as the desk is closed.
    pub(crate) claimed: Vec<bool>,
    pub(crate) book: Book<L>,
}

impl<L: Opening> Model for DeskState<L> {
    ghost use Rattle.std.specs.Prelude.{◌≡◌, length};
    ghost use Rattle.link_desk.specs.Replay.{Desked, IsReplayed};

    ghost Value = { Desked };

    ghost view = { λ d. record { session = d.session; history = d.history.items; book = d.book.total } };

    ghost invariant = { λ d. IsReplayed L.options L.texts (record { session = d.session; history = d.history.items; book = d.book.total }) × (length d.claimed.items ≡ length d.history.items) };
}

/// Why a desk is not opened.
#[derive(Debug, Drop)]
pub enum DeskError {
    /// A text is no script: the version script, the export list, or a forced export name; the first of these.
    Script {
        origin: ScriptOrigin,
        error: ScriptError,
    },
    /// Memory ran out.
    Memory,
}

/// A refusal of a new session. Its texts bring no other cause than a script.
fn refused(error: SessionError) -> DeskError
    ensures { IsScript (λ origin script. error ≡ SessionError.Link (Script origin script)) result }
{
    match error {
        SessionError::Link(LinkError::Script { origin, error }) => {
            DeskError::Script { origin, error }
        }
        _ => DeskError::Memory,
    }
}

/// Keeps a call for which there is room, counts it in book and share, and answers its place.
fn keep<L: Ledger>(
    history: &mut Vec<Entry>,
    claimed: &mut Vec<bool>,
    book: &mut Book<L>,
    share: &mut Share<L>,
    entry: Entry,
) -> usize
    requires room { vec_len history.old < vec_capacity history.old }
    requires mark { vec_len claimed.old < vec_capacity claimed.old }
    requires part { 0 < share.old.parts }
    ensures place { result ≡ length history.old.items }
    ensures history { history.new.items ≡ history.old.items ++ entry ∷ [] }
    ensures mark { length claimed.new.items ≡ length claimed.old.items + 1 }
    ensures book { book.new.total ≡ book.old.total + 1 }
    ensures amount { share.new.amount ≡ share.old.amount + 1 }
    ensures parts { share.new.parts ≡ share.old.parts }
{
    book.add(share, 1);
    let place = history.len();
    history.push_reserved(entry);
    claimed.push_reserved(false);
    place
}

impl<L: Opening> DeskState<L> {
    /// Opens the ledger, and gives a state without a call and the share with all parts. It is refused with the first text
    /// that is no script, and not otherwise but for want of memory; the blank is gone then.
    pub fn create(
        alloc: Global,
        blank: Blank,
        options: Options,
        scripts: Scripts,
    ) -> Result<(DeskState<L>, Share<L>), DeskError>
        requires name { blank.name ≡ L.name }
        requires parts { blank.parts ≡ L.parts }
        requires some { 0 < L.parts }
        requires options { options ≡ L.options }
        requires texts { scripts ≡ L.texts }
        requires files { (1 ≤ options.files_per_group) × (options.files_per_group ≤ 256) }
        ensures state { IfOk result (λ r. r.0 ≡ record { session = opened options scripts; history = []; book = 0 }) }
        ensures share { IfOk result (λ r. (r.1.parts ≡ L.parts) × (r.1.amount ≡ 0)) }
        ensures accepted { (w : World) → IsGiven elf_like options scripts w → OnOk result (text_refusal w ≡ None) }
        ensures refused { (w : World) → IsGiven elf_like options scripts w → IfErr result (IsScript (λ origin error. text_refusal w ≡ Some (Script origin error))) }
    {
        let session = match Session::create(alloc, options, scripts, Plain, 1) {
            Ok(session) => session,
            Err(error) => return Err(refused(error)),
        };
        let (book, share) = blank.open::<L>();
        let state = DeskState {
            session,
            history: Vec::new(alloc),
            claimed: Vec::new(alloc),
            book,
        };
        Ok((state, share))
    }

    /// The calls that it got, with their replies, in order.
    pub fn history(&self) -> &[Entry]
        ensures { result.now ≡ self.now.history }
    {
        self.history.as_slice()
    }

    /// The session that it holds.
    pub fn session(&self) -> &Session<ElfLike, Plain>
        ensures { result.now ≡ self.now.session }
    {
        &self.session
    }

    /// The session that it holds, which is handed over.
    pub fn into_session(self) -> Session<ElfLike, Plain>
        ensures { result ≡ self.session }
    {
        let DeskState { session, .. } = self;
        session
    }

    /// Adds a batch, and answers the place of the call in the history and its reply. After `Err`, which is want of memory
    /// for the entry, all is as before and no entry was made.
    pub fn add<R: Threads + Sync>(
        &mut self,
        rt: &R,
        share: &mut Share<L>,
        batch: Inputs<ElfLike>,
    ) -> Result<(usize, AddReply), AllocError>
        requires { 0 < share.old.parts }
        ensures place { IfOk result (λ r. r.0 ≡ length self.old.history) }
        ensures history { IfOk result (λ r. self.new.history ≡ self.old.history ++ Add batch r.1 ∷ []) }
        ensures amount { OnOk result (share.new.amount ≡ share.old.amount + 1) }
        ensures parts { share.new.parts ≡ share.old.parts }
        ensures same { OnErr result (self.new ≡ self.old) }
        ensures same_amount { OnErr result (share.new.amount ≡ share.old.amount) }
        ensures replayed { IsReplayed L.options L.texts self.new }
    {
        self.history.reserve(1)?;
        self.claimed.reserve(1)?;
        let copy = batch.copied(*self.history.allocator())?;
        let reply = add_to(rt, &mut self.session, batch);
        let entry = Entry::Add(copy, reply);
        let place = keep(
            &mut self.history,
            &mut self.claimed,
            &mut self.book,
            share,
            entry,
        );
        Ok((place, reply))
    }

    /// Asks a name, and answers the place of the call in the history and its reply. After `Err`, which is want of memory
    /// for the entry, all is as before and no entry was made.
    pub fn ask(
        &mut self,
        share: &mut Share<L>,
        name: &[u8],
    ) -> Result<(usize, AskReply), AllocError>
        requires { 0 < share.old.parts }
        ensures place { IfOk result (λ r. r.0 ≡ length self.old.history) }
        ensures history { IfOk result (λ r. self.new.history ≡ self.old.history ++ Ask name.now r.1 ∷ []) }
        ensures amount { OnOk result (share.new.amount ≡ share.old.amount + 1) }
        ensures parts { share.new.parts ≡ share.old.parts }
        ensures same { OnErr result (self.new ≡ self.old) }
        ensures same_amount { OnErr result (share.new.amount ≡ share.old.amount) }
        ensures replayed { IsReplayed L.options L.texts self.new }
    {
        self.history.reserve(1)?;
        self.claimed.reserve(1)?;
        let copy = Name::from_slice(*self.history.allocator(), name)?;
        let reply = ask_of(&self.session, name);
        let entry = Entry::Ask(copy, reply.copied());
        let place = keep(
            &mut self.history,
            &mut self.claimed,
            &mut self.book,
            share,
            entry,
        );
        Ok((place, reply))
    }
}
