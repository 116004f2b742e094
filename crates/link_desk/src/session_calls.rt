//! What a session is asked for a desk, and what it replies.

ghost use Rattle.std.specs.Prelude.{◌≡◌, IfSome};
ghost use Rattle.link_rules.specs.Selection.{Selection};
ghost use Rattle.link_core.specs.Steps.{Selects};
ghost use Rattle.link_desk.specs.declared.entry.Entry.TheVariants.{Add, Ask};
ghost use Rattle.link_desk.specs.Replay.{IsReply, after, is_symbol_loaded, world_held};
ghost use Rattle.link_desk.specs.Replies.{IsToldAs};

use crate::entry::{AddReply, AskReply};
use crate::kind::RefusalKind;
use link_claim::OpenGate;
use link_core::{Session, SessionError};
use link_ids::SymbolId;
use link_input::{ElfLike, Inputs};
use link_script::Plain;
use std::thread::Threads;

/// How many batches a link takes.
const BATCHES: usize = 256;

/// A refusal, as a reply.
fn told(error: &SessionError) -> AddReply
    ensures { IsToldAs error.now result }
{
    match error {
        SessionError::Link(cause) => match RefusalKind::of(cause) {
            Some(kind) => AddReply::Refused(kind),
            None => AddReply::NoMemory,
        },
        SessionError::Ended => AddReply::Ended,
        SessionError::Memory => AddReply::NoMemory,
    }
}

/// Adds a batch, and answers what became of it.
pub(crate) fn add_to<R: Threads + Sync>(
    rt: &R,
    session: &mut Session<ElfLike, Plain>,
    batch: Inputs<ElfLike>,
) -> AddReply
    ensures reply { IsReply session.old (Add batch result) }
    ensures session { session.new ≡ after session.old (Add batch result) }
{
    let number = session.batches();
    if number >= BATCHES {
        return AddReply::Full;
    }
    match session.add_batch(rt, &OpenGate, batch) {
        Ok(()) => AddReply::Added {
            batch: number,
            loaded: session.num_loaded(),
        },
        Err(error) => told(&error),
    }
}

/// Whether a symbol counts as loaded: it stands in a loaded object, or in no object.
fn is_loaded(session: &Session<ElfLike, Plain>, symbol: SymbolId) -> bool
    ensures { IfSome session.now (λ held. IfSome (world_held held) (λ w. (l : Selection) × Selects w l × (result ≡ is_symbol_loaded l symbol))) }
{
    match session.object_of(symbol) {
        Some(object) if object < session.num_objects() => session.is_loaded(object),
        Some(_) => false,
        None => true,
    }
}

/// What a name is answered.
pub(crate) fn ask_of(session: &Session<ElfLike, Plain>, name: &[u8]) -> AskReply
    ensures { IsReply session.now (Ask name.now result) }
{
    match session.current(name) {
        Some(symbol) => AskReply::Known {
            symbol,
            loaded: is_loaded(session, symbol),
        },
        None => AskReply::Unknown,
    }
}
