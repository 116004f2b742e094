//! Calls, with the replies that they got.

ghost use Rattle.std.specs.Prelude.{◌≡◌, ◌↔◌, IsTrue};

use crate::kind::RefusalKind;
use link_ids::SymbolId;
use link_input::{ElfLike, Inputs};
use link_names::Name;

/// What an added batch was answered.
#[derive(Clone, Copy, Debug, PartialEq, Eq)]
pub enum AddReply {
    /// It is linked: its number, from 0, and how many objects of all batches are loaded now.
    Added { batch: usize, loaded: usize },
    /// It was refused, and ended the session.
    Refused(RefusalKind),
    /// Memory ran out, and the session ended.
    NoMemory,
    /// The session had ended.
    Ended,
    /// The session has as many batches as a link takes. It goes on.
    Full,
}

/// What a name was answered.
#[derive(Clone, Copy, Debug, PartialEq, Eq)]
pub enum AskReply {
    /// The name isn't mapped, no batch is held, or the session has ended.
    Unknown,
    /// The symbol that the name is mapped to. It counts as loaded unless it stands in an object that isn't.
    Known { symbol: SymbolId, loaded: bool },
}

impl AskReply {
    /// The same reply.
    pub(crate) fn copied(&self) -> AskReply
        ensures { result ≡ self.now }
    {
        match self {
            AskReply::Unknown => AskReply::Unknown,
            AskReply::Known { symbol, loaded } => AskReply::Known {
                symbol: *symbol,
                loaded: *loaded,
            },
        }
    }
}

/// A call, with its reply.
#[derive(Drop)]
pub enum Entry {
    Add(Inputs<ElfLike>, AddReply),
    Ask(Name, AskReply),
}

impl Entry {
    /// The two are equal. Takes no memory.
    pub fn same(&self, other: &Entry) -> bool
        ensures { IsTrue result ↔ (self.now ≡ other.now) }
    {
        match (self, other) {
            (Entry::Add(batch, reply), Entry::Add(other, told)) => {
                *reply == *told && batch.same(other)
            }
            (Entry::Ask(name, reply), Entry::Ask(other, told)) => {
                *reply == *told && name.as_slice() == other.as_slice()
            }
            _ => false,
        }
    }
}
