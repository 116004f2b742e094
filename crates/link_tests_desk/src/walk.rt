//! A history walked again, by what its batches hold, and by none of the linker's calls.

use link_desk::{AddReply, AskReply, Entry};
use link_input::{ElfLike, Inputs};
use link_names::Name;
use std::alloc::{AllocError, Global};

/// What was added so far: the definitions, each with its name and its id, and how many symbols, objects and batches there
/// are. Each object is loaded in any case.
#[derive(Drop)]
struct Seen {
    definitions: Vec<(Vec<u8>, usize)>,
    symbols: usize,
    objects: usize,
    batches: usize,
    is_ended: bool,
}

impl Seen {
    /// Adds the files of a batch.
    fn take(&mut self, alloc: Global, batch: &Inputs<ElfLike>) -> Result<(), AllocError> {
        for parsed in batch.objects.as_slice() {
            let object = parsed.object();
            for place in 0..object.num_symbols() {
                let row = object.symbol_at(place);
                if !row.is_undefined() {
                    let name = Vec::from_slice(alloc, row.name().as_slice())?;
                    self.definitions.push((name, self.symbols))?;
                }
                self.symbols = self.symbols.saturating_add(1);
            }
            self.objects = self.objects.saturating_add(1);
        }
        self.batches = self.batches.saturating_add(1);
        Ok(())
    }

    /// Whether a batch that comes now is answered so.
    fn adds(
        &mut self,
        alloc: Global,
        batch: &Inputs<ElfLike>,
        reply: AddReply,
    ) -> Result<bool, AllocError> {
        if self.is_ended {
            return Ok(reply == AddReply::Ended);
        }
        match reply {
            AddReply::Added {
                batch: number,
                loaded,
            } => {
                let is_next = number == self.batches;
                self.take(alloc, batch)?;
                Ok(is_next && loaded == self.objects)
            }
            AddReply::NoMemory => {
                self.is_ended = true;
                Ok(true)
            }
            _ => Ok(false),
        }
    }

    /// Whether a name is answered so.
    fn asks(&self, name: &Name, reply: &AskReply) -> bool {
        let mut first = None;
        for (defined, id) in self.definitions.iter() {
            if first.is_none() && name.is(defined.as_slice()) {
                first = Some(*id);
            }
        }
        if self.is_ended {
            first = None;
        }
        match reply {
            AskReply::Unknown => first.is_none(),
            AskReply::Known { symbol, loaded } => *loaded && first == Some(symbol.as_usize()),
        }
    }
}

/// Whether each call of a history of required objects is answered as it is by one caller, call after call.
/// What it answers is left to the tests that assert it: no clause says it.
pub(crate) fn is_as_one(alloc: Global, history: &[Entry]) -> Result<bool, AllocError> {
    let mut seen = Seen {
        definitions: Vec::new(alloc),
        // The prelude has the undefined symbol.
        symbols: 1,
        objects: 0,
        batches: 0,
        is_ended: false,
    };
    for entry in history {
        let fits = match entry {
            Entry::Add(batch, reply) => seen.adds(alloc, batch, *reply)?,
            Entry::Ask(name, reply) => seen.asks(name, reply),
        };
        if !fits {
            return Ok(false);
        }
    }
    Ok(true)
}
