//! What is left of a link once its objects are loaded and its rivals settled.

ghost use Rattle.std.specs.Prelude.{◌≡◌, filter, length};
ghost use Rattle.link_db.specs.Database.{HasTable};
ghost use Rattle.link_db.specs.Seen.{seen};
ghost use Rattle.link_db_files.specs.GroupFiles.{symbols_in};
ghost use Rattle.link_flags.specs.FlagWords.{words_of};
ghost use Rattle.link_resolve.specs.Known.{IsListed};

use crate::loading::{count_of, opened, resolve};
use crate::shape::{Shape, inputs_of};
use link_claim::Gate;
use link_db::SymbolDb;
use link_flags::{PerSymbolFlags, RawFlags};
use link_ids::SymbolId;
use link_input::{ElfLike, Inputs};
use link_resolve::{Resolver, resolve_alternative_symbol_definitions};
use link_rules::LinkError;
use std::alloc::Global;
use std::thread::Threads;

/// What is left once the objects of a link are loaded.
#[derive(Drop, PartialEq, Eq, Debug)]
pub(crate) struct Outcome {
    /// How many requests references made.
    pub(crate) requests: u64,
    /// A mark for each loaded object.
    pub(crate) loaded: Vec<bool>,
    /// What the references of loaded objects stand for, by the ids of the symbols.
    pub(crate) targets: Vec<Option<SymbolId>>,
    /// What each symbol points to once rivals are settled.
    pub(crate) table: Vec<SymbolId>,
    pub(crate) flags: Vec<RawFlags>,
}

impl Outcome {
    /// How many objects are loaded.
    pub(crate) fn count(&self) -> usize
        ensures { result ≡ length (filter (λ mark. mark) self.now.loaded.items) }
    {
        count_of(&self.loaded)
    }

    /// What the reference of this id stands for. It is left open: tests compare it.
    pub(crate) fn target_of(&self, symbol: usize) -> Option<usize> {
        match self.targets.get(symbol) {
            Some(Some(target)) => Some(target.as_usize()),
            _ => None,
        }
    }

    /// What the symbol of this id points to. It is left open: tests compare it.
    pub(crate) fn points_to(&self, symbol: usize) -> Option<usize> {
        self.table.get(symbol).map(|to| to.as_usize())
    }
}

/// What each symbol points to once rivals are settled.
fn settled_table(
    alloc: Global,
    db: SymbolDb<ElfLike>,
    flags: &mut PerSymbolFlags,
    resolver: &Resolver,
) -> Result<Vec<SymbolId>, LinkError>
    requires listed { IsListed (seen db) }
    requires table { HasTable (seen db) }
    requires known { length resolver.now.known.strengths ≡ length (symbols_in (seen db).mapping.files.groups) }
    requires flags { length (words_of flags.old) ≡ length (symbols_in (seen db).mapping.files.groups) }
{
    let mut left = resolve_alternative_symbol_definitions(alloc, db, flags, resolver.resolved())?;
    Ok(left.take_definitions())
}

/// Loads the objects of a link by so many workers, and settles rivals.
/// What is left is open here: tests compare it, and the clauses of the calls say what it is.
pub(crate) fn load<R: Threads + Sync, G: Gate + Sync>(
    rt: &R,
    alloc: Global,
    gate: &G,
    workers: usize,
    shape: &Shape,
) -> Result<Outcome, LinkError> {
    load_files(rt, alloc, gate, workers, inputs_of(alloc, shape)?)
}

/// The same of the files of a link.
/// What is left is open here too.
pub(crate) fn load_files<R: Threads + Sync, G: Gate + Sync>(
    rt: &R,
    alloc: Global,
    gate: &G,
    workers: usize,
    files: Inputs<ElfLike>,
) -> Result<Outcome, LinkError> {
    let mut flags = PerSymbolFlags::new(alloc);
    let mut db = opened(rt, alloc, 1, &mut flags, files)?;
    let mut resolver = Resolver::new(alloc);
    let requests = resolve(rt, alloc, gate, workers, &mut db, &mut flags, &mut resolver)?;
    let table = settled_table(alloc, db, &mut flags, &resolver)?;
    Ok(Outcome {
        requests,
        loaded: Vec::from_slice(alloc, resolver.resolved().loaded())?,
        targets: Vec::from_slice(alloc, resolver.resolved().targets())?,
        table,
        flags: Vec::from_slice(alloc, flags.flags_mut())?,
    })
}
