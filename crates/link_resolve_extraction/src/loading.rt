//! The objects that a link loads, read by threads.

ghost use Rattle.std.specs.Prelude.{◌≡◌, ℕ, ◌<◌, ◌≤◌, IfOk, List, Option, length};
ghost use Rattle.link_claim.specs.Later.{HasReadAll};
ghost use Rattle.link_resolve_extraction.specs.Requests.{readers_of, requests_of};
ghost use Rattle.link_claim.specs.Seats.{IsSettled, claimed_in};
ghost use Rattle.link_db_files.specs.Inputs.{objects_in};
ghost use Rattle.link_flags.specs.FlagWords.{numbers_of, words_of};
ghost use Rattle.link_db_texts.specs.Holds.{platform_of};
ghost use Rattle.link_rules.specs.Loading.{IsLoaded};
ghost use Rattle.link_rules.specs.Orderly.{IsOrderly};
ghost use Rattle.link_rules.specs.Places.{Bytes, each_from};
ghost use Rattle.link_rules.specs.Selection.{loaded_target};
ghost use Rattle.link_rules.specs.Work.{workload_of};
ghost use Rattle.link_rules.specs.World.{Stage};
ghost use Rattle.link_db_stage.specs.AtStage.{IsAtStage};
ghost use Rattle.link_db.specs.Database.{symbol_names};
ghost use Rattle.link_db.specs.Seen.{seen};
ghost use Rattle.link_resolve_extraction.specs.Answer.{AreFoundBelow, AreTargetsRead};
ghost use Rattle.link_resolve_extraction.specs.Planned.{opening_of};

use crate::answer::{claimed_objects, count_requests};
use crate::found::FoundItem;
use crate::plan::LinkPlan;
use link_claim::{Closed, Gate, Plan, Words};
use link_claim_pool::{AllRead, read_all};
use link_db::SymbolDb;
use link_flags::PerSymbolFlags;
use link_ids::SymbolId;
use link_input::Platform;
use std::alloc::{AllocError, Global};
use std::thread::Threads;

/// What is left of the reading itself once threads have read all that a batch asks for.
#[derive(Drop)]
pub struct BatchRead {
    /// The words that they shared: which objects they claimed, and the flags of each symbol.
    pub closed: Closed,
    /// How many objects the references of loaded objects request, each time that one is requested.
    pub requests: u64,
    /// How many workers read: as many as seats were handed out and taken back, or the caller's own thread alone.
    pub readers: usize,
}

/// The objects that a batch loads, what was found in them, and what is left of the reading.
#[derive(Drop)]
pub struct LoadedObjects {
    /// What is left of the reading.
    pub read: BatchRead,
    /// A mark for each loaded object, by its place among all objects.
    pub loaded: Vec<bool>,
    /// What was found in each item of these objects, and nothing for the other items: `write_targets` and `read_targets` make of it what
    /// references stand for.
    pub found: Vec<Option<FoundItem>>,
}

/// Loads the objects that the last batch of a database asks for, where earlier batches had these loaded, and had settled what these references
/// stand for. So many workers read them, but no more than there are items, each item between two calls of the gate. The only refusal is want of memory.
pub fn load_objects<R: Threads + Sync, G: Gate + Sync, P: Platform + Sync>(
    rt: &R,
    alloc: Global,
    gate: &G,
    workers: usize,
    db: &SymbolDb<P>,
    loaded: &[bool],
    settled: &[Option<SymbolId>],
    flags: &PerSymbolFlags,
) -> Result<LoadedObjects, AllocError>
    requires some { 0 < workers }
    requires most { workers ≤ 256 }
    requires loaded { length loaded.now ≤ length (objects_in (seen db.now).mapping.files.groups) }
    ensures work { IfOk result (λ r. (demangle : Bytes → Bytes) (w : Stage) → IsAtStage (platform_of P.Platform) demangle (seen db.now) w
        → w.earlier.loaded ≡ loaded.now → w.earlier.targets ≡ settled.now
        → r.read.closed.view.work ≡ record (workload_of w) { opening = opening_of (length (symbol_names (seen db.now))) (numbers_of (words_of flags.now)) }) }
    ensures read { IfOk result (λ r. HasReadAll r.read.closed.view) }
    ensures closed { IfOk result (λ r. IsSettled r.read.closed) }
    ensures symbols { IfOk result (λ r. length r.read.closed.view.work.opening ≡ length (symbol_names (seen db.now))) }
    ensures claimed { IfOk result (λ r. r.loaded.items ≡ claimed_in r.read.closed) }
    ensures loaded { IfOk result (λ r. (demangle : Bytes → Bytes) (w : Stage) → IsAtStage (platform_of P.Platform) demangle (seen db.now) w
        → w.earlier.loaded ≡ loaded.now → w.earlier.targets ≡ settled.now → IsOrderly w → IsLoaded w r.loaded.items) }
    ensures targets { IfOk result (λ r. (demangle : Bytes → Bytes) (w : Stage) → IsAtStage (platform_of P.Platform) demangle (seen db.now) w
        → w.earlier.loaded ≡ loaded.now → w.earlier.targets ≡ settled.now → IsOrderly w → (targets : List (Option ℕ))
        → AreTargetsRead (length (symbol_names (seen db.now))) settled.now r.found.items targets → targets ≡ each_from (loaded_target w r.loaded.items) 0 w.symbols) }
    ensures below { IfOk result (λ r. AreFoundBelow (length (symbol_names (seen db.now))) r.found.items) }
    ensures requests { IfOk result (λ r. r.read.requests ≡ requests_of r.read.closed.view.work r.loaded.items) }
    ensures readers { IfOk result (λ r. r.read.readers ≡ readers_of workers (length r.read.closed.view.work.items)) }
{
    let plan = LinkPlan::new(alloc, db, loaded, settled, flags)?;
    let workers = workers.min(plan.items()).max(1);
    let (words, seat) = Words::create(alloc, &plan)?;
    let all = read_all(rt, alloc, gate, workers, &plan, words, seat)?;
    let AllRead {
        closed,
        found,
        readers,
    } = all;
    let loaded = claimed_objects(alloc, &closed, plan.files())?;
    let requests = count_requests(&found)?;
    Ok(LoadedObjects {
        read: BatchRead {
            closed,
            requests,
            readers,
        },
        loaded,
        found,
    })
}
