//! How a plan of a link is made, and what it tells.

ghost use Rattle.std.specs.Prelude.{◌≡◌, ◌≤◌, IfOk, length};
ghost use Rattle.link_db_files.specs.Inputs.{objects_in};
ghost use Rattle.link_flags.specs.FlagWords.{numbers_of, words_of};
ghost use Rattle.link_db_texts.specs.Holds.{platform_of};
ghost use Rattle.link_rules.specs.Places.{Bytes};
ghost use Rattle.link_rules.specs.Work.{workload_of};
ghost use Rattle.link_rules.specs.World.{Stage};
ghost use Rattle.link_db_stage.specs.AtStage.{IsAtStage};
ghost use Rattle.link_db.specs.Database.{symbol_names};
ghost use Rattle.link_db.specs.Seen.{seen};
ghost use Rattle.link_resolve_extraction.specs.Planned.{opening_of};
ghost use Rattle.link_resolve_extraction.specs.Answer.{AreObjectsOf, IsKnownAt};
ghost use Rattle.link_resolve_extraction.specs.Work.{known_of, work_of};

use crate::found::{FoundItem, ReadItem, read_symbols};
use crate::items::{first_items, item_symbols, work_items};
use crate::opening::{opening_bits_are_small, opening_flags};
use crate::plan::LinkPlan;
use crate::roots::{marked_places, marks_of_names};
use link_claim::Plan;
use link_claim_pool::Readable;
use link_db::{SymbolDb, targets_are_symbols};
use link_db_symbols::object_symbols;
use link_flags::{PerSymbolFlags, ValueFlags};
use link_ids::SymbolId;
use link_input::Platform;
use link_resolve_requests::{referred_names, root_objects};
use std::alloc::{AllocError, Global};

impl<'a, P: Platform> LinkPlan<'a, P> {
    /// The work of the last batch of a database: earlier batches had these objects loaded, and settled these references. At each stage of a
    /// link at which the database is, it is that of the stage. The only refusal is want of memory.
    pub fn new(
        alloc: Global,
        db: &'a SymbolDb<P>,
        loaded: &[bool],
        settled: &'a [Option<SymbolId>],
        flags: &'a PerSymbolFlags,
    ) -> Result<Self, AllocError>
        requires { length loaded.now ≤ length (objects_in (seen db.now).mapping.files.groups) }
        ensures known { IfOk result (λ plan. (demangle : Bytes → Bytes) (w : Stage) → IsAtStage (platform_of P.Platform) demangle (seen db.now) w
            → w.earlier.targets ≡ settled.now → IsKnownAt w (known_of plan)) }
        ensures objects { IfOk result (λ plan. (demangle : Bytes → Bytes) (w : Stage) → IsAtStage (platform_of P.Platform) demangle (seen db.now) w
            → AreObjectsOf w plan.objects.items) }
        ensures symbols { IfOk result (λ plan. plan.symbols ≡ length (symbol_names (seen db.now))) }
        ensures work { IfOk result (λ plan. (demangle : Bytes → Bytes) (w : Stage) → IsAtStage (platform_of P.Platform) demangle (seen db.now) w
            → w.earlier.loaded ≡ loaded.now → w.earlier.targets ≡ settled.now
            → work_of plan ≡ record (workload_of w) { opening = opening_of (length (symbol_names (seen db.now))) (numbers_of (words_of flags.now)) }) }
    {
        targets_are_symbols(db);
        let symbols = db.num_symbols();
        opening_bits_are_small(flags, symbols);
        let objects = object_symbols(alloc, db.files())?;
        let items = work_items(alloc, &objects)?;
        let firsts = first_items(alloc, &objects)?;
        let is_root = root_objects(alloc, db, loaded)?;
        let roots = marked_places(alloc, &is_root)?;
        let names = referred_names(alloc, db)?;
        let root_marks = marks_of_names(alloc, db, &names)?;
        Ok(LinkPlan {
            db,
            settled,
            objects,
            items,
            firsts,
            is_root,
            roots,
            root_marks,
            symbols,
            flags,
        })
    }
}

impl<'a, P: Platform> Plan for LinkPlan<'a, P> {
    ghost use Rattle.link_resolve_extraction.specs.Work.{work_of};

    ghost work = { work_of };

    fn files(&self) -> usize {
        self.objects.len()
    }

    fn items(&self) -> usize {
        self.items.len()
    }

    fn symbols(&self) -> usize {
        self.symbols
    }

    fn is_root(&self, file: usize) -> bool {
        self.is_root[file]
    }

    fn file_of(&self, item: usize) -> usize {
        self.items[item].object
    }

    fn opening(&self, symbol: SymbolId) -> ValueFlags {
        opening_flags(self.flags, symbol)
    }

    ghost sound = { λ p. p.is_sound };

    ghost fits = { λ p. p.does_fit };
}

impl<'a, P: Platform> Readable for LinkPlan<'a, P> {
    ghost use Rattle.link_resolve_extraction.specs.Work.{found_in, read_in};

    type Read = ReadItem;

    type Found = FoundItem;

    ghost read_in = { read_in };

    ghost found_in = { found_in };

    fn root_count(&self) -> usize {
        self.roots.len()
    }

    fn root_at(&self, index: usize) -> Option<usize> {
        self.roots.get(index).copied()
    }

    fn root_mark_count(&self) -> usize {
        self.root_marks.len()
    }

    fn root_mark_at(&self, index: usize) -> Option<(SymbolId, ValueFlags)> {
        self.root_marks.get(index).copied()
    }

    fn items_of(&self, file: usize) -> (usize, usize) {
        match self.firsts.get(file..) {
            Some([first, next, ..]) => (*first, next.saturating_sub(*first)),
            _ => (0, 0),
        }
    }

    fn read(&self, alloc: Global, item: usize) -> Result<ReadItem, AllocError> {
        match item_symbols(&self.objects, self.items[item]) {
            Some(symbols) => read_symbols(alloc, self.db, self.settled, &symbols),
            None => Ok(ReadItem::none(alloc)),
        }
    }

    fn request_count(&self, _item: usize, read: &ReadItem) -> usize {
        read.requests.len()
    }

    fn request_at(&self, _item: usize, read: &ReadItem, index: usize) -> Option<usize> {
        let object = read.requests.get(index)?;
        Some(*object)
    }

    fn mark_count(&self, _item: usize, read: &ReadItem) -> usize {
        read.references.len()
    }

    fn mark_at(
        &self,
        _item: usize,
        read: &ReadItem,
        index: usize,
    ) -> Option<(SymbolId, ValueFlags)> {
        let reference = read.references.get(index)?;
        Some((reference.target, reference.flags))
    }

    fn found(&self, _item: usize, read: ReadItem) -> FoundItem {
        read.into_found()
    }
}
