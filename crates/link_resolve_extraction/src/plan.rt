//! The plan of a link.

ghost use Rattle.std.specs.Prelude.{◌≡◌, ℕ, Some, filter, length, map, slice_get};
ghost use Rattle.std.specs.List.{range_with_len};
ghost use Rattle.link_claim.specs.Workload.{FitsU32};
ghost use Rattle.link_closure.specs.Closure.{is_marked};
ghost use Rattle.link_closure.specs.Workload.{IsSound};
ghost use Rattle.link_db_files.specs.GroupFiles.{symbols_in};
ghost use Rattle.link_flags.specs.FlagWords.{numbers_of, words_of};
ghost use Rattle.link_claim_pool.specs.Marks.{mark_of_pair};
ghost use Rattle.link_db_symbols.specs.Walk.{SymbolsLeft, symbols_of_object, with_ids};
ghost use Rattle.link_db.specs.Database.{symbol_names};
ghost use Rattle.link_db.specs.Seen.{seen};
ghost use Rattle.link_resolve_extraction.specs.Asked.{known_by};
ghost use Rattle.link_resolve_extraction.specs.Items.{all_items};
ghost use Rattle.link_resolve_extraction.specs.Planned.{opening_of, planned};

use crate::items::WorkItem;
use link_db::SymbolDb;
use link_db_symbols::ObjectSymbols;
use link_flags::{PerSymbolFlags, ValueFlags};
use link_ids::SymbolId;
use link_input::Platform;

/// The work of a link over its database, as threads share it: items of the objects' tables, what is loaded whatever refers to it, and the
/// flags with which symbols begin. What an item asks for is looked up as it is read.
pub struct LinkPlan<'a, P: Platform> {
    pub(crate) db: &'a SymbolDb<P>,
    /// What the references of earlier batches stand for.
    pub(crate) settled: &'a [Option<SymbolId>],
    pub(crate) objects: Vec<ObjectSymbols<'a, P>>,
    pub(crate) items: Vec<WorkItem>,
    /// The number of the first item of each object.
    pub(crate) firsts: Vec<usize>,
    /// A mark for each object that is loaded whatever refers to it, and the places of these.
    pub(crate) is_root: Vec<bool>,
    pub(crate) roots: Vec<usize>,
    pub(crate) root_marks: Vec<(SymbolId, ValueFlags)>,
    /// How many symbols there are, and the flags with which they begin.
    pub(crate) symbols: usize,
    pub(crate) flags: &'a PerSymbolFlags,
    ghost cut: { items.items ≡ all_items 0 objects.items },
    ghost all: { symbols ≡ length (symbol_names (seen db.now)) },
    ghost rooted: { roots.items ≡ filter (is_marked is_root.items) (range_with_len 0 (length is_root.items)) },
    ghost each: { length is_root.items ≡ length objects.items },
    ghost own: { (f : ℕ) (o : SymbolsLeft) → slice_get objects.items f ≡ Some o → with_ids o ≡ symbols_of_object f (symbols_in (seen db.now).mapping.files.groups) },
    ghost is_sound: { IsSound (planned (known_by P.WEAK_SYMBOLS_OVERRIDE_COMMON (seen db.now) settled.now) objects.items items.items roots.items
        (map mark_of_pair root_marks.items) (opening_of symbols (numbers_of (words_of flags.now)))) },
    ghost does_fit: { FitsU32 (planned (known_by P.WEAK_SYMBOLS_OVERRIDE_COMMON (seen db.now) settled.now) objects.items items.items roots.items
        (map mark_of_pair root_marks.items) (opening_of symbols (numbers_of (words_of flags.now)))) },
}

// By hand, so that what lets one go makes one call and does not name its parts.
impl<P: Platform> Drop for LinkPlan<'_, P> {
    fn drop(self) {
        let Self {
            db: _,
            settled: _,
            objects: _,
            items: _,
            firsts: _,
            is_root: _,
            roots: _,
            root_marks: _,
            symbols: _,
            flags: _,
        } = self;
    }
}
