//! Laws about the work of a link.

ghost use Rattle.std.specs.Prelude.{◌≡◌, ◌↔◌, ◌<◌, ◌≤◌, ◌∷◌, ◌++◌, ℕ, List, Bool, Contains, Some, length, slice_get, slice_index};
ghost use Rattle.std.specs.List.{flat_map};
ghost use Rattle.link_closure.specs.Closure.{IsLeastClosed, is_marked};
ghost use Rattle.link_closure.specs.Workload as work;
ghost use Rattle.link_input.specs.InputFiles.{Batch, input_files};
ghost use Rattle.link_input.specs.Limits.{counts_of};
ghost use Rattle.link_input.specs.Symbols.{Symbol, object_in, symbols_of};
ghost use Rattle.link_rules.specs.World.{Stage, World};
ghost use Rattle.link_rules.specs.Loading.{IsLoaded};
ghost use Rattle.link_rules.specs.Marking.{marked_flags};
ghost use Rattle.link_rules.specs.Orderly.{IsOrderly};
ghost use Rattle.link_rules.specs.Refusals.{counts_at};
ghost use Rattle.link_rules.specs.Selection.{selection_of};
ghost use Rattle.link_rules.specs.Work.{IsStageOf, new_marks, new_requests, object_items, symbols_with_ids, workload_of};

/// What workers share of a batch is the work of its link: the files that they read are those that are loaded, the flags that
/// they leave are those of the loaded files, and all that they name is there.
pub fn work_is_the_link()
    ensures loaded { (w : Stage) (marks : List Bool) → IsOrderly w
        → IsLoaded w marks ↔ IsLeastClosed (work.IsRoot (workload_of w)) (work.HasEdge (workload_of w)) (length w.objects) marks }
    ensures marked { (w : Stage) (marks : List Bool) (s : ℕ) → IsOrderly w → IsLoaded w marks → s < length w.symbols
        → work.marked (workload_of w) (is_marked marks) s ≡ slice_index (marked_flags (selection_of w marks)) s }
    ensures sound { (w : Stage) → IsOrderly w → work.IsSound (workload_of w) }
{}

/// Each stage of a link is orderly: what its earlier batches settled is done.
pub fn each_stage_is_orderly()
    ensures { (world : World) (w : Stage) → IsStageOf world w → IsOrderly w }
{}

/// The items of an object are its symbols, cut into parts: joined, they request and mark what its symbols do, in the order of
/// their ids. Each object has an item.
pub fn items_are_their_object()
    ensures symbols { (w : Stage) (f s : ℕ) (x : Symbol) → Contains (symbols_with_ids w f) (s, x) ↔ ((slice_get w.symbols s ≡ Some x) × (object_in x.origin ≡ Some f)) }
    ensures requests { (w : Stage) (f : ℕ) → flat_map (λ it. it.requests) (object_items w f) ≡ flat_map (new_requests w) (symbols_with_ids w f) }
    ensures marks { (w : Stage) (f : ℕ) → flat_map (λ it. it.marks) (object_items w f) ≡ flat_map (new_marks w) (symbols_with_ids w f) }
    ensures one { (w : Stage) (f : ℕ) → 1 ≤ length (object_items w f) }
{}

/// At each stage of a link the symbols, and what is counted for its limits, are those of the files of the batches so far, in their
/// order.
pub fn stages_have_the_symbols_of_their_files()
    ensures { (world : World) (w : Stage) → IsStageOf world w
        → (some rest : List Batch) × (world.first ∷ world.later ≡ some ++ rest)
        × (w.symbols ≡ symbols_of 0 (input_files world.options some)) × (counts_at w ≡ counts_of world.options some) }
{}

/// At each stage of a link there is a set of loaded objects: the least closed one.
pub fn each_stage_has_its_loaded_objects()
    ensures { (world : World) (w : Stage) → IsStageOf world w → (marks : List Bool) × IsLoaded w marks }
{}
