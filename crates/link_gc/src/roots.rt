//! The sections that are kept whatever refers to them.

ghost use Rattle.std.specs.Prelude.{◌≡◌, ◌↔◌, ◌⊎◌, ◌==◌, ◌&&◌, ◌<◌, ℕ, Contains, IfOk, IsTrue, Some, false, true, length, map, not, replicate, slice_get, slice_index};
ghost use Rattle.std.specs.List.{enumerate_from};
ghost use Rattle.link_closure.specs.Graph.{IsMarked};
ghost use Rattle.link_core_answer.specs.Seen.{seen};
ghost use Rattle.link_db.specs.Database.{symbol_names};
ghost use Rattle.link_flags.specs.FlagBits as flag;
ghost use Rattle.link_input.specs.Entries.{is_local};
ghost use Rattle.link_input.specs.ObjectFile.{ObjectFile};
ghost use Rattle.link_input.specs.Outputs.{is_shared_object};
ghost use Rattle.link_input.specs.Symbols.{Symbol, entry_passes};
ghost use Rattle.link_rules.specs.Rivals.{is_in_loaded_regular, two_steps};
ghost use Rattle.link_rules.specs.Selection.{Selection};
ghost use Rattle.link_rules.specs.Undefined.{resolved};
ghost use Rattle.link_rules.specs.World.{is_definition};
ghost use Rattle.link_gc_sections.specs.LiveSections.{IsRootNumber, is_exported, section_count};
ghost use Rattle.link_gc.specs.Numbering.{AreNumbersOf, IsOf, home_number, node_number, placed_number};

use crate::homes::home_number;
use crate::numbers::SectionNumbers;
use link_closure::is_marked;
use link_core_answer::Linked;
use link_db_symbols::{SymbolOrigin, SymbolView, symbols};
use link_ids::SymbolId;
use link_input::{OutputKind, Platform};
use link_resolve_comdat::Candidate;
use std::alloc::{AllocError, Global};

/// Sets the mark of a number, if one is given.
fn mark(marks: &mut [bool], number: Option<usize>)
    ensures marked { (n : ℕ) → n < length marks.old → IsMarked marks.new n ↔ (IsMarked marks.old n ⊎ (number ≡ Some n)) }
{
    if let Some(number) = number {
        if number < marks.len() {
            marks[number] = true;
        }
    }
}

/// Marks the sections that objects retain.
fn mark_retained<P: Platform>(
    marks: &mut [bool],
    objects: &[Candidate<'_, P>],
    numbers: &SectionNumbers,
)
    ensures { (l : Selection) → AreNumbersOf l numbers.now.spans.items numbers.now.groups.now → (n : ℕ) → n < length marks.old
        → IsMarked marks.new n ↔ (IsMarked marks.old n
        ⊎ ((o : ℕ × ObjectFile) × (section : ℕ) × Contains objects.now o × Contains o.1.object.retained_sections section × (node_number l (o.0, section) ≡ Some n))) }
{
    for object in objects {
        mark_retained_of(marks, object, numbers);
    }
}

/// Marks the sections that an object retains.
fn mark_retained_of<P: Platform>(
    marks: &mut [bool],
    object: &Candidate<'_, P>,
    numbers: &SectionNumbers,
)
    ensures { (l : Selection) → AreNumbersOf l numbers.now.spans.items numbers.now.groups.now → (n : ℕ) → n < length marks.old
        → IsMarked marks.new n ↔ (IsMarked marks.old n
        ⊎ ((section : ℕ) × Contains object.now.1.object.retained_sections section × (node_number l (object.now.0, section) ≡ Some n))) }
{
    for section in object.parsed.object().retained_sections() {
        mark(marks, numbers.number(object.place, *section));
    }
}

/// Marks the home of what a root name is mapped to. A root is one of the symbols, so the test passes over none.
fn mark_home_of_root<P: Platform>(
    marks: &mut [bool],
    linked: &Linked<P>,
    placed: &[Option<usize>],
    id: SymbolId,
)
    ensures { (l : Selection) → IsOf l (seen linked.now) → placed.now ≡ map (λ x. placed_number l x.origin) l.stage.symbols → Contains (seen linked.now).roots id
        → (n : ℕ) → n < length marks.old → IsMarked marks.new n ↔ (IsMarked marks.old n ⊎ (home_number l id ≡ Some n)) }
{
    if id.as_usize() < linked.num_symbols() {
        mark(marks, home_number(linked, placed, id));
    }
}

/// Marks the homes of what root names are mapped to.
fn mark_homes_of_roots<P: Platform>(
    marks: &mut [bool],
    linked: &Linked<P>,
    placed: &[Option<usize>],
)
    ensures { (l : Selection) → IsOf l (seen linked.now) → placed.now ≡ map (λ x. placed_number l x.origin) l.stage.symbols → (n : ℕ) → n < length marks.old
        → IsMarked marks.new n ↔ (IsMarked marks.old n ⊎ ((s : ℕ) × Contains (seen linked.now).roots s × (home_number l s ≡ Some n))) }
{
    for id in linked.roots() {
        mark_home_of_root(marks, linked, placed, *id);
    }
}

/// Whether a loaded regular object holds the symbol. There is a mark for each loaded object, by its place.
fn is_held(symbol: &SymbolView, loaded: &[bool]) -> bool
    ensures { result ≡ is_in_loaded_regular loaded.now symbol.now.origin }
{
    match symbol.origin() {
        SymbolOrigin::Object {
            place,
            is_dynamic,
            ..
        } => is_marked(loaded, *place) && !*is_dynamic,
        _ => false,
    }
}

/// Whether it is a local symbol of an object.
fn is_local(symbol: &SymbolView) -> bool
    ensures { result ≡ entry_passes (λ e. is_local e.binding) symbol.now.origin }
{
    match symbol.entry() {
        Some(entry) => entry.is_local(),
        None => false,
    }
}

/// Whether other modules may bind to the symbol of this id at run time, where the output is shared: a loaded regular object defines it and it isn't local, it
/// stands for itself, and no version script makes it local.
fn may_be_bound<P: Platform>(linked: &Linked<P>, id: SymbolId, symbol: &SymbolView) -> bool
    requires { id < length (symbol_names (seen linked.now).db) }
    ensures { result ≡ (is_in_loaded_regular (seen linked.now).known.marks symbol.now.origin && is_definition symbol.now
        && not (entry_passes (λ e. is_local e.binding) symbol.now.origin) && two_steps (seen linked.now).db.table id == id
        && not (flag.has (slice_index (seen linked.now).flags id) flag.downgrade_to_local)) }
{
    is_held(symbol, linked.resolved().loaded())
        && symbol.is_definition()
        && !is_local(symbol)
        && linked.definition(id) == id
        && !linked.flags(id).is_downgraded_to_local()
}

/// Whether the output is a shared one.
fn is_shared_output(output: OutputKind) -> bool
    ensures { result ≡ is_shared_object output }
{
    matches!(output, OutputKind::SharedObject)
}

/// Marks the home of a symbol of this id where other modules may bind to it at run time. The output is a shared one.
fn mark_home_of_export<P: Platform>(
    marks: &mut [bool],
    linked: &Linked<P>,
    placed: &[Option<usize>],
    id: SymbolId,
    symbol: &SymbolView,
)
    requires within { id < length (symbol_names (seen linked.now).db) }
    requires shared { is_shared_object (seen linked.now).db.options.output ≡ true }
    ensures { (l : Selection) → IsOf l (seen linked.now) → placed.now ≡ map (λ x. placed_number l x.origin) l.stage.symbols → (n : ℕ) → n < length marks.old
        → IsMarked marks.new n ↔ (IsMarked marks.old n ⊎ (IsTrue (is_exported (resolved l) id symbol.now) × (home_number l id ≡ Some n))) }
{
    if may_be_bound(linked, id, symbol) {
        mark(marks, home_number(linked, placed, id));
    }
}

/// Marks the homes of the definitions to which other modules may bind at run time. The output is a shared one.
fn mark_homes_of_bound<P: Platform>(
    marks: &mut [bool],
    linked: &Linked<P>,
    placed: &[Option<usize>],
)
    requires shared { is_shared_object (seen linked.now).db.options.output ≡ true }
    ensures { (l : Selection) → IsOf l (seen linked.now) → placed.now ≡ map (λ x. placed_number l x.origin) l.stage.symbols → (n : ℕ) → n < length marks.old
        → IsMarked marks.new n ↔ (IsMarked marks.old n
        ⊎ ((s : ℕ) × (x : Symbol) × (slice_get l.stage.symbols s ≡ Some x) × IsTrue (is_exported (resolved l) s x) × (home_number l s ≡ Some n))) }
{
    for (id, symbol) in symbols(linked.db().files()) {
        mark_home_of_export(marks, linked, placed, id, &symbol);
    }
}

/// Marks the homes of the definitions to which other modules may bind at run time.
fn mark_homes_of_exports<P: Platform>(
    marks: &mut [bool],
    linked: &Linked<P>,
    placed: &[Option<usize>],
)
    ensures { (l : Selection) → IsOf l (seen linked.now) → placed.now ≡ map (λ x. placed_number l x.origin) l.stage.symbols → (n : ℕ) → n < length marks.old
        → IsMarked marks.new n ↔ (IsMarked marks.old n
        ⊎ ((s : ℕ) × (x : Symbol) × (slice_get l.stage.symbols s ≡ Some x) × IsTrue (is_exported (resolved l) s x) × (home_number l s ≡ Some n))) }
{
    if is_shared_output(linked.db().output_kind()) {
        mark_homes_of_bound(marks, linked, placed);
    }
}

/// Marks the sections that are kept whatever refers to them, where none has a mark.
fn mark_roots<P: Platform>(
    marks: &mut [bool],
    linked: &Linked<P>,
    objects: &[Candidate<'_, P>],
    numbers: &SectionNumbers,
    placed: &[Option<usize>],
)
    requires none { marks.old ≡ replicate numbers.now.count false }
    ensures { (l : Selection) → IsOf l (seen linked.now) → AreNumbersOf l numbers.now.spans.items numbers.now.groups.now
        → objects.now ≡ enumerate_from 0 l.stage.objects → placed.now ≡ map (λ x. placed_number l x.origin) l.stage.symbols
        → numbers.now.count ≡ section_count l.stage → (n : ℕ) → IsMarked marks.new n ↔ IsRootNumber (resolved l) n }
{
    mark_retained(marks, objects, numbers);
    mark_homes_of_roots(marks, linked, placed);
    mark_homes_of_exports(marks, linked, placed);
}

/// A mark for each section that is kept whatever refers to it, by its number.
pub(crate) fn root_marks<P: Platform>(
    alloc: Global,
    linked: &Linked<P>,
    objects: &[Candidate<'_, P>],
    numbers: &SectionNumbers,
    placed: &[Option<usize>],
) -> Result<Vec<bool>, AllocError>
    ensures each { IfOk result (λ roots. length roots.items ≡ numbers.now.count) }
    ensures roots { IfOk result (λ roots. (l : Selection) → IsOf l (seen linked.now) → AreNumbersOf l numbers.now.spans.items numbers.now.groups.now
        → objects.now ≡ enumerate_from 0 l.stage.objects → placed.now ≡ map (λ x. placed_number l x.origin) l.stage.symbols
        → numbers.now.count ≡ section_count l.stage → (n : ℕ) → IsMarked roots.items n ↔ IsRootNumber (resolved l) n) }
{
    let mut marks = vec![in alloc; false; numbers.count]?;
    mark_roots(&mut marks, linked, objects, numbers, placed);
    Ok(marks)
}
