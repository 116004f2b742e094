//! Laws about the definitions of a whole link.

ghost use Rattle.std.specs.Prelude.{◌≡◌, ◌↔◌, ◌⊎◌, ℕ, List, Bool, IsPermutation, IsTrue, None, Some, Option, Ok, slice_get};
ghost use Rattle.std.specs.List.{list_any};
ghost use Rattle.link_input.specs.declared.symbol_entry.SymbolEntry.{SymbolEntry};
ghost use Rattle.link_input.specs.Checks.{first_fault};
ghost use Rattle.link_input.specs.Entries.{is_undefined};
ghost use Rattle.link_input.specs.InputFiles.{Batch};
ghost use Rattle.link_input.specs.ObjectFile.{ObjectFile};
ghost use Rattle.link_script_syntax.specs.declared.body.Side.{Side};
ghost use Rattle.link_script.specs.declared.export_list.ExportList.{ExportList};
ghost use Rattle.link_script_syntax.specs.declared.matcher.ParsedSymbolMatcher.{ParsedSymbolMatcher};
ghost use Rattle.link_script_syntax.specs.declared.named.RawVersion.{RawVersion};
ghost use Rattle.link_script_syntax.specs.declared.script.RawScript.{RawScript};
ghost use Rattle.link_script.specs.ExportList.{IsListed, ListHas};
ghost use Rattle.link_script.specs.Filter.{Filter, EntriesHave};
ghost use Rattle.link_script.specs.Lookup.{Asked};
ghost use Rattle.link_script.specs.Rank.{IsBest, filters_in};
ghost use Rattle.link_script.specs.Script.{IsVersionBy};
ghost use Rattle.link_rules.specs.Linked.{Linked};
ghost use Rattle.link_rules.specs.declared.refusal.LinkError.{LinkError};
ghost use Rattle.link_rules.specs.Places.{Bytes};
ghost use Rattle.link_rules.specs.Matching.{entry_fits, rank, version_by};
ghost use Rattle.link_rules.specs.Rules.{PlatformRules, elf_like, mach_like};
ghost use Rattle.link_input.specs.Symbols.{Symbol, in_object, object_symbol};
ghost use Rattle.link_rules.specs.World.{is_concealed, is_reference, Given, Stage, World, world_of, with_files_per_group};
ghost use Rattle.link_rules.specs.Comdat.{Comdat, kept_place};
ghost use Rattle.link_rules.specs.Loading.{IsLoaded};
ghost use Rattle.link_rules.specs.Selection.{Selection};
ghost use Rattle.link_rules.specs.Sorting.{IsSortedTexts, sorted_texts};
ghost use Rattle.link_rules.specs.Undefined.{definition};
ghost use Rattle.link_rules.specs.Answer.{BatchesEnd, End, EndsWith, IsLinked, IsRefused, IsRefusalText, IsReport};

use link_input::{ElfLike, MachLike, Platform};

/// Each stage of a link has one set of loaded objects. A world has one answer and one report, or one cause for which it is refused,
/// with one text; it is one of both, linked or refused, and never both.
pub fn a_world_has_one_answer()
    ensures loaded { (w : Stage) (a b : List Bool) → IsLoaded w a → IsLoaded w b → a ≡ b }
    ensures linked { (w : World) (a b : Linked) → IsLinked w a → IsLinked w b → a ≡ b }
    ensures report { (w : World) (a b : Bytes) → IsReport w a → IsReport w b → a ≡ b }
    ensures refusal { (w : World) (a b : LinkError) → IsRefused w a → IsRefused w b → a ≡ b }
    ensures refusal_text { (w : World) (a b : Bytes) → IsRefusalText w a → IsRefusalText w b → a ≡ b }
    ensures not_both { (w : World) (linked : Linked) (error : LinkError) → IsLinked w linked → IsRefused w error → ⊥ }
    ensures some { (w : World) → ((linked : Linked) × IsLinked w linked) ⊎ ((error : LinkError) × IsRefused w error) }
{}

/// Batches behind a stage lead to one end: the same selection, or the same cause. So the batches of a world select once.
pub fn batches_have_one_end()
    ensures ends { (is_late : Bool) (before : Stage) (b : Batch) (later : List Batch) (x y : End) → EndsWith is_late before b later x → EndsWith is_late before b later y → x ≡ y }
    ensures selects { (w : World) (a b : Selection) → BatchesEnd w (Ok a) → BatchesEnd w (Ok b) → a ≡ b }
{}

/// How many objects are read as one group changes no answer.
pub fn the_cutting_does_not_show()
    ensures linked { (platform : PlatformRules) (demangle : Bytes → Bytes) (given : Given) (n : ℕ) (linked : Linked)
        → IsLinked (world_of platform demangle given) linked ↔ IsLinked (world_of platform demangle (with_files_per_group n given)) linked }
    ensures refused { (platform : PlatformRules) (demangle : Bytes → Bytes) (given : Given) (n : ℕ) (error : LinkError)
        → IsRefused (world_of platform demangle given) error ↔ IsRefused (world_of platform demangle (with_files_per_group n given)) error }
{}

/// The group that is kept of those with one signature does not depend on the order in which they are met.
pub fn kept_group_in_any_order()
    ensures { (xs ys : List Comdat) (signature : Bytes) → IsPermutation xs ys → kept_place xs signature ≡ kept_place ys signature }
{}

/// Where no symbol has a version, what a symbol means is its own meaning, whatever is loaded.
pub fn a_definition_is_its_own()
    ensures { (w : World) (last : Selection) (s : ℕ) (x : Symbol) → BatchesEnd w (Ok last)
        → ((u : ℕ) (y : Symbol) → slice_get last.stage.symbols u ≡ Some y → y.version ≡ None)
        → slice_get last.stage.symbols s ≡ Some x → definition last (definition last s) ≡ definition last s }
{}

/// The lines of duplicates are the texts that a sort gives: the same ones, in the order of their bytes.
pub fn sorted_texts_are_sorted()
    ensures { (texts : List Bytes) → IsSortedTexts texts (sorted_texts texts) }
{}

/// What is computed of a script's text is what its readers answer: the strongest of all matches, of which there is one; the
/// version of a name; whether a list has it.
pub fn texts_are_matched()
    ensures best { (versions : List RawVersion) (a : Asked) → IsBest (filters_in versions) a (rank versions a) }
    ensures one_best { (versions : List RawVersion) (a : Asked) (r : Option (ℕ × Side)) → IsBest (filters_in versions) a r → r ≡ rank versions a }
    ensures version { (script : RawScript) (a : Asked) (explicit : Option Bytes) → IsVersionBy script a explicit (version_by script a explicit) }
    ensures listed { (list : ExportList) (entries : List ParsedSymbolMatcher) (a : Asked)
        → ((cxx : Bool) (f : Filter) → ListHas list cxx f ↔ EntriesHave entries cxx f) → IsListed list a ↔ IsTrue (list_any (entry_fits a) entries) }
{}

/// An undefined entry of a table that passes its checks is a reference, but for the null entry and for the hidden ones of shared
/// objects.
pub fn undefined_entries_are_references()
    ensures { (has_null : Bool) (n : ℕ) (o : ObjectFile) (k : ℕ) (e : SymbolEntry)
        → first_fault has_null o.object ≡ None → slice_get o.object.symbols k ≡ Some e → IsTrue (is_undefined e.place)
        → IsTrue (is_reference (object_symbol n o e)) ⊎ IsTrue (is_concealed (in_object n o.object.is_dynamic e)) ⊎ (IsTrue has_null × (k ≡ 0)) }
{}

/// The rules of the two platforms are those that their traits tell.
pub fn platforms_have_these_rules()
    ensures elf_weak { ⟦<ElfLike as Platform>⟧.WEAK_SYMBOLS_OVERRIDE_COMMON ≡ elf_like.weak_overrides_common }
    ensures elf { ⟦<ElfLike as Platform>⟧.is_non_interposable ≡ elf_like.is_non_interposable }
    ensures elf_lists { ⟦<ElfLike as Platform>⟧.read_export_list ≡ elf_like.read_export_list }
    ensures mach_weak { ⟦<MachLike as Platform>⟧.WEAK_SYMBOLS_OVERRIDE_COMMON ≡ mach_like.weak_overrides_common }
    ensures mach { ⟦<MachLike as Platform>⟧.is_non_interposable ≡ mach_like.is_non_interposable }
    ensures mach_lists { ⟦<MachLike as Platform>⟧.read_export_list ≡ mach_like.read_export_list }
{}
