//! Tiny worlds, which the checker computes: each tells a definition from one that is nearly the same.

ghost use Rattle.std.specs.Prelude.{◌≡◌, List, [], ◌∷◌, false, true, Some, None, codes, map};
ghost use Rattle.std.specs.Int.RustNames.{bit_or};
ghost use Rattle.link_flags.specs.FlagBits as flag;
ghost use Rattle.link_flags.specs.declared.strength.SymbolStrength.TheVariants.{Undefined, Strong};
ghost use Rattle.link_input.specs.declared.internal_symbols.SymbolLoc.TheVariants as loc;
ghost use Rattle.link_input.specs.declared.too_many.TooManyKind.TheVariants.{LinkerScripts, Objects, Sections, StubLibraries, Symbols};
ghost use Rattle.link_rules.specs.declared.refusal.LinkError.TheVariants.{LateVersionScript, Memory, MultipleVersionScripts, Script, TooMany};
ghost use Rattle.link_rules.specs.declared.refusal.ScriptOrigin.TheVariants.{ExportList};
ghost use Rattle.link_rules.specs.Names.{first_definition};
ghost use Rattle.link_rules.specs.Loading.{is_root, request_of};
ghost use Rattle.link_rules.specs.Marking.{flags_before};
ghost use Rattle.link_rules.specs.Opening.{has_location};
ghost use Rattle.link_rules.specs.Report.{kind_text, refusal_text};
ghost use Rattle.link_rules.specs.Work.{item_count, new_requests};
ghost use Rattle.link_rules.specs.Targets.{kept_target};
ghost use Rattle.link_rules.specs.Selection.{selection_of};
ghost use Rattle.link_rules.specs.Rivals.{two_steps};
ghost use Rattle.link_rules.specs.Undefined.{final_table, resolution_of};
ghost use Rattle.link_rules.specs.Versions.{versions_given};
ghost use Rattle.link_rules.specs.Refusals.{batch_refusal, text_refusal};
ghost use Rattle.link_rules.specs.Places.{each_from};
ghost use Rattle.link_rules.specs.World.{first_stage, start_of};
ghost use Rattle.link_rules.specs.Examples as of;

/// Definitions at work on worlds of a few symbols: what a wrapped name and its real name are mapped to, what a reference stands for
/// and asks for, which group is kept, for which names symbols are made, what an undefined version means, who has a version, what a
/// symbol's flags are, which redirects move with a section, what a later batch asks for, how many items an object has, which cause is
/// told first, and the words of some.
pub fn definitions_at_work()
    ensures real_name { first_definition of.real_name (codes "__real_f") ≡ Some 2 }
    ensures wraps_in_order { first_definition of.wrapped_wrapper (codes "f") ≡ Some 3 }
    ensures real_name_of_what_was { first_definition of.wrapped_wrapper (codes "__real_f") ≡ Some 1 }
    ensures hidden_reference { (selection_of of.hidden_reference (true ∷ true ∷ true ∷ [])).targets ≡ None ∷ None ∷ None ∷ Some 2 ∷ [] }
    ensures two_requests { each_from (request_of of.two_requests) 0 of.two_requests.symbols ≡ None ∷ None ∷ Some 2 ∷ None ∷ None ∷ [] }
    ensures two_groups { (selection_of of.two_groups (true ∷ true ∷ [])).strengths ≡ Undefined ∷ Strong ∷ Undefined ∷ [] }
    ensures two_steps { two_steps (1 ∷ 2 ∷ 3 ∷ 3 ∷ []) 0 ≡ 2 }
    ensures two_boundaries { map (λ m. m.0) (resolution_of of.two_boundaries (true ∷ [])).made ≡ 2 ∷ 1 ∷ [] }
    ensures hidden_boundary { of.flags_at of.hidden_boundary (true ∷ []) 2 ≡ flag.non_interposable }
    ensures records_of_a_version { final_table (selection_of of.two_records_of_a_version (true ∷ false ∷ true ∷ []))
        ≡ 0 ∷ 2 ∷ 3 ∷ 4 ∷ 4 ∷ [] }
    ensures protected_in_a_library { of.flags_at of.protected_in_a_library (true ∷ true ∷ []) 2 ≡ flag.non_interposable }
    ensures versions { versions_given (resolution_of of.every_name_has_a_version (true ∷ true ∷ []))
        ≡ record { symbol = 3; index = 2 } ∷ [] }
    ensures local_and_of_a_thread { of.flags_at of.every_name_is_local (true ∷ []) 1 ≡ flag.downgrade_to_local }
    ensures local_names { of.flags_at of.every_name_is_local (true ∷ []) 2 ≡ bit_or flag.non_interposable flag.downgrade_to_local }
    ensures local_binding { of.flags_at of.rust_names_none (true ∷ []) 1 ≡ flag.non_interposable }
    ensures rust_names { of.flags_at of.rust_names_none (true ∷ []) 2 ≡ bit_or flag.non_interposable flag.downgrade_to_local }
    ensures kept_targets { each_from (kept_target of.a_later_stage) 0 of.a_later_stage.symbols ≡ None ∷ Some 3 ∷ Some 2 ∷ Some 3 ∷ [] }
    ensures kept_objects { map (is_root of.a_later_stage) (0 ∷ 1 ∷ 2 ∷ []) ≡ true ∷ false ∷ true ∷ [] }
    ensures kept_flags { each_from (flags_before of.a_later_stage) 0 of.a_later_stage.symbols ≡ 1 ∷ 5 ∷ flag.non_interposable ∷ flag.non_interposable ∷ [] }
    ensures no_request_again { each_from (λ s x. new_requests of.a_later_stage (s, x)) 0 of.a_later_stage.symbols ≡ [] ∷ [] ∷ [] ∷ [] ∷ [] }
    ensures items { map item_count (0 ∷ 1 ∷ 5000 ∷ 5001 ∷ []) ≡ 1 ∷ 1 ∷ 1 ∷ 2 ∷ [] }
    ensures locations { map has_location (loc.SectionStartRelative 1 ∷ loc.SectionEndRelative 1 ∷ loc.SectionEnd 1 ∷ loc.FirstSection
        ∷ loc.LocationCounter (record { counter = 0; section = None }) ∷ loc.None ∷ []) ≡ true ∷ true ∷ true ∷ true ∷ true ∷ false ∷ [] }
    ensures limits_first { batch_refusal false (start_of of.scripts_alone) of.scripts_alone.first ≡ Some (TooMany LinkerScripts 257) }
    ensures scripts_before_limits { batch_refusal false (start_of (of.a_script_among_many (Some (codes "{ b; };")))) (of.a_script_among_many None).first
        ≡ Some (MultipleVersionScripts 0) }
    ensures late_script { batch_refusal true (start_of (of.a_script_among_many None)) (of.a_script_among_many None).first ≡ Some (LateVersionScript 0) }
    ensures place_of_the_script { batch_refusal true (first_stage of.scripts_alone) (of.a_script_among_many None).first ≡ Some (LateVersionScript 257) }
    ensures lists_before_names { text_refusal of.faulty_list_alone ≡ Some (Script ExportList of.fault) }
    ensures kinds { map kind_text (Objects ∷ LinkerScripts ∷ StubLibraries ∷ Sections ∷ Symbols ∷ [])
        ≡ codes "objects" ∷ codes "linker scripts" ∷ codes "stub libraries" ∷ codes "sections" ∷ codes "symbols" ∷ [] }
    ensures out_of_memory { refusal_text Memory ≡ codes "out of memory" }
{}
