//! Laws about the checks of a table. Each is a function that does nothing: its contract is the law.

ghost use Rattle.std.specs.Prelude.{◌≡◌, ◌≢◌, ◌<◌, ◌∷◌, ℕ, Bool, true, false, [], Some, None, IsTrue, IfSome, All, AllPairs, Contains, length, is_none, slice_get};
ghost use Rattle.link_input.specs.declared.symbol_entry.SymbolEntry.{SymbolEntry};
ghost use Rattle.link_input.specs.declared.object.ObjectTable.{ObjectTable};
ghost use Rattle.link_input.specs.declared.table_error.TableError.TheVariants.{NullEntry, UndefinedLocal, VersionlessNotDefault, SectionRange, SignatureRange, MemberRange, HeaderTwice, HeaderIsMember, ReferenceRange, RetainRange};
ghost use Rattle.link_input.specs.Entries.{is_undefined, is_local, section_of};
ghost use Rattle.link_input.specs.Checks.{is_null, first_fault};
ghost use Rattle.link_input.specs.TableExamples.{no_symbol, undefined_local, undefined_global, defined_in, group_of, reference_of, referring, table_of};

/// What a table keeps that passes all checks, whatever its platform: a fact for each check.
pub fn accepted_tables()
    ensures null_entry { (has_null : Bool) (t : ObjectTable) → first_fault has_null t ≡ None →
        IsTrue has_null → IfSome (slice_get t.symbols 0) (λ symbol. IsTrue (is_null symbol)) }
    ensures undefined_local { (has_null : Bool) (t : ObjectTable) → first_fault has_null t ≡ None →
        (k : ℕ) (symbol : SymbolEntry) → slice_get t.symbols k ≡ Some symbol →
        IsTrue (is_undefined symbol.place) → IsTrue (is_local symbol.binding) → IsTrue has_null × (k ≡ 0) }
    ensures versionless { (has_null : Bool) (t : ObjectTable) → first_fault has_null t ≡ None →
        All (λ symbol. IsTrue (is_none symbol.version) → IsTrue symbol.is_default) t.symbols }
    ensures sections { (has_null : Bool) (t : ObjectTable) → first_fault has_null t ≡ None →
        All (λ symbol. IfSome (section_of symbol.place) (λ section. section < t.sections)) t.symbols }
    ensures signatures { (has_null : Bool) (t : ObjectTable) → first_fault has_null t ≡ None →
        All (λ group. group.signature_symbol < length t.symbols) t.groups }
    ensures members { (has_null : Bool) (t : ObjectTable) → first_fault has_null t ≡ None →
        All (λ group. All (λ section. section < t.sections) (group.index ∷ group.members)) t.groups }
    ensures header_once { (has_null : Bool) (t : ObjectTable) → first_fault has_null t ≡ None →
        AllPairs (λ group later. group.index ≢ later.index) t.groups }
    ensures header_no_member { (has_null : Bool) (t : ObjectTable) → first_fault has_null t ≡ None →
        All (λ group. All (λ other. ¬ (Contains other.members group.index)) t.groups) t.groups }
    ensures references { (has_null : Bool) (t : ObjectTable) → first_fault has_null t ≡ None →
        All (λ r. (r.from < t.sections) × (r.to < length t.symbols)) t.section_references }
    ensures retained { (has_null : Bool) (t : ObjectTable) → first_fault has_null t ≡ None →
        All (λ section. section < t.sections) t.retained_sections }
{}

/// Worked examples, which the checker computes: what the checks say of small tables, on a platform that has a null entry
/// (`true`) or has none (`false`).
pub fn checked_tables()
    ensures null_entry { first_fault true (table_of 1 (defined_in 0 ∷ []) []) ≡ Some NullEntry }
    ensures null_entry_needless { first_fault false (table_of 1 (defined_in 0 ∷ []) []) ≡ None }
    ensures null_entry_unwanted { first_fault false (table_of 1 (no_symbol ∷ []) []) ≡ Some (UndefinedLocal 0) }
    ensures undefined_local { first_fault true (table_of 1 (no_symbol ∷ undefined_local ∷ []) []) ≡ Some (UndefinedLocal 1) }
    ensures versionless { first_fault true (table_of 1 (no_symbol ∷ record undefined_global { is_default = false } ∷ []) [])
        ≡ Some (VersionlessNotDefault 1) }
    ensures section_range { first_fault true (table_of 3 (no_symbol ∷ defined_in 2 ∷ defined_in 3 ∷ []) []) ≡ Some (SectionRange 2) }
    ensures signature_range { first_fault true (table_of 3 (no_symbol ∷ []) (group_of 2 [] ∷ [])) ≡ Some (SignatureRange 0) }
    ensures member_range { first_fault true (table_of 3 (no_symbol ∷ undefined_global ∷ []) (group_of 1 (2 ∷ 9 ∷ []) ∷ []))
        ≡ Some (MemberRange 0 9) }
    ensures header_range { first_fault true (table_of 3 (no_symbol ∷ undefined_global ∷ []) (group_of 1 [] ∷ group_of 7 (9 ∷ []) ∷ []))
        ≡ Some (MemberRange 1 7) }
    ensures header_twice { first_fault true (table_of 3 (no_symbol ∷ undefined_global ∷ []) (group_of 2 [] ∷ group_of 2 [] ∷ []))
        ≡ Some (HeaderTwice 1) }
    ensures header_in_itself { first_fault true (table_of 3 (no_symbol ∷ undefined_global ∷ []) (group_of 1 [] ∷ group_of 2 (2 ∷ []) ∷ []))
        ≡ Some (HeaderIsMember 1) }
    ensures header_in_another { first_fault true (table_of 3 (no_symbol ∷ undefined_global ∷ []) (group_of 1 [] ∷ group_of 2 (1 ∷ []) ∷ []))
        ≡ Some (HeaderIsMember 0) }
    ensures reference_from { first_fault true (referring (reference_of 1 0 ∷ reference_of 2 0 ∷ []) [] (table_of 2 (no_symbol ∷ []) [])) ≡ Some (ReferenceRange 1) }
    ensures reference_to { first_fault true (referring (reference_of 1 1 ∷ []) (9 ∷ []) (table_of 2 (no_symbol ∷ []) [])) ≡ Some (ReferenceRange 0) }
    ensures retain_range { first_fault true (referring (reference_of 1 0 ∷ []) (1 ∷ 2 ∷ []) (table_of 2 (no_symbol ∷ []) [])) ≡ Some (RetainRange 1) }
    ensures references_accepted { first_fault true (referring (reference_of 0 0 ∷ reference_of 1 0 ∷ []) (0 ∷ 1 ∷ []) (table_of 2 (no_symbol ∷ []) [])) ≡ None }
    // Symbol 1 stands in a section that isn't there; the check that symbol 2 fails comes earlier.
    ensures earlier_check { first_fault true (table_of 1 (no_symbol ∷ defined_in 7 ∷ undefined_local ∷ []) []) ≡ Some (UndefinedLocal 2) }
    ensures empty { first_fault true (table_of 0 [] []) ≡ None }
    ensures empty_without_null_entry { first_fault false (table_of 0 [] []) ≡ None }
    ensures accepted { first_fault true (table_of 4 (no_symbol ∷ undefined_global ∷ defined_in 2 ∷ []) (group_of 1 (2 ∷ 3 ∷ []) ∷ [])) ≡ None }
{}
