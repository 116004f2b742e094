//! Laws: functions that do nothing, whose clauses say how lists of rivals make the tables, lines and flags of a link.

ghost use Rattle.std.specs.Prelude.{◌≡◌, ℕ, List, length, map};
ghost use Rattle.link_rules.specs.Places.{each_from};
ghost use Rattle.link_rules.specs.Refusals.{plain_duplicates, versioned_duplicates};
ghost use Rattle.link_rules.specs.Rivals.{plain_table, reference_table, versioned_table};
ghost use Rattle.link_rules.specs.Selection.{Selection};
ghost use Rattle.link_rules.specs.Visibility.{narrowed_symbol};
ghost use Rattle.link_rules.specs.World.{Stage};
ghost use Rattle.link_resolve_rivals.specs.Lists.{AreLists, plain_lists, versioned_lists};
ghost use Rattle.link_resolve_rivals.specs.Narrowed.{narrowed};
ghost use Rattle.link_resolve_rivals.specs.Settled.{clash_line, clashes, settled_table};

/// The definitions of plain names are lists of rivals, and so are those of names with versions.
pub fn names_make_lists()
    ensures plain { (w : Stage) → AreLists (plain_lists w) (length w.symbols) }
    ensures versioned { (w : Stage) → AreLists (versioned_lists w) (length w.symbols) }
{}

/// Settling plain names over what references give, and then names with versions, gives the tables of a link.
pub fn settling_gives_the_tables()
    ensures plain { (l : Selection) → settled_table l (plain_lists l.stage) (reference_table l) ≡ plain_table l }
    ensures versioned { (l : Selection) → settled_table l (versioned_lists l.stage) (plain_table l) ≡ versioned_table l }
{}

/// The clashes that are told, each as its line, are the duplicates of a link.
pub fn clashes_are_the_duplicates()
    ensures plain { (l : Selection) → map (clash_line l.stage) (clashes l (plain_lists l.stage) (reference_table l)) ≡ plain_duplicates l }
    ensures versioned { (l : Selection) → map (clash_line l.stage) (clashes l (versioned_lists l.stage) (plain_table l))
        ≡ versioned_duplicates l (plain_table l) }
{}

/// Narrowing by plain names, and then by names with versions, joins each symbol's flags with those of its two lists.
pub fn narrowing_twice_joins_both()
    ensures { (w : Stage) (flags : List ℕ) → narrowed w (versioned_lists w) (narrowed w (plain_lists w) flags)
        ≡ each_from (narrowed_symbol w flags) 0 w.symbols }
{}
