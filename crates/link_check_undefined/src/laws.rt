//! A law about what columns tell, as a function that does nothing.

ghost use Rattle.std.specs.Prelude.{Bool, List};
ghost use Rattle.link_rules.specs.Rivals.{versioned_table};
ghost use Rattle.link_rules.specs.Selection.{Selection, selection_of};
ghost use Rattle.link_rules.specs.World.{Stage};
ghost use Rattle.link_check_targets.specs.Stages.{stage_targets};
ghost use Rattle.link_check_undefined.specs.Told.{TellsOf};

/// The columns of a selection tell of it, and so do the targets of all references of its stage.
pub fn these_columns_tell_of_a_selection()
    ensures own { (l : Selection) → TellsOf l.stage.symbols l.marks l.targets l.stage.options.custom_sections (versioned_table l) l }
    ensures all { (w : Stage) (marks : List Bool)
        → TellsOf w.symbols marks (stage_targets w) w.options.custom_sections (versioned_table (selection_of w marks))
        (selection_of w marks) }
{}
