//! Worlds whose answers the checker computes.

ghost use Rattle.std.specs.Prelude.{◌≡◌, None, Some};
ghost use Rattle.link_input.specs.declared.too_many.TooManyKind.TheVariants.{Objects};
ghost use Rattle.link_rules.specs.Refusals.{counts_at};
ghost use Rattle.link_rules.specs.World.{first_stage};
ghost use Rattle.link_input.specs.Limits.{excess, object_limit};
ghost use Rattle.link_rules_worlds.specs.Computing.{AreAnswered};
ghost use Rattle.link_rules_worlds.specs.BatchRows as batch_rows;
ghost use Rattle.link_rules_worlds.specs.BatchWorlds as batch_worlds;
ghost use Rattle.link_rules_worlds.specs.Further as further;
ghost use Rattle.link_rules_worlds.specs.GuardRows as guard_rows;
ghost use Rattle.link_rules_worlds.specs.Rows as rows;
ghost use Rattle.link_rules_worlds.specs.ScriptRows as script_rows;
ghost use Rattle.link_rules_worlds.specs.Worlds as worlds;

/// A link of each of these worlds answers the report or the refusal that stands beside it: the worked examples, and generated
/// worlds with the answers of an independent program.
pub fn worked_worlds()
    ensures rows { AreAnswered rows.all_cases }
    ensures script_rows { AreAnswered script_rows.all_cases }
    ensures guard_rows { AreAnswered guard_rows.all_cases }
    ensures batch_rows { AreAnswered batch_rows.all_cases }
    ensures further { AreAnswered further.all_cases }
    ensures generated { AreAnswered worlds.all_cases }
    ensures generated_batches { AreAnswered batch_worlds.all_cases }
{}

/// What counts for limits that no small world reaches.
pub fn limits_of_ids()
    ensures objects { excess Objects object_limit 16776700 ≡ None }
    ensures one_object_more { excess Objects object_limit 16776701 ≡ Some (record { kind = Objects; count = 16776701 }) }
    ensures custom_sections { (counts_at (first_stage further.a_custom_section)).symbols ≡ 4 }
{}
