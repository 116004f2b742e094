//! A law about first stages, as a function that does nothing.

ghost use Rattle.link_input.specs.PreludeSymbols.{prelude_symbols};
ghost use Rattle.link_rules.specs.World.{World, first_stage};
ghost use Rattle.link_check_symbols.specs.Gathered.{link_symbols};
ghost use Rattle.link_check_targets.specs.Stages.{IsFirstStage};

/// The first stage of a world has the symbols of its prelude and its first batch, and its wrapped names; nothing came before it.
pub fn a_first_stage_has_these_columns()
    ensures { (world : World) → IsFirstStage world.rules.weak_overrides_common
        (record { symbols = link_symbols (prelude_symbols world.options) world.first; wrap = world.options.wrap }) (first_stage world) }
{}
