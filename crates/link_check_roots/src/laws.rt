//! A law about first stages, as a function that does nothing.

ghost use Rattle.link_input.specs.PreludeSymbols.{prelude_symbols};
ghost use Rattle.link_rules.specs.World.{World, first_stage};
ghost use Rattle.link_check_symbols.specs.Gathered.{link_symbols};
ghost use Rattle.link_check_roots.specs.Stages.{IsRootStage};

/// The first stage of a world has the roots of its first batch and its options, by the names of its prelude and that batch.
pub fn a_first_stage_has_these_roots()
    ensures { (world : World) → IsRootStage (prelude_symbols world.options) world.first world.options world.rules.required_exports
        (record { symbols = link_symbols (prelude_symbols world.options) world.first; wrap = world.options.wrap }) (first_stage world) }
{}
