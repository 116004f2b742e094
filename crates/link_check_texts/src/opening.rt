//! What comes before anything is loaded.

ghost use Rattle.std.specs.Prelude.{◌≡◌, ◌<◌, ◌^◌, IfOk, length};
ghost use Rattle.link_input.specs.InputFiles.{batch_of};
ghost use Rattle.link_rules.specs.Places.{Bytes};
ghost use Rattle.link_rules.specs.Rules.{list_of};
ghost use Rattle.link_rules.specs.World.{first_stage, world_of};
ghost use Rattle.link_check_texts.specs.Causes.{TellsCause, opening_refusal, refusal_with};
ghost use Rattle.link_check_texts.specs.Given.{given_of, platform_of};

use crate::limits::check_counts;
use crate::scripts::check_scripts;
use crate::texts::required_exports;
use link_input::{Platform, World};
use link_names::{Name, Seq};
use link_rules::LinkError;
use std::alloc::Global;

/// The names that a link of the first batch must export, where nothing refuses it before anything is loaded. The batch has so many symbols, with
/// those of the prelude.
///
/// It is refused with the first cause in this order, and with `Memory` where memory ran out: a text of the options that can't be read; of
/// the linker scripts, one whose version script is a second one, or can't be read; more of something than ids can name; no object.
pub fn open_link<P: Platform>(
    alloc: Global,
    world: &World<P>,
    num_symbols: usize,
) -> Result<Seq<Name>, LinkError>
    ensures cause { (demangle : Bytes → Bytes) → let w = world_of (platform_of P.Platform) demangle (given_of world.now) in
        length (first_stage w).symbols ≡ num_symbols → TellsCause (opening_refusal w) result }
    ensures required { IfOk result (λ names. (demangle : Bytes → Bytes)
        → names ≡ (world_of (platform_of P.Platform) demangle (given_of world.now)).rules.required_exports) }
    ensures few { IfOk result (λ _. num_symbols < 2 ^ 32) }
{
    read_in_order(alloc, world, num_symbols)
}

/// The same, cause by cause.
fn read_in_order<P: Platform>(
    alloc: Global,
    world: &World<P>,
    num_symbols: usize,
) -> Result<Seq<Name>, LinkError>
    ensures cause { TellsCause (refusal_with (platform_of P.Platform) world.now.options world.now.scripts (batch_of world.now.inputs) num_symbols) result }
    ensures required { IfOk result (λ names. names ≡ (list_of (platform_of P.Platform) world.now.options.script_profile world.now.scripts.export_list).required) }
    ensures few { IfOk result (λ _. num_symbols < 2 ^ 32) }
{
    let options = &world.options;
    let texts = &world.scripts;
    let required = required_exports::<P>(alloc, options, texts)?;
    let is_taken = texts.version_script.is_some();
    let scripts = world.inputs.scripts.as_slice();
    check_scripts(alloc, is_taken, scripts, options.script_profile)?;
    check_counts(options, &world.inputs, num_symbols)?;
    Ok(required)
}
