//! Whether a claim holds.

ghost use Rattle.std.specs.Prelude.{◌≡◌, ◌<◌, ◌^◌, [], IfOk, length};
ghost use Rattle.link_input.specs.InputFiles.{batch_of};
ghost use Rattle.link_input.specs.PreludeSymbols.{prelude_symbols};
ghost use Rattle.link_rules.specs.Comdat.{loaded_groups};
ghost use Rattle.link_rules.specs.Places.{Bytes};
ghost use Rattle.link_rules.specs.Selection.{selection_of};
ghost use Rattle.link_rules.specs.Undefined.{final_table};
ghost use Rattle.link_rules.specs.World.{first_stage, world_of};
ghost use Rattle.link_check_claims.specs.Claims.{AreLoaded};
ghost use Rattle.link_check_symbols.specs.Gathered.{link_symbols};
ghost use Rattle.link_check_targets.specs.Stages.{stage_targets};
ghost use Rattle.link_check_texts.specs.Causes.{TellsCause, opening_refusal};
ghost use Rattle.link_check_texts.specs.Given.{given_of, platform_of};
ghost use Rattle.link_check.specs.Verdicts.{IsVerdict};

use crate::comparing::{are_same, first_difference};
use crate::marking::claimed_marks;
use crate::table::loaded_targets;
use crate::verdict::Verdict;
use link_check_claims::Claim;
use link_check_groups::LoadedGroups;
use link_check_loaded::are_loaded;
use link_check_names::{LinkNames, wrapped_names};
use link_check_rivals::LoadedSymbols;
use link_check_roots::root_marks;
use link_check_symbols::{SymbolView, symbols};
use link_check_targets::{reference_targets, requests};
use link_check_texts::open_link;
use link_check_undefined::final_table;
use link_ids::SymbolId;
use link_input::{Platform, Prelude, World};
use link_names::Name;
use link_rules::LinkError;
use std::alloc::{AllocError, Global};

/// What each symbol points to at the end, where these objects are loaded and these are their groups. The targets are those of all references.
fn due_table<P: Platform>(
    alloc: Global,
    world: &World<P>,
    names: &LinkNames,
    targets: &[Option<SymbolId>],
    marks: &[bool],
    groups: &LoadedGroups,
) -> Result<Vec<usize>, AllocError>
    requires { length names.now.symbols < 2 ^ 32 }
    ensures { IfOk result (λ table. (demangle : Bytes → Bytes) → let w = first_stage (world_of (platform_of P.Platform) demangle (given_of world.now)) in
        names.now ≡ record { symbols = w.symbols; wrap = w.options.wrap } → targets.now ≡ stage_targets w → groups.now ≡ loaded_groups w marks.now
        → table.items ≡ final_table (selection_of w marks.now)) }
{
    let symbols = names.symbols();
    let targets = loaded_targets(alloc, symbols, targets, marks)?;
    let strengths = groups.surviving_strengths(alloc, symbols, marks)?;
    let loaded = LoadedSymbols {
        names,
        strengths: &strengths,
        marks,
        weak_overrides_common: P::WEAK_SYMBOLS_OVERRIDE_COMMON,
        allow_multiple: world.options.allow_multiple,
    };
    let table = loaded.versioned_table(alloc, &targets)?;
    let sections = world.options.custom_sections.as_slice();
    final_table(alloc, symbols, marks, &targets, sections, &table)
}

/// The verdict on a claim whose objects are those that are loaded.
fn verdict_behind_loaded<P: Platform>(
    alloc: Global,
    world: &World<P>,
    names: &LinkNames,
    targets: &[Option<SymbolId>],
    claim: &Claim,
) -> Result<Verdict, AllocError>
    requires { length names.now.symbols < 2 ^ 32 }
    ensures { IfOk result (λ verdict. (demangle : Bytes → Bytes) → let world = world_of (platform_of P.Platform) demangle (given_of world.now) in
        let w = first_stage world in names.now ≡ record { symbols = w.symbols; wrap = w.options.wrap } → targets.now ≡ stage_targets w
        → AreLoaded w claim.now.loaded → IsVerdict world claim.now verdict) }
{
    let objects = world.inputs.objects.as_slice();
    let marks = claimed_marks(alloc, claim.loaded.as_slice(), objects.len())?;
    let groups = LoadedGroups::new(alloc, objects, &marks)?;
    let kept = groups.kept_comdats(alloc)?;
    if !are_same(claim.kept.as_slice(), &kept) {
        return Ok(Verdict::FailsKept);
    }
    let table = due_table(alloc, world, names, targets, &marks, &groups)?;
    match first_difference(claim.table.as_slice(), &table) {
        Some(id) => Ok(Verdict::FailsTable(id)),
        None => Ok(Verdict::Holds),
    }
}

/// The verdict on a claim of a link with these symbols, of which these names must be exported.
fn verdict_on<P: Platform>(
    alloc: Global,
    world: &World<P>,
    prelude: &Prelude,
    symbols: &[SymbolView],
    required: &[Name],
    claim: &Claim,
) -> Result<Verdict, AllocError>
    requires few { length symbols.now < 2 ^ 32 }
    requires prelude { prelude.now ≡ prelude_symbols world.now.options }
    requires symbols { symbols.now ≡ link_symbols prelude.now (batch_of world.now.inputs) }
    ensures { IfOk result (λ verdict. (demangle : Bytes → Bytes) → let w = world_of (platform_of P.Platform) demangle (given_of world.now) in
        required.now ≡ w.rules.required_exports → IsVerdict w claim.now verdict) }
{
    let wraps = wrapped_names(alloc, world.options.wrap.as_slice())?;
    let names = LinkNames::new(alloc, symbols, &wraps)?;
    let targets = reference_targets(alloc, &names, P::WEAK_SYMBOLS_OVERRIDE_COMMON)?;
    let requests = requests(alloc, symbols, &targets)?;
    let options = &world.options;
    let roots = root_marks(alloc, prelude, &world.inputs, options, required, &names)?;
    let loaded = claim.loaded.as_slice();
    if !are_loaded(alloc, symbols, &requests, &roots, loaded)? {
        return Ok(Verdict::FailsLoaded);
    }
    verdict_behind_loaded(alloc, world, &names, &targets, claim)
}

/// Whether a claim of a link of this world holds, or which part of it is the first to fail: the loaded objects with their reasons, the kept COMDAT
/// groups, the table. The world needs to have one batch, which is what a claim speaks of.
///
/// Nothing is judged where the link is refused before any object is loaded: with the first text that can't be read, a second version script among
/// the linker scripts, more of something than ids can name, or no object, in this order. Later causes aren't asked. `Memory` comes where memory
/// runs out.
pub fn check_claim<P: Platform>(
    alloc: Global,
    world: &World<P>,
    claim: &Claim,
) -> Result<Verdict, LinkError>
    requires one_batch { world.now.later ≡ [] }
    ensures verdict { IfOk result (λ verdict. (demangle : Bytes → Bytes)
        → IsVerdict (world_of (platform_of P.Platform) demangle (given_of world.now)) claim.now verdict) }
    ensures cause { (demangle : Bytes → Bytes) → TellsCause (opening_refusal (world_of (platform_of P.Platform) demangle (given_of world.now))) result }
{
    let prelude = Prelude::new(alloc, &world.options)?;
    let gathered = symbols(alloc, &prelude, &world.inputs)?;
    let symbols = gathered.as_slice();
    match open_link(alloc, world, symbols.len()) {
        Ok(required) => {
            let required = required.as_slice();
            Ok(verdict_on(alloc, world, &prelude, symbols, required, claim)?)
        }
        Err(error) => Err(error),
    }
}
