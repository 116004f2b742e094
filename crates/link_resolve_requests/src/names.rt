//! The names whose objects are loaded whatever refers to them.

ghost use Rattle.std.specs.Prelude.{◌≡◌, ◌++◌, IfOk, OnOk, map, option_to_list};
ghost use Rattle.link_db_files.specs.Inputs.{scripts_in};
ghost use Rattle.link_db_texts.specs.Holds.{platform_of};
ghost use Rattle.link_resolve_requests.specs.Names.{forced_in, script_targets, targets_in};
ghost use Rattle.link_rules.specs.FoundRoots.{lasting_names};
ghost use Rattle.link_rules.specs.Loading.{entry_name, forced_names, redirect_targets, root_names, targets_of_placement};
ghost use Rattle.link_rules.specs.Places.{Bytes};
ghost use Rattle.link_rules.specs.World.{Stage};
ghost use Rattle.link_db.specs.Seen.{seen};
ghost use Rattle.link_db_stage.specs.AtStage.{IsAtStage};

use link_db::{SymbolDb, scripts_of};
use link_input::{InternalSymDefInfo, Options, Platform, SymbolPlacement};
use link_input_groups::{Group, SequencedLinkerScript};
use link_names::{Name, NameView};
use std::alloc::{AllocError, Global};

/// Adds names.
fn push_names<'a>(names: &mut Vec<NameView<'a>>, more: &'a [Name]) -> Result<(), AllocError>
    ensures { OnOk result (names.new.items ≡ names.old.items ++ more.now) }
{
    for name in more {
        names.push(NameView::new(name.as_slice()))?;
    }
    Ok(())
}

/// Adds the names among definitions that the user wants to be defined.
fn push_forced<'a>(
    names: &mut Vec<NameView<'a>>,
    definitions: &'a [InternalSymDefInfo],
) -> Result<(), AllocError>
    ensures { OnOk result (names.new.items ≡ names.old.items ++ forced_in definitions.now) }
{
    for definition in definitions {
        if matches!(definition.placement, SymbolPlacement::ForceUndefined) {
            names.push(NameView::new(definition.name.as_slice()))?;
        }
    }
    Ok(())
}

/// The names that a placement refers to.
fn targets_of(placement: &SymbolPlacement) -> &[Name]
    ensures { result.now ≡ targets_of_placement placement.now }
{
    match placement {
        SymbolPlacement::Redirect(redirect) => redirect.targets.as_slice(),
        _ => &[],
    }
}

/// Adds the names that the redirects among definitions refer to.
fn push_targets<'a>(
    names: &mut Vec<NameView<'a>>,
    definitions: &'a [InternalSymDefInfo],
) -> Result<(), AllocError>
    ensures { OnOk result (names.new.items ≡ names.old.items ++ targets_in definitions.now) }
{
    for definition in definitions {
        push_names(names, targets_of(&definition.placement))?;
    }
    Ok(())
}

/// Adds the names that the user wants to be defined.
fn push_forced_names<'a>(
    names: &mut Vec<NameView<'a>>,
    options: &'a Options,
) -> Result<(), AllocError>
    ensures { OnOk result (names.new.items ≡ names.old.items ++ forced_names options.now) }
{
    push_forced(names, options.linker_symbols.as_slice())?;
    push_names(names, options.force_undefined.as_slice())?;
    push_forced(names, options.defsym.as_slice())?;
    Ok(())
}

/// Adds the names that the redirects of linker scripts refer to.
fn push_script_targets<'a>(
    names: &mut Vec<NameView<'a>>,
    scripts: &'a [SequencedLinkerScript],
) -> Result<(), AllocError>
    ensures { OnOk result (names.new.items ≡ names.old.items ++ script_targets (map (λ s. s.parsed) scripts.now)) }
{
    for script in scripts {
        push_targets(names, script.parsed.symbol_defs.as_slice())?;
    }
    Ok(())
}

/// Adds the names that the redirects of the linker scripts of groups refer to.
fn push_group_targets<'a, P: Platform>(
    names: &mut Vec<NameView<'a>>,
    groups: &'a [Group<P>],
) -> Result<(), AllocError>
    ensures { OnOk result (names.new.items ≡ names.old.items ++ script_targets (scripts_in groups.now)) }
{
    for group in groups {
        push_script_targets(names, scripts_of(group))?;
    }
    Ok(())
}

/// Adds the names that the redirects of the prelude and of the linker scripts refer to.
fn push_redirect_targets<'a, P: Platform>(
    names: &mut Vec<NameView<'a>>,
    options: &'a Options,
    groups: &'a [Group<P>],
) -> Result<(), AllocError>
    ensures { OnOk result ((w : Stage) → w.options ≡ options.now → w.scripts ≡ scripts_in groups.now → names.new.items ≡ names.old.items ++ redirect_targets w) }
{
    push_targets(names, options.linker_symbols.as_slice())?;
    push_targets(names, options.defsym.as_slice())?;
    push_group_targets(names, groups)?;
    Ok(())
}

/// Adds the name of the entry point, if there is one.
fn push_entry<'a, P: Platform>(
    names: &mut Vec<NameView<'a>>,
    db: &'a SymbolDb<P>,
) -> Result<(), AllocError>
    ensures { OnOk result ((demangle : Bytes → Bytes) (w : Stage) → IsAtStage (platform_of P.Platform) demangle (seen db.now) w
        → names.new.items ≡ names.old.items ++ option_to_list (entry_name w)) }
{
    if let Some(name) = db.entry_symbol_name() {
        names.push(NameView::new(name))?;
    }
    Ok(())
}

/// Adds the root names but for the entry.
fn push_lasting<'a, P: Platform>(
    names: &mut Vec<NameView<'a>>,
    db: &'a SymbolDb<P>,
) -> Result<(), AllocError>
    ensures { OnOk result ((demangle : Bytes → Bytes) (w : Stage) → IsAtStage (platform_of P.Platform) demangle (seen db.now) w
        → names.new.items ≡ names.old.items ++ lasting_names w) }
{
    push_names(names, db.required_export_symbols())?;
    push_forced_names(names, db.options())?;
    push_redirect_targets(names, db.options(), db.groups())?;
    Ok(())
}

/// The names whose objects are loaded whatever refers to them: the entry, the names that must be exported, those that the user wants to
/// be defined, and those that redirects refer to. The only refusal is want of memory.
pub fn root_names<'a, P: Platform>(
    alloc: Global,
    db: &'a SymbolDb<P>,
) -> Result<Vec<NameView<'a>>, AllocError>
    ensures { IfOk result (λ names. (demangle : Bytes → Bytes) (w : Stage) → IsAtStage (platform_of P.Platform) demangle (seen db.now) w → names.items ≡ root_names w) }
{
    let mut names = Vec::new(alloc);
    push_entry(&mut names, db)?;
    push_lasting(&mut names, db)?;
    Ok(names)
}

/// The root names but for the entry, in their order: those of a later batch stand behind those of an earlier one. The only refusal is
/// want of memory.
pub fn lasting_names<'a, P: Platform>(
    alloc: Global,
    db: &'a SymbolDb<P>,
) -> Result<Vec<NameView<'a>>, AllocError>
    ensures { IfOk result (λ names. (demangle : Bytes → Bytes) (w : Stage) → IsAtStage (platform_of P.Platform) demangle (seen db.now) w → names.items ≡ lasting_names w) }
{
    let mut names = Vec::new(alloc);
    push_lasting(&mut names, db)?;
    Ok(names)
}

/// The names that a link itself refers to: the entry, and those that redirects refer to. The only refusal is want of memory.
pub fn referred_names<'a, P: Platform>(
    alloc: Global,
    db: &'a SymbolDb<P>,
) -> Result<Vec<NameView<'a>>, AllocError>
    ensures { IfOk result (λ names. (demangle : Bytes → Bytes) (w : Stage) → IsAtStage (platform_of P.Platform) demangle (seen db.now) w
        → names.items ≡ option_to_list (entry_name w) ++ redirect_targets w) }
{
    let mut names = Vec::new(alloc);
    push_entry(&mut names, db)?;
    push_redirect_targets(&mut names, db.options(), db.groups())?;
    Ok(names)
}
