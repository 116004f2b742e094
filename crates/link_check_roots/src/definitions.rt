//! Marks for the names that the prelude and linker scripts want to be defined or refer to.

ghost use Rattle.std.specs.Prelude.{◌≡◌, fold, if◌then◌else◌};
ghost use Rattle.std.specs.List.{flat_map};
ghost use Rattle.link_rules.specs.Loading.{is_forced_placement, targets_of_placement};
ghost use Rattle.link_check_roots.specs.Given.{forced_in, redirected_in};
ghost use Rattle.link_check_roots.specs.Marks.{marked_by};

use crate::marking::{mark_name, mark_names};
use link_check_names::LinkNames;
use link_input::{InternalSymDefInfo, ProcessedLinkerScript, SymbolPlacement};

/// Whether the user wants the name to be defined.
fn is_forced(placement: &SymbolPlacement) -> bool
    ensures { result ≡ is_forced_placement placement.now }
{
    matches!(placement, SymbolPlacement::ForceUndefined)
}

/// Marks for the name of a definition, if the user wants it to be defined.
fn mark_if_forced<'a>(marks: &mut [bool], names: &LinkNames<'a>, definition: &'a InternalSymDefInfo)
    ensures { marks.new ≡ (if is_forced_placement definition.now.placement then marked_by names.now marks.old definition.now.name
        else marks.old) }
{
    if is_forced(&definition.placement) {
        mark_name(marks, names, &definition.name);
    }
}

/// Marks for the names of these definitions that the user wants to be defined.
pub fn mark_forced<'a>(
    marks: &mut [bool],
    names: &LinkNames<'a>,
    definitions: &'a [InternalSymDefInfo],
)
    ensures { marks.new ≡ fold (marked_by names.now) marks.old (forced_in definitions.now) }
{
    for definition in definitions {
        mark_if_forced(marks, names, definition);
    }
}

/// Marks for the names that a definition refers to.
fn mark_targets<'a>(marks: &mut [bool], names: &LinkNames<'a>, definition: &'a InternalSymDefInfo)
    ensures { marks.new ≡ fold (marked_by names.now) marks.old (targets_of_placement definition.now.placement) }
{
    if let SymbolPlacement::Redirect(redirect) = &definition.placement {
        mark_names(marks, names, redirect.targets.as_slice());
    }
}

/// Marks for the names that these definitions refer to.
pub fn mark_redirects<'a>(
    marks: &mut [bool],
    names: &LinkNames<'a>,
    definitions: &'a [InternalSymDefInfo],
)
    ensures { marks.new ≡ fold (marked_by names.now) marks.old (redirected_in definitions.now) }
{
    for definition in definitions {
        mark_targets(marks, names, definition);
    }
}

/// Marks for the names that the definitions of linker scripts refer to.
pub fn mark_scripts<'a>(
    marks: &mut [bool],
    names: &LinkNames<'a>,
    scripts: &'a [ProcessedLinkerScript],
)
    ensures { marks.new ≡ fold (marked_by names.now) marks.old (redirected_in (flat_map (λ s. s.symbol_defs) scripts.now)) }
{
    for script in scripts {
        mark_redirects(marks, names, script.symbol_defs.as_slice());
    }
}
