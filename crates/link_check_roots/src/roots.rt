//! The roots of a link: the objects that are loaded whatever refers to them.

ghost use Rattle.std.specs.Prelude.{◌≡◌, ℕ, IfOk, fold, map, not, option_to_list};
ghost use Rattle.link_closure.specs.Closure.{is_marked};
ghost use Rattle.link_input.specs.InputFiles.{batch_of};
ghost use Rattle.link_input.specs.ObjectFile.{is_optional};
ghost use Rattle.link_rules.specs.Loading.{is_root};
ghost use Rattle.link_rules.specs.World.{Stage};
ghost use Rattle.link_check_roots.specs.Given.{entry_in, given_names};
ghost use Rattle.link_check_roots.specs.Marks.{marked_by};
ghost use Rattle.link_check_roots.specs.Stages.{IsRootStage};

use crate::definitions::{mark_forced, mark_redirects, mark_scripts};
use crate::entry::entry_name;
use crate::marking::{mark_name, mark_names};
use link_check_names::LinkNames;
use link_input::{
    Inputs, InternalSymDefInfo, Options, ParsedInputObject, Platform, Prelude,
    ProcessedLinkerScript,
};
use link_names::Name;
use std::alloc::{AllocError, Global};

/// Whether an object is linked even where nothing asks for it: it is no member of an archive that isn't taken whole, and no shared object
/// that is taken only as needed.
fn is_required<P: Platform>(object: &ParsedInputObject<P>) -> bool
    ensures { result ≡ not (is_optional object.now) }
{
    let modifiers = object.modifiers();
    let is_member = modifiers.archive && !modifiers.whole_archive;
    let is_as_needed = object.is_dynamic() && modifiers.as_needed;
    !(is_member || is_as_needed)
}

/// A mark for each object that is linked even where nothing asks for it.
fn required_marks<P: Platform>(
    alloc: Global,
    objects: &[ParsedInputObject<P>],
) -> Result<Vec<bool>, AllocError>
    ensures { IfOk result (λ marks. marks.items ≡ map (λ o. not (is_optional o)) objects.now) }
{
    let mut marks = Vec::with_capacity(alloc, objects.len())?;
    for object in objects {
        marks.push(is_required(object))?;
    }
    Ok(marks)
}

/// Marks for the entry, if there is one.
fn mark_entry<'a>(
    marks: &mut [bool],
    names: &LinkNames<'a>,
    options: &'a Options,
    scripts: &'a [ProcessedLinkerScript],
)
    ensures { marks.new ≡ fold (marked_by names.now) marks.old (option_to_list (entry_in options.now scripts.now)) }
{
    if let Some(entry) = entry_name(options, scripts) {
        mark_name(marks, names, entry);
    }
}

/// Marks the objects that hold what root names are mapped to.
fn mark_given_names<'a>(
    marks: &mut [bool],
    names: &LinkNames<'a>,
    options: &'a Options,
    definitions: &'a [InternalSymDefInfo],
    scripts: &'a [ProcessedLinkerScript],
    required: &'a [Name],
)
    ensures { marks.new ≡ fold (marked_by names.now) marks.old (given_names options.now definitions.now scripts.now required.now) }
{
    mark_entry(marks, names, options, scripts);
    mark_names(marks, names, required);
    mark_forced(marks, names, definitions);
    mark_redirects(marks, names, definitions);
    mark_scripts(marks, names, scripts);
}

/// The roots of a link of one batch, a mark for each object: those that are not optional, and those that hold what a root name is mapped
/// to. Root names are the entry, the names whose export is required, the names that the user wants to be defined, and those that the
/// redirects of the prelude and of the linker scripts refer to. The names are those of the link's symbols. The only refusal is want of
/// memory.
pub fn root_marks<'a, P: Platform>(
    alloc: Global,
    prelude: &'a Prelude,
    inputs: &'a Inputs<P>,
    options: &'a Options,
    required: &'a [Name],
    names: &LinkNames<'a>,
) -> Result<Vec<bool>, AllocError>
    ensures { IfOk result (λ marks. (w : Stage) → IsRootStage prelude.now (batch_of inputs.now) options.now required.now names.now w
        → (f : ℕ) → is_root w f ≡ is_marked marks.items f) }
{
    let mut marks = required_marks(alloc, inputs.objects.as_slice())?;
    mark_given_names(
        &mut marks,
        names,
        options,
        prelude.symbols(),
        inputs.scripts.as_slice(),
        required,
    );
    Ok(marks)
}
