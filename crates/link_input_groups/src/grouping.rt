//! The inputs of a link are put into groups, one batch after another.

ghost use Rattle.std.specs.Prelude.{◌≡◌, ◌+◌, ◌<◌, ◌≤◌, ◌^◌, ◌⊎◌, ◌++◌, [], ◌∷◌, List, Some, None, IfOk, IfErr, OnOk, length, map, option_map};
ghost use Rattle.std.specs.List.{flat_map};
ghost use Rattle.link_input_groups.specs.declared.groups_error.GroupsError.TheVariants.{Memory};
ghost use Rattle.link_input.specs.InputFiles.{Batch, InputFile, batch_of};
ghost use Rattle.link_input.specs.Limits.{AreWithinLimits, batch_limit, counts_of, first_excess};
ghost use Rattle.link_input.specs.SequencedFiles.{sequenced};
ghost use Rattle.link_input_groups.specs.Asked.{AllCanBeAsked};
ghost use Rattle.link_input_groups.specs.FileCounts.{AreSmall, counts_in, counts_with, too_many};
ghost use Rattle.link_input_groups.specs.Groups.{files_of};
ghost use Rattle.link_input_groups.specs.GroupsAdded.{group_files};
ghost use Rattle.link_input_groups.specs.Grouping.{AreGrouped, first_groups};
ghost use Rattle.link_input_groups.specs.Held.{AreGroupsOf};

use crate::counting::{FileCounts, counts_of_groups};
use crate::cut::{cut_objects, symbol_limit};
use crate::group::Group;
use crate::groups_error::GroupsError;
use crate::limits::{first_excess, object_symbols, prelude_symbol_count};
use crate::pushing::{push_object_groups, push_scripts, push_stubs};
use crate::sequencing::NextIds;
use link_input::{Inputs, Options, Platform, Prelude};
use std::alloc::{AllocError, Global};

/// The prelude's group, where no group is held.
fn first_groups<P: Platform>(
    alloc: Global,
    options: &Options,
    held: &[Group<P>],
) -> Result<Vec<Group<P>>, AllocError>
    ensures { IfOk result (λ groups. groups.items ≡ first_groups options.now held.now) }
{
    let mut groups = Vec::new(alloc);
    if held.is_empty() {
        groups.push(Group::Prelude(Prelude::new(alloc, options)?))?;
    }
    Ok(groups)
}

/// What is counted of the files before those of a batch: the prelude's, where no group is held, and otherwise those of the held
/// groups.
fn counts_before<P: Platform>(options: &Options, held: &[Group<P>]) -> FileCounts
    requires asked { AllCanBeAsked held.now }
    requires ids { (files : List InputFile) × (flat_map files_of held.now ≡ sequenced 0 0 files) }
    requires small { AreSmall (counts_in (flat_map files_of held.now)) }
    ensures value { result ≡ counts_in (flat_map files_of (held.now ++ first_groups options.now held.now)) }
    ensures small { AreSmall result }
{
    if held.is_empty() {
        let mut counts = FileCounts::none();
        counts.symbols = prelude_symbol_count(options);
        counts
    } else {
        counts_of_groups(held)
    }
}

/// The groups of inputs that ids can name, behind those that are held.
fn groups_within_limits<P: Platform>(
    alloc: Global,
    options: &Options,
    held: &[Group<P>],
    before: FileCounts,
    inputs: Inputs<P>,
    workers: usize,
) -> Result<Vec<Group<P>>, AllocError>
    requires workers { workers ≤ 256 }
    requires files { (1 ≤ options.now.files_per_group) × (options.now.files_per_group ≤ 256) }
    requires before { before ≡ counts_in (flat_map files_of (held.now ++ first_groups options.now held.now)) }
    requires limits { AreWithinLimits (counts_with options.now before (batch_of inputs)) }
    requires room { length held.now + length inputs.objects + 3 ≤ 2 ^ 24 }
    ensures follow { IfOk result (λ groups. (batches : List Batch) → AreGroupsOf options.now batches held.now → AreGroupsOf options.now (batches ++ batch_of inputs ∷ []) (held.now ++ groups.items)) }
    ensures groups { IfOk result (λ groups. AreGrouped options.now held.now (batch_of inputs) workers (map group_files groups.items)) }
{
    let Inputs {
        objects,
        scripts,
        stubs,
    } = inputs;
    let limit = symbol_limit(workers, object_symbols(objects.as_slice()));
    let files = options.files_per_group as usize;
    let cuts = cut_objects(alloc, objects.into_vec(), files, limit)?;
    let mut groups = first_groups(alloc, options, held)?;
    let mut next = NextIds {
        symbols: before.symbols as usize,
        sections: before.sections as usize,
    };
    push_object_groups(alloc, cuts, held, &mut groups, &mut next)?;
    push_scripts(alloc, scripts.into_vec(), held, &mut groups, &mut next)?;
    push_stubs(alloc, stubs.into_vec(), held, &mut groups, &mut next)?;
    Ok(groups)
}

/// Puts a batch of inputs into groups, which are read side by side: the objects, at most `files_per_group` of them in a group and
/// only so many as give each worker several groups; the linker scripts; and the stub libraries, where there are any. The groups
/// follow those of `held`, the groups of earlier batches with the same options, all in order; before the first batch there is
/// none, and its groups begin with the prelude's. A link has at most 256 batches, so fewer may be held. The ids of files, symbols
/// and sections run on over all batches, and those of symbols and sections are the same for any number of workers.
///
/// It is refused with `TooMany` where the link has, with the batches before, more of some kind than ids can name, and with
/// `Memory`.
pub fn create_groups<P: Platform>(
    alloc: Global,
    options: &Options,
    held: &[Group<P>],
    inputs: Inputs<P>,
    workers: usize,
) -> Result<Vec<Group<P>>, GroupsError>
    requires workers { (1 ≤ workers) × (workers ≤ 256) }
    requires files { (1 ≤ options.now.files_per_group) × (options.now.files_per_group ≤ 256) }
    requires held { (batches : List Batch) × AreGroupsOf options.now batches held.now × (length batches < batch_limit) }
    ensures follow { IfOk result (λ groups. (batches : List Batch) → AreGroupsOf options.now batches held.now → AreGroupsOf options.now (batches ++ batch_of inputs ∷ []) (held.now ++ groups.items)) }
    ensures groups { IfOk result (λ groups. AreGrouped options.now held.now (batch_of inputs) workers (map group_files groups.items)) }
    ensures within { OnOk result ((batches : List Batch) → AreGroupsOf options.now batches held.now → first_excess (counts_of options.now (batches ++ batch_of inputs ∷ [])) ≡ None) }
    ensures refused { IfErr result (λ error. (batches : List Batch) → AreGroupsOf options.now batches held.now → (option_map too_many (first_excess (counts_of options.now (batches ++ batch_of inputs ∷ []))) ≡ Some error) ⊎ (error ≡ Memory)) }
{
    let before = counts_before(options, held);
    if let Some(error) = first_excess(options, before, &inputs) {
        return Err(error);
    }
    Ok(groups_within_limits(alloc, options, held, before, inputs, workers)?)
}
