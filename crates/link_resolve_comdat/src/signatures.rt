//! Which groups of an object are kept, where the signatures of the objects before it are known.

ghost use Rattle.std.specs.Prelude.{◌≡◌, ◌++◌, ◌||◌, ◌&&◌, ◌<◌, [], ◌∷◌, not, IfOk, OnOk, IfSome, Some, length, slice_get, option_map};
ghost use Rattle.std.specs.Str.{bytes_eq};
ghost use Rattle.link_rules.specs.Places.{Bytes};
ghost use Rattle.link_rules.specs.Comdat.{groups_of};
ghost use Rattle.link_resolve_comdat.specs.InOrder.{is_met, met_with, kept_in_order, comdats_told};
ghost use Rattle.link_resolve_comdat.specs.Selected.{told};

use crate::candidate::Candidate;
use link_input::Platform;
use link_names::{Name, Seq};
use link_rules::KeptGroup;
use std::alloc::{AllocError, Global};
use std::collections::HashSet;

/// A group is kept that is no COMDAT group, or the first one that is met of its signature, which is noted.
fn is_first_met<'a>(
    signatures: &mut HashSet<&'a [u8]>,
    is_comdat: bool,
    signature: &'a [u8],
) -> Result<bool, AllocError>
    ensures kept { IfOk result (λ kept. kept ≡ (not is_comdat || not (is_met signatures.old signature.now))) }
    ensures met { OnOk result ((name : Bytes) → is_met signatures.new name ≡ (is_met signatures.old name || (is_comdat && bytes_eq name signature.now))) }
{
    if !is_comdat {
        return Ok(true);
    }
    Ok(signatures.insert(signature)?)
}

/// Of each group of an object whether it is kept. The signatures of its COMDAT groups are noted.
pub fn kept_groups<'a, P: Platform>(
    alloc: Global,
    signatures: &mut HashSet<&'a [u8]>,
    candidate: &Candidate<'a, P>,
) -> Result<Vec<bool>, AllocError>
    ensures kept { IfOk result (λ kept. kept.items ≡ kept_in_order (is_met signatures.old) (groups_of candidate.now)) }
    ensures met { OnOk result ((name : Bytes) → is_met signatures.new name ≡ met_with (is_met signatures.old) (groups_of candidate.now) name) }
{
    let object = candidate.parsed.object();
    let mut kept = Vec::new(alloc);
    for group in 0..object.groups().len() {
        let is_comdat = object.group(group).is_comdat;
        let signature = object.signature(group).name().as_slice();
        kept.push(is_first_met(signatures, is_comdat, signature)?)?;
    }
    Ok(kept)
}

/// What is told of the group at this place.
fn told_group<P: Platform>(
    alloc: Global,
    candidate: &Candidate<'_, P>,
    group: usize,
) -> Result<KeptGroup, AllocError>
    requires { group < length candidate.now.1.object.groups }
    ensures { IfOk result (λ kept. option_map told (slice_get (groups_of candidate.now) group) ≡ Some kept) }
{
    let object = candidate.parsed.object();
    Ok(KeptGroup {
        object: candidate.place,
        group,
        signature: Name::from_slice(alloc, object.signature(group).name().as_slice())?,
    })
}

/// Tells of the group at this place, if it is a COMDAT group that is kept.
fn tell_comdat<P: Platform>(
    alloc: Global,
    comdats: &mut Seq<KeptGroup>,
    candidate: &Candidate<'_, P>,
    group: usize,
    is_kept: bool,
) -> Result<(), AllocError>
    requires { group < length candidate.now.1.object.groups }
    ensures { OnOk result (IfSome (slice_get (groups_of candidate.now) group)
        (λ g. comdats.new ≡ comdats.old ++ comdats_told (g ∷ []) (is_kept ∷ []))) }
{
    if !is_kept {
        return Ok(());
    }
    let object = candidate.parsed.object();
    if !object.group(group).is_comdat {
        return Ok(());
    }
    comdats.push(told_group(alloc, candidate, group)?)?;
    Ok(())
}

/// Tells of the COMDAT groups of an object that are kept.
pub fn tell_comdats<P: Platform>(
    alloc: Global,
    comdats: &mut Seq<KeptGroup>,
    candidate: &Candidate<'_, P>,
    kept: &[bool],
) -> Result<(), AllocError>
    requires { length kept.now ≡ length candidate.now.1.object.groups }
    ensures { OnOk result (comdats.new ≡ comdats.old ++ comdats_told (groups_of candidate.now) kept.now) }
{
    for (group, is_kept) in kept.iter().enumerate() {
        tell_comdat(alloc, comdats, candidate, group, *is_kept)?;
    }
    Ok(())
}
