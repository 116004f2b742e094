//! What a summary counts of the loaded objects.

ghost use Rattle.std.specs.Prelude.{◌≡◌, ◌==◌, ◌&&◌, IfOk, count_by, not};
ghost use Rattle.std.specs.HashSet.{contains};
ghost use Rattle.std.specs.List.{enumerate_from};
ghost use Rattle.link_input.specs.Limits.{total};
ghost use Rattle.link_rules.specs.Comdat.{GroupPlace as Place, is_same_place};
ghost use Rattle.link_report.specs.Summary.{discarded_of, is_kept};

use link_input::{Platform, SectionGroup};
use link_resolve_comdat::Candidate;
use link_rules::KeptGroup;
use std::alloc::{AllocError, Global};
use std::collections::HashSet;

/// The place of a group's object among all objects, and of the group among those of the object.
type GroupPlace = (usize, usize);

/// How many of the objects don't stand first.
pub(crate) fn member_count<P: Platform>(objects: &[Candidate<'_, P>]) -> usize
    ensures { result ≡ count_by (λ o. not (o.0 == 0)) objects.now }
{
    objects.iter().filter(|object| object.place != 0).count()
}

/// The places of groups.
fn places_of(alloc: Global, groups: &[KeptGroup]) -> Result<HashSet<GroupPlace>, AllocError>
    ensures { IfOk result (λ places. (place : Place) → contains is_same_place places place ≡ is_kept groups.now place) }
{
    let mut places = HashSet::new(alloc);
    for group in groups {
        places.insert((group.object, group.group))?;
    }
    Ok(places)
}

/// How many COMDAT groups among those of the object at this place stand at none of the kept places.
fn discarded_among(kept: &HashSet<GroupPlace>, object: usize, groups: &[SectionGroup]) -> usize
    ensures { result ≡ count_by (λ g. g.1.is_comdat && not (contains is_same_place kept.now (object, g.0))) (enumerate_from 0 groups.now) }
{
    groups
        .iter()
        .enumerate()
        .filter(|(place, group)| group.is_comdat && !kept.contains(&(object, *place)))
        .count()
}

/// How many COMDAT groups of an object stand at none of the kept places; a shared object brings none.
fn discarded_of<P: Platform>(kept: &HashSet<GroupPlace>, object: &Candidate<'_, P>) -> usize
    ensures { result ≡ discarded_of (contains is_same_place kept.now) object.now }
{
    if object.parsed.is_dynamic() {
        0
    } else {
        discarded_among(kept, object.place, object.parsed.object().groups())
    }
}

/// How many COMDAT groups of the objects stand at none of the kept places.
fn discarded_in<P: Platform>(kept: &HashSet<GroupPlace>, objects: &[Candidate<'_, P>]) -> u128
    ensures { result ≡ total (discarded_of (contains is_same_place kept.now)) objects.now }
{
    let mut count = 0u128;
    for object in objects {
        count += discarded_of(kept, object) as u128;
    }
    count
}

/// How many COMDAT groups of the objects are none of the kept ones. The only refusal is want of memory.
pub(crate) fn discarded_count<P: Platform>(
    alloc: Global,
    kept: &[KeptGroup],
    objects: &[Candidate<'_, P>],
) -> Result<u128, AllocError>
    ensures { IfOk result (λ count. count ≡ total (discarded_of (is_kept kept.now)) objects.now) }
{
    let kept = places_of(alloc, kept)?;
    Ok(discarded_in(&kept, objects))
}
