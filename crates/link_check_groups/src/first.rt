//! The first COMDAT group of each signature.

ghost use Rattle.std.specs.Prelude.{◌≡◌, IfOk, OnOk};
ghost use Rattle.std.specs.Option.{option_or};
ghost use Rattle.link_names.specs.Names.{value_in};
ghost use Rattle.link_rules.specs.Comdat.{is_same_place};
ghost use Rattle.link_rules.specs.Places.{Bytes};
ghost use Rattle.link_check_groups.specs.Groups.{comdat_place, first_comdat};

use crate::group::ObjectGroup;
use link_names::{Name, NameMap};
use std::alloc::{AllocError, Global};

/// The same place of an object, and of a group among those of the object.
pub fn is_same_place(place: (usize, usize), other: (usize, usize)) -> bool
    ensures { result ≡ is_same_place place other }
{
    place.0 == other.0 && place.1 == other.1
}

/// Notes the place of a COMDAT group under its signature, where none was noted.
fn note_group(
    alloc: Global,
    first: &mut NameMap<(usize, usize)>,
    group: &ObjectGroup,
) -> Result<(), AllocError>
    ensures { OnOk result ((signature : Bytes) → value_in first.new signature
        ≡ option_or (value_in first.old signature) (comdat_place signature group.now)) }
{
    if group.is_comdat() {
        let signature = Name::from_slice(alloc, group.signature())?;
        first.note_first(signature, group.place())?;
    }
    Ok(())
}

/// The place of the first COMDAT group of each signature.
pub fn first_comdats(
    alloc: Global,
    groups: &[ObjectGroup],
) -> Result<NameMap<(usize, usize)>, AllocError>
    ensures { IfOk result (λ first. (signature : Bytes) → value_in first signature ≡ first_comdat groups.now signature) }
{
    let mut first = NameMap::new(alloc);
    for group in groups {
        note_group(alloc, &mut first, group)?;
    }
    Ok(first)
}
