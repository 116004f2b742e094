//! The custom sections of a manifest that is read.

ghost use Rattle.std.specs.Prelude.{◌≡◌, codes, IfOk, OnOk};
ghost use Rattle.link_input.specs.Checks.{first_place};
ghost use Rattle.link_manifest.specs.declared.fault.Step.TheVariants.{Key};
ghost use Rattle.link_manifest.specs.Checked.{AreDistinct, names_checked, none_repeated, repeats_name};
ghost use Rattle.link_manifest.specs.Reading.{within, Reads};

use crate::fault::{ManifestError, Problem};
use crate::path::{at_key, error_at_item, fault_here};
use link_names::{Name, NameSet};
use std::alloc::{AllocError, Global};

/// The place of the first name that stands earlier too.
fn first_repeated(alloc: Global, names: &[Name]) -> Result<Option<usize>, AllocError>
    ensures { IfOk result (λ place. place ≡ first_place (repeats_name names.now) 0 names.now) }
{
    let mut earlier = NameSet::new(alloc);
    for (place, name) in names.iter().enumerate() {
        if earlier.contains(name.as_slice()) {
            return Ok(Some(place));
        }
        earlier.insert(name.clone()?)?;
    }
    Ok(None)
}

/// Tells the name at a place as repeated, where there is such a place.
fn none_repeated(alloc: Global, place: Option<usize>) -> Result<(), ManifestError>
    ensures { Reads result (none_repeated place) }
{
    match place {
        None => Ok(()),
        Some(place) => Err(error_at_item(place, fault_here(alloc, Problem::Repeated))),
    }
}

/// No name stands twice.
fn names_checked(alloc: Global, names: &[Name]) -> Result<(), ManifestError>
    ensures { Reads result (names_checked names.now) }
{
    none_repeated(alloc, first_repeated(alloc, names)?)
}

/// No custom section stands twice.
pub(crate) fn sections_checked(alloc: Global, names: &[Name]) -> Result<(), ManifestError>
    ensures read { Reads result (within (Key (codes "custom_sections")) (names_checked names.now)) }
    ensures distinct { OnOk result (AreDistinct names.now) }
{
    at_key(alloc, "custom_sections", names_checked(alloc, names))
}
