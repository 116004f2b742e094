//! Where a fault is: how it is told of a value, and seen from further and further out.

ghost use Rattle.std.specs.Prelude.{◌≡◌, Result, IfOk};
ghost use Rattle.link_manifest.specs.declared.fault.Step.TheVariants.{Key, Item};
ghost use Rattle.link_manifest.specs.declared.fault.ManifestFault.{ManifestFault};
ghost use Rattle.link_manifest.specs.declared.fault.ManifestError.TheVariants.{At};
ghost use Rattle.link_manifest.specs.Reading.{fault_here, outward, within, IsSeenFrom, Reads};

use crate::fault::{ManifestError, ManifestFault, Problem, Step};
use link_names::{Name, Seq};
use std::alloc::{AllocError, Global};

/// A fault of the value itself.
pub(crate) fn fault_here(alloc: Global, problem: Problem) -> ManifestError
    ensures { result ≡ At (fault_here problem) }
{
    ManifestError::At(ManifestFault {
        path: Seq::new(alloc),
        problem,
    })
}

/// A fault of a value inside, seen from one step further out.
fn outward(step: Step, fault: ManifestFault) -> Result<ManifestFault, AllocError>
    ensures { IfOk result (λ seen. seen ≡ outward step fault) }
{
    let ManifestFault { path, problem } = fault;
    let mut steps = path.into_vec();
    steps.insert(0, step)?;
    Ok(ManifestFault {
        path: Seq::from_vec(steps),
        problem,
    })
}

/// The step to the value of a key.
fn key_step(alloc: Global, key: &str) -> Result<Step, AllocError>
    ensures { IfOk result (λ step. step ≡ Key key.now) }
{
    Ok(Step::Key(Name::from_slice(alloc, key.as_bytes())?))
}

/// An error of the value of a key, seen from its object.
pub(crate) fn error_at_key(alloc: Global, key: &str, error: ManifestError) -> ManifestError
    ensures { IsSeenFrom (Key key.now) error result }
{
    let ManifestError::At(fault) = error else {
        return ManifestError::Memory;
    };
    match key_step(alloc, key) {
        Ok(step) => match outward(step, fault) {
            Ok(seen) => ManifestError::At(seen),
            Err(_) => ManifestError::Memory,
        },
        Err(_) => ManifestError::Memory,
    }
}

/// An error of an item, with the item's place in front of its path.
pub(crate) fn error_at_item(place: usize, error: ManifestError) -> ManifestError
    ensures { IsSeenFrom (Item place) error result }
{
    let ManifestError::At(fault) = error else {
        return ManifestError::Memory;
    };
    match outward(Step::Item(place), fault) {
        Ok(seen) => ManifestError::At(seen),
        Err(_) => ManifestError::Memory,
    }
}

/// What was read of the value of a key, seen from its object.
pub(crate) fn at_key<T: Drop>(
    alloc: Global,
    key: &str,
    read: Result<T, ManifestError>,
) -> Result<T, ManifestError>
    ensures { (due : Result T ManifestFault) → Reads read due → Reads result (within (Key key.now) due) }
{
    match read {
        Ok(value) => Ok(value),
        Err(error) => Err(error_at_key(alloc, key, error)),
    }
}

/// What was read of an item; a fault in it has the item's place put in front of its path.
pub(crate) fn at_item<T: Drop>(
    place: usize,
    read: Result<T, ManifestError>,
) -> Result<T, ManifestError>
    ensures { (due : Result T ManifestFault) → Reads read due → Reads result (within (Item place) due) }
{
    match read {
        Ok(value) => Ok(value),
        Err(error) => Err(error_at_item(place, error)),
    }
}
