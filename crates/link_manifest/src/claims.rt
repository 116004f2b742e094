//! The claim that a manifest makes of its link.

ghost use Rattle.link_manifest.specs.Claims.{claim_read, claimed_group_read, claimed_object_read};
ghost use Rattle.link_manifest.specs.Values.{number_read};

use crate::fault::ManifestError;
use crate::reading::{ListOf, OrNull, Readable, object_of_keys, required};
use crate::values::Number;
use json::Value;
use link_check_claims::{Claim, ClaimedGroup, ClaimedObject};
use std::alloc::Global;

/// A number that names an object, a group or a symbol, or ranks an object.
struct Count;

impl Readable for Count {
    type Read = usize;

    ghost read = { number_read };

    fn read(alloc: Global, value: &Value<'_>) -> Result<usize, ManifestError> {
        let number = Number::read(alloc, value)?;
        Ok(number as usize)
    }
}

/// An object that is claimed to be loaded.
struct LoadedObject;

impl Readable for LoadedObject {
    type Read = ClaimedObject;

    ghost read = { claimed_object_read };

    fn read(alloc: Global, value: &Value<'_>) -> Result<ClaimedObject, ManifestError> {
        object_of_keys(alloc, value, &["object", "rank", "by"])?;
        let object = required::<Count>(alloc, value, "object")?;
        let rank = required::<Count>(alloc, value, "rank")?;
        let by = required::<OrNull<Count>>(alloc, value, "by")?;
        Ok(ClaimedObject { object, rank, by })
    }
}

/// A COMDAT group that is claimed to be kept.
struct KeptGroup;

impl Readable for KeptGroup {
    type Read = ClaimedGroup;

    ghost read = { claimed_group_read };

    fn read(alloc: Global, value: &Value<'_>) -> Result<ClaimedGroup, ManifestError> {
        object_of_keys(alloc, value, &["object", "group"])?;
        let object = required::<Count>(alloc, value, "object")?;
        let group = required::<Count>(alloc, value, "group")?;
        Ok(ClaimedGroup { object, group })
    }
}

/// What is claimed of a link.
pub(crate) struct ClaimOfLink;

impl Readable for ClaimOfLink {
    type Read = Claim;

    ghost read = { claim_read };

    fn read(alloc: Global, value: &Value<'_>) -> Result<Claim, ManifestError> {
        object_of_keys(alloc, value, &["loaded", "kept", "table"])?;
        let loaded = required::<ListOf<LoadedObject>>(alloc, value, "loaded")?;
        let kept = required::<ListOf<KeptGroup>>(alloc, value, "kept")?;
        let table = required::<ListOf<Count>>(alloc, value, "table")?;
        Ok(Claim {
            loaded,
            kept,
            table,
        })
    }
}
