//! The batches of a manifest: the one whose files stand at its root, and those that come behind it.

ghost use Rattle.std.specs.Prelude.{◌≡◌, IfErr, IfOk, List, map, Ok, Result};
ghost use Rattle.link_input.specs.ObjectFile.{ObjectFile};
ghost use Rattle.link_manifest_json.specs.Tree.{view};
ghost use Rattle.link_manifest.specs.Batches.{batch_read, batches_read, files_read, inputs_of, objects_read};
ghost use Rattle.link_manifest.specs.Checked.{batch_checked, batches_checked, few_batches, later_checked};
ghost use Rattle.link_manifest.specs.declared.fault.ManifestFault.{ManifestFault};
ghost use Rattle.link_manifest.specs.declared.fault.Step.TheVariants.{Item};
ghost use Rattle.link_manifest.specs.Reading.{and_read, within, IsFaultOf, Reads};

use crate::contents::{UncheckedBatch, UncheckedObject};
use crate::fault::{ManifestError, Problem};
use crate::libraries::{Script, Stub};
use crate::objects::Object;
use crate::path::{at_item, at_key, error_at_key, fault_here};
use crate::reading::{Readable, object_of_keys, optional_list};
use crate::tables::checked_objects;
use json::Value;
use link_input::{Inputs, Platform};
use link_names::Seq;
use std::alloc::Global;
use std::marker::PhantomData;

/// How many batches may come behind the first one.
const MAX_LATER: usize = 255;

/// The objects that stand at a value.
pub(crate) fn objects_at<P: Platform>(
    alloc: Global,
    value: &Value<'_>,
) -> Result<Seq<UncheckedObject>, ManifestError>
    ensures { Reads result (objects_read P.HAS_NULL_SYMBOL_ENTRY (view value.now)) }
{
    optional_list::<Object<P>>(alloc, value, "objects")
}

/// The files that stand at a value: its objects, which were read already, linker scripts and stub libraries.
fn files(
    alloc: Global,
    value: &Value<'_>,
    objects: Result<Seq<UncheckedObject>, ManifestError>,
) -> Result<UncheckedBatch, ManifestError>
    ensures { (due : Result (List ObjectFile) ManifestFault) → Reads objects due → Reads result (files_read due (view value.now)) }
{
    let objects = objects?;
    let scripts = optional_list::<Script>(alloc, value, "scripts")?;
    let stubs = optional_list::<Stub>(alloc, value, "stubs")?;
    Ok(UncheckedBatch {
        objects,
        scripts,
        stubs,
    })
}

/// A batch that comes behind others, on a platform.
struct Batch<P> {
    platform: PhantomData<P>,
}

impl<P: Platform> Readable for Batch<P> {
    type Read = UncheckedBatch;

    ghost read = { batch_read P.HAS_NULL_SYMBOL_ENTRY };

    fn read(alloc: Global, value: &Value<'_>) -> Result<UncheckedBatch, ManifestError> {
        object_of_keys(alloc, value, &["objects", "scripts", "stubs"])?;
        files(alloc, value, objects_at::<P>(alloc, value))
    }
}

/// The batches of a root: the one whose files stand there, with the objects that were read already, and those behind it.
pub(crate) fn batches<P: Platform>(
    alloc: Global,
    value: &Value<'_>,
    objects: Result<Seq<UncheckedObject>, ManifestError>,
) -> Result<(UncheckedBatch, Seq<UncheckedBatch>), ManifestError>
    ensures { (due : Result (List ObjectFile) ManifestFault) → Reads objects due
        → Reads result (batches_read P.HAS_NULL_SYMBOL_ENTRY due (view value.now)) }
{
    let first = files(alloc, value, objects)?;
    let later = optional_list::<Batch<P>>(alloc, value, "batches")?;
    Ok((first, later))
}

/// Tells where more batches come than a link may have.
pub(crate) fn few_batches(alloc: Global, later: &[UncheckedBatch]) -> Result<(), ManifestError>
    ensures { Reads result (few_batches later.now) }
{
    if later.len() > MAX_LATER {
        return Err(error_at_key(alloc, "batches", fault_here(alloc, Problem::TooMany)));
    }
    Ok(())
}

/// The files of a batch, where the tables of its objects pass the checks.
pub(crate) fn checked_batch<P: Platform>(
    alloc: Global,
    batch: UncheckedBatch,
) -> Result<Inputs<P>, ManifestError>
    ensures { Reads result (and_read (batch_checked P.HAS_NULL_SYMBOL_ENTRY batch) (λ _. Ok (inputs_of batch))) }
{
    let UncheckedBatch {
        objects,
        scripts,
        stubs,
    } = batch;
    Ok(Inputs {
        objects: checked_objects(alloc, objects)?,
        scripts,
        stubs,
    })
}

/// The same of the batch with this place.
fn checked_item<P: Platform>(
    alloc: Global,
    place: usize,
    batch: UncheckedBatch,
) -> Result<Inputs<P>, ManifestError>
    ensures same { IfOk result (λ checked. checked ≡ inputs_of batch) }
    ensures passes { IfOk result (λ _. batch_checked P.HAS_NULL_SYMBOL_ENTRY batch ≡ Ok tt) }
    ensures fails { IfErr result (λ error. IsFaultOf error (within (Item place) (batch_checked P.HAS_NULL_SYMBOL_ENTRY batch))) }
{
    at_item(place, checked_batch(alloc, batch))
}

/// The files of batches one after another, where the tables of all objects pass the checks.
fn checked_items<P: Platform>(
    alloc: Global,
    batches: Vec<UncheckedBatch>,
) -> Result<Seq<Inputs<P>>, ManifestError>
    ensures { Reads result (and_read (batches_checked P.HAS_NULL_SYMBOL_ENTRY 0 batches.items) (λ _. Ok (map inputs_of batches.items))) }
{
    let mut checked = Vec::new(alloc);
    for (place, batch) in batches.into_iter().enumerate() {
        checked.push(checked_item(alloc, place, batch)?)?;
    }
    Ok(Seq::from_vec(checked))
}

/// The files of the batches behind the first one, where the tables of all objects pass the checks.
pub(crate) fn checked_batches<P: Platform>(
    alloc: Global,
    later: Seq<UncheckedBatch>,
) -> Result<Seq<Inputs<P>>, ManifestError>
    ensures { Reads result (and_read (later_checked P.HAS_NULL_SYMBOL_ENTRY later) (λ _. Ok (map inputs_of later))) }
{
    at_key(alloc, "batches", checked_items(alloc, later.into_vec()))
}
