//! The objects of a root that is cut around them, read side by side.

ghost use Rattle.std.specs.Prelude.{ℕ, List, IfOk, IfSome, Result, codes};
ghost use Rattle.serde_json.specs.Data.{Data, Items};
ghost use Rattle.link_manifest_json.specs.Spans.{IsAround};
ghost use Rattle.link_manifest_json.specs.Tree.{view};
ghost use Rattle.link_manifest.specs.declared.fault.ManifestFault.{ManifestFault};
ghost use Rattle.link_manifest.specs.declared.fault.Step.TheVariants.{Key};
ghost use Rattle.link_manifest.specs.Cut.{IsReadBeside};
ghost use Rattle.link_manifest.specs.Objects.{object_read};
ghost use Rattle.link_manifest.specs.Reading.{AllRead, Reads, items_read, within};

use crate::contents::UncheckedObject;
use crate::fault::ManifestError;
use crate::objects::Object;
use crate::path::{at_item, at_key};
use crate::reading::Readable;
use json::Value;
use link_input::Platform;
use link_manifest_json::{CutRoot, items_read};
use link_names::Seq;
use std::alloc::{AllocError, Global};
use std::thread::Threads;

/// The items of a list, each of which was read by itself, or the first fault among them, with its place in the list.
fn gathered_items<T: Drop>(
    alloc: Global,
    answers: Vec<Result<T, ManifestError>>,
) -> Result<Seq<T>, ManifestError>
    ensures { (read : Data → Result T ManifestFault) → (values : Items) → AllRead read values answers.items → Reads result (items_read read 0 values) }
{
    let mut gathered = Vec::new(alloc);
    for (place, answer) in answers.into_iter().enumerate() {
        gathered.push(at_item(place, answer)?)?;
    }
    Ok(Seq::from_vec(gathered))
}

/// The objects of a root, each of which was read by itself, or the first fault among them, seen from the root.
fn gathered<T: Drop>(
    alloc: Global,
    answers: Vec<Result<T, ManifestError>>,
) -> Result<Seq<T>, ManifestError>
    ensures { (read : Data → Result T ManifestFault) → (values : Items) → AllRead read values answers.items
        → Reads result (within (Key (codes "objects")) (items_read read 0 values)) }
{
    at_key(alloc, "objects", gathered_items(alloc, answers))
}

/// The objects of a cut root, read by so many workers at most. There are none where one of them is no JSON value.
pub(crate) fn cut_objects<P: Platform + Sync>(
    rt: &(impl Threads + Sync),
    alloc: Global,
    workers: usize,
    root: &CutRoot<'_>,
) -> Result<Option<Result<Seq<UncheckedObject>, ManifestError>>, AllocError>
    ensures { IfOk result (λ found. IfSome found (λ objects. (text : List ℕ) → IsAround text (codes "objects") root.now
        → IsReadBeside P.HAS_NULL_SYMBOL_ENTRY text (view root.now.rest) objects)) }
{
    let read = |value: &Value<'_>| -> Result<UncheckedObject, ManifestError>
        ensures { Reads result (object_read P.HAS_NULL_SYMBOL_ENTRY (view value.now)) }
    { Object::<P>::read(alloc, value) };
    match items_read(rt, alloc, workers, root, &read)? {
        Some(answers) => Ok(Some(gathered(alloc, answers))),
        None => Ok(None),
    }
}
