//! The reason of each loaded object.

ghost use Rattle.std.specs.Prelude.{◌≡◌, ◌++◌, IfOk, OnOk, option_and_then, option_map, option_to_list, slice_get};
ghost use Rattle.link_closure.specs.Closure.{is_marked};
ghost use Rattle.link_db_files.specs.GroupFiles.{symbols_in};
ghost use Rattle.link_db_files.specs.Inputs.{objects_in};
ghost use Rattle.link_rules.specs.Reasons.{AreReasons};
ghost use Rattle.link_rules.specs.Selection.{Selection};
ghost use Rattle.link_resolve_requests.specs.Objects.{kept_marks};
ghost use Rattle.link_resolve_reasons.specs.Requests.{requests_in};
ghost use Rattle.link_resolve_reasons.specs.Known.{known_by};
ghost use Rattle.link_resolve_reasons.specs.Told.{TellsLoaded, entry_at, loaded_reason, reason_by, reason_in, reasons_in, root_keys, step_key, step_keys};

use crate::firsts::{entry_at, first_places};
use crate::levels::object_levels;
use crate::requests::{Request, requests};
use link_db_files::Files;
use link_ids::SymbolId;
use link_input::Platform;
use link_resolve_requests::object_marks;
use link_rules::{FoundRoot, LoadedReason, Reason};
use std::alloc::{AllocError, Global};

/// The objects that were found for root names, in the order of these.
fn root_keys(alloc: Global, roots: &[FoundRoot]) -> Result<Vec<Option<usize>>, AllocError>
    ensures { IfOk result (λ keys. keys.items ≡ root_keys roots.now) }
{
    let mut keys = Vec::with_capacity(alloc, roots.len())?;
    for root in roots {
        keys.push(Some(root.object))?;
    }
    Ok(keys)
}

/// The object that a reference asks for, if it is one level further than that of the reference.
fn step_key(levels: &[Option<usize>], request: &Request) -> Option<usize>
    ensures { result ≡ step_key levels.now request.now }
{
    let from = entry_at(levels, request.from)?;
    let to = entry_at(levels, request.to)?;
    if from < to && to - from == 1 {
        Some(request.to)
    } else {
        None
    }
}

/// The same for each reference.
fn step_keys(
    alloc: Global,
    levels: &[Option<usize>],
    requests: &[Request],
) -> Result<Vec<Option<usize>>, AllocError>
    ensures { IfOk result (λ keys. keys.items ≡ step_keys levels.now requests.now) }
{
    let mut keys = Vec::with_capacity(alloc, requests.len())?;
    for request in requests {
        keys.push(step_key(levels, request))?;
    }
    Ok(keys)
}

/// What is known of the objects of a link.
#[derive(Clone, Copy)]
struct KnownObjects<'a> {
    /// Whether each is loaded in any case.
    mandatory: &'a [bool],
    roots: &'a [FoundRoot],
    /// For each object the place of the first root name for which it was found.
    first_roots: &'a [Option<usize>],
    requests: &'a [Request],
    /// For each object the place of the first request for it by an object one level nearer.
    first_requests: &'a [Option<usize>],
}

/// The reason of an object by what is known of it.
fn reason_of(
    is_mandatory: bool,
    root: Option<&FoundRoot>,
    request: Option<&Request>,
) -> Result<Option<Reason>, AllocError>
    ensures { IfOk result (λ reason. reason ≡ reason_by is_mandatory (option_map (λ r. r.now) root.entry) (option_map (λ q. q.now) request.entry)) }
{
    if is_mandatory {
        return Ok(Some(Reason::Required));
    }
    if let Some(root) = root {
        return Ok(Some(Reason::Root(root.name.clone()?)));
    }
    match request {
        Some(request) => Ok(Some(Reason::Reference {
            symbol: request.symbol,
            object: request.from,
        })),
        None => Ok(None),
    }
}

impl<'a> KnownObjects<'a> {
    /// The first root name for which the object was found.
    fn root_of(&self, object: usize) -> Option<&'a FoundRoot>
        ensures { option_map (λ r. r.now) result ≡ option_and_then (slice_get self.now.roots.now) (entry_at self.now.first_roots.now object) }
    {
        let place = entry_at(self.first_roots, object)?;
        self.roots.get(place)
    }

    /// The first request for the object by one that is one level nearer.
    fn request_for(&self, object: usize) -> Option<&'a Request>
        ensures { option_map (λ q. q.now) result ≡ option_and_then (slice_get self.now.requests.now) (entry_at self.now.first_requests.now object) }
    {
        let place = entry_at(self.first_requests, object)?;
        self.requests.get(place)
    }

    /// Whether the object is loaded in any case.
    fn is_mandatory(&self, object: usize) -> bool
        ensures { result ≡ is_marked self.now.mandatory.now object }
    {
        match self.mandatory.get(object) {
            Some(is_mandatory) => *is_mandatory,
            None => false,
        }
    }

    /// The reason of the object, with the object, if it has one.
    fn reason_at(&self, object: usize) -> Result<Option<LoadedReason>, AllocError>
        ensures { IfOk result (λ found. found ≡ option_map (λ r. record { object = object; reason = r }) (reason_in (known_by self.now) object)) }
    {
        let reason = reason_of(
            self.is_mandatory(object),
            self.root_of(object),
            self.request_for(object),
        )?;
        Ok(reason.map(|reason| LoadedReason { object, reason }))
    }
}

/// Adds the reason of the object, if it is loaded and has one.
fn push_reason(
    reasons: &mut Vec<LoadedReason>,
    known: &KnownObjects,
    object: usize,
    is_loaded: bool,
) -> Result<(), AllocError>
    ensures { OnOk result (reasons.new.items ≡ reasons.old.items ++ option_to_list (loaded_reason (known_by known.now) object is_loaded)) }
{
    if is_loaded {
        if let Some(reason) = known.reason_at(object)? {
            reasons.push(reason)?;
        }
    }
    Ok(())
}

/// The reasons of the loaded objects by what is known of all, in order.
fn reasons_of(
    alloc: Global,
    known: &KnownObjects,
    loaded: &[bool],
) -> Result<Vec<LoadedReason>, AllocError>
    ensures { IfOk result (λ reasons. reasons.items ≡ reasons_in (known_by known.now) loaded.now) }
{
    let mut reasons = Vec::new(alloc);
    for (object, is_loaded) in loaded.iter().enumerate() {
        push_reason(&mut reasons, known, object, *is_loaded)?;
    }
    Ok(reasons)
}

/// Why each loaded object is loaded, in the order of the objects: in any case, for the first root name for which it was found, or by the
/// reference with the least id in an object one level nearer to these. The marks and the targets are those of a link of these files
/// after all its batches, and the roots what was found for root names at these. Mirrors lld's `--why-extract`. The only refusal is
/// want of memory. Takes time in the number of symbols.
pub fn loaded_reasons<P: Platform>(
    alloc: Global,
    files: &Files<P>,
    loaded: &[bool],
    targets: &[Option<SymbolId>],
    roots: &[FoundRoot],
) -> Result<Vec<LoadedReason>, AllocError>
    ensures { IfOk result (λ reasons. (l : Selection) → TellsLoaded files.now loaded.now targets.now roots.now l → AreReasons l roots.now reasons.items) }
{
    let mandatory = object_marks(alloc, files, &[])?;
    let first_roots = first_places(alloc, mandatory.len(), &root_keys(alloc, roots)?)?;
    let requests = requests(alloc, files, targets)?;
    let levels = object_levels(alloc, &mandatory, &first_roots, &requests)?;
    let keys = step_keys(alloc, &levels, &requests)?;
    let first_requests = first_places(alloc, mandatory.len(), &keys)?;
    let known = KnownObjects {
        mandatory: &mandatory,
        roots,
        first_roots: &first_roots,
        requests: &requests,
        first_requests: &first_requests,
    };
    reasons_of(alloc, &known, loaded)
}
