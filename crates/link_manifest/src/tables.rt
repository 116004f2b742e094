//! The tables of the objects of a manifest that is read.

ghost use Rattle.std.specs.Prelude.{◌≡◌, None, Ok, codes, IfOk, IfErr};
ghost use Rattle.link_input.specs.Checks.{first_fault};
ghost use Rattle.link_manifest.specs.declared.fault.Step.TheVariants.{Key, Item};
ghost use Rattle.link_manifest.specs.Checked.{none_at_fault, tables_checked};
ghost use Rattle.link_manifest.specs.Reading.{and_read, within, IsFaultOf, Reads};

use crate::contents::UncheckedObject;
use crate::fault::{ManifestError, Problem};
use crate::path::{at_key, error_at_item, fault_here};
use link_input::{InputObject, ParsedInputObject, Platform, TableError};
use link_names::Seq;
use std::alloc::Global;

/// The object with this place, where its table passes the checks.
fn checked_object<P: Platform>(
    alloc: Global,
    place: usize,
    object: UncheckedObject,
) -> Result<ParsedInputObject<P>, ManifestError>
    ensures same { IfOk result (λ checked. checked ≡ object) }
    ensures passes { IfOk result (λ _. first_fault P.HAS_NULL_SYMBOL_ENTRY object.object ≡ None) }
    ensures fails { IfErr result (λ error. IsFaultOf error (within (Item place) (none_at_fault (first_fault P.HAS_NULL_SYMBOL_ENTRY object.object)))) }
{
    let UncheckedObject {
        input,
        table,
        modifiers,
    } = object;
    match InputObject::new(alloc, table) {
        Ok(object) => Ok(ParsedInputObject::new(input, object, modifiers)),
        Err(TableError::Memory) => Err(ManifestError::Memory),
        Err(error) => Err(error_at_item(place, fault_here(alloc, Problem::Table(error)))),
    }
}

/// The objects, where the tables of all pass the checks.
fn checked_tables<P: Platform>(
    alloc: Global,
    objects: Vec<UncheckedObject>,
) -> Result<Seq<ParsedInputObject<P>>, ManifestError>
    ensures { Reads result (and_read (tables_checked P.HAS_NULL_SYMBOL_ENTRY 0 objects.items) (λ _. Ok objects.items)) }
{
    let mut checked = Vec::new(alloc);
    for (place, object) in objects.into_iter().enumerate() {
        checked.push(checked_object(alloc, place, object)?)?;
    }
    Ok(Seq::from_vec(checked))
}

/// The objects of a manifest, where the tables of all pass the checks.
pub(crate) fn checked_objects<P: Platform>(
    alloc: Global,
    objects: Seq<UncheckedObject>,
) -> Result<Seq<ParsedInputObject<P>>, ManifestError>
    ensures { Reads result (and_read (within (Key (codes "objects")) (tables_checked P.HAS_NULL_SYMBOL_ENTRY 0 objects)) (λ _. Ok objects)) }
{
    at_key(alloc, "objects", checked_tables(alloc, objects.into_vec()))
}
