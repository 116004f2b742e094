//! The objects of a manifest, their section groups, and what their sections refer to.

ghost use Rattle.link_manifest_json.specs.Tree.{view};
ghost use Rattle.link_manifest.specs.Objects.{group_read, kept_sections_read, modifiers_read, section_reference_read, object_keys, object_read};
ghost use Rattle.link_manifest.specs.Reading.{object_of_keys, Reads};

use crate::contents::UncheckedObject;
use crate::fault::ManifestError;
use crate::reading::{Readable, object_of_keys, optional, optional_list, required};
use crate::symbols::{Table, entries_before};
use crate::values::{Bytes, Flag, Number, Text};
use json::Value;
use link_input::{Modifiers, ObjectTable, Platform, SectionGroup, SectionReference};
use link_names::Seq;
use std::alloc::Global;
use std::marker::PhantomData;

/// A section group.
struct Group;

impl Readable for Group {
    type Read = SectionGroup;

    ghost read = { group_read };

    fn read(alloc: Global, value: &Value<'_>) -> Result<SectionGroup, ManifestError> {
        object_of_keys(alloc, value, &["header", "signature", "comdat", "members"])?;
        let index = required::<Number>(alloc, value, "header")?;
        let signature_symbol = required::<Number>(alloc, value, "signature")?;
        let is_comdat = optional::<Flag>(alloc, value, "comdat", true)?;
        let members = optional_list::<Number>(alloc, value, "members")?;
        Ok(SectionGroup {
            index,
            signature_symbol,
            is_comdat,
            members,
        })
    }
}

/// What a section refers to.
struct Reference;

impl Readable for Reference {
    type Read = SectionReference;

    ghost read = { section_reference_read };

    fn read(alloc: Global, value: &Value<'_>) -> Result<SectionReference, ManifestError> {
        object_of_keys(alloc, value, &["from", "to"])?;
        let from = required::<Number>(alloc, value, "from")?;
        let to = required::<Number>(alloc, value, "to")?;
        Ok(SectionReference { from, to })
    }
}

/// The value is a JSON object that has no other keys than an object of a link.
fn known_keys(alloc: Global, value: &Value<'_>) -> Result<(), ManifestError>
    ensures { Reads result (object_of_keys object_keys (view value.now)) }
{
    object_of_keys(
        alloc,
        value,
        &[
            "name",
            "dynamic",
            "archive",
            "whole_archive",
            "as_needed",
            "lib_name",
            "sections",
            "symbols",
            "groups",
            "section_refs",
            "retain",
        ],
    )
}

/// How the linker was told to take the object.
fn modifiers(alloc: Global, value: &Value<'_>) -> Result<Modifiers, ManifestError>
    ensures { Reads result (modifiers_read (view value.now)) }
{
    let archive = optional::<Flag>(alloc, value, "archive", false)?;
    let whole_archive = optional::<Flag>(alloc, value, "whole_archive", false)?;
    let as_needed = optional::<Flag>(alloc, value, "as_needed", false)?;
    Ok(Modifiers {
        archive,
        whole_archive,
        as_needed,
    })
}

/// What the object's sections refer to, and those that are kept in any case.
fn kept_sections(
    alloc: Global,
    value: &Value<'_>,
) -> Result<(Seq<SectionReference>, Seq<u32>), ManifestError>
    ensures { Reads result (kept_sections_read (view value.now)) }
{
    let section_references = optional_list::<Reference>(alloc, value, "section_refs")?;
    let retained_sections = optional_list::<Number>(alloc, value, "retain")?;
    Ok((section_references, retained_sections))
}

/// An object of a platform.
pub(crate) struct Object<P> {
    platform: PhantomData<P>,
}

impl<P: Platform> Readable for Object<P> {
    type Read = UncheckedObject;

    ghost read = { object_read P.HAS_NULL_SYMBOL_ENTRY };

    fn read(alloc: Global, value: &Value<'_>) -> Result<UncheckedObject, ManifestError> {
        known_keys(alloc, value)?;
        let input = required::<Text>(alloc, value, "name")?;
        let is_dynamic = optional::<Flag>(alloc, value, "dynamic", false)?;
        let modifiers = modifiers(alloc, value)?;
        let lib_name = optional::<Bytes>(alloc, value, "lib_name", input.clone()?)?;
        let sections = optional::<Number>(alloc, value, "sections", 0)?;
        let no_symbols = Seq::from_vec(entries_before::<P>(alloc)?);
        let symbols = optional::<Table<P>>(alloc, value, "symbols", no_symbols)?;
        let groups = optional_list::<Group>(alloc, value, "groups")?;
        let (section_references, retained_sections) = kept_sections(alloc, value)?;
        Ok(UncheckedObject {
            input,
            table: ObjectTable {
                is_dynamic,
                lib_name,
                sections,
                symbols,
                groups,
                section_references,
                retained_sections,
            },
            modifiers,
        })
    }
}
