//! A made-up link whose members are loaded one after another.

ghost use Rattle.std.specs.Prelude.{◌≡◌, ◌≤◌, IfOk};
ghost use Rattle.link_manifest_bulk.specs.Chain.{chain_manifest, chain_member_table, chain_object, chain_objects, chain_start_table, chained_name};

use crate::manifest::manifest_with;
use crate::names::{main_file, member_file};
use crate::objects::{archived_object, required_object};
use crate::tables::{global_entry, null_entry};
use link_input::{ElfLike, ObjectTable, ParsedInputObject, Place};
use link_manifest::Manifest;
use link_names::{Name, Seq};
use std::alloc::{AllocError, Global};

/// The name that a member defines.
fn chained_name(alloc: Global, member: usize) -> Result<Name, AllocError>
    ensures { IfOk result (λ name. name ≡ chained_name member) }
{
    let text = format!(in alloc; "t{member}")?;
    Ok(Name::new(text.into_bytes()))
}

/// What is read of the object that asks for the first member.
fn chain_start_table(alloc: Global) -> Result<ObjectTable, AllocError>
    ensures { IfOk result (λ table. table ≡ chain_start_table) }
{
    let mut symbols = Seq::new(alloc);
    symbols.push(null_entry(alloc))?;
    symbols.push(global_entry(chained_name(alloc, 1)?, Place::Undefined))?;
    Ok(ObjectTable {
        is_dynamic: false,
        lib_name: main_file(alloc)?,
        sections: 0,
        symbols,
        groups: Seq::new(alloc),
        section_references: Seq::new(alloc),
        retained_sections: Seq::new(alloc),
    })
}

/// What is read of a member of so many.
fn chain_member_table(
    alloc: Global,
    members: usize,
    member: usize,
) -> Result<ObjectTable, AllocError>
    requires { member ≤ 100000 }
    ensures { IfOk result (λ table. table ≡ chain_member_table members member) }
{
    let mut symbols = Seq::new(alloc);
    symbols.push(null_entry(alloc))?;
    symbols.push(global_entry(chained_name(alloc, member)?, Place::Section(1)))?;
    if member < members {
        symbols.push(global_entry(chained_name(alloc, member + 1)?, Place::Undefined))?;
    }
    Ok(ObjectTable {
        is_dynamic: false,
        lib_name: member_file(alloc, member)?,
        sections: 2,
        symbols,
        groups: Seq::new(alloc),
        section_references: Seq::new(alloc),
        retained_sections: Seq::new(alloc),
    })
}

/// The object at a place: the one that is linked in any case, and behind it the members from 1 on.
fn chain_object(
    alloc: Global,
    members: usize,
    place: usize,
) -> Result<ParsedInputObject<ElfLike>, AllocError>
    requires { place ≤ 100000 }
    ensures { IfOk result (λ object. object ≡ chain_object members place) }
{
    if place == 0 {
        required_object(alloc, chain_start_table(alloc)?)
    } else {
        archived_object(alloc, place, chain_member_table(alloc, members, place)?)
    }
}

/// All objects.
fn chain_objects(
    alloc: Global,
    members: usize,
) -> Result<Seq<ParsedInputObject<ElfLike>>, AllocError>
    requires { members ≤ 100000 }
    ensures { IfOk result (λ objects. objects ≡ chain_objects members) }
{
    let mut objects = Vec::with_capacity(alloc, members + 1)?;
    for place in 0..members + 1 {
        objects.push(chain_object(alloc, members, place)?)?;
    }
    Ok(Seq::from_vec(objects))
}

/// A made-up link of an object and an archive of so many members, each of which is found by reading the one before it alone: the longest way that a link of
/// so many objects can take. It is for a platform like ELF, by the options of a link of which the user says nothing.
///
/// `main.o` refers to `t1`. Member `m{i}.o` has 2 sections, defines `t{i}` in section 1, and refers to `t{i+1}` if there is a next member. Each table has a
/// null entry, and all references are strong.
///
/// Every table passes its checks, so the one refusal is want of memory.
pub fn chain_manifest(alloc: Global, members: usize) -> Result<Manifest, AllocError>
    requires some { 1 ≤ members }
    requires in_range { members ≤ 100000 }
    ensures { IfOk result (λ manifest. manifest ≡ chain_manifest members) }
{
    let objects = chain_objects(alloc, members)?;
    Ok(manifest_with(alloc, objects))
}
