//! The objects of a made-up link.

ghost use Rattle.std.specs.Prelude.{◌≡◌, ◌≤◌, true, None, IfOk};
ghost use Rattle.link_input.specs.Checks.{first_fault};
ghost use Rattle.link_manifest_bulk.specs.Bulk.{archived_object, bulk_object, required_object};

use crate::names::{main_file, member_file};
use crate::tables::{main_table, member_table};
use link_input::{ElfLike, InputObject, Modifiers, ObjectTable, ParsedInputObject, TableError};
use std::alloc::{AllocError, Global};

/// The object of a table that passes every check.
fn passing_object(alloc: Global, table: ObjectTable) -> Result<InputObject<ElfLike>, AllocError>
    requires passes { first_fault true table ≡ None }
    ensures { IfOk result (λ object. object ≡ table) }
{
    match InputObject::new(alloc, table) {
        Ok(object) => Ok(object),
        Err(error) => {
            prove!(matches!(&error, TableError::Memory));
            Err(AllocError)
        }
    }
}

/// The object that is linked in any case, with this table.
pub(crate) fn required_object(
    alloc: Global,
    table: ObjectTable,
) -> Result<ParsedInputObject<ElfLike>, AllocError>
    requires passes { first_fault true table ≡ None }
    ensures { IfOk result (λ object. object ≡ required_object table) }
{
    let object = passing_object(alloc, table)?;
    let modifiers = Modifiers {
        archive: false,
        whole_archive: false,
        as_needed: false,
    };
    Ok(ParsedInputObject::new(main_file(alloc)?, object, modifiers))
}

/// A member of an archive, with this table.
pub(crate) fn archived_object(
    alloc: Global,
    member: usize,
    table: ObjectTable,
) -> Result<ParsedInputObject<ElfLike>, AllocError>
    requires passes { first_fault true table ≡ None }
    ensures { IfOk result (λ object. object ≡ archived_object member table) }
{
    let object = passing_object(alloc, table)?;
    let modifiers = Modifiers {
        archive: true,
        whole_archive: false,
        as_needed: false,
    };
    Ok(ParsedInputObject::new(member_file(alloc, member)?, object, modifiers))
}

/// The object at a place: the one that is linked in any case, and behind it the members from 1 on.
pub(crate) fn bulk_object(
    alloc: Global,
    members: usize,
    place: usize,
) -> Result<ParsedInputObject<ElfLike>, AllocError>
    requires { place ≤ 100000 }
    ensures { IfOk result (λ object. object ≡ bulk_object members place) }
{
    if place == 0 {
        required_object(alloc, main_table(alloc)?)
    } else {
        archived_object(alloc, place, member_table(alloc, members, place)?)
    }
}
