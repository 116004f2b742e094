//! The names of a made-up link.

ghost use Rattle.std.specs.Prelude.{◌≡◌, IfOk};
ghost use Rattle.link_manifest_bulk.specs.Names.{main_file, member_file, own_name, shared_name};

use link_names::Name;
use std::alloc::{AllocError, Global};

/// The name of the file that asks for the first member.
pub(crate) fn main_file(alloc: Global) -> Result<Name, AllocError>
    ensures { IfOk result (λ name. name ≡ main_file) }
{
    Name::from_slice(alloc, b"main.o")
}

/// The name of the file of a member.
pub(crate) fn member_file(alloc: Global, member: usize) -> Result<Name, AllocError>
    ensures { IfOk result (λ name. name ≡ member_file member) }
{
    let text = format!(in alloc; "m{member}.o")?;
    Ok(Name::new(text.into_bytes()))
}

/// The name that a member alone defines.
pub(crate) fn own_name(alloc: Global, member: usize) -> Result<Name, AllocError>
    ensures { IfOk result (λ name. name ≡ own_name member) }
{
    let text = format!(in alloc; "s{member}")?;
    Ok(Name::new(text.into_bytes()))
}

/// The name that a member defines as every third member does.
pub(crate) fn shared_name(alloc: Global, member: usize) -> Result<Name, AllocError>
    ensures { IfOk result (λ name. name ≡ shared_name member) }
{
    let third = member % 3;
    let text = format!(in alloc; "c{third}")?;
    Ok(Name::new(text.into_bytes()))
}
