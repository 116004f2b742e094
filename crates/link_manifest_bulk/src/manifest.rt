//! A made-up link as a manifest.

ghost use Rattle.std.specs.Prelude.{◌≡◌, ◌≤◌, IfOk};
ghost use Rattle.link_manifest_bulk.specs.Bulk.{bulk_manifest, bulk_objects, manifest_with};

use crate::objects::bulk_object;
use link_input::{ElfLike, Inputs, Options, ParsedInputObject, Scripts, World};
use link_manifest::{Manifest, PlatformWorld};
use link_names::Seq;
use std::alloc::{AllocError, Global};

/// How many members a made-up link may have.
pub const MAX_MEMBERS: usize = 100_000;

/// All objects.
fn bulk_objects(
    alloc: Global,
    members: usize,
) -> Result<Seq<ParsedInputObject<ElfLike>>, AllocError>
    requires { members ≤ 100000 }
    ensures { IfOk result (λ objects. objects ≡ bulk_objects members) }
{
    let mut objects = Vec::with_capacity(alloc, members + 1)?;
    for place in 0..members + 1 {
        objects.push(bulk_object(alloc, members, place)?)?;
    }
    Ok(Seq::from_vec(objects))
}

/// A link of these objects, for a platform like ELF, by the options of a link of which the user says nothing. Nothing is claimed of it.
pub(crate) fn manifest_with(alloc: Global, objects: Seq<ParsedInputObject<ElfLike>>) -> Manifest
    ensures { result ≡ manifest_with objects }
{
    let inputs = Inputs {
        objects,
        scripts: Seq::new(alloc),
        stubs: Seq::new(alloc),
    };
    let scripts = Scripts {
        version_script: None,
        export_list: None,
    };
    Manifest {
        world: PlatformWorld::Elf(World {
            inputs,
            later: Seq::new(alloc),
            options: Options::new(alloc),
            scripts,
        }),
        claim: None,
    }
}

/// A made-up link of an object and an archive with so many members, for a platform like ELF, by the options of a link of
/// which the user says nothing.
///
/// `main.o` refers to `s1`. Member `m{i}.o` has 4 sections: section 1 has the symbol `s{i}`, and section 2 has `c{i mod
/// 3}`, the signature of a COMDAT group whose header is section 3 and whose one member is section 2. Unless 5 divides i it refers to
/// `s{2i}` and `s{2i+1}`, as far as there are so many members. Each table has a null entry, and all references are strong.
///
/// Every table passes its checks, so the one refusal is want of memory.
pub fn bulk_manifest(alloc: Global, members: usize) -> Result<Manifest, AllocError>
    requires some { 1 ≤ members }
    requires in_range { members ≤ 100000 }
    ensures { IfOk result (λ manifest. manifest ≡ bulk_manifest members) }
{
    let objects = bulk_objects(alloc, members)?;
    Ok(manifest_with(alloc, objects))
}
