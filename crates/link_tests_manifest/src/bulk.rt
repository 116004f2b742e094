//! That made-up links are made where memory is ample. Which objects they have is in the contracts.

use link_input::{ElfLike, ParsedInputObject};
use link_manifest::{Manifest, PlatformWorld};
use link_manifest_bulk::{bulk_manifest, chain_manifest};
use std::alloc::{AllocError, Global};
use std::fmt::Write;
use std::test::Fail;

/// The objects in words: the file of each, and how many symbols it has.
fn objects_text(
    alloc: Global,
    objects: &[ParsedInputObject<ElfLike>],
) -> Result<String, AllocError> {
    let mut text = String::new(alloc);
    for object in objects {
        write!(text, "{object} {}, ", object.num_symbols())?;
    }
    Ok(text)
}

/// The objects of a made-up link in words.
fn made_text(alloc: Global, manifest: Manifest) -> Result<String, Fail> {
    let Manifest { world, claim: _ } = manifest;
    let PlatformWorld::Elf(world) = world else {
        return Err(Fail::from("it is for another platform"));
    };
    Ok(objects_text(alloc, world.inputs.objects.as_slice())?)
}

/// What ten members give. Member 5 has no references, and those from 6 on would refer to members that aren't there.
const TEN: &str =
    "main.o 2, m1.o 5, m2.o 5, m3.o 5, m4.o 5, m5.o 3, m6.o 3, m7.o 3, m8.o 3, m9.o 3, m10.o 3, ";

#[test]
fn ten_members_are_made(rt: HostRuntime) -> Result<(), Fail> {
    let text = made_text(rt.alloc(), bulk_manifest(rt.alloc(), 10)?)?;
    assert_eq!(rt; text.as_str(), TEN);
    Ok(())
}

/// What three members of a chain give. The last one refers to nothing.
const THREE_IN_A_CHAIN: &str = "main.o 2, m1.o 3, m2.o 3, m3.o 2, ";

#[test]
fn three_members_of_a_chain_are_made(rt: HostRuntime) -> Result<(), Fail> {
    let text = made_text(rt.alloc(), chain_manifest(rt.alloc(), 3)?)?;
    assert_eq!(rt; text.as_str(), THREE_IN_A_CHAIN);
    Ok(())
}
