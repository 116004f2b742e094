//! What no clause says: that a manifest is read with ample memory, and that the definitions say what
//! is meant.

use link_manifest::{Manifest, ManifestError, PlatformWorld, manifest_of};
use std::alloc::{AllocError, Global};
use std::test::Fail;
use std::thread::Threads;

/// How many workers read a manifest.
const WORKERS: &[usize] = &[1, 2, 7];

/// The text of the fault of some bytes, or `read`.
fn answer(
    rt: &(impl Threads + Sync),
    alloc: Global,
    workers: usize,
    bytes: &[u8],
) -> Result<String, AllocError> {
    match manifest_of(rt, alloc, workers, bytes) {
        Ok(_) => String::from_str(alloc, "read"),
        Err(ManifestError::At(fault)) => format!(in alloc; "{fault}"),
        Err(ManifestError::Memory) => String::from_str(alloc, "out of memory"),
    }
}

/// Manifests with the text of their fault. Each fault at each key is a row of `tools/command_rows.jsonl`, which the built program runs.
const ROWS: &[(&str, &str)] = &[
    ("{}", "read"),
    ("", "not JSON"),
    ("[]", "expected object"),
    (r#"{"z":0,"a":0,"objects":1}"#, "a: unknown key"),
    (
        r#"{"objects":[{"name":"a"},{"name":"b","sections":2,"symbols":[{"name":"f","place":2}]}]}"#,
        "objects[1]: symbol 1 has no such section",
    ),
    // Each item of the list is read by itself, and the first fault is told all the same.
    (
        r#"{"objects":[{"name":"a"},{"name":1},{"z":0}],"wrap":0}"#,
        "wrap: expected list",
    ),
    (
        r#"{"objects":[{"name":"a"},{"name":1},{"z":0}]}"#,
        "objects[1].name: expected text",
    ),
    (r#"{"objects":[{"name":"a"},{"name":1},{]}"#, "not JSON"),
    // Of two lists the last one counts.
    (r#"{"objects":[{}],"objects":[{"name":"a"}]}"#, "read"),
    (
        r#"{"objects":[{"name":"a"}],"objects":[{}]}"#,
        "objects[0].name: missing",
    ),
];

/// A byte order mark, and bytes that are no UTF-8.
const NO_JSON: &[&[u8]] = &[b"\xef\xbb\xbf{}", b"{\"objects\":[{\"name\":\"\xff\"}]}"];

#[test]
fn each_fault_is_told_where_it_is(rt: HostRuntime) -> Result<(), Fail> {
    let alloc = rt.alloc();
    for &workers in WORKERS {
        for &(manifest, want) in ROWS {
            let got = answer(&rt, alloc, workers, manifest.as_bytes())?;
            assert!(rt; got.as_str() == want, "{manifest}");
        }
        for bytes in NO_JSON {
            let got = answer(&rt, alloc, workers, bytes)?;
            assert!(rt; got.as_str() == "not JSON");
        }
    }
    Ok(())
}

/// The platform of what is read.
fn platform(read: Result<Manifest, ManifestError>) -> &'static str {
    let Ok(Manifest { world, claim: _ }) = read else {
        return "none";
    };
    match world {
        PlatformWorld::Elf(_) => "elf",
        PlatformWorld::Mach(_) => "macho",
    }
}

/// Manifests, and their platforms.
const READ: &[(&str, &str)] = &[
    (r#"{"wrap":["w"],"objects":[{"name":"a.o"}]}"#, "elf"),
    (
        r#"{"platform":"macho","stubs":[{"name":"l","strong":["g"]}]}"#,
        "macho",
    ),
];

#[test]
fn both_platforms_are_read(rt: HostRuntime) {
    let alloc = rt.alloc();
    for &(manifest, want) in READ {
        for &workers in WORKERS {
            let read = manifest_of(&rt, alloc, workers, manifest.as_bytes());
            assert_eq!(rt; platform(read), want);
        }
    }
}
