//! Reads a manifest: one JSON value that says which files are linked, with their symbol tables.
//!
//! A manifest that can't be read is told with the place in it that is at fault, as
//! `objects[0].symbols[2].name: missing`. Which of several faults is told is fixed: the tree is
//! walked from its root, and the first fault on that walk counts.
//!
//! Some of its public calls are for callers of the library alone, and no crate here makes them: docs/PORT.md lists them.
#![tactic(auto)]

mod batches;
mod claims;
mod contents;
mod cut;
mod fault;
mod laws;
mod libraries;
mod link_options;
mod manifest;
mod objects;
mod path;
mod reading;
mod redirects;
mod sections;
mod symbols;
mod tables;
mod values;
mod words;

pub use fault::{Kind, ManifestError, ManifestFault, Problem, Step};
pub use laws::{
    read_batches, read_claims, read_later_options, read_libraries, read_object_keys, read_objects,
    read_options, refused_values, refused_wholes, written_faults,
};
pub use manifest::{MAX_BYTES, Manifest, PlatformWorld, manifest_of};
