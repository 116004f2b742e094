//! The linker scripts and stub libraries of a manifest.

ghost use Rattle.link_manifest.specs.Libraries.{script_read, stub_read};

use crate::fault::ManifestError;
use crate::reading::{Readable, nullable, object_of_keys, optional_list, required};
use crate::redirects::ScriptSymbol;
use crate::values::{Bytes, Text};
use json::Value;
use link_input::{ProcessedLinkerScript, StubLibrary};
use std::alloc::Global;

/// A linker script.
pub(crate) struct Script;

impl Readable for Script {
    type Read = ProcessedLinkerScript;

    ghost read = { script_read };

    fn read(alloc: Global, value: &Value<'_>) -> Result<ProcessedLinkerScript, ManifestError> {
        object_of_keys(alloc, value, &["name", "entry", "version", "symbols"])?;
        let input = required::<Text>(alloc, value, "name")?;
        let entry = nullable::<Bytes>(alloc, value, "entry")?;
        let version = nullable::<Bytes>(alloc, value, "version")?;
        let symbol_defs = optional_list::<ScriptSymbol>(alloc, value, "symbols")?;
        Ok(ProcessedLinkerScript {
            input,
            entry,
            version,
            symbol_defs,
        })
    }
}

/// A stub library.
pub(crate) struct Stub;

impl Readable for Stub {
    type Read = StubLibrary;

    ghost read = { stub_read };

    fn read(alloc: Global, value: &Value<'_>) -> Result<StubLibrary, ManifestError> {
        object_of_keys(alloc, value, &["name", "strong", "weak"])?;
        let input = required::<Text>(alloc, value, "name")?;
        let strong = optional_list::<Bytes>(alloc, value, "strong")?;
        let weak = optional_list::<Bytes>(alloc, value, "weak")?;
        Ok(StubLibrary {
            input,
            strong,
            weak,
        })
    }
}
