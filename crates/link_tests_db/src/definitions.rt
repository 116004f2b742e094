//! Words that tell a symbol of the linker or of a linker script.

use crate::fault::Fault;
use crate::words::{key_and_value, listed, number_of, unescaped};
use link_input::{InternalSymDefInfo, Redirect, RedirectKind, SymbolLoc, SymbolPlacement};
use std::alloc::Global;

/// A redirect to the names that a word lists.
fn redirect(alloc: Global, value: &[u8], loc: SymbolLoc) -> Result<SymbolPlacement, Fault> {
    let targets = listed(alloc, value)?;
    Ok(SymbolPlacement::Redirect(Redirect {
        kind: RedirectKind::DefSym,
        targets,
        loc,
    }))
}

/// The placement that a word with a value tells: `to` is a redirect that stands nowhere, and `at` one at the first section.
fn placement_with(alloc: Global, key: &[u8], value: &[u8]) -> Result<SymbolPlacement, Fault> {
    match key {
        b"start" => Ok(SymbolPlacement::SectionStart(number_of(value)?)),
        b"end" => Ok(SymbolPlacement::SectionEnd(number_of(value)?)),
        b"tls" => Ok(SymbolPlacement::TlsEnd(number_of(value)?)),
        b"group" => Ok(SymbolPlacement::SectionGroupEnd(number_of(value)?)),
        b"to" => redirect(alloc, value, SymbolLoc::None),
        b"at" => redirect(alloc, value, SymbolLoc::FirstSection),
        _ => Err(Fault::Placement),
    }
}

/// The placement that a word tells.
fn placement_of(alloc: Global, word: &[u8]) -> Result<SymbolPlacement, Fault> {
    match word {
        b"undefined" => Ok(SymbolPlacement::Undefined),
        b"forced" => Ok(SymbolPlacement::ForceUndefined),
        b"base" => Ok(SymbolPlacement::LoadBaseAddress),
        b"platform" => Ok(SymbolPlacement::PlatformSpecific),
        _ => match key_and_value(word) {
            Some((key, value)) => placement_with(alloc, key, value),
            None => Err(Fault::Placement),
        },
    }
}

/// A definition: a name, its placement, and perhaps `hidden`.
/// How lines are read is left to the cases: no clause says it.
pub fn definition_of(alloc: Global, words: &[&[u8]]) -> Result<InternalSymDefInfo, Fault> {
    let (name, placement, hidden) = match words {
        [name, placement] => (name, placement, false),
        [name, placement, b"hidden"] => (name, placement, true),
        _ => return Err(Fault::Placement),
    };
    Ok(InternalSymDefInfo {
        placement: placement_of(alloc, placement)?,
        name: unescaped(alloc, name)?,
        hidden,
    })
}
