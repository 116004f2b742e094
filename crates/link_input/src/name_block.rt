//! Names that lie one behind the other in a block of bytes.

ghost use Rattle.std.specs.Prelude.{◌≡◌, Some, IfOk, OnOk, map, option_map};
ghost use Rattle.std.specs.List.{AllZip};
ghost use Rattle.link_input.specs.NameBlock.{IsAt, IsInside, IsVersionAt, Keeps, bytes_at};
ghost use Rattle.link_input.specs.declared.name_block.Span.{Span};

use crate::symbol_entry::SymbolEntry;
use link_names::Name;
use std::alloc::{AllocError, Global};

/// Where the bytes of a name stand in a block.
#[derive(Clone, Copy, Debug)]
pub struct Span {
    pub start: usize,
    pub len: usize,
}

/// The bytes that stand at a span.
pub fn bytes_at(block: &[u8], span: Span) -> &[u8]
    requires { IsInside block.now span }
    ensures { result.now ≡ bytes_at block.now span }
{
    let (_, rest) = block.split_at(span.start);
    let (bytes, _) = rest.split_at(span.len);
    bytes
}

/// The bytes that stand at the span of a version, where there is one.
pub fn version_at(block: &[u8], version: Option<Span>) -> Option<&[u8]>
    requires { (span : Span) → version ≡ Some span → IsInside block.now span }
    ensures { option_map (λ bytes. bytes.now) result ≡ option_map (bytes_at block.now) version }
{
    match version {
        Some(span) => Some(bytes_at(block, span)),
        None => None,
    }
}

/// Puts a name at the end of the block.
fn put(block: &mut Vec<u8>, name: &[u8]) -> Result<Span, AllocError>
    ensures put { IfOk result (λ span. IsAt block.new.items span name.now) }
    ensures kept { OnOk result (Keeps block.old.items block.new.items) }
{
    let span = Span {
        start: block.len(),
        len: name.len(),
    };
    block.extend_from_slice(name)?;
    Ok(span)
}

/// Puts a version at the end of the block, where there is one.
fn put_version(block: &mut Vec<u8>, version: &Option<Name>) -> Result<Option<Span>, AllocError>
    ensures put { IfOk result (λ span. IsVersionAt block.new.items span version.now) }
    ensures kept { OnOk result (Keeps block.old.items block.new.items) }
{
    match version {
        Some(name) => Ok(Some(put(block, name.as_slice())?)),
        None => Ok(None),
    }
}

/// Puts the names of entries at the end of the block, and tells where each stands.
pub fn put_names(
    alloc: Global,
    block: &mut Vec<u8>,
    entries: &[SymbolEntry],
) -> Result<Vec<Span>, AllocError>
    ensures { IfOk result (λ spans. AllZip (IsAt block.new.items) spans.items (map (λ e. e.name) entries.now)) }
{
    let mut spans = Vec::new(alloc);
    for entry in entries {
        spans.push(put(block, entry.name.as_slice())?)?;
    }
    Ok(spans)
}

/// Puts the versions of entries at the end of the block, and tells where each stands.
pub fn put_versions(
    alloc: Global,
    block: &mut Vec<u8>,
    entries: &[SymbolEntry],
) -> Result<Vec<Option<Span>>, AllocError>
    ensures put { IfOk result (λ spans. AllZip (IsVersionAt block.new.items) spans.items (map (λ e. e.version) entries.now)) }
    ensures kept { OnOk result (Keeps block.old.items block.new.items) }
{
    let mut spans = Vec::new(alloc);
    for entry in entries {
        spans.push(put_version(block, &entry.version)?)?;
    }
    Ok(spans)
}
