//! The symbols of an object.

ghost use Rattle.std.specs.Prelude.{◌≡◌, IfOk};
ghost use Rattle.link_manifest.specs.Symbols.{symbol_read, null_entry, entries_before, table_read};

use crate::fault::{Kind, ManifestError, Problem};
use crate::path::fault_here;
use crate::reading::{Readable, items, nullable, object_of_keys, optional, required};
use crate::values::{Bytes, Flag, Size, SymbolPlace};
use crate::words::OneOf;
use json::Value;
use link_flags::Visibility;
use link_input::{Place, Platform, SymbolBinding, SymbolEntry, SymbolKind};
use link_names::{Name, Seq};
use std::alloc::{AllocError, Global};
use std::marker::PhantomData;

/// An entry of a symbol table.
struct Symbol;

impl Readable for Symbol {
    type Read = SymbolEntry;

    ghost read = { symbol_read };

    fn read(alloc: Global, value: &Value<'_>) -> Result<SymbolEntry, ManifestError> {
        object_of_keys(
            alloc,
            value,
            &[
                "name", "place", "bind", "vis", "kind", "size", "version", "default",
            ],
        )?;
        let name = required::<Bytes>(alloc, value, "name")?;
        let place = required::<SymbolPlace>(alloc, value, "place")?;
        let binding = optional::<OneOf<SymbolBinding>>(
            alloc,
            value,
            "bind",
            SymbolBinding::Global,
        )?;
        let visibility = optional::<OneOf<Visibility>>(alloc, value, "vis", Visibility::Default)?;
        let kind = optional::<OneOf<SymbolKind>>(alloc, value, "kind", SymbolKind::Plain)?;
        let size = optional::<Size>(alloc, value, "size", 0)?;
        let version = nullable::<Bytes>(alloc, value, "version")?;
        let is_default = optional::<Flag>(alloc, value, "default", true)?;
        Ok(SymbolEntry {
            name,
            version,
            is_default,
            binding,
            visibility,
            kind,
            size,
            place,
        })
    }
}

/// The entry that stands before all others of a table.
fn null_entry(alloc: Global) -> SymbolEntry
    ensures { result ≡ null_entry }
{
    SymbolEntry {
        name: Name::new(Vec::new(alloc)),
        version: None,
        is_default: true,
        binding: SymbolBinding::Local,
        visibility: Visibility::Default,
        kind: SymbolKind::Plain,
        size: 0,
        place: Place::Undefined,
    }
}

/// The entries that stand before the symbols that are given: the null entry, where the platform has one.
pub(crate) fn entries_before<P: Platform>(alloc: Global) -> Result<Vec<SymbolEntry>, AllocError>
    ensures { IfOk result (λ entries. entries.items ≡ entries_before P.HAS_NULL_SYMBOL_ENTRY) }
{
    let mut entries = Vec::new(alloc);
    if P::HAS_NULL_SYMBOL_ENTRY {
        entries.push(null_entry(alloc))?;
    }
    Ok(entries)
}

/// The symbol table of an object of a platform.
pub(crate) struct Table<P> {
    platform: PhantomData<P>,
}

impl<P: Platform> Readable for Table<P> {
    type Read = Seq<SymbolEntry>;

    ghost read = { table_read P.HAS_NULL_SYMBOL_ENTRY };

    fn read(alloc: Global, value: &Value<'_>) -> Result<Seq<SymbolEntry>, ManifestError> {
        match link_manifest_json::items(value) {
            Some(values) => items::<Symbol>(alloc, values, entries_before::<P>(alloc)?),
            None => Err(fault_here(alloc, Problem::Expected(Kind::List))),
        }
    }
}
