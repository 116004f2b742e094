//! The first definition of the name of each symbol that defines one.

ghost use Rattle.std.specs.Prelude.{◌≡◌, IfOk, map};
ghost use Rattle.link_db_files.specs.GroupFiles.{symbols_in};
ghost use Rattle.link_db_mapping.specs.Keys.{versioned_key};
ghost use Rattle.link_db_mapping.specs.Mapped.{mapped_key, mapping_of};
ghost use Rattle.link_db.specs.Seen.{seen};
ghost use Rattle.link_names.specs.Names.{value_in};
ghost use Rattle.link_resolve_explanation.specs.Heads.{known_first, plain_head, versioned_head};

use crate::listing::{is_listed, is_version_listed};
use link_db::{SymbolDb, SymbolKey};
use link_db_symbols::{SymbolView, symbols};
use link_ids::SymbolId;
use link_input::Platform;
use link_names::NameMap;
use std::alloc::{AllocError, Global};

/// The first definition of a name: what is noted of it, else what it is mapped to.
fn known_first<P: Platform>(
    db: &SymbolDb<P>,
    noted: &NameMap<Option<SymbolId>>,
    name: &[u8],
) -> Option<SymbolId>
    ensures { result ≡ known_first (mapping_of (seen db.now).mapping) (value_in noted.now) name.now }
{
    match noted.get(name) {
        Some(first) => first,
        None => db.get_unversioned(name),
    }
}

/// The first definition of a symbol's plain name, where it is one of them.
fn plain_head<P: Platform>(
    db: &SymbolDb<P>,
    noted: &NameMap<Option<SymbolId>>,
    symbol: &SymbolView,
) -> Option<SymbolId>
    ensures { result ≡ plain_head (known_first (mapping_of (seen db.now).mapping) (value_in noted.now)) symbol.now }
{
    if is_listed(symbol) {
        known_first(db, noted, symbol.name().as_slice())
    } else {
        None
    }
}

/// The first definition of a symbol's name and version, where it is one of them.
fn versioned_head<P: Platform>(db: &SymbolDb<P>, symbol: &SymbolView) -> Option<SymbolId>
    ensures { result ≡ versioned_head (λ name version. mapped_key (seen db.now).mapping (versioned_key name version)) symbol.now }
{
    if !is_version_listed(symbol) {
        return None;
    }
    let version = symbol.version()?;
    let name = symbol.name();
    db.get(
        &SymbolKey::new(name.as_slice(), Some(version.as_slice())),
        true,
    )
}

/// For each symbol the first definition of its plain name, where it is one of them; some names are noted with theirs, and the others are looked up.
pub(crate) fn plain_heads<P: Platform>(
    alloc: Global,
    db: &SymbolDb<P>,
    noted: &NameMap<Option<SymbolId>>,
) -> Result<Vec<Option<SymbolId>>, AllocError>
    ensures { IfOk result (λ heads. heads.items
        ≡ map (plain_head (known_first (mapping_of (seen db.now).mapping) (value_in noted.now))) (symbols_in (seen db.now).mapping.files.groups)) }
{
    let mut heads = Vec::with_capacity(alloc, db.files().num_symbols())?;
    for (_, symbol) in symbols(db.files()) {
        heads.push(plain_head(db, noted, &symbol))?;
    }
    Ok(heads)
}

/// For each symbol the first definition of its name and version, where it is one of them.
pub(crate) fn versioned_heads<P: Platform>(
    alloc: Global,
    db: &SymbolDb<P>,
) -> Result<Vec<Option<SymbolId>>, AllocError>
    ensures { IfOk result (λ heads. heads.items
        ≡ map (versioned_head (λ name version. mapped_key (seen db.now).mapping (versioned_key name version))) (symbols_in (seen db.now).mapping.files.groups)) }
{
    let mut heads = Vec::with_capacity(alloc, db.files().num_symbols())?;
    for (_, symbol) in symbols(db.files()) {
        heads.push(versioned_head(db, &symbol))?;
    }
    Ok(heads)
}
