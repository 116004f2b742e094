//! What a reference stands for.

ghost use Rattle.std.specs.Prelude.{◌≡◌, ◌<◌, IfSome, length};
ghost use Rattle.link_db_buckets.specs.Keys.{hash_of};
ghost use Rattle.link_db_texts.specs.Holds.{platform_of};
ghost use Rattle.link_rules.specs.Places.{Bytes};
ghost use Rattle.link_rules.specs.Targets.{is_open, target, target_in};
ghost use Rattle.link_rules.specs.World.{Stage};
ghost use Rattle.link_db.specs.Database.{name_table_of, symbol_names};
ghost use Rattle.link_db.specs.Seen.{seen};
ghost use Rattle.link_db_stage.specs.AtStage.{IsAtStage};

use link_db::{SymbolDb, SymbolKey};
use link_db_symbols::SymbolView;
use link_ids::SymbolId;
use link_input::Platform;

/// By what a reference is looked up: its name, and its version where it has one, whose hash number is known.
fn key_of<'a>(symbol: &SymbolView<'a>, hash: u64) -> SymbolKey<'a>
    requires hashed { hash ≡ hash_of (record { name = symbol.now.name; version = symbol.now.version }) }
    ensures name { result.name ≡ symbol.now.name }
    ensures version { result.version ≡ symbol.now.version }
{
    let name = symbol.name().as_slice();
    match symbol.version() {
        Some(version) => SymbolKey::with_hash(name, Some(version.as_slice()), hash),
        None => SymbolKey::with_hash(name, None, hash),
    }
}

/// What a reference stands for by the names of all batches so far. The hash number is that of its name, or of its name and version.
pub fn looked_up<P: Platform>(db: &SymbolDb<P>, symbol: &SymbolView, hash: u64) -> Option<SymbolId>
    requires hashed { hash ≡ hash_of (record { name = symbol.now.name; version = symbol.now.version }) }
    ensures target { result ≡ target_in P.WEAK_SYMBOLS_OVERRIDE_COMMON (name_table_of (seen db.now)) (is_open symbol.now) symbol.now.name symbol.now.version }
    ensures value { (demangle : Bytes → Bytes) (w : Stage) → IsAtStage (platform_of P.Platform) demangle (seen db.now) w → result ≡ target w symbol.now }
    ensures below { IfSome result (λ t. t < length (symbol_names (seen db.now))) }
{
    db.get(&key_of(symbol, hash), symbol.is_open())
}
