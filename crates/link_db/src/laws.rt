//! Laws about a database of names, as functions that do nothing.

ghost use Rattle.std.specs.Prelude.{◌<◌, Bool, IfSome, Option, length};
ghost use Rattle.link_rules.specs.Places.{Bytes};
ghost use Rattle.link_rules.specs.Targets.{target_in};
ghost use Rattle.link_db.specs.Database.{name_table_of, symbol_names};
ghost use Rattle.link_db.specs.Seen.{seen};

use crate::database::SymbolDb;
use link_input::Platform;

/// What a reference to any name stands for, if anything, is a symbol of the database.
pub fn targets_are_symbols<P: Platform>(db: &SymbolDb<P>)
    ensures { (allow_dynamic : Bool) (name : Bytes) (version : Option Bytes)
        → IfSome (target_in P.WEAK_SYMBOLS_OVERRIDE_COMMON (name_table_of (seen db.now)) allow_dynamic name version) (λ id. id < length (symbol_names (seen db.now))) }
{
    link_db_lookup::targets_are_symbols(&db.mapping);
}
