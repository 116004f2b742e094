//! Laws about what references stand for, as functions that do nothing.

ghost use Rattle.std.specs.Prelude.{◌<◌, Bool, IfSome, Option, length};
ghost use Rattle.link_db_files.specs.HeldFiles.{names_in};
ghost use Rattle.link_db_mapping.specs.Seen.{seen};
ghost use Rattle.link_rules.specs.Places.{Bytes};
ghost use Rattle.link_rules.specs.Targets.{target_in};
ghost use Rattle.link_db_lookup.specs.Tables.{name_table_in};

use link_db_mapping::SymbolMapping;
use link_input::Platform;

/// What a reference to any name stands for, if anything, is a symbol of the files.
pub fn targets_are_symbols<P: Platform>(mapping: &SymbolMapping<P>)
    ensures { (allow_dynamic : Bool) (name : Bytes) (version : Option Bytes)
        → IfSome (target_in P.WEAK_SYMBOLS_OVERRIDE_COMMON (name_table_in (seen mapping.now)) allow_dynamic name version) (λ id. id < length (names_in (seen mapping.now).files)) }
{
    let _files = mapping.files();
}
