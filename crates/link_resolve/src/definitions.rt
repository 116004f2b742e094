//! What names are mapped to in a database.

ghost use Rattle.std.specs.Prelude.{◌<◌, IfSome, length};
ghost use Rattle.link_db_mapping.specs.Mapped.{mapping_of};
ghost use Rattle.link_rules.specs.Places.{Bytes};
ghost use Rattle.link_db.specs.Database.{symbol_names};
ghost use Rattle.link_db.specs.Seen.{seen};

use link_db::SymbolDb;
use link_db_symbols::FirstDefinitions;
use link_ids::SymbolId;
use link_input::Platform;

/// What names are mapped to in a database.
#[derive(Drop)]
pub struct Definitions<'a, P: Platform> {
    pub db: &'a SymbolDb<P>,
}

impl<'a, P: Platform> FirstDefinitions for Definitions<'a, P> {
    ghost use Rattle.link_db_mapping.specs.Mapped.{mapping_of};
    ghost use Rattle.link_db.specs.Seen.{seen};

    ghost mapping = { λ names. mapping_of (seen names.db.now).mapping };

    fn first_definition(&self, name: &[u8]) -> Option<SymbolId> {
        self.db.get_unversioned(name)
    }
}

/// A name that is mapped is mapped to a symbol of the database: a law, as a function that does nothing.
pub fn names_are_mapped_to_symbols<P: Platform>(db: &SymbolDb<P>)
    ensures { (name : Bytes) → IfSome (mapping_of (seen db.now).mapping name) (λ s. s < length (symbol_names (seen db.now))) }
{
    let _names = db.all_unversioned_symbols();
}
