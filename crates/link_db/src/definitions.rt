//! What each symbol points to.

use crate::database::SymbolDb;
use link_ids::SymbolId;
use link_input::Platform;

impl<P: Platform> SymbolDb<P> {
    ghost use Rattle.std.specs.Prelude.{◌≡◌, ◌==◌, ◌<◌, [], All, length, slice_index, slice_set};
    ghost use Rattle.link_rules.specs.Rivals.{two_steps};
    ghost use Rattle.link_db.specs.Database.{HasTable, symbol_names};
    ghost use Rattle.link_db.specs.Seen.{seen};

    /// What a symbol means: two steps through the table, since a reference points to the first definition of its name, and that one to the
    /// definition that counts. The table may not be taken.
    pub fn definition(&self, id: SymbolId) -> SymbolId
        requires table { HasTable (seen self.now) }
        requires within { id < length (symbol_names (seen self.now)) }
        ensures value { result ≡ two_steps (seen self.now).table id }
        ensures within { result < length (symbol_names (seen self.now)) }
    {
        let first = self.table[id.as_usize()];
        self.table[first.as_usize()]
    }

    /// Whether the symbol points to itself.
    pub fn is_canonical(&self, id: SymbolId) -> bool
        requires table { HasTable (seen self.now) }
        requires within { id < length (symbol_names (seen self.now)) }
        ensures { result ≡ (slice_index (seen self.now).table id == id) }
    {
        self.table[id.as_usize()] == id
    }

    /// Lets the symbol point to another.
    pub fn replace_definition(&mut self, id: SymbolId, definition: SymbolId)
        requires table { HasTable (seen self.old) }
        requires symbol { id < length (symbol_names (seen self.old)) }
        requires definition { definition < length (symbol_names (seen self.old)) }
        ensures { seen self.new ≡ record (seen self.old) { table = slice_set (seen self.old).table id definition } }
    {
        self.table[id.as_usize()] = definition;
    }

    /// Hands the table out, so that it can be changed beside what the database lends. While it is out, no call may read it or add symbols.
    pub fn take_definitions(&mut self) -> Vec<SymbolId>
        ensures taken { result.items ≡ (seen self.old).table }
        ensures rest { seen self.new ≡ record (seen self.old) { table = [] } }
    {
        let empty = Vec::new(*self.table.allocator());
        std::mem::replace(&mut self.table, empty)
    }

    /// Puts a table in place of the one that is held: an entry for each symbol, which is the id of one.
    pub fn restore_definitions(&mut self, table: Vec<SymbolId>)
        requires whole { length table.items ≡ length (symbol_names (seen self.old)) }
        requires within { All (λ entry. entry < length (symbol_names (seen self.old))) table.items }
        ensures { seen self.new ≡ record (seen self.old) { table = table.items } }
    {
        self.table = table;
    }
}
