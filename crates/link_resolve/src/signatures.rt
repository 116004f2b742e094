//! The symbols that name the groups of an output that is an object again.

ghost use Rattle.std.specs.Prelude.{◌≡◌, ◌<◌, ◌∷◌, [], All, length, map};
ghost use Rattle.link_flags.specs.FlagBits as flag;
ghost use Rattle.link_flags.specs.FlagWords.{numbers_of, words_of};
ghost use Rattle.link_resolve_marks.specs.Marks.{mark_on, with_marks};
ghost use Rattle.link_rules.specs.Rivals.{two_steps};
ghost use Rattle.link_db.specs.Database.{HasTable, symbol_names};
ghost use Rattle.link_db.specs.Seen.{seen};

use link_db::SymbolDb;
use link_flags::{PerSymbolFlags, ValueFlags};
use link_ids::SymbolId;
use link_input::Platform;
use link_resolve_marks::mark_symbol;

/// Says of what a symbol means that it names a group.
fn mark_signature<P: Platform>(db: &SymbolDb<P>, id: SymbolId, flags: &mut PerSymbolFlags)
    requires table { HasTable (seen db.now) }
    requires within { id < length (symbol_names (seen db.now)) }
    ensures { numbers_of (words_of flags.new)
        ≡ with_marks (mark_on (two_steps (seen db.now).table id) flag.group_signature ∷ []) (numbers_of (words_of flags.old)) }
{
    mark_symbol(db.definition(id), ValueFlags::GROUP_SIGNATURE, flags);
}

/// Says of what each of these symbols means that it names a group: not of the symbol itself. Takes no memory.
pub fn mark_signatures<P: Platform>(db: &SymbolDb<P>, ids: &[SymbolId], flags: &mut PerSymbolFlags)
    requires table { HasTable (seen db.now) }
    requires within { All (λ id. id < length (symbol_names (seen db.now))) ids.now }
    ensures { numbers_of (words_of flags.new)
        ≡ with_marks (map (λ id. mark_on (two_steps (seen db.now).table id) flag.group_signature) ids.now) (numbers_of (words_of flags.old)) }
{
    for id in ids {
        mark_signature(db, *id, flags);
    }
}
