//! The definitions of names, as lists of rivals.

ghost use Rattle.std.specs.Prelude.{◌≡◌, false};
ghost use Rattle.std.specs.List.{slice_index_or};
ghost use Rattle.link_db_mapping.specs.Mapped.{AreHeadsMarked};
ghost use Rattle.link_db.specs.Seen.{seen};
ghost use Rattle.link_resolve.specs.Known.{IsListed};

use link_db::SymbolDb;
use link_ids::SymbolId;
use link_input::Platform;
use link_resolve_rivals::RivalLists;

/// The definitions of plain names. Most names have one definition at most: so a mark tells which symbols are worth a look-up of their names.
#[derive(Drop)]
pub struct PlainLists<'a, P: Platform> {
    pub db: &'a SymbolDb<P>,
    /// What `heads_of_several` says of the symbol of an id.
    pub heads: &'a [bool],
    ghost listed: { IsListed (seen db.now) },
    ghost marked: { AreHeadsMarked (seen db.now).mapping heads.now },
}

impl<'a, P: Platform> RivalLists for PlainLists<'a, P> {
    ghost use Rattle.std.specs.Prelude.{length};
    ghost use Rattle.link_db_files.specs.GroupFiles.{symbols_in};
    ghost use Rattle.link_db.specs.Seen.{seen};
    ghost use Rattle.link_resolve.specs.Lists.{plain_rivals};

    ghost listed = { λ lists. plain_rivals (symbols_in (seen lists.db.now).mapping.files.groups) };

    ghost count = { λ lists. length (symbols_in (seen lists.db.now).mapping.files.groups) };

    fn later(&self, id: SymbolId) -> &[u32] {
        if !is_head(self.heads, id) {
            return &[];
        }
        self.db.later_definitions(id)
    }
}

/// The definitions of names with versions.
#[derive(Drop)]
pub struct VersionedLists<'a, P: Platform> {
    pub db: &'a SymbolDb<P>,
    /// What `heads_of_several` says of the symbol of an id.
    pub heads: &'a [bool],
    ghost listed: { IsListed (seen db.now) },
    ghost marked: { AreHeadsMarked (seen db.now).mapping heads.now },
}

impl<'a, P: Platform> RivalLists for VersionedLists<'a, P> {
    ghost use Rattle.std.specs.Prelude.{length};
    ghost use Rattle.link_db_files.specs.GroupFiles.{symbols_in};
    ghost use Rattle.link_db.specs.Seen.{seen};
    ghost use Rattle.link_resolve.specs.Lists.{versioned_rivals};

    ghost listed = { λ lists. versioned_rivals (symbols_in (seen lists.db.now).mapping.files.groups) };

    ghost count = { λ lists. length (symbols_in (seen lists.db.now).mapping.files.groups) };

    fn later(&self, id: SymbolId) -> &[u32] {
        if !is_head(self.heads, id) {
            return &[];
        }
        self.db.later_versioned_definitions(id)
    }
}

/// Whether the symbol has a mark.
fn is_head(heads: &[bool], id: SymbolId) -> bool
    ensures { result ≡ slice_index_or heads.now id false }
{
    match heads.get(id.as_usize()) {
        Some(is_head) => *is_head,
        None => false,
    }
}
