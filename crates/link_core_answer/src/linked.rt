//! A link that is answered.

ghost use Rattle.std.specs.Prelude.{◌≡◌};
ghost use Rattle.link_closure.specs.Closure.{is_marked};
ghost use Rattle.link_flags.specs.FlagWords.{numbers_of, words_of};
ghost use Rattle.link_db.specs.Seen as database;
ghost use Rattle.link_core_answer.specs.Parts.{AreWhole};

use link_closure::is_marked;
use link_db::SymbolDb;
use link_flags::{FlagsForSymbol, PerSymbolFlags, ValueFlags};
use link_ids::SymbolId;
use link_input::Platform;
use link_names::{Name, NameView};
use link_resolve::{Resolved, Resolver};
use link_resolve_comdat::Candidate;
use link_resolve_discarded::{LoadedGroups, placed_objects};
use link_rules::{GivenVersion, KeptGroup};
use std::alloc::{AllocError, Global};

/// A link that is answered: its inputs, with which objects are loaded, which section groups are kept, and what each symbol means. It keeps columns by the
/// places of objects and by the ids of symbols beside the files, so no name of a symbol is copied. A contract sees what `seen` tells of it, and `answer_of`
/// of that is the answer.
pub struct Linked<P: Platform> {
    db: SymbolDb<P>,
    /// Which objects are loaded, what their references stand for, how strongly symbols bind, and which section groups are kept.
    resolver: Resolver,
    /// The flags of each symbol's own value.
    flags: PerSymbolFlags,
    versions: Vec<GivenVersion>,
    undefined: Vec<SymbolId>,
    missing: Vec<Name>,
    /// The symbols that root names are mapped to.
    roots: Vec<SymbolId>,
    ghost whole: { AreWhole (record {
      db = database.seen db;
      known = resolver.known;
      groups = resolver.groups;
      flags = numbers_of (words_of flags);
      versions = versions.items;
      undefined = undefined.items;
      missing = missing.items;
      roots = roots.items;
    }) },
}

// By hand, so that what lets one go makes one call and does not name its parts.
impl<P: Platform> Drop for Linked<P> {
    fn drop(self) {
        let Self {
            db: _,
            resolver: _,
            flags: _,
            versions: _,
            undefined: _,
            missing: _,
            roots: _,
        } = self;
    }
}

impl<P: Platform> Linked<P> {
    ghost use Rattle.std.specs.Prelude.{◌≡◌, ◌<◌, ◌^◌, All, IfOk, Some, length, slice_get};
    ghost use Rattle.std.specs.List.{slice_index_or};
    ghost use Rattle.link_db_files.specs.HeldFiles.{version_of};
    ghost use Rattle.link_db_files.specs.Inputs.{objects_in};
    ghost use Rattle.link_rules.specs.Rivals.{two_steps};
    ghost use Rattle.link_db.specs.Database.{HasTable, symbol_names};
    ghost use Rattle.link_core_answer.specs.Parts.{loaded_among};
    ghost use Rattle.link_core_answer.specs.Seen.{seen};

    /// A link of these parts: a database whose table is that of the end; what is known of its objects and symbols; the flags of each symbol; the versions
    /// that symbols are given; the references that stand for undefined names; the names that the export list requires and nothing defines; and the symbols
    /// that root names are mapped to.
    pub fn new(
        db: SymbolDb<P>,
        resolver: Resolver,
        flags: PerSymbolFlags,
        versions: Vec<GivenVersion>,
        undefined: Vec<SymbolId>,
        missing: Vec<Name>,
        roots: Vec<SymbolId>,
    ) -> Self
        requires table { HasTable (database.seen db) }
        requires flags { length (words_of flags) ≡ length (symbol_names (database.seen db)) }
        requires undefined { All (λ s. s < length (symbol_names (database.seen db))) undefined.items }
        ensures { seen result ≡ record {
          db = database.seen db;
          known = resolver.known;
          groups = resolver.groups;
          flags = numbers_of (words_of flags);
          versions = versions.items;
          undefined = undefined.items;
          missing = missing.items;
          roots = roots.items;
        } }
    {
        Linked {
            db,
            resolver,
            flags,
            versions,
            undefined,
            missing,
            roots,
        }
    }

    /// The files with their symbols, what each of these points to, and what names are mapped to.
    pub fn db(&self) -> &SymbolDb<P>
        ensures { database.seen result.now ≡ (seen self.now).db }
    {
        &self.db
    }

    /// A mark for each loaded object, by its place; what the references of these stand for, and how strongly each symbol binds, by its id.
    pub fn resolved(&self) -> &Resolved
        ensures { result.now ≡ (seen self.now).known }
    {
        self.resolver.resolved()
    }

    /// The loaded objects, regular and shared ones, each with its place among all, in their order. The only refusal is want of memory.
    pub fn loaded_objects(&self, alloc: Global) -> Result<Vec<Candidate<'_, P>>, AllocError>
        ensures { IfOk result (λ objects. objects.items ≡ loaded_among (seen self.now).known.marks (objects_in (seen self.now).db.mapping.files.groups)) }
    {
        let mut objects = placed_objects(alloc, self.db.groups())?;
        let loaded = self.resolver.resolved().loaded();
        objects.retain(|object| is_marked(loaded, object.place));
        Ok(objects)
    }

    /// The section groups of the loaded regular objects.
    pub fn groups(&self) -> &LoadedGroups
        ensures { result.now ≡ (seen self.now).groups }
    {
        self.resolver.loaded_groups()
    }

    /// The COMDAT groups that are kept, in the order of the objects and of the groups in each.
    pub fn kept_comdats(&self) -> &[KeptGroup]
        ensures { result.now ≡ (seen self.now).groups.groups.kept }
    {
        self.resolver.loaded_groups().kept_comdats()
    }

    /// How many symbols there are, with those that the linker made.
    pub fn num_symbols(&self) -> usize
        ensures value { result ≡ length (symbol_names (seen self.now).db) }
        ensures fits { result < 2 ^ 32 }
    {
        self.db.num_symbols()
    }

    /// The name of the symbol.
    pub fn symbol_name(&self, id: SymbolId) -> NameView<'_>
        requires { id < length (symbol_names (seen self.now).db) }
        ensures { slice_get (symbol_names (seen self.now).db) id ≡ Some result }
    {
        self.db.symbol_name(id)
    }

    /// The version of the symbol, where its object's table gives it one.
    pub fn symbol_version(&self, id: SymbolId) -> Option<NameView<'_>>
        requires { id < length (symbol_names (seen self.now).db) }
        ensures { result ≡ version_of (seen self.now).db.mapping.files id }
    {
        self.db.symbol_version_debug(id)
    }

    /// What the symbol means: two steps through the table, since a reference points to the first definition of its name, and that one to the definition
    /// that counts. What means nothing means the undefined symbol, of id 0.
    pub fn definition(&self, id: SymbolId) -> SymbolId
        requires { id < length (symbol_names (seen self.now).db) }
        ensures { result ≡ two_steps (seen self.now).db.table id }
    {
        self.db.definition(id)
    }

    /// The flags of the symbol's own value.
    pub fn flags(&self, id: SymbolId) -> ValueFlags
        requires { id < length (symbol_names (seen self.now).db) }
        ensures { result.0 ≡ slice_index_or (seen self.now).flags id 0 }
    {
        self.flags.flags_for_symbol(id)
    }

    /// The versions that the version script gives to symbols of a shared output, in the order of their ids.
    pub fn versions(&self) -> &[GivenVersion]
        ensures { result.now ≡ (seen self.now).versions }
    {
        &self.versions
    }

    /// The references that stand for the names, perhaps of a version, that loaded objects refer to and nothing defines, in the order of their ids.
    pub fn undefined(&self) -> &[SymbolId]
        ensures references { result.now ≡ (seen self.now).undefined }
        ensures symbols { All (λ s. s < length (symbol_names (seen self.now).db)) result.now }
    {
        &self.undefined
    }

    /// The names that the export list requires and nothing defines, in the order of the list.
    pub fn missing(&self) -> &[Name]
        ensures { result.now ≡ (seen self.now).missing }
    {
        &self.missing
    }

    /// The symbols that root names are mapped to, in the order of the names: the entry, required exports, forced names, and what redirects refer to.
    pub fn roots(&self) -> &[SymbolId]
        ensures { result.now ≡ (seen self.now).roots }
    {
        &self.roots
    }
}
