//! Groups and symbols that the linker adds behind all files.

use crate::database::SymbolDb;
use link_flags::{PerSymbolFlags, ValueFlags};
use link_ids::{FileId, SymbolId};
use link_input::Platform;
use link_input_groups::Group;
use link_names::Name;
use std::alloc::{AllocError, Global};

impl<P: Platform> SymbolDb<P> {
    ghost use Rattle.std.specs.Prelude.{◌≡◌, ◌-◌, ◌<◌, ◌^◌, ◌++◌, [], ◌∷◌, IfOk, OnErr, OnOk, length, take};
    ghost use Rattle.link_db_buckets.specs.Keys.{Key};
    ghost use Rattle.link_flags.specs.FlagBits as flag;
    ghost use Rattle.link_flags.specs.FlagWords.{numbers_of, words_of};
    ghost use Rattle.link_db_files.specs.Adding.{CanFollow, EndsInSynthetic, next_file, synthetic_group, with_symbol};
    ghost use Rattle.link_db_mapping.specs.Changes.{listed_under, listing_name, with_group};
    ghost use Rattle.link_db.specs.Database.{HasTable, symbol_names};
    ghost use Rattle.link_db.specs.Seen.{seen};
    ghost use Rattle.link_db.specs.Synthetic.{with_linker_symbol};

    /// Makes room for groups. All is as before, where there is room and where there is not.
    pub fn groups_reserve(&mut self, count: usize) -> Result<(), AllocError>
        ensures { seen self.new ≡ seen self.old }
    {
        self.mapping.groups_reserve(count)
    }

    /// Adds a group of files without symbols, which have the ids of the next group's files. A refused call, for want of memory, leaves all as
    /// it was.
    pub fn add_group(&mut self, alloc: Global, group: Group<P>) -> Result<(), AllocError>
        requires { CanFollow (seen self.old).mapping.files group }
        ensures ok { OnOk result (seen self.new ≡ record (seen self.old) { mapping = with_group group (seen self.old).mapping }) }
        ensures err { OnErr result (seen self.new ≡ seen self.old) }
    {
        self.mapping.add_group(alloc, group)?;
        Ok(())
    }

    /// Adds the group of the symbols that the linker makes, of which there is none yet, and answers the id of its file. A refused call, for want
    /// of memory, leaves all as it was.
    pub fn new_synthetic_symbols_group(&mut self, alloc: Global) -> Result<FileId, AllocError>
        requires { length (seen self.old).mapping.files.groups < 2 ^ 24 }
        ensures id { IfOk result (λ id. id ≡ next_file (seen self.old).mapping.files) }
        ensures ok { OnOk result (seen self.new ≡ record (seen self.old) { mapping = with_group (synthetic_group (seen self.old).mapping.files) (seen self.old).mapping }) }
        ensures err { OnErr result (seen self.new ≡ seen self.old) }
    {
        let file = self.mapping.add_synthetic_group(alloc)?;
        Ok(file)
    }

    /// Adds a symbol to the last group, which needs to be that of the symbols that the linker makes, and answers its id. The symbol is its own
    /// definition, and no other file may take its place. Where its name is mapped to a symbol, it is listed behind the definitions of that
    /// symbol's own name; else its name is mapped to it. A refused call, for want of memory, leaves all as it was.
    pub fn add_synthetic_symbol(
        &mut self,
        flags: &mut PerSymbolFlags,
        name: Name,
    ) -> Result<SymbolId, AllocError>
        requires last { EndsInSynthetic (seen self.old).mapping.files.groups }
        requires room { length (symbol_names (seen self.old)) < 2 ^ 32 - 1 }
        requires table { HasTable (seen self.old) }
        requires flags { length (words_of flags.old) ≡ length (symbol_names (seen self.old)) }
        ensures id { IfOk result (λ id. id ≡ length (symbol_names (seen self.old))) }
        ensures ok { OnOk result (seen self.new ≡ with_linker_symbol name (seen self.old)) }
        ensures flags { OnOk result (numbers_of (words_of flags.new) ≡ numbers_of (words_of flags.old) ++ flag.non_interposable ∷ []) }
        ensures err { OnErr result (seen self.new ≡ seen self.old) }
        ensures flags_err { OnErr result (words_of flags.new ≡ words_of flags.old) }
    {
        let id = self.files().next_symbol_id();
        flags.reserve(1)?;
        self.table.push(id)?;
        if let Err(error) = self.mapping.add_synthetic_symbol(name) {
            self.table.pop();
            return Err(error);
        }
        flags.push(ValueFlags::NON_INTERPOSABLE)?;
        Ok(id)
    }

    /// Drops the definitions behind the first of each name. What names are mapped to stays, and each symbol points to what it did.
    pub fn release_alternatives(&mut self)
        ensures { seen self.new ≡ record (seen self.old) { mapping = record (seen self.old).mapping { lists = λ key. take 1 ((seen self.old).mapping.lists key) } } }
    {
        self.mapping.release_later();
    }
}
