//! Files and symbols that the linker itself adds.

ghost use Rattle.std.specs.Prelude.{◌≡◌};

use crate::symbol_mapping::SymbolMapping;
use link_db_buckets::{Label, key_hash};
use link_ids::{FileId, SymbolId};
use link_input::Platform;
use link_input_groups::Group;
use link_names::Name;
use std::alloc::{AllocError, Global};

impl<P: Platform> SymbolMapping<P> {
    ghost use Rattle.std.specs.Prelude.{◌++◌, ◌-◌, ◌<◌, ◌^◌, [], ◌∷◌, IfOk, OnErr, OnOk, length};
    ghost use Rattle.link_db_files.specs.Adding.{CanFollow, EndsInSynthetic, next_file, synthetic_group, with_symbol};
    ghost use Rattle.link_db_files.specs.HeldFiles.{names_in};
    ghost use Rattle.link_db_mapping.specs.Changes.{listed_under, listing_name, with_group};
    ghost use Rattle.link_db_mapping.specs.Seen.{seen};

    /// Makes room for groups. All is as before, where there is room and where there is not. Mirrors Wild's `SymbolDb::groups_reserve`.
    pub fn groups_reserve(&mut self, count: usize) -> Result<(), AllocError>
        ensures { seen self.new ≡ seen self.old }
    {
        self.tables.files.groups_reserve(count)
    }

    /// Adds a group of files without symbols, which have the ids of the next group's files. Mirrors Wild's `SymbolDb::add_group`.
    ///
    /// After a refusal, which is want of memory, all is as before.
    pub fn add_group(&mut self, alloc: Global, group: Group<P>) -> Result<(), AllocError>
        requires { CanFollow (seen self.old).files group }
        ensures ok { OnOk result (seen self.new ≡ with_group group (seen self.old)) }
        ensures err { OnErr result (seen self.new ≡ seen self.old) }
    {
        self.tables.files.add_group(alloc, group)
    }

    /// Adds the group of the symbols that the linker adds, of which there is none yet, and answers the id of its file.
    ///
    /// After a refusal, which is want of memory, all is as before.
    pub fn add_synthetic_group(&mut self, alloc: Global) -> Result<FileId, AllocError>
        requires { length (seen self.old).files.groups < 2 ^ 24 }
        ensures id { IfOk result (λ id. id ≡ next_file (seen self.old).files) }
        ensures ok { OnOk result (seen self.new ≡ with_group (synthetic_group (seen self.old).files) (seen self.old)) }
        ensures err { OnErr result (seen self.new ≡ seen self.old) }
    {
        self.tables.files.add_synthetic_group(alloc)
    }

    /// Adds a symbol of this name to the last group, and answers its id. Where the name is mapped to a symbol, the new one is listed behind the
    /// definitions of that symbol's own name, and else it becomes the definition of its name. Mirrors Wild's `SymbolDb::add_synthetic_symbol`.
    ///
    /// After a refusal, which is want of memory, all is as before.
    pub fn add_synthetic_symbol(&mut self, name: Name) -> Result<SymbolId, AllocError>
        requires last { EndsInSynthetic (seen self.old).files.groups }
        requires room { length (names_in (seen self.old).files) < 2 ^ 32 - 1 }
        ensures id { IfOk result (λ id. id ≡ length (names_in (seen self.old).files)) }
        ensures files { OnOk result ((seen self.new).files ≡ with_symbol (seen self.old).files name) }
        ensures lists { OnOk result ((seen self.new).lists ≡ listed_under (listing_name (seen self.old) name) (length (names_in (seen self.old).files)) (seen self.old).lists) }
        ensures overridden { OnOk result ((seen self.new).overridden ≡ (seen self.old).overridden) }
        ensures err { OnErr result (seen self.new ≡ seen self.old) }
    {
        let mapped = self.mapped(key_hash(name.as_slice(), None), name.as_slice(), None);
        let id = self.tables.files.add_synthetic_symbol(name)?;
        let listed = mapped.unwrap_or(id);
        let hash = key_hash(self.tables.files.symbol_name(listed).as_slice(), None);
        let label = Label::Plain(listed.as_usize() as u32);
        let number = id.as_usize() as u32;
        if let Err(error) = self.buckets.add(&self.tables, hash, label, number) {
            self.tables.files.remove_synthetic_symbol();
            return Err(error);
        }
        Ok(id)
    }
}
