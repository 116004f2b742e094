//! A database with the flags of its symbols.

ghost use Rattle.std.specs.Prelude.{◌<◌, ◌^◌, IfOk, length};
ghost use Rattle.link_flags.specs.FlagWords.{words_of};
ghost use Rattle.link_db_files.specs.Adding.{CanFollow};
ghost use Rattle.link_db.specs.Seen.{seen};
ghost use Rattle.link_tests_db.specs.Held.{IsWhole};

use crate::fault::Fault;
use crate::naming::OneName;
use crate::setup::Setup;
use crate::stage::Stage;
use crate::table::write_table;
use link_db::SymbolDb;
use link_flags::PerSymbolFlags;
use link_ids::{FileId, SymbolId, SymbolIdRange};
use link_input::{Inputs, Platform, ProcessedLinkerScript};
use link_input_groups::{Group, SequencedLinkerScript};
use link_names::{Name, Seq};
use link_rules::LinkError;
use std::alloc::{AllocError, Global};
use std::thread::Threads;

/// A database whose table is not taken, with the flags of its symbols.
#[derive(Drop)]
pub struct Link<P: Platform> {
    pub db: SymbolDb<P>,
    pub flags: PerSymbolFlags,
    pub stage: Stage,
    ghost whole: { IsWhole (seen db) (words_of flags) },
}

impl<P: Platform> Link<P> {
    ghost use Rattle.std.specs.Prelude.{◌≤◌};
    ghost use Rattle.link_db.specs.Database.{symbol_names};
    ghost use Rattle.link_tests_db.specs.Staged.{IsAtStage};

    /// The database of a link without files.
    pub fn new(alloc: Global, setup: Setup) -> Result<Self, LinkError>
        requires workers { (1 ≤ setup.workers) × (setup.workers ≤ 256) }
        requires files { (1 ≤ setup.options.files_per_group) × (setup.options.files_per_group ≤ 256) }
        ensures { IfOk result IsAtStage }
    {
        let Setup {
            options,
            texts,
            workers,
        } = setup;
        let db = SymbolDb::new(alloc, options, &texts, workers)?;
        Ok(Link {
            db,
            flags: PerSymbolFlags::new(alloc),
            stage: Stage::Batches(0),
        })
    }

    /// Wraps the names of the options.
    pub fn wrap(&mut self, alloc: Global) -> Result<(), AllocError>
        requires { IsAtStage self.old }
        ensures { IsAtStage self.new }
    {
        self.db.apply_wrapped_symbol_overrides(alloc)
    }

    /// Drops the definitions behind the first of each name.
    pub fn release(&mut self)
        requires { IsAtStage self.old }
        ensures { IsAtStage self.new }
    {
        self.db.release_alternatives();
    }

    /// Does what a version script of the Rust form says.
    pub fn free_listed(&mut self)
        requires { IsAtStage self.old }
        ensures { IsAtStage self.new }
    {
        self.db.handle_rust_version_script(&mut self.flags);
    }

    /// Maps a name to a symbol, and answers what it was mapped to.
    pub fn override_name(
        &mut self,
        name: Name,
        id: SymbolId,
    ) -> Result<Option<SymbolId>, AllocError>
        requires stage { IsAtStage self.old }
        requires symbol { id < length (symbol_names (seen self.old.db)) }
        ensures { IsAtStage self.new }
    {
        self.db.override_name(name, id)
    }

    /// Lets a symbol point to another.
    pub fn point(&mut self, id: SymbolId, definition: SymbolId)
        requires stage { IsAtStage self.old }
        requires symbol { id < length (symbol_names (seen self.old.db)) }
        requires definition { definition < length (symbol_names (seen self.old.db)) }
        ensures { IsAtStage self.new }
    {
        self.db.replace_definition(id, definition);
    }

    /// Writes what each symbol points to.
    pub fn write_table(&mut self, text: &mut String) -> Result<(), AllocError>
        requires { IsAtStage self.old }
        ensures { IsAtStage self.new }
    {
        write_table(text, &mut self.db)
    }

    /// Adds a group of a linker script without symbols, with the name of an entry. No batch can follow.
    pub fn add_script(&mut self, alloc: Global, input: Name, entry: Name) -> Result<(), Fault>
        requires { IsAtStage self.old }
        ensures { IsAtStage self.new }
    {
        self.stage = Stage::Groups;
        if self.db.next_group_index() >= 1 << 24 {
            return Err(Fault::Room);
        }
        self.db.groups_reserve(1)?;
        let group = script_group(alloc, &self.db, input, entry)?;
        self.db.add_group(alloc, group)?;
        Ok(())
    }

    /// Adds the group of the symbols that the linker makes. No batch can follow.
    pub fn add_symbols(&mut self, alloc: Global) -> Result<FileId, Fault>
        requires { IsAtStage self.old }
        ensures { IsAtStage self.new }
    {
        self.stage = Stage::Groups;
        if self.db.next_group_index() >= 1 << 24 {
            return Err(Fault::Room);
        }
        let file = self.db.new_synthetic_symbols_group(alloc)?;
        self.stage = Stage::Symbols;
        Ok(file)
    }

    /// Adds a symbol that the linker makes.
    pub fn add_symbol(&mut self, name: Name) -> Result<SymbolId, Fault>
        requires { IsAtStage self.old }
        ensures { IsAtStage self.new }
    {
        let Stage::Symbols = self.stage else {
            return Err(Fault::Room);
        };
        if self.db.num_symbols() >= u32::MAX as usize {
            return Err(Fault::Room);
        }
        Ok(self.db.add_synthetic_symbol(&mut self.flags, name)?)
    }
}

impl<P: Platform + Sync> Link<P> {
    ghost use Rattle.link_tests_db.specs.Staged.{IsAtStage};

    /// Adds a batch, where one can follow, or says why it is refused.
    pub fn add<R: Threads + Sync>(
        &mut self,
        rt: &R,
        alloc: Global,
        inputs: Inputs<P>,
    ) -> Result<Result<(), LinkError>, Fault>
        requires { IsAtStage self.old }
        ensures { IsAtStage self.new }
    {
        let Stage::Batches(count) = self.stage else {
            return Err(Fault::Batch);
        };
        if count >= 255 {
            return Err(Fault::Batch);
        }
        self.stage = Stage::Batches(count + 1);
        let flags = &mut self.flags;
        Ok(self.db.add_inputs(rt, alloc, &OneName, flags, inputs))
    }
}

/// A linker script with an entry and without symbols, as the only file of the next group.
fn script_group<P: Platform>(
    alloc: Global,
    db: &SymbolDb<P>,
    input: Name,
    entry: Name,
) -> Result<Group<P>, AllocError>
    requires { length (seen db.now).mapping.files.groups < 2 ^ 24 }
    ensures { IfOk result (CanFollow (seen db.now).mapping.files) }
{
    let next = SymbolId::from_usize(db.num_symbols());
    let script = SequencedLinkerScript {
        parsed: ProcessedLinkerScript {
            input,
            entry: Some(entry),
            version: None,
            symbol_defs: Seq::new(alloc),
        },
        symbol_id_range: SymbolIdRange::input(next, 0),
        file_id: FileId::new(db.next_group_index(), 0),
    };
    let mut scripts = Seq::new(alloc);
    scripts.push(script)?;
    Ok(Group::LinkerScripts(scripts))
}
