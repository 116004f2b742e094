//! The files that a link holds.

ghost use Rattle.std.specs.Prelude.{◌≡◌, ◌++◌, OnErr, OnOk};

use crate::appending::append_both;
use crate::columns::Columns;
use crate::outlines::FileOutline;
use crate::search::place_of;
use crate::sources::SymbolSource;
use crate::starts::{FileStart, starts_of};
use link_ids::{FileId, SymbolId};
use link_input::Platform;
use link_input_groups::{Group, SequencedInput};
use link_names::{Name, NameView};
use std::alloc::{AllocError, Global};
use std::marker::Model;

/// The files of a link in their groups: those of the batches that it has so far, and behind them files without symbols of their
/// own, of which one may have the symbols that the linker adds. Those stand in no table: their names are kept here. A contract
/// sees the groups and these names. Mirrors what Wild's `SymbolDb` holds of files.
#[derive(Drop)]
pub struct Files<P: Platform> {
    pub(crate) groups: Vec<Group<P>>,
    /// The names of the symbols that the linker added.
    pub(crate) added: Vec<Name>,
    /// Where the ids of each file begin, in their order.
    pub(crate) starts: Vec<FileStart>,
    /// What passes over all files and over all symbols ask of each.
    pub(crate) columns: Columns,
}

impl<P: Platform> Model for Files<P> {
    ghost use Rattle.std.specs.Prelude.{◌≡◌};
    ghost use Rattle.link_db_files.specs.Columns.{columns_of};
    ghost use Rattle.link_db_files.specs.HeldFiles.{HeldFiles};
    ghost use Rattle.link_db_files.specs.Numbered.{AreHeld};

    ghost Value = { HeldFiles P };

    ghost view = { λ f. record { groups = f.groups.items; added = f.added.items } };

    ghost invariant = { λ f. AreHeld (record { groups = f.groups.items; added = f.added.items }) f.starts.items × (f.columns ≡ columns_of f.groups.items) };
}

impl<P: Platform> Files<P> {
    ghost use Rattle.std.specs.Prelude.{◌++◌, [], ◌<◌, ◌^◌, IfSome, List, OnOk, OnErr, Some, is_some, IsTrue, length, slice_get};
    ghost use Rattle.link_input_groups.specs.SequencedInputs.{sequenced_file};
    ghost use Rattle.link_db_files.specs.Asked.{asked_numbers_of};
    ghost use Rattle.link_db_files.specs.GroupFiles.{AreGroupsOfLink, IsFileOf, IsIn, file_at, symbols_in};
    ghost use Rattle.link_db_files.specs.HeldFiles.{names_in, object_with};
    ghost use Rattle.link_db_files.specs.Inputs.{objects_before};
    ghost use Rattle.link_db_files.specs.Numbered.{CanBeHeld};
    ghost use Rattle.link_db_files.specs.Outlines.{outlines_of};
    ghost use Rattle.link_db_files.specs.Sources.{sources_of};

    /// No files. Takes no memory.
    pub fn new(alloc: Global) -> Self
        ensures { result ≡ record { groups = []; added = [] } }
    {
        Files {
            groups: Vec::new(alloc),
            added: Vec::new(alloc),
            starts: Vec::new(alloc),
            columns: Columns::new(alloc),
        }
    }

    /// The groups, in order.
    pub fn groups(&self) -> &[Group<P>]
        ensures { result.now ≡ self.now.groups }
    {
        self.groups.as_slice()
    }

    /// What passes over all files ask of each, in the order of the files.
    pub fn outlines(&self) -> &[FileOutline]
        ensures { result.now ≡ outlines_of self.now.groups }
    {
        self.columns.outlines()
    }

    /// Where each symbol stands, by the id of the symbol.
    pub fn sources(&self) -> &[SymbolSource]
        ensures { result.now ≡ sources_of (symbols_in self.now.groups) }
    {
        self.columns.sources()
    }

    /// The hash number of the name, or of the name and version, that each symbol asks for, by its id; none where it asks for none.
    pub fn asked_numbers(&self) -> &[Option<u64>]
        ensures { result.now ≡ asked_numbers_of (symbols_in self.now.groups) }
    {
        self.columns.asked()
    }

    /// Puts groups behind those that are held, where they can be held so. After a refusal, which is want of memory, all is as before.
    pub(crate) fn append_groups(
        &mut self,
        alloc: Global,
        groups: Vec<Group<P>>,
    ) -> Result<(), AllocError>
        requires { CanBeHeld self.old → CanBeHeld (record self.old { groups = self.old.groups ++ groups.items }) }
        ensures ok { OnOk result (self.new ≡ record self.old { groups = self.old.groups ++ groups.items }) }
        ensures held { OnOk result (CanBeHeld self.old) }
        ensures err { OnErr result (self.new ≡ self.old) }
    {
        let held_groups = self.groups.len();
        let held_files = self.starts.len();
        let starts = starts_of(alloc, groups.as_slice())?;
        let columns = Columns::of_groups(alloc, self.num_objects(), groups.as_slice())?;
        append_both(&mut self.starts, starts, &mut self.groups, groups)?;
        if let Err(error) = self.columns.append(columns) {
            self.starts.truncate(held_files);
            self.groups.truncate(held_groups);
            return Err(error);
        }
        Ok(())
    }

    /// Adds the groups of a batch, before the linker adds any symbol. After a refusal, which is want of memory, all is as before.
    pub fn add_groups(&mut self, alloc: Global, groups: Vec<Group<P>>) -> Result<(), AllocError>
        requires { AreGroupsOfLink (self.old.groups ++ groups.items) }
        ensures ok { OnOk result (self.new ≡ record self.old { groups = self.old.groups ++ groups.items }) }
        ensures none { OnOk result (self.old.added ≡ []) }
        ensures err { OnErr result (self.new ≡ self.old) }
    {
        self.append_groups(alloc, groups)
    }

    /// How many symbols there are: those of the files, and those that the linker added. Where the groups begin those of a link, there
    /// are none of the latter yet.
    pub fn num_symbols(&self) -> usize
        ensures value { result ≡ length (names_in self.now) }
        ensures tabled { (more : List (Group P)) → AreGroupsOfLink (self.now.groups ++ more) → result ≡ length (symbols_in self.now.groups) }
        ensures fits { result < 2 ^ 32 }
    {
        let files = self.starts.len();
        if files == 0 {
            return 0;
        }
        let last = self.starts[files - 1];
        let ids = self.file(last.id).symbol_id_range();
        ids.start().as_usize() + ids.len()
    }

    /// The file that has the symbol.
    pub fn file_id_for_symbol(&self, id: SymbolId) -> FileId
        requires { id < length (names_in self.now) }
        ensures file { IsFileOf self.now.groups id result }
        ensures object { IfSome (object_with self.now id) (λ place. place ≡ objects_before self.now.groups result) }
    {
        self.starts[place_of(self.starts.as_slice(), id)].id
    }

    /// The file with this id. It can be asked for the ids of its symbols.
    pub fn file(&self, id: FileId) -> SequencedInput<'_, P>
        requires { IsTrue (is_some (file_at self.now.groups id)) }
        ensures value { file_at self.now.groups id ≡ Some (sequenced_file result) }
        ensures fits { (sequenced_file result).symbols.len < 2 ^ 32 }
    {
        self.groups[id.group()].file(id.file())
    }

    /// The file that has the symbol. It can be asked for the ids of its symbols.
    pub fn file_of(&self, id: SymbolId) -> SequencedInput<'_, P>
        requires { id < length (names_in self.now) }
        ensures within { IsIn self.now.groups id (sequenced_file result) }
        ensures fits { (sequenced_file result).symbols.len < 2 ^ 32 }
    {
        self.file(self.file_id_for_symbol(id))
    }

    /// The number of the first symbol that the linker added, or would add.
    fn first_added(&self) -> usize
        ensures { result ≡ length (symbols_in self.now.groups) }
    {
        self.num_symbols() - self.added.len()
    }

    /// The name of the symbol.
    pub fn symbol_name(&self, id: SymbolId) -> NameView<'_>
        requires { id < length (names_in self.now) }
        ensures { slice_get (names_in self.now) id ≡ Some result }
    {
        let first_added = self.first_added();
        if id.as_usize() < first_added {
            self.file_of(id).symbol_name(id)
        } else {
            NameView::new(self.added[id.as_usize() - first_added].as_slice())
        }
    }
}
