//! What is kept of files and of their symbols, in columns that grow batch by batch.

ghost use Rattle.std.specs.Prelude.{◌≡◌, ◌<◌, ◌^◌, [], IfOk, OnErr, OnOk};
ghost use Rattle.link_db_files.specs.Columns.{columns_behind, first_columns, joined_columns};

use crate::appending::{append_both, append_list};
use crate::asked::groups_asked;
use crate::outlines::{FileOutline, outlines_of, symbols_told};
use crate::sources::{SymbolSource, sources_of};
use link_input::Platform;
use link_input_groups::Group;
use std::alloc::{AllocError, Global};
use std::marker::Model;

/// What passes over all files ask of each, and passes over all symbols of each symbol, side by side in memory. A contract sees the lists.
#[derive(Drop)]
pub struct Columns {
    /// The outlines of the files, in their order.
    outlines: Vec<FileOutline>,
    /// Where each symbol stands, by its id.
    sources: Vec<SymbolSource>,
    /// The hash number of the name, or of the name and version, that each symbol asks for, by its id.
    asked: Vec<Option<u64>>,
}

impl Model for Columns {
    ghost use Rattle.link_db_files.specs.Columns.{HeldColumns};

    ghost Value = { HeldColumns };

    ghost view = { λ c. record { outlines = c.outlines.items; sources = c.sources.items; asked = c.asked.items } };
}

impl Columns {
    /// Those of no files. Takes no memory.
    pub fn new(alloc: Global) -> Self
        ensures { result ≡ record { outlines = []; sources = []; asked = [] } }
    {
        Columns {
            outlines: Vec::new(alloc),
            sources: Vec::new(alloc),
            asked: Vec::new(alloc),
        }
    }

    /// Those of the files of groups, before which there are so many objects.
    pub fn of_groups<P: Platform>(
        alloc: Global,
        objects: usize,
        groups: &[Group<P>],
    ) -> Result<Self, AllocError>
        requires { objects < 2 ^ 63 }
        ensures { IfOk result (λ columns. columns ≡ columns_behind objects groups.now) }
    {
        let outlines = outlines_of(alloc, groups)?;
        let asked = groups_asked(alloc, symbols_told(&outlines), groups)?;
        let sources = sources_of(alloc, asked.len(), objects, outlines.as_slice())?;
        Ok(Columns {
            outlines,
            sources,
            asked,
        })
    }

    /// Puts others behind these. After a refusal, which is want of memory, all is as before.
    pub fn append(&mut self, more: Columns) -> Result<(), AllocError>
        ensures ok { OnOk result (self.new ≡ joined_columns self.old more) }
        ensures err { OnErr result (self.new ≡ self.old) }
    {
        let Columns {
            outlines,
            sources,
            asked,
        } = more;
        let files = self.outlines.len();
        append_list(&mut self.outlines, outlines)?;
        if let Err(error) = append_both(&mut self.sources, sources, &mut self.asked, asked) {
            self.outlines.truncate(files);
            return Err(error);
        }
        Ok(())
    }

    /// Keeps those of the first files, which have so many symbols.
    pub fn truncate(&mut self, files: usize, symbols: usize)
        ensures { self.new ≡ first_columns files symbols self.old }
    {
        self.outlines.truncate(files);
        self.sources.truncate(symbols);
        self.asked.truncate(symbols);
    }

    /// The outlines of the files.
    pub fn outlines(&self) -> &[FileOutline]
        ensures { result.now ≡ self.now.outlines }
    {
        self.outlines.as_slice()
    }

    /// Where each symbol stands.
    pub fn sources(&self) -> &[SymbolSource]
        ensures { result.now ≡ self.now.sources }
    {
        self.sources.as_slice()
    }

    /// The hash numbers of what symbols ask for.
    pub fn asked(&self) -> &[Option<u64>]
        ensures { result.now ≡ self.now.asked }
    {
        self.asked.as_slice()
    }
}
