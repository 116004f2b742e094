//! Files that come to the link.

ghost use Rattle.std.specs.Prelude.{◌≡◌};

use crate::parts::apply_parts;
use crate::restoring::restore_all;
use crate::symbol_mapping::SymbolMapping;
use link_db_ingest::ReadSymbols;
use link_input::Platform;
use link_input_groups::Group;
use std::alloc::{AllocError, Global};
use std::thread::Threads;

impl<P: Platform + Sync> SymbolMapping<P> {
    ghost use Rattle.std.specs.Prelude.{◌++◌, None, OnErr, OnOk, length};
    ghost use Rattle.link_db_files.specs.GroupFiles.{AreGroupsOfLink, symbols_in};
    ghost use Rattle.link_db_files.specs.HeldFiles.{names_in};
    ghost use Rattle.link_db_ingest.specs.Definitions.{definitions_from};
    ghost use Rattle.link_db_mapping.specs.Batches.{symbols_behind};
    ghost use Rattle.link_db_mapping.specs.Mapped.{AreListed};
    ghost use Rattle.link_db_mapping.specs.Parts.{definitions_in};
    ghost use Rattle.link_db_mapping.specs.Seen.{seen};

    /// Adds the groups of a batch, with what was read of them: the definitions of each name come behind those that it has, and each name is
    /// mapped to its first definition again. Where there are many, buckets take theirs side by side. Mirrors Wild's `SymbolDb::add_inputs`.
    ///
    /// After a refusal, which is want of memory, all is as before.
    pub fn add_groups<R: Threads + Sync>(
        &mut self,
        rt: &R,
        alloc: Global,
        groups: Vec<Group<P>>,
        parts: &[ReadSymbols],
    ) -> Result<(), AllocError>
        requires groups { AreGroupsOfLink ((seen self.old).files.groups ++ groups.items) }
        requires parts { definitions_in parts.now ≡ definitions_from (length (names_in (seen self.old).files)) (symbols_behind (seen self.old).files.groups groups.items) }
        ensures files { OnOk result ((seen self.new).files ≡ record (seen self.old).files { groups = (seen self.old).files.groups ++ groups.items }) }
        ensures lists { OnOk result (AreListed (symbols_in (seen self.old).files.groups) (seen self.old) → AreListed (symbols_in (seen self.new).files.groups) (seen self.new)) }
        ensures overridden { OnOk result ((seen self.new).overridden ≡ (λ _. None)) }
        ensures err { OnErr result (seen self.new ≡ seen self.old) }
    {
        let held_groups = self.tables.files.groups().len();
        let held_files = self.tables.files.num_files();
        self.tables.files.add_groups(alloc, groups)?;
        if let Err(error) = apply_parts(rt, alloc, &mut self.buckets, &self.tables, parts) {
            self.tables.files.remove_groups(held_groups, held_files);
            return Err(error);
        }
        let tables = &self.tables;
        restore_all(&mut self.buckets, tables, tables.overridden.as_slice());
        Ok(())
    }
}
