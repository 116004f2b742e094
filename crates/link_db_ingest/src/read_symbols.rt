//! What is read of symbols.

use crate::listing::Listing;
use link_db_buckets::{Definition, Label, key_hash};
use link_flags::ValueFlags;
use link_ids::SymbolId;
use std::alloc::{AllocError, Global};

/// What is read of the symbols of files that follow one another.
#[derive(Drop)]
pub struct ReadSymbols {
    /// The flags of each symbol as its file is read, in the order of the ids.
    pub flags: Vec<ValueFlags>,
    /// The definitions of names, and of names with versions, in the order of the ids.
    pub definitions: Vec<Definition>,
}

impl ReadSymbols {
    ghost use Rattle.std.specs.Prelude.{◌≡◌, ◌++◌, [], ◌∷◌, IfOk, OnOk, option_map};
    ghost use Rattle.link_input.specs.Symbols.{Symbol};
    ghost use Rattle.link_rules.specs.Names.{is_listed, is_version_listed};
    ghost use Rattle.link_db_ingest.specs.Definitions.{definitions_by};
    ghost use Rattle.link_db_ingest.specs.Files.{numbers_of};

    /// Nothing, with room for so many symbols of which each defines a name. Its only refusal is want of memory.
    pub fn with_room(alloc: Global, symbols: usize) -> Result<Self, AllocError>
        ensures flags { IfOk result (λ read. read.flags.items ≡ []) }
        ensures definitions { IfOk result (λ read. read.definitions.items ≡ []) }
    {
        let flags = Vec::with_capacity(alloc, symbols)?;
        let definitions = Vec::with_capacity(alloc, symbols)?;
        Ok(ReadSymbols { flags, definitions })
    }

    /// Adds the next symbol. Its only refusal is want of memory.
    pub(crate) fn add_symbol(
        &mut self,
        id: SymbolId,
        name: &[u8],
        version: Option<&[u8]>,
        flags: ValueFlags,
        listing: Listing,
    ) -> Result<(), AllocError>
        ensures flags { OnOk result (numbers_of self.new.flags.items ≡ numbers_of self.old.flags.items ++ flags.0 ∷ []) }
        ensures definitions { OnOk result ((x : Symbol) → x.name ≡ name.now → x.version ≡ option_map (λ v. v.now) version.entry → listing.plain ≡ is_listed x → listing.versioned ≡ is_version_listed x
            → self.new.definitions.items ≡ self.old.definitions.items ++ definitions_by id x) }
    {
        self.flags.push(flags)?;
        if !listing.plain && !listing.versioned {
            return Ok(());
        }
        let id = id.as_usize() as u32;
        if listing.plain {
            let hash = key_hash(name, None);
            let label = Label::Plain(id);
            self.definitions.push(Definition { hash, label, id })?;
        }
        if listing.versioned {
            let hash = key_hash(name, version);
            let label = Label::Versioned(id);
            self.definitions.push(Definition { hash, label, id })?;
        }
        Ok(())
    }
}
