//! What stands for each name that undefined references ask for.

ghost use Rattle.std.specs.Prelude.{◌≡◌, ◌+◌, ◌*◌, ◌≤◌, ◌<◌, ◌^◌, All, IfOk, List, length};
ghost use Rattle.link_db_files.specs.GroupFiles.{symbols_in};

use crate::asked_name::AskedName;
use crate::boundaries::SectionMarks;
use crate::collecting::{is_maker, last_asked, makers_among, new_symbols};
use crate::name_ids::NameIds;
use link_db_files::Files;
use link_ids::SymbolId;
use link_input::Platform;
use link_names::Name;
use std::alloc::{AllocError, Global};

/// The names that undefined references ask for: the last that asks for each, and the new symbols that are made for the starts and the
/// ends of custom sections. Names are lent by the files.
#[derive(Drop)]
pub struct AskedNames<'a> {
    last: NameIds<'a>,
    made: NameIds<'a>,
    /// The references for which new symbols are made, in the order of those.
    makers: Vec<SymbolId>,
    /// The id of the first new symbol.
    first_new: SymbolId,
    /// The names for which new symbols are made.
    marks: SectionMarks,
    ghost fits: { first_new + length makers.items ≤ 2 ^ 32 },
}

impl<'a> AskedNames<'a> {
    ghost use Rattle.link_rules.specs.Places.{each_from};
    ghost use Rattle.link_rules.specs.Undefined.{Numbered, is_boundary_maker};
    ghost use Rattle.link_rules.specs.World.{Stage};
    ghost use Rattle.link_input.specs.Symbols.{Symbol};
    ghost use Rattle.link_resolve_undefined.specs.Asked.{AreAsked, AreBelow, IsStageOf, canonical_in, first_new_in, last_in, makers_in, new_in};
    ghost use Rattle.link_resolve_undefined.specs.Keys.{Asks, name_of, version_of};
    ghost use Rattle.link_resolve_undefined.specs.Records.{AreSome, numbered_at};

    /// What these references ask for, which stay undefined. New symbols are made for the starts and ends of these sections, the first with the
    /// id that follows all symbols. The only refusal is want of memory.
    pub fn new<P: Platform>(
        alloc: Global,
        files: &'a Files<P>,
        left: &[SymbolId],
        custom_sections: &[Name],
        first_new: SymbolId,
    ) -> Result<Self, AllocError>
        requires left { AreSome (symbols_in files.now.groups) left.now }
        requires first { first_new ≡ length (symbols_in files.now.groups) }
        requires fits { first_new + 2 * length custom_sections.now ≤ 2 ^ 32 }
        ensures asked { IfOk result (λ asked. (w : Stage) → IsStageOf (symbols_in files.now.groups) custom_sections.now w → AreAsked asked w (numbered_at (symbols_in files.now.groups) left.now)) }
        ensures inside { IfOk result (λ asked. All (λ s. s < length (symbols_in files.now.groups)) (makers_in asked)) }
        ensures below { IfOk result (λ asked. AreBelow (length (symbols_in files.now.groups) + length (makers_in asked)) asked) }
        ensures few { IfOk result (λ asked. length (makers_in asked) ≤ 2 * length custom_sections.now) }
    {
        let marks = SectionMarks::new(alloc, custom_sections)?;
        let last = last_asked(alloc, files, left)?;
        let makers = makers_among(alloc, files, left, &marks, &last)?;
        let made = new_symbols(alloc, files, makers.as_slice(), first_new)?;
        Ok(AskedNames {
            last,
            made,
            makers,
            first_new,
            marks,
        })
    }

    /// The last reference that asks for this.
    pub fn last(&self, asked: AskedName<'a>) -> Option<SymbolId>
        ensures { result ≡ last_in self.now (name_of asked.entry) (version_of asked.entry) }
    {
        match self.last.get(asked) {
            Some(id) => Some(SymbolId::from_usize(id as usize)),
            None => None,
        }
    }

    /// The new symbol that is made for this.
    pub fn new_symbol(&self, asked: AskedName<'a>) -> Option<SymbolId>
        ensures { result ≡ new_in self.now (name_of asked.entry) (version_of asked.entry) }
    {
        match self.made.get(asked) {
            Some(id) => Some(SymbolId::from_usize(id as usize)),
            None => None,
        }
    }

    /// What stands for this: the new symbol, else the last reference.
    pub fn canonical(&self, asked: AskedName<'a>) -> Option<SymbolId>
        ensures { result ≡ canonical_in self.now (name_of asked.entry) (version_of asked.entry) }
    {
        self.new_symbol(asked).or(self.last(asked))
    }

    /// The references for which new symbols are made, in the order of those.
    pub fn makers(&self) -> &[SymbolId]
        ensures { result.now ≡ makers_in self.now }
    {
        self.makers.as_slice()
    }

    /// The id of the first new symbol.
    pub fn first_new(&self) -> SymbolId
        ensures { result ≡ first_new_in self.now }
    {
        self.first_new
    }

    /// Whether a new symbol is made for the reference of this id.
    pub(crate) fn makes_new(&self, asked: AskedName<'a>, id: SymbolId) -> bool
        ensures { (w : Stage) → (left : List Numbered) → (x : Symbol) → AreAsked self.now w left → Asks asked.entry x → result ≡ is_boundary_maker w left (id, x) }
    {
        is_maker(&self.marks, &self.last, asked, id)
    }

    /// The ids of the new symbols, in order.
    pub fn new_ids(&self, alloc: Global) -> Result<Vec<SymbolId>, AllocError>
        ensures { IfOk result (λ ids. ids.items ≡ each_from (λ s m. s) (first_new_in self.now) (makers_in self.now)) }
    {
        let first = self.first_new.as_usize();
        let mut ids = Vec::with_capacity(alloc, self.makers.len())?;
        for (place, _) in self.makers.iter().enumerate() {
            ids.push(SymbolId::from_usize(first + place))?;
        }
        Ok(ids)
    }
}
