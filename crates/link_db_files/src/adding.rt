//! What is added behind the files of batches: groups of files without symbols, and the symbols that the linker adds.

ghost use Rattle.std.specs.Prelude.{◌≡◌, List};
ghost use Rattle.link_db_files.specs.Adding.{EndsInSynthetic, HasRoom, with_id};

use crate::files::Files;
use link_ids::{FileId, SymbolId, SymbolIdRange};
use link_input::Platform;
use link_input_groups::{Group, SyntheticSymbols};
use link_names::Name;
use std::alloc::{AllocError, Global};

/// The last group gets an id more for its symbols, which the linker adds.
fn grow_last<P: Platform>(groups: &mut Vec<Group<P>>)
    requires last { EndsInSynthetic groups.old.items }
    requires room { HasRoom groups.old.items }
    ensures { groups.new.items ≡ with_id groups.old.items }
{
    let last = groups.len() - 1;
    if let Group::SyntheticSymbols(symbols) = &mut groups[last] {
        let ids = symbols.symbol_id_range;
        symbols.symbol_id_range = SymbolIdRange::input(ids.start(), ids.len() + 1);
    }
}

/// The last group gives back the id that it got last.
fn shrink_last<P: Platform>(groups: &mut Vec<Group<P>>)
    requires { (before : List (Group P)) × (EndsInSynthetic before × (groups.old.items ≡ with_id before)) }
    ensures { (before : List (Group P)) → EndsInSynthetic before → groups.old.items ≡ with_id before → groups.new.items ≡ before }
{
    let last = groups.len() - 1;
    if let Group::SyntheticSymbols(symbols) = &mut groups[last] {
        let ids = symbols.symbol_id_range;
        symbols.symbol_id_range = SymbolIdRange::input(ids.start(), ids.len() - 1);
    }
}

impl<P: Platform> Files<P> {
    ghost use Rattle.std.specs.Prelude.{◌++◌, ◌-◌, ◌<◌, ◌^◌, [], ◌∷◌, IfOk, OnErr, OnOk, length};
    ghost use Rattle.link_db_files.specs.Adding.{CanFollow, HadBefore, next_file, synthetic_group, with_symbol};
    ghost use Rattle.link_db_files.specs.HeldFiles.{HeldFiles, names_in};

    /// The number of the next group.
    pub fn next_group_index(&self) -> usize
        ensures { result ≡ length self.now.groups }
    {
        self.groups.len()
    }

    /// Makes room for so many groups more. All is as before, also after a refusal, which is want of memory. Mirrors Wild's
    /// `SymbolDb::groups_reserve`.
    pub fn groups_reserve(&mut self, count: usize) -> Result<(), AllocError>
        ensures { self.new ≡ self.old }
    {
        self.groups.reserve(count)
    }

    /// The id of the next symbol.
    pub fn next_symbol_id(&self) -> SymbolId
        ensures { result ≡ length (names_in self.now) }
    {
        SymbolId::from_usize(self.num_symbols())
    }

    /// Adds a group of files without symbols, which have the ids of the next group's files. Mirrors Wild's
    /// `SymbolDb::add_group`. After a refusal, which is want of memory, all is as before.
    pub fn add_group(&mut self, alloc: Global, group: Group<P>) -> Result<(), AllocError>
        requires { CanFollow self.old group }
        ensures ok { OnOk result (self.new ≡ record self.old { groups = self.old.groups ++ group ∷ [] }) }
        ensures err { OnErr result (self.new ≡ self.old) }
    {
        let mut groups = Vec::with_capacity(alloc, 1)?;
        groups.push(group)?;
        self.append_groups(alloc, groups)
    }

    /// Adds the group of the symbols that the linker adds, of which there is none yet, and answers the id of its file. After a
    /// refusal, which is want of memory, all is as before.
    pub fn add_synthetic_group(&mut self, alloc: Global) -> Result<FileId, AllocError>
        requires { length self.old.groups < 2 ^ 24 }
        ensures id { IfOk result (λ id. id ≡ next_file self.old) }
        ensures ok { OnOk result (self.new ≡ record self.old { groups = self.old.groups ++ synthetic_group self.old ∷ [] }) }
        ensures err { OnErr result (self.new ≡ self.old) }
    {
        let file_id = FileId::new(self.next_group_index(), 0);
        let symbol_id_range = SymbolIdRange::input(self.next_symbol_id(), 0);
        let symbols = SyntheticSymbols {
            file_id,
            symbol_id_range,
        };
        self.add_group(alloc, Group::SyntheticSymbols(symbols))?;
        Ok(file_id)
    }

    /// Adds a symbol of this name behind all others, to the last group, and answers its id. After a refusal, which is want of
    /// memory, all is as before.
    pub fn add_synthetic_symbol(&mut self, name: Name) -> Result<SymbolId, AllocError>
        requires last { EndsInSynthetic self.old.groups }
        requires room { length (names_in self.old) < 2 ^ 32 - 1 }
        ensures id { IfOk result (λ id. id ≡ length (names_in self.old)) }
        ensures ok { OnOk result (self.new ≡ with_symbol self.old name) }
        ensures err { OnErr result (self.new ≡ self.old) }
    {
        let id = self.next_symbol_id();
        self.added.push(name)?;
        grow_last(&mut self.groups);
        Ok(id)
    }

    /// Takes back the symbol that was added last: all is as it was before.
    pub fn remove_synthetic_symbol(&mut self)
        requires { (before : HeldFiles P) × HadBefore self.old before }
        ensures { (before : HeldFiles P) → HadBefore self.old before → self.new ≡ before }
    {
        let _ = self.added.pop();
        shrink_last(&mut self.groups);
    }
}
