//! Objects with their symbol tables.

ghost use Rattle.std.specs.Prelude.{◌≡◌, ◌<◌, ◌⊎◌, Some, None, IfOk, IfErr, IfSome, OnOk, All, length, option_map, option_and_then, slice_get};
ghost use Rattle.link_input.specs.declared.table_error.TableError.TheVariants.{Memory};
ghost use Rattle.link_input.specs.Entries.{section_of};
ghost use Rattle.link_input.specs.Checks.{first_fault};

use crate::checks::first_fault;
use crate::parts::Part;
use crate::platform::Platform;
use crate::symbol_columns::SymbolColumns;
use crate::symbol_entry::SymbolEntry;
use crate::symbol_row::SymbolRow;
use crate::table_error::TableError;
use link_ids::{SectionIndex, SymbolIndex};
use link_names::{Name, NameView, Seq};
use std::alloc::{AllocError, Global};
use std::marker::{Model, PhantomData};

/// A section group (ELF gABI, "Section Groups"): its header section, the symbol whose name is its signature, and its
/// members in order.
#[derive(Debug, Drop)]
pub struct SectionGroup {
    /// The header section.
    pub index: u32,
    /// The place of the signature symbol in the object's table.
    pub signature_symbol: u32,
    /// Of the groups of one signature only one is kept (`GRP_COMDAT`).
    pub is_comdat: bool,
    pub members: Seq<u32>,
}

impl SectionGroup {
    /// Its members, in order.
    pub fn members(&self) -> &[u32]
        ensures { result.now ≡ self.now.members }
    {
        self.members.as_slice()
    }
}

/// A section refers to a symbol, as the relocations of the section do (ELF gABI, "Relocation"). One reference stands for all
/// relocations of the section that name the symbol.
#[derive(Clone, Copy, Debug, PartialEq, Eq)]
pub struct SectionReference {
    /// The section whose contents need the symbol.
    pub from: u32,
    /// The place of the symbol in the object's table.
    pub to: u32,
}

/// What is read of an object: a regular one, or a shared object.
#[derive(Debug, Drop)]
pub struct ObjectTable {
    /// It is a shared object.
    pub is_dynamic: bool,
    /// The name by which a program asks for the shared object at run time.
    pub lib_name: Name,
    /// How many sections it has.
    pub sections: u32,
    pub symbols: Seq<SymbolEntry>,
    pub groups: Seq<SectionGroup>,
    /// What its sections refer to, for `--gc-sections`.
    pub section_references: Seq<SectionReference>,
    /// The sections that `--gc-sections` keeps whatever refers to them, such as those with `SHF_GNU_RETAIN` or in `KEEP`.
    pub retained_sections: Seq<u32>,
}

/// The table of an object of a platform, once it is checked, with its symbols in columns. A contract sees the table.
#[derive(Drop)]
pub struct InputObject<P: Platform> {
    is_dynamic: bool,
    lib_name: Name,
    sections: u32,
    symbols: SymbolColumns,
    groups: Seq<SectionGroup>,
    section_references: Seq<SectionReference>,
    retained_sections: Seq<u32>,
    platform: PhantomData<P>,
}

impl<P: Platform> Model for InputObject<P> {
    ghost use Rattle.std.specs.Prelude.{◌≡◌, None};
    ghost use Rattle.link_input.specs.declared.object.ObjectTable.{ObjectTable};
    ghost use Rattle.link_input.specs.Checks.{first_fault};

    ghost Value = { ObjectTable };

    ghost view = { λ o. record { is_dynamic = o.is_dynamic; lib_name = o.lib_name; sections = o.sections; symbols = o.symbols; groups = o.groups; section_references = o.section_references; retained_sections = o.retained_sections } };

    ghost invariant = { λ o. first_fault P.HAS_NULL_SYMBOL_ENTRY
        (record { is_dynamic = o.is_dynamic; lib_name = o.lib_name; sections = o.sections; symbols = o.symbols; groups = o.groups; section_references = o.section_references; retained_sections = o.retained_sections }) ≡ None };
}

impl<P: Platform> InputObject<P> {
    /// The table as an object, where it passes every check. Otherwise the first check that it fails, each over the whole
    /// table before the next, with the least place where it fails:
    ///
    /// 1. `NullEntry`: the platform has a null entry, the table has symbols, and entry 0 isn't null (`SymbolRow::is_null`).
    /// 2. `UndefinedLocal(symbol)`: the symbol is undefined and local; entry 0 is let off where the platform has a null entry.
    /// 3. `VersionlessNotDefault(symbol)`: the symbol has no version and is not default.
    /// 4. `SectionRange(symbol)`: its section is not below the number of sections.
    /// 5. `SignatureRange(group)`: the group's signature is not below the number of symbols.
    /// 6. `MemberRange { group, section }`: the group's header, else its first such member, is not below the number of sections.
    /// 7. `HeaderTwice(group)`: the group's header is the header of an earlier group.
    /// 8. `HeaderIsMember(group)`: the group's header is a member of a group, of itself or of another.
    /// 9. `ReferenceRange(reference)`: the section that refers is not below the number of sections, or the symbol is not
    ///    below the number of symbols.
    /// 10. `RetainRange(place)`: the retained section at this place of their list is not below the number of sections.
    ///
    /// `Memory` may come in place of any answer, where memory ran out. A table of no symbols, no groups, no references and
    /// no retained sections passes.
    pub fn new(alloc: Global, table: ObjectTable) -> Result<Self, TableError>
        ensures ok { IfOk result (λ object. object ≡ table) }
        ensures checked { OnOk result (first_fault P.HAS_NULL_SYMBOL_ENTRY table ≡ None) }
        ensures err { IfErr result (λ error. (first_fault P.HAS_NULL_SYMBOL_ENTRY table ≡ Some error) ⊎ (error ≡ Memory)) }
    {
        if let Some(fault) = first_fault(alloc, P::HAS_NULL_SYMBOL_ENTRY, &table)? {
            return Err(fault);
        }
        let ObjectTable {
            is_dynamic,
            lib_name,
            sections,
            symbols,
            groups,
            section_references,
            retained_sections,
        } = table;
        Ok(InputObject {
            is_dynamic,
            lib_name,
            sections,
            symbols: SymbolColumns::from_entries(alloc, symbols.as_slice())?,
            groups,
            section_references,
            retained_sections,
            platform: PhantomData,
        })
    }

    /// It is a shared object.
    pub fn is_dynamic(&self) -> bool
        ensures { result ≡ self.now.is_dynamic }
    {
        self.is_dynamic
    }

    /// The name by which a program asks for the shared object at run time.
    pub fn lib_name(&self) -> &Name
        ensures { result.now ≡ self.now.lib_name }
    {
        &self.lib_name
    }

    /// How many sections it has.
    pub fn num_sections(&self) -> u32
        ensures { result ≡ self.now.sections }
    {
        self.sections
    }

    /// How many entries its symbol table has.
    pub fn num_symbols(&self) -> usize
        ensures { result ≡ length self.now.symbols }
    {
        self.symbols.len()
    }

    /// Its section groups, in order.
    pub fn groups(&self) -> &[SectionGroup]
        ensures { result.now ≡ self.now.groups }
    {
        self.groups.as_slice()
    }

    /// What its sections refer to, in the order of the table: sections and symbols of the object.
    pub fn section_references(&self) -> &[SectionReference]
        ensures references { result.now ≡ self.now.section_references }
        ensures from { All (λ r. r.from < self.now.sections) result.now }
        ensures to { All (λ r. r.to < length self.now.symbols) result.now }
    {
        self.section_references.as_slice()
    }

    /// The sections that are kept whatever refers to them, in the order of the table: sections of the object.
    pub fn retained_sections(&self) -> &[u32]
        ensures sections { result.now ≡ self.now.retained_sections }
        ensures below { All (λ section. section < self.now.sections) result.now }
    {
        self.retained_sections.as_slice()
    }

    /// The entry at this place of its symbol table. `num_symbols` is the test.
    pub fn symbol(&self, index: SymbolIndex) -> SymbolRow<'_>
        requires { index < length self.now.symbols }
        ensures { slice_get self.now.symbols index ≡ Some result }
    {
        self.symbol_at(index.as_usize())
    }

    /// The entry at this place of its symbol table, for a pass over all of them. `num_symbols` is the test.
    pub fn symbol_at(&self, place: usize) -> SymbolRow<'_>
        requires { place < length self.now.symbols }
        ensures { slice_get self.now.symbols place ≡ Some result }
    {
        SymbolRow::new(&self.symbols, place)
    }

    /// The name of the entry at this place of its symbol table. `num_symbols` is the test.
    pub fn symbol_name_at(&self, place: usize) -> NameView<'_>
        requires { place < length self.now.symbols }
        ensures { option_map (λ symbol. symbol.name) (slice_get self.now.symbols place) ≡ Some result }
    {
        NameView::new(self.symbols.name(place))
    }

    /// The section that the symbol at this place stands in, one of the object's. `num_symbols` is the test.
    pub fn section(&self, index: SymbolIndex) -> Option<SectionIndex>
        requires { index < length self.now.symbols }
        ensures place { option_map (λ symbol. section_of symbol.place) (slice_get self.now.symbols index) ≡ Some result }
        ensures below { IfSome result (λ section. section < self.now.sections) }
    {
        self.symbols.place(index.as_usize()).section()
    }

    /// The section group at this place: its signature is a symbol of the object, and its header and members are sections
    /// of it.
    pub fn group(&self, group: usize) -> &SectionGroup
        requires { group < length self.now.groups }
        ensures group { slice_get self.now.groups group ≡ Some result.now }
        ensures signature { result.now.signature_symbol < length self.now.symbols }
        ensures header { result.now.index < self.now.sections }
        ensures members { All (λ member. member < self.now.sections) result.now.members }
    {
        let groups = self.groups.as_slice();
        &groups[group]
    }

    /// The symbol whose name is the signature of the group at this place.
    pub fn signature(&self, group: usize) -> SymbolRow<'_>
        requires { group < length self.now.groups }
        ensures { option_and_then (λ g. slice_get self.now.symbols g.signature_symbol) (slice_get self.now.groups group) ≡ Some result }
    {
        self.symbol(SymbolIndex::new(self.group(group).signature_symbol))
    }

    /// The header section of the group at this place, one of the object's.
    pub fn header(&self, group: usize) -> u32
        requires { group < length self.now.groups }
        ensures header { option_map (λ g. g.index) (slice_get self.now.groups group) ≡ Some result }
        ensures below { result < self.now.sections }
    {
        self.group(group).index
    }

    /// The members of the group at this place, in order: sections of the object.
    pub fn members(&self, group: usize) -> &[u32]
        requires { group < length self.now.groups }
        ensures members { option_map (λ g. g.members) (slice_get self.now.groups group) ≡ Some result.now }
        ensures below { All (λ member. member < self.now.sections) result.now }
    {
        self.group(group).members()
    }
}

impl<P: Platform> Part for InputObject<P> {
    fn try_copy(&self, alloc: Global) -> Result<Self, AllocError> {
        Ok(InputObject {
            is_dynamic: self.is_dynamic,
            lib_name: self.lib_name.try_copy(alloc)?,
            sections: self.sections,
            symbols: self.symbols.try_copy(alloc)?,
            groups: self.groups.try_copy(alloc)?,
            section_references: self.section_references.try_copy(alloc)?,
            retained_sections: self.retained_sections.try_copy(alloc)?,
            platform: PhantomData,
        })
    }

    fn same(&self, other: &Self) -> bool {
        self.is_dynamic == other.is_dynamic
            && self.sections == other.sections
            && self.lib_name.same(&other.lib_name)
            && self.groups.same(&other.groups)
            && self.section_references.same(&other.section_references)
            && self.retained_sections.same(&other.retained_sections)
            && self.symbols.same(&other.symbols)
    }
}
