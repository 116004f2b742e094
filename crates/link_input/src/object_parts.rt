//! Objects, and inputs as a whole, copied and compared.

ghost use Rattle.std.specs.Prelude.{◌≡◌, ◌↔◌, IfOk, IsTrue};

use crate::object::{SectionGroup, SectionReference};
use crate::parsed_object::ParsedInputObject;
use crate::parts::Part;
use crate::platform::Platform;
use crate::symbol_columns::SymbolColumns;
use crate::symbol_row::SymbolRow;
use crate::world::Inputs;
use link_names::NameView;
use std::alloc::{AllocError, Global};

/// Two versions are equal, or neither is there.
fn same_version(version: Option<NameView>, other: Option<NameView>) -> bool
    ensures { IsTrue result ↔ (version ≡ other) }
{
    match (version, other) {
        (Some(version), Some(other)) => version.as_slice() == other.as_slice(),
        (None, None) => true,
        _ => false,
    }
}

/// Two entries have the same name and version.
fn same_names(row: &SymbolRow, other: &SymbolRow) -> bool
    ensures { IsTrue result ↔ ((row.now.name ≡ other.now.name) × (row.now.version ≡ other.now.version)) }
{
    row.name().as_slice() == other.name().as_slice() && same_version(row.version(), other.version())
}

/// Two entries bind alike, and are seen as far.
fn same_bindings(row: &SymbolRow, other: &SymbolRow) -> bool
    ensures { IsTrue result ↔ ((row.now.is_default ≡ other.now.is_default) × (row.now.binding ≡ other.now.binding) × (row.now.visibility ≡ other.now.visibility)) }
{
    row.is_default() == other.is_default()
        && row.binding() == other.binding()
        && row.visibility() == other.visibility()
}

/// Two entries are of a kind and a size, and stand at the same place.
fn same_places(row: &SymbolRow, other: &SymbolRow) -> bool
    ensures { IsTrue result ↔ ((row.now.kind ≡ other.now.kind) × (row.now.size ≡ other.now.size) × (row.now.place ≡ other.now.place)) }
{
    row.kind() == other.kind() && row.size() == other.size() && row.place() == other.place()
}

/// Two entries are equal.
fn same_rows(row: &SymbolRow, other: &SymbolRow) -> bool
    ensures { IsTrue result ↔ (row.now ≡ other.now) }
{
    same_names(row, other) && same_bindings(row, other) && same_places(row, other)
}

impl Part for SymbolColumns {
    fn try_copy(&self, alloc: Global) -> Result<Self, AllocError> {
        self.try_clone(alloc)
    }

    fn same(&self, other: &Self) -> bool {
        if self.len() != other.len() {
            return false;
        }
        for place in 0..self.len() {
            if !same_rows(&SymbolRow::new(self, place), &SymbolRow::new(other, place)) {
                return false;
            }
        }
        true
    }
}

impl Part for SectionGroup {
    fn try_copy(&self, alloc: Global) -> Result<Self, AllocError> {
        Ok(SectionGroup {
            index: self.index,
            signature_symbol: self.signature_symbol,
            is_comdat: self.is_comdat,
            members: self.members.try_copy(alloc)?,
        })
    }

    fn same(&self, other: &Self) -> bool {
        self.index == other.index
            && self.signature_symbol == other.signature_symbol
            && self.is_comdat == other.is_comdat
            && self.members.same(&other.members)
    }
}

impl Part for SectionReference {
    fn try_copy(&self, _alloc: Global) -> Result<Self, AllocError> {
        Ok(*self)
    }

    fn same(&self, other: &Self) -> bool {
        *self == *other
    }
}

impl<P: Platform> Part for ParsedInputObject<P> {
    fn try_copy(&self, alloc: Global) -> Result<Self, AllocError> {
        let input = self.input().try_copy(alloc)?;
        let object = self.object().try_copy(alloc)?;
        Ok(ParsedInputObject::new(input, object, self.modifiers()))
    }

    fn same(&self, other: &Self) -> bool {
        self.modifiers() == other.modifiers()
            && self.input().same(other.input())
            && self.object().same(other.object())
    }
}

impl<P: Platform> Inputs<P> {
    /// A copy of all its files. Its only refusal is want of memory.
    pub fn copied(&self, alloc: Global) -> Result<Self, AllocError>
        ensures { IfOk result (λ copy. copy ≡ self.now) }
    {
        Ok(Inputs {
            objects: self.objects.try_copy(alloc)?,
            scripts: self.scripts.try_copy(alloc)?,
            stubs: self.stubs.try_copy(alloc)?,
        })
    }

    /// The two have equal files, in the same order. Takes no memory.
    pub fn same(&self, other: &Self) -> bool
        ensures { IsTrue result ↔ (self.now ≡ other.now) }
    {
        self.objects.same(&other.objects)
            && self.scripts.same(&other.scripts)
            && self.stubs.same(&other.stubs)
    }
}
