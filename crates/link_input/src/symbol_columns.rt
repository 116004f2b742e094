//! A symbol table in columns.

ghost use Rattle.std.specs.Prelude.{◌≡◌, ◌<◌, Some, IfOk, length, map, option_map, slice_get};

use crate::name_block::{Span, bytes_at, put_names, put_versions, version_at};
use crate::symbol_entry::{Place, SymbolBinding, SymbolEntry, SymbolKind};
use link_flags::Visibility;
use std::alloc::{AllocError, Global};
use std::marker::Model;

/// A symbol table with the names and versions of all symbols in one block of bytes, and a column for each other field. A
/// contract sees the list of its entries.
#[derive(Debug)]
pub struct SymbolColumns {
    /// The bytes of all names, and those of all versions behind them.
    block: Vec<u8>,
    names: Vec<Span>,
    versions: Vec<Option<Span>>,
    defaults: Vec<bool>,
    bindings: Vec<SymbolBinding>,
    visibilities: Vec<Visibility>,
    kinds: Vec<SymbolKind>,
    sizes: Vec<u64>,
    places: Vec<Place>,
}

// By hand, so that what lets one go makes one call and does not name its parts.
impl Drop for SymbolColumns {
    fn drop(self) {
        let Self {
            block: _,
            names: _,
            versions: _,
            defaults: _,
            bindings: _,
            visibilities: _,
            kinds: _,
            sizes: _,
            places: _,
        } = self;
    }
}

impl Model for SymbolColumns {
    ghost use Rattle.std.specs.Prelude.{List};
    ghost use Rattle.link_input.specs.declared.symbol_entry.SymbolEntry.{SymbolEntry};

    ghost Value = { List SymbolEntry };

    ghost use Rattle.link_input.specs.Columns.{entries_of, AreColumns};

    ghost view = { entries_of };

    ghost invariant = { AreColumns };
}

/// Whether each entry is default.
fn defaults_of(alloc: Global, entries: &[SymbolEntry]) -> Result<Vec<bool>, AllocError>
    ensures { IfOk result (λ column. column.items ≡ map (λ e. e.is_default) entries.now) }
{
    entries.iter().map(|entry| entry.is_default).collect(alloc)
}

/// How each entry binds.
fn bindings_of(alloc: Global, entries: &[SymbolEntry]) -> Result<Vec<SymbolBinding>, AllocError>
    ensures { IfOk result (λ column. column.items ≡ map (λ e. e.binding) entries.now) }
{
    entries.iter().map(|entry| entry.binding).collect(alloc)
}

/// How far each entry can be seen.
fn visibilities_of(alloc: Global, entries: &[SymbolEntry]) -> Result<Vec<Visibility>, AllocError>
    ensures { IfOk result (λ column. column.items ≡ map (λ e. e.visibility) entries.now) }
{
    entries.iter().map(|entry| entry.visibility).collect(alloc)
}

/// What each entry is.
fn kinds_of(alloc: Global, entries: &[SymbolEntry]) -> Result<Vec<SymbolKind>, AllocError>
    ensures { IfOk result (λ column. column.items ≡ map (λ e. e.kind) entries.now) }
{
    entries.iter().map(|entry| entry.kind).collect(alloc)
}

/// The size of each entry.
fn sizes_of(alloc: Global, entries: &[SymbolEntry]) -> Result<Vec<u64>, AllocError>
    ensures { IfOk result (λ column. column.items ≡ map (λ e. e.size) entries.now) }
{
    entries.iter().map(|entry| entry.size).collect(alloc)
}

/// Where each entry stands.
fn places_of(alloc: Global, entries: &[SymbolEntry]) -> Result<Vec<Place>, AllocError>
    ensures { IfOk result (λ column. column.items ≡ map (λ e. e.place) entries.now) }
{
    entries.iter().map(|entry| entry.place).collect(alloc)
}

/// The field at a place of a column.
fn field_at<T: Copy>(column: &Vec<T>, index: usize) -> T
    requires { index < length column.now.items }
    ensures { slice_get column.now.items index ≡ Some result }
{
    column[index]
}

impl SymbolColumns {
    /// The columns of entries. Its only refusal is want of memory.
    pub fn from_entries(alloc: Global, entries: &[SymbolEntry]) -> Result<Self, AllocError>
        ensures { IfOk result (λ columns. columns ≡ entries.now) }
    {
        let mut block = Vec::new(alloc);
        let names = put_names(alloc, &mut block, entries)?;
        let versions = put_versions(alloc, &mut block, entries)?;
        Ok(SymbolColumns {
            block,
            names,
            versions,
            defaults: defaults_of(alloc, entries)?,
            bindings: bindings_of(alloc, entries)?,
            visibilities: visibilities_of(alloc, entries)?,
            kinds: kinds_of(alloc, entries)?,
            sizes: sizes_of(alloc, entries)?,
            places: places_of(alloc, entries)?,
        })
    }

    /// A copy. Its only refusal is want of memory.
    pub fn try_clone(&self, alloc: Global) -> Result<Self, AllocError>
        ensures { IfOk result (λ copy. copy ≡ self.now) }
    {
        Ok(SymbolColumns {
            block: Vec::from_slice(alloc, self.block.as_slice())?,
            names: Vec::from_slice(alloc, self.names.as_slice())?,
            versions: Vec::from_slice(alloc, self.versions.as_slice())?,
            defaults: Vec::from_slice(alloc, self.defaults.as_slice())?,
            bindings: Vec::from_slice(alloc, self.bindings.as_slice())?,
            visibilities: Vec::from_slice(alloc, self.visibilities.as_slice())?,
            kinds: Vec::from_slice(alloc, self.kinds.as_slice())?,
            sizes: Vec::from_slice(alloc, self.sizes.as_slice())?,
            places: Vec::from_slice(alloc, self.places.as_slice())?,
        })
    }

    /// How many entries there are.
    pub fn len(&self) -> usize
        ensures { result ≡ length self.now }
    {
        self.names.len()
    }

    /// The name of the entry at a place. `len` is the test, here and below.
    pub fn name(&self, index: usize) -> &[u8]
        requires { index < length self.now }
        ensures { option_map (λ e. e.name) (slice_get self.now index) ≡ Some result.now }
    {
        bytes_at(self.block.as_slice(), field_at(&self.names, index))
    }

    /// Its version, where it has one.
    pub fn version(&self, index: usize) -> Option<&[u8]>
        requires { index < length self.now }
        ensures { option_map (λ e. e.version) (slice_get self.now index) ≡ Some (option_map (λ bytes. bytes.now) result) }
    {
        version_at(self.block.as_slice(), field_at(&self.versions, index))
    }

    /// Whether it stands for its plain name too.
    pub fn is_default(&self, index: usize) -> bool
        requires { index < length self.now }
        ensures { option_map (λ e. e.is_default) (slice_get self.now index) ≡ Some result }
    {
        field_at(&self.defaults, index)
    }

    /// How it binds.
    pub fn binding(&self, index: usize) -> SymbolBinding
        requires { index < length self.now }
        ensures { option_map (λ e. e.binding) (slice_get self.now index) ≡ Some result }
    {
        field_at(&self.bindings, index)
    }

    /// How far it can be seen.
    pub fn visibility(&self, index: usize) -> Visibility
        requires { index < length self.now }
        ensures { option_map (λ e. e.visibility) (slice_get self.now index) ≡ Some result }
    {
        field_at(&self.visibilities, index)
    }

    /// What it is.
    pub fn kind(&self, index: usize) -> SymbolKind
        requires { index < length self.now }
        ensures { option_map (λ e. e.kind) (slice_get self.now index) ≡ Some result }
    {
        field_at(&self.kinds, index)
    }

    /// Its size in bytes.
    pub fn size(&self, index: usize) -> u64
        requires { index < length self.now }
        ensures { option_map (λ e. e.size) (slice_get self.now index) ≡ Some result }
    {
        field_at(&self.sizes, index)
    }

    /// Where it stands.
    pub fn place(&self, index: usize) -> Place
        requires { index < length self.now }
        ensures { option_map (λ e. e.place) (slice_get self.now index) ≡ Some result }
    {
        field_at(&self.places, index)
    }
}
