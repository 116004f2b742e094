//! Names that are mapped to other symbols than their first definitions.

ghost use Rattle.std.specs.Prelude.{◌≡◌};

use crate::symbol_mapping::SymbolMapping;
use link_db_buckets::{Label, key_hash};
use link_ids::SymbolId;
use link_input::Platform;
use link_names::Name;
use std::alloc::AllocError;

/// The symbol of a number, if there is one.
fn symbol_of(number: Option<u32>) -> Option<SymbolId>
    ensures { result ≡ number }
{
    match number {
        Some(number) => Some(SymbolId::from_usize(number as usize)),
        None => None,
    }
}

impl<P: Platform> SymbolMapping<P> {
    ghost use Rattle.std.specs.Prelude.{◌<◌, ℕ, List, Some, IfOk, IsTrue, OnErr, OnOk, is_some, length};
    ghost use Rattle.link_db_files.specs.HeldFiles.{names_in};
    ghost use Rattle.link_db_mapping.specs.Changes.{with_override};
    ghost use Rattle.link_db_mapping.specs.Mapped.{mapping_of};
    ghost use Rattle.link_db_mapping.specs.Seen.{held_at, seen};

    /// Holds one name more that may be overridden, and answers its place.
    pub(crate) fn hold(&mut self, name: Name) -> Result<u32, AllocError>
        ensures same { seen self.new ≡ seen self.old }
        ensures held { IfOk result (λ place. held_at self.new place ≡ Some name) }
        ensures kept { (place : ℕ) (other : List ℕ) → held_at self.old place ≡ Some other → held_at self.new place ≡ Some other }
    {
        let Ok(place) = u32::try_from(self.tables.overridden.len()) else {
            return Err(AllocError);
        };
        self.tables.overridden.push(name)?;
        Ok(place)
    }

    /// Overrides the name that is held at the place.
    pub(crate) fn override_held(
        &mut self,
        place: u32,
        id: SymbolId,
    ) -> Result<Option<SymbolId>, AllocError>
        requires held { IsTrue (is_some (held_at self.old place)) }
        requires id { id < length (names_in (seen self.old).files) }
        ensures before { (name : List ℕ) → held_at self.old place ≡ Some name → IfOk result (λ before. before ≡ mapping_of (seen self.old) name) }
        ensures ok { (name : List ℕ) → held_at self.old place ≡ Some name → OnOk result (seen self.new ≡ with_override name id (seen self.old)) }
        ensures err { OnErr result (seen self.new ≡ seen self.old) }
        ensures kept { (other : ℕ) → held_at self.new other ≡ held_at self.old other }
    {
        let hash = key_hash(self.tables.overridden[place as usize].as_slice(), None);
        let number = id.as_usize() as u32;
        let before = self
            .buckets
            .override_name(&self.tables, hash, Label::Added(place), number)?;
        Ok(symbol_of(before))
    }

    /// Overrides the name that is held at the place, where it is mapped to something. Takes no memory, and can't fail.
    pub(crate) fn remap_held(&mut self, place: u32, id: SymbolId)
        requires held { IsTrue (is_some (held_at self.old place)) }
        requires id { id < length (names_in (seen self.old).files) }
        requires mapped { (name : List ℕ) → held_at self.old place ≡ Some name → IsTrue (is_some (mapping_of (seen self.old) name)) }
        ensures { (name : List ℕ) → held_at self.old place ≡ Some name → seen self.new ≡ with_override name id (seen self.old) }
    {
        let tables = &self.tables;
        let name = tables.overridden[place as usize].as_slice();
        let number = id.as_usize() as u32;
        self.buckets
            .remap(tables, key_hash(name, None), name, None, number);
    }

    /// Maps a plain name to a symbol, and answers what it was mapped to. Mirrors Wild's `SymbolDb::override_name`.
    ///
    /// After a refusal, which is want of memory, all is as before.
    pub fn override_name(
        &mut self,
        name: Name,
        id: SymbolId,
    ) -> Result<Option<SymbolId>, AllocError>
        requires { id < length (names_in (seen self.old).files) }
        ensures before { IfOk result (λ before. before ≡ mapping_of (seen self.old) name) }
        ensures ok { OnOk result (seen self.new ≡ with_override name id (seen self.old)) }
        ensures err { OnErr result (seen self.new ≡ seen self.old) }
    {
        let place = self.hold(name)?;
        self.override_held(place, id)
    }
}
