//! The tables that hold the names.

ghost use Rattle.std.specs.Prelude.{◌≡◌, Option, Some, is_some, option_map, slice_get};
ghost use Rattle.std.specs.Option.{option_eq};
ghost use Rattle.std.specs.Str.{bytes_eq};
ghost use Rattle.link_db_buckets.specs.Keys.{Key};
ghost use Rattle.link_db_files.specs.HeldFiles.{names_in};
ghost use Rattle.link_db_mapping.specs.PlainNames.{plain_name};
ghost use Rattle.link_db_mapping.specs.Tables.{key_at};

use link_db_buckets::{Label, Names};
use link_db_files::Files;
use link_ids::SymbolId;
use link_input::Platform;
use link_names::{Name, NameView};

/// The files with the names of their symbols, and the names that were overridden.
#[derive(Drop)]
pub(crate) struct NameTables<P: Platform> {
    pub(crate) files: Files<P>,
    pub(crate) overridden: Vec<Name>,
}

/// Whether both are the same version, or none.
fn is_version(own: Option<&[u8]>, version: Option<&[u8]>) -> bool
    ensures { result ≡ option_eq bytes_eq (option_map (λ v. v.now) own.entry) (option_map (λ v. v.now) version.entry) }
{
    match (own, version) {
        (None, None) => true,
        (Some(own), Some(version)) => own == version,
        _ => false,
    }
}

impl<P: Platform> NameTables<P> {
    /// The name of the symbol of this number, where there is one.
    fn name_of(&self, number: u32) -> Option<&[u8]>
        ensures { option_map (λ n. n.now) result ≡ slice_get (names_in self.now.files) number }
    {
        if number as usize >= self.files.num_symbols() {
            return None;
        }
        let id = SymbolId::from_usize(number as usize);
        Some(self.files.symbol_name(id).as_slice())
    }

    /// Whether what the label leads to has a version: no name is looked up.
    fn is_versioned(&self, label: Label) -> bool
        ensures { (key : Key) → key_at self.now.files self.now.overridden.items label ≡ Some key → is_some key.version ≡ result }
    {
        matches!(label, Label::Versioned(_))
    }

    /// The name and the version to which the label leads.
    fn key(&self, label: Label) -> Option<(&[u8], Option<&[u8]>)>
        ensures { option_map (λ k. record { name = k.0.now; version = option_map (λ v. v.now) k.1 }) result ≡ key_at self.now.files self.now.overridden.items label }
    {
        match label {
            Label::Plain(number) => Some((self.name_of(number)?, None)),
            Label::Versioned(number) => {
                let name = self.name_of(number)?;
                let id = SymbolId::from_usize(number as usize);
                let version = self.files.symbol_version(id)?;
                Some((name, Some(version.as_slice())))
            }
            Label::Added(place) => {
                let name = self.overridden.get(place as usize)?;
                Some((name.as_slice(), None))
            }
        }
    }

    /// The name to which the label leads, where it leads to one without a version.
    pub(crate) fn plain_name(&self, label: Label) -> Option<NameView<'_>>
        ensures { result ≡ plain_name (key_at self.now.files self.now.overridden.items) label }
    {
        match self.key(label) {
            Some((name, None)) => Some(NameView::new(name)),
            _ => None,
        }
    }
}

impl<P: Platform> Names for NameTables<P> {
    ghost key_at = { λ tables label. key_at tables.files tables.overridden.items label };

    fn has_key(&self, label: Label, name: &[u8], version: Option<&[u8]>) -> bool {
        if self.is_versioned(label) != version.is_some() {
            return false;
        }
        match self.key(label) {
            Some((own, own_version)) => own == name && is_version(own_version, version),
            None => false,
        }
    }

    fn have_same_key(&self, a: Label, b: Label) -> bool {
        if self.is_versioned(a) != self.is_versioned(b) {
            return false;
        }
        match self.key(b) {
            Some((name, version)) => self.has_key(a, name, version),
            None => false,
        }
    }
}
