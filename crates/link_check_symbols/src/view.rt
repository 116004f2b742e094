//! A symbol of a link, as its file lends it.

ghost use Rattle.std.specs.Prelude.{◌≡◌, ◌&&◌, ◌||◌, not, option_map, is_some};
ghost use Rattle.link_input.specs.Entries.{is_local, is_undefined};
ghost use Rattle.link_input.specs.Symbols.{binding_strength, entry_in, entry_passes, is_shared, object_in};
ghost use Rattle.link_rules.specs.Names.{is_defining, is_listed, is_named, is_version_listed};
ghost use Rattle.link_rules.specs.Targets.{is_open};
ghost use Rattle.link_rules.specs.Undefined.{is_weak_symbol};
ghost use Rattle.link_rules.specs.World.{is_concealed, is_definition, is_reference};

use link_flags::{SymbolStrength, Visibility};
use link_input::{InternalSymDefInfo, SymbolPlacement, SymbolRow};
use link_names::{Name, NameView};
use std::marker::Model;

/// Where a symbol comes from, as its file lends it.
#[derive(Drop)]
pub enum SymbolOrigin<'a> {
    /// A symbol of the prelude.
    Prelude(&'a InternalSymDefInfo),
    /// An entry of an object's table. The place is the number of objects before that one, regular and shared ones.
    Object {
        place: usize,
        is_dynamic: bool,
        row: SymbolRow<'a>,
    },
    /// A symbol of a linker script.
    Script(&'a InternalSymDefInfo),
    /// A name of a stub library, in its list of weak names or of strong ones.
    Stub {
        name: &'a Name,
        is_weak: bool,
    },
}

/// A symbol of a link. A contract sees the symbol as the definitions of a link do.
#[derive(Drop)]
pub struct SymbolView<'a> {
    origin: SymbolOrigin<'a>,
}

impl<'a> Model for SymbolView<'a> {
    ghost use Rattle.link_input.specs.Symbols.{Symbol};
    ghost use Rattle.link_check_symbols.specs.Views.{seen_symbol};

    ghost Value = { Symbol };

    ghost view = { λ v. seen_symbol v.origin };
}

/// It is a definition where the linker puts it: all but the undefined symbol and the names that the user wants to be defined.
fn is_defining(placement: &SymbolPlacement) -> bool
    ensures { result ≡ is_defining placement.now }
{
    !matches!(
        placement,
        SymbolPlacement::Undefined | SymbolPlacement::ForceUndefined
    )
}

impl<'a> SymbolView<'a> {
    ghost use Rattle.link_check_symbols.specs.Views.{seen_symbol};

    /// The symbol that comes from there.
    pub(crate) fn new(origin: SymbolOrigin<'a>) -> Self
        ensures { result ≡ seen_symbol origin.entry }
    {
        SymbolView { origin }
    }

    /// Where it comes from.
    pub fn origin(&self) -> &SymbolOrigin<'a>
        ensures { seen_symbol result.now ≡ self.now }
    {
        &self.origin
    }

    /// Its name.
    pub fn name(&self) -> NameView<'a>
        ensures { result ≡ self.now.name }
    {
        match &self.origin {
            SymbolOrigin::Prelude(definition) | SymbolOrigin::Script(definition) => {
                NameView::new(definition.name.as_slice())
            }
            SymbolOrigin::Object { row, .. } => row.name(),
            SymbolOrigin::Stub { name, .. } => NameView::new(name.as_slice()),
        }
    }

    /// The bytes of its version, where it has one: only objects' symbols have.
    pub fn version(&self) -> Option<&'a [u8]>
        ensures { option_map (λ v. v.now) result ≡ self.now.version }
    {
        match &self.origin {
            SymbolOrigin::Object { row, .. } => row.version_bytes(),
            _ => None,
        }
    }

    /// The entry of an object's symbol.
    pub fn entry(&self) -> Option<&SymbolRow<'a>>
        ensures { option_map (λ row. row.now) result ≡ entry_in self.now.origin }
    {
        match &self.origin {
            SymbolOrigin::Object { row, .. } => Some(row),
            _ => None,
        }
    }

    /// The place of the object that holds it, among all objects of the link.
    pub fn object(&self) -> Option<usize>
        ensures { result ≡ object_in self.now.origin }
    {
        match &self.origin {
            SymbolOrigin::Object { place, .. } => Some(*place),
            _ => None,
        }
    }

    /// It stands in a shared object or in a stub library.
    pub fn is_shared(&self) -> bool
        ensures { result ≡ is_shared self.now.origin }
    {
        match &self.origin {
            SymbolOrigin::Object { is_dynamic, .. } => *is_dynamic,
            SymbolOrigin::Stub { .. } => true,
            SymbolOrigin::Prelude(_) | SymbolOrigin::Script(_) => false,
        }
    }

    /// How strongly it binds, whether its file is loaded or not.
    pub fn binding_strength(&self) -> SymbolStrength
        ensures { result ≡ binding_strength self.now.origin }
    {
        match &self.origin {
            SymbolOrigin::Object { row, .. } => row.strength(),
            SymbolOrigin::Stub { is_weak: true, .. } => SymbolStrength::Weak,
            SymbolOrigin::Stub { .. } => SymbolStrength::Strong,
            SymbolOrigin::Prelude(_) | SymbolOrigin::Script(_) => SymbolStrength::Undefined,
        }
    }

    /// Other files may see it.
    pub fn is_open(&self) -> bool
        ensures { result ≡ is_open self.now }
    {
        match &self.origin {
            SymbolOrigin::Object { row, .. } => matches!(row.visibility(), Visibility::Default),
            _ => true,
        }
    }

    /// It is a weak symbol of an object.
    pub fn is_weak(&self) -> bool
        ensures { result ≡ is_weak_symbol self.now }
    {
        match &self.origin {
            SymbolOrigin::Object { row, .. } => row.is_weak(),
            _ => false,
        }
    }

    /// It is a hidden symbol of a shared object, which neither defines a name nor refers to one.
    fn is_concealed(&self) -> bool
        ensures { result ≡ is_concealed self.now.origin }
    {
        match &self.origin {
            SymbolOrigin::Object {
                is_dynamic,
                row,
                ..
            } => *is_dynamic && row.is_hidden(),
            _ => false,
        }
    }

    /// It stands for a place of its own.
    pub fn is_definition(&self) -> bool
        ensures { result ≡ is_definition self.now }
    {
        let is_undefined = match &self.origin {
            SymbolOrigin::Object { row, .. } => row.is_undefined(),
            _ => false,
        };
        !is_undefined && !self.is_concealed()
    }

    /// It refers to a symbol of its name.
    pub fn is_reference(&self) -> bool
        ensures { result ≡ is_reference self.now }
    {
        let is_undefined_beyond = match &self.origin {
            SymbolOrigin::Object { row, .. } => row.is_undefined() && !row.is_local(),
            _ => false,
        };
        is_undefined_beyond && !self.is_concealed()
    }

    /// As a definition it is found by its plain name.
    fn is_named(&self) -> bool
        ensures { result ≡ is_named self.now.name self.now.origin }
    {
        match &self.origin {
            SymbolOrigin::Prelude(definition) => is_defining(&definition.placement),
            SymbolOrigin::Object { row, .. } => !row.is_local() && row.is_default(),
            SymbolOrigin::Script(definition) => !definition.name.is_empty(),
            SymbolOrigin::Stub { .. } => true,
        }
    }

    /// It stands in the list of its plain name.
    pub fn is_listed(&self) -> bool
        ensures { result ≡ is_listed self.now }
    {
        self.is_definition() && self.is_named()
    }

    /// It stands in the list of its name and version.
    pub fn is_version_listed(&self) -> bool
        ensures { result ≡ is_version_listed self.now }
    {
        let is_version_named = match &self.origin {
            SymbolOrigin::Object { row, .. } => !row.is_local() && row.version_bytes().is_some(),
            _ => false,
        };
        self.is_definition() && is_version_named
    }
}
