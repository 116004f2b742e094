//! A symbol of a link, as its file lends it.

ghost use Rattle.std.specs.Prelude.{◌≡◌, ◌&&◌, false, not, option_map, option_and_then};
ghost use Rattle.link_db_files.specs.Origins.{definition_in};
ghost use Rattle.link_input.specs.Entries.{is_local, is_undefined, section_of};
ghost use Rattle.link_input.specs.Symbols.{binding_strength, entry_in, entry_passes, is_shared, object_in, visibility_in};
ghost use Rattle.link_rules.specs.Loading.{is_forced_placement};
ghost use Rattle.link_rules.specs.Rivals.{is_forced};
ghost use Rattle.link_rules.specs.Targets.{is_open};
ghost use Rattle.link_rules.specs.Undefined.{is_weak_symbol};
ghost use Rattle.link_rules.specs.World.{is_concealed, is_definition, is_reference};

use link_flags::{SymbolStrength, Visibility};
use link_ids::SectionIndex;
use link_input::{InternalSymDefInfo, StubSymbol, SymbolPlacement, SymbolRow};
use link_names::NameView;
use std::marker::Model;

/// Where a symbol comes from, as its file lends it.
#[derive(Drop)]
pub enum SymbolOrigin<'a> {
    /// A symbol of the prelude.
    Prelude(&'a InternalSymDefInfo),
    /// An entry of an object's table. The place is the number of objects before that one, regular and shared ones.
    Object {
        place: usize,
        is_dynamic: bool,
        row: SymbolRow<'a>,
    },
    /// A symbol of a linker script.
    Script(&'a InternalSymDefInfo),
    /// A symbol of a stub library.
    Stub(&'a StubSymbol),
}

/// A symbol of a link. A contract sees the symbol as the definitions of a link do.
#[derive(Drop)]
pub struct SymbolView<'a> {
    origin: SymbolOrigin<'a>,
}

impl<'a> Model for SymbolView<'a> {
    ghost use Rattle.link_input.specs.Symbols.{Symbol};

    ghost Value = { Symbol };

    ghost use Rattle.link_db_symbols.specs.Views.{seen_symbol};

    ghost view = { λ v. seen_symbol v.origin };
}

/// Whether it is the place of a name that the user wants to be defined.
fn is_forced_placement(placement: &SymbolPlacement) -> bool
    ensures { result ≡ is_forced_placement placement.now }
{
    matches!(placement, SymbolPlacement::ForceUndefined)
}

impl<'a> SymbolView<'a> {
    ghost use Rattle.link_db_symbols.specs.Views.{seen_symbol};

    /// The symbol that comes from there.
    pub fn new(origin: SymbolOrigin<'a>) -> Self
        ensures { result ≡ seen_symbol origin.entry }
    {
        SymbolView { origin }
    }

    /// Where it comes from.
    pub fn origin(&self) -> &SymbolOrigin<'a>
        ensures { seen_symbol result.now ≡ self.now }
    {
        &self.origin
    }

    /// Its name.
    pub fn name(&self) -> NameView<'a>
        ensures { result ≡ self.now.name }
    {
        match &self.origin {
            SymbolOrigin::Prelude(definition) | SymbolOrigin::Script(definition) => {
                NameView::new(definition.name.as_slice())
            }
            SymbolOrigin::Object { row, .. } => row.name(),
            SymbolOrigin::Stub(symbol) => NameView::new(symbol.name.as_slice()),
        }
    }

    /// Its version, where it has one: only objects' symbols have.
    pub fn version(&self) -> Option<NameView<'a>>
        ensures { result ≡ self.now.version }
    {
        match &self.origin {
            SymbolOrigin::Object { row, .. } => row.version(),
            _ => None,
        }
    }

    /// The entry of an object's symbol.
    pub fn entry(&self) -> Option<&SymbolRow<'a>>
        ensures { option_map (λ row. row.now) result ≡ entry_in self.now.origin }
    {
        match &self.origin {
            SymbolOrigin::Object { row, .. } => Some(row),
            _ => None,
        }
    }

    /// The definition of a symbol of the prelude.
    pub fn prelude_definition(&self) -> Option<&'a InternalSymDefInfo>
        ensures { option_map (λ d. d.now) result ≡ definition_in self.now.origin }
    {
        match &self.origin {
            SymbolOrigin::Prelude(definition) => Some(definition),
            _ => None,
        }
    }

    /// The place of the object that holds it, among all objects of the link.
    pub fn object(&self) -> Option<usize>
        ensures { result ≡ object_in self.now.origin }
    {
        match &self.origin {
            SymbolOrigin::Object { place, .. } => Some(*place),
            _ => None,
        }
    }

    /// The section of its object that it stands in.
    pub fn section(&self) -> Option<SectionIndex>
        ensures { result ≡ option_and_then (λ e. section_of e.place) (entry_in self.now.origin) }
    {
        match &self.origin {
            SymbolOrigin::Object { row, .. } => row.section(),
            _ => None,
        }
    }

    /// It stands in a shared object or in a stub library.
    pub fn is_shared(&self) -> bool
        ensures { result ≡ is_shared self.now.origin }
    {
        match &self.origin {
            SymbolOrigin::Object { is_dynamic, .. } => *is_dynamic,
            SymbolOrigin::Stub(_) => true,
            SymbolOrigin::Prelude(_) | SymbolOrigin::Script(_) => false,
        }
    }

    /// How strongly it binds, whether its file is loaded or not.
    pub fn binding_strength(&self) -> SymbolStrength
        ensures { result ≡ binding_strength self.now.origin }
    {
        match &self.origin {
            SymbolOrigin::Object { row, .. } => row.strength(),
            SymbolOrigin::Stub(symbol) if symbol.is_weak => SymbolStrength::Weak,
            SymbolOrigin::Stub(_) => SymbolStrength::Strong,
            SymbolOrigin::Prelude(_) | SymbolOrigin::Script(_) => SymbolStrength::Undefined,
        }
    }

    /// How far it can be seen.
    pub fn visibility(&self) -> Visibility
        ensures { result ≡ visibility_in self.now.origin }
    {
        match &self.origin {
            SymbolOrigin::Object { row, .. } => row.visibility(),
            _ => Visibility::Default,
        }
    }

    /// Other files may see it.
    pub fn is_open(&self) -> bool
        ensures { result ≡ is_open self.now }
    {
        matches!(self.visibility(), Visibility::Default)
    }

    /// It is a weak symbol of an object.
    pub fn is_weak(&self) -> bool
        ensures { result ≡ is_weak_symbol self.now }
    {
        match &self.origin {
            SymbolOrigin::Object { row, .. } => row.is_weak(),
            _ => false,
        }
    }

    /// It stands in an object that doesn't define it.
    fn is_undefined(&self) -> bool
        ensures { result ≡ entry_passes (λ e. is_undefined e.place) self.now.origin }
    {
        match &self.origin {
            SymbolOrigin::Object { row, .. } => row.is_undefined(),
            _ => false,
        }
    }

    /// It is an undefined symbol of an object that isn't local.
    fn is_undefined_beyond(&self) -> bool
        ensures { result ≡ entry_passes (λ e. is_undefined e.place && not (is_local e.binding)) self.now.origin }
    {
        match &self.origin {
            SymbolOrigin::Object { row, .. } => row.is_undefined() && !row.is_local(),
            _ => false,
        }
    }

    /// It is a hidden symbol of a shared object, which neither defines a name nor refers to one.
    pub fn is_concealed(&self) -> bool
        ensures { result ≡ is_concealed self.now.origin }
    {
        match &self.origin {
            SymbolOrigin::Object {
                is_dynamic,
                row,
                ..
            } => *is_dynamic && row.is_hidden(),
            _ => false,
        }
    }

    /// It stands for a place of its own.
    pub fn is_definition(&self) -> bool
        ensures { result ≡ is_definition self.now }
    {
        !self.is_undefined() && !self.is_concealed()
    }

    /// It refers to a symbol of its name.
    pub fn is_reference(&self) -> bool
        ensures { result ≡ is_reference self.now }
    {
        self.is_undefined_beyond() && !self.is_concealed()
    }

    /// It is a name that the user wants to be defined.
    pub fn is_forced(&self) -> bool
        ensures { result ≡ is_forced self.now.origin }
    {
        match &self.origin {
            SymbolOrigin::Prelude(definition) => is_forced_placement(&definition.placement),
            _ => false,
        }
    }
}
