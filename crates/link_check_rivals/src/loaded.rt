//! What is known of each symbol once it is known which objects are loaded.

ghost use Rattle.std.specs.Prelude.{◌≡◌, ◌&&◌, not};
ghost use Rattle.link_rules.specs.Rivals.{is_in_loaded_regular};

use link_check_names::LinkNames;
use link_check_symbols::{SymbolOrigin, SymbolView};
use link_closure::is_marked;
use link_flags::SymbolStrength;
use link_ids::SymbolId;

/// What is known of the symbols of a link by their ids once it is known which objects are loaded, with the settings that say which of
/// several definitions counts.
#[derive(Clone, Copy)]
pub struct LoadedSymbols<'n, 'a> {
    /// The symbols with their names.
    pub names: &'n LinkNames<'a>,
    /// How strongly each symbol binds now.
    pub strengths: &'n [SymbolStrength],
    /// A mark for each object that is loaded.
    pub marks: &'n [bool],
    /// Weak definitions come before tentative ones.
    pub weak_overrides_common: bool,
    /// Several strong definitions of a name are allowed.
    pub allow_multiple: bool,
}

/// Whether a loaded object that is not shared holds the symbol.
fn is_in_loaded_regular(marks: &[bool], symbol: &SymbolView) -> bool
    ensures { result ≡ is_in_loaded_regular marks.now symbol.now.origin }
{
    match symbol.origin() {
        SymbolOrigin::Object {
            place,
            is_dynamic,
            ..
        } => is_marked(marks, *place) && !*is_dynamic,
        SymbolOrigin::Prelude(_) | SymbolOrigin::Script(_) | SymbolOrigin::Stub { .. } => false,
    }
}

impl<'n, 'a> LoadedSymbols<'n, 'a> {
    ghost use Rattle.link_flags.specs.Pick.{is_strong};
    ghost use Rattle.link_rules.specs.Rivals.{is_held, is_surviving};
    ghost use Rattle.link_rules.specs.Selection.{Selection, is_dynamic, surviving_strength};
    ghost use Rattle.link_check_rivals.specs.Told.{Tells};

    /// A shared file gives the symbol.
    pub(crate) fn is_shared(&self, id: SymbolId) -> bool
        ensures { (l : Selection) → Tells self.now l → result ≡ is_dynamic l id }
    {
        match self.names.symbols().get(id.as_usize()) {
            Some(symbol) => symbol.is_shared(),
            None => false,
        }
    }

    /// How strongly the symbol binds now.
    pub(crate) fn strength(&self, id: SymbolId) -> SymbolStrength
        ensures { (l : Selection) → Tells self.now l → result ≡ surviving_strength l id }
    {
        match self.strengths.get(id.as_usize()) {
            Some(strength) => *strength,
            None => SymbolStrength::Undefined,
        }
    }

    /// A loaded object that is not shared holds the symbol.
    pub(crate) fn is_held(&self, id: SymbolId) -> bool
        ensures { (l : Selection) → Tells self.now l → result ≡ is_held l id }
    {
        match self.names.symbols().get(id.as_usize()) {
            Some(symbol) => is_in_loaded_regular(self.marks, symbol),
            None => false,
        }
    }

    /// Something is left of the symbol.
    pub(crate) fn is_surviving(&self, id: SymbolId) -> bool
        ensures { (l : Selection) → Tells self.now l → result ≡ is_surviving l id }
    {
        match self.strength(id) {
            SymbolStrength::Undefined => false,
            SymbolStrength::Weak
            | SymbolStrength::GnuUnique
            | SymbolStrength::Strong
            | SymbolStrength::Common(_) => true,
        }
    }

    /// The symbol is strong, and no shared file gives it.
    pub(crate) fn is_strong(&self, id: SymbolId) -> bool
        ensures { (l : Selection) → Tells self.now l → result ≡ (not (is_dynamic l id) && is_strong (surviving_strength l id)) }
    {
        !self.is_shared(id) && matches!(self.strength(id), SymbolStrength::Strong)
    }
}
