//! What is left of a symbol.

ghost use Rattle.std.specs.Prelude.{◌≡◌, ℕ, List};
ghost use Rattle.link_rules.specs.Comdat.{PlacedGroup, is_discarded_by};
ghost use Rattle.link_rules.specs.Selection.{surviving_origin};
ghost use Rattle.link_check_groups.specs.Sections.{is_in};

use crate::discarded::{Sections, has_section};
use link_check_symbols::{SymbolOrigin, SymbolView};
use link_closure::is_marked;
use link_flags::SymbolStrength;

/// How strongly a symbol binds where these sections are discarded: not at all, if it stands in an object that is not loaded, or in one of
/// these sections.
pub fn surviving_strength(
    marks: &[bool],
    sections: &Sections,
    symbol: &SymbolView,
) -> SymbolStrength
    ensures { (discarded : List PlacedGroup) → ((f n : ℕ) → is_in sections.now f n ≡ is_discarded_by discarded f n)
        → result ≡ surviving_origin marks.now discarded symbol.now.origin }
{
    match symbol.origin() {
        SymbolOrigin::Object { place, row, .. } => {
            if is_marked(marks, *place) && !has_section(sections, *place, row.section()) {
                row.strength()
            } else {
                SymbolStrength::Undefined
            }
        }
        SymbolOrigin::Stub { is_weak: true, .. } => SymbolStrength::Weak,
        SymbolOrigin::Stub { .. } => SymbolStrength::Strong,
        SymbolOrigin::Prelude(_) | SymbolOrigin::Script(_) => SymbolStrength::Undefined,
    }
}
