//! What each symbol points to before rivals are settled.

ghost use Rattle.std.specs.Prelude.{◌≡◌};
ghost use Rattle.link_rules.specs.Loading.{is_forced_placement};
ghost use Rattle.link_rules.specs.Rivals.{is_forced};
ghost use Rattle.link_check_targets.specs.Tables.{target_at};

use crate::loaded::LoadedSymbols;
use link_check_symbols::{SymbolOrigin, SymbolView};
use link_ids::SymbolId;
use link_input::SymbolPlacement;
use std::alloc::{AllocError, Global};

/// The symbol is a name that the user wants to be defined.
fn is_forced(symbol: &SymbolView) -> bool
    ensures { result ≡ is_forced symbol.now.origin }
{
    match symbol.origin() {
        SymbolOrigin::Prelude(definition) => {
            matches!(definition.placement, SymbolPlacement::ForceUndefined)
        }
        SymbolOrigin::Object { .. } | SymbolOrigin::Script(_) | SymbolOrigin::Stub { .. } => false,
    }
}

/// The target that a column has for the symbol of this id.
fn target_at(targets: &[Option<SymbolId>], id: SymbolId) -> Option<SymbolId>
    ensures { result ≡ target_at targets.now id }
{
    match targets.get(id.as_usize()) {
        Some(target) => *target,
        None => None,
    }
}

impl<'n, 'a> LoadedSymbols<'n, 'a> {
    ghost use Rattle.std.specs.Prelude.{◌≡◌, ◌≤◌, ◌^◌, IfOk, length};
    ghost use Rattle.link_rules.specs.Rivals.{reference_entry, reference_table};
    ghost use Rattle.link_rules.specs.Selection.{Selection};
    ghost use Rattle.link_check_rivals.specs.Told.{Tells};

    /// A forced name stands for what it is mapped to, another definition for itself, a reference for its target.
    fn reference_entry(
        &self,
        targets: &[Option<SymbolId>],
        id: SymbolId,
        symbol: &SymbolView<'a>,
    ) -> SymbolId
        ensures { (l : Selection) → Tells self.now l → l.targets ≡ targets.now → result ≡ reference_entry l id symbol.now }
    {
        if is_forced(symbol) {
            self.names
                .first_definition(symbol.name().as_slice())
                .unwrap_or(id)
        } else if symbol.is_definition() {
            id
        } else {
            target_at(targets, id).unwrap_or(SymbolId::undefined())
        }
    }

    /// What each symbol points to, by its id.
    pub(crate) fn reference_table(
        &self,
        alloc: Global,
        targets: &[Option<SymbolId>],
    ) -> Result<Vec<SymbolId>, AllocError>
        requires { length self.now.names.now.symbols ≤ 2 ^ 32 }
        ensures { IfOk result (λ table. (l : Selection) → Tells self.now l → l.targets ≡ targets.now → table.items ≡ reference_table l) }
    {
        let symbols = self.names.symbols();
        let mut table = Vec::with_capacity(alloc, symbols.len())?;
        for (place, symbol) in symbols.iter().enumerate() {
            let id = SymbolId::from_usize(place);
            table.push(self.reference_entry(targets, id, symbol))?;
        }
        Ok(table)
    }
}
