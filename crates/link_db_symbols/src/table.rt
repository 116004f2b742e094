//! What each symbol points to before rivals are settled.

ghost use Rattle.std.specs.Prelude.{◌≡◌, ◌≤◌, ◌<◌, All, IfOk, ℕ, length};
ghost use Rattle.link_db_files.specs.GroupFiles.{symbols_in};
ghost use Rattle.link_rules.specs.Rivals.{reference_entry, reference_table};
ghost use Rattle.link_rules.specs.Selection.{Selection};
ghost use Rattle.link_db_symbols.specs.Lookups.{AreBelow, IsSelectionOf, MapsBelow};

use crate::all_symbols::symbols;
use crate::targets::target_of;
use crate::view::SymbolView;
use link_db_files::Files;
use link_ids::SymbolId;
use link_input::Platform;
use std::alloc::{AllocError, Global};

/// What names are mapped to.
pub trait FirstDefinitions {
    ghost use Rattle.std.specs.Prelude.{◌≡◌};
    ghost use Rattle.link_rules.specs.Names.{Mapping};

    /// What each name is mapped to.
    ghost mapping: { Self → Mapping };

    /// The symbol that the name is mapped to.
    fn first_definition(&self, name: &[u8]) -> Option<SymbolId>
        ensures { result ≡ mapping self.now name.now };
}

/// What a symbol points to: a forced name to what it is mapped to, another definition to itself, a reference to its target.
fn reference_entry<M: FirstDefinitions>(
    names: &M,
    targets: &[Option<SymbolId>],
    id: SymbolId,
    symbol: &SymbolView,
) -> SymbolId
    ensures value { (l : Selection) → IsSelectionOf l.stage.symbols (M.mapping names.now) targets.now l → result ≡ reference_entry l id symbol.now }
    ensures below { (n : ℕ) → id < n → MapsBelow n (M.mapping names.now) → AreBelow n targets.now → result < n }
{
    if symbol.is_forced() {
        names
            .first_definition(symbol.name().as_slice())
            .unwrap_or(id)
    } else if symbol.is_definition() {
        id
    } else {
        target_of(targets, id).unwrap_or(SymbolId::undefined())
    }
}

/// What each symbol of the files points to before rivals are settled, by the id of the symbol. The names are those of a link of
/// these files, and the targets those of its loaded references. The only refusal is want of memory.
pub fn reference_table<P: Platform, M: FirstDefinitions>(
    alloc: Global,
    files: &Files<P>,
    names: &M,
    targets: &[Option<SymbolId>],
) -> Result<Vec<SymbolId>, AllocError>
    ensures value { IfOk result (λ table. (l : Selection) → IsSelectionOf (symbols_in files.now.groups) (M.mapping names.now) targets.now l → table.items ≡ reference_table l) }
    ensures len { IfOk result (λ table. length table.items ≡ length (symbols_in files.now.groups)) }
    ensures below { IfOk result (λ table. (n : ℕ) → length (symbols_in files.now.groups) ≤ n → MapsBelow n (M.mapping names.now) → AreBelow n targets.now
        → All (λ entry. entry < n) table.items) }
{
    let mut table = Vec::with_capacity(alloc, files.num_symbols())?;
    for (id, symbol) in symbols(files) {
        table.push(reference_entry(names, targets, id, &symbol))?;
    }
    Ok(table)
}
