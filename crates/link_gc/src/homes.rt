//! The sections in which what symbols mean stands.

ghost use Rattle.std.specs.Prelude.{◌≡◌, ◌<◌, ℕ, IfOk, IfSome, length, map};
ghost use Rattle.link_core_answer.specs.Seen.{seen};
ghost use Rattle.link_db.specs.Database.{symbol_names};
ghost use Rattle.link_db_files.specs.GroupFiles.{symbols_in};
ghost use Rattle.link_db_symbols.specs.Lookups.{AreBelow};
ghost use Rattle.link_rules.specs.Selection.{Selection};
ghost use Rattle.link_gc.specs.Numbering.{AreNumbersOf, IsOf, home_number, placed_number};

use crate::numbers::SectionNumbers;
use link_core_answer::Linked;
use link_db_files::Files;
use link_db_symbols::{SymbolView, symbols};
use link_ids::SymbolId;
use link_input::{Place, Platform};
use std::alloc::{AllocError, Global};

/// The number of the section in which a symbol stands, where that may be kept.
fn placed_number(numbers: &SectionNumbers, symbol: &SymbolView) -> Option<usize>
    ensures number { (l : Selection) → AreNumbersOf l numbers.now.spans.items numbers.now.groups.now → result ≡ placed_number l symbol.now.origin }
    ensures within { IfSome result (λ n. n < numbers.now.count) }
{
    let object = symbol.object()?;
    match symbol.entry()?.place() {
        Place::Section(section) => numbers.number(object, section),
        _ => None,
    }
}

/// The same of each symbol of the files, by its id.
pub(crate) fn placed_numbers<P: Platform>(
    alloc: Global,
    files: &Files<P>,
    numbers: &SectionNumbers,
) -> Result<Vec<Option<usize>>, AllocError>
    ensures numbers { IfOk result (λ placed. (l : Selection) → AreNumbersOf l numbers.now.spans.items numbers.now.groups.now
        → placed.items ≡ map (λ x. placed_number l x.origin) (symbols_in files.now.groups)) }
    ensures within { IfOk result (λ placed. AreBelow numbers.now.count placed.items) }
{
    let mut placed = Vec::with_capacity(alloc, files.num_symbols())?;
    for (_, symbol) in symbols(files) {
        placed.push(placed_number(numbers, &symbol))?;
    }
    Ok(placed)
}

/// The number of the section in which what the symbol means stands, where that may be kept. The numbers are those of the sections in which the symbols of the
/// files stand.
pub(crate) fn home_number<P: Platform>(
    linked: &Linked<P>,
    placed: &[Option<usize>],
    id: SymbolId,
) -> Option<usize>
    requires { id < length (symbol_names (seen linked.now).db) }
    ensures home { (l : Selection) → IsOf l (seen linked.now) → placed.now ≡ map (λ x. placed_number l x.origin) l.stage.symbols → result ≡ home_number l id }
    ensures within { (count : ℕ) → AreBelow count placed.now → IfSome result (λ n. n < count) }
{
    let definition = linked.definition(id);
    placed.get(definition.as_usize()).copied().flatten()
}
