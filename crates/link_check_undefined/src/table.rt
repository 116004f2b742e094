//! The final table.

ghost use Rattle.std.specs.Prelude.{◌≡◌, IfOk};
ghost use Rattle.link_rules.specs.Selection.{Selection};
ghost use Rattle.link_rules.specs.Undefined.{final_table};
ghost use Rattle.link_check_undefined.specs.Told.{TellsOf};

use crate::boundaries::SectionNames;
use crate::columns::Columns;
use crate::entries::{final_entries, push_new};
use crate::last::last_references;
use crate::left::left_references;
use crate::makers::{makers, new_ids};
use link_check_symbols::SymbolView;
use link_ids::SymbolId;
use link_names::Name;
use std::alloc::{AllocError, Global};

/// What each symbol of a link points to at the end, by its id, and behind these what the new symbols point to that the linker makes for
/// the start and the end of custom sections. The marks are those of the loaded objects, and the targets those of their references, or of
/// all references. The table is the one before undefined names are settled. The only refusal is want of memory.
pub fn final_table<'a>(
    alloc: Global,
    symbols: &'a [SymbolView<'a>],
    marks: &'a [bool],
    targets: &'a [Option<SymbolId>],
    custom_sections: &'a [Name],
    table: &[SymbolId],
) -> Result<Vec<usize>, AllocError>
    ensures { IfOk result (λ entries. (l : Selection) → TellsOf symbols.now marks.now targets.now custom_sections.now table.now l
        → entries.items ≡ final_table l) }
{
    let columns = Columns::new(symbols, marks, targets);
    let left = left_references(alloc, &columns)?;
    let last = last_references(alloc, &left)?;
    let sections = SectionNames::new(alloc, custom_sections)?;
    let makers = makers(alloc, &sections, &last, &left)?;
    let made = new_ids(alloc, symbols.len(), &makers)?;
    let mut entries = final_entries(alloc, &columns, &last, &made, table)?;
    push_new(&mut entries, symbols.len(), &makers)?;
    Ok(entries)
}
