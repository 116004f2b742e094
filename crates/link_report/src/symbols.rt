//! The lines of the symbols of groups.

ghost use Rattle.std.specs.Prelude.{◌≡◌, ◌<◌, ◌≤◌, ◌+◌, ◌++◌, IfOk, OnOk, Some, length, slice_get, string_bytes};
ghost use Rattle.link_input.specs.InputFiles.{symbol_count};
ghost use Rattle.link_input_groups.specs.Groups.{files_of};
ghost use Rattle.link_input_groups.specs.SequencedInputs.{sequenced_file};
ghost use Rattle.link_rules.specs.Report.{symbol_line};
ghost use Rattle.link_db.specs.Database.{symbol_names};
ghost use Rattle.link_core_answer.specs.Parts.{answer_of};
ghost use Rattle.link_core_answer.specs.Seen.{seen};
ghost use Rattle.link_report.specs.Runs.{lines_of_names, names_of_file, names_of_files, names_of_groups};

use crate::lines::write_symbol_line;
use link_core_answer::Linked;
use link_db_files::symbol_count;
use link_ids::SymbolId;
use link_input::Platform;
use link_input_groups::{Group, SequencedInput};
use link_names::NameView;
use std::alloc::AllocError;

/// Adds the line of the symbol, which has this name.
pub(crate) fn write_line_of_symbol<P: Platform>(
    text: &mut String,
    linked: &Linked<P>,
    id: SymbolId,
    name: &NameView<'_>,
) -> Result<(), AllocError>
    requires { id < length (symbol_names (seen linked.now).db) }
    ensures { let answer = answer_of (seen linked.now) in
        OnOk result (string_bytes text.new ≡ string_bytes text.old ++ symbol_line answer.table answer.flags id name.now) }
{
    write_symbol_line(text, id, name, linked.definition(id), linked.flags(id))
}

/// The name of the symbol at a place of the file's table.
fn name_at<'a, P: Platform>(file: &SequencedInput<'a, P>, place: usize) -> NameView<'a>
    requires { place < symbol_count (sequenced_file file.now).file }
    ensures { slice_get (names_of_file (sequenced_file file.now).file) place ≡ Some result }
{
    match file {
        SequencedInput::Prelude(prelude) => {
            NameView::new(prelude.symbols()[place].name.as_slice())
        }
        SequencedInput::Object(object) => object.parsed.object().symbol_name_at(place),
        SequencedInput::LinkerScript(script) => {
            NameView::new(script.parsed.symbol_defs.as_slice()[place].name.as_slice())
        }
        SequencedInput::StubLibrary(stub) => {
            NameView::new(stub.defined_symbols.as_slice()[place].name.as_slice())
        }
        SequencedInput::SyntheticSymbols(_) => unreachable!(),
    }
}

/// Adds the lines of the symbols of a file, of which the first has this id.
fn write_lines_of_file<P: Platform>(
    text: &mut String,
    linked: &Linked<P>,
    file: &SequencedInput<'_, P>,
    first: usize,
) -> Result<(), AllocError>
    requires { first + symbol_count (sequenced_file file.now).file ≤ length (symbol_names (seen linked.now).db) }
    ensures { OnOk result (string_bytes text.new
        ≡ string_bytes text.old ++ lines_of_names (seen linked.now) first (names_of_file (sequenced_file file.now).file)) }
{
    // So ids name all of them.
    prove!(linked.num_symbols() < 1 << 32);
    for place in 0..symbol_count(file) {
        let id = SymbolId::from_usize(first + place);
        write_line_of_symbol(text, linked, id, &name_at(file, place))?;
    }
    Ok(())
}

/// Adds the lines of the symbols of a group, of which the first has this id, and answers the id behind them.
fn write_lines_of_group<P: Platform>(
    text: &mut String,
    linked: &Linked<P>,
    group: &Group<P>,
    first: usize,
) -> Result<usize, AllocError>
    requires { first + length (names_of_files (files_of group.now)) ≤ length (symbol_names (seen linked.now).db) }
    ensures lines { OnOk result (string_bytes text.new
        ≡ string_bytes text.old ++ lines_of_names (seen linked.now) first (names_of_files (files_of group.now))) }
    ensures next { IfOk result (λ next. next ≡ first + length (names_of_files (files_of group.now))) }
{
    // So no id overflows.
    prove!(linked.num_symbols() < 1 << 32);
    let mut next = first;
    for place in 0..group.num_files() {
        let file = group.file(place);
        write_lines_of_file(text, linked, &file, next)?;
        next += symbol_count(&file);
    }
    Ok(next)
}

/// Adds the lines of the symbols of groups, of which the first has this id.
pub(crate) fn write_lines_of_groups<P: Platform>(
    text: &mut String,
    linked: &Linked<P>,
    groups: &[Group<P>],
    first: usize,
) -> Result<(), AllocError>
    requires { first + length (names_of_groups groups.now) ≤ length (symbol_names (seen linked.now).db) }
    ensures { OnOk result (string_bytes text.new
        ≡ string_bytes text.old ++ lines_of_names (seen linked.now) first (names_of_groups groups.now)) }
{
    let mut next = first;
    for group in groups {
        next = write_lines_of_group(text, linked, group, next)?;
    }
    Ok(())
}
