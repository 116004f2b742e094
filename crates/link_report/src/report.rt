//! The report of a link.

ghost use Rattle.std.specs.Prelude.{◌≡◌, ◌<◌, ◌++◌, [], IfOk, OnOk, length, string_bytes};
ghost use Rattle.std.specs.List.{flat_map, slice_index_or};
ghost use Rattle.link_rules.specs.Report.{symbol_line, undefined_line, report_text};
ghost use Rattle.link_db.specs.Database.{symbol_names};
ghost use Rattle.link_core_answer.specs.Parts.{answer_of, undefined_name};
ghost use Rattle.link_core_answer.specs.Seen.{seen};
ghost use Rattle.link_report.specs.Runs.{lines_of_names};

use crate::lines::{
    write_kept_lines, write_loaded_lines, write_missing_lines, write_undefined_line,
    write_version_lines,
};
use crate::runs::write_lines_of_files;
use crate::symbols::write_line_of_symbol;
use link_core_answer::Linked;
use link_ids::SymbolId;
use link_input::Platform;
use std::alloc::{AllocError, Global};
use std::thread::Threads;

/// The report of a link, line by line: each loaded object, each COMDAT group that was kept, each
/// symbol with what it means and the flags of its own value, each version that was given, each name
/// that nothing defines, and each name that the export list requires and nothing defines.
///
/// The lines are written straight from the files of the link. The lines of symbols are written by so
/// many workers at most, each those of a run of files; the text is the same for every number of
/// them. The only refusal is want of memory.
pub fn report_text<R: Threads + Sync, P: Platform + Sync>(
    rt: &R,
    alloc: Global,
    workers: usize,
    linked: &Linked<P>,
) -> Result<Vec<u8>, AllocError>
    ensures { IfOk result (λ text. text.items ≡ report_text (answer_of (seen linked.now))) }
{
    let mut text = String::new(alloc);
    write_loaded_lines(&mut text, &linked.loaded_objects(alloc)?)?;
    write_kept_lines(&mut text, linked.kept_comdats())?;
    write_symbol_lines(rt, alloc, workers, &mut text, linked)?;
    write_version_lines(&mut text, linked.versions())?;
    write_undefined_lines(&mut text, linked)?;
    write_missing_lines(&mut text, linked.missing())?;
    Ok(text.into_bytes())
}

/// Adds the lines of the symbols, in the order of their ids: those of files, and behind them those that the linker added.
fn write_symbol_lines<R: Threads + Sync, P: Platform + Sync>(
    rt: &R,
    alloc: Global,
    workers: usize,
    text: &mut String,
    linked: &Linked<P>,
) -> Result<(), AllocError>
    ensures { OnOk result (string_bytes text.new
        ≡ string_bytes text.old ++ lines_of_names (seen linked.now) 0 (symbol_names (seen linked.now).db)) }
{
    let of_files = write_lines_of_files(rt, alloc, workers, text, linked)?;
    for id in of_files..linked.num_symbols() {
        write_line_at(text, linked, SymbolId::from_usize(id))?;
    }
    Ok(())
}

/// Adds the line of the symbol, whose name is looked up.
fn write_line_at<P: Platform>(
    text: &mut String,
    linked: &Linked<P>,
    id: SymbolId,
) -> Result<(), AllocError>
    requires { id < length (symbol_names (seen linked.now).db) }
    ensures { let answer = answer_of (seen linked.now) in
        OnOk result (string_bytes text.new ≡ string_bytes text.old ++ symbol_line answer.table answer.flags id (slice_index_or answer.names id [])) }
{
    write_line_of_symbol(text, linked, id, &linked.symbol_name(id))
}

/// Adds the lines of the undefined names.
fn write_undefined_lines<P: Platform>(
    text: &mut String,
    linked: &Linked<P>,
) -> Result<(), AllocError>
    ensures { OnOk result (string_bytes text.new ≡ string_bytes text.old ++ flat_map undefined_line (answer_of (seen linked.now)).undefined) }
{
    for id in linked.undefined() {
        write_line_of_undefined(text, linked, *id)?;
    }
    Ok(())
}

/// Adds the line of the undefined name for which the reference stands.
fn write_line_of_undefined<P: Platform>(
    text: &mut String,
    linked: &Linked<P>,
    id: SymbolId,
) -> Result<(), AllocError>
    requires { id < length (symbol_names (seen linked.now).db) }
    ensures { OnOk result (string_bytes text.new ≡ string_bytes text.old ++ undefined_line (undefined_name (seen linked.now).db.mapping.files id)) }
{
    let name = linked.symbol_name(id);
    let version = linked.symbol_version(id);
    write_undefined_line(text, id, &name, &version)
}
