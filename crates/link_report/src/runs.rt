//! Runs of groups, whose symbols' lines are written side by side.

ghost use Rattle.std.specs.Prelude.{ℕ, ◌≡◌, ◌<◌, ◌≤◌, ◌+◌, ◌^◌, ◌++◌, IfOk, OnOk, length, string_bytes};
ghost use Rattle.std.specs.List.{enumerate_from, flat_map};
ghost use Rattle.link_input_groups.specs.Groups.{files_of};
ghost use Rattle.link_db.specs.Database.{symbol_names};
ghost use Rattle.link_core_answer.specs.Seen.{seen};
ghost use Rattle.link_report.specs.Runs.{AreBelow, lines_of_names, lines_of_run, names_of_files, names_of_groups, names_of_run, symbols_of_runs};

use crate::symbols::write_lines_of_groups;
use link_core_answer::Linked;
use link_db_files::symbol_count;
use link_input::Platform;
use link_input_groups::Group;
use rayon::prelude::*;
use std::alloc::{AllocError, Global};
use std::thread::Threads;

/// Where there are fewer symbols, one worker writes all lines.
const LEAST_FOR_WORKERS: usize = 4096;

/// Groups that stand one behind another.
#[derive(Drop)]
struct Run<'a, P: Platform> {
    groups: &'a [Group<P>],
    /// The id of the first of their symbols.
    first: usize,
}

/// How many symbols stand in the tables of the files of a group.
fn symbols_of_group<P: Platform>(group: &Group<P>) -> usize
    requires { length (names_of_files (files_of group.now)) < 2 ^ 64 }
    ensures { result ≡ length (names_of_files (files_of group.now)) }
{
    let mut count = 0;
    for place in 0..group.num_files() {
        count += symbol_count(&group.file(place));
    }
    count
}

/// How many symbols stand in the tables of the files of groups.
fn symbols_of_groups<P: Platform>(groups: &[Group<P>]) -> usize
    requires { length (names_of_groups groups.now) < 2 ^ 64 }
    ensures { result ≡ length (names_of_groups groups.now) }
{
    let mut count = 0;
    for group in groups {
        count += symbols_of_group(group);
    }
    count
}

/// How many groups go into each run but the last one, so that each has at least so many symbols. Nothing is claimed of these lengths: whatever they
/// are, the runs are all groups in their order.
fn lengths_of<P: Platform>(
    alloc: Global,
    least: usize,
    groups: &[Group<P>],
) -> Result<Vec<usize>, AllocError>
    requires { length (names_of_groups groups.now) < 2 ^ 64 }
{
    let mut lengths = Vec::new(alloc);
    let mut symbols = 0usize;
    let mut length = 0usize;
    for group in groups {
        symbols = symbols.saturating_add(symbols_of_group(group));
        length = length.wrapping_add(1);
        if symbols >= least {
            lengths.push(length)?;
            symbols = 0;
            length = 0;
        }
    }
    Ok(lengths)
}

/// Adds the groups, cut into runs of these lengths, and what is left of them as the last run. The first of their symbols has this id.
fn push_runs<'a, P: Platform>(
    runs: &mut Vec<Run<'a, P>>,
    lengths: &[usize],
    groups: &'a [Group<P>],
    first: usize,
) -> Result<(), AllocError>
    requires { first + length (names_of_groups groups.now) < 2 ^ 64 }
    ensures symbols { OnOk result (symbols_of_runs runs.new.items
        ≡ symbols_of_runs runs.old.items ++ enumerate_from first (names_of_groups groups.now)) }
    ensures below { OnOk result ((count : ℕ) → first + length (names_of_groups groups.now) ≤ count
        → AreBelow count runs.old.items → AreBelow count runs.new.items) }
{
    match lengths.split_first() {
        Some((length, lengths)) => {
            let (groups, behind) = groups.split_at(groups.len().min(*length));
            runs.push(Run { groups, first })?;
            push_runs(runs, lengths, behind, first + symbols_of_groups(groups))
        }
        None => Ok(runs.push(Run { groups, first })?),
    }
}

/// The groups in runs of about as many symbols: one for each worker, or fewer. The groups have so many symbols, and the first has id 0.
fn runs_of<P: Platform>(
    alloc: Global,
    workers: usize,
    groups: &[Group<P>],
    symbols: usize,
) -> Result<Vec<Run<'_, P>>, AllocError>
    requires { length (names_of_groups groups.now) < 2 ^ 64 }
    ensures symbols { IfOk result (λ runs. symbols_of_runs runs.items ≡ enumerate_from 0 (names_of_groups groups.now)) }
    ensures below { IfOk result (λ runs. AreBelow (length (names_of_groups groups.now)) runs.items) }
{
    let least = (symbols / workers.max(1)).saturating_add(1);
    let lengths = lengths_of(alloc, least, groups)?;
    let mut runs = Vec::new(alloc);
    push_runs(&mut runs, lengths.as_slice(), groups, 0)?;
    Ok(runs)
}

/// The lines of the symbols of a run.
fn text_of_run<P: Platform>(
    alloc: Global,
    linked: &Linked<P>,
    run: &Run<'_, P>,
) -> Result<String, AllocError>
    requires { run.now.first + length (names_of_run run.now) ≤ length (symbol_names (seen linked.now).db) }
    ensures { IfOk result (λ text. string_bytes text ≡ lines_of_run (seen linked.now) run.now) }
{
    let mut text = String::new(alloc);
    write_lines_of_groups(&mut text, linked, run.groups, run.first)?;
    Ok(text)
}

/// The lines of the symbols of each run, the runs side by side.
fn texts_of_runs<R: Threads + Sync, P: Platform + Sync>(
    rt: &R,
    alloc: Global,
    linked: &Linked<P>,
    runs: &[Run<'_, P>],
) -> Result<Vec<String>, AllocError>
    requires { AreBelow (length (symbol_names (seen linked.now).db)) runs.now }
    ensures { IfOk result (λ texts. flat_map string_bytes texts.items ≡ flat_map (lines_of_run (seen linked.now)) runs.now) }
{
    runs.par_iter()
        .with_min_len(1)
        .map(
            |run: &Run<'_, P>| -> Result<String, AllocError>
                requires { run.now.first + length (names_of_run run.now) ≤ length (symbol_names (seen linked.now).db) }
                ensures { IfOk result (λ text. string_bytes text ≡ lines_of_run (seen linked.entry.now) run.now) }
            { text_of_run(alloc, linked, run) },
        )
        .collect::<Result<Vec<String>, AllocError>>(rt, alloc)?
}

/// Adds texts one after another, and lets each go as soon as it is added.
fn push_texts(text: &mut String, texts: Vec<String>) -> Result<(), AllocError>
    ensures { OnOk result (string_bytes text.new ≡ string_bytes text.old ++ flat_map string_bytes texts.items) }
{
    'texts: for piece in texts {
        text.push_str(piece.as_str())?;
    }
    Ok(())
}

/// Adds the lines of the symbols of the link's files, and answers how many there are. So many workers at most write them: each those of a run of
/// groups into a text of its own. One worker alone, or few symbols, need no other text.
pub(crate) fn write_lines_of_files<R: Threads + Sync, P: Platform + Sync>(
    rt: &R,
    alloc: Global,
    workers: usize,
    text: &mut String,
    linked: &Linked<P>,
) -> Result<usize, AllocError>
    ensures lines { OnOk result (string_bytes text.new ≡ string_bytes text.old
        ++ lines_of_names (seen linked.now) 0 (names_of_groups (seen linked.now).db.mapping.files.groups)) }
    ensures count { IfOk result (λ count. count ≡ length (names_of_groups (seen linked.now).db.mapping.files.groups)) }
{
    let groups = linked.db().groups();
    // So the symbols can be counted.
    prove!(linked.num_symbols() < 1 << 32);
    let symbols = symbols_of_groups(groups);
    if workers <= 1 || symbols < LEAST_FOR_WORKERS {
        write_lines_of_groups(text, linked, groups, 0)?;
    } else {
        let runs = runs_of(alloc, workers, groups, symbols)?;
        push_texts(text, texts_of_runs(rt, alloc, linked, runs.as_slice())?)?;
    }
    Ok(symbols)
}
