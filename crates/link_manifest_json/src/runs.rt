//! Texts that are read side by side, some of them in a run.

ghost use Rattle.std.specs.Prelude.{◌≡◌, ◌++◌, IfOk, IfSome, OnOk};
ghost use Rattle.std.specs.List.{AllZip, flat_map};
ghost use Rattle.link_manifest_json.specs.Spans.{AreJoined, IsMade};

use crate::tree::{Refusal, read};
use json::{Reader, Scratch, Value};
use rayon::prelude::*;
use std::alloc::{AllocError, Global};
use std::thread::Threads;

/// How deep lists and objects may nest in an item of a list of the root.
const ITEM_DEPTH: usize = 125;

/// How many bytes the texts have together.
fn bytes_of(texts: &[&str]) -> usize {
    let mut bytes = 0usize;
    for text in texts {
        bytes = bytes.saturating_add(text.len());
    }
    bytes
}

/// How many texts go into each run but the last one. Nothing is claimed of these lengths: whatever they are, the runs are all texts in their order.
fn lengths_of(alloc: Global, workers: usize, texts: &[&str]) -> Result<Vec<usize>, AllocError> {
    let least = bytes_of(texts).div_ceil(workers.max(1)).max(1);
    let mut lengths = Vec::new(alloc);
    let mut bytes = 0usize;
    let mut length = 0usize;
    for text in texts {
        bytes = bytes.saturating_add(text.len());
        length = length.wrapping_add(1);
        if bytes >= least {
            lengths.push(length)?;
            bytes = 0;
            length = 0;
        }
    }
    Ok(lengths)
}

/// Adds the texts, cut into runs of these lengths, and what is left of them as the last run.
fn push_runs<'t, 'a>(
    runs: &mut Vec<&'t [&'a str]>,
    lengths: &[usize],
    texts: &'t [&'a str],
) -> Result<(), AllocError>
    ensures { OnOk result (flat_map (λ run. run.now) runs.new.items ≡ flat_map (λ run. run.now) runs.old.items ++ texts.now) }
{
    match lengths.split_first() {
        Some((length, lengths)) => {
            let (run, behind) = texts.split_at(texts.len().min(*length));
            runs.push(run)?;
            push_runs(runs, lengths, behind)
        }
        None if texts.is_empty() => Ok(()),
        None => Ok(runs.push(texts)?),
    }
}

/// The texts in runs of about as many bytes: one for each worker, or fewer.
fn runs_of<'t, 'a>(
    alloc: Global,
    workers: usize,
    texts: &'t [&'a str],
) -> Result<Vec<&'t [&'a str]>, AllocError>
    ensures { IfOk result (λ runs. flat_map (λ run. run.now) runs.items ≡ texts.now) }
{
    let lengths = lengths_of(alloc, workers, texts)?;
    let mut runs = Vec::new(alloc);
    push_runs(&mut runs, lengths.as_slice(), texts)?;
    Ok(runs)
}

/// What a function makes of the tree of an item's text.
pub(crate) fn item_read<T: Drop, F: Fn(&Value<'_>) -> T>(
    alloc: Global,
    text: &str,
    scratch: &mut Scratch,
    f: &F,
) -> Result<T, Refusal>
    requires { F.IsAlwaysCallable f.now }
    ensures { IfOk result (λ t. IsMade F.Fn f.now text.now t) }
{
    let mut reader = Reader::new(text, scratch)?;
    let value = read(alloc, &mut reader, ITEM_DEPTH)?;
    if reader.next().is_some() {
        return Err(Refusal::NotJson);
    }
    Ok(f(&value))
}

/// What a function makes of each of the texts of a run, one after another. A tree is let go before the next one is read, so each takes the memory
/// of the one before it.
fn run_read<T: Drop, F: Fn(&Value<'_>) -> T>(
    alloc: Global,
    texts: &[&str],
    f: &F,
) -> Result<Vec<T>, Refusal>
    requires { F.IsAlwaysCallable f.now }
    ensures { IfOk result (λ made. AllZip (λ s t. IsMade F.Fn f.now s.now t) texts.now made.items) }
{
    let mut scratch = Scratch::new(alloc);
    let mut made = Vec::with_capacity(alloc, texts.len())?;
    for text in texts {
        made.push(item_read(alloc, *text, &mut scratch, f)?)?;
    }
    Ok(made)
}

/// What all runs made, in their order; none where a text is no item.
fn joined<T: Drop>(
    alloc: Global,
    results: Vec<Result<Vec<T>, Refusal>>,
) -> Result<Option<Vec<T>>, AllocError>
    ensures { IfOk result (λ found. IfSome found (λ all. AreJoined results.items all.items)) }
{
    let mut all = Vec::new(alloc);
    'results: for result in results {
        match result {
            Ok(mut made) => all.append(&mut made)?,
            Err(Refusal::NotJson) => return Ok(None),
            Err(Refusal::Memory) => return Err(AllocError),
        }
    }
    Ok(Some(all))
}

/// What a function makes of the trees of texts, read by so many workers at most; none where one of them is no item.
pub(crate) fn texts_read<T: Drop + Send, F: Fn(&Value<'_>) -> T + Sync>(
    rt: &(impl Threads + Sync),
    alloc: Global,
    workers: usize,
    texts: &[&str],
    f: &F,
) -> Result<Option<Vec<T>>, AllocError>
    requires { F.IsAlwaysCallable f.now }
    ensures { IfOk result (λ found. IfSome found (λ made. AllZip (λ s t. IsMade F.Fn f.now s.now t) texts.now made.items)) }
{
    let runs = runs_of(alloc, workers, texts)?;
    let results = runs
        .par_iter()
        .with_min_len(1)
        .map(
            |run: &&[&str]| -> Result<Vec<T>, Refusal>
                requires { F.IsAlwaysCallable f.now }
                ensures { IfOk result (λ made. AllZip (λ s t. IsMade F.Fn f.entry.now s.now t) run.now.now made.items) }
            { run_read(alloc, *run, f) },
        )
        .collect::<Vec<_>>(rt, alloc)?;
    joined(alloc, results)
}
