//! How the objects of a link are cut into groups.

ghost use Rattle.std.specs.Prelude.{◌≡◌, ◌<◌, ◌≤◌, ◌^◌, ◌&&◌, ◌||◌, IfOk, map, nat_lt, nat_le};
ghost use Rattle.link_input_groups.specs.Cut.{IsCut, is_past, symbol_limit, symbols_in};

use link_input::{ParsedInputObject, Platform};
use std::alloc::{AllocError, Global};

/// A worker is to have this many groups.
const GROUPS_PER_WORKER: u128 = 5;

/// There are to be no fewer groups than this.
const MIN_GROUPS: u128 = 150;

/// How many symbols the objects of a group may have: there is no limit for one worker.
pub(crate) fn symbol_limit(workers: usize, symbols: u128) -> Option<u128>
    requires { workers ≤ 256 }
    ensures { result ≡ symbol_limit workers symbols }
{
    if workers == 1 {
        return None;
    }
    let groups = (GROUPS_PER_WORKER * workers as u128).max(MIN_GROUPS);
    Some((symbols / groups).max(1))
}

/// The number is past the limit, if there is one.
fn is_past(limit: Option<u128>, symbols: u128) -> bool
    ensures { result ≡ is_past limit symbols }
{
    match limit {
        None => false,
        Some(limit) => limit < symbols,
    }
}

/// A group with so many objects ends before the next one, with which it would have so many symbols.
fn ends_group(objects: usize, files: usize, limit: Option<u128>, symbols: u128) -> bool
    ensures { result ≡ (nat_lt 0 objects && (nat_le files objects || is_past limit symbols)) }
{
    objects > 0 && (objects >= files || is_past(limit, symbols))
}

/// Objects in groups of at most so many, in order. A group ends where its symbols and those of the next object would pass the
/// limit.
pub(crate) fn cut_objects<P: Platform>(
    alloc: Global,
    objects: Vec<ParsedInputObject<P>>,
    files: usize,
    limit: Option<u128>,
) -> Result<Vec<Vec<ParsedInputObject<P>>>, AllocError>
    requires files { 0 < files }
    requires fits { symbols_in objects.items < 2 ^ 32 }
    ensures { IfOk result (λ cuts. IsCut files limit objects.items (map (λ cut. cut.items) cuts.items)) }
{
    let mut cuts = Vec::new(alloc);
    let mut current = Vec::new(alloc);
    let mut symbols = 0u128;
    for object in objects {
        let size = object.num_symbols() as u128;
        if ends_group(current.len(), files, limit, symbols + size) {
            cuts.push(current)?;
            current = Vec::new(alloc);
            symbols = 0;
        }
        current.push(object)?;
        symbols += size;
    }
    if !current.is_empty() {
        cuts.push(current)?;
    }
    Ok(cuts)
}
