//! A search among the starts of files.

ghost use Rattle.std.specs.Prelude.{◌<◌, ◌≤◌, ◌≡◌, ◌+◌, IfSome, length, slice_get};
ghost use Rattle.link_db_files.specs.Starts.{IsLastFrom};

use crate::starts::FileStart;
use link_ids::SymbolId;

/// A place between both, about where the symbol would be if all files between them had as many symbols.
fn guess(starts: &[FileStart], id: SymbolId, low: usize, high: usize) -> usize
    requires between { low + 1 < high }
    requires within { high ≤ length starts.now }
    ensures above { low < result }
    ensures below { result < high }
{
    let most = high - low - 1;
    let first = starts[low].start.as_usize();
    let symbols = starts[high - 1].start.as_usize().saturating_sub(first);
    let before = id.as_usize().saturating_sub(first);
    let files = before.wrapping_mul(most).checked_div(symbols).unwrap_or(1);
    low + files.min(most).max(1)
}

/// The place of the last of the files that begin at the symbol or before it, where each begins where the one before it does or later.
/// It is one that is followed by none that begins there or before. Every second step halves what is left, so that the steps are few
/// whatever the files are; those between guess, since files of much the same size are found by two or three guesses, near each other in memory.
pub fn place_of(starts: &[FileStart], id: SymbolId) -> usize
    requires first { IfSome (slice_get starts.now 0) (λ first. first.start ≤ id) }
    requires some { 0 < length starts.now }
    ensures { IsLastFrom starts.now id result }
{
    let mut low = 0usize;
    let mut high = starts.len();
    let mut halve = false;
    while high - low > 1 {
        let middle = if halve {
            low + (high - low) / 2
        } else {
            guess(starts, id, low, high)
        };
        halve = !halve;
        if starts[middle].start <= id {
            low = middle;
        } else {
            high = middle;
        }
    }
    low
}
