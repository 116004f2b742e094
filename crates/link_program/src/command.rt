//! What the words of the command line ask for.

ghost use Rattle.std.specs.Prelude.{◌≡◌, ◌≢◌, ℕ, ◌≤◌, decimal, slice_index, IfSome, IfNone};
ghost use Rattle.link_program.specs.Grammar.{IsCommand, IsNoCommand};

use crate::word::Word;
use link_manifest_bulk::MAX_MEMBERS;

/// The most workers that a link has.
const MAX_WORKERS: usize = 256;

/// A command of the program.
#[derive(Clone, Copy, Debug, PartialEq, Eq)]
pub enum Command {
    /// `link W`: the objects of the manifest are linked, by so many workers.
    Link { workers: usize },
    /// `bulk N W`: a made-up world of so many archive members is linked, by so many workers.
    Bulk { members: usize, workers: usize },
    /// `why W`: they are linked so, and why each object is loaded is written.
    Why { workers: usize },
    /// `gc W`: they are linked so, and which sections are live is written.
    Gc { workers: usize },
    /// `verdef`: the version definitions that the manifest's version script makes are written.
    Verdef,
    /// `check`: the claim that the manifest makes of the link is judged.
    Check,
}

/// The command that these words write.
pub fn command_of(words: &[Word]) -> Option<Command>
    ensures command { IfSome result (IsCommand words.now) }
    ensures none { IfNone result (IsNoCommand words.now) }
{
    match words {
        [name] if name.as_str() == "verdef" => Some(Command::Verdef),
        [name] if name.as_str() == "check" => Some(Command::Check),
        [name, workers] if name.as_str() == "link" => {
            let workers = number_of(workers, MAX_WORKERS)?;
            Some(Command::Link { workers })
        }
        [name, workers] if name.as_str() == "why" => {
            let workers = number_of(workers, MAX_WORKERS)?;
            Some(Command::Why { workers })
        }
        [name, workers] if name.as_str() == "gc" => {
            let workers = number_of(workers, MAX_WORKERS)?;
            Some(Command::Gc { workers })
        }
        [name, members, workers] if name.as_str() == "bulk" => {
            let members = number_of(members, MAX_MEMBERS)?;
            let workers = number_of(workers, MAX_WORKERS)?;
            Some(Command::Bulk { members, workers })
        }
        _ => None,
    }
}

/// The number from 1 to `most` that a word writes in decimal digits, without a sign or a leading zero.
fn number_of(word: &Word, most: usize) -> Option<usize>
    ensures number { IfSome result (λ n. word.now ≡ decimal n) }
    ensures in_range { IfSome result (λ n. (1 ≤ n) × (n ≤ most)) }
    ensures none { IfNone result ((n : ℕ) → 1 ≤ n → n ≤ most → word.now ≢ decimal n) }
{
    let text = word.as_str();
    let first = first_byte(text);
    // `parse` takes these too.
    if first == b'0' || first == b'+' {
        return None;
    }
    match text.parse() {
        Ok(number) if 1 <= number && number <= most => Some(number),
        _ => None,
    }
}

/// The first byte of a text, or 0 where there is none.
fn first_byte(text: &str) -> u8
    ensures { result ≡ slice_index text.now 0 }
{
    text.as_bytes().first().copied().unwrap_or(0)
}
