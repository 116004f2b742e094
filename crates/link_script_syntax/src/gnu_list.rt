//! GNU export lists.

ghost use Rattle.std.specs.Prelude.{◌≡◌, ◌<◌, ◌≤◌, ℕ, List, length, IsSome, IfOk, IfErr};
ghost use Rattle.link_script_syntax.specs.declared.fault.ScriptErrorKind.{ScriptErrorKind};
ghost use Rattle.link_script_syntax.specs.declared.matcher.ParsedSymbolMatcher.{ParsedSymbolMatcher};
ghost use Rattle.link_script_syntax.specs.Fault.{IsWithin, Gives, Answers, IsRead};
ghost use Rattle.link_script_syntax.specs.Faults.{IsFaultOf, IsRefusedWith};
ghost use Rattle.link_script_syntax.specs.ListFaults.{ListFails};
ghost use Rattle.link_script_syntax.specs.ListGrammar.{IsExportList};
ghost use Rattle.link_script_syntax.specs.GnuList.{list_turn, gnu_entries, gnu_list};

use crate::entry::entry_at;
use crate::fault::{ReadError, ScriptFault, placed};
use crate::matcher::ParsedSymbolMatcher;
use crate::profile::ScriptProfile;
use crate::skip::{skip, strip, syntax};
use link_names::Seq;
use std::alloc::Global;

/// One turn of a list: an entry, or the list's end.
#[tactic(auto, unfolding(crate::specs::GnuList::list_turn))]
fn list_turn(
    alloc: Global,
    text: &[u8],
    profile: ScriptProfile,
) -> Result<(Option<ParsedSymbolMatcher>, &[u8]), ReadError>
    ensures gives { Gives (λ x. (x.0, x.1.now)) result (list_turn profile text.now) }
    ensures shorter { IfOk result (λ x. IsSome x.0 → length x.1.now < length text.now) }
    ensures no_longer { IfOk result (λ x. length x.1.now ≤ length text.now) }
    ensures inside { IfErr result (λ e. IsWithin e (length text.now)) }
{
    let text = skip(text)?;
    if let Some(rest) = strip(text, b"};") {
        return Ok((None, rest));
    }
    let (entry, rest) = entry_at(alloc, text, profile)?;
    Ok((Some(entry), rest))
}

/// The entries up to the list's end, and the text after it.
fn gnu_entries(
    alloc: Global,
    text: &[u8],
    profile: ScriptProfile,
) -> Result<(Seq<ParsedSymbolMatcher>, &[u8]), ReadError>
    ensures gives { Gives (λ x. (x.0, x.1.now)) result (gnu_entries profile text.now) }
    ensures shorter { IfOk result (λ x. length x.1.now ≤ length text.now) }
    ensures inside { IfErr result (λ e. IsWithin e (length text.now)) }
{
    let mut entries = Seq::new(alloc);
    let mut rest = text;
    'turns: loop {
        let (entry, after) = list_turn(alloc, rest, profile)?;
        let Some(entry) = entry else {
            return Ok((entries, after));
        };
        entries.push(entry)?;
        rest = after;
    }
}

/// The entries of a GNU export list.
#[tactic(auto, unfolding(crate::specs::GnuList::gnu_list))]
fn gnu_list(
    alloc: Global,
    text: &[u8],
    profile: ScriptProfile,
) -> Result<Seq<ParsedSymbolMatcher>, ReadError>
    ensures gives { Gives (λ x. x) result (gnu_list profile text.now) }
    ensures inside { IfErr result (λ e. IsWithin e (length text.now)) }
{
    let text = skip(text)?;
    let Some(text) = strip(text, b"{") else {
        return Err(syntax(text.len()));
    };
    let (entries, text) = gnu_entries(alloc, text, profile)?;
    let rest = skip(text)?;
    if !rest.is_empty() {
        return Err(syntax(rest.len()));
    }
    Ok(entries)
}

/// The entries of a GNU export list, as the text of GNU ld's `--dynamic-list`, in a profile. The fault is the first one from
/// the left, at its byte.
pub fn read_gnu_list(
    alloc: Global,
    text: &[u8],
    profile: ScriptProfile,
) -> Result<Seq<ParsedSymbolMatcher>, ScriptFault>
    // What is read is spelled so by the grammar.
    ensures found { IfOk result (λ entries. IsExportList profile text.now entries) }
    // What is spelled so is read, unless memory runs out.
    ensures only { (entries : List ParsedSymbolMatcher) → IsExportList profile text.now entries → IsRead entries result }
    // What is refused is a fault that the text has by the grammar, at its place.
    ensures refused { IfErr result (λ e. IsFaultOf (ListFails profile text.now) text.now e) }
    // A fault that the text has is answered, unless memory runs out.
    ensures refuses { (kind : ScriptErrorKind) (at : List ℕ) → ListFails profile text.now kind at → IsRefusedWith kind at text.now result }
    // The same as a function, for the layers above.
    ensures exact { Answers (λ entries. entries) text.now result (gnu_list profile text.now) }
{
    read_list(alloc, text, profile)
}

/// The same, by what reading gives alone.
fn read_list(
    alloc: Global,
    text: &[u8],
    profile: ScriptProfile,
) -> Result<Seq<ParsedSymbolMatcher>, ScriptFault>
    ensures reads { Answers (λ entries. entries) text.now result (gnu_list profile text.now) }
{
    match gnu_list(alloc, text, profile) {
        Ok(entries) => Ok(entries),
        Err(error) => Err(placed(error, text.len())),
    }
}
