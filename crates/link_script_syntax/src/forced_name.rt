//! Entries that are added to an export list one by one.

ghost use Rattle.std.specs.Prelude.{◌≡◌, ◌≤◌, ℕ, List, length, IfOk, IfErr};
ghost use Rattle.link_script_syntax.specs.declared.fault.ScriptErrorKind.{ScriptErrorKind};
ghost use Rattle.link_script_syntax.specs.declared.matcher.ParsedSymbolMatcher.{ParsedSymbolMatcher};
ghost use Rattle.link_script_syntax.specs.Fault.{IsWithin, Gives, Answers, IsRead};
ghost use Rattle.link_script_syntax.specs.Faults.{IsFaultOf, IsRefusedWith};
ghost use Rattle.link_script_syntax.specs.ListFaults.{AddedFails};
ghost use Rattle.link_script_syntax.specs.ListGrammar.{IsAddedEntry};
ghost use Rattle.link_script_syntax.specs.ForcedName.{forced_token, forced_name, added_entry};

use crate::entry::{entry_at, extern_at};
use crate::fault::{ReadError, ScriptFault, placed};
use crate::matcher::{ParsedSymbolMatcher, SymbolMatcher};
use crate::profile::ScriptProfile;
use crate::skip::{place_of, strip, syntax};
use crate::token::{matcher_of, trimmed};
use std::alloc::Global;

/// A token that needs no `;`: the bytes before the first `}`, or the whole text.
#[tactic(auto, unfolding(crate::specs::ForcedName::forced_token))]
fn forced_token(alloc: Global, text: &[u8]) -> Result<SymbolMatcher, ReadError>
    ensures gives { Gives (λ m. m) result (forced_token text.now) }
    ensures inside { IfErr result (λ e. IsWithin e (length text.now)) }
{
    let Some(end) = place_of(b'}', text) else {
        return matcher_of(alloc, text.len(), trimmed(text));
    };
    if end == 0 {
        return Err(syntax(text.len()));
    }
    let (token, _) = text.split_at(end);
    matcher_of(alloc, text.len(), trimmed(token))
}

/// An extern block, or a token that needs no `;`. What follows it is not read.
#[tactic(auto, unfolding(crate::specs::ForcedName::forced_name))]
fn forced_name(alloc: Global, text: &[u8]) -> Result<ParsedSymbolMatcher, ReadError>
    ensures gives { Gives (λ x. x) result (forced_name text.now) }
    ensures inside { IfErr result (λ e. IsWithin e (length text.now)) }
{
    if let Some(rest) = strip(text, b"extern ") {
        let (block, _) = extern_at(alloc, rest)?;
        return Ok(block);
    }
    Ok(ParsedSymbolMatcher::Single(forced_token(alloc, text)?))
}

/// The entry that a text adds to a list. What follows it is not read.
#[tactic(auto, unfolding(crate::specs::ForcedName::added_entry))]
fn added_entry(
    alloc: Global,
    text: &[u8],
    without_semicolon: bool,
) -> Result<ParsedSymbolMatcher, ReadError>
    ensures gives { Gives (λ x. x) result (added_entry without_semicolon text.now) }
    ensures inside { IfErr result (λ e. IsWithin e (length text.now)) }
{
    if without_semicolon {
        forced_name(alloc, text)
    } else {
        let (entry, _) = entry_at(alloc, text, ScriptProfile::Wild)?;
        Ok(entry)
    }
}

/// The entry that the text begins with: an extern block, or a name or pattern up to its `;`, or, where `without_semicolon`
/// says so, up to a `}` or the text's end. What follows the entry is not read. The fault is the first one from the left,
/// at its byte.
pub fn read_added_entry(
    alloc: Global,
    text: &[u8],
    without_semicolon: bool,
) -> Result<ParsedSymbolMatcher, ScriptFault>
    // What is read is spelled so by the grammar.
    ensures found { IfOk result (λ entry. IsAddedEntry without_semicolon text.now entry) }
    // What is spelled so is read, unless memory runs out.
    ensures only { (entry : ParsedSymbolMatcher) → IsAddedEntry without_semicolon text.now entry → IsRead entry result }
    // What is refused is a fault that the text has by the grammar, at its place.
    ensures refused { IfErr result (λ e. IsFaultOf (AddedFails without_semicolon text.now) text.now e) }
    // A fault that the text has is answered, unless memory runs out.
    ensures refuses { (kind : ScriptErrorKind) (at : List ℕ) → AddedFails without_semicolon text.now kind at → IsRefusedWith kind at text.now result }
    // The same as a function, for the layers above.
    ensures exact { Answers (λ entry. entry) text.now result (added_entry without_semicolon text.now) }
{
    read_entry(alloc, text, without_semicolon)
}

/// The same, by what reading gives alone.
fn read_entry(
    alloc: Global,
    text: &[u8],
    without_semicolon: bool,
) -> Result<ParsedSymbolMatcher, ScriptFault>
    ensures reads { Answers (λ entry. entry) text.now result (added_entry without_semicolon text.now) }
{
    match added_entry(alloc, text, without_semicolon) {
        Ok(entry) => Ok(entry),
        Err(error) => Err(placed(error, text.len())),
    }
}
