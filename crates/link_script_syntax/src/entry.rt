//! Entries.

ghost use Rattle.std.specs.Prelude.{◌≡◌, ◌+◌, ◌<◌, ◌≤◌, ℕ, List, length, drop, IfOk, IfErr};
ghost use Rattle.link_script_syntax.specs.declared.fault.ScriptErrorKind.{ScriptErrorKind};
ghost use Rattle.link_script_syntax.specs.declared.matcher.ParsedSymbolMatcher.{ParsedSymbolMatcher};
ghost use Rattle.link_script_syntax.specs.Grammar.{IsEntry};
ghost use Rattle.link_script_syntax.specs.Faults.{IsFaultOf, IsRefusedWith, EntryFails};
ghost use Rattle.link_script_syntax.specs.Fault.{IsWithin, Gives};
ghost use Rattle.link_script_syntax.specs.Entry.{extern_at, entry_at, ReadsEntry, EntryIs};

use crate::block::{block_at, language_at, unsupported};
use crate::fault::{Language, ReadError, ScriptFault, placed};
use crate::matcher::ParsedSymbolMatcher;
use crate::profile::{ScriptProfile, token_end};
use crate::skip::{skip, strip, syntax};
use crate::token::token_at;
use std::alloc::Global;

/// An extern block behind its `extern `.
#[tactic(auto, unfolding(crate::specs::Entry::extern_at))]
pub fn extern_at(alloc: Global, text: &[u8]) -> Result<(ParsedSymbolMatcher, &[u8]), ReadError>
    ensures gives { Gives (λ x. (x.0, x.1.now)) result (extern_at text.now) }
    ensures shorter { IfOk result (λ x. length x.1.now < length text.now) }
    ensures inside { IfErr result (λ e. IsWithin e (length text.now)) }
{
    let Some((language, text)) = language_at(text) else {
        return Err(unsupported(alloc, text.len(), text));
    };
    let text = skip(text)?;
    let Some(text) = strip(text, b"{") else {
        return Err(syntax(text.len()));
    };
    let (matchers, rest) = block_at(alloc, text)?;
    match language {
        Language::C => Ok((ParsedSymbolMatcher::Multiple(matchers), rest)),
        Language::Cxx => Ok((ParsedSymbolMatcher::CxxMatchers(matchers), rest)),
    }
}

/// One entry: an extern block, or a token up to its end.
#[tactic(auto, unfolding(crate::specs::Entry::entry_at))]
pub fn entry_at(
    alloc: Global,
    text: &[u8],
    profile: ScriptProfile,
) -> Result<(ParsedSymbolMatcher, &[u8]), ReadError>
    ensures gives { Gives (λ x. (x.0, x.1.now)) result (entry_at profile text.now) }
    ensures shorter { IfOk result (λ x. length x.1.now < length text.now) }
    ensures inside { IfErr result (λ e. IsWithin e (length text.now)) }
{
    if let Some(rest) = strip(text, b"extern ") {
        return extern_at(alloc, rest);
    }
    let (matcher, rest) = token_at(alloc, token_end(profile), text)?;
    Ok((ParsedSymbolMatcher::Single(matcher), rest))
}

/// Reads one entry from the place `at`, as in a version's body: an extern block, or a name or pattern up to its end, which is
/// as the profile says. Answers it and the place behind it.
pub fn parse_matcher(
    alloc: Global,
    text: &[u8],
    at: usize,
    profile: ScriptProfile,
) -> Result<(ParsedSymbolMatcher, usize), ScriptFault>
    requires { at ≤ length text.now }
    // What is read is spelled so by the grammar.
    ensures found { IfOk result (λ x. (rest : List ℕ) × IsEntry profile (drop at text.now) x.0 rest × (x.1 + length rest ≡ length text.now)) }
    // What is spelled so is read, unless memory runs out.
    ensures only { (entry : ParsedSymbolMatcher) (rest : List ℕ) → IsEntry profile (drop at text.now) entry rest → EntryIs text.now entry rest result }
    // What is refused is a fault that the text has there by the grammar, at its place.
    ensures refused { IfErr result (λ e. IsFaultOf (EntryFails profile (drop at text.now)) text.now e) }
    // A fault that the text has there is answered, unless memory runs out.
    ensures refuses { (kind : ScriptErrorKind) (rest : List ℕ) → EntryFails profile (drop at text.now) kind rest → IsRefusedWith kind rest text.now result }
    // The same as a function, for the layers above.
    ensures exact { ReadsEntry text.now result (entry_at profile (drop at text.now)) }
{
    entry_from(alloc, text, at, profile)
}

/// The same, by what reading gives alone.
fn entry_from(
    alloc: Global,
    text: &[u8],
    at: usize,
    profile: ScriptProfile,
) -> Result<(ParsedSymbolMatcher, usize), ScriptFault>
    requires { at ≤ length text.now }
    ensures { ReadsEntry text.now result (entry_at profile (drop at text.now)) }
{
    match entry_at(alloc, &text[at..], profile) {
        Ok((entry, rest)) => Ok((entry, text.len() - rest.len())),
        Err(error) => Err(placed(error, text.len())),
    }
}
