//! Mach-O export lists.

ghost use Rattle.std.specs.Prelude.{◌≡◌, ◌≤◌, ◌+◌, ℕ, List, length, drop, IfOk, IfErr};
ghost use Rattle.std.specs.Char.{is_ascii_whitespace};
ghost use Rattle.std.specs.List.{list_any, prefix_len};
ghost use Rattle.std.specs.Option.{option_map};
ghost use Rattle.link_script_syntax.specs.declared.fault.ScriptErrorKind.{ScriptErrorKind};
ghost use Rattle.link_script_syntax.specs.declared.matcher.SymbolMatcher.{SymbolMatcher};
ghost use Rattle.link_script_syntax.specs.Fault.{IsWithin, Gives, Answers, IsRead};
ghost use Rattle.link_script_syntax.specs.Faults.{IsFaultOf, IsRefusedWith};
ghost use Rattle.link_script_syntax.specs.MachoGrammar.{IsMachoList, MachoFails};
ghost use Rattle.link_script_syntax.specs.MachoList.{IsLineOf, is_glob_byte, uncommented, indent, bare, line_matcher, macho_matcher, macho_list};

use crate::fault::{Fault, ReadError, ScriptErrorKind, ScriptFault, placed};
use crate::matcher::SymbolMatcher;
use crate::skip::place_of;
use crate::token::trimmed;
use link_glob::{GlobError, compile_macho_glob_pattern};
use link_names::{Name, Seq};
use std::alloc::Global;

/// The first line, and where there is one more, the text after its end.
fn split_line(text: &[u8]) -> (&[u8], Option<&[u8]>)
    ensures { IsLineOf text.now result.0.now (option_map (λ r. r.now) result.1) }
{
    let Some(end) = place_of(b'\n', text) else {
        return (text, None);
    };
    let (line, ended) = text.split_at(end);
    let (_, after) = ended.split_at(1);
    (line, Some(after))
}

/// The line up to its comment.
fn uncommented(line: &[u8]) -> &[u8]
    ensures value { result.now ≡ uncommented line.now }
    ensures shorter { length result.now ≤ length line.now }
{
    let end = place_of(b'#', line).unwrap_or(line.len());
    &line[..end]
}

/// The bytes behind the blanks in front.
fn unindented(bytes: &[u8]) -> &[u8]
    ensures value { result.now ≡ drop (prefix_len is_ascii_whitespace bytes.now) bytes.now }
    ensures shorter { length result.now + prefix_len is_ascii_whitespace bytes.now ≡ length bytes.now }
{
    bytes.trim_ascii_start()
}

/// The line without its comment and the blanks round it, and how many blanks stand in front.
fn bare(line: &[u8]) -> (usize, &[u8])
    ensures indent { result.0 ≡ indent line.now }
    ensures name { result.1.now ≡ bare line.now }
    ensures within { result.0 ≤ length line.now }
{
    let code = uncommented(line);
    let indented = unindented(code);
    (code.len() - indented.len(), trimmed(indented))
}

/// Whether the byte is `*`, `?` or `[`.
fn is_glob_byte(byte: u8) -> bool
    ensures { result ≡ is_glob_byte byte }
{
    byte == b'*' || byte == b'?' || byte == b'['
}

/// Whether a byte makes the name a glob.
fn is_glob(name: &[u8]) -> bool
    ensures { result ≡ list_any is_glob_byte name.now }
{
    name.iter().any(|byte| is_glob_byte(*byte))
}

/// What a line means that is not empty, where so many bytes are left from its first one on.
#[tactic(auto, unfolding(crate::specs::MachoList::macho_matcher))]
fn macho_matcher(alloc: Global, left: usize, name: &[u8]) -> Result<SymbolMatcher, ReadError>
    ensures gives { Gives (λ m. m) result (macho_matcher left name.now) }
    ensures inside { IfErr result (λ e. IsWithin e left) }
{
    if let [b'*'] = name {
        return Ok(SymbolMatcher::MatchesAll);
    }
    if !is_glob(name) {
        return Ok(SymbolMatcher::Exact(Name::from_slice(alloc, name)?));
    }
    match compile_macho_glob_pattern(alloc, name) {
        Ok(pattern) => {
            if name.contains(&b'*') {
                Ok(SymbolMatcher::StarGlob(pattern))
            } else {
                Ok(SymbolMatcher::NonstarGlob(pattern))
            }
        }
        Err(GlobError::InvalidUtf8) => Err(ReadError::Fault(Fault {
            left,
            kind: ScriptErrorKind::InvalidUtf8String,
        })),
        Err(GlobError::InvalidGlob) => Err(ReadError::Fault(Fault {
            left,
            kind: ScriptErrorKind::InvalidGlobPattern,
        })),
        Err(GlobError::Memory) => Err(ReadError::Memory),
    }
}

/// What a line means, where so many bytes are left from its beginning on. An empty one means nothing.
#[tactic(auto, unfolding(crate::specs::MachoList::line_matcher))]
fn line_matcher(alloc: Global, left: usize, line: &[u8]) -> Result<Option<SymbolMatcher>, ReadError>
    requires { length line.now ≤ left }
    ensures gives { Gives (λ m. m) result (line_matcher left line.now) }
    ensures inside { IfErr result (λ e. IsWithin e left) }
{
    let (indent, name) = bare(line);
    if name.is_empty() {
        return Ok(None);
    }
    let matcher = macho_matcher(alloc, left - indent, name)?;
    Ok(Some(matcher))
}

/// The lines of a Mach-O export list that are not empty.
fn macho_list(alloc: Global, text: &[u8]) -> Result<Seq<SymbolMatcher>, ReadError>
    ensures gives { Gives (λ x. x) result (macho_list text.now) }
    ensures inside { IfErr result (λ e. IsWithin e (length text.now)) }
{
    let mut matchers = Seq::new(alloc);
    let mut rest = Some(text);
    'lines: while let Some(start) = rest {
        let (line, after) = split_line(start);
        let matcher = line_matcher(alloc, start.len(), line)?;
        if let Some(matcher) = matcher {
            matchers.push(matcher)?;
        }
        rest = after;
    }
    Ok(matchers)
}

/// The names and globs of a Mach-O export list, one on each line that is not empty. A glob that can't be compiled is
/// refused at its first byte.
pub fn read_macho_list(alloc: Global, text: &[u8]) -> Result<Seq<SymbolMatcher>, ScriptFault>
    // What is read is spelled so by the grammar.
    ensures found { IfOk result (λ matchers. IsMachoList text.now matchers) }
    // What is spelled so is read, unless memory runs out.
    ensures only { (matchers : List SymbolMatcher) → IsMachoList text.now matchers → IsRead matchers result }
    // What is refused is a fault that the text has by the grammar, at its place.
    ensures refused { IfErr result (λ e. IsFaultOf (MachoFails text.now) text.now e) }
    // A fault that the text has is answered, unless memory runs out.
    ensures refuses { (kind : ScriptErrorKind) (at : List ℕ) → MachoFails text.now kind at → IsRefusedWith kind at text.now result }
    // The same as a function, for the layers above.
    ensures exact { Answers (λ matchers. matchers) text.now result (macho_list text.now) }
{
    read_lines(alloc, text)
}

/// The same, by what reading gives alone.
fn read_lines(alloc: Global, text: &[u8]) -> Result<Seq<SymbolMatcher>, ScriptFault>
    ensures reads { Answers (λ matchers. matchers) text.now result (macho_list text.now) }
{
    match macho_list(alloc, text) {
        Ok(matchers) => Ok(matchers),
        Err(error) => Err(placed(error, text.len())),
    }
}
