//! Scripts of the form that the Rust compiler writes: names that are exported, and everything else hidden.

ghost use Rattle.std.specs.Prelude.{◌≡◌, IfOk};
ghost use Rattle.std.specs.List.{list_any, list_all};
ghost use Rattle.link_script.specs.RustForm.{is_rust_form, is_bare_star, is_exact_name, plain_name, exact_name, listed_names, IsRustScript};
ghost use Rattle.link_script.specs.declared.rust_form.RustFormError.TheVariants.{Memory};

use link_names::{Name, Seq};
use link_script_syntax::{ParsedSymbolMatcher, RawVersionBody, SymbolMatcher};
use std::alloc::{AllocError, Global};

/// A script of the Rust form: the names that it lists. Every other name is local. Mirrors Wild's `RustVersionScript`.
#[derive(Debug, Drop)]
pub struct RustVersionScript {
    /// The names, in the order of the text.
    pub global: Seq<Name>,
}

/// Why a body didn't become a script of the Rust form.
#[derive(Debug, Drop)]
pub enum RustFormError {
    /// It isn't of that form; here it is again.
    Body(RawVersionBody),
    /// Memory ran out.
    Memory,
}

impl From<AllocError> for RustFormError {
    ghost from_gives = { λ _ e. e ≡ Memory };

    fn from(_e: AllocError) -> RustFormError {
        RustFormError::Memory
    }
}

/// Whether the entry is a bare `*` outside extern blocks.
fn is_bare_star(entry: &ParsedSymbolMatcher) -> bool
    ensures { result ≡ is_bare_star entry.now }
{
    matches!(
        entry,
        ParsedSymbolMatcher::Single(SymbolMatcher::MatchesAll)
    )
}

/// Whether the entry is one name outside extern blocks, written without backslashes.
fn is_exact_name(entry: &ParsedSymbolMatcher) -> bool
    ensures { result ≡ is_exact_name entry.now }
{
    matches!(entry, ParsedSymbolMatcher::Single(SymbolMatcher::Exact(_)))
}

/// Whether a bare `*` is among the entries.
fn hides_the_rest(entries: &[ParsedSymbolMatcher]) -> bool
    ensures { result ≡ list_any is_bare_star entries.now }
{
    for entry in entries {
        if is_bare_star(entry) {
            return true;
        }
    }
    false
}

/// Whether each entry is one name.
fn lists_names(entries: &[ParsedSymbolMatcher]) -> bool
    ensures { result ≡ list_all is_exact_name entries.now }
{
    for entry in entries {
        if !is_exact_name(entry) {
            return false;
        }
    }
    true
}

/// Whether a body is of the Rust form.
fn is_rust_form(body: &RawVersionBody) -> bool
    ensures { result ≡ is_rust_form body.now }
{
    hides_the_rest(body.locals.as_slice()) && lists_names(body.globals.as_slice())
}

/// The name of a pattern that was written without backslashes.
fn plain_name(matcher: SymbolMatcher) -> Option<Name>
    ensures { result ≡ plain_name matcher }
{
    match matcher {
        SymbolMatcher::Exact(name) => Some(name),
        SymbolMatcher::EscapedExact(_name) => None,
        SymbolMatcher::StarGlob(_glob) => None,
        SymbolMatcher::NonstarGlob(_glob) => None,
        SymbolMatcher::MatchesAll => None,
    }
}

/// The name of an entry that is one name.
fn exact_name(entry: ParsedSymbolMatcher) -> Option<Name>
    ensures { result ≡ exact_name entry }
{
    match entry {
        ParsedSymbolMatcher::Single(matcher) => plain_name(matcher),
        ParsedSymbolMatcher::Multiple(_matchers) => None,
        ParsedSymbolMatcher::CxxMatchers(_matchers) => None,
    }
}

/// The names of the entries that are one name.
fn listed_names(alloc: Global, entries: Seq<ParsedSymbolMatcher>) -> Result<Seq<Name>, AllocError>
    ensures { IfOk result (λ names. names ≡ listed_names entries) }
{
    let mut names = Seq::new(alloc);
    'entries: for entry in entries.into_vec() {
        if let Some(name) = exact_name(entry) {
            names.push(name)?;
        }
    }
    Ok(names)
}

impl RustVersionScript {
    /// The names that a body of the Rust form lists, or the body where it isn't of that form.
    pub fn from_raw(alloc: Global, body: RawVersionBody) -> Result<RustVersionScript, RustFormError>
        ensures { IsRustScript body result }
    {
        if !is_rust_form(&body) {
            return Err(RustFormError::Body(body));
        }
        let RawVersionBody { globals, locals: _ } = body;
        Ok(RustVersionScript {
            global: listed_names(alloc, globals)?,
        })
    }
}
