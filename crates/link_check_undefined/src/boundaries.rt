//! The names that mark the start and the end of custom sections.

ghost use Rattle.std.specs.Prelude.{◌≡◌, ◌++◌, IfOk, List, false, ℕ};
ghost use Rattle.std.specs.List.{list_any};
ghost use Rattle.std.specs.Option.{option_map_or};
ghost use Rattle.std.specs.Str.{bytes_eq};
ghost use Rattle.link_names.specs.Names.{has_name, is_member};
ghost use Rattle.link_check_undefined.specs.Made.{is_boundary_of, is_mark, is_mark_behind};

use link_check_symbols::SymbolView;
use link_names::{Name, NameSet};
use std::alloc::{AllocError, Global};
use std::marker::Model;

/// Before the name of a section: the mark of its start.
const START: &[u8] = b"__start_";

/// Before the name of a section: the mark of its end.
const STOP: &[u8] = b"__stop_";

/// The names of custom sections. A contract sees their list.
#[derive(Drop)]
pub struct SectionNames<'a> {
    sections: &'a [Name],
    /// The same as a set.
    known: NameSet,
}

impl<'a> Model for SectionNames<'a> {
    ghost use Rattle.std.specs.Prelude.{◌≡◌, List, ℕ};
    ghost use Rattle.link_names.specs.Names.{has_name, is_member};

    ghost Value = { List (List ℕ) };

    ghost view = { λ s. s.sections.now };

    ghost invariant = { λ s. (asked : List ℕ) → is_member s.known asked ≡ has_name s.sections.now asked };
}

/// A set of these names.
fn names_of(alloc: Global, names: &[Name]) -> Result<NameSet, AllocError>
    ensures { IfOk result (λ known. (asked : List ℕ) → is_member known asked ≡ has_name names.now asked) }
{
    let mut known = NameSet::new(alloc);
    for name in names {
        known.insert(name.clone()?)?;
    }
    Ok(known)
}

/// What stands behind a prefix of a name.
fn behind<'n>(prefix: &[u8], name: &'n [u8]) -> Option<&'n [u8]>
    ensures { (section : List ℕ) → bytes_eq name.now (prefix.now ++ section)
        ≡ option_map_or (λ rest. bytes_eq rest.now section) result false }
{
    name.strip_prefix(prefix)
}

impl<'a> SectionNames<'a> {
    /// These names. The only refusal is want of memory.
    pub fn new(alloc: Global, sections: &'a [Name]) -> Result<Self, AllocError>
        ensures { IfOk result (λ names. names ≡ sections.now) }
    {
        Ok(SectionNames {
            sections,
            known: names_of(alloc, sections)?,
        })
    }

    /// Whether a section has this name.
    fn contains(&self, name: &[u8]) -> bool
        ensures { result ≡ has_name self.now name.now }
    {
        self.known.contains(name)
    }

    /// Whether the name is that of a section behind the prefix.
    fn has_behind(&self, prefix: &[u8], name: &[u8]) -> bool
        ensures { result ≡ is_mark_behind prefix.now self.now name.now }
    {
        match behind(prefix, name) {
            Some(section) => self.contains(section),
            None => false,
        }
    }

    /// Whether the name marks the start or the end of a section.
    fn is_mark(&self, name: &[u8]) -> bool
        ensures { result ≡ is_mark self.now name.now }
    {
        self.has_behind(START, name) || self.has_behind(STOP, name)
    }

    /// Whether the symbol has such a name, and no version.
    pub fn is_boundary(&self, symbol: &SymbolView) -> bool
        ensures { result ≡ is_boundary_of self.now symbol.now }
    {
        symbol.version().is_none() && self.is_mark(symbol.name().as_slice())
    }
}
