//! Export lists: which symbols a shared object shows, and which ones must be there.

ghost use Rattle.std.specs.Prelude.{◌≡◌, ◌↔◌, [], ℕ, List, IsTrue, IfOk, IfErr, OnOk, OnErr};
ghost use Rattle.link_script_syntax.specs.declared.fault.ScriptErrorKind.{ScriptErrorKind};
ghost use Rattle.link_script_syntax.specs.Faults.{IsFaultOf, IsRefusedWith};
ghost use Rattle.link_script_syntax.specs.ListFaults.{ListFails, AddedFails};
ghost use Rattle.link_script_syntax.specs.MachoGrammar.{MachoFails};
ghost use Rattle.link_script.specs.ExportRules.{class_fits, some_fits};
ghost use Rattle.link_script_syntax.specs.Fault.{Refuses};
ghost use Rattle.link_script_syntax.specs.ForcedName.{added_entry};
ghost use Rattle.link_script_syntax.specs.GnuList.{gnu_list};
ghost use Rattle.link_script.specs.Lookup.{seen, asked};
ghost use Rattle.link_script_syntax.specs.MachoList.{macho_list, exact_names};

use crate::lookup::{Demangler, Lookup, look_up};
use crate::rank::{cxx_fits, plain_fits};
use crate::rules::{Class, MatchRules};
use link_names::{Name, Seq};
use link_script_syntax::{
    ParsedSymbolMatcher, ScriptFault, ScriptProfile, SymbolMatcher, read_added_entry,
    read_gnu_list, read_macho_list,
};
use std::alloc::{AllocError, Global};

/// The names that are listed as they stand, in order.
fn exact_names(alloc: Global, matchers: &[SymbolMatcher]) -> Result<Seq<Name>, AllocError>
    ensures { IfOk result (λ names. names ≡ exact_names matchers.now) }
{
    let mut names = Seq::new(alloc);
    for matcher in matchers {
        if let SymbolMatcher::Exact(name) = matcher {
            names.push(Name::from_slice(alloc, name.as_slice())?)?;
        }
    }
    Ok(names)
}

/// Whether a pattern of this class fits the name.
fn class_fits(rules: &MatchRules, class: Class, name: &Lookup) -> bool
    ensures { result ≡ class_fits rules.now (seen name.now) class }
{
    plain_fits(rules, class, name) || cxx_fits(rules, class, name)
}

/// Whether some pattern fits the name. Exact names and a bare star are asked first: they take no look at each glob.
#[tactic(auto, unfolding(crate::specs::ExportRules::some_fits))]
fn some_fits(rules: &MatchRules, name: &Lookup) -> bool
    ensures { result ≡ some_fits rules.now (seen name.now) }
{
    class_fits(rules, Class::Exact, name)
        || class_fits(rules, Class::Every, name)
        || class_fits(rules, Class::Nonstar, name)
        || class_fits(rules, Class::Star, name)
}

/// Which names are exported, as an export list of GNU ld or of Mach-O says, and names that options add. Mirrors Wild's
/// `ExportList`.
pub struct ExportList {
    alloc: Global,
    rules: MatchRules,
    required: Seq<Name>,
}

// By hand, so that what lets one go makes one call and does not name its parts.
impl Drop for ExportList {
    fn drop(self) {
        let Self {
            alloc: _,
            rules: _,
            required: _,
        } = self;
    }
}

impl ExportList {
    ghost use Rattle.std.specs.Prelude.{Bool};
    ghost use Rattle.link_script.specs.Filter.{Filter};
    ghost use Rattle.link_script.specs.ExportList.{ListHas, required_names, IsListed, IsGnuList, IsMachoList, SameList, AddsText};

    /// A list of no names. Takes no memory.
    pub fn empty(alloc: Global) -> ExportList
        ensures lists_none { (cxx : Bool) (f : Filter) → ListHas result cxx f → ⊥ }
        ensures requires_none { required_names result ≡ [] }
    {
        ExportList {
            alloc,
            rules: MatchRules::new(alloc),
            required: Seq::new(alloc),
        }
    }

    /// The list of a GNU text, by what reading gives alone.
    fn read_gnu(
        alloc: Global,
        text: &[u8],
        profile: ScriptProfile,
    ) -> Result<ExportList, ScriptFault>
        ensures read { IfOk result (λ list. IsGnuList profile text.now list) }
        ensures refused { IfErr result (λ e. Refuses e text.now (gnu_list profile text.now)) }
    {
        let entries = read_gnu_list(alloc, text, profile)?;
        let mut rules = MatchRules::from_entries(alloc, entries)?;
        rules.make_index()?;
        let required = Seq::new(alloc);
        Ok(ExportList {
            alloc,
            rules,
            required,
        })
    }

    /// The list that the text of GNU ld's `--dynamic-list` spells, in a profile. It requires no names.
    ///
    /// A text that is no such list is refused with its first fault and that fault's place.
    pub fn parse_gnu(
        alloc: Global,
        text: &[u8],
        profile: ScriptProfile,
    ) -> Result<ExportList, ScriptFault>
        ensures read { IfOk result (λ list. IsGnuList profile text.now list) }
        ensures refused { IfErr result (λ e. Refuses e text.now (gnu_list profile text.now)) }
        // By the grammar: what is refused is a fault of the text, at its place, and a text that has one is refused with it.
        ensures faulty { IfErr result (λ e. IsFaultOf (ListFails profile text.now) text.now e) }
        ensures refuses { (kind : ScriptErrorKind) (at : List ℕ) → ListFails profile text.now kind at → IsRefusedWith kind at text.now result }
    {
        ExportList::read_gnu(alloc, text, profile)
    }

    /// The list of a Mach-O text, by what reading gives alone.
    fn read_macho(alloc: Global, text: &[u8]) -> Result<ExportList, ScriptFault>
        ensures read { IfOk result (λ list. IsMachoList text.now list) }
        ensures refused { IfErr result (λ e. Refuses e text.now (macho_list text.now)) }
    {
        let matchers = read_macho_list(alloc, text)?;
        let required = exact_names(alloc, matchers.as_slice())?;
        let mut rules = MatchRules::new(alloc);
        rules.push(ParsedSymbolMatcher::Multiple(matchers))?;
        rules.make_index()?;
        Ok(ExportList {
            alloc,
            rules,
            required,
        })
    }

    /// The list that a text of names and globs spells, one on each line, as Mach-O linkers read it. The names are
    /// required, the globs are not.
    ///
    /// A glob that can't be compiled is refused at its first byte.
    pub fn parse_macho(alloc: Global, text: &[u8]) -> Result<ExportList, ScriptFault>
        ensures read { IfOk result (λ list. IsMachoList text.now list) }
        ensures refused { IfErr result (λ e. Refuses e text.now (macho_list text.now)) }
        // By the grammar: what is refused is a fault of the text, at its place, and a text that has one is refused with it.
        ensures faulty { IfErr result (λ e. IsFaultOf (MachoFails text.now) text.now e) }
        ensures refuses { (kind : ScriptErrorKind) (at : List ℕ) → MachoFails text.now kind at → IsRefusedWith kind at text.now result }
    {
        ExportList::read_macho(alloc, text)
    }

    /// Whether the list has the name: as it stands, by a glob, or by a bare star, plain or, demangled, of C++.
    pub fn contains<D: Demangler>(&self, name: &[u8], demangler: &D) -> bool
        ensures { IsTrue result ↔ IsListed self.now (asked (D.demangled demangler.now) name.now) }
    {
        some_fits(&self.rules, &look_up(name, demangler))
    }

    /// Adds the names of the entry that the text begins with: an extern block, or a name or pattern up to its `;`, or,
    /// where `without_semicolon` says so, up to a `}` or the text's end. What follows the entry is not read. No name is
    /// required by it. A refused call leaves the list as it was.
    pub fn add_symbol(&mut self, text: &[u8], without_semicolon: bool) -> Result<(), ScriptFault>
        ensures added { OnOk result (AddsText without_semicolon text.now self.old self.new) }
        ensures refused { IfErr result (λ e. Refuses e text.now (added_entry without_semicolon text.now)) }
        // By the grammar: what is refused is a fault of the text, at its place, and a text that has one is refused with it.
        ensures faulty { IfErr result (λ e. IsFaultOf (AddedFails without_semicolon text.now) text.now e) }
        ensures refuses { (kind : ScriptErrorKind) (at : List ℕ) → AddedFails without_semicolon text.now kind at → IsRefusedWith kind at text.now result }
        ensures unchanged { OnErr result (SameList self.old self.new) }
    {
        self.add_entry(text, without_semicolon)
    }

    /// The same, by what reading gives alone.
    fn add_entry(&mut self, text: &[u8], without_semicolon: bool) -> Result<(), ScriptFault>
        ensures added { OnOk result (AddsText without_semicolon text.now self.old self.new) }
        ensures refused { IfErr result (λ e. Refuses e text.now (added_entry without_semicolon text.now)) }
        ensures unchanged { OnErr result (SameList self.old self.new) }
    {
        let entry = read_added_entry(self.alloc, text, without_semicolon)?;
        self.rules.push(entry)?;
        // The entry is in the list by now: where the index takes no more, its globs are looked at one after the other.
        let _ = self.rules.make_index();
        Ok(())
    }

    /// The names that must be defined, in the list's order.
    pub fn required_symbols(&self) -> &[Name]
        ensures { result.now ≡ required_names self.now }
    {
        self.required.as_slice()
    }
}
