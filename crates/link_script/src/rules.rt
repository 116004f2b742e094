//! The patterns of a version, by language and kind, and which names they fit.

ghost use Rattle.std.specs.Prelude.{◌≡◌, ◌↔◌, ◌<◌, ◌≤◌, ◌+◌, [], ◌∷◌, ◌++◌, ◌||◌, ℕ, List, Bool, IsTrue, IsOk, IfOk, OnOk, OnErr};
ghost use Rattle.link_script_syntax.specs.declared.matcher.SymbolMatcher.{SymbolMatcher};
ghost use Rattle.link_script.specs.Room.{is_of, count_of, exact_name, HasNameRoom, HasRoom};
ghost use Rattle.link_names.specs.Names.{is_member};
ghost use Rattle.link_script.specs.Lookup.{seen, asked, name_of, text_of};
ghost use Rattle.link_script.specs.Rank.{HasFit, glob_class};
ghost use Rattle.std.specs.Option.{option_map};
ghost use Rattle.link_script_syntax.specs.declared.body.Side.{Side};
ghost use Rattle.link_script.specs.Filter.{Filter, every, HasFilter, SameRules, SameFilters, Adds, AddsAll, AddsEntry, HasEntries, HasBody, IsVersion, of_language, rules_of};
ghost use Rattle.link_script.specs.Regular.{base};
ghost use Rattle.link_script.specs.Rules.{exact_fits, glob_fits, globs_in, rules_fit, rules_have, version_has};

use crate::lookup::{Demangler, Lookup, look_up, name_of, text_of};
use link_glob::{GlobList, Pattern};
use link_names::{Name, NameSet, Seq};
use link_script_syntax::{ParsedSymbolMatcher, RawVersion, RawVersionBody, Side, SymbolMatcher};
use std::alloc::{AllocError, Global};

/// The kinds of patterns, the strongest first.
#[derive(Clone, Copy, Debug, PartialEq, Eq)]
pub enum Class {
    Exact,
    Nonstar,
    Star,
    Every,
}

/// The patterns of one language in one section of a version, by kind. Mirrors Wild's `BasicMatchRules`.
#[derive(Drop)]
pub struct BasicMatchRules {
    exact: NameSet,
    star_globs: GlobList,
    nonstar_globs: GlobList,
    matches_all: bool,
}

/// The patterns of one section of a version: those of plain names, and those of names of C++, which are compared
/// demangled. Mirrors Wild's `MatchRules`.
#[derive(Drop)]
pub struct MatchRules {
    pub general: BasicMatchRules,
    pub cxx: BasicMatchRules,
}

/// The patterns of a version. Mirrors Wild's `VersionBody`.
#[derive(Drop)]
pub struct VersionBody {
    pub globals: MatchRules,
    pub locals: MatchRules,
}

/// A version of a script: its name, which the base version lacks, the number of the version that it extends, and its
/// patterns. Mirrors Wild's `Version`.
#[derive(Drop)]
pub struct Version {
    pub name: Name,
    pub parent_index: Option<u16>,
    pub version_body: VersionBody,
}

/// Whether the name is one of these; no name is none of them.
fn exact_fits(names: &NameSet, name: Option<&[u8]>) -> bool
    ensures { result ≡ exact_fits names.now (option_map (λ n. n.now) name.entry) }
{
    match name {
        Some(name) => names.contains(name),
        None => false,
    }
}

/// Whether one of the globs fits the text; what is no text fits none.
fn glob_fits(globs: &GlobList, text: Option<&str>) -> bool
    ensures { result ≡ glob_fits globs.now.items (option_map (λ t. t.now) text.entry) }
{
    match text {
        Some(text) => globs.last_match(text).is_some(),
        None => false,
    }
}

/// The class of globs without a star, or of those with one.
fn glob_class(non_star: bool) -> Class
    ensures { result ≡ glob_class non_star }
{
    if non_star {
        Class::Nonstar
    } else {
        Class::Star
    }
}

/// Whether a pattern is kept with those of this class.
fn is_of(class: Class, matcher: &SymbolMatcher) -> bool
    ensures { result ≡ is_of class matcher.now }
{
    match class {
        Class::Exact => is_exact(matcher),
        Class::Nonstar => matches!(matcher, SymbolMatcher::NonstarGlob(_)),
        Class::Star => matches!(matcher, SymbolMatcher::StarGlob(_)),
        Class::Every => matches!(matcher, SymbolMatcher::MatchesAll),
    }
}

/// Whether the pattern is one name.
fn is_exact(matcher: &SymbolMatcher) -> bool
    ensures { result ≡ is_of Class.Exact matcher.now }
{
    match matcher {
        SymbolMatcher::Exact(_) => true,
        SymbolMatcher::EscapedExact(_) => true,
        _ => false,
    }
}

/// The name of a pattern that is one name.
fn exact_name(matcher: &SymbolMatcher) -> Option<&Name>
    ensures { option_map (λ n. n.now) result ≡ exact_name matcher.now }
{
    match matcher {
        SymbolMatcher::Exact(name) | SymbolMatcher::EscapedExact(name) => Some(name),
        _ => None,
    }
}

/// Makes room for the names among the patterns.
fn reserve_names(names: &mut NameSet, matchers: &[SymbolMatcher]) -> Result<(), AllocError>
    ensures same { (asked : List ℕ) → is_member names.new asked ≡ is_member names.old asked }
    ensures ok { OnOk result (HasNameRoom matchers.now names.new) }
{
    for matcher in matchers {
        if let Some(name) = exact_name(matcher) {
            names.reserve(name.clone()?)?;
        }
    }
    Ok(())
}

/// How many of the patterns are kept with those of this class.
fn count_of(class: Class, matchers: &[SymbolMatcher]) -> usize
    ensures { result ≡ count_of class matchers.now }
{
    let mut count = 0;
    for matcher in matchers {
        if is_of(class, matcher) {
            count += 1;
        }
    }
    count
}

impl BasicMatchRules {
    /// No patterns. Takes no memory.
    pub fn new(alloc: Global) -> BasicMatchRules
        ensures { (f : Filter) → HasFilter result f → ⊥ }
    {
        BasicMatchRules {
            exact: NameSet::new(alloc),
            star_globs: GlobList::new(alloc),
            nonstar_globs: GlobList::new(alloc),
            matches_all: false,
        }
    }

    /// Adds a pattern.
    pub fn push(&mut self, matcher: SymbolMatcher) -> Result<(), AllocError>
        ensures ok { OnOk result (Adds matcher self.old self.new) }
        ensures err { OnErr result (SameRules self.old self.new) }
        // Where there is room for this pattern and others, it is added, and there is room for the others.
        ensures room { (ms : List SymbolMatcher) → HasRoom (ms ++ matcher ∷ []) self.old → IsOk result × HasRoom ms self.new }
    {
        match matcher {
            SymbolMatcher::Exact(name) => self.exact.insert(name)?,
            SymbolMatcher::EscapedExact(name) => self.exact.insert(name)?,
            SymbolMatcher::NonstarGlob(glob) => self.nonstar_globs.push(glob)?,
            SymbolMatcher::StarGlob(glob) => self.star_globs.push(glob)?,
            SymbolMatcher::MatchesAll => self.matches_all = true,
        }
        Ok(())
    }

    /// Makes room for patterns.
    fn reserve(&mut self, matchers: &[SymbolMatcher]) -> Result<(), AllocError>
        ensures same { SameRules self.old self.new }
        ensures ok { OnOk result (HasRoom matchers.now self.new) }
    {
        reserve_names(&mut self.exact, matchers)?;
        self.nonstar_globs
            .reserve(count_of(Class::Nonstar, matchers))?;
        self.star_globs.reserve(count_of(Class::Star, matchers))?;
        Ok(())
    }

    /// Adds the patterns of a block, all or none.
    fn push_all(&mut self, matchers: Seq<SymbolMatcher>) -> Result<(), AllocError>
        ensures ok { OnOk result (AddsAll matchers self.old self.new) }
        ensures err { OnErr result (SameRules self.old self.new) }
    {
        self.reserve(matchers.as_slice())?;
        let mut left = matchers.into_vec();
        'matchers: while let Some(matcher) = left.pop() {
            self.push(matcher).unwrap();
        }
        Ok(())
    }

    /// Puts the globs into their indexes, so that a look-up need not go over all of them. Where that is refused, the rules
    /// are what they were.
    pub(crate) fn make_index(&mut self) -> Result<(), AllocError>
        ensures { self.new ≡ self.old }
    {
        self.nonstar_globs.make_index()?;
        self.star_globs.make_index()
    }

    /// The globs of this class, in order.
    pub(crate) fn globs(&self, class: Class) -> &[Pattern]
        ensures { result.now ≡ globs_in class self.now }
    {
        match class {
            Class::Nonstar => self.nonstar_globs.as_slice(),
            Class::Star => self.star_globs.as_slice(),
            _ => &[],
        }
    }

    /// Whether a pattern of this class fits the name, which is compared demangled where `cxx` says so.
    pub fn fits(&self, class: Class, name: &Lookup, cxx: bool) -> bool
        ensures { result ≡ rules_fit self.now class (name_of (seen name.now) cxx) (text_of (seen name.now) cxx) }
    {
        match class {
            Class::Exact => exact_fits(&self.exact, name_of(name, cxx)),
            Class::Nonstar => glob_fits(&self.nonstar_globs, text_of(name, cxx)),
            Class::Star => glob_fits(&self.star_globs, text_of(name, cxx)),
            Class::Every => self.matches_all,
        }
    }

    /// Whether an exact pattern is the name, demangled where `mangled` says so.
    pub fn matches_exact<D: Demangler>(&self, name: &[u8], mangled: bool, demangler: &D) -> bool
        ensures { IsTrue result ↔ HasFit self.now Class.Exact (asked (D.demangled demangler.now) name.now) mangled }
    {
        self.fits(Class::Exact, &look_up(name, demangler), mangled)
    }

    /// Whether a glob, one without a star or one with a star, fits the name, demangled where `mangled` says so.
    pub fn matches_glob<D: Demangler>(
        &self,
        name: &[u8],
        non_star: bool,
        mangled: bool,
        demangler: &D,
    ) -> bool
        ensures { IsTrue result ↔ HasFit self.now (glob_class non_star) (asked (D.demangled demangler.now) name.now) mangled }
    {
        self.fits(glob_class(non_star), &look_up(name, demangler), mangled)
    }

    /// Whether a bare star was added.
    pub fn matches_all(&self) -> bool
        ensures { IsTrue result ↔ HasFilter self.now every }
    {
        self.matches_all
    }

    /// The names that are listed exactly.
    pub(crate) fn exact_names(&self) -> &NameSet
        ensures { result.now ≡ self.now.exact }
    {
        &self.exact
    }

    /// Whether there is a pattern of this class, or room for one.
    fn has(&self, class: Class) -> bool
        ensures { result ≡ rules_have class self.now }
    {
        match class {
            Class::Exact => !self.exact.is_empty(),
            Class::Nonstar => !self.nonstar_globs.is_empty(),
            Class::Star => !self.star_globs.is_empty(),
            Class::Every => self.matches_all,
        }
    }
}

impl MatchRules {
    /// No patterns. Takes no memory.
    pub fn new(alloc: Global) -> MatchRules
        ensures { (cxx : Bool) (f : Filter) → HasFilter (of_language result cxx) f → ⊥ }
    {
        MatchRules {
            general: BasicMatchRules::new(alloc),
            cxx: BasicMatchRules::new(alloc),
        }
    }

    /// Adds the patterns of an entry, all or none: those of a block of C++ to `cxx`, others to `general`.
    pub fn push(&mut self, entry: ParsedSymbolMatcher) -> Result<(), AllocError>
        ensures ok { OnOk result (AddsEntry entry self.old self.new) }
        ensures err { OnErr result (SameFilters self.old self.new) }
    {
        match entry {
            ParsedSymbolMatcher::Single(matcher) => self.general.push(matcher),
            ParsedSymbolMatcher::Multiple(matchers) => self.general.push_all(matchers),
            ParsedSymbolMatcher::CxxMatchers(matchers) => self.cxx.push_all(matchers),
        }
    }

    /// Puts the globs into their indexes, as `BasicMatchRules::make_index` does.
    pub(crate) fn make_index(&mut self) -> Result<(), AllocError>
        ensures { self.new ≡ self.old }
    {
        self.general.make_index()?;
        self.cxx.make_index()
    }

    /// Whether there is a pattern of this class.
    fn has(&self, class: Class) -> bool
        ensures { result ≡ (rules_have class self.now.general || rules_have class self.now.cxx) }
    {
        self.general.has(class) || self.cxx.has(class)
    }

    /// The patterns of these entries.
    pub fn from_entries(
        alloc: Global,
        entries: Seq<ParsedSymbolMatcher>,
    ) -> Result<MatchRules, AllocError>
        ensures { IfOk result (λ rules. HasEntries entries rules) }
    {
        let mut rules = MatchRules::new(alloc);
        'entries: for entry in entries.into_vec() {
            rules.push(entry)?;
        }
        Ok(rules)
    }
}

impl VersionBody {
    /// No patterns. Takes no memory.
    pub fn new(alloc: Global) -> VersionBody
        ensures { HasBody (record { globals = []; locals = [] }) result }
    {
        VersionBody {
            globals: MatchRules::new(alloc),
            locals: MatchRules::new(alloc),
        }
    }

    /// The patterns of a body that was read.
    pub fn from_raw(alloc: Global, raw: RawVersionBody) -> Result<VersionBody, AllocError>
        ensures { IfOk result (λ body. HasBody raw body) }
    {
        let RawVersionBody { globals, locals } = raw;
        Ok(VersionBody {
            globals: MatchRules::from_entries(alloc, globals)?,
            locals: MatchRules::from_entries(alloc, locals)?,
        })
    }
}

impl Version {
    /// The patterns of one section and one language.
    pub(crate) fn rules(&self, side: Side, cxx: bool) -> &BasicMatchRules
        ensures { result.now ≡ rules_of self.now side cxx }
    {
        let rules = match side {
            Side::Global => &self.version_body.globals,
            Side::Local => &self.version_body.locals,
        };
        if cxx { &rules.cxx } else { &rules.general }
    }

    /// Whether there is a pattern of this class.
    pub(crate) fn has(&self, class: Class) -> bool
        ensures { result ≡ version_has class self.now }
    {
        let VersionBody { globals, locals } = &self.version_body;
        globals.has(class) || locals.has(class)
    }

    /// A version without name, parent and patterns. Takes no memory.
    pub fn base(alloc: Global) -> Version
        ensures { IsVersion base result }
    {
        Version {
            name: Name::new(Vec::new(alloc)),
            parent_index: None,
            version_body: VersionBody::new(alloc),
        }
    }

    /// The version that was read.
    pub fn from_raw(alloc: Global, raw: RawVersion) -> Result<Version, AllocError>
        ensures { IfOk result (λ version. IsVersion raw version) }
    {
        let RawVersion {
            name,
            parent_index,
            body,
        } = raw;
        Ok(Version {
            name,
            parent_index,
            version_body: VersionBody::from_raw(alloc, body)?,
        })
    }
}
