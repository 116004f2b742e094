//! An index over the versions of a script: by their names, by the names that they list and by the kinds of their patterns.

ghost use Rattle.std.specs.Prelude.{◌≡◌, ◌∷◌, [], ◌++◌, ◌||◌, ◌<◌, ℕ, List, length, Some, None, IfOk, OnOk, if◌then◌else◌};
ghost use Rattle.std.specs.Option.{option_and_then, option_map, option_or};
ghost use Rattle.link_script.specs.declared.rules.Version.{Version};
ghost use Rattle.link_script.specs.Lookup.{seen};
ghost use Rattle.link_names.specs.Names.{is_member, value_in};
ghost use Rattle.link_script.specs.VersionOf.{last_named};
ghost use Rattle.link_script.specs.VersionIndex.{IsIndexOf, earlier, first_exact};

use crate::lookup::{Lookup, name_of};
use crate::rules::{BasicMatchRules, Class, Version, VersionBody};
use crate::version_globs::ClassGlobs;
use link_names::{Name, NameMap, Seq};
use std::alloc::{AllocError, Global};

/// The numbers of the versions of a script by what is looked up, so that no look-up goes over all versions.
pub struct VersionIndex {
    /// The last version of each name.
    named: NameMap<u16>,
    /// The first version that lists each name exactly, outside blocks of C++.
    plain: NameMap<u16>,
    /// The same in blocks of C++.
    cxx: NameMap<u16>,
    /// The globs without a star of all versions.
    nonstar: ClassGlobs,
    /// The globs with a star of all versions.
    star: ClassGlobs,
    /// The versions that have a bare star.
    every: Seq<u16>,
}

// By hand, so that what lets one go makes one call and does not name its parts.
impl Drop for VersionIndex {
    fn drop(self) {
        let Self {
            named: _,
            plain: _,
            cxx: _,
            nonstar: _,
            star: _,
            every: _,
        } = self;
    }
}

/// The smaller of two numbers, where there are both.
fn earlier(first: Option<u16>, second: Option<u16>) -> Option<u16>
    ensures { result ≡ earlier first second }
{
    match (first, second) {
        (Some(first), Some(second)) => Some(first.min(second)),
        (Some(first), None) => Some(first),
        (None, second) => second,
    }
}

/// The number of the name, where there is one.
fn number_of(numbers: &NameMap<u16>, name: Option<&[u8]>) -> Option<u16>
    ensures { result ≡ option_and_then (value_in numbers.now) (option_map (λ n. n.now) name.entry) }
{
    match name {
        Some(name) => numbers.get(name),
        None => None,
    }
}

/// Gives the number to each name that has none and that one of the sections lists exactly.
fn note_listed(
    numbers: &mut NameMap<u16>,
    alloc: Global,
    globals: &BasicMatchRules,
    locals: &BasicMatchRules,
    number: u16,
) -> Result<(), AllocError>
    ensures { OnOk result ((asked : List ℕ) → value_in numbers.new asked ≡ option_or (value_in numbers.old asked)
        (if is_member globals.now.exact asked || is_member locals.now.exact asked then Some number else None)) }
{
    numbers.note_all(alloc, globals.exact_names(), number)?;
    numbers.note_all(alloc, locals.exact_names(), number)?;
    Ok(())
}

/// Adds the version's number, where the version has what the others have.
fn note_if(numbers: &mut Seq<u16>, number: u16, has: bool) -> Result<(), AllocError>
    ensures { OnOk result (numbers.new ≡ numbers.old ++ (if has then number ∷ [] else [])) }
{
    if has {
        numbers.push(number)?;
    }
    Ok(())
}

impl VersionIndex {
    /// The index of no versions. Takes no memory.
    pub fn new(alloc: Global) -> VersionIndex
        ensures { IsIndexOf [] result }
    {
        VersionIndex {
            named: NameMap::new(alloc),
            plain: NameMap::new(alloc),
            cxx: NameMap::new(alloc),
            nonstar: ClassGlobs::new(alloc),
            star: ClassGlobs::new(alloc),
            every: Seq::new(alloc),
        }
    }

    /// Adds the version of this number, which is the next one.
    fn note(&mut self, alloc: Global, version: &Version, number: u16) -> Result<(), AllocError>
        ensures { OnOk result ((versions : List Version) → length versions ≡ number → IsIndexOf versions self.old → IsIndexOf (versions ++ version.now ∷ []) self.new) }
    {
        let VersionBody { globals, locals } = &version.version_body;
        self.named
            .note(Name::from_slice(alloc, version.name.as_slice())?, number)?;
        note_listed(
            &mut self.plain,
            alloc,
            &globals.general,
            &locals.general,
            number,
        )?;
        note_listed(&mut self.cxx, alloc, &globals.cxx, &locals.cxx, number)?;
        self.nonstar.note(Class::Nonstar, version, number)?;
        self.star.note(Class::Star, version, number)?;
        note_if(&mut self.every, number, version.has(Class::Every))?;
        Ok(())
    }

    /// The index of these versions.
    pub fn of(alloc: Global, versions: &[Version]) -> Result<VersionIndex, AllocError>
        requires { length versions.now < 32_768 }
        ensures { IfOk result (λ index. IsIndexOf versions.now index) }
    {
        let mut index = VersionIndex::new(alloc);
        for (number, version) in versions.iter().enumerate() {
            index.note(alloc, version, number as u16)?;
        }
        Ok(index)
    }

    /// The last version of the name.
    pub fn last_named(&self, name: &[u8]) -> Option<u16>
        ensures { (versions : List Version) → IsIndexOf versions self.now → result ≡ last_named versions name.now (length versions) }
    {
        self.named.get(name)
    }

    /// The first version with an exact match.
    pub fn first_exact(&self, name: &Lookup) -> Option<u16>
        ensures { (versions : List Version) → IsIndexOf versions self.now → result ≡ first_exact versions (seen name.now) }
    {
        earlier(
            number_of(&self.plain, name_of(name, false)),
            number_of(&self.cxx, name_of(name, true)),
        )
    }

    /// The globs without a star of all versions.
    pub fn nonstar(&self) -> &ClassGlobs
        ensures { result.now ≡ self.now.nonstar }
    {
        &self.nonstar
    }

    /// The globs with a star of all versions.
    pub fn star(&self) -> &ClassGlobs
        ensures { result.now ≡ self.now.star }
    {
        &self.star
    }

    /// The versions, in order, that have a bare star.
    pub fn with_every(&self) -> &[u16]
        ensures { result.now ≡ self.now.every }
    {
        self.every.as_slice()
    }
}
