//! The globs of all versions of a script, searched together.

ghost use Rattle.std.specs.Prelude.{◌≡◌, ◌∷◌, [], ◌++◌, List, Bool, false, true, length, slice_get, zero, OnOk};
ghost use Rattle.std.specs.Option.{option_map};
ghost use Rattle.link_glob.specs.Glob.{GlobToken};
ghost use Rattle.link_glob.specs.GlobKey.{IsWholeIndexOf};
ghost use Rattle.link_script.specs.declared.rules.Class.{Class};
ghost use Rattle.link_script.specs.declared.rules.Version.{Version};
ghost use Rattle.link_script.specs.Lookup.{seen, text_of};
ghost use Rattle.link_script.specs.Rules.{globs_in};
ghost use Rattle.link_script.specs.VersionGlobs.{AreGlobsOf, AreClassOf, found_below, places_from, stronger};

use crate::lookup::{Lookup, text_of};
use crate::rules::{BasicMatchRules, Class, Version};
use link_glob::{GlobIndex, Globs, Pattern};
use link_names::Seq;
use link_script_syntax::Side;
use std::alloc::{AllocError, Global};
use std::marker::Model;

/// Where a glob stands: the number of a version, a section, and the glob's number among those of its class there.
#[derive(Clone, Copy)]
pub struct GlobPlace {
    version: u16,
    side: Side,
    number: usize,
}

/// Where the globs of one class and one language stand in all versions, and an index that finds them there. The later a
/// glob stands, the stronger it is: versions come in order, and of each the local section first.
#[derive(Drop)]
pub struct VersionGlobs {
    index: GlobIndex,
    places: Seq<GlobPlace>,
}

/// The globs of one class and one language in these versions, one after the other, by their places.
#[derive(Drop)]
struct PlacedGlobs<'a> {
    versions: &'a [Version],
    class: Class,
    cxx: bool,
    places: &'a [GlobPlace],
}

impl<'a> Model for PlacedGlobs<'a> {
    ghost use Rattle.std.specs.Prelude.{◌≡◌, List, length};
    ghost use Rattle.link_glob.specs.Glob.{GlobToken};
    ghost use Rattle.link_script.specs.VersionGlobs.{globs_below, places_below};

    ghost Value = { List (List GlobToken) };

    ghost view = { λ g. globs_below g.versions.now g.class g.cxx (length g.versions.now) };

    ghost invariant = { λ g. g.places.now ≡ places_below g.versions.now g.class g.cxx (length g.versions.now) };
}

impl<'a> PlacedGlobs<'a> {
    /// The glob of this number.
    fn glob_at(&self, number: usize) -> Option<&Pattern>
        ensures { option_map (λ g. g.now) result ≡ slice_get self.now number }
    {
        let place = self.places.get(number)?;
        let version = self.versions.get(usize::from(place.version))?;
        let globs = version.rules(place.side, self.cxx).globs(self.class);
        let glob = globs.get(place.number)?;
        Some(glob)
    }
}

impl<'a> Globs for PlacedGlobs<'a> {
    ghost globs = { λ g. g };

    fn fits(&self, number: usize, name: &str) -> bool {
        match self.glob_at(number) {
            Some(glob) => glob.matches(name),
            None => false,
        }
    }
}

/// The stronger of two places: the later version has it, and of one version the global section.
fn stronger(first: Option<(u16, Side)>, second: Option<(u16, Side)>) -> Option<(u16, Side)>
    ensures { result ≡ stronger first second }
{
    let Some((number, side)) = first else {
        return second;
    };
    let Some((other_number, other_side)) = second else {
        return first;
    };
    if number < other_number {
        return second;
    }
    if other_number < number || matches!(side, Side::Global) {
        return first;
    }
    Some((number, other_side))
}

impl VersionGlobs {
    /// No globs. Takes no memory.
    fn new(alloc: Global) -> VersionGlobs
        ensures { (class : Class) (cxx : Bool) → AreGlobsOf [] class cxx result }
    {
        VersionGlobs {
            index: GlobIndex::new(alloc),
            places: Seq::new(alloc),
        }
    }

    /// Adds the globs of one section.
    fn add(&mut self, globs: &[Pattern], version: u16, side: Side) -> Result<(), AllocError>
        ensures index { OnOk result ((before : List (List GlobToken)) → IsWholeIndexOf before self.old.index → IsWholeIndexOf (before ++ globs.now) self.new.index) }
        ensures places { OnOk result (self.new.places ≡ self.old.places ++ places_from version side zero globs.now) }
    {
        for (number, glob) in globs.iter().enumerate() {
            self.index.add(glob)?;
            self.places.push(GlobPlace {
                version,
                side,
                number,
            })?;
        }
        Ok(())
    }

    /// Adds the globs of the next version.
    fn note(
        &mut self,
        class: Class,
        globals: &BasicMatchRules,
        locals: &BasicMatchRules,
        version: u16,
    ) -> Result<(), AllocError>
        ensures index { OnOk result ((before : List (List GlobToken)) → IsWholeIndexOf before self.old.index → IsWholeIndexOf (before ++ (globs_in class locals.now ++ globs_in class globals.now)) self.new.index) }
        ensures places { OnOk result (self.new.places ≡ self.old.places ++ (places_from version Side.Local zero (globs_in class locals.now) ++ places_from version Side.Global zero (globs_in class globals.now))) }
    {
        self.add(locals.globs(class), version, Side::Local)?;
        self.add(globals.globs(class), version, Side::Global)?;
        Ok(())
    }

    /// The version and the section of the strongest glob that fits the text.
    fn strongest(
        &self,
        versions: &[Version],
        class: Class,
        cxx: bool,
        text: Option<&str>,
    ) -> Option<(u16, Side)>
        requires { AreGlobsOf versions.now class cxx self.now }
        ensures { result ≡ found_below versions.now class cxx (option_map (λ t. t.now) text.entry) (length versions.now) }
    {
        let places = self.places.as_slice();
        let globs = PlacedGlobs {
            versions,
            class,
            cxx,
            places,
        };
        let number = self.index.last_match(&globs, text?)?;
        let place = places.get(number)?;
        Some((place.version, place.side))
    }
}

/// The globs of one class in all versions.
#[derive(Drop)]
pub struct ClassGlobs {
    /// Those outside blocks of C++.
    plain: VersionGlobs,
    /// Those in blocks of C++.
    cxx: VersionGlobs,
}

impl ClassGlobs {
    /// No globs. Takes no memory.
    pub fn new(alloc: Global) -> ClassGlobs
        ensures { (class : Class) → AreClassOf [] class result }
    {
        ClassGlobs {
            plain: VersionGlobs::new(alloc),
            cxx: VersionGlobs::new(alloc),
        }
    }

    /// Adds the globs of the version of this number, which is the next one.
    pub fn note(&mut self, class: Class, version: &Version, number: u16) -> Result<(), AllocError>
        ensures { OnOk result ((versions : List Version) → length versions ≡ number → AreClassOf versions class self.old → AreClassOf (versions ++ version.now ∷ []) class self.new) }
    {
        let globals = &version.version_body.globals;
        let locals = &version.version_body.locals;
        self.plain
            .note(class, &globals.general, &locals.general, number)?;
        self.cxx.note(class, &globals.cxx, &locals.cxx, number)?;
        Ok(())
    }

    /// The version and the section of the strongest glob that fits the name. The globs are those of these versions.
    pub fn strongest(
        &self,
        versions: &[Version],
        class: Class,
        name: &Lookup,
    ) -> Option<(u16, Side)>
        requires { AreClassOf versions.now class self.now }
        ensures { result ≡ stronger (found_below versions.now class false (text_of (seen name.now) false) (length versions.now)) (found_below versions.now class true (text_of (seen name.now) true) (length versions.now)) }
    {
        stronger(
            self.plain
                .strongest(versions, class, false, text_of(name, false)),
            self.cxx
                .strongest(versions, class, true, text_of(name, true)),
        )
    }
}
