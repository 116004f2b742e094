//! Which version a name belongs to.

ghost use Rattle.std.specs.Prelude.{◌≡◌, ◌<◌, List, length, zero, IfSome};
ghost use Rattle.link_script_syntax.specs.declared.named.RawVersion.{RawVersion};
ghost use Rattle.link_script.specs.declared.rules.Class.TheVariants.{Exact};
ghost use Rattle.link_script.specs.Filter.{AreVersions};
ghost use Rattle.link_script.specs.Lookup.{seen, asked};
ghost use Rattle.link_script.specs.Rank.{IsBest, filters_of, filters_in};
ghost use Rattle.link_script.specs.Rules.{plain_fits, cxx_fits, side_in, first_in, last_in, best_match};
ghost use Rattle.link_script.specs.VersionGlobs.{AreClassOf, IsGlobClass};
ghost use Rattle.link_script.specs.VersionIndex.{IsIndexOf, numbers_with};

use crate::lookup::{Demangler, Lookup, look_up};
use crate::rules::{Class, MatchRules, Version};
use crate::version_globs::ClassGlobs;
use crate::version_index::VersionIndex;
use link_script_syntax::Side;

/// Whether a pattern of the class outside blocks of C++ fits the name.
pub fn plain_fits(rules: &MatchRules, class: Class, name: &Lookup) -> bool
    ensures { result ≡ plain_fits rules.now class (seen name.now) }
{
    rules.general.fits(class, name, false)
}

/// Whether a pattern of the class in blocks of C++ fits the name, which is seen demangled.
pub fn cxx_fits(rules: &MatchRules, class: Class, name: &Lookup) -> bool
    ensures { result ≡ cxx_fits rules.now class (seen name.now) }
{
    rules.cxx.fits(class, name, true)
}

/// The section of the strongest match of a class in a version.
fn side_in(class: Class, version: &Version, name: &Lookup) -> Option<Side>
    ensures { result ≡ side_in class version.now (seen name.now) }
{
    if matches!(class, Class::Exact) {
        if plain_fits(&version.version_body.globals, class, name) {
            return Some(Side::Global);
        }
        if plain_fits(&version.version_body.locals, class, name) {
            return Some(Side::Local);
        }
        if cxx_fits(&version.version_body.globals, class, name) {
            return Some(Side::Global);
        }
        if cxx_fits(&version.version_body.locals, class, name) {
            return Some(Side::Local);
        }
        return None;
    }
    if plain_fits(&version.version_body.globals, class, name) {
        return Some(Side::Global);
    }
    if cxx_fits(&version.version_body.globals, class, name) {
        return Some(Side::Global);
    }
    if plain_fits(&version.version_body.locals, class, name) {
        return Some(Side::Local);
    }
    if cxx_fits(&version.version_body.locals, class, name) {
        return Some(Side::Local);
    }
    None
}

/// The first version with an exact match.
fn first_in(versions: &[Version], index: &VersionIndex, name: &Lookup) -> Option<(usize, Side)>
    requires { IsIndexOf versions.now index.now }
    ensures value { result ≡ first_in Exact (seen name.now) zero versions.now }
    ensures within { IfSome result (λ x. x.0 < length versions.now) }
{
    let number = usize::from(index.first_exact(name)?);
    let side = side_in(Class::Exact, &versions[number], name)?;
    Some((number, side))
}

/// The last version with a match of the class. The numbers are those of the versions that have a pattern of it.
fn last_in(
    class: Class,
    versions: &[Version],
    numbers: &[u16],
    name: &Lookup,
) -> Option<(usize, Side)>
    requires { numbers.now ≡ numbers_with versions.now class }
    ensures value { result ≡ last_in class (seen name.now) versions.now (length versions.now) }
    ensures within { IfSome result (λ x. x.0 < length versions.now) }
{
    let mut left = numbers;
    'back: while let Some((number, before)) = left.split_last() {
        let number = usize::from(*number);
        if let Some(side) = side_in(class, &versions[number], name) {
            return Some((number, side));
        }
        left = before;
    }
    None
}

/// The last version with a glob of the class that fits the name. The globs are those of all versions.
fn last_glob_in(
    class: Class,
    versions: &[Version],
    globs: &ClassGlobs,
    name: &Lookup,
) -> Option<(usize, Side)>
    requires globs { AreClassOf versions.now class globs.now }
    requires with_globs { IsGlobClass class }
    ensures value { result ≡ last_in class (seen name.now) versions.now (length versions.now) }
    ensures within { IfSome result (λ x. x.0 < length versions.now) }
{
    let (number, side) = globs.strongest(versions, class, name)?;
    Some((usize::from(number), side))
}

/// The strongest match, class by class: of exact matches the first version has it, of others the last.
#[tactic(auto, unfolding(crate::specs::Rules::best_match))]
fn best_match(versions: &[Version], index: &VersionIndex, name: &Lookup) -> Option<(usize, Side)>
    requires { IsIndexOf versions.now index.now }
    ensures value { result ≡ best_match versions.now (seen name.now) }
    ensures within { IfSome result (λ x. x.0 < length versions.now) }
{
    if let Some(found) = first_in(versions, index, name) {
        return Some(found);
    }
    if let Some(found) = last_glob_in(Class::Nonstar, versions, index.nonstar(), name) {
        return Some(found);
    }
    if let Some(found) = last_glob_in(Class::Star, versions, index.star(), name) {
        return Some(found);
    }
    last_in(Class::Every, versions, index.with_every(), name)
}

/// The strongest match of a name: its version and section.
pub fn find_match<D: Demangler>(
    versions: &[Version],
    index: &VersionIndex,
    name: &[u8],
    demangler: &D,
) -> Option<(usize, Side)>
    requires { IsIndexOf versions.now index.now }
    // No other match comes before it, over all versions and all their filters.
    ensures best { IsBest (filters_of versions.now) (asked (D.demangled demangler.now) name.now) result }
    // The same over the filters of the text that the versions were read from.
    ensures of_text { (raws : List RawVersion) → AreVersions raws versions.now → IsBest (filters_in raws) (asked (D.demangled demangler.now) name.now) result }
    ensures value { result ≡ best_match versions.now (asked (D.demangled demangler.now) name.now) }
    ensures within { IfSome result (λ x. x.0 < length versions.now) }
{
    best_match(versions, index, &look_up(name, demangler))
}
