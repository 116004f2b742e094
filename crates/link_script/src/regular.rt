//! Scripts of versions.

ghost use Rattle.std.specs.Prelude.{◌≡◌, ◌<◌, [], ◌∷◌, ℕ, List, Option, true, not, length, IfOk};
ghost use Rattle.std.specs.Option.{option_map};
ghost use Rattle.link_script_syntax.specs.declared.body.Side.{Side};
ghost use Rattle.link_script_syntax.specs.declared.body.RawVersionBody.{RawVersionBody};
ghost use Rattle.link_script_syntax.specs.declared.named.RawVersion.{RawVersion};
ghost use Rattle.link_script.specs.Filter.{AreVersions};
ghost use Rattle.link_names.specs.Names.{has_name};
ghost use Rattle.link_script.specs.Lookup.{asked};
ghost use Rattle.link_script.specs.Rank.{filters_of, filters_in, IsBest};
ghost use Rattle.link_script.specs.RustForm.{is_rust_form, listed_names};
ghost use Rattle.link_script.specs.Regular.{unnamed, base, counted, parents};
ghost use Rattle.link_script_syntax.specs.Named.{raw_names};
ghost use Rattle.link_script.specs.VersionOf.{version_names, answered, version_of, is_local_match, is_local_in, IsVersionOf};

use crate::lookup::Demangler;
use crate::rank::find_match;
use crate::rules::{Version, VersionBody};
use crate::symbol_version::{UndefinedVersion, version_for_symbol};
use crate::version_index::VersionIndex;
use link_names::{Name, Seq};
use link_script_syntax::{RawVersion, RawVersionBody, Side};
use std::alloc::{AllocError, Global};
use std::marker::Model;

/// The versions of a script, number 0 being the base version, which has no name. Mirrors Wild's
/// `RegularVersionScript`. A contract sees it as the list of its versions.
#[derive(Drop)]
pub struct RegularVersionScript {
    versions: Seq<Version>,
    index: VersionIndex,
}

impl Model for RegularVersionScript {
    ghost use Rattle.std.specs.Prelude.{List, ◌<◌, length};
    ghost use Rattle.link_script.specs.declared.rules.Version.{Version};
    ghost use Rattle.link_script.specs.VersionIndex.{IsIndexOf};

    ghost Value = { List Version };

    ghost view = { λ s. s.versions };

    ghost invariant = { λ s. (length s.versions < 32768) × IsIndexOf s.versions s.index };
}

/// Whether a match stands in a `local:` section.
fn is_local_match(found: Option<(usize, Side)>) -> bool
    ensures { result ≡ is_local_match found }
{
    matches!(found, Some((_, Side::Local)))
}

impl RegularVersionScript {
    /// No versions. Takes no memory.
    pub fn empty(alloc: Global) -> RegularVersionScript
        ensures { result ≡ [] }
    {
        RegularVersionScript {
            versions: Seq::new(alloc),
            index: VersionIndex::new(alloc),
        }
    }

    /// The script of these versions, which the index is made from.
    fn from_versions(
        alloc: Global,
        versions: Seq<Version>,
    ) -> Result<RegularVersionScript, AllocError>
        requires { length versions < 32_768 }
        ensures { IfOk result (λ script. script ≡ versions) }
    {
        let index = VersionIndex::of(alloc, versions.as_slice())?;
        Ok(RegularVersionScript { versions, index })
    }

    /// The base version alone, with the patterns of this body.
    pub fn from_body(
        alloc: Global,
        body: RawVersionBody,
    ) -> Result<RegularVersionScript, AllocError>
        ensures { IfOk result (λ script. AreVersions (unnamed body ∷ []) script) }
    {
        let version = Version::from_raw(
            alloc,
            RawVersion {
                name: Name::new(Vec::new(alloc)),
                parent_index: None,
                body,
            },
        )?;
        let mut versions = Seq::new(alloc);
        versions.push(version)?;
        RegularVersionScript::from_versions(alloc, versions)
    }

    /// The base version, without patterns, and these, which have the numbers from 1.
    pub fn from_named(
        alloc: Global,
        named: Seq<RawVersion>,
    ) -> Result<RegularVersionScript, AllocError>
        requires { length named < 32_767 }
        ensures { IfOk result (λ script. AreVersions (base ∷ named) script) }
    {
        let mut versions = Seq::new(alloc);
        versions.push(Version::base(alloc))?;
        'named: for raw in named.into_vec() {
            versions.push(Version::from_raw(alloc, raw)?)?;
        }
        RegularVersionScript::from_versions(alloc, versions)
    }

    /// The versions by number. Wild's iterator over them is a slice here.
    pub fn version_iter(&self) -> &[Version]
        ensures value { result.now ≡ self.now }
        ensures few { length result.now < 32_768 }
    {
        self.versions.as_slice()
    }

    /// How many versions there are, the base counted; 0 where there is none but the base.
    pub fn version_count(&self) -> u16
        ensures { result ≡ counted self.now }
    {
        let len = self.versions.len();
        if len < 2 { 0 } else { len as u16 }
    }

    /// How many versions extend another.
    pub fn parent_count(&self) -> u16
        ensures { result ≡ parents self.now }
    {
        let mut count = 0;
        for version in self.versions.as_slice() {
            if version.parent_index.is_some() {
                count += 1;
            }
        }
        count
    }

    /// Whether the strongest match of the name stands in a `local:` section.
    pub fn is_local<D: Demangler>(&self, name: &[u8], demangler: &D) -> bool
        ensures ranked { (r : Option (ℕ × Side)) × IsBest (filters_of self.now) (asked (D.demangled demangler.now) name.now) r × (result ≡ is_local_match r) }
        ensures of_text { (raws : List RawVersion) → AreVersions raws self.now → (r : Option (ℕ × Side)) × IsBest (filters_in raws) (asked (D.demangled demangler.now) name.now) r × (result ≡ is_local_match r) }
        // A body of the Rust form, read as a regular script, hides exactly the names that it doesn't list.
        ensures rust_form { (body : RawVersionBody) → is_rust_form body ≡ true → AreVersions (unnamed body ∷ []) self.now → result ≡ not (has_name (listed_names body.globals) name.now) }
        ensures value { result ≡ is_local_in self.now (asked (D.demangled demangler.now) name.now) }
    {
        is_local_match(find_match(self.versions.as_slice(), &self.index, name, demangler))
    }

    /// The version of a symbol. With an explicit version it is 1 where that is empty, otherwise 1 more than the number
    /// of the last version of that name, which must be there. Without one it is 1 more than the number of the
    /// version that the name's strongest match stands in, and none for number 0 and where nothing matches.
    pub fn version_for_symbol<'a, D: Demangler>(
        &self,
        name: &'a [u8],
        explicit: Option<&'a [u8]>,
        demangler: &D,
    ) -> Result<Option<u16>, UndefinedVersion<'a>>
        ensures means { IsVersionOf (filters_of self.now) (version_names self.now) (asked (D.demangled demangler.now) name.now) (option_map (λ e. e.now) explicit.entry) (answered result) }
        ensures of_text { (raws : List RawVersion) → AreVersions raws self.now →
            IsVersionOf (filters_in raws) (raw_names raws) (asked (D.demangled demangler.now) name.now) (option_map (λ e. e.now) explicit.entry) (answered result) }
        ensures value { answered result ≡ version_of self.now (asked (D.demangled demangler.now) name.now) (option_map (λ e. e.now) explicit.entry) }
    {
        version_for_symbol(
            self.versions.as_slice(),
            &self.index,
            name,
            explicit,
            demangler,
        )
    }
}
