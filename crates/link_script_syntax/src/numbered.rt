//! The versions of a script that were read so far.

ghost use Rattle.std.specs.Prelude.{◌≡◌, ◌<◌, [], ◌∷◌, ◌++◌, length, IfOk};
ghost use Rattle.link_script_syntax.specs.Named.{number_of};

use crate::named::RawVersion;
use link_names::{Name, NameMap, Seq};
use std::alloc::{AllocError, Global};
use std::marker::Model;

/// Versions with numbers from 1 on, found by their names without a look at each. A contract sees the list of them.
#[derive(Drop)]
pub struct NumberedVersions {
    versions: Seq<RawVersion>,
    numbers: NameMap<u16>,
}

impl Model for NumberedVersions {
    ghost use Rattle.std.specs.Prelude.{List, ◌<◌, length};
    ghost use Rattle.link_script_syntax.specs.declared.named.RawVersion.{RawVersion};
    ghost use Rattle.link_script_syntax.specs.Named.{AreNumbers};

    ghost Value = { List RawVersion };

    ghost view = { λ v. v.versions };

    ghost invariant = { λ v. (length v.versions < 32767) × AreNumbers v.versions v.numbers };
}

impl NumberedVersions {
    /// No versions. Takes no memory.
    pub fn new(alloc: Global) -> NumberedVersions
        ensures { result ≡ [] }
    {
        NumberedVersions {
            versions: Seq::new(alloc),
            numbers: NameMap::new(alloc),
        }
    }

    /// How many they are.
    pub fn len(&self) -> usize
        ensures value { result ≡ length self.now }
        ensures few { result < 32_767 }
    {
        self.versions.len()
    }

    /// The number of the first version of this name.
    pub fn number_of(&self, name: &[u8]) -> Option<u16>
        ensures { result ≡ number_of 1 self.now name.now }
    {
        self.numbers.get(name)
    }

    /// These versions and one more.
    pub fn with(self, alloc: Global, version: RawVersion) -> Result<NumberedVersions, AllocError>
        requires { length self < 32_766 }
        ensures { IfOk result (λ versions. versions ≡ self ++ version ∷ []) }
    {
        let NumberedVersions {
            mut versions,
            mut numbers,
        } = self;
        let number = versions.len() as u16 + 1;
        numbers.note_first(Name::from_slice(alloc, version.name.as_slice())?, number)?;
        versions.push(version)?;
        Ok(NumberedVersions { versions, numbers })
    }

    /// The versions alone.
    pub fn into_versions(self) -> Seq<RawVersion>
        ensures value { result ≡ self }
        ensures few { length result < 32_767 }
    {
        let NumberedVersions {
            versions,
            numbers: _,
        } = self;
        versions
    }
}
