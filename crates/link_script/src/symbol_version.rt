//! The version of a symbol among the versions of a script.

ghost use Rattle.std.specs.Prelude.{◌≡◌, ◌<◌, length};
ghost use Rattle.std.specs.Option.{option_map};
ghost use Rattle.link_script.specs.Lookup.{asked};
ghost use Rattle.link_script.specs.VersionIndex.{IsIndexOf};
ghost use Rattle.link_script.specs.VersionOf.{answered, version_of};

use crate::lookup::Demangler;
use crate::rank::find_match;
use crate::rules::Version;
use crate::version_index::VersionIndex;

/// The version of what is global without a version's name (LSB, "Symbol Versioning").
const VER_NDX_GLOBAL: u16 = 1;

/// A symbol that asks for a version that the script doesn't declare.
#[derive(Clone, Copy, Debug)]
pub struct UndefinedVersion<'a> {
    /// The symbol's name, without the version.
    pub name: &'a [u8],
    /// The version that it asks for.
    pub version: &'a [u8],
}

/// The version of a symbol, by its explicit version or by its rank: 1 more than the version's number.
pub fn version_for_symbol<'a, D: Demangler>(
    versions: &[Version],
    index: &VersionIndex,
    name: &'a [u8],
    explicit: Option<&'a [u8]>,
    demangler: &D,
) -> Result<Option<u16>, UndefinedVersion<'a>>
    requires few { length versions.now < 32_768 }
    requires indexed { IsIndexOf versions.now index.now }
    ensures { answered result ≡ version_of versions.now (asked (D.demangled demangler.now) name.now) (option_map (λ e. e.now) explicit.entry) }
{
    if let Some(version) = explicit {
        if version.is_empty() {
            return Ok(Some(VER_NDX_GLOBAL));
        }
        return match index.last_named(version) {
            Some(number) => Ok(Some(number + 1)),
            None => Err(UndefinedVersion { name, version }),
        };
    }
    match find_match(versions, index, name, demangler) {
        Some((number, _)) if number > 0 => Ok(Some(number as u16 + 1)),
        _ => Ok(None),
    }
}
