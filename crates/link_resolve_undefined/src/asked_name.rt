//! The name and version that a reference asks for.

ghost use Rattle.std.specs.Prelude.{◌≡◌, ◌<◌, Some, is_none, length, slice_get};
ghost use Rattle.link_db_files.specs.GroupFiles.{symbols_in};
ghost use Rattle.link_input.specs.Symbols.{Symbol};

use link_db_files::Files;
use link_ids::SymbolId;
use link_input::Platform;
use link_names::NameView;

/// A name, and the version that is asked for with it, if there is one. Their bytes are lent by the files.
#[derive(Clone, Copy, PartialEq, Eq, PartialOrd, Ord)]
pub struct AskedName<'a> {
    pub(crate) name: &'a [u8],
    pub(crate) version: Option<&'a [u8]>,
}

impl<'a> AskedName<'a> {
    ghost use Rattle.link_resolve_undefined.specs.Keys.{Asks, name_of, version_of};

    /// This name and version.
    pub fn new(name: NameView<'a>, version: Option<NameView<'a>>) -> Self
        ensures name { name_of result ≡ name.entry }
        ensures version { version_of result ≡ version.entry }
    {
        AskedName {
            name: name.as_slice(),
            version: match version {
                Some(version) => Some(version.as_slice()),
                None => None,
            },
        }
    }

    /// What the symbol of this id asks for.
    pub fn of<P: Platform>(files: &'a Files<P>, id: SymbolId) -> Self
        requires { id < length (symbols_in files.now.groups) }
        ensures { (x : Symbol) × ((slice_get (symbols_in files.now.groups) id ≡ Some x) × Asks result x) }
    {
        AskedName::new(files.symbol_name(id), files.symbol_version(id))
    }

    /// Whether no version is asked for.
    pub(crate) fn is_plain(self) -> bool
        ensures { result ≡ is_none (version_of self.entry) }
    {
        self.version.is_none()
    }
}
