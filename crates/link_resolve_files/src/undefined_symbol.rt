//! References for which nothing that is loaded may stand.

ghost use Rattle.std.specs.Prelude.{◌≡◌, false, map};
ghost use Rattle.std.specs.Option.{option_map_or};
ghost use Rattle.link_resolve_files.specs.ResolvedFiles.{is_loaded_in, resolved_group};

use crate::resolved_file::ResolvedGroup;
use link_ids::{FileId, SymbolId};
use link_input::Platform;
use link_names::PreHashedSymbolName;

/// A reference for which nothing that is loaded may stand. Mirrors Wild's `UndefinedSymbol`.
#[derive(Drop)]
pub struct UndefinedSymbol {
    /// The file that defines what is asked for, if there is one. Where it is loaded, the reference isn't undefined.
    pub ignore_if_loaded: Option<FileId>,
    /// What is asked for.
    pub name: PreHashedSymbolName,
    pub symbol_id: SymbolId,
}

/// Whether the file of this id is one of these and loaded.
fn is_loaded<P: Platform>(groups: &[ResolvedGroup<'_, P>], id: FileId) -> bool
    ensures { result ≡ is_loaded_in (map resolved_group groups.now) id }
{
    match groups.get(id.group()) {
        Some(group) => match group.files.get(id.file()) {
            Some(file) => file.is_loaded(),
            None => false,
        },
        None => false,
    }
}

impl UndefinedSymbol {
    /// Whether the reference isn't undefined, since the file that defines what it asks for is one of these and loaded.
    pub fn is_ignored<P: Platform>(&self, groups: &[ResolvedGroup<'_, P>]) -> bool
        ensures { result ≡ option_map_or (is_loaded_in (map resolved_group groups.now)) self.now.ignore_if_loaded false }
    {
        match self.ignore_if_loaded {
            Some(id) => is_loaded(groups, id),
            None => false,
        }
    }
}
