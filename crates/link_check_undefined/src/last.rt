//! The last reference to each name and version that stays undefined.

ghost use Rattle.std.specs.Prelude.{◌≡◌, IfOk, None};
ghost use Rattle.link_input.specs.Symbols.{Symbol};
ghost use Rattle.link_rules.specs.Places.{is_number};
ghost use Rattle.link_rules.specs.Undefined.{last_alike};
ghost use Rattle.link_check_undefined.specs.Noted.{id_of};

use crate::left::LeftReference;
use crate::noted::NotedIds;
use std::alloc::{AllocError, Global};

/// Whether it is this id.
pub fn is_id(found: Option<usize>, id: usize) -> bool
    ensures { result ≡ is_number found id }
{
    match found {
        Some(found) => found == id,
        None => false,
    }
}

/// The id of the last reference to each name and version.
pub fn last_references<'a>(
    alloc: Global,
    left: &[LeftReference<'a>],
) -> Result<NotedIds<'a>, AllocError>
    ensures { IfOk result (λ last. (x : Symbol) → id_of last x ≡ last_alike left.now x) }
{
    let mut last = NotedIds::new(alloc);
    for reference in left {
        last.note(reference.symbol(), reference.id())?;
    }
    Ok(last)
}
