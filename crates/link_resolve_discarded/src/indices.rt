//! The indices of objects, by their places among all objects of a link.

ghost use Rattle.std.specs.Prelude.{◌≡◌, ◌<◌, ℕ, All, IfOk, map};
ghost use Rattle.std.specs.List.Sorted.{IsStrictlyIncreasing};
ghost use Rattle.link_resolve_discarded.specs.Indexed.{index_at, index_of};

use link_input::Platform;
use link_resolve_comdat::Candidate;
use std::alloc::{AllocError, Global};

/// The index of each of these objects, by its place among all objects of the link, of which there are so many.
pub fn index_column<P: Platform>(
    alloc: Global,
    places: usize,
    objects: &[Candidate<'_, P>],
) -> Result<Vec<Option<usize>>, AllocError>
    requires rise { IsStrictlyIncreasing (map (λ o. o.0) objects.now) }
    requires below { All (λ o. o.0 < places) objects.now }
    ensures { IfOk result (λ indices. (f : ℕ) → index_at indices.items f ≡ index_of objects.now f) }
{
    let mut indices = vec![in alloc; None; places]?;
    for (index, object) in objects.iter().enumerate() {
        indices[object.place] = Some(index);
    }
    Ok(indices)
}
