//! Which objects are claimed to be loaded, in a column by their places.

ghost use Rattle.std.specs.Prelude.{◌≡◌, ℕ, IfOk, List, length, map};
ghost use Rattle.std.specs.BTreeMap.{get};
ghost use Rattle.std.specs.List.{range_with_len};
ghost use Rattle.std.specs.Ordering.{nat_cmp};
ghost use Rattle.link_check_claims.specs.declared.claim.ClaimedObject.{ClaimedObject};
ghost use Rattle.link_check_claims.specs.Claims.{is_claimed};
ghost use Rattle.link_check_loaded.specs.Accepted.{rank_in};

use link_check_claims::ClaimedObject;
use link_check_loaded::ranks_of;
use std::alloc::{AllocError, Global};
use std::collections::BTreeMap;

/// Whether the object at this place has a rank.
fn is_ranked(ranks: &BTreeMap<usize, usize>, place: usize) -> bool
    ensures { (loaded : List ClaimedObject) → ((f : ℕ) → get nat_cmp ranks.now f ≡ rank_in loaded f) → result ≡ is_claimed loaded place }
{
    ranks.contains_key(&place)
}

/// A mark for each of so many objects: that it is claimed to be loaded. The only refusal is want of memory.
pub(crate) fn claimed_marks(
    alloc: Global,
    loaded: &[ClaimedObject],
    count: usize,
) -> Result<Vec<bool>, AllocError>
    ensures { IfOk result (λ marks. marks.items ≡ map (is_claimed loaded.now) (range_with_len 0 count)) }
{
    let ranks = ranks_of(alloc, loaded)?;
    let mut marks = Vec::with_capacity(alloc, count)?;
    for place in 0..count {
        marks.push(is_ranked(&ranks, place))?;
    }
    Ok(marks)
}
