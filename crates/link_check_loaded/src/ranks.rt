//! The claimed objects with their ranks.

ghost use Rattle.std.specs.Prelude.{◌≡◌, ◌==◌, ℕ, IfOk, None, OnOk, Some, if◌then◌else◌};
ghost use Rattle.std.specs.BTreeMap.{get};
ghost use Rattle.std.specs.Ordering.{nat_cmp};
ghost use Rattle.link_check_loaded.specs.Accepted.{is_above, rank_in, rises_from};

use link_check_claims::ClaimedObject;
use std::alloc::{AllocError, Global};
use std::collections::BTreeMap;

/// Whether the place is greater than the one before, if there is one.
fn is_above(last: Option<usize>, object: usize) -> bool
    ensures { result ≡ is_above last object }
{
    match last {
        Some(last) => last < object,
        None => true,
    }
}

/// Whether the places of the claimed objects rise.
pub fn are_rising(loaded: &[ClaimedObject]) -> bool
    ensures { result ≡ rises_from None loaded.now }
{
    let mut last = None;
    for claimed in loaded {
        if !is_above(last, claimed.object) {
            return false;
        }
        last = Some(claimed.object);
    }
    true
}

/// Notes the rank of a claimed object, in place of one that was noted.
fn note_rank(ranks: &mut BTreeMap<usize, usize>, claimed: &ClaimedObject) -> Result<(), AllocError>
    ensures { OnOk result ((f : ℕ) → get nat_cmp ranks.new f ≡ (if claimed.now.object == f then Some claimed.now.rank else get nat_cmp ranks.old f)) }
{
    ranks.insert(claimed.object, claimed.rank)?;
    Ok(())
}

/// The rank of each claimed object, that of the first where one is listed twice: so the last comes first.
pub fn ranks_of(
    alloc: Global,
    loaded: &[ClaimedObject],
) -> Result<BTreeMap<usize, usize>, AllocError>
    ensures { IfOk result (λ ranks. (f : ℕ) → get nat_cmp ranks f ≡ rank_in loaded.now f) }
{
    let mut ranks = BTreeMap::new(alloc);
    let mut left = loaded.len();
    while left > 0 {
        left -= 1;
        note_rank(&mut ranks, &loaded[left])?;
    }
    Ok(ranks)
}
