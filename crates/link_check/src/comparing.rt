//! How a claimed part is compared with the one that is due.

ghost use Rattle.std.specs.Prelude.{◌≡◌, ◌≢◌, ◌↔◌, IfNone, IfSome, IsTrue, false, slice_get};
ghost use Rattle.link_check.specs.Verdicts.{IsFirstDifference};

use link_check_claims::ClaimedGroup;

/// Whether the groups at this place are the same.
fn is_same_at(claimed: &[ClaimedGroup], due: &[ClaimedGroup], place: usize) -> bool
    ensures { IsTrue result ↔ (slice_get claimed.now place ≡ slice_get due.now place) }
{
    match (claimed.get(place), due.get(place)) {
        (Some(one), Some(other)) => one.object == other.object && one.group == other.group,
        (None, None) => true,
        _ => false,
    }
}

/// Whether these are the same groups in the same order.
pub(crate) fn are_same(claimed: &[ClaimedGroup], due: &[ClaimedGroup]) -> bool
    ensures same { IsTrue result → claimed.now ≡ due.now }
    ensures other { result ≡ false → claimed.now ≢ due.now }
{
    for place in 0..claimed.len() {
        if !is_same_at(claimed, due, place) {
            return false;
        }
    }
    claimed.len() == due.len()
}

/// Whether the tables differ at this place.
fn differs_at(claimed: &[usize], due: &[usize], place: usize) -> bool
    ensures { IsTrue result ↔ (slice_get claimed.now place ≢ slice_get due.now place) }
{
    claimed.get(place).copied() != due.get(place).copied()
}

/// The least place at which a claimed table differs from the one that is due; none where they are the same.
pub(crate) fn first_difference(claimed: &[usize], due: &[usize]) -> Option<usize>
    ensures some { IfSome result (IsFirstDifference claimed.now due.now) }
    ensures none { IfNone result (claimed.now ≡ due.now) }
{
    for place in 0..claimed.len() {
        if differs_at(claimed, due, place) {
            return Some(place);
        }
    }
    if claimed.len() < due.len() {
        return Some(claimed.len());
    }
    None
}
