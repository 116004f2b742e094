//! In which slot of a table a hash number falls.

ghost use Rattle.std.specs.Prelude.{◌≡◌, ◌<◌, ◌≤◌};
ghost use Rattle.link_db_buckets.specs.Slots.{slot_of};

/// The slot of a hash number among so many, a power of two. Its lowest bits are left out, since they pick the bucket.
pub(crate) fn slot_among(number: u64, slots: usize) -> usize
    requires { 0 < slots }
    ensures slot { result ≡ slot_of slots number }
    ensures within { result < slots }
{
    ((number >> 8) & (slots as u64 - 1)) as usize
}

/// How many slots so many heads take: the next power of two, where there is one.
pub(crate) fn slots_for(heads: usize) -> usize
    ensures { heads ≤ result }
{
    let mut slots = 1usize;
    for _ in 0..usize::BITS {
        if heads <= slots {
            break;
        }
        slots = slots.saturating_mul(2);
    }
    slots.max(heads)
}
