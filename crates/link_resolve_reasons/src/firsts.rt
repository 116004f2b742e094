//! Entries of lists by numbers, and the first entries that have a key.

ghost use Rattle.std.specs.Prelude.{◌≡◌, ◌<◌, ℕ, IfOk, Option, Some, length, slice_get};
ghost use Rattle.link_resolve_reasons.specs.Firsts.{first_place, noted};
ghost use Rattle.link_resolve_reasons.specs.Told.{entry_at};

use std::alloc::{AllocError, Global};

/// What a list has for a number, if anything.
pub fn entry_at(entries: &[Option<usize>], number: usize) -> Option<usize>
    ensures { result ≡ entry_at entries.now number }
{
    match entries.get(number) {
        Some(entry) => *entry,
        None => None,
    }
}

/// For each key below a count the place of the first entry that has it, if one has. The only refusal is want of memory.
pub fn first_places(
    alloc: Global,
    count: usize,
    keys: &[Option<usize>],
) -> Result<Vec<Option<usize>>, AllocError>
    ensures each { IfOk result (λ firsts. length firsts.items ≡ count) }
    ensures first { IfOk result (λ firsts. (f : ℕ) → f < count → slice_get firsts.items f ≡ Some (first_place keys.now f)) }
{
    let mut firsts = vec![in alloc; None; count]?;
    for (place, key) in keys.iter().enumerate() {
        note_key(&mut firsts, *key, place);
    }
    Ok(firsts)
}

/// Notes the place of an entry with this key, if it is the first.
fn note_key(firsts: &mut [Option<usize>], key: Option<usize>, place: usize)
    ensures each { length firsts.new ≡ length firsts.old }
    ensures first { (f : ℕ) (first : Option ℕ) → slice_get firsts.old f ≡ Some first → slice_get firsts.new f ≡ Some (noted first key place f) }
{
    if let Some(number) = key {
        if number < firsts.len() && firsts[number].is_none() {
            firsts[number] = Some(place);
        }
    }
}
