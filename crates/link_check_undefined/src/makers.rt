//! New symbols for the start and the end of custom sections.

ghost use Rattle.std.specs.Prelude.{◌≡◌, ◌+◌, ◌≤◌, ◌^◌, IfOk, length};
ghost use Rattle.link_input.specs.Symbols.{Symbol};
ghost use Rattle.link_check_undefined.specs.Made.{makers_in, makes_new, new_id};
ghost use Rattle.link_check_undefined.specs.Noted.{id_of};

use crate::boundaries::SectionNames;
use crate::last::is_id;
use crate::left::LeftReference;
use crate::noted::NotedIds;
use std::alloc::{AllocError, Global};

/// Whether a new symbol is made for a reference: it is the last to the start or the end of a custom section.
fn makes_new<'a>(
    sections: &SectionNames,
    last: &NotedIds<'a>,
    reference: &LeftReference<'a>,
) -> bool
    ensures { result ≡ makes_new sections.now last.now reference.now }
{
    let symbol = reference.symbol();
    sections.is_boundary(symbol) && is_id(last.of(symbol), reference.id())
}

/// The references for which new symbols are made, the last of them first.
pub fn makers<'a>(
    alloc: Global,
    sections: &SectionNames,
    last: &NotedIds<'a>,
    left: &[LeftReference<'a>],
) -> Result<Vec<LeftReference<'a>>, AllocError>
    ensures { IfOk result (λ makers. makers.items ≡ makers_in sections.now last.now left.now) }
{
    let mut makers = Vec::new(alloc);
    for reference in left {
        if makes_new(sections, last, reference) {
            makers.push(LeftReference::new(reference.id(), reference.symbol()))?;
        }
    }
    makers.reverse();
    Ok(makers)
}

/// The new symbols of names: they have the ids that follow the first, in the order of the references for which they are made.
pub fn new_ids<'a>(
    alloc: Global,
    first: usize,
    makers: &[LeftReference<'a>],
) -> Result<NotedIds<'a>, AllocError>
    requires { first + length makers.now ≤ 2 ^ 64 }
    ensures { IfOk result (λ made. (x : Symbol) → id_of made x ≡ new_id first makers.now x) }
{
    let mut made = NotedIds::new(alloc);
    for (place, maker) in makers.iter().enumerate() {
        made.note_first(maker.symbol(), first + place)?;
    }
    Ok(made)
}
