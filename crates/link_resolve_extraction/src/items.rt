//! The work items of a link: parts of the tables of objects, each of which is read at once.

ghost use Rattle.std.specs.Prelude.{◌≡◌, ◌++◌, [], IfOk, OnOk};
ghost use Rattle.std.specs.Option.{option_map_or};
ghost use Rattle.link_rules.specs.Work.{item_count};
ghost use Rattle.link_resolve_extraction.specs.Items.{all_items, parts_of, symbols_of_item};
ghost use Rattle.link_db_symbols.specs.Walk.{with_ids};

use link_db_symbols::{ObjectSymbols, PartSymbols};
use link_input::Platform;
use std::alloc::{AllocError, Global};

/// How many symbols an item has, but for the last one of an object.
pub const ITEM_SIZE: usize = 5000;

/// A part of an object's table: the place of the object among all objects of the link, and the place of the part in the object.
#[derive(Clone, Copy, Debug, PartialEq, Eq)]
pub struct WorkItem {
    pub object: usize,
    pub part: usize,
}

/// How many items an object of so many symbols has: one at least, so that each object is read.
pub(crate) fn item_count(symbols: usize) -> usize
    ensures { result ≡ item_count symbols }
{
    symbols.div_ceil(ITEM_SIZE).max(1)
}

/// Adds the items of an object of so many symbols.
fn push_parts(items: &mut Vec<WorkItem>, object: usize, symbols: usize) -> Result<(), AllocError>
    ensures { OnOk result (items.new.items ≡ items.old.items ++ parts_of object symbols) }
{
    for part in 0..item_count(symbols) {
        items.push(WorkItem { object, part })?;
    }
    Ok(())
}

/// The items of all objects in order. The only refusal is want of memory.
pub fn work_items<P: Platform>(
    alloc: Global,
    objects: &[ObjectSymbols<P>],
) -> Result<Vec<WorkItem>, AllocError>
    ensures { IfOk result (λ items. items.items ≡ all_items 0 objects.now) }
{
    let mut items = Vec::with_capacity(alloc, objects.len())?;
    for place in 0..objects.len() {
        push_parts(&mut items, place, objects[place].num_symbols())?;
    }
    Ok(items)
}

/// The number of the first item of each object, and behind them how many items there are. Only hints rest on it: which numbers they are is
/// left open.
pub(crate) fn first_items<P: Platform>(
    alloc: Global,
    objects: &[ObjectSymbols<P>],
) -> Result<Vec<usize>, AllocError> {
    let mut firsts = Vec::with_capacity(alloc, objects.len().saturating_add(1))?;
    let mut first = 0usize;
    for object in objects {
        firsts.push(first)?;
        first = first.saturating_add(item_count(object.num_symbols()));
    }
    firsts.push(first)?;
    Ok(firsts)
}

/// The symbols of an item of these objects; none where there is no such object.
pub(crate) fn item_symbols<'a, P: Platform>(
    objects: &[ObjectSymbols<'a, P>],
    item: WorkItem,
) -> Option<PartSymbols<'a, P>>
    ensures { option_map_or with_ids result [] ≡ symbols_of_item objects.now item }
{
    let object = objects.get(item.object)?;
    let start = ITEM_SIZE
        .saturating_mul(item.part)
        .min(object.num_symbols());
    let end = start.saturating_add(ITEM_SIZE).min(object.num_symbols());
    Some(object.part(start, end))
}
