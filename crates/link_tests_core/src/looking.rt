//! The plain ways beside which a link is timed: a map of its names, and one work list that looks each name up and shares nothing.

use link_db::{SymbolDb, SymbolKey};
use link_db_symbols::{ObjectSymbols, SymbolView, object_symbols};
use link_ids::SymbolId;
use link_input::{ElfLike, Inputs, ParsedInputObject};
use link_resolve_requests::request_by;
use std::alloc::{AllocError, Global};
use std::collections::HashMap;

/// Puts the names that an object defines into a map: the first object of each name stays.
fn put_names<'a>(
    map: &mut HashMap<&'a [u8], usize>,
    place: usize,
    object: &'a ParsedInputObject<ElfLike>,
) -> Result<(), AllocError> {
    for at in 0..object.num_symbols() {
        let row = object.object().symbol_at(at);
        if !row.is_undefined() {
            map.entry(row.name().as_slice())?.or_insert(place);
        }
    }
    Ok(())
}

/// How many names the objects of a link define, by a map of them.
/// The number is left open: this is what a time is compared with.
pub(crate) fn names_in_map(alloc: Global, files: &Inputs<ElfLike>) -> Result<usize, AllocError> {
    let mut map = HashMap::new(alloc);
    for (place, object) in files.objects.as_slice().iter().enumerate() {
        put_names(&mut map, place, object)?;
    }
    Ok(map.len())
}

/// Marks an object, and puts it on the list, where it has no mark yet.
fn reach(marks: &mut [bool], todo: &mut Vec<usize>, object: usize) -> Result<(), AllocError> {
    if object < marks.len() && !marks[object] {
        marks[object] = true;
        todo.push(object)?;
    }
    Ok(())
}

/// What a reference stands for.
fn target_of(db: &SymbolDb<ElfLike>, symbol: &SymbolView) -> Option<SymbolId> {
    let name = symbol.name().as_slice();
    let key = match symbol.version() {
        Some(version) => SymbolKey::new(name, Some(version.as_slice())),
        None => SymbolKey::new(name, None),
    };
    db.get(&key, symbol.is_open())
}

/// Reaches what the references of an object request.
fn read_object(
    db: &SymbolDb<ElfLike>,
    object: &ObjectSymbols<'_, ElfLike>,
    marks: &mut [bool],
    todo: &mut Vec<usize>,
) -> Result<(), AllocError> {
    let symbols = object.part(0, object.num_symbols());
    for at in 0..symbols.len() {
        let symbol = symbols.symbol_at(at);
        if symbol.is_reference() {
            let target = target_of(db, &symbol);
            if let Some(object) = request_by(db.files().sources(), &symbol, target) {
                reach(marks, todo, object)?;
            }
        }
    }
    Ok(())
}

/// A mark for each object that the first one asks for, by a list of those that are yet to be read.
/// Which they are is left open: this is what a time is compared with, and the number of marks with that of loaded objects.
pub(crate) fn reached_by_names(
    alloc: Global,
    db: &SymbolDb<ElfLike>,
) -> Result<Vec<bool>, AllocError> {
    let objects = object_symbols(alloc, db.files())?;
    let mut marks = vec![in alloc; false; objects.len()]?;
    let mut todo = Vec::new(alloc);
    reach(&mut marks, &mut todo, 0)?;
    // No object comes to the list twice.
    for _ in 0..objects.len() {
        let Some(object) = todo.pop() else {
            break;
        };
        if let Some(symbols) = objects.get(object) {
            read_object(db, symbols, &mut marks, &mut todo)?;
        }
    }
    Ok(marks)
}
