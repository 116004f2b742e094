//! The objects of a link, each with the ids of its symbols.

ghost use Rattle.std.specs.Prelude.{◌≡◌, ◌<◌, ◌≤◌, ◌+◌, ◌-◌, ◌^◌, ◌++◌, ℕ, IfOk, OnOk, Some, length, slice_get};
ghost use Rattle.link_input_groups.specs.SequencedInputs.{sequenced_file};
ghost use Rattle.link_input.specs.InputFiles.{symbol_count};
ghost use Rattle.link_db_files.specs.GroupFiles.{symbols_in};
ghost use Rattle.link_db_files.specs.Inputs.{objects_in};
ghost use Rattle.link_db_symbols.specs.Walk.{SymbolsLeft, own_symbols, part_of, symbols_of_object, with_ids};

use crate::file_list::FileList;
use crate::view::{SymbolOrigin, SymbolView};
use link_db_files::Files;
use link_ids::SymbolId;
use link_input::{ParsedInputObject, Platform};
use link_input_groups::SequencedInput;
use std::alloc::{AllocError, Global};
use std::marker::Model;
use std::ops::Range;

/// An object of a link, with its place among all objects. A contract sees its symbols, as the definitions of a link do, and the id of the
/// first of them.
#[derive(Drop)]
pub struct ObjectSymbols<'a, P: Platform> {
    parsed: &'a ParsedInputObject<P>,
    /// How many objects there are before it.
    place: usize,
    /// The id of its first symbol.
    first: usize,
    /// How many symbols it has, so that whoever asks for no more leaves the object alone.
    count: usize,
}

impl<'a, P: Platform> Model for ObjectSymbols<'a, P> {
    ghost use Rattle.std.specs.Prelude.{◌≡◌, ◌+◌, ◌≤◌, ◌^◌, length};
    ghost use Rattle.link_input.specs.InputFiles.{object};
    ghost use Rattle.link_input.specs.Symbols.{file_symbols};
    ghost use Rattle.link_db_symbols.specs.Walk.{SymbolsLeft};

    ghost Value = { SymbolsLeft };

    ghost view = { λ o. record { next = o.first; left = file_symbols o.place (object o.parsed.now) } };

    ghost invariant = { λ o. (o.first + o.count ≤ 2 ^ 32) × (o.count ≡ length (file_symbols o.place (object o.parsed.now))) };
}

impl<'a, P: Platform> ObjectSymbols<'a, P> {
    /// How many symbols stand in its table.
    pub fn num_symbols(&self) -> usize
        ensures { result ≡ length self.now.left }
    {
        self.count
    }

    /// Those of its symbols that stand from one place of its table on, before another one.
    pub fn part(&self, start: usize, end: usize) -> PartSymbols<'a, P>
        requires order { start ≤ end }
        requires inside { end ≤ length self.now.left }
        ensures { result ≡ part_of self.now start (end - start) }
    {
        PartSymbols {
            parsed: self.parsed,
            place: self.place,
            next: self.first + start,
            places: start..end,
        }
    }
}

/// Symbols of an object that stand one after another in its table. A contract sees those that are left, and the id of the first of them.
#[derive(Drop)]
pub struct PartSymbols<'a, P: Platform> {
    parsed: &'a ParsedInputObject<P>,
    /// The place of the object among all objects.
    place: usize,
    /// The id of the next symbol.
    next: usize,
    /// The places of the symbols that are left.
    places: Range<usize>,
}

impl<'a, P: Platform> Model for PartSymbols<'a, P> {
    ghost use Rattle.std.specs.Prelude.{◌+◌, ◌-◌, ◌≤◌, ◌^◌, drop, length, take};
    ghost use Rattle.link_input.specs.InputFiles.{object};
    ghost use Rattle.link_input.specs.Symbols.{file_symbols};
    ghost use Rattle.link_db_symbols.specs.Walk.{SymbolsLeft};

    ghost Value = { SymbolsLeft };

    ghost view = { λ s. record { next = s.next; left = take (s.places.end - s.places.start) (drop s.places.start (file_symbols s.place (object s.parsed.now))) } };

    ghost invariant = { λ s. (s.places.end ≤ length (file_symbols s.place (object s.parsed.now))) × (s.places.end ≤ 2 ^ 32) × (s.next + (s.places.end - s.places.start) ≤ 2 ^ 32) };
}

impl<'a, P: Platform> PartSymbols<'a, P> {
    /// How many symbols are left.
    pub fn len(&self) -> usize
        ensures { result ≡ length self.now.left }
    {
        self.places.len()
    }

    /// The id of the symbol at this place among those that are left.
    pub fn id_at(&self, at: usize) -> SymbolId
        requires { at < length self.now.left }
        ensures { result ≡ self.now.next + at }
    {
        SymbolId::from_usize(self.next + at)
    }

    /// The symbol at this place among those that are left.
    pub fn symbol_at(&self, at: usize) -> SymbolView<'a>
        requires { at < length self.now.left }
        ensures { slice_get self.now.left at ≡ Some result }
    {
        SymbolView::new(SymbolOrigin::Object {
            place: self.place,
            is_dynamic: self.parsed.is_dynamic(),
            row: self.parsed.object().symbol_at(self.places.start + at),
        })
    }
}

/// Adds the symbols of a file, if it is an object, before which there are so many symbols. It has so many itself.
fn push_object<'a, P: Platform>(
    objects: &mut Vec<ObjectSymbols<'a, P>>,
    file: &SequencedInput<'a, P>,
    first: usize,
    count: usize,
) -> Result<(), AllocError>
    requires count { count ≡ symbol_count (sequenced_file file.now).file }
    requires ids { first + count ≤ 2 ^ 32 }
    ensures { OnOk result (objects.new.items ≡ objects.old.items ++ own_symbols (length objects.old.items) first (sequenced_file file.now).file) }
{
    if let SequencedInput::Object(object) = file {
        let place = objects.len();
        objects.push(ObjectSymbols {
            parsed: &object.parsed,
            place,
            first,
            count,
        })?;
    }
    Ok(())
}

/// The objects of files in order. The symbols of each are those of all symbols that stand in it, with their ids. The only refusal is want
/// of memory.
pub fn object_symbols<P: Platform>(
    alloc: Global,
    files: &Files<P>,
) -> Result<Vec<ObjectSymbols<'_, P>>, AllocError>
    ensures each { IfOk result (λ objects. length objects.items ≡ length (objects_in files.now.groups)) }
    ensures symbols { IfOk result (λ objects. (f : ℕ) (o : SymbolsLeft) → slice_get objects.items f ≡ Some o
        → with_ids o ≡ symbols_of_object f (symbols_in files.now.groups)) }
{
    // So ids name all of them.
    prove!(files.num_symbols() < 1 << 32);
    let mut objects = Vec::with_capacity(alloc, files.num_objects())?;
    let outlines = files.outlines();
    let mut first = 0;
    let mut place = 0usize;
    for file in FileList::new(files.groups()) {
        // The outline tells how many there are, so that the object itself is left alone.
        let count = outlines[place].symbols;
        push_object(&mut objects, &file, first, count)?;
        first += count;
        place += 1;
    }
    Ok(objects)
}
