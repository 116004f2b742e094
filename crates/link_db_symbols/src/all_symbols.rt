//! All symbols of the files of a link one after another.

ghost use Rattle.std.specs.Prelude.{◌≡◌};
ghost use Rattle.std.specs.Iterator.{item_count};
ghost use Rattle.link_db_files.specs.GroupFiles.{symbols_in};
ghost use Rattle.link_db_symbols.specs.Walk.{GivesFirst};

use crate::file_list::FileList;
use crate::file_symbols::FileSymbols;
use crate::view::SymbolView;
use link_db_files::{Files, object_count};
use link_ids::SymbolId;
use link_input::Platform;
use std::marker::Model;

/// The symbols that stand in the tables of files, in the order of their ids. A contract sees those that are left, and the id of
/// the first of them.
#[derive(Drop)]
pub struct AllSymbols<'a, P: Platform> {
    /// The id of the next symbol.
    next: usize,
    /// The symbols that are left of a file.
    own: FileSymbols<'a, P>,
    /// How many objects there are before the files behind that one.
    objects: usize,
    /// The files behind it.
    files: FileList<'a, P>,
}

impl<'a, P: Platform> Model for AllSymbols<'a, P> {
    ghost use Rattle.link_db_symbols.specs.Walk.{CanBeNumbered, SymbolsLeft, symbols_left};

    ghost Value = { SymbolsLeft };

    ghost view = { λ s. record { next = s.next; left = symbols_left s.own s.objects s.files } };

    ghost invariant = { λ s. CanBeNumbered (record { next = s.next; left = symbols_left s.own s.objects s.files }) s.objects s.files };
}

/// The symbols that stand in the tables of files, in the order of their ids, which begin at 0.
pub fn symbols<P: Platform>(files: &Files<P>) -> AllSymbols<'_, P>
    ensures { result ≡ record { next = 0; left = symbols_in files.now.groups } }
{
    // So ids name all of them, and no count of objects overflows.
    prove!(files.num_symbols() < 1 << 32);
    prove!(files.num_objects() <= usize::MAX);
    AllSymbols {
        next: 0,
        own: FileSymbols::none(),
        objects: 0,
        files: FileList::new(files.groups()),
    }
}

impl<'a, P: Platform> Iterator for AllSymbols<'a, P> {
    type Item = (SymbolId, SymbolView<'a>);

    ghost next_gives = { GivesFirst };

    ghost remaining = { item_count (λ s. s.left) };

    fn next(&mut self) -> Option<(SymbolId, SymbolView<'a>)> {
        loop {
            if let Some(symbol) = self.own.next() {
                let id = SymbolId::from_usize(self.next);
                self.next += 1;
                return Some((id, symbol));
            }
            let file = self.files.next()?;
            let objects = self.objects;
            self.objects += object_count(&file);
            self.own = FileSymbols::new(file, objects);
        }
    }
}
