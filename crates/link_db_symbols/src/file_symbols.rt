//! The symbols of one file one after another.

ghost use Rattle.std.specs.Prelude.{◌≡◌, ◌<◌, [], Some, length, slice_get};
ghost use Rattle.std.specs.Iterator.{YieldsFirst, item_count};
ghost use Rattle.link_input_groups.specs.SequencedInputs.{sequenced_file};
ghost use Rattle.link_input.specs.InputFiles.{object_count, symbol_count};
ghost use Rattle.link_input.specs.Symbols.{file_symbols};

use crate::view::{SymbolOrigin, SymbolView};
use link_db_files::symbol_count;
use link_input::Platform;
use link_input_groups::SequencedInput;
use std::marker::Model;
use std::ops::Range;

/// The symbols of a file in order. A contract sees those that are left.
#[derive(Drop)]
pub struct FileSymbols<'a, P: Platform> {
    /// The file; none before the first one.
    file: Option<SequencedInput<'a, P>>,
    /// How many objects there are before the file.
    objects: usize,
    /// The places of the symbols that are left.
    places: Range<usize>,
}

impl<'a, P: Platform> Model for FileSymbols<'a, P> {
    ghost use Rattle.std.specs.Prelude.{◌≡◌, List, drop, length};
    ghost use Rattle.link_input.specs.Symbols.{Symbol};
    ghost use Rattle.link_db_symbols.specs.Walk.{symbols_of_file};

    ghost Value = { List Symbol };

    ghost view = { λ f. drop f.places.start (symbols_of_file f.objects f.file) };

    ghost invariant = { λ f. f.places.end ≡ length (symbols_of_file f.objects f.file) };
}

/// The symbol at a place of a file, before which there are so many objects.
fn symbol_at<'a, P: Platform>(
    file: &SequencedInput<'a, P>,
    objects: usize,
    place: usize,
) -> SymbolView<'a>
    requires { place < symbol_count (sequenced_file file.now).file }
    ensures { slice_get (file_symbols objects (sequenced_file file.now).file) place ≡ Some result }
{
    SymbolView::new(match file {
        SequencedInput::Prelude(prelude) => SymbolOrigin::Prelude(&prelude.symbols()[place]),
        SequencedInput::Object(object) => SymbolOrigin::Object {
            place: objects,
            is_dynamic: object.is_dynamic(),
            row: object.parsed.object().symbol_at(place),
        },
        SequencedInput::LinkerScript(script) => {
            SymbolOrigin::Script(&script.parsed.symbol_defs.as_slice()[place])
        }
        SequencedInput::StubLibrary(stub) => {
            SymbolOrigin::Stub(&stub.defined_symbols.as_slice()[place])
        }
        SequencedInput::SyntheticSymbols(_) => unreachable!(),
    })
}

impl<'a, P: Platform> FileSymbols<'a, P> {
    /// None.
    pub fn none() -> Self
        ensures { result ≡ [] }
    {
        FileSymbols {
            file: None,
            objects: 0,
            places: 0..0,
        }
    }

    /// Those of a file, before which there are so many objects.
    pub fn new(file: SequencedInput<'a, P>, objects: usize) -> Self
        ensures { result ≡ file_symbols objects (sequenced_file file.entry).file }
    {
        let places = 0..symbol_count(&file);
        FileSymbols {
            file: Some(file),
            objects,
            places,
        }
    }
}

impl<'a, P: Platform> Iterator for FileSymbols<'a, P> {
    type Item = SymbolView<'a>;

    ghost next_gives = { YieldsFirst (λ left. left) };

    ghost remaining = { item_count (λ left. left) };

    fn next(&mut self) -> Option<SymbolView<'a>> {
        let Some(file) = &self.file else {
            return None;
        };
        let place = self.places.next()?;
        Some(symbol_at(file, self.objects, place))
    }
}
