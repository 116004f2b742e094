//! The columns by which a reference stays undefined.

ghost use Rattle.std.specs.Prelude.{◌≡◌};
ghost use Rattle.link_rules.specs.Loading.{is_origin_loaded};
ghost use Rattle.link_rules.specs.Places.{same_number};
ghost use Rattle.link_check_targets.specs.Tables.{object_at, target_at};
ghost use Rattle.link_check_undefined.specs.Columns.{is_held, is_missing, stays};

use link_check_symbols::SymbolView;
use link_closure::is_marked;
use link_ids::SymbolId;
use std::marker::Model;

/// The symbols of a link, a mark for each loaded object, and what references stand for, by the ids of the symbols. A contract sees the
/// three lists.
#[derive(Drop)]
pub struct Columns<'a> {
    symbols: &'a [SymbolView<'a>],
    marks: &'a [bool],
    targets: &'a [Option<SymbolId>],
}

impl<'a> Model for Columns<'a> {
    ghost use Rattle.link_check_undefined.specs.Columns.{Known};

    ghost Value = { Known };

    ghost view = { λ c. record { symbols = c.symbols.now; marks = c.marks.now; targets = c.targets.now } };
}

/// Whether the file of a symbol is loaded: the prelude, linker scripts and stub libraries always are.
fn is_origin_loaded(marks: &[bool], symbol: &SymbolView) -> bool
    ensures { result ≡ is_origin_loaded marks.now symbol.now.origin }
{
    match symbol.object() {
        Some(object) => is_marked(marks, object),
        None => true,
    }
}

/// Whether it is the same object, or there is none in both cases.
fn is_same_object(one: Option<usize>, other: Option<usize>) -> bool
    ensures { result ≡ same_number one other }
{
    match (one, other) {
        (Some(one), Some(other)) => one == other,
        (None, None) => true,
        _ => false,
    }
}

impl<'a> Columns<'a> {
    /// These columns.
    pub fn new(
        symbols: &'a [SymbolView<'a>],
        marks: &'a [bool],
        targets: &'a [Option<SymbolId>],
    ) -> Self
        ensures { result ≡ record { symbols = symbols.now; marks = marks.now; targets = targets.now } }
    {
        Columns {
            symbols,
            marks,
            targets,
        }
    }

    /// The symbols, in the order of their ids.
    pub fn symbols(&self) -> &'a [SymbolView<'a>]
        ensures { result.now ≡ self.now.symbols }
    {
        self.symbols
    }

    /// What the symbol of this id stands for, if it is a reference that stands for anything.
    fn target(&self, id: usize) -> Option<SymbolId>
        ensures { result ≡ target_at self.now.targets id }
    {
        match self.targets.get(id) {
            Some(target) => *target,
            None => None,
        }
    }

    /// The place of the object that holds the symbol of this id.
    fn object(&self, id: SymbolId) -> Option<usize>
        ensures { result ≡ object_at self.now.symbols id }
    {
        match self.symbols.get(id.as_usize()) {
            Some(symbol) => symbol.object(),
            None => None,
        }
    }

    /// Whether the file of the symbol of this id is loaded.
    fn is_held(&self, id: SymbolId) -> bool
        ensures { result ≡ is_held self.now id }
    {
        match self.symbols.get(id.as_usize()) {
            Some(symbol) => is_origin_loaded(self.marks, symbol),
            None => false,
        }
    }

    /// Whether nothing that is loaded stands for a reference with this target. A strong reference to another file has that loaded.
    fn is_missing(&self, symbol: &SymbolView, target: Option<SymbolId>) -> bool
        ensures { result ≡ is_missing self.now symbol.now target }
    {
        match target {
            Some(target) => {
                let is_own = is_same_object(symbol.object(), self.object(target));
                !self.is_held(target) && (symbol.is_weak() || is_own)
            }
            None => true,
        }
    }

    /// Whether the symbol of this id is a reference of a loaded object that stays undefined.
    pub fn stays_undefined(&self, id: usize, symbol: &SymbolView) -> bool
        ensures { result ≡ stays self.now (id, symbol.now) }
    {
        symbol.is_reference()
            && is_origin_loaded(self.marks, symbol)
            && self.is_missing(symbol, self.target(id))
    }
}
