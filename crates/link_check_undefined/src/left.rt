//! The references that stay undefined.

ghost use Rattle.std.specs.Prelude.{◌≡◌, IfOk};
ghost use Rattle.link_check_undefined.specs.Columns.{left_in};

use crate::columns::Columns;
use link_check_symbols::SymbolView;
use std::alloc::{AllocError, Global};
use std::marker::Model;

/// A reference of a loaded object that stays undefined, with its id. A contract sees the id and the symbol.
#[derive(Drop)]
pub struct LeftReference<'a> {
    id: usize,
    symbol: &'a SymbolView<'a>,
}

impl<'a> Model for LeftReference<'a> {
    ghost use Rattle.link_rules.specs.Undefined.{Numbered};

    ghost Value = { Numbered };

    ghost view = { λ r. (r.id, r.symbol.now) };
}

impl<'a> LeftReference<'a> {
    /// The symbol of this id.
    pub fn new(id: usize, symbol: &'a SymbolView<'a>) -> Self
        ensures { result ≡ (id, symbol.now) }
    {
        LeftReference { id, symbol }
    }

    /// Its id.
    pub fn id(&self) -> usize
        ensures { result ≡ self.now.0 }
    {
        self.id
    }

    /// The symbol.
    pub fn symbol(&self) -> &'a SymbolView<'a>
        ensures { result.now ≡ self.now.1 }
    {
        self.symbol
    }
}

/// The references that stay undefined, in the order of their ids.
pub fn left_references<'a>(
    alloc: Global,
    columns: &Columns<'a>,
) -> Result<Vec<LeftReference<'a>>, AllocError>
    ensures { IfOk result (λ left. left.items ≡ left_in columns.now) }
{
    let symbols = columns.symbols();
    let mut left = Vec::new(alloc);
    for (id, symbol) in symbols.iter().enumerate() {
        if columns.stays_undefined(id, symbol) {
            left.push(LeftReference::new(id, symbol))?;
        }
    }
    Ok(left)
}
