//! The plain names that are mapped to symbols, one after another.

ghost use Rattle.std.specs.Iterator.{YieldsFirst, item_count};

use crate::name_tables::NameTables;
use link_db_buckets::MappedLabels;
use link_ids::SymbolId;
use link_input::Platform;
use link_names::NameView;
use std::marker::Model;

/// Each plain name that is mapped to a symbol, with the symbol. A contract sees the list of those that are left.
#[derive(Drop)]
pub struct MappedNames<'a, P: Platform> {
    tables: &'a NameTables<P>,
    labels: MappedLabels<'a>,
}

impl<'a, P: Platform> Model for MappedNames<'a, P> {
    ghost use Rattle.std.specs.Prelude.{ℕ, List};
    ghost use Rattle.link_db_mapping.specs.PlainNames.{plain_names};
    ghost use Rattle.link_db_mapping.specs.Tables.{key_at};

    ghost Value = { List (List ℕ × ℕ) };

    ghost view = { λ w. plain_names (key_at w.tables.now.files w.tables.now.overridden.items) w.labels };
}

impl<'a, P: Platform> MappedNames<'a, P> {
    ghost use Rattle.std.specs.Prelude.{◌≡◌};
    ghost use Rattle.link_db_mapping.specs.PlainNames.{plain_names};
    ghost use Rattle.link_db_mapping.specs.Tables.{key_at};

    /// The plain names to which these labels lead, each with the symbol that comes with its label.
    pub(crate) fn new(tables: &'a NameTables<P>, labels: MappedLabels<'a>) -> Self
        ensures { result ≡ plain_names (key_at tables.now.files tables.now.overridden.items) labels.entry }
    {
        MappedNames { tables, labels }
    }
}

impl<'a, P: Platform> Iterator for MappedNames<'a, P> {
    type Item = (NameView<'a>, SymbolId);

    ghost next_gives = { YieldsFirst (λ w. w) };

    ghost remaining = { item_count (λ w. w) };

    fn next(&mut self) -> Option<(NameView<'a>, SymbolId)> {
        while let Some((label, number)) = self.labels.next() {
            if let Some(name) = self.tables.plain_name(label) {
                return Some((name, SymbolId::from_usize(number as usize)));
            }
        }
        None
    }
}
