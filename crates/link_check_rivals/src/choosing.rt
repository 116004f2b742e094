//! The entry that counts of each list, told at the first symbol of the list.

ghost use Rattle.std.specs.Prelude.{◌≡◌};

use crate::lists::{Naming, own_list};
use crate::loaded::LoadedSymbols;
use link_check_symbols::SymbolView;
use link_ids::SymbolId;
use std::alloc::{AllocError, Global};

impl<'n, 'a> LoadedSymbols<'n, 'a> {
    ghost use Rattle.std.specs.Prelude.{◌≡◌, ◌≤◌, ◌^◌, IfOk, length};
    ghost use Rattle.link_rules.specs.Places.{each_from};
    ghost use Rattle.link_rules.specs.Selection.{Selection};
    ghost use Rattle.link_check_rivals.specs.Lists.{head_choice, list_choice};
    ghost use Rattle.link_check_rivals.specs.Told.{Tells};

    /// The entry of a list that counts, where several symbols stand in it and no two of the entries clash.
    fn list_choice(
        &self,
        alloc: Global,
        naming: Naming,
        table: &[SymbolId],
        own: &[SymbolId],
    ) -> Result<Option<SymbolId>, AllocError>
        ensures { IfOk result (λ choice. (l : Selection) → Tells self.now l → choice ≡ list_choice naming l table.now own.now) }
    {
        let [head, _, ..] = own else {
            return Ok(None);
        };
        let entries = self.entries(alloc, naming, table, own)?;
        if self.clash(&entries).is_some() {
            return Ok(None);
        }
        Ok(Some(self.choice(&entries, *head)))
    }

    /// The same of the list of this symbol, where that begins with it.
    fn head_choice(
        &self,
        alloc: Global,
        naming: Naming,
        table: &[SymbolId],
        id: SymbolId,
        symbol: &SymbolView<'a>,
    ) -> Result<Option<SymbolId>, AllocError>
        ensures { IfOk result (λ choice. (l : Selection) → Tells self.now l → choice ≡ head_choice naming l table.now id symbol.now) }
    {
        let own = own_list(self.names, naming, symbol);
        match own.first() {
            Some(head) if *head == id => self.list_choice(alloc, naming, table, own),
            _ => Ok(None),
        }
    }

    /// The same for each symbol. Each list is gone over once, at the symbol that it begins with.
    pub(crate) fn choices(
        &self,
        alloc: Global,
        naming: Naming,
        table: &[SymbolId],
    ) -> Result<Vec<Option<SymbolId>>, AllocError>
        requires { length self.now.names.now.symbols ≤ 2 ^ 32 }
        ensures { IfOk result (λ choices. (l : Selection) → Tells self.now l
            → choices.items ≡ each_from (head_choice naming l table.now) 0 self.now.names.now.symbols) }
    {
        let symbols = self.names.symbols();
        let mut choices = Vec::with_capacity(alloc, symbols.len())?;
        for (place, symbol) in symbols.iter().enumerate() {
            let id = SymbolId::from_usize(place);
            choices.push(self.head_choice(alloc, naming, table, id, symbol)?)?;
        }
        Ok(choices)
    }
}
