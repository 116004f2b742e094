//! What each symbol points to once rivals are settled.

ghost use Rattle.std.specs.Prelude.{◌≡◌};
ghost use Rattle.link_check_targets.specs.Tables.{target_at};

use crate::lists::{Naming, entry_at, own_list};
use crate::loaded::LoadedSymbols;
use link_check_symbols::SymbolView;
use link_ids::SymbolId;
use std::alloc::{AllocError, Global};

/// The choice that is noted of the list that begins with this symbol.
fn choice_at(choices: &[Option<SymbolId>], head: SymbolId) -> Option<SymbolId>
    ensures { result ≡ target_at choices.now head }
{
    match choices.get(head.as_usize()) {
        Some(choice) => *choice,
        None => None,
    }
}

impl<'n, 'a> LoadedSymbols<'n, 'a> {
    ghost use Rattle.std.specs.Prelude.{◌≡◌, ◌≤◌, ◌^◌, IfOk, length};
    ghost use Rattle.link_rules.specs.Places.{each_from};
    ghost use Rattle.link_rules.specs.Rivals.{plain_table, versioned_table};
    ghost use Rattle.link_rules.specs.Selection.{Selection};
    ghost use Rattle.link_check_rivals.specs.Lists.{noted_entry, settled_table};
    ghost use Rattle.link_check_rivals.specs.Told.{Tells};

    /// What a symbol points to where these choices are noted: to the choice of its list, else to what it pointed to.
    fn noted_entry(
        &self,
        naming: Naming,
        choices: &[Option<SymbolId>],
        symbol: &SymbolView<'a>,
        old: SymbolId,
    ) -> SymbolId
        ensures { result ≡ noted_entry naming self.now.names.now.symbols choices.now symbol.now old }
    {
        match own_list(self.names, naming, symbol).first() {
            Some(head) => choice_at(choices, *head).unwrap_or(old),
            None => old,
        }
    }

    /// Settles the lists of plain names, or those of names with versions: where several symbols stand in a list, and no two of the entries
    /// clash, each points to the entry that counts.
    fn settled(
        &self,
        alloc: Global,
        naming: Naming,
        table: &[SymbolId],
    ) -> Result<Vec<SymbolId>, AllocError>
        requires { length self.now.names.now.symbols ≤ 2 ^ 32 }
        ensures { IfOk result (λ settled. (l : Selection) → Tells self.now l → settled.items ≡ settled_table naming l table.now) }
    {
        let choices = self.choices(alloc, naming, table)?;
        let symbols = self.names.symbols();
        let mut settled = Vec::with_capacity(alloc, symbols.len())?;
        for (place, symbol) in symbols.iter().enumerate() {
            let old = entry_at(table, SymbolId::from_usize(place));
            settled.push(self.noted_entry(naming, &choices, symbol, old))?;
        }
        Ok(settled)
    }

    /// What each symbol points to once the definitions of plain names are settled.
    pub(crate) fn plain_table(
        &self,
        alloc: Global,
        targets: &[Option<SymbolId>],
    ) -> Result<Vec<SymbolId>, AllocError>
        requires { length self.now.names.now.symbols ≤ 2 ^ 32 }
        ensures { IfOk result (λ table. (l : Selection) → Tells self.now l → l.targets ≡ targets.now → table.items ≡ plain_table l) }
    {
        let table = self.reference_table(alloc, targets)?;
        let settled = self.settled(alloc, Naming::Plain, &table)?;
        Ok(settled)
    }

    /// What each symbol points to, by its id, once it is settled which of several definitions counts: of a plain name, and then of a name
    /// and version. The targets are those of the references of loaded objects. A list with two strong definitions is left as it is, unless
    /// that is allowed. The only refusal is want of memory.
    pub fn versioned_table(
        &self,
        alloc: Global,
        targets: &[Option<SymbolId>],
    ) -> Result<Vec<SymbolId>, AllocError>
        requires { length self.now.names.now.symbols ≤ 2 ^ 32 }
        ensures { IfOk result (λ table. (l : Selection) → Tells self.now l → l.targets ≡ targets.now → table.items ≡ versioned_table l) }
    {
        let table = self.plain_table(alloc, targets)?;
        let settled = self.settled(alloc, Naming::Versioned, &table)?;
        Ok(settled)
    }
}
