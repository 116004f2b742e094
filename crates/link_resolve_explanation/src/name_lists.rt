//! The definitions of names, as lists of rivals that are gathered anew.

ghost use Rattle.std.specs.Prelude.{◌≡◌, Bool, IfOk, length, ℕ};
ghost use Rattle.link_db_files.specs.GroupFiles.{symbols_in};
ghost use Rattle.link_db.specs.Seen.{seen};
ghost use Rattle.link_resolve.specs.Known.{Known};
ghost use Rattle.link_resolve_rivals.specs.Lists.{plain_lists, versioned_lists};
ghost use Rattle.link_rules.specs.Selection.{Selection};
ghost use Rattle.link_resolve_explanation.specs.Gathered.{gathered};
ghost use Rattle.link_resolve_explanation.specs.Told.{IsTold};

use crate::gathering::GatheredLists;
use crate::heads::{plain_heads, versioned_heads};
use crate::wraps::wrapped_firsts;
use link_db::SymbolDb;
use link_input::Platform;
use std::alloc::{AllocError, Global};

/// The definitions of plain names. The only refusal is want of memory.
pub(crate) fn plain_lists<P: Platform>(
    alloc: Global,
    db: &SymbolDb<P>,
) -> Result<GatheredLists, AllocError>
    ensures count { IfOk result (λ lists. length lists.heads.items ≡ length (symbols_in (seen db.now).mapping.files.groups)) }
    ensures listed { IfOk result (λ lists. (weak : Bool) (known : Known) (l : Selection) → IsTold weak (seen db.now) known l
        → (s : ℕ) → gathered lists.heads.items s ≡ plain_lists l.stage s) }
{
    let _numbers = db.num_symbols();
    let noted = wrapped_firsts(alloc, db.files(), db.options().wrap.as_slice())?;
    let heads = plain_heads(alloc, db, &noted)?;
    let lists = GatheredLists::gather(alloc, heads.as_slice())?;
    Ok(lists)
}

/// The definitions of names with versions. The only refusal is want of memory.
pub(crate) fn versioned_lists<P: Platform>(
    alloc: Global,
    db: &SymbolDb<P>,
) -> Result<GatheredLists, AllocError>
    ensures count { IfOk result (λ lists. length lists.heads.items ≡ length (symbols_in (seen db.now).mapping.files.groups)) }
    ensures listed { IfOk result (λ lists. (weak : Bool) (known : Known) (l : Selection) → IsTold weak (seen db.now) known l
        → (s : ℕ) → gathered lists.heads.items s ≡ versioned_lists l.stage s) }
{
    let _numbers = db.num_symbols();
    let heads = versioned_heads(alloc, db)?;
    let lists = GatheredLists::gather(alloc, heads.as_slice())?;
    Ok(lists)
}
