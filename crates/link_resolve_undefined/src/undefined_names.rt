//! Which references stand for undefined names.

ghost use Rattle.std.specs.Prelude.{◌≡◌, ◌&&◌, ◌<◌, All, IfOk, List, length, map, not};
ghost use Rattle.link_db_files.specs.GroupFiles.{symbols_in};
ghost use Rattle.link_input.specs.Symbols.{Symbol};
ghost use Rattle.link_rules.specs.Selection.{Selection};
ghost use Rattle.link_rules.specs.Undefined.{Numbered, is_boundary_maker, is_last_alike, left_undefined};
ghost use Rattle.link_rules.specs.World.{Stage};
ghost use Rattle.link_resolve_undefined.specs.Asked.{AreAsked};
ghost use Rattle.link_resolve_undefined.specs.Keys.{Asks};
ghost use Rattle.link_resolve_undefined.specs.Pointed.{AreLeftOf};
ghost use Rattle.link_resolve_undefined.specs.Records.{AreSome, numbered_at};
ghost use Rattle.link_resolve_undefined.specs.UndefinedNames.{undefined_references};

use crate::asked_name::AskedName;
use crate::asked_names::AskedNames;
use link_db_files::Files;
use link_ids::SymbolId;
use link_input::Platform;
use std::alloc::{AllocError, Global};

/// Whether the reference of this id stands for its name: it is the last that asks for it, and no new symbol is made for it.
fn stands_for_name<'a>(asked: &AskedNames<'a>, name: AskedName<'a>, id: SymbolId) -> bool
    ensures { (w : Stage) → (left : List Numbered) → (x : Symbol) → AreAsked asked.now w left → Asks name.entry x
        → result ≡ (is_last_alike left (id, x) && not (is_boundary_maker w left (id, x))) }
{
    asked.last(name) == Some(id) && !asked.makes_new(name, id)
}

/// Those of these references that stand for their names.
fn standing_among<'a, P: Platform>(
    alloc: Global,
    files: &'a Files<P>,
    left: &[SymbolId],
    asked: &AskedNames<'a>,
) -> Result<Vec<SymbolId>, AllocError>
    requires { All (λ s. s < length (symbols_in files.now.groups)) left.now }
    ensures ids { IfOk result (λ ids. (w : Stage) → AreAsked asked.now w (numbered_at (symbols_in files.now.groups) left.now)
        → ids.items ≡ map (λ u. u.0) (undefined_references w (numbered_at (symbols_in files.now.groups) left.now))) }
    ensures within { IfOk result (λ ids. All (λ s. s < length (symbols_in files.now.groups)) ids.items) }
{
    let mut ids = Vec::new(alloc);
    for id in left {
        if stands_for_name(asked, AskedName::of(files, *id), *id) {
            ids.push(*id)?;
        }
    }
    Ok(ids)
}

/// The references that stand for undefined names, in the order of their ids: of those that ask for the same name and version the last, if no
/// new symbol is made for it. The only refusal is want of memory.
pub fn undefined_references<'a, P: Platform>(
    alloc: Global,
    files: &'a Files<P>,
    left: &[SymbolId],
    asked: &AskedNames<'a>,
) -> Result<Vec<SymbolId>, AllocError>
    requires { AreSome (symbols_in files.now.groups) left.now }
    ensures ids { IfOk result (λ ids. (l : Selection) → AreLeftOf (symbols_in files.now.groups) left.now asked.now l
        → ids.items ≡ map (λ u. u.0) (undefined_references l.stage (left_undefined l))) }
    ensures within { IfOk result (λ ids. All (λ s. s < length (symbols_in files.now.groups)) ids.items) }
{
    let ids = standing_among(alloc, files, left, asked)?;
    Ok(ids)
}
