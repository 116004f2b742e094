//! The files of a batch come into the database of a link.

ghost use Rattle.std.specs.Prelude.{◌≡◌, ◌<◌, ◌≤◌, ◌++◌, ◌∷◌, [], List, OnOk, length, not};
ghost use Rattle.link_db_files.specs.Inputs.{objects_in};
ghost use Rattle.link_flags.specs.FlagWords.{numbers_of, words_of};
ghost use Rattle.link_input_groups.specs.Held.{AreGroupsOf};
ghost use Rattle.link_input.specs.InputFiles.{Batch, batch_of};
ghost use Rattle.link_input.specs.Limits.{batch_limit};
ghost use Rattle.link_db_texts.specs.Causes.{TellsCause};
ghost use Rattle.link_db_texts.specs.Holds.{platform_of};
ghost use Rattle.link_rules.specs.Places.{is_empty};
ghost use Rattle.link_rules.specs.World.{Stage, World, with_batch};
ghost use Rattle.link_db.specs.Database.{HasTable, symbol_names};
ghost use Rattle.link_db.specs.Seen.{seen};
ghost use Rattle.link_resolve.specs.Known.{IsListed, Known};
ghost use Rattle.link_core.specs.Steps.{HasRoom, IsAdded, IsBefore, IsReady, inputs_refusal};

use link_db::SymbolDb;
use link_flags::PerSymbolFlags;
use link_input::{Inputs, Platform};
use link_rules::LinkError;
use link_script::Demangler;
use std::alloc::Global;
use std::thread::Threads;

/// Adds the files of a batch behind those that a database holds, and wraps names anew.
pub(crate) fn add_files<R: Threads + Sync, P: Platform + Sync, D: Demangler + Sync>(
    rt: &R,
    alloc: Global,
    demangler: &D,
    db: &mut SymbolDb<P>,
    flags: &mut PerSymbolFlags,
    inputs: Inputs<P>,
) -> Result<(), LinkError>
    requires held { (batches : List Batch) × AreGroupsOf (seen db.old).options batches (seen db.old).mapping.files.groups × (length batches < batch_limit) }
    requires table { HasTable (seen db.old) }
    requires flags { length (words_of flags.old) ≡ length (symbol_names (seen db.old)) }
    requires listed { IsListed (seen db.old) }
    ensures room { OnOk result (HasRoom (seen db.new) (words_of flags.new)) }
    ensures listed { OnOk result (IsListed (seen db.new)) }
    ensures objects { OnOk result (length (objects_in (seen db.old).mapping.files.groups) ≤ length (objects_in (seen db.new).mapping.files.groups)) }
    ensures symbols { OnOk result (length (symbol_names (seen db.old)) ≤ length (symbol_names (seen db.new))) }
    ensures groups { OnOk result ((batches : List Batch) → AreGroupsOf (seen db.old).options batches (seen db.old).mapping.files.groups
        → AreGroupsOf (seen db.new).options (batches ++ batch_of inputs ∷ []) (seen db.new).mapping.files.groups) }
    ensures cause { (w : World) (done : List Batch) (before : Stage) (known : Known) → IsBefore (platform_of P.Platform) (D.demangled demangler.now) w done (batch_of inputs) before
        → IsReady (platform_of P.Platform) w done before (seen db.old) (numbers_of (words_of flags.old)) known
        → TellsCause (inputs_refusal (not (is_empty done)) before (batch_of inputs)) result }
    ensures added { OnOk result ((w : World) (done : List Batch) (before : Stage) (known : Known) → IsBefore (platform_of P.Platform) (D.demangled demangler.now) w done (batch_of inputs) before
        → IsReady (platform_of P.Platform) w done before (seen db.old) (numbers_of (words_of flags.old)) known
        → IsAdded (platform_of P.Platform) (D.demangled demangler.now) w (with_batch before (batch_of inputs)) (seen db.new) (numbers_of (words_of flags.new))) }
{
    db.add_inputs(rt, alloc, demangler, flags, inputs)?;
    db.apply_wrapped_symbol_overrides(alloc)?;
    Ok(())
}
