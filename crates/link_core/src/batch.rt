//! A batch of a link: its files are added, and the objects that count are loaded.

ghost use Rattle.std.specs.Prelude.{◌≡◌, ◌⊎◌, ◌<◌, ◌≤◌, ◌++◌, ◌∷◌, [], List, Err, IfErr, OnOk, length};
ghost use Rattle.link_db_files.specs.Inputs.{objects_in};
ghost use Rattle.link_flags.specs.FlagWords.{numbers_of, words_of};
ghost use Rattle.link_input_groups.specs.Held.{AreGroupsOf};
ghost use Rattle.link_input.specs.InputFiles.{Batch, batch_of};
ghost use Rattle.link_input.specs.Limits.{batch_limit};
ghost use Rattle.link_db_texts.specs.Holds.{platform_of};
ghost use Rattle.link_rules.specs.declared.refusal.LinkError.TheVariants.{Memory};
ghost use Rattle.link_rules.specs.Answer.{BatchesEnd};
ghost use Rattle.link_rules.specs.Selection.{Selection};
ghost use Rattle.link_rules.specs.World.{Stage, World};
ghost use Rattle.link_db.specs.Seen.{seen};
ghost use Rattle.link_core.specs.Steps.{HasRoom, IsBefore, IsHeldAt, IsReady, IsSteady};

use crate::adding::add_files;
use crate::execution::Execution;
use crate::opening::OpenLink;
use link_claim::Gate;
use link_input::{Inputs, Platform};
use link_rules::LinkError;
use link_script::Demangler;
use std::thread::Threads;

/// Links one batch more.
pub(crate) fn link_batch<
    R: Threads + Sync,
    G: Gate + Sync,
    P: Platform + Sync,
    D: Demangler + Sync,
>(
    execution: &Execution<R, G>,
    demangler: &D,
    link: &mut OpenLink<P>,
    inputs: Inputs<P>,
) -> Result<(), LinkError>
    requires held { (batches : List Batch) × AreGroupsOf (seen link.old.db).options batches (seen link.old.db).mapping.files.groups × (length batches < batch_limit) }
    requires steady { IsSteady (seen link.old.db) (words_of link.old.flags) link.old.resolver.known }
    requires loaded { length link.old.resolver.known.marks ≤ length (objects_in (seen link.old.db).mapping.files.groups) }
    ensures steady { OnOk result (IsSteady (seen link.new.db) (words_of link.new.flags) link.new.resolver.known) }
    ensures room { OnOk result (HasRoom (seen link.new.db) (words_of link.new.flags)) }
    ensures groups { OnOk result ((batches : List Batch) → AreGroupsOf (seen link.old.db).options batches (seen link.old.db).mapping.files.groups
        → AreGroupsOf (seen link.new.db).options (batches ++ batch_of inputs ∷ []) (seen link.new.db).mapping.files.groups) }
    ensures refused { IfErr result (λ error. (w : World) (done : List Batch) (before : Stage)
        → IsBefore (platform_of P.Platform) (D.demangled demangler.now) w done (batch_of inputs) before
        → IsReady (platform_of P.Platform) w done before (seen link.old.db) (numbers_of (words_of link.old.flags)) link.old.resolver.known
        → BatchesEnd w (Err error) ⊎ (error ≡ Memory)) }
    ensures loaded { OnOk result ((w : World) (done : List Batch) (before : Stage)
        → IsBefore (platform_of P.Platform) (D.demangled demangler.now) w done (batch_of inputs) before
        → IsReady (platform_of P.Platform) w done before (seen link.old.db) (numbers_of (words_of link.old.flags)) link.old.resolver.known
        → (l : Selection) × IsHeldAt (platform_of P.Platform) (D.demangled demangler.now) w l (seen link.new.db) (numbers_of (words_of link.new.flags)) link.new.resolver) }
{
    add_files(
        execution.rt,
        execution.alloc,
        demangler,
        &mut link.db,
        &mut link.flags,
        inputs,
    )?;
    link.resolver.load_batch(
        execution.rt,
        execution.alloc,
        execution.gate,
        execution.workers,
        &link.db,
        &mut link.flags,
    )?;
    Ok(())
}
