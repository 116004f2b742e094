//! What is found for root names, kept while a link stands.

ghost use Rattle.std.specs.Prelude.{◌≡◌, ◌++◌, ◌≤◌, [], ◌∷◌, All, IfOk, List, OnOk, length};
ghost use Rattle.std.specs.List.{flat_map};
ghost use Rattle.link_db.specs.Seen.{seen};
ghost use Rattle.link_db_stage.specs.AtStage.{IsAtStage};
ghost use Rattle.link_db_texts.specs.Holds.{platform_of};
ghost use Rattle.link_resolve_roots.specs.Found.{AreFound};
ghost use Rattle.link_rules.specs.FoundRoots.{found_roots, lasting_names};
ghost use Rattle.link_rules.specs.Places.{Bytes};
ghost use Rattle.link_rules.specs.World.{Stage};

use crate::noting::{note_entry, note_others};
use link_db::SymbolDb;
use link_input::Platform;
use link_names::Seq;
use link_rules::FoundRoot;
use std::alloc::{AllocError, Global};
use std::marker::Model;

/// The objects that were found for root names as batches came, each with the name: what an explanation of the link tells of an object that no reference
/// asks for. Objects count from 0 over all batches.
#[derive(Debug, Drop)]
pub struct FoundRoots {
    /// What was found for the entry, batch by batch.
    entries: Seq<FoundRoot>,
    /// The same for each other root name, by its place among these.
    others: Vec<Seq<FoundRoot>>,
}

impl Model for FoundRoots {
    ghost use Rattle.link_resolve_roots.specs.Found.{Found};

    ghost Value = { Found };

    ghost view = { λ f. record { entries = f.entries; others = f.others.items } };
}

impl FoundRoots {
    /// Nothing is found. Takes no memory.
    pub fn new(alloc: Global) -> Self
        ensures { AreFound [] result }
    {
        FoundRoots {
            entries: Seq::new(alloc),
            others: Vec::new(alloc),
        }
    }

    /// Notes what is found with the batch that came last, at whose stage the database is. The only refusal is want of memory; a part of what the batch
    /// brings may then be noted, so that what is kept is of no use any more.
    pub fn note_batch<P: Platform>(
        &mut self,
        alloc: Global,
        db: &SymbolDb<P>,
    ) -> Result<(), AllocError>
        ensures { OnOk result ((demangle : Bytes → Bytes) (w : Stage) → IsAtStage (platform_of P.Platform) demangle (seen db.now) w
            → (ws : List Stage) → AreFound ws self.old → AreFound (ws ++ w ∷ []) self.new) }
    {
        note_entry(&mut self.entries, alloc, db)?;
        note_others(&mut self.others, alloc, db)?;
        Ok(())
    }

    /// What was found with all batches, in the order of the root names. Copies no name. The only refusal is want of memory.
    pub fn in_order(self) -> Result<Vec<FoundRoot>, AllocError>
        ensures { IfOk result (λ roots. (ws : List Stage) (w : Stage) → AreFound ws self → All (λ v. length (lasting_names v) ≤ length (lasting_names w)) ws
            → roots.items ≡ found_roots ws w) }
    {
        let FoundRoots { entries, others } = self;
        let mut roots = entries.into_vec();
        append_lists(&mut roots, others)?;
        Ok(roots)
    }
}

/// Adds what stands in lists, one after another.
fn append_lists(roots: &mut Vec<FoundRoot>, lists: Vec<Seq<FoundRoot>>) -> Result<(), AllocError>
    ensures { OnOk result (roots.new.items ≡ roots.old.items ++ flat_map (λ list. list) lists.items) }
{
    for list in lists {
        let mut list = list.into_vec();
        roots.append(&mut list)?;
    }
    Ok(())
}
