//! Names are mapped anew.

use crate::database::SymbolDb;
use crate::wrapping::wrap_all;
use link_ids::SymbolId;
use link_input::Platform;
use link_names::Name;
use std::alloc::{AllocError, Global};

impl<P: Platform> SymbolDb<P> {
    ghost use Rattle.std.specs.Prelude.{◌≡◌, ◌<◌, ℕ, Some, IfOk, OnOk, OnErr, fold, length, take};
    ghost use Rattle.link_db_mapping.specs.Mapped.{mapping_of};
    ghost use Rattle.link_rules.specs.Names.{mapping_with, wrapped};
    ghost use Rattle.link_rules.specs.Places.{Bytes};
    ghost use Rattle.link_db.specs.Database.{symbol_names};
    ghost use Rattle.link_db.specs.Overrides.{IsMappedAnew};
    ghost use Rattle.link_db.specs.Seen.{seen};

    /// Maps a name to a symbol, whatever defines it, until files are added again. Answers what it was mapped to, and `None` where it was not
    /// mapped. A refused call, for want of memory, leaves all as it was.
    pub fn override_name(
        &mut self,
        name: Name,
        id: SymbolId,
    ) -> Result<Option<SymbolId>, AllocError>
        requires { id < length (symbol_names (seen self.old)) }
        ensures before { IfOk result (λ before. before ≡ mapping_of (seen self.old).mapping name) }
        ensures mapped { OnOk result ((asked : Bytes) → mapping_of (seen self.new).mapping asked ≡ mapping_with name (Some id) (mapping_of (seen self.old).mapping) asked) }
        ensures rest { IsMappedAnew (seen self.old) (seen self.new) }
        ensures err { OnErr result (seen self.new ≡ seen self.old) }
    {
        let before = self.mapping.override_name(name, id)?;
        Ok(before)
    }

    /// Wraps the names of the options in order (GNU ld, `--wrap`): each stands for its wrapper `__wrap_N`, and `__real_N` for what it had.
    /// Where memory runs out, the names before the one that it was wanted for are wrapped, and no other.
    pub fn apply_wrapped_symbol_overrides(&mut self, alloc: Global) -> Result<(), AllocError>
        ensures wrapped { OnOk result ((asked : Bytes) → mapping_of (seen self.new).mapping asked ≡ fold wrapped (mapping_of (seen self.old).mapping) (seen self.old).options.wrap asked) }
        ensures some { OnErr result ((done : ℕ) × ((asked : Bytes) → mapping_of (seen self.new).mapping asked ≡ fold wrapped (mapping_of (seen self.old).mapping) (take done (seen self.old).options.wrap) asked)) }
        ensures rest { IsMappedAnew (seen self.old) (seen self.new) }
    {
        wrap_all(&mut self.mapping, alloc, self.options.wrap.as_slice())?;
        Ok(())
    }
}
