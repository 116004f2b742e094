//! Names are wrapped, one after another.

ghost use Rattle.std.specs.Prelude.{◌≡◌, ℕ, OnOk, OnErr, fold, take};
ghost use Rattle.link_db_mapping.specs.Mapped.{mapping_of};
ghost use Rattle.link_db_mapping.specs.Seen.{seen};
ghost use Rattle.link_rules.specs.Names.{wrapped};

use link_db_mapping::SymbolMapping;
use link_input::Platform;
use link_names::Name;
use std::alloc::{AllocError, Global};

/// Wraps names in order, as far as memory lasts.
pub fn wrap_all<P: Platform>(
    mapping: &mut SymbolMapping<P>,
    alloc: Global,
    names: &[Name],
) -> Result<(), AllocError>
    ensures wrapped { OnOk result (mapping_of (seen mapping.new) ≡ fold wrapped (mapping_of (seen mapping.old)) names.now) }
    ensures some { OnErr result ((done : ℕ) × (mapping_of (seen mapping.new) ≡ fold wrapped (mapping_of (seen mapping.old)) (take done names.now))) }
    ensures lists { (seen mapping.new).lists ≡ (seen mapping.old).lists }
    ensures files { (seen mapping.new).files ≡ (seen mapping.old).files }
{
    for name in names {
        mapping.wrap(alloc, name.as_slice())?;
    }
    Ok(())
}
