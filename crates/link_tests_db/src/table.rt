//! What each symbol points to.

ghost use Rattle.std.specs.Prelude.{◌≡◌};
ghost use Rattle.link_db.specs.Database.{HasTable};
ghost use Rattle.link_db.specs.Seen.{seen};

use link_db::SymbolDb;
use link_ids::SymbolId;
use link_input::Platform;
use std::alloc::AllocError;
use std::fmt::Write;

/// Writes what each symbol points to, with the table taken and put back.
pub fn write_table<P: Platform>(text: &mut String, db: &mut SymbolDb<P>) -> Result<(), AllocError>
    requires { HasTable (seen db.old) }
    ensures { seen db.new ≡ seen db.old }
{
    let table = db.take_definitions();
    let written = write_ids(text, table.as_slice());
    db.restore_definitions(table);
    written
}

/// Writes ids.
fn write_ids(text: &mut String, ids: &[SymbolId]) -> Result<(), AllocError> {
    let count = ids.len();
    write!(text, "{count}:")?;
    for id in ids {
        write!(text, " {id}")?;
    }
    Ok(())
}
