//! Names that demangle to a target.

ghost use Rattle.std.specs.Prelude.{◌≡◌, drop};
ghost use Rattle.link_db_files.specs.HeldFiles.{names_in};
ghost use Rattle.link_rules.specs.Places.{first_of, places_from};
ghost use Rattle.link_db.specs.Mangled.{stands_for};

use link_db_files::Files;
use link_ids::SymbolId;
use link_input::Platform;
use link_names::text_of;
use link_script::Demangler;

/// Whether a name is text that demangles to the target.
fn stands_for<D: Demangler>(demangler: &D, name: &[u8], target: &[u8]) -> bool
    ensures { result ≡ stands_for (D.demangled demangler.now) target.now name.now }
{
    match text_of(name) {
        Some(text) => demangler.demangle(text).as_bytes() == target,
        None => false,
    }
}

/// The least symbol, behind the undefined one, whose name is text that demangles to the target.
pub fn find_mangled<P: Platform, D: Demangler>(
    files: &Files<P>,
    demangler: &D,
    target: &[u8],
) -> Option<SymbolId>
    ensures { result ≡ first_of (places_from (stands_for (D.demangled demangler.now) target.now) 1 (drop 1 (names_in files.now))) }
{
    for number in 1..files.num_symbols() {
        let id = SymbolId::from_usize(number);
        if stands_for(demangler, files.symbol_name(id).as_slice(), target) {
            return Some(id);
        }
    }
    None
}
