//! How strongly each symbol binds once the loaded objects are known.

ghost use Rattle.std.specs.Prelude.{◌≡◌, IfOk, map};
ghost use Rattle.link_closure.specs.Closure.{is_marked};
ghost use Rattle.link_db_files.specs.GroupFiles.{symbols_in};
ghost use Rattle.link_rules.specs.Selection.{is_discarded_place, surviving_origin};

use crate::all_symbols::symbols;
use crate::view::{SymbolOrigin, SymbolView};
use link_closure::is_marked;
use link_db_files::Files;
use link_flags::SymbolStrength;
use link_input::{Platform, SymbolRow};
use std::alloc::{AllocError, Global};

/// The sections that are left out of a link, since another object's group has theirs.
pub trait DiscardedSections {
    ghost use Rattle.std.specs.Prelude.{◌≡◌, List};
    ghost use Rattle.link_rules.specs.Comdat.{PlacedGroup, is_discarded_by};

    /// The groups that are discarded.
    ghost discarded: { Self → List PlacedGroup };

    /// Whether the section of the object is the header or a member of a discarded group.
    fn is_discarded(&self, object: usize, section: u32) -> bool
        ensures { result ≡ is_discarded_by (discarded self.now) object section };
}

/// Whether an entry of the object stands in a discarded section.
fn is_in_discarded<D: DiscardedSections>(discarded: &D, object: usize, row: &SymbolRow) -> bool
    ensures { result ≡ is_discarded_place (D.discarded discarded.now) object row.now.place }
{
    match row.section() {
        Some(section) => discarded.is_discarded(object, section.as_usize() as u32),
        None => false,
    }
}

/// How strongly a symbol binds: not at all in an object that isn't loaded, or in a discarded section.
fn surviving_strength<D: DiscardedSections>(
    symbol: &SymbolView,
    loaded: &[bool],
    discarded: &D,
) -> SymbolStrength
    ensures { result ≡ surviving_origin loaded.now (D.discarded discarded.now) symbol.now.origin }
{
    match symbol.origin() {
        SymbolOrigin::Object { place, row, .. } => {
            if is_marked(loaded, *place) && !is_in_discarded(discarded, *place, row) {
                row.strength()
            } else {
                SymbolStrength::Undefined
            }
        }
        _ => symbol.binding_strength(),
    }
}

/// How strongly each symbol of the files binds, by the id of the symbol: not at all in an object that isn't loaded, or in a
/// discarded section. The only refusal is want of memory.
pub fn surviving_strengths<P: Platform, D: DiscardedSections>(
    alloc: Global,
    files: &Files<P>,
    loaded: &[bool],
    discarded: &D,
) -> Result<Vec<SymbolStrength>, AllocError>
    ensures { IfOk result (λ strengths. strengths.items
        ≡ map (λ x. surviving_origin loaded.now (D.discarded discarded.now) x.origin) (symbols_in files.now.groups)) }
{
    let mut strengths = Vec::with_capacity(alloc, files.num_symbols())?;
    for (_, symbol) in symbols(files) {
        strengths.push(surviving_strength(&symbol, loaded, discarded))?;
    }
    Ok(strengths)
}
