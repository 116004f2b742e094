//! The symbols that stand before those of all files.

ghost use Rattle.std.specs.Prelude.{◌≡◌, ◌<◌, ◌^◌, ◌++◌, Some, IfOk, OnOk, length, map, option_map, slice_get};
ghost use Rattle.link_input.specs.PreludeSymbols.{forced_symbol, prelude_symbols};

use crate::internal_symbols::{InternalSymDefInfo, SymbolPlacement};
use crate::options::Options;
use link_ids::{SymbolId, SymbolIdRange};
use link_names::{Name, Seq};
use std::alloc::{AllocError, Global};
use std::marker::Model;

/// The first file of a link, which is no file: the undefined symbol, the symbols that the linker defines, the names that
/// are forced to be undefined, and the redirects. Mirrors Wild's `Prelude`. A contract sees the list of its symbols.
#[derive(Debug, Drop)]
pub struct Prelude {
    symbols: Vec<InternalSymDefInfo>,
}

impl Model for Prelude {
    ghost use Rattle.std.specs.Prelude.{List};
    ghost use Rattle.link_input.specs.declared.internal_symbols.InternalSymDefInfo.{InternalSymDefInfo};

    ghost Value = { List InternalSymDefInfo };

    ghost view = { λ p. p.symbols.items };
}

/// Appends copies of definitions.
fn append_copies(
    alloc: Global,
    symbols: &mut Vec<InternalSymDefInfo>,
    more: &[InternalSymDefInfo],
) -> Result<(), AllocError>
    ensures { OnOk result (symbols.new.items ≡ symbols.old.items ++ more.now) }
{
    for definition in more {
        symbols.push(definition.try_clone(alloc)?)?;
    }
    Ok(())
}

/// Appends a symbol for each name that is forced to be undefined.
fn append_forced(symbols: &mut Vec<InternalSymDefInfo>, names: &[Name]) -> Result<(), AllocError>
    ensures { OnOk result (symbols.new.items ≡ symbols.old.items ++ map forced_symbol names.now) }
{
    for name in names {
        symbols.push(InternalSymDefInfo::new(SymbolPlacement::ForceUndefined, name.clone()?))?;
    }
    Ok(())
}

impl Prelude {
    /// The prelude of a link with these options. Its only refusal is want of memory.
    pub fn new(alloc: Global, options: &Options) -> Result<Self, AllocError>
        ensures { IfOk result (λ prelude. prelude ≡ prelude_symbols options.now) }
    {
        let mut symbols = Vec::new(alloc);
        let no_name = Name::new(Vec::new(alloc));
        symbols.push(InternalSymDefInfo::new(SymbolPlacement::Undefined, no_name))?;
        append_copies(alloc, &mut symbols, options.linker_symbols.as_slice())?;
        append_forced(&mut symbols, options.force_undefined.as_slice())?;
        append_copies(alloc, &mut symbols, options.defsym.as_slice())?;
        Ok(Prelude { symbols })
    }

    /// Its symbols, in the order of their ids from 0.
    pub fn symbols(&self) -> &[InternalSymDefInfo]
        ensures { result.now ≡ self.now }
    {
        self.symbols.as_slice()
    }

    /// How many symbols it has.
    pub fn num_symbols(&self) -> usize
        ensures { result ≡ length self.now }
    {
        self.symbols.len()
    }

    /// The ids of its symbols, which are the first of the link.
    pub fn symbol_id_range(&self) -> SymbolIdRange
        requires { length self.now < 2 ^ 32 }
        ensures { result ≡ record { start = 0; len = length self.now } }
    {
        SymbolIdRange::prelude(self.symbols.len())
    }

    /// The definition of a symbol of the prelude.
    pub fn symbol_def(&self, id: SymbolId) -> &InternalSymDefInfo
        requires { id < length self.now }
        ensures { slice_get self.now id ≡ Some result.now }
    {
        &self.symbols[id.as_usize()]
    }

    /// The name of a symbol of the prelude.
    pub fn symbol_name(&self, id: SymbolId) -> &Name
        requires { id < length self.now }
        ensures { option_map (λ symbol. symbol.name) (slice_get self.now id) ≡ Some result.now }
    {
        &self.symbol_def(id).name
    }
}
