//! What a link is given: the symbol tables of objects, linker scripts, stub libraries, and the options.
//!
//! Some of its public calls are for callers of the library alone, and no crate here makes them: docs/PORT.md lists them.
#![tactic(auto)]

mod builder;
mod checks;
mod copies;
mod input_queries;
mod internal_symbols;
mod name_block;
mod object;
mod object_parts;
mod options;
mod output_queries;
mod parsed_object;
mod parts;
mod placement_queries;
mod platform;
mod prelude;
mod script_parts;
mod segment_name;
mod symbol_columns;
mod symbol_entry;
mod symbol_queries;
mod symbol_row;
mod table_error;
mod table_laws;
mod too_many;
mod world;

pub use builder::InternalSymbolsBuilder;
pub use internal_symbols::{
    InternalSymDefInfo, LocationCounter, Redirect, RedirectKind, SymbolLoc, SymbolPlacement,
};
pub use object::{InputObject, ObjectTable, SectionGroup, SectionReference};
pub use options::{Options, OutputKind};
pub use parsed_object::{Modifiers, ParsedInputObject};
pub use platform::{ElfLike, MachLike, Platform};
pub use prelude::Prelude;
pub use segment_name::SegmentName;
pub use symbol_entry::{Place, SymbolBinding, SymbolEntry, SymbolKind};
pub use symbol_row::SymbolRow;
pub use table_error::TableError;
pub use table_laws::{accepted_tables, checked_tables};
pub use too_many::TooManyKind;
pub use world::{Inputs, ProcessedLinkerScript, Scripts, StubLibrary, StubSymbol, World};
