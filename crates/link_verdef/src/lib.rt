//! Version definition records of ELF (LSB Core, "Symbol Versioning"), the content of a section `SHT_GNU_verdef`: which
//! versions a script defines, how their records and strings are written, and how they are read again.
#![tactic(auto)]

mod hash;
mod item;
mod read;
mod record;
mod script_items;
mod write;

pub use hash::sysv_hash;
pub use item::{VersionItem, VersionItems};
pub use read::{ReadError, read_verdef};
pub use script_items::items_of;
pub use write::{VerdefImage, WriteError, write_verdef};
