//! The references that stay undefined, and what stands for them.
//!
//! Some of its public calls are for callers of the library alone, and no crate here makes them: docs/PORT.md lists them.
#![tactic(auto)]

mod asked_name;
mod asked_names;
mod boundaries;
mod collecting;
mod flagging;
mod laws;
mod name_ids;
mod pointing;
mod reference;
mod references;
mod undefined_names;

pub use asked_name::AskedName;
pub use asked_names::AskedNames;
pub use flagging::{flag_references, flag_undefined};
pub use laws::signatures_are_left;
pub use pointing::{point_references, point_undefined};
pub use references::references_left;
pub use undefined_names::undefined_references;
