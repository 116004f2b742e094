//! Which symbols of a link define a name, and what the name is mapped to, for a check that stands apart from what resolves them.
#![tactic(auto)]

mod changes;
mod definitions;
mod keys;
mod lists;
mod names;
mod wraps;

pub use keys::name_key;
pub use names::LinkNames;
pub use wraps::{WrappedName, wrapped_names};
