//! Which objects of a link are loaded: what each reference stands for, what is loaded whatever refers to it, and what that asks for.
#![tactic(auto)]

mod names;
mod objects;
mod requests;
mod roots;
mod targets;

pub use names::{lasting_names, referred_names, root_names};
pub use objects::{object_marks, objects_of};
pub use requests::request_by;
pub use roots::{object_of_name, root_objects, root_symbols};
pub use targets::looked_up;
