//! By what means a batch is linked.

use std::alloc::Global;

/// By what means batches are linked: what starts threads, what gives memory, the gate that is called round each work item, and how many threads read
/// items at most. No clause speaks of these, since they change no answer. What demangles names is none of them: the meaning of a link depends on it.
#[derive(Drop)]
pub(crate) struct Execution<'a, R, G> {
    pub(crate) rt: &'a R,
    pub(crate) alloc: Global,
    pub(crate) gate: &'a G,
    pub(crate) workers: usize,
}
