//! How many files of each kind a batch has.

use link_input::{Inputs, Platform};

/// How many files of each kind a batch has.
#[derive(Clone, Copy, Debug)]
pub(crate) struct BatchSize {
    pub(crate) objects: usize,
    pub(crate) scripts: usize,
    pub(crate) stubs: usize,
}

impl BatchSize {
    ghost use Rattle.std.specs.Prelude.{◌≡◌};
    ghost use Rattle.link_input.specs.InputFiles.{batch_of};
    ghost use Rattle.link_core.specs.Sizes.{size_of};

    /// That of a batch.
    pub(crate) fn of<P: Platform>(inputs: &Inputs<P>) -> Self
        ensures { result ≡ size_of (batch_of inputs.now) }
    {
        BatchSize {
            objects: inputs.objects.len(),
            scripts: inputs.scripts.len(),
            stubs: inputs.stubs.len(),
        }
    }
}
