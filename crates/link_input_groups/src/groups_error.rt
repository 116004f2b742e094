//! Why inputs can't be grouped.

use link_input::TooManyKind;
use std::alloc::AllocError;

/// Why the inputs of a link can't be grouped.
#[derive(Clone, Copy, Debug, PartialEq, Eq)]
pub enum GroupsError {
    /// There are more of this kind than ids can name, the first such kind in the order of `TooManyKind`.
    TooMany { kind: TooManyKind, count: u128 },
    /// Memory ran out. It may come in place of any other answer.
    Memory,
}

impl From<AllocError> for GroupsError {
    ghost use Rattle.std.specs.Prelude.{◌≡◌};
    ghost use Rattle.link_input_groups.specs.declared.groups_error.GroupsError.TheVariants.{Memory};

    ghost from_gives = { λ _ error. error ≡ Memory };

    fn from(_: AllocError) -> Self {
        GroupsError::Memory
    }
}
