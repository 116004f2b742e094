//! Why a session refuses a call.

use link_rules::LinkError;
use std::alloc::AllocError;

/// Why a session refuses a call.
#[derive(Debug, Drop)]
pub enum SessionError {
    /// The first cause that the call's own part of the link brings: for a new session its texts, for a batch that batch, at the end what follows the last
    /// batch. It is never `LinkError::Memory`.
    Link(LinkError),
    /// An earlier batch was refused, and ended the session.
    Ended,
    /// Memory ran out.
    Memory,
}

impl From<LinkError> for SessionError {
    ghost use Rattle.link_core.specs.SessionErrors.{IsToldAs};

    ghost from_gives = { IsToldAs };

    fn from(error: LinkError) -> Self {
        match error {
            LinkError::Memory => SessionError::Memory,
            cause => SessionError::Link(cause),
        }
    }
}

impl From<AllocError> for SessionError {
    ghost use Rattle.std.specs.Prelude.{◌≡◌};
    ghost use Rattle.link_core.specs.declared.session_error.SessionError.TheVariants.{Memory};

    ghost from_gives = { λ _ e. e ≡ Memory };

    fn from(_: AllocError) -> Self {
        SessionError::Memory
    }
}
