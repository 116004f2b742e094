//! Why a batch is refused, in a word.

ghost use Rattle.std.specs.Prelude.{◌≡◌};
ghost use Rattle.link_desk.specs.Replies.{kind_of};

use link_rules::LinkError;

/// Why a batch is refused: the variant of `LinkError`, without its data. Want of memory is no such kind.
#[derive(Clone, Copy, Debug, PartialEq, Eq)]
pub enum RefusalKind {
    Script,
    MultipleVersionScripts,
    LateVersionScript,
    TooMany,
    NoInputs,
    SectionInTwoGroups,
    DuplicateSymbols,
    UndefinedVersion,
}

impl RefusalKind {
    /// The kind of a cause. None for want of memory.
    pub fn of(cause: &LinkError) -> Option<RefusalKind>
        ensures { result ≡ kind_of cause.now }
    {
        Some(match cause {
            LinkError::Script { .. } => RefusalKind::Script,
            LinkError::MultipleVersionScripts(_) => RefusalKind::MultipleVersionScripts,
            LinkError::LateVersionScript(_) => RefusalKind::LateVersionScript,
            LinkError::TooMany { .. } => RefusalKind::TooMany,
            LinkError::NoInputs => RefusalKind::NoInputs,
            LinkError::SectionInTwoGroups { .. } => RefusalKind::SectionInTwoGroups,
            LinkError::DuplicateSymbols(_) => RefusalKind::DuplicateSymbols,
            LinkError::UndefinedVersion { .. } => RefusalKind::UndefinedVersion,
            LinkError::Memory => return None,
        })
    }
}
