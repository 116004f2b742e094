//! How the program ends.

ghost use Rattle.std.specs.Prelude.{◌≡◌};
ghost use Rattle.link_program.specs.Outcome.{status_number};
ghost use Rattle.std.specs.Process.{exit_status};

use std::process::ExitCode;

/// How a command ended.
#[derive(Clone, Copy, Debug, PartialEq, Eq)]
pub enum Status {
    /// The report, the summary or the version definitions are written, or the claim holds.
    Linked,
    /// The link, the version definitions or the check are refused, and the cause is told.
    Refused,
    /// The words are no command.
    Usage,
    /// The bytes are no manifest, or too many.
    Manifest,
    /// The source failed.
    ReadFault,
    /// The sink failed, and has taken a part of the text or none of it.
    WriteFault,
    /// Memory ran out, and nothing is written.
    Memory,
    /// The claim doesn't hold, and the first part that fails is told.
    Fails,
}

impl Status {
    /// The number that the program ends with.
    pub fn code(self) -> u8
        ensures { result ≡ status_number self }
    {
        match self {
            Status::Linked => 0,
            Status::Refused => 1,
            Status::Usage => 2,
            Status::Manifest => 3,
            Status::ReadFault => 4,
            Status::WriteFault => 5,
            Status::Memory => 6,
            Status::Fails => 7,
        }
    }

    /// What the program ends with.
    pub fn exit_code(self) -> ExitCode
        ensures { exit_status result ≡ status_number self }
    {
        ExitCode::from(self.code())
    }
}
