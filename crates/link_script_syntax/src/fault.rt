//! Why a script could not be read.

ghost use Rattle.std.specs.Prelude.{◌≡◌};
ghost use Rattle.link_script_syntax.specs.declared.fault.ReadError.TheVariants.{Memory};
ghost use Rattle.link_script_syntax.specs.declared.fault.ScriptFault.TheVariants as faults;
ghost use Rattle.link_script_syntax.specs.Fault.{AnswersFault, IsWithin};

use link_names::Name;
use std::alloc::{AllocError, AllocFailed};
use std::fmt;

/// The language of an extern block.
#[derive(Clone, Copy, Debug, PartialEq, Eq)]
pub enum Language {
    C,
    Cxx,
}

/// What is wrong with a script.
#[derive(Debug, Drop)]
pub enum ScriptErrorKind {
    /// Bytes that are needed are not there.
    Syntax,
    /// A pattern is not UTF-8.
    InvalidUtf8String,
    /// A pattern is no glob.
    InvalidGlobPattern,
    /// No earlier version has the name of this parent.
    UnknownParentVersion,
    /// An extern block of this language in an extern block.
    UnexpectedExtern(Language),
    /// An extern block of a language that is neither C nor C++, as it stands in the text.
    UnsupportedExtern(Name),
    /// A named version more than there may be.
    TooManyVersions,
}

/// What is wrong, and how many bytes of the text are left from there on.
#[derive(Debug, Drop)]
pub struct Fault {
    pub left: usize,
    pub kind: ScriptErrorKind,
}

/// A fault of the text that is read, or want of memory.
#[derive(Debug, Drop)]
pub enum ReadError {
    Memory,
    Fault(Fault),
}

impl From<AllocError> for ReadError {
    ghost from_gives = { λ _ e. e ≡ Memory };

    fn from(_e: AllocError) -> ReadError {
        ReadError::Memory
    }
}

impl<T: Drop> From<AllocFailed<T>> for ReadError {
    ghost from_gives = { λ _ e. e ≡ Memory };

    fn from(_e: AllocFailed<T>) -> ReadError {
        ReadError::Memory
    }
}

/// What is wrong with a text, and at which byte, counted from 0. Mirrors Wild's `VersionScriptError`.
#[derive(Debug, Drop)]
pub struct ScriptError {
    pub at: usize,
    pub kind: ScriptErrorKind,
}

/// Why a text could not be read as a script.
#[derive(Debug, Drop)]
pub enum ScriptFault {
    /// The first fault of the text.
    Text(ScriptError),
    /// Memory ran out.
    Memory,
}

impl From<AllocError> for ScriptFault {
    ghost from_gives = { λ _ e. e ≡ faults.Memory };

    fn from(_e: AllocError) -> ScriptFault {
        ScriptFault::Memory
    }
}

/// The fault with its place in a text of this length.
pub fn placed(error: ReadError, len: usize) -> ScriptFault
    requires { IsWithin error len }
    ensures { AnswersFault result error len }
{
    match error {
        ReadError::Memory => ScriptFault::Memory,
        ReadError::Fault(fault) => ScriptFault::Text(ScriptError {
            at: len - fault.left,
            kind: fault.kind,
        }),
    }
}

impl fmt::Display for Language {
    ghost use Rattle.std.specs.Prelude.{Some};
    ghost use Rattle.link_script_syntax.specs.ErrorText.{language_text};

    ghost output = { λ language. Some (language_text language) };

    fn fmt<W: fmt::Write>(&self, f: &mut fmt::Formatter<W>) -> fmt::Result {
        match self {
            Language::C => f.write_str("C"),
            Language::Cxx => f.write_str("C++"),
        }
    }
}

impl fmt::Display for ScriptErrorKind {
    ghost use Rattle.std.specs.Prelude.{Some};
    ghost use Rattle.link_script_syntax.specs.ErrorText.{kind_text};

    ghost output = { λ kind. Some (kind_text kind) };

    fn fmt<W: fmt::Write>(&self, f: &mut fmt::Formatter<W>) -> fmt::Result {
        match self {
            ScriptErrorKind::Syntax => f.write_str("Syntax error"),
            ScriptErrorKind::InvalidUtf8String => f.write_str("Invalid utf-8 string"),
            ScriptErrorKind::InvalidGlobPattern => f.write_str("Invalid glob pattern"),
            ScriptErrorKind::UnknownParentVersion => f.write_str("Unknown parent version"),
            ScriptErrorKind::UnexpectedExtern(language) => {
                write!(f, "Unexpected extern \"{language}\" in parsing")
            }
            ScriptErrorKind::UnsupportedExtern(bytes) => {
                write!(f, "Unsupported extern \"{bytes}\"")
            }
            ScriptErrorKind::TooManyVersions => f.write_str("Too many versions"),
        }
    }
}

impl fmt::Display for ScriptError {
    ghost use Rattle.std.specs.Prelude.{Some};
    ghost use Rattle.link_script_syntax.specs.ErrorText.{error_text};

    ghost output = { λ error. Some (error_text error) };

    fn fmt<W: fmt::Write>(&self, f: &mut fmt::Formatter<W>) -> fmt::Result {
        let kind = &self.kind;
        let at = self.at;
        write!(f, "{kind} at {at}")
    }
}
