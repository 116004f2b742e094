//! Where a manifest is at fault, and how.

ghost use Rattle.std.specs.Prelude.{◌≡◌};
ghost use Rattle.std.specs.Fmt.{WritesOnOk};
ghost use Rattle.link_manifest.specs.declared.fault.ManifestError.TheVariants.{Memory};
ghost use Rattle.link_manifest.specs.FaultText.{kind_text, problem_text, first_step_text, step_text, path_text, fault_text};

use link_input::TableError;
use link_names::{Name, Seq};
use std::alloc::{AllocError, AllocFailed};
use std::fmt;

/// A step from a value of the manifest to one inside it.
#[derive(Debug, Drop)]
pub enum Step {
    /// The value of a key of an object.
    Key(Name),
    /// The item at this place of a list, from 0.
    Item(usize),
}

/// What a value has to be.
#[derive(Clone, Copy, Debug, PartialEq, Eq)]
pub enum Kind {
    /// A JSON object.
    Object,
    /// A JSON list.
    List,
    /// A JSON text.
    Text,
    /// Bytes: a JSON text, or an object with the one key `hex` and a text of hexadecimal digits, two for each byte.
    Bytes,
    /// `true` or `false`.
    Bool,
    /// A whole number without fraction or exponent, in the range of its key: 0 to 2^32 - 1 where no other is given.
    Number,
    /// One of the words that its key may have.
    Word,
    /// `undefined`, `absolute`, `common`, or the number of a section.
    Place,
}

/// What is wrong with a value.
#[derive(Clone, Copy, Debug, PartialEq, Eq)]
pub enum Problem {
    /// The manifest has more than 2^28 bytes.
    TooLong,
    /// The bytes are no JSON value.
    NotJson,
    /// An object has a key that it may not have.
    UnknownKey,
    /// An object lacks a key that it has to have.
    Missing,
    /// The value is not of this kind.
    Expected(Kind),
    /// The name of a custom section stands earlier in the list too.
    Repeated,
    /// More batches come behind the first one than 255.
    TooMany,
    /// Batches come behind the first one beside a claim, which speaks of one batch.
    NotWithClaim,
    /// The table of an object fails a check, and this is the first.
    Table(TableError),
}

/// What is wrong in a manifest, and where. The path leads from the root, which has the empty one.
#[derive(Debug, Drop)]
pub struct ManifestFault {
    pub path: Seq<Step>,
    pub problem: Problem,
}

/// Why a manifest wasn't read.
#[derive(Debug, Drop, thiserror::Error)]
pub enum ManifestError {
    #[error("{0}")]
    At(ManifestFault),
    #[error("out of memory")]
    Memory,
}

impl From<AllocError> for ManifestError {
    ghost from_gives = { λ _ error. error ≡ Memory };

    fn from(_: AllocError) -> Self {
        ManifestError::Memory
    }
}

impl<T: Drop> From<AllocFailed<T>> for ManifestError {
    ghost from_gives = { λ _ error. error ≡ Memory };

    fn from(_: AllocFailed<T>) -> Self {
        ManifestError::Memory
    }
}

impl fmt::Display for Kind {
    ghost use Rattle.std.specs.Prelude.{Some};
    ghost use Rattle.link_manifest.specs.FaultText.{kind_text};

    ghost output = { λ kind. Some (kind_text kind) };

    fn fmt<W: fmt::Write>(&self, f: &mut fmt::Formatter<W>) -> fmt::Result {
        f.write_str(match self {
            Kind::Object => "object",
            Kind::List => "list",
            Kind::Text => "text",
            Kind::Bytes => "bytes",
            Kind::Bool => "bool",
            Kind::Number => "number",
            Kind::Word => "word",
            Kind::Place => "place",
        })
    }
}

impl fmt::Display for Problem {
    ghost use Rattle.std.specs.Prelude.{Some};
    ghost use Rattle.link_manifest.specs.FaultText.{problem_text};

    ghost output = { λ problem. Some (problem_text problem) };

    fn fmt<W: fmt::Write>(&self, f: &mut fmt::Formatter<W>) -> fmt::Result {
        match self {
            Problem::TooLong => f.write_str("too long"),
            Problem::NotJson => f.write_str("not JSON"),
            Problem::UnknownKey => f.write_str("unknown key"),
            Problem::Missing => f.write_str("missing"),
            Problem::Expected(kind) => write!(f, "expected {kind}"),
            Problem::Repeated => f.write_str("repeated"),
            Problem::TooMany => f.write_str("too many"),
            Problem::NotWithClaim => f.write_str("not with a claim"),
            Problem::Table(error) => write!(f, "{error}"),
        }
    }
}

/// Writes the first step of a path.
fn write_first_step<W: fmt::Write>(f: &mut fmt::Formatter<W>, step: &Step) -> fmt::Result
    ensures { WritesOnOk W.write_str_gives f.old result (first_step_text step.now) f.new }
{
    match step {
        Step::Key(key) => write!(f, "{key}"),
        Step::Item(place) => write!(f, "[{place}]"),
    }
}

/// Writes a step behind others.
fn write_step<W: fmt::Write>(f: &mut fmt::Formatter<W>, step: &Step) -> fmt::Result
    ensures { WritesOnOk W.write_str_gives f.old result (step_text step.now) f.new }
{
    match step {
        Step::Key(key) => write!(f, ".{key}"),
        Step::Item(place) => write!(f, "[{place}]"),
    }
}

/// Writes a path.
fn write_path<W: fmt::Write>(f: &mut fmt::Formatter<W>, path: &[Step]) -> fmt::Result
    ensures { WritesOnOk W.write_str_gives f.old result (path_text path.now) f.new }
{
    let Some((first, others)) = path.split_first() else {
        return Ok(());
    };
    write_first_step(f, first)?;
    for step in others {
        write_step(f, step)?;
    }
    f.write_str(": ")
}

impl fmt::Display for ManifestFault {
    ghost use Rattle.std.specs.Prelude.{Some};
    ghost use Rattle.link_manifest.specs.FaultText.{fault_text};

    ghost output = { λ fault. Some (fault_text fault) };

    fn fmt<W: fmt::Write>(&self, f: &mut fmt::Formatter<W>) -> fmt::Result {
        write_path(f, self.path.as_slice())?;
        let problem = self.problem;
        write!(f, "{problem}")
    }
}
