//! Why a table is refused.

ghost use Rattle.std.specs.Fmt.{WritesOnOk};
ghost use Rattle.link_input.specs.declared.table_error.TableError.TheVariants.{MemberRange, HeaderIsMember};
ghost use Rattle.link_input.specs.TableErrorText.{table_error_text};

use std::alloc::AllocError;
use std::fmt;

/// The first check that the table of an object fails. Symbols, groups and references are told by their places, from 0; each check
/// is over the whole table before the next, in this order, and tells the least place.
#[derive(Clone, Copy, Debug, PartialEq, Eq)]
pub enum TableError {
    /// The platform has a null entry, and entry 0 isn't one.
    NullEntry,
    /// The symbol is undefined and local, and not the null entry.
    UndefinedLocal(usize),
    /// The symbol has no version and is not default.
    VersionlessNotDefault(usize),
    /// The symbol stands in a section that the object lacks.
    SectionRange(usize),
    /// The signature of the group is no symbol of the object.
    SignatureRange(usize),
    /// The header of the group, or a member, is a section that the object lacks.
    MemberRange { group: usize, section: u32 },
    /// The header of the group heads an earlier group too.
    HeaderTwice(usize),
    /// The header of the group is a member of a group.
    HeaderIsMember(usize),
    /// The reference is of a section, or to a symbol, that the object lacks.
    ReferenceRange(usize),
    /// The retained section at this place of their list is one that the object lacks.
    RetainRange(usize),
    /// Memory ran out. It may come in place of any other answer.
    Memory,
}

impl From<AllocError> for TableError {
    ghost use Rattle.std.specs.Prelude.{◌≡◌};
    ghost use Rattle.link_input.specs.declared.table_error.TableError.TheVariants.{Memory};

    ghost from_gives = { λ _ error. error ≡ Memory };

    fn from(_: AllocError) -> Self {
        TableError::Memory
    }
}

/// Says that a group names a section that isn't there.
fn write_member_range<W: fmt::Write>(
    f: &mut fmt::Formatter<W>,
    group: usize,
    section: u32,
) -> fmt::Result
    ensures { WritesOnOk W.write_str_gives f.old result (table_error_text (MemberRange group section)) f.new }
{
    write!(f, "group {group} has no section {section}")
}

/// Says that the header of a group is a member.
fn write_member_header<W: fmt::Write>(f: &mut fmt::Formatter<W>, group: usize) -> fmt::Result
    ensures { WritesOnOk W.write_str_gives f.old result (table_error_text (HeaderIsMember group)) f.new }
{
    write!(f, "group {group} has a header that is a member")
}

impl fmt::Display for TableError {
    ghost use Rattle.std.specs.Prelude.{Some};
    ghost use Rattle.link_input.specs.TableErrorText.{table_error_text};

    ghost output = { λ error. Some (table_error_text error) };

    fn fmt<W: fmt::Write>(&self, f: &mut fmt::Formatter<W>) -> fmt::Result {
        match self {
            TableError::NullEntry => f.write_str("entry 0 is not null"),
            TableError::UndefinedLocal(symbol) => {
                write!(f, "symbol {symbol} is undefined and local")
            }
            TableError::VersionlessNotDefault(symbol) => {
                write!(f, "symbol {symbol} has no version and is not default")
            }
            TableError::SectionRange(symbol) => write!(f, "symbol {symbol} has no such section"),
            TableError::SignatureRange(group) => write!(f, "group {group} has no such signature"),
            TableError::MemberRange { group, section } => write_member_range(f, *group, *section),
            TableError::HeaderTwice(group) => write!(f, "group {group} repeats a header"),
            TableError::HeaderIsMember(group) => write_member_header(f, *group),
            TableError::ReferenceRange(reference) => {
                write!(f, "section reference {reference} is out of range")
            }
            TableError::RetainRange(place) => {
                write!(f, "retained section {place} is out of range")
            }
            TableError::Memory => f.write_str("out of memory"),
        }
    }
}
