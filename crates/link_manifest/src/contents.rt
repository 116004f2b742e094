//! What a manifest says, before any table of it is checked; no platform stands in its type.

use link_check_claims::Claim;
use link_input::{Modifiers, ObjectTable, Options, ProcessedLinkerScript, Scripts, StubLibrary};
use link_names::{Name, Seq};
use std::marker::Model;

/// An object whose table is not checked. A contract sees the name of its file, the table and the modifiers.
#[derive(Drop)]
pub(crate) struct UncheckedObject {
    pub(crate) input: Name,
    pub(crate) table: ObjectTable,
    pub(crate) modifiers: Modifiers,
}

impl Model for UncheckedObject {
    ghost use Rattle.link_input.specs.ObjectFile.{ObjectFile};

    ghost Value = { ObjectFile };

    ghost view = { λ o. record { input = o.input; object = o.table; modifiers = o.modifiers } };
}

/// The files of a batch, whose tables are not checked.
#[derive(Drop)]
pub(crate) struct UncheckedBatch {
    pub(crate) objects: Seq<UncheckedObject>,
    pub(crate) scripts: Seq<ProcessedLinkerScript>,
    pub(crate) stubs: Seq<StubLibrary>,
}

/// What the root says.
#[derive(Drop)]
pub(crate) struct Contents {
    pub(crate) options: Options,
    pub(crate) texts: Scripts,
    /// The files of the first batch, which stand at the root itself.
    pub(crate) first: UncheckedBatch,
    pub(crate) later: Seq<UncheckedBatch>,
    pub(crate) claim: Option<Claim>,
}
