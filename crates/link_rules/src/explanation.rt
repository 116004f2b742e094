//! Why the objects of a link are loaded, and which of several definitions of a name counts: what an explanation is made of.

use link_ids::SymbolId;
use link_names::{Name, Seq};

/// An object that was loaded for a root name as a batch came, since it held what the name was mapped to then: the name, and the place
/// of the object among all objects of the link, from 0.
#[derive(Debug, Drop)]
pub struct FoundRoot {
    pub name: Name,
    pub object: usize,
}

/// Why an object is loaded.
#[derive(Debug, Drop)]
pub enum Reason {
    /// It is loaded in any case: no archive member, or one of an archive that is loaded whole.
    Required,
    /// With some batch it held what this root name was mapped to: the entry, a required export, a forced name, or one that a redirect
    /// refers to.
    Root(Name),
    /// A reference of a loaded object asks for it, one step nearer to what is loaded without any. Mirrors lld's `--why-extract`.
    Reference {
        /// The id of the reference.
        symbol: SymbolId,
        /// The place of its object among all objects of the link, from 0.
        object: usize,
    },
}

/// A loaded object, by its place among all objects of the link, from 0, and why it is loaded.
#[derive(Debug, Drop)]
pub struct LoadedReason {
    pub object: usize,
    pub reason: Reason,
}

/// Why a definition counts among several: the first of these cases that holds.
#[derive(Clone, Copy, Debug, PartialEq, Eq)]
pub enum ChoiceCase {
    /// It is the first strong one that no shared file gives.
    Strong,
    /// It is the largest tentative one that no shared file gives.
    Common,
    /// It is the first weak or unique one that no shared file gives.
    Weak,
    /// It is the first of which something is left.
    Surviving,
    /// It is the first that a loaded regular object holds.
    Loaded,
    /// It is the first of all.
    First,
}

/// The definitions of a name, or of a name and version, two or more, and which of them counts.
#[derive(Debug, Drop)]
pub struct NameChoice {
    /// The definitions, in the order of their ids. The name, and the version, are those of the first.
    pub symbols: Seq<SymbolId>,
    /// These are the definitions of a name and version.
    pub is_versioned: bool,
    /// What counts: one of the definitions, or what one stands for whose plain name is settled.
    pub chosen: SymbolId,
    pub case: ChoiceCase,
}

/// Why the objects of a link are loaded, in their order, and which of several definitions of a name counts: first the choices
/// among the definitions of plain names, then those among the definitions of a name and version, each in the order of the first
/// definitions.
#[derive(Debug, Drop)]
pub struct Explanation {
    pub reasons: Seq<LoadedReason>,
    pub choices: Seq<NameChoice>,
}
