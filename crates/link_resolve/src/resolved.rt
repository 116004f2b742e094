//! What is known of a link once it is known which objects are loaded.

ghost use Rattle.std.specs.Prelude.{◌≡◌, ℕ, ◌<◌, [], OnErr, OnOk, length};
ghost use Rattle.link_rules.specs.Selection.{Selection, surviving_strength};
ghost use Rattle.link_db_symbols.specs.Lookups.{AreBelow};
ghost use Rattle.link_resolve_extraction.specs.Answer.{AreFoundBelow, AreTargetsRead};

use link_flags::SymbolStrength;
use link_ids::SymbolId;
use link_resolve_extraction::{FoundItem, write_targets};
use std::alloc::{AllocError, Global};
use std::marker::Model;

/// What is known of a link once it is known which objects are loaded: a mark for each object, by its place, and for each symbol, by its
/// id, what it stands for as a reference of a loaded object, and how strongly it binds now. Mirrors what Wild's resolver hands on. A contract sees
/// a `Known`.
#[derive(Drop)]
pub struct Resolved {
    loaded: Vec<bool>,
    targets: Vec<Option<SymbolId>>,
    strengths: Vec<SymbolStrength>,
}

impl Model for Resolved {
    ghost use Rattle.link_resolve.specs.Known.{Known};

    ghost Value = { Known };

    ghost view = { λ r. record { marks = r.loaded.items; targets = r.targets.items; strengths = r.strengths.items } };
}

impl Resolved {
    /// All of this.
    pub fn new(
        loaded: Vec<bool>,
        targets: Vec<Option<SymbolId>>,
        strengths: Vec<SymbolStrength>,
    ) -> Self
        ensures { result ≡ record { marks = loaded.items; targets = targets.items; strengths = strengths.items } }
    {
        Resolved {
            loaded,
            targets,
            strengths,
        }
    }

    /// A batch more had these objects loaded of a link with so many symbols, and this was found in their items; how strongly symbols bind is not known
    /// yet. The only refusal is want of memory, and then all is as before.
    pub(crate) fn add_batch(
        &mut self,
        alloc: Global,
        loaded: Vec<bool>,
        symbols: usize,
        found: &[Option<FoundItem>],
    ) -> Result<(), AllocError>
        ensures marks { OnOk result (self.new.marks ≡ loaded.items) }
        ensures targets { OnOk result (AreTargetsRead symbols self.old.targets found.now self.new.targets) }
        ensures below { OnOk result ((n : ℕ) → AreBelow n self.old.targets → AreFoundBelow n found.now → AreBelow n self.new.targets) }
        ensures strengths { OnOk result (self.new.strengths ≡ []) }
        ensures unchanged { OnErr result (self.new ≡ self.old) }
    {
        write_targets(&mut self.targets, symbols, found)?;
        self.loaded = loaded;
        self.strengths = Vec::new(alloc);
        Ok(())
    }

    /// Symbols bind so strongly.
    pub(crate) fn set_strengths(&mut self, strengths: Vec<SymbolStrength>)
        ensures { self.new ≡ record self.old { strengths = strengths.items } }
    {
        self.strengths = strengths;
    }

    /// A mark for each loaded object, by its place among all objects of the link.
    pub fn loaded(&self) -> &[bool]
        ensures { result.now ≡ self.now.marks }
    {
        &self.loaded
    }

    /// What each reference of a loaded object stands for, by its id.
    pub fn targets(&self) -> &[Option<SymbolId>]
        ensures { result.now ≡ self.now.targets }
    {
        &self.targets
    }

    /// How strongly each symbol binds now, by its id.
    pub fn strengths(&self) -> &[SymbolStrength]
        ensures { result.now ≡ self.now.strengths }
    {
        &self.strengths
    }
}

/// How strongly the symbol binds now: not at all in an object that isn't loaded, or in a section that is left out.
pub fn resolved_symbol_strength(id: SymbolId, resolved: &Resolved) -> SymbolStrength
    requires { id < length resolved.now.strengths }
    ensures { (l : Selection) → l.strengths ≡ resolved.now.strengths → result ≡ surviving_strength l id }
{
    resolved.strengths()[id.as_usize()]
}
