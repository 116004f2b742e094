//! The choice among the definitions of a name.

ghost use Rattle.std.specs.Prelude.{◌≡◌, List};
ghost use Rattle.link_flags.specs.Pick.{Candidate, pick};
ghost use Rattle.link_flags.specs.Selector.{after, considered, nothing};

use crate::strength::SymbolStrength;
use link_ids::SymbolId;

/// Picks one of the definitions of a name, which it is shown one after another. Mirrors Wild's
/// `SymbolPrioritySelector`.
#[derive(Clone, Copy, Debug, PartialEq, Eq)]
pub struct SymbolPrioritySelector {
    strong: Option<SymbolId>,
    weak: Option<SymbolId>,
    common: Option<(SymbolId, u64)>,
}

impl SymbolPrioritySelector {
    ghost use Rattle.link_flags.specs.Pick.{first_strong};
    ghost use Rattle.link_flags.specs.Selector.{selected};

    /// Before any symbol was considered.
    pub fn new() -> Self
        ensures { result ≡ nothing }
    {
        SymbolPrioritySelector {
            strong: None,
            weak: None,
            common: None,
        }
    }

    /// Considers one symbol more.
    pub fn consider(&mut self, id: SymbolId, strength: SymbolStrength)
        ensures { self.new ≡ after self.old (id, strength) }
    {
        match strength {
            SymbolStrength::Undefined => {}
            SymbolStrength::Strong => {
                if self.strong.is_none() {
                    self.strong = Some(id);
                }
            }
            SymbolStrength::Weak | SymbolStrength::GnuUnique => {
                if self.weak.is_none() {
                    self.weak = Some(id);
                }
            }
            SymbolStrength::Common(size) => match self.common {
                Some((_, largest)) if size <= largest => {}
                _ => self.common = Some((id, size)),
            },
        }
    }

    /// The definition that counts: the first strong one, else the largest tentative one, the first of equals, else the
    /// first weak one. `weak_over_common` puts weak ones before tentative ones. None where no symbol defines the name.
    pub fn best(&self, weak_over_common: bool) -> Option<SymbolId>
        ensures { (candidates : List Candidate) → self.now ≡ considered candidates → result ≡ pick weak_over_common candidates }
    {
        self.selected(weak_over_common)
    }

    /// What counts of what is known.
    fn selected(&self, weak_over_common: bool) -> Option<SymbolId>
        ensures { result ≡ selected weak_over_common self.now }
    {
        if self.strong.is_some() {
            return self.strong;
        }
        let common = self.common.map(|pair| pair.0);
        if weak_over_common {
            self.weak.or(common)
        } else {
            common.or(self.weak)
        }
    }

    /// The first strong definition.
    pub fn first_strong(&self) -> Option<SymbolId>
        ensures { (candidates : List Candidate) → self.now ≡ considered candidates → result ≡ first_strong candidates }
    {
        self.strong
    }
}

impl Default for SymbolPrioritySelector {
    ghost is_default = { λ s. s ≡ nothing };

    fn default() -> Self {
        SymbolPrioritySelector::new()
    }
}
