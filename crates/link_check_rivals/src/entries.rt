//! Which entry of a list of definitions counts, and whether two of them clash.

ghost use Rattle.std.specs.Prelude.{◌≡◌};

use crate::loaded::LoadedSymbols;
use link_flags::SymbolPrioritySelector;
use link_ids::SymbolId;

impl<'n, 'a> LoadedSymbols<'n, 'a> {
    ghost use Rattle.std.specs.Prelude.{◌≡◌, ◌==◌, find, not};
    ghost use Rattle.link_flags.specs.Pick.{pick};
    ghost use Rattle.link_rules.specs.Places.{first_of};
    ghost use Rattle.link_rules.specs.Rivals.{choice, clash, is_held, is_surviving, preferred_entry, static_candidates};
    ghost use Rattle.link_rules.specs.Selection.{Selection};
    ghost use Rattle.link_check_rivals.specs.Lists.{after_static, is_strong_beside, strong_entries};
    ghost use Rattle.link_check_rivals.specs.Told.{Tells};

    /// Considers an entry, if no shared file gives it.
    fn consider_static(&self, selector: &mut SymbolPrioritySelector, id: SymbolId)
        ensures { (l : Selection) → Tells self.now l → selector.new ≡ after_static l selector.old id }
    {
        if !self.is_shared(id) {
            selector.consider(id, self.strength(id));
        }
    }

    /// The pick of the entries that no shared file gives.
    fn pick(&self, entries: &[SymbolId]) -> Option<SymbolId>
        ensures { (l : Selection) → Tells self.now l → result ≡ pick l.stage.rules.weak_overrides_common (static_candidates l entries.now) }
    {
        let mut selector = SymbolPrioritySelector::new();
        for entry in entries {
            self.consider_static(&mut selector, *entry);
        }
        selector.best(self.weak_overrides_common)
    }

    /// The first entry of which something is left.
    fn first_surviving(&self, entries: &[SymbolId]) -> Option<SymbolId>
        ensures { (l : Selection) → Tells self.now l → result ≡ find (is_surviving l) entries.now }
    {
        for entry in entries {
            if self.is_surviving(*entry) {
                return Some(*entry);
            }
        }
        None
    }

    /// The first entry that a loaded object holds which is not shared.
    fn first_held(&self, entries: &[SymbolId]) -> Option<SymbolId>
        ensures { (l : Selection) → Tells self.now l → result ≡ find (is_held l) entries.now }
    {
        for entry in entries {
            if self.is_held(*entry) {
                return Some(*entry);
            }
        }
        None
    }

    /// The entry that is preferred to the head of its list.
    fn preferred(&self, entries: &[SymbolId]) -> Option<SymbolId>
        ensures { (l : Selection) → Tells self.now l → result ≡ preferred_entry l entries.now }
    {
        if let Some(id) = self.pick(entries) {
            return Some(id);
        }
        if let Some(id) = self.first_surviving(entries) {
            return Some(id);
        }
        self.first_held(entries)
    }

    /// The entry that counts, the head where none is preferred.
    pub(crate) fn choice(&self, entries: &[SymbolId], head: SymbolId) -> SymbolId
        ensures { (l : Selection) → Tells self.now l → result ≡ choice l entries.now head }
    {
        match self.preferred(entries) {
            Some(id) => id,
            None => head,
        }
    }

    /// The first strong entry that no shared file gives.
    fn first_strong(&self, entries: &[SymbolId]) -> Option<SymbolId>
        ensures { (l : Selection) → Tells self.now l → result ≡ first_of (strong_entries l entries.now) }
    {
        for entry in entries {
            if self.is_strong(*entry) {
                return Some(*entry);
            }
        }
        None
    }

    /// It is strong, no shared file gives it, and it is not this one.
    fn is_strong_beside(&self, first: SymbolId, id: SymbolId) -> bool
        ensures { (l : Selection) → Tells self.now l → result ≡ is_strong_beside l first id }
    {
        self.is_strong(id) && id != first
    }

    /// The first strong entry that is not this one.
    fn strong_beside(&self, first: SymbolId, entries: &[SymbolId]) -> Option<SymbolId>
        ensures { (l : Selection) → Tells self.now l → result ≡ find (λ s. not (s == first)) (strong_entries l entries.now) }
    {
        for entry in entries {
            if self.is_strong_beside(first, *entry) {
                return Some(*entry);
            }
        }
        None
    }

    /// Two different strong entries, where that is not allowed.
    pub(crate) fn clash(&self, entries: &[SymbolId]) -> Option<(SymbolId, SymbolId)>
        ensures { (l : Selection) → Tells self.now l → result ≡ clash l entries.now }
    {
        if self.allow_multiple {
            return None;
        }
        let first = self.first_strong(entries)?;
        let second = self.strong_beside(first, entries)?;
        Some((first, second))
    }
}
