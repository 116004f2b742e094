//! What is left of each symbol once it is known which objects are loaded.

ghost use Rattle.std.specs.Prelude.{◌≡◌, length};
ghost use Rattle.link_rules.specs.Choices.{case_of_strength};

use link_flags::{SymbolPrioritySelector, SymbolStrength};
use link_ids::SymbolId;
use link_rules::ChoiceCase;

/// What is known of symbols by their ids once it is known which objects are loaded, with the settings that say which counts.
#[derive(Clone, Copy)]
pub struct Survivors<'a> {
    /// How strongly each symbol binds now.
    pub strengths: &'a [SymbolStrength],
    /// Whether a shared file gives it.
    pub dynamic: &'a [bool],
    /// Whether a loaded regular object holds it.
    pub held: &'a [bool],
    /// Weak definitions come before tentative ones.
    pub weak_overrides_common: bool,
    /// Several strong definitions of a name are allowed.
    pub allow_multiple: bool,
    ghost dynamic_length: { length dynamic.now ≡ length strengths.now },
    ghost held_length: { length held.now ≡ length strengths.now },
}

impl<'a> Survivors<'a> {
    ghost use Rattle.std.specs.Prelude.{◌≡◌, ◌<◌, ◌&&◌, ◌==◌, All, IfSome, find, length, not, option_map};
    ghost use Rattle.std.specs.Option.{option_map_or};
    ghost use Rattle.link_flags.specs.Pick.{is_strong, pick};
    ghost use Rattle.link_flags.specs.Selector.{after};
    ghost use Rattle.link_rules.specs.Choices.{choice_case};
    ghost use Rattle.link_rules.specs.Places.{first_of};
    ghost use Rattle.link_rules.specs.Rivals.{choice, clash, is_held, is_surviving, preferred_entry, static_candidates};
    ghost use Rattle.link_rules.specs.Selection.{Selection, is_dynamic, surviving_strength};
    ghost use Rattle.link_resolve_rivals.specs.Survivors.{Tells, strong_entries};

    /// A shared file gives the symbol.
    pub(crate) fn is_dynamic(&self, id: SymbolId) -> bool
        requires { id < length self.now.strengths.now }
        ensures { (l : Selection) → Tells self.now l → result ≡ is_dynamic l id }
    {
        self.dynamic[id.as_usize()]
    }

    /// How strongly the symbol binds now.
    fn strength(&self, id: SymbolId) -> SymbolStrength
        requires { id < length self.now.strengths.now }
        ensures { (l : Selection) → Tells self.now l → result ≡ surviving_strength l id }
    {
        self.strengths[id.as_usize()]
    }

    /// A loaded regular object holds the symbol.
    fn is_held(&self, id: SymbolId) -> bool
        requires { id < length self.now.strengths.now }
        ensures { (l : Selection) → Tells self.now l → result ≡ is_held l id }
    {
        self.held[id.as_usize()]
    }

    /// Something is left of the symbol.
    fn is_surviving(&self, id: SymbolId) -> bool
        requires { id < length self.now.strengths.now }
        ensures { (l : Selection) → Tells self.now l → result ≡ is_surviving l id }
    {
        match self.strength(id) {
            SymbolStrength::Undefined => false,
            SymbolStrength::Weak
            | SymbolStrength::GnuUnique
            | SymbolStrength::Strong
            | SymbolStrength::Common(_) => true,
        }
    }

    /// The symbol is strong, and no shared file gives it.
    fn is_strong(&self, id: SymbolId) -> bool
        requires { id < length self.now.strengths.now }
        ensures { (l : Selection) → Tells self.now l → result ≡ (not (is_dynamic l id) && is_strong (surviving_strength l id)) }
    {
        !self.is_dynamic(id) && matches!(self.strength(id), SymbolStrength::Strong)
    }

    /// The pick of the entries that no shared file gives.
    fn pick(&self, entries: &[SymbolId]) -> Option<SymbolId>
        requires { All (λ e. e < length self.now.strengths.now) entries.now }
        ensures value { (l : Selection) → Tells self.now l
            → result ≡ pick l.stage.rules.weak_overrides_common (static_candidates l entries.now) }
        ensures inside { IfSome result (λ id. id < length self.now.strengths.now) }
    {
        let mut selector = SymbolPrioritySelector::new();
        for entry in entries {
            if !self.is_dynamic(*entry) {
                selector.consider(*entry, self.strength(*entry));
            }
        }
        selector.best(self.weak_overrides_common)
    }

    /// The first entry of which something is left.
    fn first_surviving(&self, entries: &[SymbolId]) -> Option<SymbolId>
        requires { All (λ e. e < length self.now.strengths.now) entries.now }
        ensures value { (l : Selection) → Tells self.now l → result ≡ find (is_surviving l) entries.now }
        ensures inside { IfSome result (λ id. id < length self.now.strengths.now) }
    {
        for entry in entries {
            if self.is_surviving(*entry) {
                return Some(*entry);
            }
        }
        None
    }

    /// The first entry that a loaded regular object holds.
    fn first_held(&self, entries: &[SymbolId]) -> Option<SymbolId>
        requires { All (λ e. e < length self.now.strengths.now) entries.now }
        ensures value { (l : Selection) → Tells self.now l → result ≡ find (is_held l) entries.now }
        ensures inside { IfSome result (λ id. id < length self.now.strengths.now) }
    {
        for entry in entries {
            if self.is_held(*entry) {
                return Some(*entry);
            }
        }
        None
    }

    /// The entry of a list that is preferred to its head, with the first case that holds: the pick of those that no shared file gives, else the
    /// first of which something is left, else the first that a loaded regular object holds.
    fn preferred(&self, entries: &[SymbolId]) -> Option<(SymbolId, ChoiceCase)>
        requires { All (λ e. e < length self.now.strengths.now) entries.now }
        ensures value { (l : Selection) → Tells self.now l → option_map (λ found. found.0) result ≡ preferred_entry l entries.now }
        ensures case { (l : Selection) → Tells self.now l → option_map_or (λ found. found.1) result ChoiceCase.First ≡ choice_case l entries.now }
        ensures inside { IfSome result (λ found. found.0 < length self.now.strengths.now) }
    {
        if let Some(id) = self.pick(entries) {
            return Some((id, case_of(self.strength(id))));
        }
        if let Some(id) = self.first_surviving(entries) {
            return Some((id, ChoiceCase::Surviving));
        }
        if let Some(id) = self.first_held(entries) {
            return Some((id, ChoiceCase::Loaded));
        }
        None
    }

    /// The entry of a list that counts: the pick of those that no shared file gives, else the first of which something is left, else the
    /// first that a loaded regular object holds, else the head.
    pub fn choice(&self, entries: &[SymbolId], head: SymbolId) -> SymbolId
        requires entries { All (λ e. e < length self.now.strengths.now) entries.now }
        requires head { head < length self.now.strengths.now }
        ensures value { (l : Selection) → Tells self.now l → result ≡ choice l entries.now head }
        ensures inside { result < length self.now.strengths.now }
    {
        match self.preferred(entries) {
            Some((id, _)) => id,
            None => head,
        }
    }

    /// Why that entry counts: the first case that holds.
    pub fn case(&self, entries: &[SymbolId]) -> ChoiceCase
        requires { All (λ e. e < length self.now.strengths.now) entries.now }
        ensures { (l : Selection) → Tells self.now l → result ≡ choice_case l entries.now }
    {
        match self.preferred(entries) {
            Some((_, case)) => case,
            None => ChoiceCase::First,
        }
    }

    /// The first strong entry.
    fn first_strong(&self, entries: &[SymbolId]) -> Option<SymbolId>
        requires { All (λ e. e < length self.now.strengths.now) entries.now }
        ensures value { (l : Selection) → Tells self.now l → result ≡ first_of (strong_entries l entries.now) }
        ensures inside { IfSome result (λ id. id < length self.now.strengths.now) }
    {
        for entry in entries {
            if self.is_strong(*entry) {
                return Some(*entry);
            }
        }
        None
    }

    /// The first strong entry that is not this one.
    fn strong_beside(&self, first: SymbolId, entries: &[SymbolId]) -> Option<SymbolId>
        requires { All (λ e. e < length self.now.strengths.now) entries.now }
        ensures value { (l : Selection) → Tells self.now l → result ≡ find (λ s. not (s == first)) (strong_entries l entries.now) }
        ensures inside { IfSome result (λ id. id < length self.now.strengths.now) }
    {
        for entry in entries {
            if self.is_strong(*entry) && *entry != first {
                return Some(*entry);
            }
        }
        None
    }

    /// Two different strong entries of a list, where that is not allowed.
    pub fn clash(&self, entries: &[SymbolId]) -> Option<(SymbolId, SymbolId)>
        requires { All (λ e. e < length self.now.strengths.now) entries.now }
        ensures value { (l : Selection) → Tells self.now l → result ≡ clash l entries.now }
        ensures inside { IfSome result (λ pair. (pair.0 < length self.now.strengths.now) × (pair.1 < length self.now.strengths.now)) }
    {
        if self.allow_multiple {
            return None;
        }
        let first = self.first_strong(entries)?;
        let second = self.strong_beside(first, entries)?;
        Some((first, second))
    }
}

/// The case of what is picked by how strongly it binds.
fn case_of(strength: SymbolStrength) -> ChoiceCase
    ensures { result ≡ case_of_strength strength }
{
    match strength {
        SymbolStrength::Undefined => ChoiceCase::First,
        SymbolStrength::Weak | SymbolStrength::GnuUnique => ChoiceCase::Weak,
        SymbolStrength::Strong => ChoiceCase::Strong,
        SymbolStrength::Common(_) => ChoiceCase::Common,
    }
}
