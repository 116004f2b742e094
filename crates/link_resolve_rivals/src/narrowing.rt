//! The strictest visibility of a list of rivals counts for each of its symbols.

ghost use Rattle.std.specs.Prelude.{◌≡◌, ◌<◌, ◌≤◌, ◌^◌, ◌∷◌, ℕ, ◌==◌, All, false, if◌then◌else◌, length, map, slice_index};
ghost use Rattle.link_flags.specs.FlagWords.{numbers_of, words_of};
ghost use Rattle.link_input.specs.Symbols.{visibility_in};
ghost use Rattle.link_rules.specs.Marking.{visibility_flags};
ghost use Rattle.link_rules.specs.Places.{contains};
ghost use Rattle.link_rules.specs.Visibility.{strictest};
ghost use Rattle.link_rules.specs.World.{Stage};
ghost use Rattle.link_resolve_rivals.specs.Lists.{AreLists};
ghost use Rattle.link_resolve_rivals.specs.Narrowed.{AreSeen, joined_unless, narrowed, narrowed_on};

use crate::lists::RivalLists;
use bitflags::Flags;
use link_flags::{PerSymbolFlags, RawFlags, ValueFlags, Visibility};
use link_ids::SymbolId;

/// Makes each symbol of a list of rivals as visible as the strictest of them, loaded or not, but for those that a shared file gives: they
/// get the flags of that visibility. Takes no memory.
pub fn narrow<L: RivalLists>(
    lists: &L,
    visibilities: &[Visibility],
    dynamic: &[bool],
    flags: &mut PerSymbolFlags,
)
    requires lists { AreLists (L.listed lists.now) (length dynamic.now) }
    requires count { L.count lists.now ≡ length dynamic.now }
    requires visibilities { length visibilities.now ≡ length dynamic.now }
    requires flags { length (words_of flags.old) ≡ length dynamic.now }
    requires numbers { length dynamic.now ≤ 2 ^ 32 }
    ensures flags { (w : Stage) → AreSeen visibilities.now dynamic.now w
        → numbers_of (words_of flags.new) ≡ narrowed w (L.listed lists.now) (numbers_of (words_of flags.old)) }
    ensures len { length (words_of flags.new) ≡ length (words_of flags.old) }
{
    narrow_words(lists, visibilities, dynamic, flags.flags_mut());
}

/// The same of the words that keep the flags.
fn narrow_words<L: RivalLists>(
    lists: &L,
    visibilities: &[Visibility],
    dynamic: &[bool],
    words: &mut [RawFlags],
)
    requires lists { AreLists (L.listed lists.now) (length dynamic.now) }
    requires count { L.count lists.now ≡ length dynamic.now }
    requires visibilities { length visibilities.now ≡ length dynamic.now }
    requires flags { length words.old ≡ length dynamic.now }
    requires numbers { length dynamic.now ≤ 2 ^ 32 }
    ensures { (w : Stage) → AreSeen visibilities.now dynamic.now w
        → numbers_of words.new ≡ narrowed w (L.listed lists.now) (numbers_of words.old) }
{
    for number in 0..words.len() {
        let head = SymbolId::from_usize(number);
        narrow_head(lists, visibilities, dynamic, head, words);
    }
}

/// Narrows the list that begins with this symbol, if there is one.
fn narrow_head<L: RivalLists>(
    lists: &L,
    visibilities: &[Visibility],
    dynamic: &[bool],
    head: SymbolId,
    words: &mut [RawFlags],
)
    requires lists { AreLists (L.listed lists.now) (length dynamic.now) }
    requires count { L.count lists.now ≡ length dynamic.now }
    requires visibilities { length visibilities.now ≡ length dynamic.now }
    requires flags { length words.old ≡ length dynamic.now }
    requires head { head < length dynamic.now }
    ensures { (w : Stage) → AreSeen visibilities.now dynamic.now w → (s : ℕ)
        → slice_index (numbers_of words.new) s ≡ narrowed_on w (L.listed lists.now head) head s (slice_index (numbers_of words.old) s) }
{
    let later = lists.later(head);
    if !later.is_empty() {
        let bits = flags_of(strictest_of(visibilities, head, later));
        join_flags(dynamic, bits, head, later, words);
    }
}

/// The strictest visibility of a list.
fn strictest_of(visibilities: &[Visibility], head: SymbolId, later: &[u32]) -> Visibility
    requires head { head < length visibilities.now }
    requires later { All (λ s. s < length visibilities.now) later.now }
    ensures { (w : Stage) → visibilities.now ≡ map (λ x. visibility_in x.origin) w.symbols → result ≡ strictest w (head ∷ later.now) }
{
    let mut strictest = visibilities[head.as_usize()];
    for symbol in later {
        strictest = strictest.strictest(visibilities[*symbol as usize]);
    }
    strictest
}

/// The flags that a visibility gives to symbols of regular files.
fn flags_of(visibility: Visibility) -> ValueFlags
    ensures { result.0 ≡ visibility_flags visibility false }
{
    match visibility {
        Visibility::Default => ValueFlags::empty(),
        Visibility::Protected => ValueFlags::NON_INTERPOSABLE,
        Visibility::Hidden => ValueFlags::NON_INTERPOSABLE.union(ValueFlags::DOWNGRADE_TO_LOCAL),
    }
}

/// Adds flags to each symbol of a list, but for the dynamic ones.
fn join_flags(
    dynamic: &[bool],
    bits: ValueFlags,
    head: SymbolId,
    later: &[u32],
    words: &mut [RawFlags],
)
    requires head { head < length dynamic.now }
    requires later { All (λ s. s < length dynamic.now) later.now }
    requires flags { length words.old ≡ length dynamic.now }
    ensures { (s : ℕ) → slice_index (numbers_of words.new) s
        ≡ (if contains s (head ∷ later.now) then joined_unless dynamic.now bits.0 s (slice_index (numbers_of words.old) s) else slice_index (numbers_of words.old) s) }
{
    join_word(dynamic, bits, head.as_usize(), words);
    for symbol in later {
        join_word(dynamic, bits, *symbol as usize, words);
    }
}

/// Adds flags to a symbol, unless it is dynamic.
fn join_word(dynamic: &[bool], bits: ValueFlags, at: usize, words: &mut [RawFlags])
    requires at { at < length dynamic.now }
    requires flags { length words.old ≡ length dynamic.now }
    ensures { (s : ℕ) → slice_index (numbers_of words.new) s
        ≡ (if at == s then joined_unless dynamic.now bits.0 s (slice_index (numbers_of words.old) s) else slice_index (numbers_of words.old) s) }
{
    if !dynamic[at] {
        words[at] = words[at].get().union(bits).raw();
    }
}
