//! The flags that references give to what they stand for, and flags joined with others.

ghost use Rattle.std.specs.Prelude.{◌≡◌, ◌∷◌, []};
ghost use Rattle.link_flags.specs.FlagBits as flag;
ghost use Rattle.link_flags.specs.FlagWords.{numbers_of, words_of};
ghost use Rattle.link_rules.specs.Marking.{reference_flags, visibility_flags};
ghost use Rattle.link_resolve_marks.specs.Marks.{mark_on, with_marks};

use bitflags::Flags;
use link_db_symbols::SymbolView;
use link_flags::{PerSymbolFlags, RawFlags, ValueFlags, Visibility};
use link_ids::SymbolId;

/// What a visibility makes of a symbol.
fn flags_of(visibility: Visibility, is_dynamic: bool) -> ValueFlags
    ensures { result.0 ≡ visibility_flags visibility is_dynamic }
{
    match visibility {
        Visibility::Default => ValueFlags::empty(),
        Visibility::Protected if is_dynamic => ValueFlags::empty(),
        Visibility::Protected => ValueFlags::NON_INTERPOSABLE,
        Visibility::Hidden => ValueFlags::NON_INTERPOSABLE.union(ValueFlags::DOWNGRADE_TO_LOCAL),
    }
}

/// What a reference gives to what it stands for: that it is referred to, and, by the visibility of the reference, that it can't be interposed
/// or is local. A symbol that a shared file gives isn't bound by a protected reference.
pub fn reference_flags(reference: &SymbolView, is_dynamic: bool) -> ValueFlags
    ensures { result.0 ≡ reference_flags reference.now is_dynamic }
{
    ValueFlags::HAS_NON_IR_REF.union(flags_of(reference.visibility(), is_dynamic))
}

/// Joins the flags of a symbol, if it has a word, with others.
fn mark(words: &mut [RawFlags], symbol: SymbolId, flags: ValueFlags)
    ensures { numbers_of words.new ≡ with_marks (mark_on symbol flags.0 ∷ []) (numbers_of words.old) }
{
    let at = symbol.as_usize();
    if at < words.len() {
        words[at] = words[at].get().union(flags).raw();
    }
}

/// Joins the flags of a symbol, if it has a word, with others. Takes no memory.
pub fn mark_symbol(symbol: SymbolId, bits: ValueFlags, flags: &mut PerSymbolFlags)
    ensures flags { numbers_of (words_of flags.new) ≡ with_marks (mark_on symbol bits.0 ∷ []) (numbers_of (words_of flags.old)) }
{
    mark(flags.flags_mut(), symbol, bits);
}
