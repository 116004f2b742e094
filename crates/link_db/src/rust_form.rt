//! What a version script of the Rust form makes of flags.

ghost use Rattle.std.specs.Prelude.{◌≡◌, ◌<◌, [], ◌∷◌, length, map};
ghost use Rattle.link_flags.specs.FlagBits as flag;
ghost use Rattle.link_flags.specs.FlagWords.{numbers_of, words_of};
ghost use Rattle.link_rules.specs.Flags.{flags_if, without_flag};
ghost use Rattle.link_rules.specs.Places.{each_from};
ghost use Rattle.link_rules.specs.Visibility.{closed_if_local};
ghost use Rattle.link_db.specs.RustForm.{freed};

use bitflags::Flags;
use link_flags::{PerSymbolFlags, RawFlags, ValueFlags};
use link_ids::SymbolId;

/// The word of a symbol that is local no more.
fn freed(word: RawFlags) -> RawFlags
    ensures { result.0 ≡ without_flag word.0 flag.downgrade_to_local }
{
    let kept = ValueFlags::all().difference(ValueFlags::DOWNGRADE_TO_LOCAL);
    word.get().intersection(kept).raw()
}

/// What closes a symbol, if it is local.
fn closing(is_local: bool) -> ValueFlags
    ensures { result.0 ≡ flags_if is_local flag.non_interposable }
{
    if is_local {
        ValueFlags::NON_INTERPOSABLE
    } else {
        ValueFlags::empty()
    }
}

/// The word of a symbol whose place no other file may take if it stays local.
fn closed(word: RawFlags) -> RawFlags
    ensures { result.0 ≡ closed_if_local word.0 }
{
    let flags = word.get();
    flags.union(closing(flags.is_downgraded_to_local())).raw()
}

/// A symbol is local no more.
pub fn free_symbol(flags: &mut PerSymbolFlags, id: SymbolId)
    requires { id < length (words_of flags.old) }
    ensures numbers { numbers_of (words_of flags.new) ≡ each_from (freed (id ∷ [])) 0 (numbers_of (words_of flags.old)) }
    ensures len { length (words_of flags.new) ≡ length (words_of flags.old) }
{
    free_word(flags.flags_mut(), id.as_usize());
}

/// The word at this place is that of a symbol that is local no more.
fn free_word(words: &mut [RawFlags], at: usize)
    requires { at < length words.old }
    ensures { numbers_of words.new ≡ each_from (freed (at ∷ [])) 0 (numbers_of words.old) }
{
    words[at] = freed(words[at]);
}

/// No other file may take the place of what stays local.
pub fn close_local(flags: &mut PerSymbolFlags)
    ensures numbers { numbers_of (words_of flags.new) ≡ map closed_if_local (numbers_of (words_of flags.old)) }
    ensures len { length (words_of flags.new) ≡ length (words_of flags.old) }
{
    close_words(flags.flags_mut());
}

/// The same of words.
fn close_words(words: &mut [RawFlags])
    ensures { numbers_of words.new ≡ map closed_if_local (numbers_of words.old) }
{
    for word in words.iter_mut() {
        *word = closed(*word);
    }
}
