//! The flags at the end of undefined references, of what they stand for, and of new symbols.

ghost use Rattle.std.specs.Prelude.{◌≡◌, ◌+◌, ◌≤◌, ◌<◌, ◌++◌, [], ◌∷◌, ℕ, All, List, OnErr, OnOk, false, length, map, slice_get, slice_index, slice_set};
ghost use Rattle.std.specs.Int.RustNames.{bit_or};
ghost use Rattle.std.specs.Option.{option_map_or};
ghost use Rattle.link_db_files.specs.GroupFiles.{symbols_in};
ghost use Rattle.link_flags.specs.FlagBits as flag;
ghost use Rattle.link_flags.specs.FlagWords.{words_of};
ghost use Rattle.link_input.specs.Symbols.{Symbol, is_shared};
ghost use Rattle.link_rules.specs.FinalFlags.{visibility_target};
ghost use Rattle.link_rules.specs.Rivals.{two_steps};
ghost use Rattle.link_rules.specs.Selection.{Selection};
ghost use Rattle.link_rules.specs.Undefined.{Resolution, left_undefined, resolution_from};
ghost use Rattle.link_resolve_undefined.specs.Asked.{makers_in};
ghost use Rattle.link_resolve_undefined.specs.Edited.{edited};
ghost use Rattle.link_resolve_undefined.specs.Flagged.{IsEnd, IsEndOf, all_passed, flagged, new_words, numbers_in, with_own};
ghost use Rattle.link_resolve_undefined.specs.Keys.{Asks};
ghost use Rattle.link_resolve_undefined.specs.Records.{AreSome, numbered_at};

use crate::asked_name::AskedName;
use crate::asked_names::AskedNames;
use crate::reference::{Reference, passed_flags};
use link_db_files::Files;
use link_db_symbols::FirstDefinitions;
use link_flags::{PerSymbolFlags, ValueFlags};
use link_ids::SymbolId;
use link_input::{OutputKind, Platform};
use std::alloc::AllocError;

/// What the symbol of this id points to; the undefined symbol where there is none.
fn entry_at(table: &[SymbolId], id: SymbolId) -> SymbolId
    ensures { result ≡ slice_index table.now id }
{
    match table.get(id.as_usize()) {
        Some(entry) => *entry,
        None => SymbolId::undefined(),
    }
}

/// What the symbol of this id means by the table.
fn meaning(table: &[SymbolId], id: SymbolId) -> SymbolId
    ensures { result ≡ two_steps table.now id }
{
    entry_at(table, entry_at(table, id))
}

/// Whether the symbol of this id stands in a shared file; new symbols don't.
fn is_shared_at<P: Platform>(files: &Files<P>, id: SymbolId) -> bool
    ensures { result ≡ option_map_or (λ x. is_shared x.origin) (slice_get (symbols_in files.now.groups) id) false }
{
    id.as_usize() < files.num_symbols() && files.is_shared(id)
}

/// Joins flags to those of a symbol.
fn join_flags(flags: &mut PerSymbolFlags, id: SymbolId, bits: ValueFlags)
    requires { id < length (words_of flags.old) }
    ensures numbers { numbers_in flags.new ≡ slice_set (numbers_in flags.old) id (bit_or (slice_index (numbers_in flags.old) id) bits.0) }
    ensures len { length (words_of flags.new) ≡ length (words_of flags.old) }
{
    flags.set_flag(id, bits);
}

/// Gives each of these references what it has for itself.
fn flag_own<P: Platform>(
    files: &Files<P>,
    left: &[SymbolId],
    table: &[SymbolId],
    output: OutputKind,
    flags: &mut PerSymbolFlags,
)
    requires left { All (λ s. s < length (symbols_in files.now.groups)) left.now }
    requires flags { length (symbols_in files.now.groups) ≤ length (words_of flags.old) }
    ensures own { numbers_in flags.new ≡ edited (with_own output table.now) (numbered_at (symbols_in files.now.groups) left.now) (numbers_in flags.old) }
    ensures len { length (words_of flags.new) ≡ length (words_of flags.old) }
{
    for id in left {
        let reference = Reference::of(files, *id);
        let bits = reference.own_flags(output, *id, entry_at(table, *id));
        join_flags(flags, *id, bits);
    }
}

/// The symbol to which a reference passes its visibility.
fn visibility_target<'a, M: FirstDefinitions>(
    names: &M,
    asked: &AskedNames<'a>,
    table: &[SymbolId],
    name: AskedName<'a>,
    id: SymbolId,
) -> Option<SymbolId>
    ensures { (symbols : List Symbol) → (r : Resolution) → (x : Symbol) → IsEnd symbols asked.now (M.mapping names.now) table.now r → Asks name.entry x → result ≡ visibility_target r (id, x) }
{
    if !name.is_plain() || asked.makes_new(name, id) {
        return None;
    }
    match names.first_definition(name.name).or(asked.new_symbol(name)) {
        Some(mapped) => Some(meaning(table, mapped)),
        None => None,
    }
}

/// Passes the visibility of a reference to what it stands for.
fn pass_visibility<'a, P: Platform, M: FirstDefinitions>(
    files: &'a Files<P>,
    names: &M,
    asked: &AskedNames<'a>,
    table: &[SymbolId],
    id: SymbolId,
    flags: &mut PerSymbolFlags,
)
    requires { id < length (symbols_in files.now.groups) }
    ensures passed { (r : Resolution) → IsEnd (symbols_in files.now.groups) asked.now (M.mapping names.now) table.now r
        → numbers_in flags.new ≡ all_passed r (numbered_at (symbols_in files.now.groups) (id ∷ [])) (numbers_in flags.old) }
    ensures len { length (words_of flags.new) ≡ length (words_of flags.old) }
{
    let reference = Reference::of(files, id);
    let Some(target) = visibility_target(names, asked, table, reference.name, id) else {
        return;
    };
    if target.as_usize() < flags.len() {
        let bits = passed_flags(reference.visibility, is_shared_at(files, target));
        join_flags(flags, target, bits);
    }
}

/// Passes the visibilities of these references.
fn pass_visibilities<'a, P: Platform, M: FirstDefinitions>(
    files: &'a Files<P>,
    left: &[SymbolId],
    names: &M,
    asked: &AskedNames<'a>,
    table: &[SymbolId],
    flags: &mut PerSymbolFlags,
)
    requires { All (λ s. s < length (symbols_in files.now.groups)) left.now }
    ensures passed { (r : Resolution) → IsEnd (symbols_in files.now.groups) asked.now (M.mapping names.now) table.now r
        → numbers_in flags.new ≡ all_passed r (numbered_at (symbols_in files.now.groups) left.now) (numbers_in flags.old) }
    ensures len { length (words_of flags.new) ≡ length (words_of flags.old) }
{
    for id in left {
        pass_visibility(files, names, asked, table, *id, flags);
    }
}

/// Joins the flags of all symbols, old and new, with what the references that stay undefined have for themselves and pass to what stands
/// for their names, by the final table. No flags of signatures are among them.
pub fn flag_references<'a, P: Platform, M: FirstDefinitions>(
    files: &'a Files<P>,
    left: &[SymbolId],
    names: &M,
    asked: &AskedNames<'a>,
    table: &[SymbolId],
    output: OutputKind,
    flags: &mut PerSymbolFlags,
)
    requires left { AreSome (symbols_in files.now.groups) left.now }
    requires flags { length (symbols_in files.now.groups) ≤ length (words_of flags.old) }
    ensures flags { (l : Selection) → (before more : List ℕ) → IsEndOf (symbols_in files.now.groups) left.now asked.now (M.mapping names.now) table.now output l
        → numbers_in flags.old ≡ before ++ more → length before ≡ length (symbols_in files.now.groups)
        → numbers_in flags.new ≡ flagged (resolution_from l (left_undefined l)) before more }
    ensures len { length (words_of flags.new) ≡ length (words_of flags.old) }
{
    flag_own(files, left, table, output, flags);
    pass_visibilities(files, left, names, asked, table, flags);
}

/// Gives each new symbol its word: no other file may take its place.
fn push_new<'a>(asked: &AskedNames<'a>, flags: &mut PerSymbolFlags) -> Result<(), AllocError>
    ensures ok { OnOk result (numbers_in flags.new ≡ numbers_in flags.old ++ map (λ _. flag.non_interposable) (makers_in asked.now)) }
    ensures err { OnErr result ((more : List ℕ) × (numbers_in flags.new ≡ numbers_in flags.old ++ more)) }
{
    let makers = asked.makers();
    for _maker in makers {
        flags.push(ValueFlags::NON_INTERPOSABLE)?;
    }
    Ok(())
}

/// The flags of all symbols at the end, but for those of signatures, where those of old symbols are narrowed: a word for each new symbol is put
/// behind the others, and all are joined with what the references that stay undefined have for themselves and pass to what stands for their
/// names, by the final table. After a refusal, which is want of memory, the words are as before, with some of new symbols behind them.
pub fn flag_undefined<'a, P: Platform, M: FirstDefinitions>(
    files: &'a Files<P>,
    left: &[SymbolId],
    names: &M,
    asked: &AskedNames<'a>,
    table: &[SymbolId],
    output: OutputKind,
    flags: &mut PerSymbolFlags,
) -> Result<(), AllocError>
    requires left { AreSome (symbols_in files.now.groups) left.now }
    requires flags { length (symbols_in files.now.groups) ≤ length (words_of flags.old) }
    ensures ok { OnOk result ((l : Selection) → IsEndOf (symbols_in files.now.groups) left.now asked.now (M.mapping names.now) table.now output l
        → length (words_of flags.old) ≡ length (symbols_in files.now.groups)
        → numbers_in flags.new ≡ flagged (resolution_from l (left_undefined l)) (numbers_in flags.old) (new_words (resolution_from l (left_undefined l)))) }
    ensures len { OnOk result (length (words_of flags.new) ≡ length (words_of flags.old) + length (makers_in asked.now)) }
    ensures err { OnErr result ((more : List ℕ) × (numbers_in flags.new ≡ numbers_in flags.old ++ more)) }
{
    push_new(asked, flags)?;
    flag_references(files, left, names, asked, table, output, flags);
    Ok(())
}
