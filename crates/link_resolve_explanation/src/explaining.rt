//! The explanation of a link, over its database.

ghost use Rattle.std.specs.Prelude.{◌≡◌, IfOk, length};
ghost use Rattle.link_db.specs.Seen.{seen};
ghost use Rattle.link_db_files.specs.GroupFiles.{symbols_in};
ghost use Rattle.link_rules.specs.Choices.{name_choices};
ghost use Rattle.link_rules.specs.Explained.{Explains};
ghost use Rattle.link_rules.specs.Selection.{Selection};
ghost use Rattle.link_resolve_explanation.specs.Rooted.{FollowsFrom};
ghost use Rattle.link_resolve_explanation.specs.Told.{IsTold};

use crate::name_lists::{plain_lists, versioned_lists};
use link_db::SymbolDb;
use link_input::Platform;
use link_names::Seq;
use link_resolve::Resolved;
use link_resolve_marks::{held_symbols, rival_columns};
use link_resolve_reasons::loaded_reasons;
use link_resolve_rivals::{Survivors, name_choices};
use link_rules::{Explanation, FoundRoot, NameChoice};
use std::alloc::{AllocError, Global};

/// Which of several definitions of each name counts, by which case.
fn choices_of<P: Platform>(
    alloc: Global,
    db: &SymbolDb<P>,
    resolved: &Resolved,
) -> Result<Vec<NameChoice>, AllocError>
    requires known { length resolved.now.strengths ≡ length (symbols_in (seen db.now).mapping.files.groups) }
    ensures { IfOk result (λ told. (l : Selection) → IsTold P.WEAK_SYMBOLS_OVERRIDE_COMMON (seen db.now) resolved.now l → told.items ≡ name_choices l) }
{
    let _numbers = db.num_symbols();
    let columns = rival_columns(alloc, db.files())?;
    let held = held_symbols(alloc, db.files(), resolved.loaded())?;
    let plain = plain_lists(alloc, db)?;
    let versioned = versioned_lists(alloc, db)?;
    let survivors = Survivors {
        strengths: resolved.strengths(),
        dynamic: columns.dynamic.as_slice(),
        held: held.as_slice(),
        weak_overrides_common: P::WEAK_SYMBOLS_OVERRIDE_COMMON,
        allow_multiple: db.options().allow_multiple,
    };
    let told = name_choices(alloc, &survivors, &plain, &versioned)?;
    Ok(told)
}

/// The explanation of a link whose batches are all loaded: why each object is loaded, by what was found for root names as the batches came, and which of
/// several definitions of a name counts, by which case. It is asked once references point to what they stand for (`Resolver::point_references`), before
/// rivals are settled or behind that: the definitions of names are gathered anew, since the database gives up the later ones when it settles rivals. The
/// only refusal is want of memory. Takes time in the number of symbols.
pub fn explain<P: Platform>(
    alloc: Global,
    db: &SymbolDb<P>,
    resolved: &Resolved,
    roots: &[FoundRoot],
) -> Result<Explanation, AllocError>
    requires known { length resolved.now.strengths ≡ length (symbols_in (seen db.now).mapping.files.groups) }
    ensures { IfOk result (λ explanation. (l : Selection) → IsTold P.WEAK_SYMBOLS_OVERRIDE_COMMON (seen db.now) resolved.now l
        → FollowsFrom roots.now l → Explains l roots.now explanation) }
{
    let reasons = loaded_reasons(
        alloc,
        db.files(),
        resolved.loaded(),
        resolved.targets(),
        roots,
    )?;
    let choices = choices_of(alloc, db, resolved)?;
    Ok(Explanation {
        reasons: Seq::from_vec(reasons),
        choices: Seq::from_vec(choices),
    })
}
