//! Reads the texts of the options one by one, and tells a fault of one as the cause for which the link is refused.

ghost use Rattle.std.specs.Prelude.{◌≡◌, ◌++◌, ◌∷◌, [], List, None, Some, IfOk, OnOk, option_and_then};
ghost use Rattle.link_names.specs.Names.{has_name};
ghost use Rattle.link_script_syntax.specs.declared.matcher.ParsedSymbolMatcher.{ParsedSymbolMatcher};
ghost use Rattle.link_script_syntax.specs.declared.script.RawScript.{RawScript};
ghost use Rattle.link_script.specs.ExportList.{IsListOf};
ghost use Rattle.link_script.specs.ListedNames.{IsListNamed};
ghost use Rattle.link_script.specs.Script.{IsScriptOf};
ghost use Rattle.link_rules.specs.Places.{Bytes};
ghost use Rattle.link_rules.specs.Refusals.{first_cause, script_cause, version_script_fault};
ghost use Rattle.link_rules.specs.Rules.{list_of, script_of};
ghost use Rattle.link_db_texts.specs.Causes.{TellsCause, error_of, forced_cause, list_cause};
ghost use Rattle.link_db_texts.specs.Holds.{IsListRead, forced_entries, is_listing, platform_of};
ghost use Rattle.link_db_texts.specs.ReadTexts.{HasNames};

use link_input::Platform;
use link_names::{Name, NameSet, Seq};
use link_rules::{LinkError, ScriptOrigin};
use link_script::{ExportList, RegularVersionScript, VersionScript};
use link_script_syntax::{ScriptFault, ScriptProfile};
use std::alloc::{AllocError, Global};

/// A fault of a text, as the error of a link.
fn error_of(origin: ScriptOrigin, fault: ScriptFault) -> LinkError
    ensures { result ≡ error_of origin fault }
{
    match fault {
        ScriptFault::Text(error) => LinkError::Script { origin, error },
        ScriptFault::Memory => LinkError::Memory,
    }
}

/// The version script of a text, in a profile.
pub fn read_script(
    alloc: Global,
    origin: ScriptOrigin,
    text: &[u8],
    profile: ScriptProfile,
) -> Result<VersionScript, LinkError>
    ensures cause { TellsCause (script_cause origin (version_script_fault profile text.now)) result }
    ensures script { IfOk result (λ script. IsScriptOf (script_of profile (Some text.now)) script) }
{
    match VersionScript::parse(alloc, text, profile) {
        Ok(script) => Ok(script),
        Err(fault) => Err(error_of(origin, fault)),
    }
}

/// The script that stands where no text of one is given: the base version alone.
fn no_script(alloc: Global) -> Result<VersionScript, AllocError>
    ensures { IfOk result (λ script. IsScriptOf (RawScript.Named []) script) }
{
    Ok(VersionScript::Regular(RegularVersionScript::from_named(alloc, Seq::new(alloc))?))
}

/// The version script of a link's options, read in a profile; that of the base version alone, where none is given. A text that is none
/// is refused with its first fault.
pub fn given_script(
    alloc: Global,
    text: &Option<Name>,
    profile: ScriptProfile,
) -> Result<VersionScript, LinkError>
    ensures cause { TellsCause (script_cause ScriptOrigin.VersionScript (option_and_then (version_script_fault profile) text.now)) result }
    ensures script { IfOk result (λ script. IsScriptOf (script_of profile text.now) script) }
{
    match text {
        Some(text) => read_script(alloc, ScriptOrigin::VersionScript, text.as_slice(), profile),
        None => Ok(no_script(alloc)?),
    }
}

/// The export list of a text.
fn read_list<P: Platform>(
    alloc: Global,
    text: &[u8],
    profile: ScriptProfile,
) -> Result<ExportList, LinkError>
    ensures cause { TellsCause (list_cause (platform_of P.Platform) profile (Some text.now)) result }
    ensures list { IfOk result (λ list. IsListNamed (list_of (platform_of P.Platform) profile (Some text.now)) list) }
{
    match P::parse_export_list(alloc, text, profile) {
        Ok(list) => Ok(list),
        Err(fault) => Err(error_of(ScriptOrigin::ExportList, fault)),
    }
}

/// The export list of the options, and one of no names where none is given.
fn given_list<P: Platform>(
    alloc: Global,
    text: &Option<Name>,
    profile: ScriptProfile,
) -> Result<ExportList, LinkError>
    ensures cause { TellsCause (list_cause (platform_of P.Platform) profile text.now) result }
    ensures list { IfOk result (λ list. IsListNamed (list_of (platform_of P.Platform) profile text.now) list) }
{
    match text {
        Some(text) => read_list::<P>(alloc, text.as_slice(), profile),
        None => Ok(ExportList::empty(alloc)),
    }
}

/// Adds the forced export names to a list.
fn add_forced(list: &mut ExportList, forced: &[Name]) -> Result<(), LinkError>
    ensures cause { TellsCause (forced_cause forced.now) result }
    ensures added { OnOk result ((entries : List ParsedSymbolMatcher) (required : List Bytes) → IsListOf entries required list.old
        → IsListOf (entries ++ forced_entries forced.now) required list.new) }
{
    for (i, name) in forced.iter().enumerate() {
        if let Err(fault) = list.add_symbol(name.as_slice(), true) {
            return Err(error_of(ScriptOrigin::ForcedExport(i), fault));
        }
    }
    Ok(())
}

/// Whether a list is given or a name is forced.
fn is_listing(text: &Option<Name>, forced: &[Name]) -> bool
    ensures { result ≡ is_listing text.now forced.now }
{
    text.is_some() || !forced.is_empty()
}

/// The export list of the options with the forced export names, where there are any.
pub fn exported_list<P: Platform>(
    alloc: Global,
    text: &Option<Name>,
    forced: &[Name],
    profile: ScriptProfile,
) -> Result<Option<ExportList>, LinkError>
    ensures cause { TellsCause (first_cause (list_cause (platform_of P.Platform) profile text.now
        ∷ forced_cause forced.now ∷ [])) result }
    ensures list { IfOk result (λ list. IsListRead (list_of (platform_of P.Platform) profile text.now)
        text.now forced.now list) }
{
    let mut list = given_list::<P>(alloc, text, profile)?;
    add_forced(&mut list, forced)?;
    if is_listing(text, forced) {
        Ok(Some(list))
    } else {
        Ok(None)
    }
}

/// The set of these names.
pub fn name_set(alloc: Global, names: &[Name]) -> Result<NameSet, AllocError>
    ensures { IfOk result (λ set. HasNames names.now set) }
{
    let mut set = NameSet::new(alloc);
    for name in names {
        set.insert(name.clone()?)?;
    }
    Ok(set)
}
