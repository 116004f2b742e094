//! The texts of the options, one by one: a fault of one is the cause for which the link is refused.

ghost use Rattle.std.specs.Prelude.{◌≡◌, IfOk, None, Some, option_and_then};
ghost use Rattle.link_rules.specs.declared.refusal.ScriptOrigin.{ScriptOrigin};
ghost use Rattle.link_rules.specs.Refusals.{script_cause, version_script_fault};
ghost use Rattle.link_rules.specs.Rules.{list_of};
ghost use Rattle.link_script.specs.ListedNames.{IsListNamed};
ghost use Rattle.link_check_texts.specs.Causes.{TellsCause, error_of, forced_causes, list_cause, options_refusal};
ghost use Rattle.link_check_texts.specs.Given.{platform_of};

use link_input::{Options, Platform, Scripts};
use link_names::{Name, Seq};
use link_rules::{LinkError, ScriptOrigin};
use link_script::{ExportList, VersionScript};
use link_script_syntax::{ScriptFault, ScriptProfile};
use std::alloc::{AllocError, Global};

/// A fault of a text, as the error of a link.
fn error_of(origin: ScriptOrigin, fault: ScriptFault) -> LinkError
    ensures { result ≡ error_of origin fault }
{
    match fault {
        ScriptFault::Text(error) => LinkError::Script { origin, error },
        ScriptFault::Memory => LinkError::Memory,
    }
}

/// Refuses a text that is no version script. What the script says is of no account to a claim.
pub(crate) fn check_script(
    alloc: Global,
    origin: ScriptOrigin,
    text: &[u8],
    profile: ScriptProfile,
) -> Result<(), LinkError>
    ensures cause { TellsCause (script_cause origin (version_script_fault profile text.now)) result }
{
    match VersionScript::parse(alloc, text, profile) {
        Ok(_) => Ok(()),
        Err(fault) => Err(error_of(origin, fault)),
    }
}

/// Refuses the version script of the options, where one is given that is none.
fn check_given_script(
    alloc: Global,
    text: &Option<Name>,
    profile: ScriptProfile,
) -> Result<(), LinkError>
    ensures cause { TellsCause (script_cause ScriptOrigin.VersionScript (option_and_then (version_script_fault profile) text.now)) result }
{
    match text {
        Some(text) => check_script(alloc, ScriptOrigin::VersionScript, text.as_slice(), profile),
        None => Ok(()),
    }
}

/// The export list of a text.
fn read_list<P: Platform>(
    alloc: Global,
    text: &[u8],
    profile: ScriptProfile,
) -> Result<ExportList, LinkError>
    ensures cause { TellsCause (list_cause (platform_of P.Platform) profile (Some text.now)) result }
    ensures list { IfOk result (λ list. IsListNamed (list_of (platform_of P.Platform) profile (Some text.now)) list) }
{
    match P::parse_export_list(alloc, text, profile) {
        Ok(list) => Ok(list),
        Err(fault) => Err(error_of(ScriptOrigin::ExportList, fault)),
    }
}

/// The export list of the options, and one of no names where none is given.
fn given_list<P: Platform>(
    alloc: Global,
    text: &Option<Name>,
    profile: ScriptProfile,
) -> Result<ExportList, LinkError>
    ensures cause { TellsCause (list_cause (platform_of P.Platform) profile text.now) result }
    ensures list { IfOk result (λ list. IsListNamed (list_of (platform_of P.Platform) profile text.now) list) }
{
    match text {
        Some(text) => read_list::<P>(alloc, text.as_slice(), profile),
        None => Ok(ExportList::empty(alloc)),
    }
}

/// Refuses the first forced export name that can't be read. Each is read as an entry of a list, which is let go.
fn check_forced(mut list: ExportList, forced: &[Name]) -> Result<(), LinkError>
    ensures cause { TellsCause (forced_causes 0 forced.now) result }
{
    for (i, name) in forced.iter().enumerate() {
        if let Err(fault) = list.add_symbol(name.as_slice(), true) {
            return Err(error_of(ScriptOrigin::ForcedExport(i), fault));
        }
    }
    Ok(())
}

/// Copies of names.
fn copied(alloc: Global, names: &[Name]) -> Result<Seq<Name>, AllocError>
    ensures { IfOk result (λ copies. copies ≡ names.now) }
{
    let mut copies = Vec::with_capacity(alloc, names.len())?;
    for name in names {
        copies.push(name.clone()?)?;
    }
    Ok(Seq::from_vec(copies))
}

/// The names that must be exported, where each text of the options can be read.
///
/// It is refused with the first text that can't be: the version script, the export list, and the forced export names, each at its place;
/// and with `Memory` where memory ran out.
pub(crate) fn required_exports<P: Platform>(
    alloc: Global,
    options: &Options,
    texts: &Scripts,
) -> Result<Seq<Name>, LinkError>
    ensures cause { TellsCause (options_refusal (platform_of P.Platform) options.now texts.now) result }
    ensures required { IfOk result (λ names. names ≡ (list_of (platform_of P.Platform) options.now.script_profile texts.now.export_list).required) }
{
    let profile = options.script_profile;
    check_given_script(alloc, &texts.version_script, profile)?;
    let list = given_list::<P>(alloc, &texts.export_list, profile)?;
    let required = copied(alloc, list.required_symbols())?;
    check_forced(list, options.force_export.as_slice())?;
    Ok(required)
}
