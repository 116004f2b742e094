//! The version script among the linker scripts of a batch.

ghost use Rattle.std.specs.Prelude.{◌≡◌, ◌+◌, ◌<◌, ◌^◌, ◌||◌, Option, None, IfOk, length, filter_map, is_some};
ghost use Rattle.link_rules.specs.Places.{first_of};
ghost use Rattle.link_rules.specs.Refusals.{linker_script_cause, version_text_cause};
ghost use Rattle.link_rules.specs.Rules.{script_of};
ghost use Rattle.link_script.specs.Script.{IsScriptOf};
ghost use Rattle.link_db_texts.specs.Causes.{TellsCause};
ghost use Rattle.link_db_texts.specs.Holds.{IsScriptIf};

use crate::reading::read_script;
use link_input::ProcessedLinkerScript;
use link_names::Name;
use link_rules::{LinkError, ScriptOrigin};
use link_script::VersionScript;
use link_script_syntax::ScriptProfile;
use std::alloc::Global;

/// The version script of the linker script at this place, where none was taken before, and its batch is the first.
fn script_text(
    alloc: Global,
    is_late: bool,
    is_taken: bool,
    place: usize,
    text: &Name,
    profile: ScriptProfile,
) -> Result<VersionScript, LinkError>
    ensures cause { TellsCause (version_text_cause profile is_late is_taken place text.now) result }
    ensures script { IfOk result (λ script. IsScriptOf (script_of profile (Option.Some text.now)) script) }
{
    if is_taken {
        return Err(LinkError::MultipleVersionScripts(place));
    }
    if is_late {
        return Err(LinkError::LateVersionScript(place));
    }
    read_script(
        alloc,
        ScriptOrigin::LinkerScript(place),
        text.as_slice(),
        profile,
    )
}

/// Whether a script was taken before, of an earlier batch or of this one.
fn is_second(is_taken: bool, taken: &Option<VersionScript>) -> bool
    ensures { result ≡ (is_taken || is_some taken.now) }
{
    is_taken || taken.is_some()
}

/// The version script of the first of these linker scripts that has one. The first of them has the place `first`.
pub fn batch_script(
    alloc: Global,
    is_late: bool,
    is_taken: bool,
    first: usize,
    scripts: &[ProcessedLinkerScript],
    profile: ScriptProfile,
) -> Result<Option<VersionScript>, LinkError>
    requires { first + length scripts.now < 2 ^ 64 }
    ensures cause { TellsCause (linker_script_cause profile is_late is_taken first scripts.now) result }
    ensures script { IfOk result (λ script. IsScriptIf profile (first_of (filter_map (λ s. s.version) scripts.now)) script) }
{
    let mut taken = None;
    for (i, script) in scripts.iter().enumerate() {
        if let Some(text) = &script.version {
            let is_second = is_second(is_taken, &taken);
            let script = script_text(alloc, is_late, is_second, first + i, text, profile)?;
            taken = Some(script);
        }
    }
    Ok(taken)
}
