//! The version scripts among the linker scripts of a batch.

ghost use Rattle.std.specs.Prelude.{◌≡◌, ◌<◌, ◌^◌, false, length};
ghost use Rattle.link_rules.specs.Refusals.{linker_script_cause, version_text_cause};
ghost use Rattle.link_check_texts.specs.Causes.{TellsCause};

use crate::texts::check_script;
use link_input::ProcessedLinkerScript;
use link_names::Name;
use link_rules::{LinkError, ScriptOrigin};
use link_script_syntax::ScriptProfile;
use std::alloc::Global;

/// Refuses the version script of the linker script at this place where one was taken before, or where its text is none.
fn check_text(
    alloc: Global,
    is_taken: bool,
    place: usize,
    text: &Name,
    profile: ScriptProfile,
) -> Result<(), LinkError>
    ensures cause { TellsCause (version_text_cause profile false is_taken place text.now) result }
{
    if is_taken {
        return Err(LinkError::MultipleVersionScripts(place));
    }
    check_script(
        alloc,
        ScriptOrigin::LinkerScript(place),
        text.as_slice(),
        profile,
    )
}

/// Refuses the first linker script of the first batch whose version script is a second one, or none.
pub(crate) fn check_scripts(
    alloc: Global,
    is_taken: bool,
    scripts: &[ProcessedLinkerScript],
    profile: ScriptProfile,
) -> Result<(), LinkError>
    ensures cause { TellsCause (linker_script_cause profile false is_taken 0 scripts.now) result }
{
    let mut is_second = is_taken;
    for (place, script) in scripts.iter().enumerate() {
        if let Some(text) = &script.version {
            check_text(alloc, is_second, place, text, profile)?;
            is_second = true;
        }
    }
    Ok(())
}
