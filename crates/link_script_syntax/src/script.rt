//! Whole version scripts.

ghost use Rattle.std.specs.Prelude.{◌≡◌, ◌<◌, ℕ, List, length, IfOk, IfErr};
ghost use Rattle.link_script_syntax.specs.declared.fault.ScriptErrorKind.{ScriptErrorKind};
ghost use Rattle.link_script_syntax.specs.declared.script.RawScript.{RawScript};
ghost use Rattle.link_script_syntax.specs.Fault.{IsWithin, Gives, Answers, IsRead};
ghost use Rattle.link_script_syntax.specs.Grammar.{IsVersionScript};
ghost use Rattle.link_script_syntax.specs.Faults.{IsFaultOf, IsRefusedWith, ScriptFails};
ghost use Rattle.link_script_syntax.specs.Script.{anonymous, script_at, IsFew};

use crate::body::{RawVersionBody, body_at};
use crate::fault::{ReadError, ScriptFault, placed};
use crate::named::{RawVersion, versions_at};
use crate::profile::ScriptProfile;
use crate::skip::{begins_with, skip, strip, syntax};
use link_names::Seq;
use std::alloc::Global;

/// A version script (GNU ld's VERSION syntax) as it stands in a text.
#[derive(Debug, Drop)]
pub enum RawScript {
    /// The anonymous form: one body.
    Anonymous(RawVersionBody),
    /// Named versions.
    Named(Seq<RawVersion>),
}

/// The anonymous form: one body, a semicolon and nothing else.
#[tactic(auto, unfolding(crate::specs::Script::anonymous))]
fn anonymous_at(
    alloc: Global,
    text: &[u8],
    profile: ScriptProfile,
) -> Result<RawVersionBody, ReadError>
    ensures gives { Gives (λ body. body) result (anonymous profile text.now) }
    ensures inside { IfErr result (λ e. IsWithin e (length text.now)) }
{
    let (body, text) = body_at(alloc, text, profile)?;
    let Some(text) = strip(text, b";") else {
        return Err(syntax(text.len()));
    };
    let rest = skip(text)?;
    if !rest.is_empty() {
        return Err(syntax(rest.len()));
    }
    Ok(body)
}

/// A whole script: the anonymous form where a brace comes first, otherwise named versions.
#[tactic(auto, unfolding(crate::specs::Script::script_at))]
fn script_at(alloc: Global, text: &[u8], profile: ScriptProfile) -> Result<RawScript, ReadError>
    ensures gives { Gives (λ raw. raw) result (script_at profile text.now) }
    ensures few { IfOk result (λ raw. IsFew raw) }
    ensures inside { IfErr result (λ e. IsWithin e (length text.now)) }
{
    let text = skip(text)?;
    if begins_with(text, b'{') {
        let body = anonymous_at(alloc, text, profile)?;
        return Ok(RawScript::Anonymous(body));
    }
    let versions = versions_at(alloc, text, profile)?;
    Ok(RawScript::Named(versions))
}

/// The script as it stands in the text, by what reading gives alone.
fn read_script(alloc: Global, text: &[u8], profile: ScriptProfile) -> Result<RawScript, ScriptFault>
    ensures reads { Answers (λ raw. raw) text.now result (script_at profile text.now) }
    ensures few { IfOk result (λ raw. IsFew raw) }
{
    match script_at(alloc, text, profile) {
        Ok(raw) => Ok(raw),
        Err(error) => Err(placed(error, text.len())),
    }
}

impl RawScript {
    /// Reads a version script in a profile. The fault is the first one from the left, at its byte.
    pub fn parse(
        alloc: Global,
        text: &[u8],
        profile: ScriptProfile,
    ) -> Result<RawScript, ScriptFault>
        // What is read is spelled so by the grammar.
        ensures found { IfOk result (λ raw. IsVersionScript profile text.now raw) }
        // What is spelled so is read, unless memory runs out.
        ensures only { (raw : RawScript) → IsVersionScript profile text.now raw → IsRead raw result }
        // What is refused is a fault that the text has by the grammar, at its place.
        ensures refused { IfErr result (λ e. IsFaultOf (ScriptFails profile text.now) text.now e) }
        // A fault that the text has is answered, unless memory runs out.
        ensures refuses { (kind : ScriptErrorKind) (at : List ℕ) → ScriptFails profile text.now kind at → IsRefusedWith kind at text.now result }
        // The same as a function, for the layers above.
        ensures exact { Answers (λ raw. raw) text.now result (script_at profile text.now) }
        ensures few { IfOk result (λ raw. IsFew raw) }
    {
        read_script(alloc, text, profile)
    }
}
