//! Version scripts.

ghost use Rattle.std.specs.Prelude.{◌≡◌, [], ℕ, List, IfOk, IfErr};
ghost use Rattle.std.specs.Option.{option_map};
ghost use Rattle.link_script_syntax.specs.declared.script.RawScript.{RawScript};
ghost use Rattle.link_script_syntax.specs.declared.fault.ScriptErrorKind.{ScriptErrorKind};
ghost use Rattle.link_script_syntax.specs.Faults.{IsFaultOf, IsRefusedWith, ScriptFails};
ghost use Rattle.link_script_syntax.specs.Grammar.{IsVersionScript};
ghost use Rattle.link_script_syntax.specs.Script.{script_at};
ghost use Rattle.link_script.specs.Lookup.{asked};
ghost use Rattle.link_script.specs.Script.{IsScriptOf, Parses, IsSpelledBy, IsVersionBy, is_rust, script_count, script_parents, IsVersionIn, version_in_script};
ghost use Rattle.link_script.specs.VersionOf.{answered};

use crate::lookup::Demangler;
use crate::regular::RegularVersionScript;
use crate::rust_form::{RustFormError, RustVersionScript};
use crate::symbol_version::UndefinedVersion;
use link_script_syntax::{RawScript, RawVersionBody, ScriptFault, ScriptProfile};
use std::alloc::{AllocError, Global};

/// A version script (GNU ld's VERSION syntax). Mirrors Wild's `VersionScript`.
#[derive(Drop)]
pub enum VersionScript {
    /// Versions.
    Regular(RegularVersionScript),
    /// Names that are exported, and everything else hidden.
    Rust(RustVersionScript),
}

/// The script of a text, by what reading gives alone.
fn parse_script(
    alloc: Global,
    text: &[u8],
    profile: ScriptProfile,
) -> Result<VersionScript, ScriptFault>
    ensures { Parses text.now result (script_at profile text.now) }
{
    match RawScript::parse(alloc, text, profile)? {
        RawScript::Anonymous(body) => Ok(VersionScript::from_raw(alloc, body)?),
        RawScript::Named(named) => {
            Ok(VersionScript::Regular(RegularVersionScript::from_named(alloc, named)?))
        }
    }
}

impl VersionScript {
    /// Reads a version script in a profile. The fault is the first one from the left, at its byte.
    pub fn parse(
        alloc: Global,
        text: &[u8],
        profile: ScriptProfile,
    ) -> Result<VersionScript, ScriptFault>
        // What is read is spelled so by the grammar.
        ensures found { IfOk result (λ script. (raw : RawScript) × IsVersionScript profile text.now raw × IsScriptOf raw script) }
        // What is spelled so is read, unless memory runs out.
        ensures only { (raw : RawScript) → IsVersionScript profile text.now raw → IsSpelledBy raw result }
        // What is refused is a fault that the text has by the grammar, at its place.
        ensures refused { IfErr result (λ e. IsFaultOf (ScriptFails profile text.now) text.now e) }
        // A fault that the text has is answered, unless memory runs out.
        ensures refuses { (kind : ScriptErrorKind) (at : List ℕ) → ScriptFails profile text.now kind at → IsRefusedWith kind at text.now result }
        // The same as a function, for the layers above.
        ensures exact { Parses text.now result (script_at profile text.now) }
    {
        parse_script(alloc, text, profile)
    }

    /// The script without versions, which stands where none is given. Takes no memory.
    pub fn empty(alloc: Global) -> VersionScript
        ensures { result ≡ VersionScript.Regular [] }
    {
        VersionScript::Regular(RegularVersionScript::empty(alloc))
    }

    /// The script of one body without a name: of the Rust form where the body is of that form.
    pub fn from_raw(alloc: Global, body: RawVersionBody) -> Result<VersionScript, AllocError>
        ensures { IfOk result (λ script. IsScriptOf (RawScript.Anonymous body) script) }
    {
        match RustVersionScript::from_raw(alloc, body) {
            Ok(script) => Ok(VersionScript::Rust(script)),
            Err(RustFormError::Body(body)) => {
                Ok(VersionScript::Regular(RegularVersionScript::from_body(alloc, body)?))
            }
            Err(RustFormError::Memory) => Err(AllocError),
        }
    }

    /// Whether it is of the Rust form.
    pub fn is_rust(&self) -> bool
        ensures { result ≡ is_rust self.now }
    {
        matches!(self, VersionScript::Rust(_))
    }

    /// How many versions there are, the base counted; 0 where there is none but the base, and for the Rust form.
    pub fn version_count(&self) -> u16
        ensures { result ≡ script_count self.now }
    {
        match self {
            VersionScript::Regular(script) => script.version_count(),
            VersionScript::Rust(_) => 0,
        }
    }

    /// How many versions extend another; 0 for the Rust form.
    pub fn parent_count(&self) -> u16
        ensures { result ≡ script_parents self.now }
    {
        match self {
            VersionScript::Regular(script) => script.parent_count(),
            VersionScript::Rust(_) => 0,
        }
    }

    /// The version of a symbol, as `RegularVersionScript` says; none where the script is of the Rust form.
    pub fn version_for_symbol<'a, D: Demangler>(
        &self,
        name: &'a [u8],
        explicit: Option<&'a [u8]>,
        demangler: &D,
    ) -> Result<Option<u16>, UndefinedVersion<'a>>
        ensures means { IsVersionIn self.now (asked (D.demangled demangler.now) name.now) (option_map (λ e. e.now) explicit.entry) (answered result) }
        // The same by the text that the script was read from.
        ensures of_text { (raw : RawScript) → IsScriptOf raw self.now →
            IsVersionBy raw (asked (D.demangled demangler.now) name.now) (option_map (λ e. e.now) explicit.entry) (answered result) }
        ensures value { answered result ≡ version_in_script self.now (asked (D.demangled demangler.now) name.now) (option_map (λ e. e.now) explicit.entry) }
    {
        match self {
            VersionScript::Regular(script) => script.version_for_symbol(name, explicit, demangler),
            VersionScript::Rust(_) => Ok(None),
        }
    }
}
