//! What the texts of a link say of names.

ghost use Rattle.std.specs.Prelude.{◌≡◌, ◌+◌, ◌<◌, ◌^◌, ◌++◌, ◌&&◌, [], length, List, ℕ, IsTrue, IfOk, None, Some, is_some, option_map};
ghost use Rattle.link_input.specs.declared.options.Options.{Options};
ghost use Rattle.link_input.specs.declared.world.ProcessedLinkerScript.{ProcessedLinkerScript};
ghost use Rattle.link_input.specs.declared.world.Scripts.{Scripts};
ghost use Rattle.link_script.specs.VersionOf.{answered};
ghost use Rattle.link_rules.specs.Places.{Bytes};
ghost use Rattle.link_rules.specs.Refusals.{linker_script_cause, text_refusal};
ghost use Rattle.link_rules.specs.Rules.{Rules};
ghost use Rattle.link_rules.specs.World.{World};
ghost use Rattle.link_db_texts.specs.Causes.{IsGiven, TellsCause};
ghost use Rattle.link_db_texts.specs.Holds.{AreRulesOf, HoldsTexts, platform_of};
ghost use Rattle.link_db_texts.specs.ReadTexts.{HasNames, names_in, script_taken, with_taken};

use crate::reading::{exported_list, given_script, name_set};
use crate::scripts::batch_script;
use link_input::{Options, Platform, ProcessedLinkerScript, Scripts};
use link_names::{Name, NameSet};
use link_rules::LinkError;
use link_script::{Demangler, ExportList, UndefinedVersion, VersionScript};
use link_script_syntax::ScriptProfile;
use std::alloc::{AllocError, Global};
use std::marker::{Model, PhantomData};
use std::mem;

/// What the texts of a link on a platform say of names: its version script, and its export list with the forced export names.
/// A contract sees what was read. Mirrors what Wild's `SymbolDb` keeps of them.
pub struct TextRules<P: Platform> {
    profile: ScriptProfile,
    version_script: VersionScript,
    /// The names of a script of the Rust form, to be looked up.
    listed: NameSet,
    /// A text of a version script was taken.
    is_taken: bool,
    export_list: Option<ExportList>,
    platform: PhantomData<P>,
}

// By hand, so that what lets one go makes one call and does not name its parts.
impl<P: Platform> Drop for TextRules<P> {
    fn drop(self) {
        let Self {
            profile: _,
            version_script: _,
            listed: _,
            is_taken: _,
            export_list: _,
            platform: _,
        } = self;
    }
}

impl<P: Platform> Model for TextRules<P> {
    ghost use Rattle.link_db_texts.specs.ReadTexts.{HasNames, ReadTexts, names_in};

    ghost Value = { ReadTexts };

    ghost view = { λ t. record { profile = t.profile; script = t.version_script; is_taken = t.is_taken; list = t.export_list } };

    ghost invariant = { λ t. HasNames (names_in t.version_script) t.listed };
}

/// A version script that was read, with the names that it lists where it is of the Rust form, and whether a text of one was given. A
/// contract sees the script, and whether one was given.
#[derive(Drop)]
pub struct TakenScript {
    version_script: VersionScript,
    listed: NameSet,
    is_taken: bool,
}

impl Model for TakenScript {
    ghost use Rattle.link_db_texts.specs.ReadTexts.{HasNames, TakenText, names_in};

    ghost Value = { TakenText };

    ghost view = { λ t. record { script = t.version_script; is_taken = t.is_taken } };

    ghost invariant = { λ t. HasNames (names_in t.version_script) t.listed };
}

/// The names that a script lists, where it is of the Rust form.
fn listed_names(alloc: Global, script: &VersionScript) -> Result<NameSet, AllocError>
    ensures { IfOk result (λ set. HasNames (names_in script.now) set) }
{
    match script {
        VersionScript::Regular(_) => Ok(NameSet::new(alloc)),
        VersionScript::Rust(script) => name_set(alloc, script.global.as_slice()),
    }
}

impl<P: Platform> TextRules<P> {
    /// Reads the texts of the options: the version script, the export list, and the forced export names.
    ///
    /// It is refused with the first cause, in this order, each at its place, and with `Memory` where memory ran out.
    pub fn new(alloc: Global, options: &Options, texts: &Scripts) -> Result<Self, LinkError>
        ensures cause { (w : World) → IsGiven (platform_of P.Platform) options.now texts.now w → TellsCause (text_refusal w) result }
        ensures holds { IfOk result (λ rules. HoldsTexts (platform_of P.Platform) options.now texts.now [] rules) }
    {
        let profile = options.script_profile;
        let version_script = given_script(alloc, &texts.version_script, profile)?;
        let forced = options.force_export.as_slice();
        let export_list = exported_list::<P>(alloc, &texts.export_list, forced, profile)?;
        let listed = listed_names(alloc, &version_script)?;
        Ok(TextRules {
            profile,
            version_script,
            listed,
            is_taken: texts.version_script.is_some(),
            export_list,
            platform: PhantomData,
        })
    }

    /// Reads the version script of a batch's linker scripts, of which the first has the place `first` among those of all batches. Only one
    /// text may be taken, and only those of the first batch, which is the one that is not late. `None` where no linker script has one;
    /// else the link has these texts once what was read is taken by `replace_script`.
    pub fn read_scripts(
        &self,
        alloc: Global,
        is_late: bool,
        first: usize,
        scripts: &[ProcessedLinkerScript],
    ) -> Result<Option<TakenScript>, LinkError>
        requires { first + length scripts.now < 2 ^ 64 }
        ensures cause { TellsCause (linker_script_cause self.now.profile is_late self.now.is_taken first scripts.now) result }
        ensures holds { IfOk result (λ taken. (options : Options) (texts : Scripts) (before : List ProcessedLinkerScript)
            → HoldsTexts (platform_of P.Platform) options texts before self.now
            → HoldsTexts (platform_of P.Platform) options texts (before ++ scripts.now) (with_taken taken self.now)) }
        ensures late { IsTrue is_late → IfOk result (λ taken. taken ≡ None) }
    {
        match batch_script(alloc, is_late, self.is_taken, first, scripts, self.profile)? {
            Some(script) => {
                let listed = listed_names(alloc, &script)?;
                Ok(Some(TakenScript {
                    version_script: script,
                    listed,
                    is_taken: true,
                }))
            }
            None => Ok(None),
        }
    }

    /// Takes a version script in place of the one that there is, and answers that one. Who takes it again is where it was before. Takes no
    /// memory.
    pub fn replace_script(&mut self, script: TakenScript) -> TakenScript
        ensures taken { self.new ≡ with_taken (Some script) self.old }
        ensures before { result ≡ script_taken self.old }
    {
        TakenScript {
            version_script: mem::replace(&mut self.version_script, script.version_script),
            listed: mem::replace(&mut self.listed, script.listed),
            is_taken: mem::replace(&mut self.is_taken, script.is_taken),
        }
    }

    /// Whether the version script makes the name local.
    pub fn is_local_name<D: Demangler>(&self, name: &[u8], demangler: &D) -> bool
        ensures { (rules : Rules) → AreRulesOf (platform_of P.Platform) (D.demangled demangler.now) self.now rules
            → result ≡ rules.is_local_name name.now }
    {
        // Most links have no version script: then no name is looked up.
        if !self.is_taken {
            return false;
        }
        match &self.version_script {
            VersionScript::Regular(script) => script.is_local(name, demangler),
            VersionScript::Rust(_) => !self.listed.contains(name),
        }
    }

    /// Whether the name is exported, where there is an export list or a forced export name.
    pub fn is_exported<D: Demangler>(&self, name: &[u8], demangler: &D) -> Option<bool>
        ensures { (rules : Rules) → AreRulesOf (platform_of P.Platform) (D.demangled demangler.now) self.now rules
            → result ≡ option_map (λ is_exported. is_exported name.now) rules.is_exported }
    {
        match &self.export_list {
            Some(list) => Some(list.contains(name, demangler)),
            None => None,
        }
    }

    /// The names that the version script lists, where it is of the Rust form.
    pub fn rust_names(&self) -> Option<&[Name]>
        ensures { (demangle : Bytes → Bytes) (rules : Rules) → AreRulesOf (platform_of P.Platform) demangle self.now rules
            → option_map (λ names. names.now) result ≡ rules.rust_names }
    {
        match &self.version_script {
            VersionScript::Regular(_) => None,
            VersionScript::Rust(script) => Some(script.global.as_slice()),
        }
    }

    /// The version of a name: by the explicit one, or by the version script alone. An explicit version that is not declared is
    /// refused with both names.
    pub fn version_of<'a, D: Demangler>(
        &self,
        name: &'a [u8],
        explicit: Option<&'a [u8]>,
        demangler: &D,
    ) -> Result<Option<u16>, UndefinedVersion<'a>>
        ensures { (rules : Rules) → AreRulesOf (platform_of P.Platform) (D.demangled demangler.now) self.now rules
            → answered result ≡ rules.version_of name.now (option_map (λ e. e.now) explicit.entry) }
    {
        self.version_script
            .version_for_symbol(name, explicit, demangler)
    }

    /// The names that must be defined, in the order of the export list.
    pub fn required_exports(&self) -> &[Name]
        ensures { (demangle : Bytes → Bytes) (rules : Rules) → AreRulesOf (platform_of P.Platform) demangle self.now rules
            → result.now ≡ rules.required_exports }
    {
        match &self.export_list {
            Some(list) => list.required_symbols(),
            None => &[],
        }
    }

    /// Whether there is an export list or a forced export name, on a platform where a list keeps back what it lacks.
    pub fn has_restrictive_export_list(&self) -> bool
        ensures { (demangle : Bytes → Bytes) (rules : Rules) → AreRulesOf (platform_of P.Platform) demangle self.now rules
            → result ≡ (P.EXPORT_LIST_RESTRICTS_DEFAULT_EXPORTS && is_some rules.is_exported) }
    {
        P::EXPORT_LIST_RESTRICTS_DEFAULT_EXPORTS && self.export_list.is_some()
    }

    /// Whether a text of a version script was taken.
    pub fn is_taken(&self) -> bool
        ensures { result ≡ self.now.is_taken }
    {
        self.is_taken
    }

    /// The version script; that of the base version alone, where none was given.
    pub fn version_script(&self) -> &VersionScript
        ensures { result.now ≡ self.now.script }
    {
        &self.version_script
    }

    /// The export list with the forced export names, where there are any.
    pub fn export_list(&self) -> Option<&ExportList>
        ensures { option_map (λ list. list.now) result ≡ self.now.list }
    {
        self.export_list.as_ref()
    }
}
