//! The files of a batch are added.

ghost use Rattle.std.specs.Prelude.{◌≡◌};
ghost use Rattle.link_input_groups.specs.declared.groups_error.GroupsError.{GroupsError};
ghost use Rattle.link_db.specs.Adding.{error_of};

use crate::counting::symbols_of_groups;
use crate::database::SymbolDb;
use crate::growing::{grown_flags, new_entries};
use link_db_ingest::read_groups;
use link_db_texts::TakenScript;
use link_flags::PerSymbolFlags;
use link_input::{Inputs, Platform};
use link_input_groups::{Group, GroupsError, create_groups};
use link_rules::LinkError;
use link_script::Demangler;
use std::alloc::{AllocError, Global};
use std::thread::Threads;

/// A refusal of groups, as that of a link.
fn error_of(error: GroupsError) -> LinkError
    ensures { result ≡ error_of error }
{
    match error {
        GroupsError::TooMany { kind, count } => LinkError::TooMany { kind, count },
        GroupsError::Memory => LinkError::Memory,
    }
}

impl<P: Platform + Sync> SymbolDb<P> {
    ghost use Rattle.std.specs.Prelude.{◌<◌, ◌++◌, [], ◌∷◌, List, IsTrue, IfOk, OnOk, OnErr, length, not};
    ghost use Rattle.link_flags.specs.FlagWords.{words_of};
    ghost use Rattle.link_input_groups.specs.Held.{AreGroupsOf};
    ghost use Rattle.link_input.specs.declared.options.Options.{Options};
    ghost use Rattle.link_input.specs.declared.world.ProcessedLinkerScript.{ProcessedLinkerScript};
    ghost use Rattle.link_input.specs.declared.world.Scripts.{Scripts};
    ghost use Rattle.link_input.specs.InputFiles.{Batch, batch_of};
    ghost use Rattle.link_input.specs.Limits.{batch_limit, counts_of, first_excess};
    ghost use Rattle.link_db_files.specs.GroupFiles.{AreGroupsOfLink, symbols_in};
    ghost use Rattle.link_db_mapping.specs.Mapped.{AreListed};
    ghost use Rattle.link_rules.specs.Places.{is_empty};
    ghost use Rattle.link_rules.specs.Refusals.{too_many};
    ghost use Rattle.link_rules.specs.World.{Stage};
    ghost use Rattle.link_db_texts.specs.Causes.{TellsCause};
    ghost use Rattle.link_db_texts.specs.Holds.{AreRulesOf, HoldsTexts, platform_of};
    ghost use Rattle.link_db_texts.specs.ReadTexts.{with_taken};
    ghost use Rattle.link_db.specs.Database.{HasTable, symbol_names};
    ghost use Rattle.link_db.specs.Adding.{HaveOpeningFlags, IsGrown, inputs_cause};
    ghost use Rattle.link_db.specs.Seen.{seen};

    /// Adds the files of a batch behind those of the batches before it; their groups are read side by side. Each name is mapped to its first
    /// definition again, and each new symbol points to itself. `flags` needs a word for each symbol; those of the new symbols come behind
    /// them.
    ///
    /// It is refused with the first cause, in this order: the version text of a linker script, and more of something than ids can name; and
    /// with `Memory`. Then database and flags are as before.
    pub fn add_inputs<R: Threads + Sync, D: Demangler + Sync>(
        &mut self,
        rt: &R,
        alloc: Global,
        demangler: &D,
        flags: &mut PerSymbolFlags,
        inputs: Inputs<P>,
    ) -> Result<(), LinkError>
        requires held { (batches : List Batch) × AreGroupsOf (seen self.old).options batches (seen self.old).mapping.files.groups × (length batches < batch_limit) }
        requires table { HasTable (seen self.old) }
        requires flags { length (words_of flags.old) ≡ length (symbol_names (seen self.old)) }
        ensures files { OnOk result ((batches : List Batch) → AreGroupsOf (seen self.old).options batches (seen self.old).mapping.files.groups
            → AreGroupsOf (seen self.old).options (batches ++ batch_of inputs ∷ []) (seen self.new).mapping.files.groups) }
        ensures lists { OnOk result (AreListed (symbols_in (seen self.old).mapping.files.groups) (seen self.old).mapping → AreListed (symbols_in (seen self.new).mapping.files.groups) (seen self.new).mapping) }
        ensures grown { OnOk result (IsGrown (seen self.old) (seen self.new)) }
        ensures texts { OnOk result ((options : Options) (texts : Scripts) (before : List ProcessedLinkerScript)
            → HoldsTexts (platform_of P.Platform) options texts before (seen self.old).rules
            → HoldsTexts (platform_of P.Platform) options texts (before ++ inputs.scripts) (seen self.new).rules) }
        ensures late { IsTrue (not (is_empty (seen self.old).mapping.files.groups)) → (seen self.new).rules ≡ (seen self.old).rules }
        ensures flags { OnOk result ((w : Stage) → AreRulesOf (platform_of P.Platform) (D.demangled demangler.now) (seen self.new).rules w.rules → w.options.output ≡ (seen self.old).options.output
            → HaveOpeningFlags w (seen self.old) (seen self.new) (words_of flags.old) (words_of flags.new)) }
        ensures whole { OnOk result (length (words_of flags.new) ≡ length (symbol_names (seen self.new))) }
        ensures cause { (batches : List Batch) → AreGroupsOf (seen self.old).options batches (seen self.old).mapping.files.groups
            → TellsCause (inputs_cause (seen self.old) batches (batch_of inputs)) result }
        ensures unchanged { OnErr result (seen self.new ≡ seen self.old) }
        ensures flags_unchanged { OnErr result (flags.new ≡ flags.old) }
    {
        let is_late = !self.groups().is_empty();
        let first = self.files().num_scripts();
        let scripts = inputs.scripts.as_slice();
        let script = self.rules.read_scripts(alloc, is_late, first, scripts)?;
        let groups = self.groups_of(alloc, inputs)?;
        self.add_with_script(rt, alloc, demangler, flags, script, groups)?;
        Ok(())
    }

    /// The groups of a batch of files behind those that are held.
    fn groups_of(&self, alloc: Global, inputs: Inputs<P>) -> Result<Vec<Group<P>>, LinkError>
        requires held { (batches : List Batch) × AreGroupsOf (seen self.now).options batches (seen self.now).mapping.files.groups × (length batches < batch_limit) }
        ensures follow { IfOk result (λ groups. (batches : List Batch) → AreGroupsOf (seen self.now).options batches (seen self.now).mapping.files.groups
            → AreGroupsOf (seen self.now).options (batches ++ batch_of inputs ∷ []) ((seen self.now).mapping.files.groups ++ groups.items)) }
        ensures cause { (batches : List Batch) → AreGroupsOf (seen self.now).options batches (seen self.now).mapping.files.groups
            → TellsCause (too_many (first_excess (counts_of (seen self.now).options (batches ++ batch_of inputs ∷ [])))) result }
    {
        match create_groups(alloc, &self.options, self.groups(), inputs, self.workers) {
            Ok(groups) => Ok(groups),
            Err(error) => Err(error_of(error)),
        }
    }

    /// Takes the version script of a batch, if it brings one, and adds its groups. A refused call, for want of memory, leaves database and flags
    /// as they were.
    fn add_with_script<R: Threads + Sync, D: Demangler + Sync>(
        &mut self,
        rt: &R,
        alloc: Global,
        demangler: &D,
        flags: &mut PerSymbolFlags,
        script: Option<TakenScript>,
        groups: Vec<Group<P>>,
    ) -> Result<(), AllocError>
        requires groups { AreGroupsOfLink ((seen self.old).mapping.files.groups ++ groups.items) }
        requires table { HasTable (seen self.old) }
        requires flags { length (words_of flags.old) ≡ length (symbol_names (seen self.old)) }
        ensures files { OnOk result ((seen self.new).mapping.files ≡ record (seen self.old).mapping.files { groups = (seen self.old).mapping.files.groups ++ groups.items }) }
        ensures lists { OnOk result (AreListed (symbols_in (seen self.old).mapping.files.groups) (seen self.old).mapping → AreListed (symbols_in (seen self.new).mapping.files.groups) (seen self.new).mapping) }
        ensures grown { OnOk result (IsGrown (seen self.old) (seen self.new)) }
        ensures rules { OnOk result ((seen self.new).rules ≡ with_taken script (seen self.old).rules) }
        ensures flags { OnOk result ((w : Stage) → AreRulesOf (platform_of P.Platform) (D.demangled demangler.now) (seen self.new).rules w.rules → w.options.output ≡ (seen self.old).options.output
            → HaveOpeningFlags w (seen self.old) (seen self.new) (words_of flags.old) (words_of flags.new)) }
        ensures whole { OnOk result (length (words_of flags.new) ≡ length (symbol_names (seen self.new))) }
        ensures unchanged { OnErr result (seen self.new ≡ seen self.old) }
        ensures flags_unchanged { OnErr result (flags.new ≡ flags.old) }
    {
        match script {
            None => self.add_groups(rt, alloc, demangler, flags, groups),
            Some(script) => {
                let before = self.rules.replace_script(script);
                if let Err(error) = self.add_groups(rt, alloc, demangler, flags, groups) {
                    let _script = self.rules.replace_script(before);
                    return Err(error);
                }
                Ok(())
            }
        }
    }

    /// Reads the groups of a batch side by side, and adds what they hold. A refused call, for want of memory, leaves database and flags as they
    /// were.
    fn add_groups<R: Threads + Sync, D: Demangler + Sync>(
        &mut self,
        rt: &R,
        alloc: Global,
        demangler: &D,
        flags: &mut PerSymbolFlags,
        groups: Vec<Group<P>>,
    ) -> Result<(), AllocError>
        requires groups { AreGroupsOfLink ((seen self.old).mapping.files.groups ++ groups.items) }
        requires table { HasTable (seen self.old) }
        requires flags { length (words_of flags.old) ≡ length (symbol_names (seen self.old)) }
        ensures files { OnOk result ((seen self.new).mapping.files ≡ record (seen self.old).mapping.files { groups = (seen self.old).mapping.files.groups ++ groups.items }) }
        ensures lists { OnOk result (AreListed (symbols_in (seen self.old).mapping.files.groups) (seen self.old).mapping → AreListed (symbols_in (seen self.new).mapping.files.groups) (seen self.new).mapping) }
        ensures grown { OnOk result (IsGrown (seen self.old) (seen self.new)) }
        ensures rules { (seen self.new).rules ≡ (seen self.old).rules }
        ensures flags { OnOk result ((w : Stage) → AreRulesOf (platform_of P.Platform) (D.demangled demangler.now) (seen self.old).rules w.rules → w.options.output ≡ (seen self.old).options.output
            → HaveOpeningFlags w (seen self.old) (seen self.new) (words_of flags.old) (words_of flags.new)) }
        ensures whole { OnOk result (length (words_of flags.new) ≡ length (symbol_names (seen self.new))) }
        ensures unchanged { OnErr result (seen self.new ≡ seen self.old) }
        ensures flags_unchanged { OnErr result (flags.new ≡ flags.old) }
    {
        let held = self.files().num_symbols();
        let more = symbols_of_groups(groups.as_slice());
        let output = self.options.output;
        let parts = read_groups(rt, alloc, &self.rules, output, demangler, groups.as_slice())?;
        let grown = grown_flags(alloc, flags, more, parts.as_slice())?;
        let mut entries = new_entries(alloc, held, held + more)?;
        self.table.append(&mut entries)?;
        if let Err(error) = self.mapping.add_groups(rt, alloc, groups, parts.as_slice()) {
            self.table.truncate(held);
            return Err(error);
        }
        *flags = grown;
        Ok(())
    }
}
