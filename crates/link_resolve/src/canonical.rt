//! The end of a link's resolution: what stands for undefined references, new symbols, and the flags of all symbols.

ghost use Rattle.std.specs.Prelude.{◌≡◌, ◌+◌, ◌*◌, ◌<◌, ◌^◌, [], ℕ, All, IfOk, List, OnOk, length, map};
ghost use Rattle.link_resolve_discarded.specs.Indexed.{AreGroupsOf};
ghost use Rattle.link_db_files.specs.GroupFiles.{symbols_in};
ghost use Rattle.link_db_files.specs.Inputs.{objects_in};
ghost use Rattle.link_db_mapping.specs.Mapped.{mapping_of};
ghost use Rattle.link_flags.specs.FlagWords.{numbers_of, words_of};
ghost use Rattle.link_rules.specs.FinalFlags.{final_flags, signature_symbols};
ghost use Rattle.link_rules.specs.Places.{Bytes};
ghost use Rattle.link_rules.specs.Rivals.{two_steps, versioned_table};
ghost use Rattle.link_rules.specs.Selection.{Selection};
ghost use Rattle.link_rules.specs.Undefined.{boundary_makers, final_table, left_undefined, resolved};
ghost use Rattle.link_rules.specs.Visibility.{narrowed_flags};
ghost use Rattle.link_resolve_undefined.specs.UndefinedNames.{undefined_references};
ghost use Rattle.link_db.specs.Database.{HasTable, symbol_names};
ghost use Rattle.link_db.specs.Seen.{seen};
ghost use Rattle.link_resolve.specs.Settled.{IsSettled, boundary_names, meaning_at_end, with_linker_group};

use crate::resolver::Resolver;
use crate::signatures::mark_signatures;
use crate::undefined::canonicalise_references;
use link_db::SymbolDb;
use link_flags::PerSymbolFlags;
use link_ids::SymbolId;
use link_input::{OutputKind, Platform};
use link_names::Name;
use link_resolve_discarded::{LoadedGroups, signature_ids};
use std::alloc::{AllocError, Global};

/// The symbols that name the groups of the output: there are such groups where it is an object again.
fn group_signatures<P: Platform>(
    alloc: Global,
    db: &SymbolDb<P>,
    groups: &LoadedGroups,
) -> Result<Vec<SymbolId>, AllocError>
    ensures ids { IfOk result (λ ids. (l : Selection) → l.stage.objects ≡ objects_in (seen db.now).mapping.files.groups
        → l.stage.symbols ≡ symbols_in (seen db.now).mapping.files.groups → l.stage.options ≡ (seen db.now).options → AreGroupsOf l.marks l.stage.objects groups.now
        → (table : List ℕ) → map (two_steps table) ids.items ≡ signature_symbols (record (resolved l) { table = table })) }
    ensures within { IfOk result (λ ids. All (λ id. id < length (symbol_names (seen db.now))) ids.items) }
{
    match db.output_kind() {
        OutputKind::Partial => {
            let ids = signature_ids(alloc, db.files(), groups)?;
            Ok(ids)
        }
        OutputKind::StaticExecutable | OutputKind::DynamicExecutable | OutputKind::SharedObject => {
            Ok(Vec::new(alloc))
        }
    }
}

impl Resolver {
    /// Gives the references that stay undefined what stands for their names: the last reference that asks for the same, or a new symbol for
    /// the start or the end of one of these custom sections, which are those of the options. The new symbols stand in a group of their own
    /// behind all files, also where none is made, and each is what its name is mapped to, if that was mapped to nothing. Then the table and
    /// the flags are those of the link at its end. The answer is the references that stand for undefined names, in the order of their ids: of
    /// those that ask for the same the last, where no new symbol is made. It comes once, behind
    /// `resolve_alternative_symbol_definitions` and `SymbolDb::handle_rust_version_script`. Mirrors Wild's `canonicalise_undefined_symbols`.
    ///
    /// The only refusal is want of memory; then database and flags are of no use.
    pub fn canonicalise_undefined<P: Platform>(
        &self,
        alloc: Global,
        db: &mut SymbolDb<P>,
        flags: &mut PerSymbolFlags,
        custom_sections: &[Name],
    ) -> Result<Vec<SymbolId>, AllocError>
        requires added { (seen db.old).mapping.files.added ≡ [] }
        requires table { HasTable (seen db.old) }
        requires flags { length (words_of flags.old) ≡ length (symbol_names (seen db.old)) }
        requires groups { length (seen db.old).mapping.files.groups < 2 ^ 24 }
        requires fits { length (symbol_names (seen db.old)) + 2 * length custom_sections.now < 2 ^ 32 }
        ensures table { OnOk result ((l : Selection) → IsSettled (seen db.old) self.now.known l → l.stage.options.custom_sections ≡ custom_sections.now
            → (seen db.old).table ≡ versioned_table l → (seen db.new).table ≡ final_table l) }
        ensures flags { OnOk result ((l : Selection) → IsSettled (seen db.old) self.now.known l → l.stage.options.custom_sections ≡ custom_sections.now
            → (seen db.old).table ≡ versioned_table l → AreGroupsOf l.marks l.stage.objects self.now.groups → numbers_of (words_of flags.old) ≡ narrowed_flags l
            → numbers_of (words_of flags.new) ≡ final_flags (resolved l)) }
        ensures added { OnOk result ((l : Selection) → IsSettled (seen db.old) self.now.known l → l.stage.options.custom_sections ≡ custom_sections.now
            → (seen db.new).mapping.files.added ≡ map (λ m. m.1.name) (boundary_makers l.stage (left_undefined l))) }
        ensures mapping { OnOk result ((l : Selection) → IsSettled (seen db.old) self.now.known l → l.stage.options.custom_sections ≡ custom_sections.now
            → (seen db.new).mapping ≡ with_linker_group (boundary_names l) (seen db.old).mapping) }
        ensures meanings { OnOk result ((l : Selection) → IsSettled (seen db.old) self.now.known l → l.stage.options.custom_sections ≡ custom_sections.now
            → (name : Bytes) → mapping_of (seen db.new).mapping name ≡ meaning_at_end l name) }
        ensures symbols { OnOk result (symbols_in (seen db.new).mapping.files.groups ≡ symbols_in (seen db.old).mapping.files.groups) }
        ensures objects { OnOk result (objects_in (seen db.new).mapping.files.groups ≡ objects_in (seen db.old).mapping.files.groups) }
        ensures options { OnOk result ((seen db.new).options ≡ (seen db.old).options) }
        ensures rules { OnOk result ((seen db.new).rules ≡ (seen db.old).rules) }
        ensures whole { OnOk result (HasTable (seen db.new)) }
        ensures words { OnOk result (length (words_of flags.new) ≡ length (symbol_names (seen db.new))) }
        ensures undefined { IfOk result (λ ids. (l : Selection) → IsSettled (seen db.old) self.now.known l → l.stage.options.custom_sections ≡ custom_sections.now
            → ids.items ≡ map (λ u. u.0) (undefined_references l.stage (left_undefined l))) }
        ensures undefined_within { IfOk result (λ ids. All (λ s. s < length (symbols_in (seen db.old).mapping.files.groups)) ids.items) }
    {
        let signatures = group_signatures(alloc, db, &self.groups)?;
        let undefined = canonicalise_references(alloc, db, flags, &self.resolved, custom_sections)?;
        mark_signatures(db, &signatures, flags);
        Ok(undefined)
    }
}
