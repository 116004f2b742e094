//! The database, and what it lends.

ghost use Rattle.link_db_mapping.specs.Seen.{seen};
ghost use Rattle.link_db.specs.Database.{IsSound};

use link_db_files::Files;
use link_db_mapping::SymbolMapping;
use link_db_texts::TextRules;
use link_ids::SymbolId;
use link_input::{Options, OutputKind, Platform, Scripts};
use link_input_groups::Group;
use link_names::Name;
use link_rules::LinkError;
use link_script::{ExportList, VersionScript};
use std::alloc::Global;

/// The files of a link with their symbols, which of these define a name and what it is mapped to, what each symbol points to, and what the
/// scripts say of names. Mirrors Wild's `SymbolDb`. A contract sees what `seen` tells of it.
pub struct SymbolDb<P: Platform> {
    pub(crate) options: Options,
    pub(crate) rules: TextRules<P>,
    pub(crate) workers: usize,
    pub(crate) mapping: SymbolMapping<P>,
    /// What each symbol points to.
    pub(crate) table: Vec<SymbolId>,
    ghost sound: { IsSound (record { options = options; rules = rules; workers = workers; mapping = seen mapping; table = table.items }) },
}

// By hand, so that what lets one go makes one call and does not name its parts.
impl<P: Platform> Drop for SymbolDb<P> {
    fn drop(self) {
        let Self {
            options: _,
            rules: _,
            workers: _,
            mapping: _,
            table: _,
        } = self;
    }
}

impl<P: Platform> SymbolDb<P> {
    ghost use Rattle.std.specs.Prelude.{◌≡◌, ◌≤◌, ◌&&◌, [], IfOk, is_some, option_map};
    ghost use Rattle.link_input.specs.declared.options.Options.{Options};
    ghost use Rattle.link_rules.specs.Places.{Bytes};
    ghost use Rattle.link_rules.specs.Refusals.{text_refusal};
    ghost use Rattle.link_rules.specs.Rules.{Rules};
    ghost use Rattle.link_rules.specs.World.{World};
    ghost use Rattle.link_db_texts.specs.Causes.{IsGiven, TellsCause};
    ghost use Rattle.link_db_texts.specs.Holds.{AreRulesOf, HoldsTexts, platform_of};
    ghost use Rattle.link_db.specs.Database.{no_names};
    ghost use Rattle.link_db.specs.Seen as db;

    /// Reads the texts of the options: the version script, the export list, and the forced export names. There are no files yet. Names
    /// stand in as many buckets as there are workers, which no answer shows.
    ///
    /// It is refused with the first cause, in this order, each at its place, and with `Memory`.
    pub fn new(
        alloc: Global,
        options: Options,
        texts: &Scripts,
        workers: usize,
    ) -> Result<Self, LinkError>
        requires workers { (1 ≤ workers) × (workers ≤ 256) }
        requires files { (1 ≤ options.files_per_group) × (options.files_per_group ≤ 256) }
        ensures cause { (w : World) → IsGiven (platform_of P.Platform) options texts.now w → TellsCause (text_refusal w) result }
        ensures holds { IfOk result (λ made. HoldsTexts (platform_of P.Platform) options texts.now [] (db.seen made).rules) }
        ensures empty { IfOk result (λ made. db.seen made ≡ record { options = options; rules = (db.seen made).rules; workers = workers; mapping = no_names; table = [] }) }
    {
        let rules = TextRules::new(alloc, &options, texts)?;
        let mapping = SymbolMapping::new(alloc, workers)?;
        Ok(SymbolDb {
            options,
            rules,
            workers,
            mapping,
            table: Vec::new(alloc),
        })
    }

    /// The options of the link.
    pub fn options(&self) -> &Options
        ensures { result.now ≡ (db.seen self.now).options }
    {
        &self.options
    }

    /// What kind of output is linked.
    pub fn output_kind(&self) -> OutputKind
        ensures { result ≡ (db.seen self.now).options.output }
    {
        self.options.output
    }

    /// The files.
    pub fn files(&self) -> &Files<P>
        ensures { result.now ≡ (db.seen self.now).mapping.files }
    {
        self.mapping.files()
    }

    /// The groups of files, in order.
    pub fn groups(&self) -> &[Group<P>]
        ensures { result.now ≡ (db.seen self.now).mapping.files.groups }
    {
        self.mapping.files().groups()
    }

    /// What the texts of the link say of names.
    pub fn rules(&self) -> &TextRules<P>
        ensures { result.now ≡ (db.seen self.now).rules }
    {
        &self.rules
    }

    /// The version script; that of the base version alone, where none was given.
    pub fn version_script(&self) -> &VersionScript
        ensures { result.now ≡ (db.seen self.now).rules.script }
    {
        self.rules.version_script()
    }

    /// The export list with the forced export names, where there are any.
    pub fn export_list(&self) -> Option<&ExportList>
        ensures { option_map (λ list. list.now) result ≡ (db.seen self.now).rules.list }
    {
        self.rules.export_list()
    }

    /// The names that must be defined, in the order of the export list.
    pub fn required_export_symbols(&self) -> &[Name]
        ensures { (demangle : Bytes → Bytes) (rules : Rules) → AreRulesOf (platform_of P.Platform) demangle (db.seen self.now).rules rules → result.now ≡ rules.required_exports }
    {
        self.rules.required_exports()
    }

    /// Whether there is an export list or a forced export name, on a platform where a list keeps back what it lacks.
    pub fn has_restrictive_export_list(&self) -> bool
        ensures { (demangle : Bytes → Bytes) (rules : Rules) → AreRulesOf (platform_of P.Platform) demangle (db.seen self.now).rules rules
            → result ≡ (P.EXPORT_LIST_RESTRICTS_DEFAULT_EXPORTS && is_some rules.is_exported) }
    {
        self.rules.has_restrictive_export_list()
    }
}
