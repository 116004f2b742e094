//! The resolver: which objects of a link are loaded, and what follows for each symbol.

ghost use Rattle.std.specs.Prelude.{◌≡◌, ◌≤◌, ◌<◌, [], All, Bool, IfOk, List, OnErr, OnOk, length};
ghost use Rattle.link_resolve_discarded.specs.Checked.{WereGroupsFine};
ghost use Rattle.link_resolve_discarded.specs.Indexed.{AreGroupsOf, no_groups};
ghost use Rattle.link_db_files.specs.GroupFiles.{symbols_in};
ghost use Rattle.link_db_files.specs.Inputs.{objects_in};
ghost use Rattle.link_flags.specs.FlagWords.{numbers_of, words_of};
ghost use Rattle.link_db_texts.specs.Causes.{TellsCause};
ghost use Rattle.link_db_texts.specs.Holds.{platform_of};
ghost use Rattle.link_resolve_extraction.specs.Requests.{requests_of};
ghost use Rattle.link_rules.specs.Work.{workload_of};
ghost use Rattle.link_rules.specs.Places.{Bytes};
ghost use Rattle.link_rules.specs.Refusals.{group_refusal};
ghost use Rattle.link_rules.specs.Rivals.{reference_table};
ghost use Rattle.link_rules.specs.Selection.{Selection, selection_of};
ghost use Rattle.link_rules.specs.World.{Stage};
ghost use Rattle.link_db_symbols.specs.Lookups.{AreBelow};
ghost use Rattle.link_db.specs.Database.{HasTable, symbol_names};
ghost use Rattle.link_db.specs.Seen.{seen};
ghost use Rattle.link_resolve.specs.Known.{IsListed, IsLoadedSelection, IsSelection};
ghost use Rattle.link_resolve.specs.NextBatch.{AreAllRead, AreLoadedNext, AreMarkedAt, AreOfNextWork, AtNextStages, IsCounted, IsPointed, IsPointedAt, IsReadNext, IsReadyFor};
ghost use Rattle.link_resolve.specs.Resolving.{known_of, loading_cause, nothing_known, with_groups};

use crate::definitions::{Definitions, names_are_mapped_to_symbols};
use crate::resolved::Resolved;
use link_claim::{Closed, Gate};
use link_db::SymbolDb;
use link_db_symbols::{reference_table, surviving_strengths};
use link_flags::PerSymbolFlags;
use link_ids::SymbolId;
use link_input::Platform;
use link_resolve_discarded::{LoadedGroups, check_groups};
use link_resolve_extraction::{BatchRead, LoadedObjects, load_objects, read_targets, write_flags};
use link_rules::LinkError;
use std::alloc::{AllocError, Global};
use std::marker::Model;
use std::thread::Threads;

/// What is known of a link, batch by batch: which objects are loaded, what the references of these stand for, how strongly each symbol
/// binds, and which section groups are kept. Mirrors Wild's `Resolver`.
pub struct Resolver {
    pub(crate) resolved: Resolved,
    pub(crate) groups: LoadedGroups,
}

// By hand, so that what lets one go makes one call and does not name its parts.
impl Drop for Resolver {
    fn drop(self) {
        let Self {
            resolved: _,
            groups: _,
        } = self;
    }
}

/// The loaded objects, and what was found in them, by what was known before the batch.
fn loaded_objects<R: Threads + Sync, G: Gate + Sync, P: Platform + Sync>(
    rt: &R,
    alloc: Global,
    gate: &G,
    workers: usize,
    db: &SymbolDb<P>,
    earlier: &Resolved,
    flags: &PerSymbolFlags,
) -> Result<LoadedObjects, AllocError>
    requires loaded { length earlier.now.marks ≤ length (objects_in (seen db.now).mapping.files.groups) }
    ensures { IfOk result (AreLoadedNext (platform_of P.Platform) (seen db.now) earlier.now (numbers_of (words_of flags.now)) workers) }
{
    // Any number that is asked for: 256 workers at most, and one at least.
    let workers = workers.max(1).min(256);
    let found = load_objects(
        rt,
        alloc,
        gate,
        workers,
        db,
        earlier.loaded(),
        earlier.targets(),
        flags,
    )?;
    Ok(found)
}

/// The loaded objects of a batch, and the section groups of the regular ones among them.
fn loaded_with_groups<R: Threads + Sync, G: Gate + Sync, P: Platform + Sync>(
    rt: &R,
    alloc: Global,
    gate: &G,
    workers: usize,
    db: &SymbolDb<P>,
    earlier: &Resolved,
    flags: &PerSymbolFlags,
) -> Result<(LoadedObjects, LoadedGroups), LinkError>
    requires loaded { length earlier.now.marks ≤ length (objects_in (seen db.now).mapping.files.groups) }
    ensures cause { AtNextStages (platform_of P.Platform) (seen db.now) earlier.now (λ _ w marks. TellsCause (group_refusal (selection_of w marks)) result) }
    ensures found { IfOk result (λ found. AreLoadedNext (platform_of P.Platform) (seen db.now) earlier.now (numbers_of (words_of flags.now)) workers found.0) }
    ensures groups { IfOk result (λ found. AtNextStages (platform_of P.Platform) (seen db.now) earlier.now (λ _ w marks. AreGroupsOf marks w.objects found.1)) }
{
    let found = loaded_objects(rt, alloc, gate, workers, db, earlier, flags)?;
    let groups = LoadedGroups::select(alloc, db.groups(), &found.loaded)?;
    Ok((found, groups))
}

/// What is known once the objects of a batch are loaded, the groups of those, and what is left of the reading.
fn resolve_objects<R: Threads + Sync, G: Gate + Sync, P: Platform + Sync>(
    rt: &R,
    alloc: Global,
    gate: &G,
    workers: usize,
    db: &SymbolDb<P>,
    earlier: &Resolved,
    flags: &PerSymbolFlags,
) -> Result<(Resolved, LoadedGroups, BatchRead), LinkError>
    requires loaded { length earlier.now.marks ≤ length (objects_in (seen db.now).mapping.files.groups) }
    requires targets { AreBelow (length (symbol_names (seen db.now))) earlier.now.targets }
    ensures cause { AtNextStages (platform_of P.Platform) (seen db.now) earlier.now (λ _ w marks. TellsCause (group_refusal (selection_of w marks)) result) }
    ensures known { IfOk result (λ found. AtNextStages (platform_of P.Platform) (seen db.now) earlier.now (λ _ w marks. found.0 ≡ known_of (selection_of w marks))) }
    ensures groups { IfOk result (λ found. AtNextStages (platform_of P.Platform) (seen db.now) earlier.now (λ _ w marks. AreGroupsOf marks w.objects found.1)) }
    ensures below { IfOk result (λ found. AreBelow (length (symbol_names (seen db.now))) found.0.targets) }
    ensures strengths { IfOk result (λ found. length found.0.strengths ≡ length (symbols_in (seen db.now).mapping.files.groups)) }
    ensures read { IfOk result (λ found. IsReadNext (platform_of P.Platform) (seen db.now) earlier.now (numbers_of (words_of flags.now)) workers found.0.marks found.2) }
{
    let (found, groups) = loaded_with_groups(rt, alloc, gate, workers, db, earlier, flags)?;
    let LoadedObjects {
        read,
        loaded,
        found,
    } = found;
    let targets = read_targets(alloc, db.num_symbols(), earlier.targets(), &found)?;
    let strengths = surviving_strengths(alloc, db.files(), &loaded, &groups)?;
    let resolved = Resolved::new(loaded, targets, strengths);
    Ok((resolved, groups, read))
}

/// What each symbol points to before rivals are settled.
fn first_table<P: Platform>(
    alloc: Global,
    db: &SymbolDb<P>,
    resolved: &Resolved,
) -> Result<Vec<SymbolId>, AllocError>
    requires listed { IsListed (seen db.now) }
    requires below { AreBelow (length (symbol_names (seen db.now))) resolved.now.targets }
    ensures table { IfOk result (λ table. (demangle : Bytes → Bytes) (l : Selection) → IsLoadedSelection (platform_of P.Platform) demangle (seen db.now) resolved.now l
        → table.items ≡ reference_table l) }
    ensures whole { IfOk result (λ table. length table.items ≡ length (symbol_names (seen db.now))) }
    ensures within { IfOk result (λ table. All (λ entry. entry < length (symbol_names (seen db.now))) table.items) }
{
    names_are_mapped_to_symbols(db);
    let table = reference_table(alloc, db.files(), &Definitions { db }, resolved.targets())?;
    Ok(table)
}

impl Model for Resolver {
    ghost use Rattle.link_resolve.specs.Resolving.{Resolving};

    ghost Value = { Resolving };

    ghost view = { λ r. record { known = r.resolved; groups = r.groups } };
}

impl Resolver {
    /// A resolver that has loaded nothing and knows no groups. Takes no memory.
    pub fn new(alloc: Global) -> Self
        ensures known { result.known ≡ nothing_known }
        ensures groups { result.groups ≡ no_groups }
    {
        Resolver {
            resolved: Resolved::new(Vec::new(alloc), Vec::new(alloc), Vec::new(alloc)),
            groups: LoadedGroups::none(alloc),
        }
    }

    /// What is known of the symbols, as `resolve_alternative_symbol_definitions` asks for it.
    pub fn resolved(&self) -> &Resolved
        ensures { result.now ≡ self.now.known }
    {
        &self.resolved
    }

    /// The section groups of the loaded regular objects; those of none behind `load_batch`, before `point_references` chooses among them.
    pub fn loaded_groups(&self) -> &LoadedGroups
        ensures { result.now ≡ self.now.groups }
    {
        &self.groups
    }

    /// `resolve_symbols_and_select_archive_entries`, which also answers how many requests the references of loaded objects make, one for each
    /// time that one of them asks for an object, and none for what is loaded whatever refers to it; and how many workers read. Both are numbers
    /// of the batch, whatever the threads did.
    pub fn resolve_counted<R: Threads + Sync, G: Gate + Sync, P: Platform + Sync>(
        &mut self,
        rt: &R,
        alloc: Global,
        gate: &G,
        workers: usize,
        db: &mut SymbolDb<P>,
        flags: &mut PerSymbolFlags,
    ) -> Result<BatchRead, LinkError>
        requires { IsReadyFor self.old.known (seen db.old) }
        ensures cause { AtNextStages (platform_of P.Platform) (seen db.old) self.old.known (λ _ w marks. TellsCause (loading_cause w marks) result) }
        ensures pointed { OnOk result (AtNextStages (platform_of P.Platform) (seen db.old) self.old.known (λ demangle w marks.
            IsPointedAt (platform_of P.Platform) demangle w marks (seen db.new) self.new)) }
        ensures marked { OnOk result (AtNextStages (platform_of P.Platform) (seen db.old) self.old.known (λ _ w marks.
            AreMarkedAt w marks (numbers_of (words_of flags.old)) (numbers_of (words_of flags.new)))) }
        ensures work { IfOk result (λ read. AreOfNextWork (platform_of P.Platform) (seen db.old) self.old.known (numbers_of (words_of flags.old)) read.closed) }
        ensures requests { IfOk result (λ read. AtNextStages (platform_of P.Platform) (seen db.old) self.old.known (λ _ w marks. read.requests ≡ requests_of (workload_of w) marks)) }
        ensures counted { IfOk result (IsCounted workers self.new.known.marks) }
        ensures read { IfOk result (λ read. AreAllRead read.closed) }
        ensures database { OnOk result (IsPointed (seen db.old) (seen db.new) self.new.known) }
        ensures flags { length (words_of flags.new) ≡ length (words_of flags.old) }
        ensures unchanged { OnErr result (self.new ≡ self.old) }
        ensures db_unchanged { OnErr result (seen db.new ≡ seen db.old) }
        ensures flags_unchanged { OnErr result (words_of flags.new ≡ words_of flags.old) }
    {
        if db.num_regular_objects() == 0 {
            return Err(LinkError::NoInputs);
        }
        let (resolved, groups, read) = resolve_objects(
            rt,
            alloc,
            gate,
            workers,
            db,
            &self.resolved,
            flags,
        )?;
        let table = first_table(alloc, db, &resolved)?;
        write_flags(&read.closed, db.num_symbols(), flags);
        db.restore_definitions(table);
        self.resolved = resolved;
        self.groups = groups;
        Ok(read)
    }

    /// Loads the objects of a batch as `resolve_counted` does, and tells the same of the reading; which section groups are kept, what each symbol points to,
    /// and how strongly it binds, is left to `point_references`, which is asked once behind the last batch. So a batch doesn't pay for all objects and symbols of
    /// those before it: of the groups it looks at those alone of objects that it loads itself, where earlier batches were not refused for theirs.
    pub fn load_batch<R: Threads + Sync, G: Gate + Sync, P: Platform + Sync>(
        &mut self,
        rt: &R,
        alloc: Global,
        gate: &G,
        workers: usize,
        db: &SymbolDb<P>,
        flags: &mut PerSymbolFlags,
    ) -> Result<BatchRead, LinkError>
        requires { IsReadyFor self.old.known (seen db.now) }
        ensures cause { AtNextStages (platform_of P.Platform) (seen db.now) self.old.known (λ _ w marks. WereGroupsFine w → TellsCause (loading_cause w marks) result) }
        ensures selection { OnOk result (AtNextStages (platform_of P.Platform) (seen db.now) self.old.known (λ demangle w marks.
            IsLoadedSelection (platform_of P.Platform) demangle (seen db.now) self.new.known (selection_of w marks))) }
        ensures marked { OnOk result (AtNextStages (platform_of P.Platform) (seen db.now) self.old.known (λ _ w marks.
            AreMarkedAt w marks (numbers_of (words_of flags.old)) (numbers_of (words_of flags.new)))) }
        ensures work { IfOk result (λ read. AreOfNextWork (platform_of P.Platform) (seen db.now) self.old.known (numbers_of (words_of flags.old)) read.closed) }
        ensures requests { IfOk result (λ read. AtNextStages (platform_of P.Platform) (seen db.now) self.old.known (λ _ w marks. read.requests ≡ requests_of (workload_of w) marks)) }
        ensures counted { IfOk result (IsCounted workers self.new.known.marks) }
        ensures read { IfOk result (λ read. AreAllRead read.closed) }
        ensures groups { OnOk result (self.new.groups ≡ no_groups) }
        ensures targets { OnOk result (AreBelow (length (symbol_names (seen db.now))) self.new.known.targets) }
        ensures strengths { OnOk result (self.new.known.strengths ≡ []) }
        ensures flags { length (words_of flags.new) ≡ length (words_of flags.old) }
        ensures unchanged { OnErr result (self.new ≡ self.old) }
        ensures flags_unchanged { OnErr result (words_of flags.new ≡ words_of flags.old) }
    {
        if db.num_regular_objects() == 0 {
            return Err(LinkError::NoInputs);
        }
        let found = loaded_objects(rt, alloc, gate, workers, db, &self.resolved, flags)?;
        check_groups(alloc, db.files(), self.resolved.loaded(), &found.loaded)?;
        let LoadedObjects {
            read,
            loaded,
            found,
        } = found;
        let symbols = db.num_symbols();
        self.resolved.add_batch(alloc, loaded, symbols, &found)?;
        write_flags(&read.closed, symbols, flags);
        self.groups = LoadedGroups::none(alloc);
        Ok(read)
    }

    /// Behind the last batch: the section groups that are kept are chosen, each symbol points to what it stands for before rivals are settled, and it is known how
    /// strongly each symbol binds. What was loaded by `load_batch` is then as `resolve_counted` leaves it.
    ///
    /// It is refused with `SectionInTwoGroups` where a loaded regular object lists a section as a member twice, which `load_batch` has refused before, and with
    /// `Memory`. Then resolver and database are as before.
    pub fn point_references<P: Platform>(
        &mut self,
        alloc: Global,
        db: &mut SymbolDb<P>,
    ) -> Result<(), LinkError>
        requires listed { IsListed (seen db.old) }
        requires targets { AreBelow (length (symbol_names (seen db.old))) self.old.known.targets }
        ensures cause { (demangle : Bytes → Bytes) (w : Stage) (marks : List Bool)
            → IsLoadedSelection (platform_of P.Platform) demangle (seen db.old) self.old.known (selection_of w marks) → TellsCause (group_refusal (selection_of w marks)) result }
        ensures selection { OnOk result ((demangle : Bytes → Bytes) (w : Stage) (marks : List Bool)
            → IsLoadedSelection (platform_of P.Platform) demangle (seen db.old) self.old.known (selection_of w marks)
            → IsSelection (platform_of P.Platform) demangle (seen db.new) self.new.known (selection_of w marks)) }
        ensures groups { OnOk result ((demangle : Bytes → Bytes) (w : Stage) (marks : List Bool)
            → IsLoadedSelection (platform_of P.Platform) demangle (seen db.old) self.old.known (selection_of w marks) → AreGroupsOf marks w.objects self.new.groups) }
        ensures table { OnOk result ((demangle : Bytes → Bytes) (l : Selection) → IsLoadedSelection (platform_of P.Platform) demangle (seen db.old) self.old.known l
            → (seen db.new).table ≡ reference_table l) }
        ensures resolver { self.new ≡ with_groups self.new.groups self.new.known.strengths self.old }
        ensures rest { seen db.new ≡ record (seen db.old) { table = (seen db.new).table } }
        ensures whole { OnOk result (HasTable (seen db.new)) }
        ensures strengths { OnOk result (length self.new.known.strengths ≡ length (symbols_in (seen db.new).mapping.files.groups)) }
        ensures unchanged { OnErr result (self.new ≡ self.old) }
        ensures db_unchanged { OnErr result (seen db.new ≡ seen db.old) }
    {
        let groups = LoadedGroups::select(alloc, db.groups(), self.resolved.loaded())?;
        let strengths = surviving_strengths(alloc, db.files(), self.resolved.loaded(), &groups)?;
        let table = first_table(alloc, db, &self.resolved)?;
        db.restore_definitions(table);
        self.resolved.set_strengths(strengths);
        self.groups = groups;
        Ok(())
    }

    /// Loads the objects of a batch that count: the least set that has those that earlier batches had loaded, those that aren't optional and
    /// those of the root names, and with each object all that its references ask for. Each symbol points to what it stands for before rivals
    /// are settled, and the flags of what is referred to are joined with what references give. Mirrors Wild's call of this name.
    ///
    /// So many workers read the work items of these objects, 256 at most, each item between two calls of the gate; which names and flags they
    /// find there is told by the words that they share, which are the answer. What earlier batches left stands for symbols and objects of the database, which has grown since.
    ///
    /// It is refused with `NoInputs` where there is no object, with `SectionInTwoGroups` for the first loaded regular object that lists a
    /// section as a member twice, and with `Memory`. Then resolver, database and flags are as before.
    pub fn resolve_symbols_and_select_archive_entries<
        R: Threads + Sync,
        G: Gate + Sync,
        P: Platform + Sync,
    >(
        &mut self,
        rt: &R,
        alloc: Global,
        gate: &G,
        workers: usize,
        db: &mut SymbolDb<P>,
        flags: &mut PerSymbolFlags,
    ) -> Result<Closed, LinkError>
        requires { IsReadyFor self.old.known (seen db.old) }
        ensures cause { AtNextStages (platform_of P.Platform) (seen db.old) self.old.known (λ _ w marks. TellsCause (loading_cause w marks) result) }
        ensures pointed { OnOk result (AtNextStages (platform_of P.Platform) (seen db.old) self.old.known (λ demangle w marks.
            IsPointedAt (platform_of P.Platform) demangle w marks (seen db.new) self.new)) }
        ensures marked { OnOk result (AtNextStages (platform_of P.Platform) (seen db.old) self.old.known (λ _ w marks.
            AreMarkedAt w marks (numbers_of (words_of flags.old)) (numbers_of (words_of flags.new)))) }
        ensures work { IfOk result (AreOfNextWork (platform_of P.Platform) (seen db.old) self.old.known (numbers_of (words_of flags.old))) }
        ensures read { IfOk result AreAllRead }
        ensures database { OnOk result (IsPointed (seen db.old) (seen db.new) self.new.known) }
        ensures flags { length (words_of flags.new) ≡ length (words_of flags.old) }
        ensures unchanged { OnErr result (self.new ≡ self.old) }
        ensures db_unchanged { OnErr result (seen db.new ≡ seen db.old) }
        ensures flags_unchanged { OnErr result (words_of flags.new ≡ words_of flags.old) }
    {
        let read = self.resolve_counted(rt, alloc, gate, workers, db, flags)?;
        let BatchRead { closed, .. } = read;
        Ok(closed)
    }
}
