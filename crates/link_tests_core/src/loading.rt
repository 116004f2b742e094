//! The objects of a link come into a database and are loaded.

ghost use Rattle.std.specs.Prelude.{◌≡◌, ◌≤◌, [], IfOk, OnOk, filter, length};
ghost use Rattle.link_flags.specs.FlagWords.{words_of};
ghost use Rattle.link_db.specs.Database.{HasTable, no_names, symbol_names};
ghost use Rattle.link_db_files.specs.GroupFiles.{symbols_in};
ghost use Rattle.link_db.specs.Seen.{seen};
ghost use Rattle.link_resolve.specs.Known.{IsListed};
ghost use Rattle.link_resolve.specs.Resolving.{nothing_known};

use link_claim::Gate;
use link_db::SymbolDb;
use link_flags::PerSymbolFlags;
use link_input::{ElfLike, Inputs, Options, Scripts};
use link_resolve::Resolver;
use link_rules::LinkError;
use link_script::Plain;
use std::alloc::Global;
use std::thread::Threads;

/// How many marks are set.
pub(crate) fn count_of(marks: &[bool]) -> usize
    ensures { result ≡ length (filter (λ mark. mark) marks.now) }
{
    marks.iter().filter(|mark| **mark).count()
}

/// Adds files to a database that has none.
fn add_files<R: Threads + Sync>(
    rt: &R,
    alloc: Global,
    db: &mut SymbolDb<ElfLike>,
    flags: &mut PerSymbolFlags,
    files: Inputs<ElfLike>,
) -> Result<(), LinkError>
    requires mapping { (seen db.old).mapping ≡ no_names }
    requires table { (seen db.old).table ≡ [] }
    requires flags { words_of flags.old ≡ [] }
    ensures listed { OnOk result (IsListed (seen db.new)) }
    ensures flags { OnOk result (length (words_of flags.new) ≡ length (symbol_names (seen db.new))) }
{
    db.add_inputs(rt, alloc, &Plain, flags, files)?;
    Ok(())
}

/// A database with these options and the files of a link, which so many workers read.
pub(crate) fn opened_with<R: Threads + Sync>(
    rt: &R,
    alloc: Global,
    options: Options,
    workers: usize,
    flags: &mut PerSymbolFlags,
    files: Inputs<ElfLike>,
) -> Result<SymbolDb<ElfLike>, LinkError>
    requires options { (1 ≤ options.files_per_group) × (options.files_per_group ≤ 256) }
    requires workers { (1 ≤ workers) × (workers ≤ 256) }
    requires flags { words_of flags.old ≡ [] }
    ensures listed { IfOk result (λ db. IsListed (seen db)) }
    ensures flags { IfOk result (λ db. length (words_of flags.new) ≡ length (symbol_names (seen db))) }
{
    let texts = Scripts {
        version_script: None,
        export_list: None,
    };
    let mut db = SymbolDb::new(alloc, options, &texts, workers)?;
    // One arm alone lets the database go.
    match add_files(rt, alloc, &mut db, flags, files) {
        Ok(()) => Ok(db),
        Err(error) => Err(error),
    }
}

/// A database with the files of a link, which so many workers read.
pub(crate) fn opened<R: Threads + Sync>(
    rt: &R,
    alloc: Global,
    workers: usize,
    flags: &mut PerSymbolFlags,
    files: Inputs<ElfLike>,
) -> Result<SymbolDb<ElfLike>, LinkError>
    requires workers { (1 ≤ workers) × (workers ≤ 256) }
    requires flags { words_of flags.old ≡ [] }
    ensures listed { IfOk result (λ db. IsListed (seen db)) }
    ensures flags { IfOk result (λ db. length (words_of flags.new) ≡ length (symbol_names (seen db))) }
{
    opened_with(rt, alloc, Options::new(alloc), workers, flags, files)
}

/// Loads the objects of a database by so many workers. How many requests references made.
pub(crate) fn resolve<R: Threads + Sync, G: Gate + Sync>(
    rt: &R,
    alloc: Global,
    gate: &G,
    workers: usize,
    db: &mut SymbolDb<ElfLike>,
    flags: &mut PerSymbolFlags,
    resolver: &mut Resolver,
) -> Result<u64, LinkError>
    requires listed { IsListed (seen db.old) }
    requires flags { length (words_of flags.old) ≡ length (symbol_names (seen db.old)) }
    requires new { resolver.old.known ≡ nothing_known }
    ensures listed { OnOk result (IsListed (seen db.new)) }
    ensures table { OnOk result (HasTable (seen db.new)) }
    ensures known { OnOk result (length resolver.new.known.strengths ≡ length (symbols_in (seen db.new).mapping.files.groups)) }
    ensures flags { OnOk result (length (words_of flags.new) ≡ length (symbols_in (seen db.new).mapping.files.groups)) }
{
    let read = resolver.resolve_counted(rt, alloc, gate, workers, db, flags)?;
    Ok(read.requests)
}
