//! The time that workers take to add the files of a made-up link to a database and to load its objects, beside that of a plain map and of plain work lists.

ghost use Rattle.std.specs.Prelude.{◌≡◌, ◌≤◌, IfOk, length};
ghost use Rattle.link_closure.specs.Graph.{AreInRange};
ghost use Rattle.link_db.specs.Database.{symbol_names};
ghost use Rattle.link_db.specs.Seen.{seen};
ghost use Rattle.link_flags.specs.FlagWords.{words_of};
ghost use Rattle.link_resolve.specs.Known.{IsListed};

use crate::graphs::{chain, fan, reached, tree};
use crate::loading::{count_of, opened};
use crate::looking::{names_in_map, reached_by_names};
use crate::shape::{Shape, chain_files, inputs_of};
use link_claim::OpenGate;
use link_closure::Edge;
use link_db::SymbolDb;
use link_flags::PerSymbolFlags;
use link_input::{ElfLike, Inputs};
use link_names::parse_number;
use link_resolve::Resolver;
use link_rules::LinkError;
use std::alloc::{AllocError, Global};
use std::io;
use std::rt::Clock;
use std::thread::Threads;
use std::time::Instant;
use thiserror::Error;

/// Why nothing was timed.
#[derive(Clone, Copy, Debug, PartialEq, Eq, Error)]
pub(crate) enum Fault {
    #[error("usage: line|chain|fan|tree OBJECTS WORKERS, with 1 to 256 workers")]
    Usage,
    #[error("memory ran out")]
    Memory,
    #[error("a stream or the clock fails")]
    Stream,
    #[error("the link is refused")]
    Refused,
}

impl From<AllocError> for Fault {
    fn from(_: AllocError) -> Self {
        Fault::Memory
    }
}

impl From<io::Error> for Fault {
    fn from(_: io::Error) -> Self {
        Fault::Stream
    }
}

impl From<LinkError> for Fault {
    fn from(_: LinkError) -> Self {
        Fault::Refused
    }
}

/// Says how many microseconds something took since the start, and begins anew.
fn lap<R: Clock + Eprint>(rt: &R, start: Instant, what: &str) -> Result<Instant, Fault> {
    let micros = start.elapsed(rt)?.as_micros();
    eprintln!(rt; "{what} {micros}")?;
    Ok(Instant::now(rt)?)
}

/// The edges of a kind of link, with one reference a member in a line, and ten in a chain and in a fan.
fn edges_of(alloc: Global, kind: &str, count: usize) -> Result<Vec<Edge>, Fault>
    ensures { IfOk result (λ edges. AreInRange count edges.items) }
{
    match kind {
        "line" => Ok(chain(alloc, count, 1)?),
        "chain" => Ok(chain(alloc, count, 10)?),
        "fan" => Ok(fan(alloc, count, 10)?),
        "tree" => Ok(tree(alloc, count)?),
        _ => Err(Fault::Usage),
    }
}

/// The files of a kind of link with these edges. A line is the made-up link in which each member refers to the next one.
/// What they hold is left open: what is loaded of them shows it.
fn files_of(
    alloc: Global,
    kind: &str,
    count: usize,
    edges: &[Edge],
) -> Result<Inputs<ElfLike>, Fault> {
    match (kind, count) {
        ("line", 2..=100_001) => Ok(chain_files(alloc, count - 1)?),
        ("line", _) => Err(Fault::Usage),
        _ => Ok(inputs_of(alloc, &Shape::of_edges(alloc, 1, count, edges)?)?),
    }
}

/// Loads the objects of a database, and then points its symbols to what they stand for. How many objects are loaded, and how many requests references made.
fn time_loading<R: Threads + Sync + Clock + Eprint>(
    rt: &R,
    alloc: Global,
    workers: usize,
    db: &mut SymbolDb<ElfLike>,
    flags: &mut PerSymbolFlags,
) -> Result<(usize, u64), Fault>
    requires listed { IsListed (seen db.old) }
    requires flags { length (words_of flags.old) ≡ length (symbol_names (seen db.old)) }
{
    let mut resolver = Resolver::new(alloc);
    let start = Instant::now(rt)?;
    let read = resolver.load_batch(rt, alloc, &OpenGate, workers, db, flags)?;
    let loaded = lap(rt, start, "loaded")?;
    resolver.point_references(alloc, db)?;
    lap(rt, loaded, "pointed")?;
    Ok((count_of(resolver.resolved().loaded()), read.requests))
}

/// How many of so many numbers the plain work list finds.
fn time_list<R: Clock + Eprint>(
    rt: &R,
    alloc: Global,
    count: usize,
    edges: &[Edge],
) -> Result<usize, Fault>
    requires { AreInRange count edges.now }
{
    let start = Instant::now(rt)?;
    let marks = reached(alloc, 1, count, edges)?;
    lap(rt, start, "listed")?;
    Ok(count_of(&marks))
}

/// How many objects of a database the plain work list finds that looks names up.
fn time_names<R: Clock + Eprint>(
    rt: &R,
    alloc: Global,
    db: &SymbolDb<ElfLike>,
) -> Result<usize, Fault> {
    let start = Instant::now(rt)?;
    let marks = reached_by_names(alloc, db)?;
    lap(rt, start, "looked up")?;
    Ok(count_of(&marks))
}

/// The number that a word spells.
fn number_of(word: &String) -> Result<usize, Fault> {
    match parse_number(word.as_str()) {
        Ok(number) => Ok(number as usize),
        Err(()) => Err(Fault::Usage),
    }
}

/// How many workers a word asks for.
fn workers_of(word: &String) -> Result<usize, Fault>
    ensures { IfOk result (λ workers. (1 ≤ workers) × (workers ≤ 256)) }
{
    match number_of(word)? {
        workers @ 1..=256 => Ok(workers),
        _ => Err(Fault::Usage),
    }
}

/// Puts the names that the files of a link define into a plain map. How many there are.
fn time_map<R: Clock + Eprint>(
    rt: &R,
    alloc: Global,
    files: &Inputs<ElfLike>,
) -> Result<usize, Fault> {
    let start = Instant::now(rt)?;
    let names = names_in_map(alloc, files)?;
    lap(rt, start, "mapped")?;
    Ok(names)
}

/// Times the plain work list that looks names up, the loading of a database's objects, and the plain work list over known edges. Says how many
/// objects each finds, and how many requests there are.
fn time_both<R: Threads + Sync + Clock + Print + Eprint>(
    rt: &R,
    alloc: Global,
    workers: usize,
    count: usize,
    edges: &[Edge],
    db: &mut SymbolDb<ElfLike>,
    flags: &mut PerSymbolFlags,
) -> Result<(), Fault>
    requires edges { AreInRange count edges.now }
    requires listed { IsListed (seen db.old) }
    requires flags { length (words_of flags.old) ≡ length (symbol_names (seen db.old)) }
{
    let looked_up = time_names(rt, alloc, db)?;
    let (loaded, requests) = time_loading(rt, alloc, workers, db, flags)?;
    let listed = time_list(rt, alloc, count, edges)?;
    println!(rt; "{loaded} {looked_up} {listed} {requests}")?;
    Ok(())
}

/// Adds the files of a link to a database, and then times the loading of its objects.
fn time_link<R: Threads + Sync + Clock + Print + Eprint>(
    rt: &R,
    alloc: Global,
    workers: usize,
    count: usize,
    edges: &[Edge],
    files: Inputs<ElfLike>,
) -> Result<(), Fault>
    requires workers { (1 ≤ workers) × (workers ≤ 256) }
    requires edges { AreInRange count edges.now }
{
    let mut flags = PerSymbolFlags::new(alloc);
    let start = Instant::now(rt)?;
    let mut db = opened(rt, alloc, workers, &mut flags, files)?;
    lap(rt, start, "added")?;
    // By reference, so that one arm alone lets the database go.
    time_both(rt, alloc, workers, count, edges, &mut db, &mut flags)
}

/// Times what words tell: how long the files of a link take to come into a database, and its objects to be loaded by threads, beside plain ways.
/// What it writes is left open: figures are no promise.
pub(crate) fn bench<R: Threads + Sync + Clock + Print + Eprint>(
    rt: &R,
    alloc: Global,
    words: &[String],
) -> Result<(), Fault> {
    let [kind, objects, workers] = words else {
        return Err(Fault::Usage);
    };
    let count = number_of(objects)?;
    let workers = workers_of(workers)?;
    let edges = edges_of(alloc, kind, count)?;
    let files = files_of(alloc, kind, count, &edges)?;
    let names = time_map(rt, alloc, &files)?;
    println!(rt; "{names} names")?;
    time_link(rt, alloc, workers, count, &edges, files)
}
