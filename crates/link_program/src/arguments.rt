//! From the arguments of a process to its status.

ghost use Rattle.std.specs.Prelude.{◌≡◌, ◌≢◌, ◌⊎◌, ◌+◌, ◌^◌, IfErr, IfOk, IsErr, drop, map, string_bytes};
ghost use Rattle.std.specs.IoError.{error_kind};
ghost use Rattle.std.specs.Vec.Iter.{into_iter_items};
ghost use Rattle.link_rules.specs.Places.{Bytes};
ghost use Rattle.link_program_streams.specs.Streams.{IsAtEnd, IsCalledAtMost, GivesAtMost, Takes, Rose};
ghost use Rattle.link_program.specs.Arguments.{words_of_arguments};
ghost use Rattle.link_program.specs.Grammar.{ReadsManifest, ReadsNothing};
ghost use Rattle.link_program.specs.Outcome.{IsCutShort, IsDue, IsOfWholeSource, IsWritten, ReadsAll};

use crate::run::run;
use crate::status::Status;
use crate::word::Word;
use link_program_streams::{Sink, Source};
use std::alloc::{AllocError, Global};
use std::env::Args;
use std::io::{self, ErrorKind};
use std::thread::Threads;

/// The words behind the first argument, which is the program's name.
fn words_behind(alloc: Global, mut args: Args) -> Result<Vec<Word>, AllocError>
    ensures { IfOk result (λ words. words.items ≡ map string_bytes (drop 1 (into_iter_items args))) }
{
    let _name = args.next();
    let mut words = Vec::new(alloc);
    for arg in args {
        words.push(Word::new(arg))?;
    }
    Ok(words)
}

/// The words of a command: none where an argument is no text, which is no command then. It refuses for want of memory alone, also where the system
/// had none for the arguments.
fn words_from(alloc: Global, args: io::Result<Args>) -> Result<Vec<Word>, AllocError>
    ensures words { IfOk result (λ words. words.items ≡ words_of_arguments args) }
    ensures memory { IfErr args (λ error. error_kind error ≡ ErrorKind.OutOfMemory → IsErr result) }
{
    match args {
        Ok(args) => words_behind(alloc, args),
        Err(error) if error.kind() == ErrorKind::OutOfMemory => Err(AllocError),
        Err(_) => Ok(Vec::new(alloc)),
    }
}

/// Runs the command that the arguments of a process write, as `run` does of its words.
pub fn run_with_arguments<R: Threads + Sync, S: Source, K: Sink>(
    rt: &R,
    alloc: Global,
    args: io::Result<Args>,
    source: &mut S,
    sink: &mut K,
) -> Status
    ensures written { IsWritten (words_of_arguments args) (S.left source.old) result (K.taken sink.old) (K.taken sink.new) }
    ensures part { IsCutShort (words_of_arguments args) (S.left source.old) result (λ status. (status ≡ Status.ReadFault → Rose (S.faults source.old) (S.faults source.new))
        × (ReadsManifest (words_of_arguments args) → ReadsAll status → IsAtEnd (S.left source.new))) (K.taken sink.old) (K.taken sink.new) }
    ensures nothing_left { ReadsManifest (words_of_arguments args) → ReadsAll result → IsAtEnd (S.left source.new) }
    ensures nothing_read { ReadsNothing (words_of_arguments args) → S.left source.new ≡ S.left source.old }
    ensures read_no_further { GivesAtMost (S.left source.old) (S.left source.new) (2 ^ 28 + 1) }
    ensures turns { IsCalledAtMost (S.calls source.old) (S.calls source.new) (2 ^ 28 + 1) }
    ensures memory { IfErr args (λ error. error_kind error ≡ ErrorKind.OutOfMemory → result ≡ Status.Memory) }
    ensures read_fault { result ≡ Status.ReadFault → Rose (S.faults source.old) (S.faults source.new) }
    ensures write_fault { result ≡ Status.WriteFault → Rose (K.faults sink.old) (K.faults sink.new) }
    ensures source_answered { result ≢ Status.WriteFault → IsOfWholeSource result → S.refusals source.new ≡ S.refusals source.old }
    ensures sink_answered { result ≢ Status.WriteFault → K.refusals sink.new ≡ K.refusals sink.old }
    ensures complete { (status : Status) (text : Bytes) → IsDue (words_of_arguments args) (S.left source.old) status text
        → ¬ Rose (S.faults source.old) (S.faults source.new) → ¬ Rose (K.faults sink.old) (K.faults sink.new)
        → ((result ≡ status) × Takes (K.taken sink.old) (K.taken sink.new) text) ⊎ (result ≡ Status.Memory) }
{
    match words_from(alloc, args) {
        Ok(words) => run(rt, alloc, &words, source, sink),
        Err(_) => Status::Memory,
    }
}
