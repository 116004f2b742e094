//! The program from its words to its last byte, with ample memory: what is written, and how it ends.

ghost use Rattle.std.specs.Prelude.{◌<◌};

use crate::run::run;
use crate::status::Status;
use crate::word::Word;
use link_program_streams::{MemorySink, MemorySource};
use std::alloc::{AllocError, Global};
use std::test::Fail;
use std::thread::Threads;

/// A required object that asks for a member of an archive, which asks for another.
const ARCHIVE: &str =
    r#"{"objects":[{"name":"main.o","symbols":[{"name":"foo","place":"undefined"}]},{"name":"a.o","archive":true,"sections":2,"symbols":[{"name":"foo","place":1},{"name":"bar","place":"undefined"}]},{"name":"b.o","archive":true,"sections":2,"symbols":[{"name":"bar","place":1}]},{"name":"c.o","archive":true,"sections":2,"symbols":[{"name":"baz","place":1}]}]}"#;

const ARCHIVE_REPORT: &str = "\
loaded 0 main.o
loaded 1 a.o
loaded 2 b.o
symbol 0 <unnamed> -> 0 [ABSOLUTE]
symbol 1 <unnamed> -> 0 [ABSOLUTE | NON_INTERPOSABLE]
symbol 2 foo -> 4 [ABSOLUTE]
symbol 3 <unnamed> -> 0 [ABSOLUTE | NON_INTERPOSABLE]
symbol 4 foo -> 4 [NON_INTERPOSABLE | HAS_NON_IR_REF]
symbol 5 bar -> 7 [ABSOLUTE]
symbol 6 <unnamed> -> 0 [ABSOLUTE | NON_INTERPOSABLE]
symbol 7 bar -> 7 [NON_INTERPOSABLE | HAS_NON_IR_REF]
symbol 8 <unnamed> -> 0 [ABSOLUTE | NON_INTERPOSABLE]
symbol 9 baz -> 9 [NON_INTERPOSABLE]
";

/// Commands with what they read, how each ends, and what is written. Many more are run by the built program (`tools/run_rows.py`).
const COMMANDS: &[(&str, &str, Status, &str)] = &[
    (
        "link 2",
        r#"{"objects":[{"name":"e.o"}]}"#,
        Status::Linked,
        "loaded 0 e.o
symbol 0 <unnamed> -> 0 [ABSOLUTE]
symbol 1 <unnamed> -> 0 [ABSOLUTE | NON_INTERPOSABLE]
",
    ),
    ("link 2", "{}", Status::Refused, "error: no input files\n"),
    (
        "link 2",
        "",
        Status::Manifest,
        "error: manifest: not JSON\n",
    ),
    (
        "verdef",
        r#"{"soname":"l","version_script":"V { a };","script_profile":2}"#,
        Status::Linked,
        "records 01000100010001006c000000140000001c000000010000000000000001000000020001005600000014000000000000000300000000000000
strings 006c005600
",
    ),
    (
        "verdef",
        r#"{"version_script":"V { a };"}"#,
        Status::Manifest,
        "error: manifest: soname: missing\n",
    ),
    (
        "why 2",
        ARCHIVE,
        Status::Linked,
        "why 0 required
why 1 symbol 2 of 0
why 2 symbol 5 of 1
",
    ),
    ("", ARCHIVE, Status::Usage, "error: usage\n"),
    ("link \u{661}", ARCHIVE, Status::Usage, "error: usage\n"),
    (
        "bulk 10 3",
        ARCHIVE,
        Status::Linked,
        "members 10
loaded members 9
kept 3
discarded 6
symbols 41
undefined 0
",
    ),
];

/// The words that a blank parts.
fn words_of(alloc: Global, line: &str) -> Result<Vec<Word>, AllocError> {
    let mut words = Vec::new(alloc);
    for word in line.split_whitespace() {
        words.push(Word::new(String::from_str(alloc, word)?))?;
    }
    Ok(words)
}

/// Runs a command, by pieces of so many bytes, on a source and a sink that fail at a call each, or at
/// none where its number is 0. Answers how it ended, and what the sink has taken.
fn ran<R: Threads + Sync>(
    rt: &R,
    alloc: Global,
    line: &str,
    manifest: &str,
    piece: usize,
    failing_read: u64,
    failing_write: u64,
) -> Result<(Status, Vec<u8>), AllocError>
    requires { 0 < piece }
{
    let words = words_of(alloc, line)?;
    let bytes = Vec::from_slice(alloc, manifest.as_bytes())?;
    let mut source = MemorySource::new(bytes, piece, vec![in alloc; failing_read]?);
    let mut sink = MemorySink::new(alloc, piece, vec![in alloc; failing_write]?);
    let status = run(rt, alloc, &words, &mut source, &mut sink);
    let taken = Vec::from_slice(alloc, sink.taken())?;
    Ok((status, taken))
}

#[test]
fn each_command_has_its_text(rt: HostRuntime) -> Result<(), Fail> {
    let alloc = rt.alloc();
    for &(line, stdin, status, text) in COMMANDS {
        let (ended, taken) = ran(&rt, alloc, line, stdin, 100, 0, 0)?;
        assert!(rt;
            ended == status && taken.as_slice() == text.as_bytes(),
            "{line}: {stdin}"
        );
    }
    Ok(())
}

/// Commands that are the same link.
const LINKS: &[&str] = &["link 1", "link 2", "link 7", "link 256"];

#[test]
fn neither_workers_nor_pieces_change_a_byte(rt: HostRuntime) -> Result<(), Fail> {
    let alloc = rt.alloc();
    for &line in LINKS {
        for piece in 1usize..360 {
            let (ended, taken) = ran(&rt, alloc, line, ARCHIVE, piece, 0, 0)?;
            assert!(rt;
                ended == Status::Linked && taken.as_slice() == ARCHIVE_REPORT.as_bytes(),
                "{line}, pieces of {piece}"
            );
        }
    }
    Ok(())
}

/// How the link of the archive ends whose source, which gives seven bytes a call, fails at a call: 51 calls give bytes, and the next the end.
fn after_read(call: u64) -> (Status, &'static [u8]) {
    if call <= 52 {
        (Status::ReadFault, b"error: read fault\n")
    } else {
        (Status::Linked, ARCHIVE_REPORT.as_bytes())
    }
}

/// How it ends where its sink, which takes five bytes a call, fails at a call.
fn after_write(call: u64) -> (Status, &'static [u8]) {
    let report = ARCHIVE_REPORT.as_bytes();
    match report.get(..(call as usize).saturating_sub(1).saturating_mul(5)) {
        Some(before) if before.len() < report.len() => (Status::WriteFault, before),
        _ => (Status::Linked, report),
    }
}

#[test]
fn each_call_of_source_and_sink_may_fail(rt: HostRuntime) -> Result<(), Fail> {
    let alloc = rt.alloc();
    for call in 1u64..55 {
        let (ended, taken) = ran(&rt, alloc, "link 2", ARCHIVE, 7, call, 0)?;
        let (status, text) = after_read(call);
        assert!(rt; ended == status && taken.as_slice() == text, "read {call}");
    }
    for call in 1u64..103 {
        let (ended, taken) = ran(&rt, alloc, "link 2", ARCHIVE, 5, 0, call)?;
        let (status, text) = after_write(call);
        assert!(rt; ended == status && taken.as_slice() == text, "write {call}");
    }
    let (ended, taken) = ran(&rt, alloc, "link 2", ARCHIVE, 5, 1, 1)?;
    assert!(rt;
        ended == Status::WriteFault && taken.is_empty(),
        "both fail at once"
    );
    Ok(())
}
