//! What the adapters make of a reader and a writer that are interrupted, fail, or take nothing.

ghost use Rattle.std.specs.Prelude.{◌≤◌, IfOk};

use super::*;
use std::test::Fail;

/// What a call of a reader or a writer does.
#[derive(Clone, Copy)]
enum Turn {
    Fails(ErrorKind),
    Passes(usize),
}

/// A reader and a writer whose calls do what a list says, and then pass nothing.
#[derive(Drop)]
struct Scripted {
    turns: [Turn; 4],
    calls: usize,
}

impl Scripted {
    fn next(&mut self, room: usize) -> io::Result<usize>
        ensures { IfOk result (λ count. count ≤ room) }
    {
        let turn = self.turns.get(self.calls).copied();
        self.calls = self.calls.saturating_add(1);
        match turn {
            Some(Turn::Fails(kind)) => Err(io::Error::from(kind)),
            Some(Turn::Passes(count)) => Ok(count.min(room)),
            None => Ok(0),
        }
    }
}

impl Read for Scripted {
    fn read(&mut self, buf: &mut [u8]) -> io::Result<usize> {
        self.next(buf.len())
    }
}

impl Write for Scripted {
    fn write(&mut self, buf: &[u8]) -> io::Result<usize> {
        self.next(buf.len())
    }

    fn flush(&mut self) -> io::Result<()> {
        Ok(())
    }
}

const INTERRUPTED: Turn = Turn::Fails(ErrorKind::Interrupted);

const BROKEN: Turn = Turn::Fails(ErrorKind::BrokenPipe);

const BLOCKED: Turn = Turn::Fails(ErrorKind::WouldBlock);

/// What a call answers after these turns, which have a name: as a source, as a sink, and in how many turns.
const ROWS: &[(&str, [Turn; 4], Option<usize>, Option<usize>, usize)] = &[
    (
        "two bytes come",
        [Turn::Passes(2), BROKEN, BROKEN, BROKEN],
        Some(2),
        Some(2),
        1,
    ),
    (
        "two signals",
        [INTERRUPTED, INTERRUPTED, Turn::Passes(9), BROKEN],
        Some(3),
        Some(3),
        3,
    ),
    (
        "a signal, and a fault",
        [INTERRUPTED, BROKEN, Turn::Passes(2), BROKEN],
        None,
        None,
        2,
    ),
    (
        "it would have to wait",
        [BLOCKED, Turn::Passes(2), BROKEN, BROKEN],
        None,
        None,
        1,
    ),
    (
        "nothing comes",
        [Turn::Passes(0), Turn::Passes(2), BROKEN, BROKEN],
        Some(0),
        None,
        1,
    ),
];

/// Whether a source answers this after these turns, in so many of them.
fn reads(turns: [Turn; 4], want: Option<usize>, calls: usize) -> bool {
    let mut source = RealSource::new(Scripted { turns, calls: 0 });
    let mut buf = [0u8; 3];
    let read = source.read(&mut buf).ok();
    read == want && source.reader.calls == calls
}

/// Whether a sink answers this after these turns.
fn writes(turns: [Turn; 4], want: Option<usize>) -> bool {
    let mut sink = RealSink::new(Scripted { turns, calls: 0 });
    sink.write(b"abc").ok() == want
}

#[test]
fn an_interrupted_call_is_made_again(rt: HostRuntime) -> Result<(), Fail> {
    for &(name, turns, read, written, calls) in ROWS {
        assert!(rt; reads(turns, read, calls), "read: {name}");
        assert!(rt; writes(turns, written), "written: {name}");
    }
    Ok(())
}
