//! Standard input and output as a source and a sink. As a source and a sink they tell no content:
//! what a file, a pipe or a terminal gave or took, no contract can say. Of a reader and a writer
//! that tell, it is proved that each call hands on just what theirs gave or took, and that no byte
//! is lost where an interrupted call is made again.

ghost use Rattle.std.specs.Prelude.{◌≡◌, ◌≢◌, ◌<◌, ◌≤◌, length, take, None, is_ok, if◌then◌else◌, IfOk, IfErr, OnOk, OnErr};
ghost use Rattle.std.specs.IoError.{error_kind};
ghost use Rattle.std.specs.Io.{ReadsAtMost, WritesAtMost};
ghost use Rattle.std.specs.Io.KnownBytes.{ReadConsumes, WriteAppends, Consumes, Appends, Keeps, IsAtEnd};
ghost use Rattle.link_program_streams.specs.Streams.{raised, Rose};

use crate::stream::{Failed, Sink, Source};
use std::io::{self, ErrorKind, Read, Write};
use std::marker::Model;

/// One read, made again while a signal interrupts it.
fn read_through_signals<T: Read>(reader: &mut T, buf: &mut [u8]) -> io::Result<usize>
    ensures fits { ReadsAtMost result buf.new }
    ensures bytes { ReadConsumes (T.remaining reader.old) (T.remaining reader.new) result buf.new }
    ensures retried { IfErr result (λ e. error_kind e ≢ ErrorKind.Interrupted) }
{
    for _ in 0..u64::MAX {
        match reader.read(buf) {
            Err(error) if error.kind() == ErrorKind::Interrupted => {}
            answer => return answer,
        }
    }
    Err(io::Error::from(ErrorKind::Other))
}

/// One write, made again while a signal interrupts it.
fn write_through_signals<T: Write>(writer: &mut T, piece: &[u8]) -> io::Result<usize>
    ensures fits { WritesAtMost result piece.now }
    ensures bytes { WriteAppends (T.contents writer.old) (T.contents writer.new) result piece.now }
    ensures retried { IfErr result (λ e. error_kind e ≢ ErrorKind.Interrupted) }
{
    for _ in 0..u64::MAX {
        match writer.write(piece) {
            Err(error) if error.kind() == ErrorKind::Interrupted => {}
            answer => return answer,
        }
    }
    Err(io::Error::from(ErrorKind::Other))
}

/// A reader, as standard input, as a source. A call that a signal interrupted is made again.
#[derive(Drop)]
pub struct RealSource<T> {
    reader: T,
    faults: u64,
}

impl<T> Model for RealSource<T> {
    ghost use Rattle.link_program_streams.specs.Real.{Adapter};

    ghost Value = { Adapter T };

    ghost view = { λ s. record { inner = s.reader; faults = s.faults } };
}

impl<T> RealSource<T> {
    /// The source over a reader, with no fault counted yet.
    pub fn new(reader: T) -> Self
        ensures { result ≡ record { inner = reader; faults = 0 } }
    {
        RealSource { reader, faults: 0 }
    }
}

impl<T: Read> Source for RealSource<T> {
    ghost left = { λ _. None };

    ghost faults = { λ s. s.faults };

    ghost refusals = { λ s. s.faults };

    fn read(&mut self, buf: &mut [u8]) -> Result<usize, Failed>
        requires { 0 < length buf.old }
        ensures fits { IfOk result (λ count. count ≤ length buf.old) }
        ensures given { IfOk result (λ count. Consumes (T.remaining self.old.inner) (T.remaining self.new.inner) (take count buf.new)) }
        ensures end { IfOk result (λ count. count ≡ 0 → IsAtEnd (T.remaining self.new.inner)) }

        ensures kept { OnErr result (Keeps (T.remaining self.old.inner) (T.remaining self.new.inner)) }
        ensures counted { self.new.faults ≡ (if is_ok result then self.old.faults else raised self.old.faults) }
        ensures unharmed { OnOk result (self.new.faults ≡ self.old.faults) }
        ensures failed { OnErr result (Rose self.old.faults self.new.faults) }
        ensures never_falls { self.old.faults ≤ self.new.faults }
    {
        match read_through_signals(&mut self.reader, buf) {
            Ok(count) => Ok(count),
            Err(_) => {
                self.faults = self.faults.saturating_add(1);
                Err(Failed)
            }
        }
    }
}

/// A writer, as standard output, as a sink. A call that a signal interrupted is made again; one
/// that takes nothing is a fault.
#[derive(Drop)]
pub struct RealSink<T> {
    writer: T,
    faults: u64,
}

impl<T> Model for RealSink<T> {
    ghost use Rattle.link_program_streams.specs.Real.{Adapter};

    ghost Value = { Adapter T };

    ghost view = { λ s. record { inner = s.writer; faults = s.faults } };
}

impl<T> RealSink<T> {
    /// The sink over a writer, with no fault counted yet.
    pub fn new(writer: T) -> Self
        ensures { result ≡ record { inner = writer; faults = 0 } }
    {
        RealSink { writer, faults: 0 }
    }
}

impl<T: Write> Sink for RealSink<T> {
    ghost taken = { λ _. None };

    ghost faults = { λ s. s.faults };

    ghost refusals = { λ s. s.faults };

    fn write(&mut self, piece: &[u8]) -> Result<usize, Failed>
        requires { 0 < length piece.now }
        ensures some { IfOk result (λ count. 0 < count) }
        ensures fits { IfOk result (λ count. count ≤ length piece.now) }
        ensures taken { IfOk result (λ count. Appends (T.contents self.old.inner) (T.contents self.new.inner) (take count piece.now)) }

        ensures kept { OnErr result (Keeps (T.contents self.old.inner) (T.contents self.new.inner)) }
        ensures counted { self.new.faults ≡ (if is_ok result then self.old.faults else raised self.old.faults) }
        ensures unharmed { OnOk result (self.new.faults ≡ self.old.faults) }
        ensures failed { OnErr result (Rose self.old.faults self.new.faults) }
        ensures never_falls { self.old.faults ≤ self.new.faults }
    {
        match write_through_signals(&mut self.writer, piece) {
            Ok(count) if count > 0 => Ok(count),
            _ => {
                self.faults = self.faults.saturating_add(1);
                Err(Failed)
            }
        }
    }
}

#[cfg(test)]
mod tests;
