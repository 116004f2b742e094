//! Sources and sinks over bytes in memory. What becomes of each call is known, so that a caller can
//! be tried on every way in which bytes come and go.

ghost use Rattle.std.specs.Prelude.{◌≡◌, ◌<◌, ◌≤◌, ◌++◌, ◌↔◌, [], length, take, drop, min, IsOk, IsErr, IfOk, OnOk, OnErr};
ghost use Rattle.link_program_streams.specs.Memory.{IsToFail, HasRoom};
ghost use Rattle.link_program_streams.specs.Streams.{raised, Rose};

use crate::stream::{Failed, Sink, Source};
use std::alloc::{AllocError, Global};
use std::marker::Model;

/// A source of bytes in memory that never fails.
#[derive(Drop)]
pub struct SteadySource {
    bytes: Vec<u8>,
    at: usize,
    piece: usize,
}

impl Model for SteadySource {
    ghost use Rattle.std.specs.Prelude.{◌≤◌, ◌<◌, length, drop};
    ghost use Rattle.link_program_streams.specs.Memory.{SteadyState};

    ghost Value = { SteadyState };

    ghost view = { λ s. record { left = drop s.at s.bytes.items; piece = s.piece } };

    ghost invariant = { λ s. (s.at ≤ length s.bytes.items) × (0 < s.piece) };
}

impl SteadySource {
    /// A source of these bytes that gives at most `piece` of them a call.
    pub fn new(bytes: Vec<u8>, piece: usize) -> Self
        requires { 0 < piece }
        ensures { result ≡ record { left = bytes.items; piece = piece } }
    {
        SteadySource {
            bytes,
            at: 0,
            piece,
        }
    }
}

impl Source for SteadySource {
    ghost use Rattle.std.specs.Prelude.{Some};

    ghost left = { λ s. Some s.left };

    ghost faults = { λ _. 0 };

    ghost refusals = { λ _. 0 };

    fn read(&mut self, buf: &mut [u8]) -> Result<usize, Failed>
        requires { 0 < length buf.old }
        ensures succeeds { IsOk result }
        ensures count { IfOk result (λ count. count ≡ min (min (length self.old.left) self.old.piece) (length buf.old)) }
        ensures end { IfOk result (λ count. count ≡ 0 → self.old.left ≡ []) }
        ensures given { IfOk result (λ count. take count buf.new ≡ take count self.old.left) }
        ensures ok { IfOk result (λ count. self.new ≡ record self.old { left = drop count self.old.left }) }
    {
        let count = (self.bytes.len() - self.at).min(self.piece).min(buf.len());
        buf[..count].copy_from_slice(&self.bytes[self.at..self.at + count]);
        self.at += count;
        Ok(count)
    }
}

/// A source of bytes in memory that fails at chosen calls.
#[derive(Drop)]
pub struct MemorySource {
    bytes: SteadySource,
    fails: Vec<u64>,
    calls: u64,
    faults: u64,
}

impl Model for MemorySource {
    ghost use Rattle.link_program_streams.specs.Memory.{SourceState};

    ghost Value = { SourceState };

    ghost view = { λ s. record { left = s.bytes.left; piece = s.bytes.piece; fails = s.fails.items; calls = s.calls; faults = s.faults } };
}

impl MemorySource {
    /// A source of these bytes that gives at most `piece` of them a call. The calls whose numbers
    /// are in `fails` fail; the first call has number 1.
    pub fn new(bytes: Vec<u8>, piece: usize, fails: Vec<u64>) -> Self
        requires { 0 < piece }
        ensures { result ≡ record { left = bytes.items; piece = piece; fails = fails.items; calls = 0; faults = 0 } }
    {
        MemorySource {
            bytes: SteadySource::new(bytes, piece),
            fails,
            calls: 0,
            faults: 0,
        }
    }

    /// How many calls came, those that failed too.
    pub fn calls(&self) -> u64
        ensures { result ≡ self.now.calls }
    {
        self.calls
    }
}

impl Source for MemorySource {
    ghost use Rattle.std.specs.Prelude.{Some};

    ghost left = { λ s. Some s.left };

    ghost faults = { λ s. s.faults };

    ghost refusals = { λ s. s.faults };

    ghost calls = { λ s. Some s.calls };

    fn read(&mut self, buf: &mut [u8]) -> Result<usize, Failed>
        requires { 0 < length buf.old }
        ensures fails { IsErr result ↔ IsToFail self.old.fails self.old.calls }
        ensures count { IfOk result (λ count. count ≡ min (min (length self.old.left) self.old.piece) (length buf.old)) }
        ensures end { IfOk result (λ count. count ≡ 0 → self.old.left ≡ []) }
        ensures given { IfOk result (λ count. take count buf.new ≡ take count self.old.left) }
        ensures ok { IfOk result (λ count. self.new ≡ record self.old { left = drop count self.old.left; calls = raised self.old.calls }) }

        ensures err { OnErr result (self.new ≡ record self.old { calls = raised self.old.calls; faults = raised self.old.faults }) }
        ensures unharmed { OnOk result (self.new.faults ≡ self.old.faults) }
        ensures failed { OnErr result (Rose self.old.faults self.new.faults) }
        ensures never_falls { self.old.faults ≤ self.new.faults }
    {
        self.calls = self.calls.saturating_add(1);
        if self.fails.contains(&self.calls) {
            self.faults = self.faults.saturating_add(1);
            return Err(Failed);
        }
        self.bytes.read(buf)
    }
}

/// A sink that keeps what it takes in memory, and fails at chosen calls.
#[derive(Drop)]
pub struct MemorySink {
    bytes: Vec<u8>,
    piece: usize,
    fails: Vec<u64>,
    calls: u64,
    faults: u64,
}

impl Model for MemorySink {
    ghost use Rattle.std.specs.Prelude.{◌<◌, vec_capacity};
    ghost use Rattle.link_program_streams.specs.Memory.{SinkState};

    ghost Value = { SinkState };

    ghost view = { λ s. record { taken = s.bytes.items; room = vec_capacity s.bytes; piece = s.piece; fails = s.fails.items; calls = s.calls; faults = s.faults } };

    ghost invariant = { λ s. 0 < s.piece };
}

impl MemorySink {
    /// A sink that has taken nothing yet, and takes at most `piece` bytes a call. The calls whose
    /// numbers are in `fails` fail; the first call has number 1. It finds memory as bytes come.
    pub fn new(alloc: Global, piece: usize, fails: Vec<u64>) -> Self
        requires { 0 < piece }
        ensures { result ≡ record { taken = []; room = 0; piece = piece; fails = fails.items; calls = 0; faults = 0 } }
    {
        MemorySink {
            bytes: Vec::new(alloc),
            piece,
            fails,
            calls: 0,
            faults: 0,
        }
    }

    /// Such a sink that has room for so many bytes from the start.
    pub fn with_capacity(
        alloc: Global,
        capacity: usize,
        piece: usize,
        fails: Vec<u64>,
    ) -> Result<Self, AllocError>
        requires { 0 < piece }
        ensures { IfOk result (λ sink. sink ≡ record { taken = []; room = capacity; piece = piece; fails = fails.items; calls = 0; faults = 0 }) }
    {
        Ok(MemorySink {
            bytes: Vec::with_capacity(alloc, capacity)?,
            piece,
            fails,
            calls: 0,
            faults: 0,
        })
    }

    /// What it has taken.
    pub fn taken(&self) -> &[u8]
        ensures { result.now ≡ self.now.taken }
    {
        &self.bytes
    }

    /// Counts a fault.
    fn fault(&mut self) -> Failed
        ensures { self.new ≡ record self.old { faults = raised self.old.faults } }
    {
        self.faults = self.faults.saturating_add(1);
        Failed
    }
}

impl Sink for MemorySink {
    ghost use Rattle.std.specs.Prelude.{Some};

    ghost taken = { λ s. Some s.taken };

    ghost faults = { λ s. s.faults };

    ghost refusals = { λ s. s.faults };

    /// Where the room doesn't suffice and there is no memory for more, the call fails too.
    fn write(&mut self, piece: &[u8]) -> Result<usize, Failed>
        requires { 0 < length piece.now }
        ensures fails { IsToFail self.old.fails self.old.calls → IsErr result }
        ensures succeeds { ¬ IsToFail self.old.fails self.old.calls → HasRoom self.old (length piece.now) → IsOk result }
        ensures count { IfOk result (λ count. count ≡ min (length piece.now) self.old.piece) }
        ensures some { IfOk result (λ count. 0 < count) }
        ensures ok { IfOk result (λ count. self.new ≡ record self.old { taken = self.old.taken ++ take count piece.now; room = self.new.room; calls = raised self.old.calls }) }

        ensures err { OnErr result (self.new ≡ record self.old { room = self.new.room; calls = raised self.old.calls; faults = raised self.old.faults }) }
        ensures room { self.old.room ≤ self.new.room }
        ensures unharmed { OnOk result (self.new.faults ≡ self.old.faults) }
        ensures failed { OnErr result (Rose self.old.faults self.new.faults) }
        ensures never_falls { self.old.faults ≤ self.new.faults }
    {
        self.calls = self.calls.saturating_add(1);
        if self.fails.contains(&self.calls) {
            return Err(self.fault());
        }
        let count = piece.len().min(self.piece);
        if self.bytes.extend_from_slice(&piece[..count]).is_err() {
            return Err(self.fault());
        }
        Ok(count)
    }
}
