//! All of a source, and all of a text.

ghost use Rattle.std.specs.Prelude.{◌≡◌, ◌+◌, ◌<◌, ◌≤◌, length, IfOk, OnOk, OnErr, IfSome, IsErrOf};
ghost use Rattle.link_program_streams.specs.declared.whole.ReadAllError.TheVariants.{ReadFault, Memory};
ghost use Rattle.link_program_streams.specs.Streams.{Gives, GivesPart, GivesAtMost, GivesCount, IsAtEnd, Takes, TakesPart, Rose, IsCalledAtMost, raised};

use crate::stream::{Failed, Sink, Source};
use std::alloc::{AllocError, Global};

/// The most bytes that are asked for at a time. They lie on the stack, which the system lets grow past 128 KiB only where there is memory, and ends
/// the program otherwise: with so few the whole program stays below that.
const PIECE: usize = 16 * 1024;

/// Why a source wasn't read to its end.
#[derive(Clone, Copy, Debug, PartialEq, Eq, thiserror::Error)]
pub enum ReadAllError {
    /// More bytes came than were allowed.
    #[error("more bytes than allowed")]
    TooLong,
    /// The source failed.
    #[error("read fault")]
    ReadFault,
    /// There was no memory for the bytes.
    #[error("out of memory")]
    Memory,
}

impl From<AllocError> for ReadAllError {
    ghost from_gives = { λ _ error. error ≡ Memory };

    fn from(_: AllocError) -> Self {
        ReadAllError::Memory
    }
}

impl From<Failed> for ReadAllError {
    ghost from_gives = { λ _ error. error ≡ ReadFault };

    fn from(_: Failed) -> Self {
        ReadAllError::ReadFault
    }
}

/// All that a source has left, which are at most `limit` bytes. After an error the source has
/// handed over some of its bytes. No answer takes more than `limit + 1` of them, or more calls
/// than that: each call but the last gives a byte at least. The source is asked no further once
/// it failed. It stands apart, so that its piece is off the stack once all is read.
#[inline(never)]
pub fn read_all<S: Source>(
    alloc: Global,
    source: &mut S,
    limit: usize,
) -> Result<Vec<u8>, ReadAllError>
    ensures whole { IfOk result (λ bytes. Gives (S.left source.old) (S.left source.new) bytes.items) }
    ensures at_end { OnOk result (IsAtEnd (S.left source.new)) }
    ensures within { IfOk result (λ bytes. length bytes.items ≤ limit) }

    ensures too_long { IsErrOf result ReadAllError.TooLong → IfSome (S.left source.old) (λ all. limit < length all) }
    ensures read_fault { IsErrOf result ReadAllError.ReadFault → Rose (S.faults source.old) (S.faults source.new) }
    ensures part { OnErr result (GivesPart (S.left source.old) (S.left source.new)) }
    ensures over { IsErrOf result ReadAllError.TooLong → GivesCount (S.left source.old) (S.left source.new) (limit + 1) }
    ensures no_further { GivesAtMost (S.left source.old) (S.left source.new) (limit + 1) }
    ensures answered { ¬ IsErrOf result ReadAllError.ReadFault → S.refusals source.new ≡ S.refusals source.old }
    ensures refused { IsErrOf result ReadAllError.ReadFault → S.refusals source.new ≡ raised (S.refusals source.old) }
    ensures never_falls { S.faults source.old ≤ S.faults source.new }
    ensures calls_on_ok { IfOk result (λ bytes. IsCalledAtMost (S.calls source.old) (S.calls source.new) (length bytes.items + 1)) }
    ensures calls { IsCalledAtMost (S.calls source.old) (S.calls source.new) (limit + 1) }
{
    let mut bytes = Vec::new(alloc);
    let mut piece = [0u8; PIECE];
    loop {
        let room = limit - bytes.len();
        let asked = room.min(PIECE - 1) + 1;
        let count = source.read(&mut piece[..asked])?;
        if count == 0 {
            return Ok(bytes);
        }
        if count > room {
            return Err(ReadAllError::TooLong);
        }
        bytes.extend_from_slice(&piece[..count])?;
    }
}

/// Hands all of a text to a sink. After an error the sink has taken a part of it from its front. It
/// is handed nothing more once it failed.
pub fn write_all<K: Sink>(sink: &mut K, bytes: &[u8]) -> Result<(), Failed>
    ensures whole { OnOk result (Takes (K.taken sink.old) (K.taken sink.new) bytes.now) }
    ensures part { OnErr result (TakesPart (K.taken sink.old) (K.taken sink.new) bytes.now) }
    ensures answered { OnOk result (K.refusals sink.new ≡ K.refusals sink.old) }
    ensures refused { OnErr result (K.refusals sink.new ≡ raised (K.refusals sink.old)) }
    ensures failed { OnErr result (Rose (K.faults sink.old) (K.faults sink.new)) }
    ensures never_falls { K.faults sink.old ≤ K.faults sink.new }
{
    let mut written = 0;
    while written < bytes.len() {
        written += sink.write(&bytes[written..])?;
    }
    Ok(())
}
