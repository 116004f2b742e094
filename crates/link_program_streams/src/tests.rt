//! What no clause says: that each call succeeds with ample memory. The contracts do the rest; here
//! each way in which bytes come and go is run once.

ghost use Rattle.std.specs.Prelude.{◌<◌};

use crate::{Failed, MemorySink, MemorySource, ReadAllError, SteadySource, read_all, write_all};
use std::alloc::{AllocError, Global};
use std::test::Fail;

/// The numbers 0, 1, .. as bytes, so many.
fn numbered(alloc: Global, count: usize) -> Result<Vec<u8>, AllocError> {
    let mut bytes = Vec::with_capacity(alloc, count)?;
    for place in 0..count {
        bytes.push((place % 251) as u8)?;
    }
    Ok(bytes)
}

/// Whether these are the numbers from the first up to the end, as bytes.
fn are_numbers(bytes: &[u8], first: usize, end: usize) -> bool {
    let mut place = first;
    for &byte in bytes {
        if byte != (place % 251) as u8 {
            return false;
        }
        place = place.saturating_add(1);
    }
    place == end
}

/// Whether these numbers were read.
fn has_read(got: &Result<Vec<u8>, ReadAllError>, first: usize, end: usize) -> bool {
    match got {
        Ok(bytes) => are_numbers(bytes, first, end),
        Err(_) => false,
    }
}

/// Whether reading ended with this error.
fn has_failed(got: &Result<Vec<u8>, ReadAllError>, want: ReadAllError) -> bool {
    match got {
        Ok(_) => false,
        Err(error) => *error == want,
    }
}

/// Whether all of so many numbers were read, or refused where fewer are allowed.
fn is_wanted(got: &Result<Vec<u8>, ReadAllError>, count: usize, limit: usize) -> bool {
    if count > limit {
        has_failed(got, ReadAllError::TooLong)
    } else {
        has_read(got, 0, count)
    }
}

/// Whether so many bytes are read as wanted.
fn is_read(alloc: Global, count: usize, limit: usize, piece: usize) -> Result<bool, AllocError>
    requires { 0 < piece }
{
    let mut source = MemorySource::new(numbered(alloc, count)?, piece, Vec::new(alloc));
    let got = read_all(alloc, &mut source, limit);
    Ok(is_wanted(&got, count, limit))
}

/// Whether so many bytes are read as wanted from a source that never fails.
fn is_read_steadily(
    alloc: Global,
    count: usize,
    limit: usize,
    piece: usize,
) -> Result<bool, AllocError>
    requires { 0 < piece }
{
    let mut source = SteadySource::new(numbered(alloc, count)?, piece);
    let got = read_all(alloc, &mut source, limit);
    Ok(is_wanted(&got, count, limit))
}

/// How many bytes there are, and how many are allowed.
const LIMITS: &[(usize, usize)] = &[(0, 0), (0, 16), (1, 0), (16, 16), (17, 16), (18, 16)];

/// Whether all is read as wanted in pieces of this size.
fn are_read(alloc: Global, piece: usize) -> Result<bool, AllocError>
    requires { 0 < piece }
{
    for &(count, limit) in LIMITS {
        if !is_read(alloc, count, limit, piece)? {
            return Ok(false);
        }
        if !is_read_steadily(alloc, count, limit, piece)? {
            return Ok(false);
        }
    }
    Ok(true)
}

/// Whether a million bytes are read, and by how many calls.
fn read_long(alloc: Global) -> Result<(bool, u64), AllocError> {
    let bytes = numbered(alloc, 1_000_000)?;
    let mut source = MemorySource::new(bytes, 100_000, Vec::new(alloc));
    let got = read_all(alloc, &mut source, 1_000_000);
    Ok((has_read(&got, 0, 1_000_000), source.calls()))
}

#[test]
fn all_of_a_source_is_read(rt: HostRuntime) -> Result<(), Fail> {
    for piece in 1usize..20 {
        assert!(rt; are_read(rt.alloc(), piece)?, "in pieces of {piece}");
    }
    // Each call asks for 16 KiB, or for what is left and a byte: 62 calls, and one at the end.
    assert_eq!(rt; read_long(rt.alloc())?, (true, 63));
    Ok(())
}

/// A source of 20 bytes in pieces of 7, of which this call fails: three calls give bytes, and the fourth the end.
fn failing_source(alloc: Global, failing: u64) -> Result<MemorySource, AllocError> {
    let fails = vec![in alloc; failing]?;
    Ok(MemorySource::new(numbered(alloc, 20)?, 7, fails))
}

/// Whether this call's failure is told, and whether it lost nothing: a second try reads on behind what was read.
fn fails_and_reads_on(
    alloc: Global,
    failing: u64,
    read: usize,
) -> Result<(bool, bool), AllocError> {
    let mut source = failing_source(alloc, failing)?;
    let got = read_all(alloc, &mut source, 100);
    let rest = read_all(alloc, &mut source, 100);
    let has_failed = has_failed(&got, ReadAllError::ReadFault);
    Ok((has_failed, has_read(&rest, read, 20)))
}

/// Whether all is read where this call would fail.
fn is_read_before(alloc: Global, failing: u64) -> Result<bool, AllocError> {
    let mut source = failing_source(alloc, failing)?;
    let got = read_all(alloc, &mut source, 100);
    Ok(has_read(&got, 0, 20))
}

/// A call that fails, and how many bytes were read before it.
const READ: &[(u64, usize)] = &[(1, 0), (2, 7), (3, 14), (4, 20)];

#[test]
fn each_call_of_a_source_may_fail(rt: HostRuntime) -> Result<(), Fail> {
    for &(failing, read) in READ {
        let (failed, read_on) = fails_and_reads_on(rt.alloc(), failing, read)?;
        assert!(rt; failed, "call {failing} fails");
        assert!(rt; read_on, "after call {failing}");
    }
    for failing in 5u64..7 {
        assert!(rt;
            is_read_before(rt.alloc(), failing)?,
            "call {failing} never comes"
        );
    }
    Ok(())
}

/// The first twelve numbers.
const TWELVE: &[u8] = &[0, 1, 2, 3, 4, 5, 6, 7, 8, 9, 10, 11];

/// Whether writing twelve numbers in pieces of 5 fails, as wanted, where this call fails, and so many of them are taken.
fn takes(alloc: Global, failing: u64, fails: bool, count: usize) -> Result<bool, AllocError> {
    let mut sink = MemorySink::new(alloc, 5, vec![in alloc; failing]?);
    let has_failed = write_all(&mut sink, TWELVE).is_err();
    Ok(has_failed == fails && are_numbers(sink.taken(), 0, count))
}

/// Whether twelve numbers are taken in pieces of this size, where there is room for them.
fn takes_all(alloc: Global, piece: usize) -> Result<bool, AllocError>
    requires { 0 < piece }
{
    let mut sink = MemorySink::with_capacity(alloc, 12, piece, Vec::new(alloc))?;
    let is_written = write_all(&mut sink, TWELVE).is_ok();
    Ok(is_written && are_numbers(sink.taken(), 0, 12))
}

/// Whether nothing is taken, where the first call would fail.
fn takes_nothing(alloc: Global) -> Result<bool, AllocError> {
    let mut sink = MemorySink::new(alloc, 5, vec![in alloc; 1]?);
    Ok(write_all(&mut sink, b"").is_ok())
}

/// A call that would fail, whether it comes, and how many bytes are taken. Twelve bytes in pieces of 5 are three calls.
const TAKEN: &[(u64, bool, usize)] = &[
    (1, true, 0),
    (2, true, 5),
    (3, true, 10),
    (4, false, 12),
    (5, false, 12),
];

#[test]
fn each_call_of_a_sink_may_fail(rt: HostRuntime) -> Result<(), Fail> {
    for &(failing, fails, count) in TAKEN {
        assert!(rt;
            takes(rt.alloc(), failing, fails, count)?,
            "call {failing} fails"
        );
    }
    for piece in 1usize..14 {
        assert!(rt; takes_all(rt.alloc(), piece)?, "pieces of {piece}");
    }
    assert!(rt; takes_nothing(rt.alloc())?, "nothing needs no call");
    Ok(())
}

/// Errors, and their texts.
const TEXTS: &[(ReadAllError, &str)] = &[
    (ReadAllError::TooLong, "more bytes than allowed"),
    (ReadAllError::ReadFault, "read fault"),
    (ReadAllError::Memory, "out of memory"),
];

/// Whether an error has this text.
fn has_text(alloc: Global, error: ReadAllError, text: &str) -> Result<bool, AllocError> {
    Ok(format!(in alloc; "{error}")?.as_str() == text)
}

/// Whether the failure of a stream has this text.
fn failure_has_text(alloc: Global, text: &str) -> Result<bool, AllocError> {
    Ok(format!(in alloc; "{}", Failed)?.as_str() == text)
}

#[test]
fn errors_have_texts(rt: HostRuntime) -> Result<(), Fail> {
    assert!(rt; failure_has_text(rt.alloc(), "the stream failed")?);
    for &(error, text) in TEXTS {
        assert!(rt; has_text(rt.alloc(), error, text)?, "{text}");
    }
    Ok(())
}
