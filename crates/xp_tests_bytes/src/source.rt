// Reading all bytes: each read failing in turn, and the limit.
ghost use Rattle.std.specs.Prelude.{◌≡◌, ◌<◌, ◌^◌, IfOk, IsErrOf, length};

use std::alloc::Global;
use std::io::{self, ErrorKind, Read};
use std::process::Abort;
use std::test::Fail;
use xp_outside::source::{MemorySource, ReadError, WholeSource, read_all};
use xp_outside::standard::StdSource;

/// What is read: 130 bytes.
pub const TEXT: &[u8] =
    b"The reserved page leads to the variables and to the records of the partners; each record leads to the counters and to its channels";

/// A reader of the text in pieces of at most some length, of whose calls one fails; the first call
/// has number 1.
#[derive(Drop)]
struct Pieces {
    given: usize,
    largest: usize,
    failing: u64,
    calls: u64,
}

impl Read for Pieces {
    fn read(&mut self, into: &mut [u8]) -> io::Result<usize> {
        self.calls = self.calls.saturating_add(1);
        if self.calls == self.failing {
            return Err(ErrorKind::Other.into());
        }
        let start = self.given.min(TEXT.len());
        let rest = &TEXT[start..];
        let count = rest.len().min(self.largest).min(into.len());
        into[..count].copy_from_slice(&rest[..count]);
        self.given = start + count;
        Ok(count)
    }
}

fn reader_of(largest: usize, failing: u64) -> Pieces {
    Pieces {
        given: 0,
        largest,
        failing,
        calls: 0,
    }
}

/// Whether these bytes were read.
pub fn is_read(read: Result<Vec<u8>, ReadError>, wanted: &[u8]) -> bool {
    match read {
        Ok(bytes) => bytes.as_slice() == wanted,
        Err(_) => false,
    }
}

/// Whether reading all of the text fails, and the read that failed is the last.
fn fails_at_once(alloc: Global, reader: &mut Pieces) -> bool {
    let answer = read_all(alloc, &mut StdSource::new(&mut *reader), 130);
    matches!(answer, Err(ReadError::Failed)) && reader.calls == reader.failing
}

/// Whether the reader gives the text from a place on.
fn gives_from(alloc: Global, reader: &mut Pieces, place: usize) -> bool {
    let rest = read_all(alloc, &mut StdSource::new(reader), 130);
    is_read(rest, &TEXT[place.min(TEXT.len())..])
}

/// Pieces of 1, 7 and 64 bytes, each read failing in turn, the one at the end of the input too. The
/// read that failed took nothing: reading again gives the rest.
#[test]
fn each_read_fails_in_turn(rt: HostRuntime) {
    for (largest, calls) in [(1usize, 131u64), (7, 20), (64, 4)] {
        for failing in 1..=calls {
            let mut reader = reader_of(largest, failing);
            let before = largest.saturating_mul(failing as usize - 1);
            assert!(rt;
                fails_at_once(rt.alloc(), &mut reader),
                "read {failing} of {largest} bytes"
            );
            assert!(rt;
                gives_from(rt.alloc(), &mut reader, before),
                "after {before} bytes"
            );
        }
        let mut reader = reader_of(largest, calls + 1);
        assert!(rt;
            gives_from(rt.alloc(), &mut reader, 0),
            "{calls} reads of {largest} bytes"
        );
    }
}

/// A source in memory fails at the call of a number, too.
#[test]
fn a_source_in_memory_fails(rt: HostRuntime) -> Result<(), Fail> {
    let numbers = vec![in rt.alloc(); 3u64]?;
    let mut source = MemorySource::new(TEXT.to_vec(rt.alloc())?, 64, numbers);
    let answer = read_all(rt.alloc(), &mut source, 130);
    assert!(rt; matches!(answer, Err(ReadError::Failed)));
    Ok(())
}

/// Over a whole source a read never fails.
fn read_whole(alloc: Global, bytes: Vec<u8>, limit: usize) -> Result<Vec<u8>, ReadError>
    requires { limit < 2 ^ 32 }
    ensures bytes { IfOk result (λ read. read.items ≡ bytes.items) }
    ensures never_failed { IsErrOf result ReadError.Failed → ⊥ }
    ensures long { IsErrOf result ReadError.TooLong → limit < length bytes.items }
{
    let mut source = WholeSource::new(bytes);
    read_all(alloc, &mut source, limit)
}

/// How many bytes are read of so many; none where there are too many.
fn length_read(alloc: Global, length: usize, limit: usize) -> Result<Option<usize>, Fail>
    requires { limit < 2 ^ 32 }
{
    match read_whole(alloc, vec![in alloc; 7; length]?, limit) {
        Ok(read) => Ok(Some(read.len())),
        Err(ReadError::TooLong) => Ok(None),
        Err(_) => Err("no memory".into()),
    }
}

/// As many bytes as the limit are read, in more pieces than one too, and one more isn't.
#[test]
fn the_limit_is_exact(rt: HostRuntime) -> Result<(), Fail> {
    for (length, limit, read) in [
        (0usize, 0usize, Some(0usize)),
        (1, 0, None),
        (5, 5, Some(5)),
        (6, 5, None),
        (9000, 9000, Some(9000)),
        (9000, 8999, None),
    ] {
        assert!(rt; limit <= 9000);
        assert_eq!(rt;
            length_read(rt.alloc(), length, limit)?,
            read,
            "{length} at {limit}"
        );
    }
    Ok(())
}

/// Past the limit one byte is read.
#[test]
fn one_byte_past_the_limit(rt: HostRuntime) -> Result<(), Fail> {
    let mut source = WholeSource::new(b"0123456789".to_vec(rt.alloc())?);
    let answer = read_all(rt.alloc(), &mut source, 5);
    assert!(rt; matches!(answer, Err(ReadError::TooLong)));
    let rest = read_all(rt.alloc(), &mut source, 5);
    assert!(rt; is_read(rest, b"6789"));
    Ok(())
}
