// Writing all bytes: each write failing in turn.
ghost use Rattle.std.specs.Prelude.{◌≡◌, ◌≤◌, ◌++◌, OnOk, IfOk, IsErrOf};

use crate::source::TEXT;
use std::alloc::{AllocError, Global};
use std::process::Abort;
use std::test::Fail;
use xp_outside::sink::{MemorySink, SinkFault, WholeSink, write_all};

/// A sink of pieces of at most some length, of whose calls one fails.
fn sink(
    rt: &impl Abort,
    alloc: Global,
    largest: usize,
    failing: u64,
) -> Result<MemorySink, AllocError>
    ensures { IfOk result (λ sink. sink.faults ≡ 0) }
{
    assert!(rt; largest >= 1);
    let numbers = vec![in alloc; failing]?;
    Ok(MemorySink::new(alloc, largest, numbers))
}

/// How many bytes of the text a sink takes, where it is empty, whose bytes those are, and whether
/// that is all.
fn taken(sink: &mut MemorySink) -> (bool, usize, bool)
    requires { sink.old.faults ≡ 0 }
{
    let answer = write_all(sink, TEXT);
    let front = TEXT.starts_with(sink.bytes());
    match answer {
        Ok(()) => (front, sink.bytes().len(), true),
        Err(SinkFault::Failed) => (front, sink.bytes().len(), false),
        Err(SinkFault::Memory) => (false, 0, false),
    }
}

/// Pieces of 1, 7 and 64 bytes, each write failing in turn: what stands before it was written, and
/// no more.
#[test]
fn each_write_fails_in_turn(rt: HostRuntime) -> Result<(), Fail> {
    for (largest, calls) in [(1usize, 130u64), (7, 19), (64, 3)] {
        for failing in 1..=calls + 1 {
            let mut sink = sink(&rt, rt.alloc(), largest, failing)?;
            let before = largest.saturating_mul(failing as usize - 1).min(130);
            let wanted = (true, before, failing > calls);
            assert_eq!(rt;
                taken(&mut sink),
                wanted,
                "write {failing} of {largest} bytes"
            );
        }
    }
    Ok(())
}

/// Over a whole sink a write never fails but for want of memory.
fn write_whole(sink: &mut WholeSink, bytes: &[u8]) -> Result<(), SinkFault>
    ensures ok { OnOk result (sink.new ≡ sink.old ++ bytes.now) }
    ensures never_failed { IsErrOf result SinkFault.Failed → ⊥ }
{
    write_all(sink, bytes)
}

#[test]
fn a_whole_sink_takes_all(rt: HostRuntime) {
    let mut sink = WholeSink::new(rt.alloc());
    for piece in [b"".as_slice(), b"one ", b"two"] {
        assert!(rt; write_whole(&mut sink, piece).is_ok());
    }
    assert_eq!(rt; sink.bytes(), b"one two".as_slice());
}
