// Readers and writers of std as a source and a sink.
use crate::source::is_read;
use std::io::{self, ErrorKind, Read, Write};
use xp_outside::sink::{SinkFault, write_all};
use xp_outside::source::{ReadError, read_all};
use xp_outside::standard::{StdSink, StdSource};

/// A reader and a writer whose calls all fail.
#[derive(Drop)]
struct Broken {}

impl Read for Broken {
    fn read(&mut self, _: &mut [u8]) -> io::Result<usize> {
        Err(ErrorKind::Other.into())
    }
}

impl Write for Broken {
    fn write(&mut self, _: &[u8]) -> io::Result<usize> {
        Err(ErrorKind::Other.into())
    }

    fn flush(&mut self) -> io::Result<()> {
        Ok(())
    }
}

/// A writer that takes nothing.
#[derive(Drop)]
struct Full {}

impl Write for Full {
    fn write(&mut self, _: &[u8]) -> io::Result<usize> {
        Ok(0)
    }

    fn flush(&mut self) -> io::Result<()> {
        Ok(())
    }
}

#[test]
fn a_reader_is_a_source(rt: HostRuntime) {
    let read = read_all(rt.alloc(), &mut StdSource::new(b"xpsim 1".as_slice()), 7);
    assert!(rt; is_read(read, b"xpsim 1"));
    let broken = read_all(rt.alloc(), &mut StdSource::new(Broken {}), 7);
    assert!(rt; matches!(broken, Err(ReadError::Failed)));
}

#[test]
fn a_writer_is_a_sink(rt: HostRuntime) {
    let mut sink = StdSink::new(Vec::new(rt.alloc()));
    assert!(rt; write_all(&mut sink, b"xpsim 1").is_ok());
    assert_eq!(rt; sink.into_inner().as_slice(), b"xpsim 1".as_slice());
}

#[test]
fn a_writer_fails(rt: HostRuntime) {
    let broken = write_all(&mut StdSink::new(Broken {}), b"xpsim 1");
    assert!(rt; matches!(broken, Err(SinkFault::Failed)));
    let full = write_all(&mut StdSink::new(Full {}), b"xpsim 1");
    assert!(rt; matches!(full, Err(SinkFault::Failed)));
    assert!(rt; write_all(&mut StdSink::new(Full {}), b"").is_ok());
}

/// Standard input of a test is empty.
#[test]
fn standard_input_and_output(rt: HostRuntime) {
    let read = read_all(rt.alloc(), &mut StdSource::new(rt.stdin()), 100);
    assert!(rt; is_read(read, b""));
    let mut sink = StdSink::new(rt.stdout());
    assert!(rt; write_all(&mut sink, b"to standard output\n").is_ok());
}
