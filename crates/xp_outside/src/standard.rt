// Standard input and output as a source and a sink. This is the edge of what is proved:
// what the reader and the writer of std tell of their bytes is told here, and standard
// input and output tell nothing.
ghost use Rattle.std.specs.Prelude.{◌≡◌, ℕ, ◌<◌, ◌-◌, ◌^◌, IsErrOf};
ghost use Rattle.std.specs.Io.{WritesAtMost};
ghost use Rattle.std.specs.Io.KnownBytes.{WriteAppends};
ghost use Rattle.xp_outside.specs.Causes.{WriteCause};

use crate::sink::{Sink, SinkFault};
use crate::source::{Failed, Source};
use std::io::{Read, Write};

/// A reader of std, as standard input, as a source. Each error of the reader is a fault.
#[derive(Drop)]
pub struct StdSource<R> {
    inner: R,
    faults: u64,
}

impl<R> StdSource<R> {
    ghost use Rattle.xp_outside.specs.Standard.{reader_of, read_faults};

    /// A source of what the reader gives from here on.
    pub fn new(inner: R) -> StdSource<R>
        ensures inner { reader_of result ≡ inner }
        ensures faults { read_faults result ≡ 0 }
    {
        StdSource { inner, faults: 0 }
    }
}

impl<R: Read> Source for StdSource<R> {
    ghost use Rattle.xp_outside.specs.Standard.{reader_of, read_faults};

    ghost left = { λ s. R.remaining (reader_of s) };

    ghost faults = { read_faults };

    fn read(&mut self, into: &mut [u8]) -> Result<usize, Failed> {
        match self.inner.read(into) {
            Ok(count) => Ok(count),
            Err(_) => {
                self.faults += 1;
                Err(Failed {})
            }
        }
    }
}

/// A writer of std, as standard output, as a sink. Each error of the writer is a fault, and so is a
/// write that takes none of a piece that isn't empty. It flushes nothing: what a writer keeps back
/// is flushed by who takes it back.
#[derive(Drop)]
pub struct StdSink<W> {
    inner: W,
    faults: u64,
}

impl<W> StdSink<W> {
    ghost use Rattle.xp_outside.specs.Standard.{writer_of, write_faults};

    /// A sink that gives what it takes to the writer.
    pub fn new(inner: W) -> StdSink<W>
        ensures inner { writer_of result ≡ inner }
        ensures faults { write_faults result ≡ 0 }
    {
        StdSink { inner, faults: 0 }
    }

    /// The writer.
    pub fn into_inner(self) -> W
        ensures { result ≡ writer_of self }
    {
        self.inner
    }
}

impl<W: Write> Sink for StdSink<W> {
    ghost use Rattle.xp_outside.specs.Standard.{writer_of, write_faults};

    ghost held = { λ s. W.contents (writer_of s) };

    ghost faults = { write_faults };

    fn write(&mut self, bytes: &[u8]) -> Result<usize, SinkFault>
        requires { write_faults self.old < 2 ^ 64 - 1 }
        ensures bound { WritesAtMost result bytes.now }
        ensures bytes { WriteAppends (W.contents (writer_of self.old))
            (W.contents (writer_of self.new)) result bytes.now }
        ensures cause { WriteCause (write_faults self.old) (write_faults self.new)
            result bytes.now }
        ensures never_memory { IsErrOf result SinkFault.Memory → ⊥ }
    {
        match self.inner.write(bytes) {
            Ok(count) => {
                if count == 0 && bytes.len() > 0 {
                    self.faults += 1;
                }
                Ok(count)
            }
            Err(_) => {
                self.faults += 1;
                Err(SinkFault::Failed)
            }
        }
    }
}
