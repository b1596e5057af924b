// Where bytes go to.
ghost use Rattle.std.specs.Prelude.{◌≡◌, ◌↔◌, ℕ, ◌<◌, ◌≤◌, ◌+◌, ◌-◌, ◌^◌, ◌++◌, List, [], length, take, min, Option, Some, IfOk, OnOk, OnErr, IsErrOf, Contains};
ghost use Rattle.std.specs.Io.{WritesAtMost};
ghost use Rattle.std.specs.Io.KnownBytes.{WriteAppends, Appends};
ghost use Rattle.xp_outside.specs.Causes.{Rose, WriteCause};
ghost use Rattle.xp_outside.specs.InMemory.{next_call};

use std::alloc::Global;
use std::marker::Model;

/// Why a sink took no bytes of a piece.
#[derive(Clone, Copy)]
pub enum SinkFault {
    /// The write failed, and its sink has counted the fault.
    Failed,
    /// The sink found no memory for the bytes, and is as it was before.
    Memory,
}

/// Where bytes go to. It takes them in their order, as many of a piece as it likes.
pub trait Sink {
    /// The bytes that the sink holds, where it tells them.
    ghost held: { Self → Option (List ℕ) };

    /// How often the sink has failed.
    ghost faults: { Self → ℕ };

    /// Takes the first bytes of a piece, and says how many. To take none of a piece that isn't
    /// empty is a fault, which it counts. An error takes none.
    fn write(&mut self, bytes: &[u8]) -> Result<usize, SinkFault>
        requires { faults self.old < 2 ^ 64 - 1 }
        ensures bound { WritesAtMost result bytes.now }
        ensures bytes { WriteAppends (held self.old) (held self.new) result bytes.now }
        ensures cause { WriteCause (faults self.old) (faults self.new) result bytes.now };
}

/// Writes all bytes, in as many writes as the sink wants. A write that takes none ends it, as
/// `Failed`.
pub fn write_all<K: Sink>(sink: &mut K, bytes: &[u8]) -> Result<(), SinkFault>
    requires { K.faults sink.old < 2 ^ 64 - 1 }

    // At Ok the sink has taken all of them, and else a front of them.
    ensures ok { OnOk result (Appends (K.held sink.old) (K.held sink.new) bytes.now) }
    ensures prefix { OnErr result ((n : ℕ) × (n ≤ length bytes.now)
        × Appends (K.held sink.old) (K.held sink.new) (take n bytes.now)) }

    // A fault has its cause, and every other answer leaves the count.
    ensures later { K.faults sink.old ≤ K.faults sink.new }
    ensures failed { IsErrOf result SinkFault.Failed
        → Rose (K.faults sink.old) (K.faults sink.new) }
    ensures kept { OnOk result (K.faults sink.new ≡ K.faults sink.old) }
    ensures kept_memory { IsErrOf result SinkFault.Memory → K.faults sink.new ≡ K.faults sink.old }
{
    let mut done = 0;
    for _turn in 0..bytes.len() {
        if done == bytes.len() {
            return Ok(());
        }
        match sink.write(&bytes[done..]) {
            Ok(0) => return Err(SinkFault::Failed),
            Ok(count) => done += count,
            Err(fault) => return Err(fault),
        }
    }
    Ok(())
}

/// A sink in memory that takes at most some number of bytes in a call, and some of whose calls
/// fail, as a test wants them.
#[derive(Drop)]
pub struct MemorySink {
    bytes: Vec<u8>,
    largest: usize,
    failing: Vec<u64>,
    calls: u64,
    faults: u64,
}

impl Model for MemorySink {
    ghost use Rattle.std.specs.Prelude.{◌≤◌};
    ghost use Rattle.xp_outside.specs.InMemory.{SinkState};

    ghost Value = { SinkState };

    ghost view = { λ s. record {
      held = s.bytes.items;
      largest = s.largest;
      failing = s.failing.items;
      calls = s.calls;
      faults = s.faults;
    } };

    ghost invariant = { λ s. 1 ≤ s.largest };
}

impl MemorySink {
    /// An empty sink. `failing` has the numbers of the calls that fail; the first call has number
    /// 1, and a call that finds no memory has none.
    pub fn new(alloc: Global, largest: usize, failing: Vec<u64>) -> MemorySink
        requires { 1 ≤ largest }
        ensures held { result.held ≡ [] }
        ensures largest { result.largest ≡ largest }
        ensures failing { result.failing ≡ failing.items }
        ensures calls { result.calls ≡ 0 }
        ensures faults { result.faults ≡ 0 }
    {
        MemorySink {
            bytes: Vec::new(alloc),
            largest,
            failing,
            calls: 0,
            faults: 0,
        }
    }

    /// The bytes that the sink holds.
    pub fn bytes(&self) -> &[u8]
        ensures { result.now ≡ self.now.held }
    {
        &self.bytes
    }
}

impl Sink for MemorySink {
    ghost held = { λ s. Some s.held };

    ghost faults = { λ s. s.faults };

    fn write(&mut self, bytes: &[u8]) -> Result<usize, SinkFault>
        requires { self.old.faults < 2 ^ 64 - 1 }
        ensures bound { WritesAtMost result bytes.now }
        ensures bytes { WriteAppends (Some self.old.held) (Some self.new.held) result bytes.now }
        ensures cause { WriteCause self.old.faults self.new.faults result bytes.now }

        // The calls whose numbers were given fail, each once, and no others.
        ensures fails { IsErrOf result SinkFault.Failed
            ↔ Contains self.old.failing (next_call self.old.calls) }
        ensures fault { IsErrOf result SinkFault.Failed → self.new.faults ≡ self.old.faults + 1 }
        ensures count { IfOk result (λ n. n ≡ min self.old.largest (length bytes.now)) }
        ensures call_failed { IsErrOf result SinkFault.Failed
            → self.new.calls ≡ next_call self.old.calls }
        ensures call_taken { OnOk result (self.new.calls ≡ next_call self.old.calls) }
        ensures memory { IsErrOf result SinkFault.Memory → self.new ≡ self.old }
        ensures failing { self.new.failing ≡ self.old.failing }
        ensures largest { self.new.largest ≡ self.old.largest }
    {
        let number = self.calls.saturating_add(1);
        if self.failing.contains(&number) {
            self.calls = number;
            self.faults += 1;
            return Err(SinkFault::Failed);
        }
        let count = self.largest.min(bytes.len());
        match self.bytes.extend_from_slice(&bytes[..count]) {
            Ok(()) => {
                self.calls = number;
                Ok(count)
            }
            Err(_) => Err(SinkFault::Memory),
        }
    }
}

/// A sink in memory that takes all of each piece, and never answers `Failed`.
#[derive(Drop)]
pub struct WholeSink {
    bytes: Vec<u8>,
}

impl Model for WholeSink {
    ghost use Rattle.std.specs.Prelude.{List, ℕ};

    ghost Value = { List ℕ };

    ghost view = { λ s. s.bytes.items };
}

impl WholeSink {
    /// An empty sink.
    pub fn new(alloc: Global) -> WholeSink
        ensures { result ≡ [] }
    {
        WholeSink {
            bytes: Vec::new(alloc),
        }
    }

    /// The bytes that the sink holds.
    pub fn bytes(&self) -> &[u8]
        ensures { result.now ≡ self.now }
    {
        &self.bytes
    }
}

impl Sink for WholeSink {
    ghost held = { λ s. Some s };

    ghost faults = { λ s. 0 };

    fn write(&mut self, bytes: &[u8]) -> Result<usize, SinkFault>
        ensures bound { WritesAtMost result bytes.now }
        ensures bytes { WriteAppends (Some self.old) (Some self.new) result bytes.now }
        ensures cause { WriteCause 0 0 result bytes.now }
        ensures count { IfOk result (λ n. n ≡ length bytes.now) }
        ensures never_failed { IsErrOf result SinkFault.Failed → ⊥ }
    {
        match self.bytes.extend_from_slice(bytes) {
            Ok(()) => Ok(bytes.len()),
            Err(_) => Err(SinkFault::Memory),
        }
    }
}
