// Where bytes come from.
ghost use Rattle.std.specs.Prelude.{◌≡◌, ◌↔◌, ℕ, ◌<◌, ◌≤◌, ◌+◌, ◌-◌, ◌^◌, ◌++◌, List, [], length, take, drop, min, Option, Some, Ok, IfOk, OnOk, OnErr, IsErr, IsErrOf, Contains};
ghost use Rattle.std.specs.Io.{ReadsAtMost};
ghost use Rattle.std.specs.Io.KnownBytes.{ReadConsumes, Consumes, IsAtEnd};
ghost use Rattle.xp_outside.specs.Causes.{Rose, HasCause};
ghost use Rattle.xp_outside.specs.InMemory.{next_call};

use crate::taker::Taker;
use std::alloc::Global;
use std::marker::Model;

/// A read failed. Its source has counted the fault, and has as many bytes left as before.
#[derive(Clone, Copy)]
pub struct Failed {}

/// Where bytes come from. It gives them in their order, each once, in pieces of its own choice.
pub trait Source {
    /// The bytes that are left, where the source tells them.
    ghost left: { Self → Option (List ℕ) };

    /// How often the source has failed.
    ghost faults: { Self → ℕ };

    /// Moves the next bytes to the front of a piece, and says how many. None, for a piece that
    /// isn't empty, is the end of the input. What the rest of the piece holds afterwards isn't
    /// said, nor what all of it holds after a failure.
    fn read(&mut self, into: &mut [u8]) -> Result<usize, Failed>
        requires { faults self.old < 2 ^ 64 - 1 }
        ensures bound { ReadsAtMost result into.new }
        ensures bytes { ReadConsumes (left self.old) (left self.new) result into.new }
        ensures cause { HasCause (faults self.old) (faults self.new) result };
}

/// Why an input wasn't read to its end.
#[derive(Clone, Copy)]
pub enum ReadError {
    /// A read failed; it was the last one.
    Failed,
    /// There are more bytes than the limit. One byte past it was read, and no more.
    TooLong,
    /// No memory for the bytes.
    Memory,
}

/// How many bytes a single read asks for at most.
const PIECE: usize = 8192;

/// Gives all bytes of a source to a taker, piece by piece, where they are no more than a limit, in
/// bytes. Beside what the taker keeps, one piece is kept.
pub fn feed_all<S: Source, T: Taker>(
    source: &mut S,
    taker: &mut T,
    limit: usize,
) -> Result<(), ReadError>
    requires limit { limit < 2 ^ 32 }
    requires below { S.faults source.old < 2 ^ 64 - 1 }

    // At Ok the source was read to its end, and the taker took exactly these bytes.
    ensures whole { OnOk result ((bytes : List ℕ)
        × Consumes (S.left source.old) (S.left source.new) bytes
        × T.takes taker.old bytes taker.new × (length bytes ≤ limit)) }
    ensures end { OnOk result (IsAtEnd (S.left source.new)) }

    // Past the limit exactly one byte was read.
    ensures long { IsErrOf result ReadError.TooLong → (bytes : List ℕ)
        × Consumes (S.left source.old) (S.left source.new) bytes × (length bytes ≡ limit + 1) }

    // After any other error some bytes were read, at most as many.
    ensures front { OnErr result ((bytes : List ℕ)
        × Consumes (S.left source.old) (S.left source.new) bytes × (length bytes ≤ limit + 1)) }

    // A fault has its cause, and every other answer leaves the count.
    ensures later { S.faults source.old ≤ S.faults source.new }
    ensures failed { IsErrOf result ReadError.Failed
        → Rose (S.faults source.old) (S.faults source.new) }
    ensures kept { OnOk result (S.faults source.new ≡ S.faults source.old) }
    ensures kept_too_long { IsErrOf result ReadError.TooLong
        → S.faults source.new ≡ S.faults source.old }
    ensures kept_memory { IsErrOf result ReadError.Memory
        → S.faults source.new ≡ S.faults source.old }
{
    let mut piece = [0u8; PIECE];
    let mut fed = 0;
    for _turn in 0..=limit {
        let most = (limit + 1 - fed).min(PIECE);
        let count = match source.read(&mut piece[..most]) {
            Ok(count) => count,
            Err(_) => return Err(ReadError::Failed),
        };
        if count == 0 {
            return Ok(());
        }
        fed += count;
        if fed > limit {
            return Err(ReadError::TooLong);
        }
        match taker.take(&piece[..count]) {
            Ok(()) => {}
            Err(_) => return Err(ReadError::Memory),
        }
    }
    Err(ReadError::TooLong)
}

/// All bytes of a source, where they are no more than a limit, in bytes. After an error the bytes
/// that were read are lost.
pub fn read_all<S: Source>(
    alloc: Global,
    source: &mut S,
    limit: usize,
) -> Result<Vec<u8>, ReadError>
    requires limit { limit < 2 ^ 32 }
    requires below { S.faults source.old < 2 ^ 64 - 1 }

    // At Ok the source was read to its end, and gave these bytes.
    ensures whole { IfOk result (λ bytes.
        Consumes (S.left source.old) (S.left source.new) bytes.items) }
    ensures end { OnOk result (IsAtEnd (S.left source.new)) }
    ensures within { IfOk result (λ bytes. length bytes.items ≤ limit) }

    // Past the limit exactly one byte was read.
    ensures long { IsErrOf result ReadError.TooLong → (bytes : List ℕ)
        × Consumes (S.left source.old) (S.left source.new) bytes × (length bytes ≡ limit + 1) }

    // After any other error some bytes were read, at most as many.
    ensures front { OnErr result ((bytes : List ℕ)
        × Consumes (S.left source.old) (S.left source.new) bytes × (length bytes ≤ limit + 1)) }

    // A fault has its cause, and every other answer leaves the count.
    ensures later { S.faults source.old ≤ S.faults source.new }
    ensures failed { IsErrOf result ReadError.Failed
        → Rose (S.faults source.old) (S.faults source.new) }
    ensures kept { OnOk result (S.faults source.new ≡ S.faults source.old) }
    ensures kept_too_long { IsErrOf result ReadError.TooLong
        → S.faults source.new ≡ S.faults source.old }
    ensures kept_memory { IsErrOf result ReadError.Memory
        → S.faults source.new ≡ S.faults source.old }
{
    let mut bytes = Vec::new(alloc);
    feed_all(source, &mut bytes, limit)?;
    Ok(bytes)
}

// Moves the bytes from a place on to the front of a piece, at most so many, and says how many.
fn give(bytes: &[u8], given: usize, most: usize, into: &mut [u8]) -> usize
    requires { given ≤ length bytes.now }
    ensures bound { result ≤ length into.new }
    ensures count { result ≡ min most (min (length bytes.now - given) (length into.old)) }
    ensures moved { drop given bytes.now ≡ take result into.new ++ drop (given + result) bytes.now }
    ensures none { 0 < most → result ≡ 0 → 0 < length into.new
        → drop (given + result) bytes.now ≡ [] }
{
    let count = most.min((bytes.len() - given).min(into.len()));
    into[..count].copy_from_slice(&bytes[given..given + count]);
    count
}

/// A source in memory whose pieces have at most some length, and some of whose calls
/// fail, as a test wants them.
#[derive(Drop)]
pub struct MemorySource {
    bytes: Vec<u8>,
    given: usize,
    largest: usize,
    failing: Vec<u64>,
    calls: u64,
    faults: u64,
}

impl Model for MemorySource {
    ghost use Rattle.std.specs.Prelude.{length, drop, ◌≤◌};
    ghost use Rattle.xp_outside.specs.InMemory.{SourceState};

    ghost Value = { SourceState };

    ghost view = { λ s. record {
      left = drop s.given s.bytes.items;
      largest = s.largest;
      failing = s.failing.items;
      calls = s.calls;
      faults = s.faults;
    } };

    ghost invariant = { λ s. (s.given ≤ length s.bytes.items) × (1 ≤ s.largest) };
}

impl MemorySource {
    /// A source of these bytes. `failing` has the numbers of the calls that fail; the
    /// first call has number 1.
    pub fn new(bytes: Vec<u8>, largest: usize, failing: Vec<u64>) -> MemorySource
        requires { 1 ≤ largest }
        ensures left { result.left ≡ bytes.items }
        ensures largest { result.largest ≡ largest }
        ensures failing { result.failing ≡ failing.items }
        ensures calls { result.calls ≡ 0 }
        ensures faults { result.faults ≡ 0 }
    {
        MemorySource {
            bytes,
            given: 0,
            largest,
            failing,
            calls: 0,
            faults: 0,
        }
    }
}

impl Source for MemorySource {
    ghost left = { λ s. Some s.left };

    ghost faults = { λ s. s.faults };

    fn read(&mut self, into: &mut [u8]) -> Result<usize, Failed>
        requires { self.old.faults < 2 ^ 64 - 1 }
        ensures bound { ReadsAtMost result into.new }
        ensures bytes { ReadConsumes (Some self.old.left) (Some self.new.left) result into.new }
        ensures cause { HasCause self.old.faults self.new.faults result }

        // The calls whose numbers were given fail, each once, and no others.
        ensures fails { IsErr result ↔ Contains self.old.failing (next_call self.old.calls) }
        ensures fault { OnErr result (self.new.faults ≡ self.old.faults + 1) }
        ensures count { IfOk result
            (λ n. n ≡ min self.old.largest (min (length self.old.left) (length into.old))) }
        ensures call { self.new.calls ≡ next_call self.old.calls }
        ensures failing { self.new.failing ≡ self.old.failing }
        ensures largest { self.new.largest ≡ self.old.largest }
    {
        self.calls = self.calls.saturating_add(1);
        if self.failing.contains(&self.calls) {
            self.faults += 1;
            return Err(Failed {});
        }
        let count = give(&self.bytes, self.given, self.largest, into);
        self.given += count;
        Ok(count)
    }
}

/// A source in memory that gives as much as a piece has room for, and never fails.
#[derive(Drop)]
pub struct WholeSource {
    bytes: Vec<u8>,
    given: usize,
}

impl Model for WholeSource {
    ghost use Rattle.std.specs.Prelude.{List, ℕ, length, drop, ◌≤◌};

    ghost Value = { List ℕ };

    ghost view = { λ s. drop s.given s.bytes.items };

    ghost invariant = { λ s. s.given ≤ length s.bytes.items };
}

impl WholeSource {
    /// A source of these bytes.
    pub fn new(bytes: Vec<u8>) -> WholeSource
        ensures { result ≡ bytes.items }
    {
        WholeSource { bytes, given: 0 }
    }
}

impl Source for WholeSource {
    ghost left = { λ s. Some s };

    ghost faults = { λ s. 0 };

    fn read(&mut self, into: &mut [u8]) -> Result<usize, Failed>
        ensures bound { ReadsAtMost result into.new }
        ensures bytes { ReadConsumes (Some self.old) (Some self.new) result into.new }
        ensures cause { HasCause 0 0 result }
        ensures count { result ≡ Ok (min (length self.old) (length into.old)) }
    {
        let most = into.len();
        let count = give(&self.bytes, self.given, most, into);
        self.given += count;
        Ok(count)
    }
}
