// A reader of dumps, which takes the bytes in pieces.
ghost use Rattle.std.specs.Prelude.{◌≡◌, ◌++◌, ℕ, List, [], IfOk, IfErr, Ok};
ghost use Rattle.xp_base.specs.Memory.{Memory};
ghost use Rattle.xp_dump.specs.declared.fault.DumpFault.TheVariants.{Memory as NoMemory};
ghost use Rattle.xp_dump.specs.Grammar.{IsInGrammar, dump_bytes};
ghost use Rattle.xp_dump.specs.Progress.{IsFed, IsFinished, IsFrontOf, Reading};

use crate::fault::DumpFault;
use crate::tape::Tape;
use std::alloc::{AllocError, Global};
use std::marker::Model;
use xp_base::words::Words;
use xp_ghost_list::GhostList;

/// Reads a dump of either layout. Contracts see the bytes that came, or the first fault, after
/// which it keeps nothing else.
#[derive(Drop)]
pub struct Reader {
    alloc: Global,
    read: GhostList<u8>,
    tape: Tape,
    fault: Option<DumpFault>,
}

impl Model for Reader {
    ghost use Rattle.xp_dump.specs.Progress.{Progress, progress_of};

    ghost Value = { Progress };

    ghost use Rattle.xp_dump.specs.Standing.{IsStanding};

    ghost view = { λ r. progress_of r.fault r.read };

    ghost invariant = { λ r. IsStanding r.fault r.read r.tape };
}

impl Reader {
    /// A reader to which no byte came yet.
    pub fn new(alloc: Global) -> Result<Reader, AllocError>
        ensures { IfOk result (λ reader. reader ≡ Reading []) }
    {
        Ok(Reader {
            alloc,
            read: GhostList::new(),
            tape: Tape::new(),
            fault: None,
        })
    }

    /// Takes the next bytes, or tells the first fault of all bytes that came. After a fault it
    /// tells that fault again.
    pub fn feed(&mut self, piece: &[u8]) -> Result<(), DumpFault>
        ensures fed { IsFed self.old piece.now result self.new }
        // Of what `dump` wrote no piece is refused; only want of memory may come.
        ensures dumped { (m : Memory) (rest : List ℕ) → IsInGrammar m
            → IsFrontOf self.old piece.now rest (dump_bytes m)
            → IfErr result (λ fault. fault ≡ NoMemory) }
    {
        if let Some(fault) = self.fault {
            return Err(fault);
        }
        note(&mut self.read, piece);
        if let Err(fault) = self.tape.feed(self.alloc, piece) {
            self.fault = Some(fault);
            self.tape = Tape::new();
            return Err(fault);
        }
        Ok(())
    }

    /// The words of the dump, in the layout of memory; else the fault that was told, or that bytes
    /// are missing.
    pub fn finish(self) -> Result<Words, DumpFault>
        ensures answer { IsFinished self result }
        // What `dump` wrote is given back, word for word.
        ensures back { (m : Memory) → self ≡ Reading (dump_bytes m) → IsInGrammar m
            → result ≡ Ok m }
    {
        let Reader { tape, fault, .. } = self;
        match fault {
            Some(fault) => Err(fault),
            None => tape.finish(),
        }
    }
}

// Keeps the bytes of a piece for the contracts.
fn note(read: &mut GhostList<u8>, piece: &[u8])
    ensures { read.new ≡ read.old ++ piece.now }
{
    for byte in piece {
        read.push(byte);
    }
}
