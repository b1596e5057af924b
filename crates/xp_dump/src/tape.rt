// Bytes as they come in, gathered to words.
ghost use Rattle.std.specs.Prelude.{◌≡◌, ℕ, List, [], ◌∷◌, ◌+◌, ◌*◌, ◌++◌, length, false, true, OnOk, MatchOption, MatchResult};
ghost use Rattle.xp_dump.specs.declared.fault.DumpFault.TheVariants.{Trailing};
ghost use Rattle.xp_dump.specs.Grammar.{IsDump, IsMissing};
ghost use Rattle.xp_dump.specs.Stages.{is_whole, taken};
ghost use Rattle.xp_dump.specs.Tapes.{IsTape, IsRead, IsTaken};

use crate::fault::DumpFault;
use crate::parts::Parts;
use crate::stage::Stage;
use byteorder::{ByteOrder, LittleEndian};
use std::alloc::Global;
use xp_base::layout::WORD_BYTES;
use xp_base::words::Words;
use xp_page::{PageCause, PageFault};

/// The words that came, and the bytes of the next one that came so far.
#[derive(Drop)]
pub struct Tape {
    pub pending: [u8; WORD_BYTES],
    pub filled: u8,
    pub stage: Stage,
}

impl Tape {
    /// Before the first byte.
    pub fn new() -> Tape
        ensures tape { IsTape result }
        ensures read { IsRead [] result }
    {
        Tape {
            pending: [0; WORD_BYTES],
            filled: 0,
            stage: Stage::Header,
        }
    }

    /// Takes the next bytes, or tells the first fault of the bytes with them.
    pub fn feed(&mut self, alloc: Global, piece: &[u8]) -> Result<(), DumpFault>
        requires { IsTape self.old }
        ensures tape { OnOk result (IsTape self.new) }
        ensures step { (bytes : List ℕ) → IsRead bytes self.old
            → IsTaken bytes piece.now result self.new }
    {
        let mut at = 0;
        while at < piece.len() {
            if self.filled == 0 && WORD_BYTES <= piece.len() - at {
                let end = at + WORD_BYTES;
                self.take_word(alloc, &piece[at..end])?;
                at = end;
            } else {
                self.take_byte(alloc, piece[at])?;
                at += 1;
            }
        }
        Ok(())
    }

    // The fault of the next byte, whichever it is: the dump is whole.
    fn fault_past(&self) -> Option<DumpFault>
        requires { IsTape self.now }
        ensures { MatchOption result (is_whole self.now.stage ≡ false)
            (λ fault. (is_whole self.now.stage ≡ true)
            × (fault ≡ Trailing (8 * taken self.now.stage))) }
    {
        if self.stage.is_whole() {
            Some(DumpFault::Trailing {
                offset: self.stage.offset(),
            })
        } else {
            None
        }
    }

    // Takes the bytes of the next word, none of which came before.
    fn take_word(&mut self, alloc: Global, bytes: &[u8]) -> Result<(), DumpFault>
        requires tape { IsTape self.old }
        requires none { self.old.filled ≡ 0 }
        requires whole { length bytes.now ≡ WORD_BYTES }
        ensures tape { OnOk result (IsTape self.new) }
        ensures step { (came : List ℕ) → IsRead came self.old
            → IsTaken came bytes.now result self.new }
    {
        if let Some(fault) = self.fault_past() {
            return Err(fault);
        }
        let word = LittleEndian::read_u64(bytes);
        self.stage.put(alloc, word)
    }

    fn take_byte(&mut self, alloc: Global, byte: u8) -> Result<(), DumpFault>
        requires { IsTape self.old }
        ensures tape { OnOk result (IsTape self.new) }
        ensures step { (came : List ℕ) → IsRead came self.old
            → IsTaken came (byte ∷ []) result self.new }
    {
        if let Some(fault) = self.fault_past() {
            return Err(fault);
        }
        self.pending[self.filled as usize] = byte;
        self.filled += 1;
        if (self.filled as usize) < WORD_BYTES {
            return Ok(());
        }
        self.filled = 0;
        let word = LittleEndian::read_u64(&self.pending);
        self.stage.put(alloc, word)
    }

    /// The words of a whole dump; else bytes are missing.
    pub fn finish(self) -> Result<Words, DumpFault>
        requires { IsTape self }
        ensures { (bytes : List ℕ) → IsRead bytes self
            → MatchResult result (λ words. IsDump bytes words) (λ fault. IsMissing bytes fault) }
    {
        let missing = DumpFault::Page(PageFault {
            offset: self.stage.offset() + self.filled as u64,
            cause: PageCause::Truncated,
        });
        let is_whole = self.stage.is_whole();
        let Tape { stage, .. } = self;
        match stage {
            Stage::Words(parts) if is_whole => Ok(words_of(parts)),
            _ => Err(missing),
        }
    }
}

fn words_of(parts: Parts) -> Words
    ensures { result ≡ parts.words }
{
    let Parts { words, .. } = parts;
    words
}
