// How far a reader is: which word comes next.
ghost use Rattle.std.specs.Prelude.{◌≡◌, ℕ, ◌+◌, ◌*◌, ◌<◌, ◌^◌, true, false, OnOk, IfErr, IfOk, IsTrue, MatchResult};
ghost use Rattle.xp_page.specs.Grammar.{allows};
ghost use Rattle.xp_dump.specs.declared.fault.DumpFault.TheVariants.{Memory};
ghost use Rattle.xp_dump.specs.Grammar.{Numbered, is_count};
ghost use Rattle.xp_dump.specs.Parts.{IsOpen, after_word, row_next, taken_in};
ghost use Rattle.xp_dump.specs.Stages.{IsReady, IsPlaced, Follows, Steps, IsRefusedAt, refused_at, header_put, opened, taken, is_whole, IsCountFault};

use crate::fault::DumpFault;
use crate::parts::Parts;
use crate::writer::{NEWER_HEADER, OLDER_HEADER};
use std::alloc::Global;
use xp_base::layout::WORD_BYTES;
use xp_base::words::Words;
use xp_dump_table::Layout;
use xp_page::{PageCause, PageFault};

/// The least number of partitions.
pub const LEAST_PARTS: u64 = 2;

/// Which word of a dump comes next.
#[derive(Drop)]
pub enum Stage {
    Header,
    Count(Layout),
    /// A word of a partition, or nothing.
    Words(Parts),
}

// The fault of word `k`.
fn refused(k: u64, cause: PageCause) -> DumpFault
    requires { 8 * k < 2 ^ 64 }
    ensures { result ≡ refused_at k cause }
{
    DumpFault::Page(PageFault {
        offset: WORD_BYTES as u64 * k,
        cause,
    })
}

fn put_header(word: u64) -> Result<Stage, DumpFault>
    ensures { result ≡ header_put word }
{
    if word == OLDER_HEADER {
        Ok(Stage::Count(Layout::Older))
    } else if word == NEWER_HEADER {
        Ok(Stage::Count(Layout::Newer))
    } else {
        Err(refused(0, PageCause::Signature))
    }
}

fn put_count(alloc: Global, layout: Layout, word: u64) -> Result<Parts, DumpFault>
    ensures ok { IfOk result
        (λ parts. (is_count layout word ≡ true) × (parts ≡ opened layout word)) }
    ensures err { IfErr result (λ fault. IsCountFault layout word fault) }
{
    if word < LEAST_PARTS || word > layout.parts() as u64 {
        return Err(refused(1, PageCause::Value));
    }
    match Words::open(alloc, word as u8) {
        Ok(words) => Ok(Parts {
            layout,
            words,
            owner: 0,
            index: 0,
            version: 0,
        }),
        Err(_) => Err(DumpFault::Memory),
    }
}

// How many words came before the next one of a partition.
fn taken_before(parts: &Parts) -> u64
    requires { IsPlaced parts.now }
    ensures value { result ≡ taken_in parts.now }
    ensures range { 8 * result < 2 ^ 64 }
{
    2 + parts.layout.words() as u64 * parts.owner as u64 + parts.index as u64
}

fn put_word(parts: &mut Parts, word: u64) -> Result<(), DumpFault>
    requires placed { IsPlaced parts.old }
    requires going { IsOpen parts.old }
    ensures ok { OnOk result ((allows (row_next parts.old).allowed word ≡ true)
        × (parts.new ≡ after_word parts.old word)) }
    ensures err { IfErr result (λ fault. (allows (row_next parts.old).allowed word ≡ false)
        × (fault ≡ refused_at (taken_in parts.old) (row_next parts.old).cause)) }
{
    let taken = taken_before(parts);
    match parts.put(word) {
        Ok(()) => Ok(()),
        Err(cause) => Err(refused(taken, cause)),
    }
}

impl Stage {
    /// The offset of the next word's first byte.
    pub fn offset(&self) -> u64
        requires { IsReady self.now }
        ensures { result ≡ 8 * taken self.now }
    {
        let taken = match self {
            Stage::Header => 0,
            Stage::Count(_) => 1,
            Stage::Words(parts) => taken_before(parts),
        };
        WORD_BYTES as u64 * taken
    }

    /// Whether all words came.
    pub fn is_whole(&self) -> bool
        ensures { result ≡ is_whole self.now }
    {
        match self {
            Stage::Words(parts) => parts.owner == parts.words.count(),
            _ => false,
        }
    }

    /// Takes the next word, or tells why it isn't allowed.
    pub fn put(&mut self, alloc: Global, word: u64) -> Result<(), DumpFault>
        requires ready { IsReady self.old }
        requires going { is_whole self.old ≡ false }
        ensures ready { OnOk result (IsReady self.new) }
        ensures step { (f : Numbered) → Follows f self.old → f (taken self.old) ≡ word
            → MatchResult result (λ _. Steps f self.old self.new)
            (λ fault. IsRefusedAt f (taken self.old) fault) }
    {
        match self {
            Stage::Header => {
                *self = put_header(word)?;
                Ok(())
            }
            Stage::Count(layout) => {
                let parts = put_count(alloc, *layout, word)?;
                *self = Stage::Words(parts);
                Ok(())
            }
            Stage::Words(parts) => put_word(parts, word),
        }
    }
}
