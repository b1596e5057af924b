// The bytes of a dump.
ghost use Rattle.std.specs.Prelude.{◌≡◌, ◌++◌, IfOk, OnOk};
ghost use Rattle.xp_base.specs.Memory.{Memory};
ghost use Rattle.xp_page.specs.Reading.{bytes_of_words};
ghost use Rattle.xp_dump.specs.Grammar.{IsDump, IsInGrammar, dump_bytes};

use std::alloc::{AllocError, Global};
use xp_base::layout::WORD_BYTES;
use xp_base::words::Words;

/// The first word of a dump of the older layout: the bytes `XPDUMP01`, the lowest first.
pub const OLDER_HEADER: u64 = 3_544_421_199_813_824_600;
/// The first word of a dump of the newer layout: the bytes `XPDUMP02`, the lowest first.
pub const NEWER_HEADER: u64 = 3_616_478_793_851_752_536;

// Appends the bytes of some words, the lowest byte of each first.
#[tactic(auto, unfolding(xp_page::specs::Reading::bytes_of_words))]
fn append(out: &mut Vec<u8>, words: &[u64]) -> Result<(), AllocError>
    ensures { OnOk result (out.new.items ≡ out.old.items ++ bytes_of_words words.now) }
{
    for word in words {
        out.extend_from_slice(&word.to_le_bytes())?;
    }
    Ok(())
}

/// The dump of the words of some partitions: a header, the number of partitions, and the words of
/// each.
pub fn dump(alloc: Global, words: &Words) -> Result<Vec<u8>, AllocError>
    ensures bytes { IfOk result (λ bytes. bytes.items ≡ dump_bytes words.now) }
    // Words that the grammar allows are told by their dump, and no others are.
    ensures told { IfOk result (λ bytes. IsInGrammar words.now → IsDump bytes.items words.now) }
    ensures alone { IfOk result (λ bytes. (m : Memory) → IsInGrammar words.now
        → IsDump bytes.items m → m ≡ words.now) }
{
    let flat = words.flat();
    let mut out = Vec::with_capacity(alloc, WORD_BYTES * (flat.len() + 2))?;
    append(&mut out, &[NEWER_HEADER, words.count() as u64])?;
    append(&mut out, flat)?;
    Ok(out)
}
