// Bytes against the table of an image's words.
ghost use Rattle.std.specs.Prelude.{◌≡◌, ℕ, ◌+◌, ◌*◌, ◌<◌, ◌≤◌, ◌^◌, ◌++◌, length, slice_index, IfSome, IfNone, OnOk, OnErr};
ghost use Rattle.xp_page.specs.Reading.{word_in, AllowedTo, IsFirstFault, bytes_of_words};

use crate::grammar::{PageCause, PageFault, Row};
use byteorder::{ByteOrder, LittleEndian};
use std::alloc::AllocError;
use xp_base::layout::{LINE_WORDS, WORD_BYTES};

/// The bytes of the longest image.
const LONGEST_IMAGE: usize = WORD_BYTES * LINE_WORDS as usize;

/// Word `k` of some bytes that have it whole.
pub fn word_at(bytes: &[u8], k: usize) -> u64
    requires { 8 * k + 8 ≤ length bytes.now }
    ensures { result ≡ word_in bytes.now k }
{
    LittleEndian::read_u64(&bytes[8 * k..])
}

/// The first fault of bytes that stand from an offset on.
pub fn first_fault(rows: &[Row], bytes: &[u8], offset: u64) -> Option<PageFault>
    requires { offset + 8 * length rows.now < 2 ^ 64 }
    ensures fault { IfSome result (λ f. IsFirstFault rows.now offset bytes.now f) }
    ensures none { IfNone result (AllowedTo rows.now bytes.now (length rows.now)) }
{
    for (k, row) in rows.iter().enumerate() {
        if bytes.len() < 8 * k + 8 {
            return Some(PageFault {
                offset: offset + bytes.len() as u64,
                cause: PageCause::Truncated,
            });
        }
        if !row.allowed.allows(word_at(bytes, k)) {
            return Some(PageFault {
                offset: offset + 8 * k as u64,
                cause: row.cause,
            });
        }
    }
    None
}

/// Appends the bytes of the words of an image, which are no more than those of a line.
#[tactic(auto, unfolding(crate::specs::Reading::bytes_of_words))]
pub fn append(words: &[u64], out: &mut Vec<u8>) -> Result<(), AllocError>
    requires { length words.now ≤ LINE_WORDS }
    ensures ok { OnOk result (out.new.items ≡ out.old.items ++ bytes_of_words words.now) }
    ensures err { OnErr result (out.new.items ≡ out.old.items) }
    ensures range { (i : ℕ) → slice_index words.now i < 2 ^ 64 }
{
    let mut bytes = [0u8; LONGEST_IMAGE];
    let image = &mut bytes[..8 * words.len()];
    LittleEndian::write_u64_into(words, image);
    out.extend_from_slice(image)
}
