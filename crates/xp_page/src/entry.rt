// An entry of a message queue that has one line.
ghost use Rattle.std.specs.Prelude.{◌≡◌, ◌*◌, ◌≤◌, ◌∷◌, length, refl};
ghost use Rattle.xp_base.specs.declared.layout.TheConstants.{LINE_WORDS};
ghost use Rattle.xp_page.specs.Grammar.{entry_table, rows_of_entry};
ghost use Rattle.xp_page.specs.Reading.{words_in};

use crate::grammar::{Allowed, PageCause, PageFault, Row};
use crate::image::{At, Image};
use crate::reading::{append, first_fault, word_at};
use byteorder::{ByteOrder, LittleEndian};
use std::alloc::AllocError;
use xp_base::layout::{LINE_WORDS, WORD_BYTES};

/// How many words of a line hold the payload, behind its length and its number.
pub const PAYLOAD_WORDS: usize = LINE_WORDS as usize - 2;
/// Where the payload begins in the bytes of a line.
const PAYLOAD_AT: usize = 2 * WORD_BYTES;

/// An entry of one line, in the driver `struct xpc_msg_sn2` and its payload.
#[derive(Clone, Copy)]
pub struct EntryImage {
    /// The length of the payload in bytes, with the mark 65,536, or 0 before the first use.
    pub length: u64,
    /// The message's number in its connection.
    pub number: u64,
    /// The payload by eight bytes, the lowest first, and then zeros.
    pub payload: [u64; PAYLOAD_WORDS],
}

fn entry_rows() -> [Row; LINE_WORDS as usize]
    ensures { result ≡ rows_of_entry }
{
    let mut rows = [Row::any(); LINE_WORDS as usize];
    rows[0] = Row::new(Allowed::Length, PageCause::Length);
    rows
}

impl EntryImage {
    fn to_words(&self) -> [u64; LINE_WORDS as usize]
        ensures value { result ≡ self.now.length ∷ self.now.number ∷ self.now.payload }
        ensures size { length self.now.payload ≡ PAYLOAD_WORDS }
    {
        let mut words = [0u64; LINE_WORDS as usize];
        words[0] = self.length;
        words[1] = self.number;
        words[2..].copy_from_slice(&self.payload);
        words
    }
}

impl Image for EntryImage {
    ghost size = { LINE_WORDS };

    ghost words = { λ x. x.length ∷ x.number ∷ x.payload };

    ghost table = { entry_table };

    fn length() -> usize {
        WORD_BYTES * LINE_WORDS as usize
    }

    fn write(&self, out: &mut Vec<u8>) -> Result<(), AllocError> {
        append(&self.to_words(), out)
    }

    fn read(bytes: &[u8], at: At) -> Result<EntryImage, PageFault> {
        match first_fault(&entry_rows(), bytes, at.offset) {
            Some(fault) => Err(fault),
            None => Ok(EntryImage {
                length: word_at(bytes, 0),
                number: word_at(bytes, 1),
                payload: payload_at(bytes),
            }),
        }
    }

    ghost sized = { λ at. refl };
}

// The words behind the first two.
fn payload_at(bytes: &[u8]) -> [u64; PAYLOAD_WORDS]
    requires { WORD_BYTES * LINE_WORDS ≤ length bytes.now }
    ensures { result ≡ words_in bytes.now 2 PAYLOAD_WORDS }
{
    let mut payload = [0u64; PAYLOAD_WORDS];
    LittleEndian::read_u64_into(
        &bytes[PAYLOAD_AT..WORD_BYTES * LINE_WORDS as usize],
        &mut payload,
    );
    payload
}
