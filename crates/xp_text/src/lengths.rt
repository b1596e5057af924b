// The lengths of the payloads that words spell, without their bytes.
ghost use Rattle.std.specs.Prelude.{◌≡◌, length};
ghost use Rattle.std.specs.List.{list_all};
ghost use Rattle.std.specs.Option.{option_map};
ghost use Rattle.hex.specs.Hex.{is_hex_digit};
ghost use Rattle.xp_text.specs.Payloads.{hex_of, run_of, piece_of, payload_of, at_most};

use crate::numbers::{Digits, read_digits};
use crate::parts::first_part;
use crate::payloads::{JOINER, RUN_BYTES, TIMES, one_byte};

/// The number of bytes of the payload that a word spells. None: it spells none, or one of more than
/// `most` bytes.
#[tactic(auto, unfolding(crate::specs::Payloads::payload_of))]
pub fn payload_len(word: &[u8], most: usize) -> Option<usize>
    ensures { result ≡ option_map length (at_most most (payload_of word.now)) }
{
    if word == b"-".as_slice() {
        return Some(0);
    }
    let mut len = 0;
    let mut rest = word;
    loop {
        let (piece, more) = first_part(JOINER, rest);
        let Some(piece) = piece_len(piece) else {
            return None;
        };
        if piece > most - len {
            return None;
        }
        len += piece;
        match more {
            Some(more) => rest = more,
            None => return Some(len),
        }
    }
}

/// The number of bytes of a piece, where it is one.
#[tactic(auto, unfolding(crate::specs::Payloads::piece_of))]
fn piece_len(piece: &[u8]) -> Option<usize>
    ensures { result ≡ option_map length (piece_of piece.now) }
{
    let (front, behind) = first_part(TIMES, piece);
    let Some(behind) = behind else {
        return if front.is_empty() {
            None
        } else {
            hex_len(front)
        };
    };
    let (byte, more) = first_part(TIMES, behind);
    match more {
        Some(_) => None,
        None => run_len(front, byte),
    }
}

/// The number of bytes of a run, where its number and its byte are right.
#[tactic(auto, unfolding(crate::specs::Payloads::run_of))]
fn run_len(number: &[u8], byte: &[u8]) -> Option<usize>
    ensures { result ≡ option_map length (run_of number.now byte.now) }
{
    let times = match read_digits(number) {
        Digits::Number(times) => times,
        Digits::Other | Digits::TooGreat => return None,
    };
    if one_byte(byte).is_none() {
        return None;
    }
    if times < 1 || times > RUN_BYTES {
        return None;
    }
    Some(times as usize)
}

/// The number of bytes that digits spell, where they are pairs of hexadecimal digits.
fn hex_len(digits: &[u8]) -> Option<usize>
    ensures { result ≡ option_map length (hex_of digits.now) }
{
    if digits.len() % 2 == 0 && are_hex_digits(digits) {
        Some(digits.len() / 2)
    } else {
        None
    }
}

fn are_hex_digits(digits: &[u8]) -> bool
    ensures { result ≡ list_all is_hex_digit digits.now }
{
    for digit in digits {
        if !is_hex_digit(*digit) {
            return false;
        }
    }
    true
}

fn is_hex_digit(digit: u8) -> bool
    ensures { result ≡ is_hex_digit digit }
{
    matches!(digit, b'0'..=b'9' | b'a'..=b'f' | b'A'..=b'F')
}
