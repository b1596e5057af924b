// The payloads that words spell.
ghost use Rattle.std.specs.Prelude.{◌≡◌, ◌≤◌, ◌++◌, replicate, IfOk, OnOk};
ghost use Rattle.std.specs.Option.{option_map};
ghost use Rattle.xp_text.specs.Payloads.{hex_of, one_byte, run_of, piece_of, payload_of, at_most, Appends};

use crate::numbers::{Digits, read_digits};
use crate::parts::first_part;
use hex::{FromHex, FromHexError};
use std::alloc::{AllocError, Global};

/// The byte that joins the pieces of a payload.
pub const JOINER: u8 = b'+';

/// The byte between the number of a run and its byte's digits.
pub const TIMES: u8 = b'*';

/// The most bytes that one run has.
pub const RUN_BYTES: u64 = 4_096;

/// The payload that a word spells. None: it spells none, or one of more than `most` bytes.
#[tactic(auto, unfolding(crate::specs::Payloads::payload_of))]
pub fn payload(alloc: Global, word: &[u8], most: usize) -> Result<Option<Vec<u8>>, AllocError>
    ensures { IfOk result
        (λ bytes. option_map (λ v. v.items) bytes ≡ at_most most (payload_of word.now)) }
{
    let mut bytes = Vec::new(alloc);
    if word == b"-".as_slice() {
        return Ok(Some(bytes));
    }
    let mut rest = word;
    loop {
        let (piece, more) = first_part(JOINER, rest);
        if !push_piece(alloc, &mut bytes, piece)? {
            return Ok(None);
        }
        if bytes.len() > most {
            return Ok(None);
        }
        match more {
            Some(more) => rest = more,
            None => return Ok(Some(bytes)),
        }
    }
}

/// Appends the bytes of a piece, where it is one.
#[tactic(auto, unfolding(crate::specs::Payloads::piece_of))]
fn push_piece(alloc: Global, out: &mut Vec<u8>, piece: &[u8]) -> Result<bool, AllocError>
    ensures { IfOk result (λ ok. Appends ok (piece_of piece.now) out.old.items out.new.items) }
{
    let (front, behind) = first_part(TIMES, piece);
    let Some(behind) = behind else {
        return if front.is_empty() {
            Ok(false)
        } else {
            push_hex(alloc, out, front)
        };
    };
    let (byte, more) = first_part(TIMES, behind);
    match more {
        Some(_) => Ok(false),
        None => push_run(out, front, byte),
    }
}

/// Appends the bytes of a run, where its number and its byte are right.
#[tactic(auto, unfolding(crate::specs::Payloads::run_of))]
fn push_run(out: &mut Vec<u8>, number: &[u8], byte: &[u8]) -> Result<bool, AllocError>
    ensures { IfOk result
        (λ ok. Appends ok (run_of number.now byte.now) out.old.items out.new.items) }
{
    let times = match read_digits(number) {
        Digits::Number(times) => times,
        Digits::Other | Digits::TooGreat => return Ok(false),
    };
    let Some(byte) = one_byte(byte) else {
        return Ok(false);
    };
    if times < 1 || times > RUN_BYTES {
        return Ok(false);
    }
    push_times(out, times, byte)?;
    Ok(true)
}

fn push_times(out: &mut Vec<u8>, times: u64, byte: u8) -> Result<(), AllocError>
    ensures { OnOk result (out.new.items ≡ out.old.items ++ replicate times byte) }
{
    for _ in 0..times {
        out.push(byte)?;
    }
    Ok(())
}

/// The byte that two digits spell.
pub fn one_byte(digits: &[u8]) -> Option<u8>
    ensures { result ≡ one_byte digits.now }
{
    match <[u8; 1]>::from_hex(digits) {
        Ok(bytes) => Some(bytes[0]),
        Err(_) => None,
    }
}

/// Appends the bytes that digits spell, where they are pairs of hexadecimal digits.
fn push_hex(alloc: Global, out: &mut Vec<u8>, digits: &[u8]) -> Result<bool, AllocError>
    ensures { IfOk result (λ ok. Appends ok (hex_of digits.now) out.old.items out.new.items) }
{
    match hex::decode(alloc, digits) {
        Ok(bytes) => {
            out.extend_from_slice(&bytes)?;
            Ok(true)
        }
        Err(FromHexError::OutOfMemory) => Err(AllocError),
        Err(_) => Ok(false),
    }
}
