// The word of a payload.
ghost use Rattle.std.specs.Prelude.{◌≡◌, ◌<◌, ◌^◌, nat_lt};
ghost use Rattle.xp_print.specs.Lines.{Appends};
ghost use Rattle.xp_print.specs.Payloads.{run_of, after, run_text, payload_word};

use std::alloc::AllocError;

/// Equal bytes in a row are a piece of their own from so many on.
pub const SHORTEST_RUN: u64 = 4;

/// What stands in the word before a run.
#[derive(Clone, Copy)]
pub enum Before {
    Nothing,
    Digits,
    /// A piece that ends with its run.
    Piece,
}

/// Writes the word of a payload.
pub fn write_payload(out: &mut String, bytes: &[u8]) -> Result<(), AllocError>
    ensures { Appends result out.old out.new (payload_word bytes.now) }
{
    if bytes.is_empty() {
        return out.push_str("-");
    }
    let mut byte = bytes[0];
    let mut count: u64 = 1;
    let mut before = Before::Nothing;
    for next in &bytes[1..] {
        if *next == byte {
            count += 1;
        } else {
            write_run(out, before, count, byte)?;
            before = after(count);
            byte = *next;
            count = 1;
        }
    }
    write_run(out, before, count, byte)
}

/// Whether so many equal bytes are too few to be a piece of their own.
fn is_short(count: u64) -> bool
    ensures { result ≡ nat_lt count SHORTEST_RUN }
{
    count < SHORTEST_RUN
}

/// What stands before the bytes after a run of so many.
fn after(count: u64) -> Before
    ensures { result ≡ after (run_of count 0) }
{
    if is_short(count) {
        Before::Digits
    } else {
        Before::Piece
    }
}

/// Writes a run.
#[tactic(auto, unfolding(crate::specs::Payloads::run_text))]
fn write_run(out: &mut String, before: Before, count: u64, byte: u8) -> Result<(), AllocError>
    ensures { Appends result out.old out.new (run_text before (run_of count byte)) }
{
    let alloc = *out.allocator();
    if is_short(count) {
        let bytes = vec![in alloc; byte; count as usize]?;
        let digits = hex::encode(alloc, bytes.as_slice())?;
        match before {
            Before::Piece => write!(out, "+{digits}"),
            _ => write!(out, "{digits}"),
        }
    } else {
        let digits = hex::encode(alloc, [byte].as_slice())?;
        match before {
            Before::Nothing => write!(out, "{count}*{digits}"),
            _ => write!(out, "+{count}*{digits}"),
        }
    }
}
