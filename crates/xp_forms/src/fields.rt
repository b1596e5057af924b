// The words of a line, one after the other.
ghost use Rattle.std.specs.Prelude.{◌≡◌, ◌≤◌, ◌<◌, ◌*◌, ◌^◌, nat_le, false, Ok, Err, IfOk, MatchOption};
ghost use Rattle.xp_text.specs.Payloads.{payload_of, at_most};
ghost use Rattle.xp_base.specs.Entries.{lines};
ghost use Rattle.xp_forms.specs.Forms.{Gives, next_word, next_field, next_kind, next_bytes, sized, kind_of, end_of, refused, peeked, is_ascii};
ghost use Rattle.xp_forms.specs.Forms.Slot.{Number, Interval, Part, Other, AnyChannel, MessageChannel, Limit};

use crate::fault::{LineCause, LineError, WordFault};
use std::alloc::Global;
use xp_base::body::{BODY_BYTES, lines};
use xp_base::ids::{Channel, PartId};
use xp_base::layout::{CHANNELS, LINES};
use xp_base::step::CopyKind;
use xp_script::count::Count;
use xp_script::limits::DEVICE_CHANNEL;
use xp_script::payload::Payload;
use xp_text::lengths::payload_len;
use xp_text::line::Line;
use xp_text::numbers::{Digits, read_digits};
use xp_text::payloads::payload;

/// A fault at the last word that was read.
pub fn at_last(line: &Line, cause: LineCause) -> LineError
    ensures { result ≡ LineError.Fault (record { column = line.now.last; cause = cause }) }
{
    LineError::Fault(WordFault {
        column: line.last(),
        cause,
    })
}

/// Whether no byte is above 127.
pub fn is_ascii(word: &[u8]) -> bool
    ensures { result ≡ is_ascii word.now }
{
    for byte in word {
        if *byte >= 128 {
            return false;
        }
    }
    true
}

/// The number of the next word, which isn't read. None: no word is left, or it isn't a number of 64
/// bits.
#[tactic(auto, unfolding(crate::specs::Forms::peeked))]
pub fn peeked(line: &Line) -> Option<u64>
    ensures { result ≡ peeked line.now }
{
    match read_digits(line.peek()?) {
        Digits::Number(number) => Some(number),
        _ => None,
    }
}

/// The next word.
#[tactic(auto, unfolding(crate::specs::Forms::next_word))]
pub fn word<'a>(line: &mut Line<'a>) -> Result<&'a [u8], LineError>
    ensures { Gives (λ w. (w.now, line.new)) result (next_word line.old) }
{
    match line.next_word() {
        Some(word) if is_ascii(word) => Ok(word),
        Some(_) => Err(at_last(line, LineCause::Word)),
        None => Err(LineError::Fault(WordFault {
            column: line.end(),
            cause: LineCause::Missing,
        })),
    }
}

/// A number of a range.
#[tactic(auto, unfolding(crate::specs::Forms::next_field))]
pub fn number(line: &mut Line, low: u64, high: u64) -> Result<u64, LineError>
    ensures value { Gives (λ n. (n, line.new)) result (next_field (Number low high) line.old) }
    ensures range { IfOk result (λ n. (low ≤ n) × (n ≤ high)) }
{
    let word = word(line)?;
    match read_digits(word) {
        Digits::Number(n) if low <= n && n <= high => Ok(n),
        _ => Err(at_last(line, LineCause::Number)),
    }
}

/// 0, or a number of a range.
#[tactic(auto, unfolding(crate::specs::Forms::next_field))]
pub fn interval(line: &mut Line, low: u64, high: u64) -> Result<u64, LineError>
    ensures { Gives (λ n. (n, line.new)) result (next_field (Interval low high) line.old) }
{
    let word = word(line)?;
    match read_digits(word) {
        Digits::Number(0) => Ok(0),
        Digits::Number(n) if low <= n && n <= high => Ok(n),
        _ => Err(at_last(line, LineCause::Number)),
    }
}

/// A partition below the count.
#[tactic(auto, unfolding(crate::specs::Forms::next_field))]
pub fn part(line: &mut Line, count: Count) -> Result<PartId, LineError>
    ensures { Gives (λ n. (n, line.new)) result (next_field (Part count) line.old) }
{
    let word = word(line)?;
    match read_digits(word) {
        Digits::Other => Err(at_last(line, LineCause::Number)),
        Digits::Number(n) if n < count.get() as u64 => Ok(PartId::known(n as u8)),
        _ => Err(at_last(line, LineCause::Partition)),
    }
}

/// A partition below the count, but not `own`.
#[tactic(auto, unfolding(crate::specs::Forms::next_field))]
pub fn other(line: &mut Line, count: Count, own: PartId) -> Result<PartId, LineError>
    ensures { Gives (λ n. (n, line.new)) result (next_field (Other count own) line.old) }
{
    let word = word(line)?;
    match read_digits(word) {
        Digits::Other => Err(at_last(line, LineCause::Number)),
        Digits::Number(n) if n < count.get() as u64 && n != own.get() as u64 => {
            Ok(PartId::known(n as u8))
        }
        _ => Err(at_last(line, LineCause::Partition)),
    }
}

/// A channel.
#[tactic(auto, unfolding(crate::specs::Forms::next_field))]
pub fn channel(line: &mut Line) -> Result<Channel, LineError>
    ensures { Gives (λ n. (n, line.new)) result (next_field AnyChannel line.old) }
{
    let word = word(line)?;
    match read_digits(word) {
        Digits::Other => Err(at_last(line, LineCause::Number)),
        Digits::Number(n) if n < CHANNELS as u64 => Ok(Channel::known(n as u8)),
        _ => Err(at_last(line, LineCause::Channel)),
    }
}

/// A channel on which scripts send and take messages.
#[tactic(auto, unfolding(crate::specs::Forms::next_field))]
pub fn messages(line: &mut Line) -> Result<Channel, LineError>
    ensures { Gives (λ n. (n, line.new)) result (next_field MessageChannel line.old) }
{
    let word = word(line)?;
    match read_digits(word) {
        Digits::Other => Err(at_last(line, LineCause::Number)),
        Digits::Number(n) if n < CHANNELS as u64 && n != DEVICE_CHANNEL as u64 => {
            Ok(Channel::known(n as u8))
        }
        _ => Err(at_last(line, LineCause::Channel)),
    }
}

/// A limit of payloads in bytes, up to the longest, of which a queue holds so many entries.
#[tactic(auto, unfolding(crate::specs::Forms::next_field))]
pub fn limit(line: &mut Line, longest: u16, entries: u8) -> Result<u16, LineError>
    requires { longest ≤ BODY_BYTES }
    ensures { Gives (λ n. (n, line.new)) result (next_field (Limit longest entries) line.old) }
{
    let word = word(line)?;
    match read_digits(word) {
        Digits::Number(n) if n <= longest as u64 && has_room(entries, n as u16) => Ok(n as u16),
        _ => Err(at_last(line, LineCause::Number)),
    }
}

/// Whether a queue holds so many entries of payloads to this limit.
fn has_room(entries: u8, limit: u16) -> bool
    requires { limit ≤ BODY_BYTES }
    ensures { result ≡ nat_le (entries * lines limit) LINES }
{
    entries as u32 * lines(limit) as u32 <= LINES
}

/// The name of a kind of copies.
#[tactic(auto, unfolding(crate::specs::Forms::next_kind))]
pub fn kind(line: &mut Line) -> Result<CopyKind, LineError>
    ensures { Gives (λ k. (k, line.new)) result (next_kind line.old) }
{
    let word = word(line)?;
    match kind_of(word) {
        Ok(kind) => Ok(kind),
        Err(cause) => Err(at_last(line, cause)),
    }
}

fn kind_of(word: &[u8]) -> Result<CopyKind, LineCause>
    ensures { result ≡ kind_of word.now }
{
    if word == b"page".as_slice() {
        Ok(CopyKind::Page)
    } else if word == b"beat".as_slice() {
        Ok(CopyKind::Beat)
    } else if word == b"record".as_slice() {
        Ok(CopyKind::Record)
    } else if word == b"args".as_slice() {
        Ok(CopyKind::Args)
    } else if word == b"counters".as_slice() {
        Ok(CopyKind::Counters)
    } else if word == b"get".as_slice() {
        Ok(CopyKind::Get)
    } else if word == b"entries".as_slice() {
        Ok(CopyKind::Entries)
    } else if word == b"buffer".as_slice() {
        Ok(CopyKind::Buffer)
    } else {
        Err(LineCause::Word)
    }
}

/// A payload of `least` to `most` bytes. Where it isn't to be kept it is only measured, and has no
/// bytes.
#[tactic(auto, unfolding(crate::specs::Forms::next_bytes))]
pub fn bytes(
    alloc: Global,
    line: &mut Line,
    keep: bool,
    least: usize,
    most: usize,
) -> Result<Payload, LineError>
    ensures { Gives (λ b. (b, line.new)) result (next_bytes keep least most line.old) }
{
    let word = word(line)?;
    if !keep {
        return match measured(alloc, word, least, most) {
            Some(payload) => Ok(payload),
            None => Err(at_last(line, LineCause::Payload)),
        };
    }
    match payload(alloc, word, most)? {
        Some(bytes) if bytes.len() >= least => Ok(Payload::new(bytes)),
        _ => Err(at_last(line, LineCause::Payload)),
    }
}

/// A payload without its bytes, where the word spells one of `least` to `most` bytes.
fn measured(alloc: Global, word: &[u8], least: usize, most: usize) -> Option<Payload>
    ensures { MatchOption result
        (sized false least (at_most most (payload_of word.now)) ≡ Err LineCause.Payload)
        (λ payload. sized false least (at_most most (payload_of word.now)) ≡ Ok payload) }
{
    match payload_len(word, most) {
        Some(len) if len >= least => Some(Payload::new(Vec::new(alloc))),
        _ => None,
    }
}

/// The line's end; another word has this cause.
#[tactic(auto, unfolding(crate::specs::Forms::end_of, crate::specs::Forms::refused))]
pub fn end(line: &mut Line, cause: LineCause) -> Result<(), LineError>
    ensures { Gives (λ _. cause) result (end_of cause line.old) }
{
    match line.next_word() {
        None => Ok(()),
        Some(word) if is_ascii(word) => Err(at_last(line, cause)),
        Some(_) => Err(at_last(line, LineCause::Word)),
    }
}

/// What is wrong where no word may stand that is left to read: such a word has the cause.
#[tactic(auto, unfolding(crate::specs::Forms::refused))]
pub fn no_word(line: &mut Line, cause: LineCause) -> LineError
    ensures { result ≡ LineError.Fault (refused cause line.old) }
{
    match line.next_word() {
        Some(word) if is_ascii(word) => at_last(line, cause),
        Some(_) => at_last(line, LineCause::Word),
        None => LineError::Fault(WordFault {
            column: line.end(),
            cause: LineCause::Missing,
        }),
    }
}
