// Which words an image may hold, and why one is refused.
ghost use Rattle.std.specs.Prelude.{Some, ◌≡◌, ◌<◌, ◌-◌, ◌/◌, ◌^◌, ◌==◌};
ghost use Rattle.std.specs.Int.{bit_at};
ghost use Rattle.xp_base.specs.Kinds.{spare_in};
ghost use Rattle.xp_page.specs.Causes.{cause_text};
ghost use Rattle.xp_page.specs.Grammar.{allows, is_request, is_line_request, no_spare, row, any as any_row};

use std::fmt;
use xp_base::body::{BODY_BYTES, LINE_BYTES, lines};
use xp_base::ids::Channel;
use xp_base::layout::{CHANNELS, FIRST, LENGTH_MARK, LINES, REQUEST_ENTRY, SECOND};
use xp_flags::Flags;

/// The greatest code of a reason to close.
pub const GREATEST_REASON: u64 = 15;

/// Why an image is refused.
#[derive(Clone, Copy, Debug, PartialEq, Eq)]
pub enum PageCause {
    /// Every whole word is allowed, and bytes are missing.
    Truncated,
    Signature,
    Version,
    Magic,
    Mask,
    FlagBits,
    Length,
    Address,
    Reason,
    Value,
}

impl fmt::Display for PageCause {
    ghost output = { λ cause. Some (cause_text cause) };

    fn fmt<W: fmt::Write>(&self, f: &mut fmt::Formatter<W>) -> fmt::Result {
        f.write_str(match self {
            PageCause::Truncated => "truncated",
            PageCause::Signature => "signature",
            PageCause::Version => "version",
            PageCause::Magic => "magic",
            PageCause::Mask => "mask",
            PageCause::FlagBits => "flag-bits",
            PageCause::Length => "length",
            PageCause::Address => "address",
            PageCause::Reason => "reason",
            PageCause::Value => "value",
        })
    }
}

/// The first fault of an image: the place of the first byte of the first word that isn't allowed,
/// or of the end where the image is truncated.
#[derive(Clone, Copy, Debug, PartialEq, Eq)]
pub struct PageFault {
    pub offset: u64,
    pub cause: PageCause,
}

/// What a word may be.
#[derive(Clone, Copy)]
pub enum Allowed {
    Any,
    /// This word and no other.
    Only(u64),
    /// Zero or this word.
    ZeroOr(u64),
    /// From the first to the second.
    Between(u64, u64),
    /// The magic of a record: zero, or one of its two texts.
    Magic,
    /// The bits of this many partitions, all set.
    AllOf(u8),
    /// Bits of partitions below the count, without the owner's own.
    Others { count: u8, owner: u8 },
    /// A request to open: zero, or a limit that a body may have, and 1 to 8 entries whose lines fit
    /// the queue.
    Request,
    /// A request to open in which entries have one line: zero, or a limit that a line may have, and
    /// 1 to 8 entries.
    LineRequest,
    /// The first word of an entry of one line: zero, or the payload's length with its mark.
    Length,
    /// A flag word without spare bits.
    FlagBits,
}

/// One word of a table: what it may be, and the cause where it isn't.
#[derive(Clone, Copy)]
pub struct Row {
    pub allowed: Allowed,
    pub cause: PageCause,
}

impl Row {
    pub fn new(allowed: Allowed, cause: PageCause) -> Row
        ensures { result ≡ row allowed cause }
    {
        Row { allowed, cause }
    }

    /// A word that may be any.
    pub fn any() -> Row
        ensures { result ≡ any_row }
    {
        Row {
            allowed: Allowed::Any,
            cause: PageCause::Value,
        }
    }
}

impl Allowed {
    pub fn allows(self, word: u64) -> bool
        ensures { result ≡ allows self word }
    {
        match self {
            Allowed::Any => true,
            Allowed::Only(only) => word == only,
            Allowed::ZeroOr(other) => word == 0 || word == other,
            Allowed::Between(low, high) => low <= word && word <= high,
            Allowed::Magic => word == 0 || word == FIRST || word == SECOND,
            Allowed::AllOf(count) => has_all(word, count),
            Allowed::Others { count, owner } => none_from(word, count) && !has_bit(word, owner),
            Allowed::Request => request(word),
            Allowed::LineRequest => line_request(word),
            Allowed::Length => {
                word == 0 || (LENGTH_MARK <= word && word <= LENGTH_MARK + LINE_BYTES as u64)
            }
            Allowed::FlagBits => word <= u32::MAX as u64 && no_spare_bits(word),
        }
    }
}

fn has_all(word: u64, count: u8) -> bool
    ensures { result ≡ (word == 2 ^ count - 1) }
{
    if count < 64 {
        word == (1u64 << count) - 1
    } else if count == 64 {
        word == u64::MAX
    } else {
        false
    }
}

fn none_from(word: u64, count: u8) -> bool
    ensures { result ≡ (word / 2 ^ count == 0) }
{
    if count < 64 { word >> count == 0 } else { true }
}

fn has_bit(word: u64, place: u8) -> bool
    ensures { result ≡ (bit_at word place == 1) }
{
    if place < 64 {
        (word >> place) % 2 == 1
    } else {
        false
    }
}

fn request(word: u64) -> bool
    ensures { result ≡ is_request word }
{
    let limit = word % REQUEST_ENTRY;
    let entries = word / REQUEST_ENTRY;
    word == 0
        || (limit <= BODY_BYTES as u64
            && 1 <= entries
            && entries <= LINES as u64
            && entries * lines(limit as u16) as u64 <= LINES as u64)
}

fn line_request(word: u64) -> bool
    ensures { result ≡ is_line_request word }
{
    let limit = word % REQUEST_ENTRY;
    let entries = word / REQUEST_ENTRY;
    word == 0 || (limit <= LINE_BYTES as u64 && 1 <= entries && entries <= LINES as u64)
}

fn no_spare_bits(word: u64) -> bool
    ensures { result ≡ no_spare word }
{
    is_clean(word, 0) && is_clean(word, 1) && is_clean(word, 2) && is_clean(word, 3)
}

// Whether a channel's byte has no spare bit.
fn is_clean(word: u64, channel: u8) -> bool
    requires { channel < CHANNELS }
    ensures { result ≡ (spare_in word channel == 0) }
{
    Flags::of_word(word, Channel::known(channel)).is_some()
}
