// What stands in the area for a partner: its record, and the arguments and counters of each
// channel.
ghost use Rattle.std.specs.Prelude.{◌≡◌, [], ◌∷◌, refl};
ghost use Rattle.xp_page.specs.declared.grammar.Allowed.TheVariants.{ZeroOr};
ghost use Rattle.xp_page.specs.declared.grammar.PageCause.TheVariants.{Address};
ghost use Rattle.xp_base.specs.declared.layout.TheConstants.{RECORD_WORDS, ARGS_WORDS, COUNTER_WORDS};
ghost use Rattle.xp_page.specs.Grammar.{row, record_table, args_table, counters_table, rows_of_counters};

use crate::grammar::{Allowed, GREATEST_REASON, PageCause, PageFault, Row};
use crate::image::{At, Image};
use crate::reading::{append, first_fault, word_at};
use std::alloc::AllocError;
use xp_base::ids::Channel;
use xp_base::layout::{ARGS_WORDS, CHANNELS, COUNTER_WORDS, RECORD_WORDS, WORD_BYTES};
use xp_base::places;

/// The record for a partner, in the driver `struct xpc_vars_part_sn2`.
#[derive(Clone, Copy)]
pub struct RecordImage {
    /// 0 while the area is closed, then one of two texts.
    pub magic: u64,
    /// The owner's session.
    pub session: u64,
    /// The partner's session that was read, 0 before.
    pub echo: u64,
    /// The place of the arguments, 0 before the first preparation; so the next two.
    pub args: u64,
    /// The place of the counters.
    pub counters: u64,
    /// The place of the flag word.
    pub flags: u64,
    /// How many channels there are.
    pub channels: u64,
    pub padding: u64,
}

// The place of a structure, or 0 before it was prepared.
fn place_or_zero(place: u32) -> Row
    ensures { result ≡ row (ZeroOr place) Address }
{
    Row::new(Allowed::ZeroOr(place as u64), PageCause::Address)
}

fn record_rows(at: &At) -> [Row; RECORD_WORDS as usize]
    ensures { result ≡ record_table at.now }
{
    [
        Row::new(Allowed::Magic, PageCause::Magic),
        Row::any(),
        Row::any(),
        place_or_zero(places::args(at.partner, Channel::known(0), 0)),
        place_or_zero(places::counters(at.partner, Channel::known(0), 0)),
        place_or_zero(places::flag_word(at.partner)),
        Row::new(Allowed::ZeroOr(CHANNELS as u64), PageCause::Value),
        Row::new(Allowed::Only(0), PageCause::Value),
    ]
}

impl RecordImage {
    fn to_words(&self) -> [u64; RECORD_WORDS as usize]
        ensures { result ≡ self.now.magic ∷ self.now.session ∷ self.now.echo ∷ self.now.args
            ∷ self.now.counters ∷ self.now.flags ∷ self.now.channels ∷ self.now.padding ∷ [] }
    {
        [
            self.magic,
            self.session,
            self.echo,
            self.args,
            self.counters,
            self.flags,
            self.channels,
            self.padding,
        ]
    }
}

impl Image for RecordImage {
    ghost size = { RECORD_WORDS };

    ghost words = { λ x. x.magic ∷ x.session ∷ x.echo ∷ x.args ∷ x.counters ∷ x.flags ∷ x.channels
        ∷ x.padding ∷ [] };

    ghost table = { record_table };

    fn length() -> usize {
        WORD_BYTES * RECORD_WORDS as usize
    }

    fn write(&self, out: &mut Vec<u8>) -> Result<(), AllocError> {
        append(&self.to_words(), out)
    }

    fn read(bytes: &[u8], at: At) -> Result<RecordImage, PageFault> {
        match first_fault(&record_rows(&at), bytes, at.offset) {
            Some(fault) => Err(fault),
            None => Ok(RecordImage {
                magic: word_at(bytes, 0),
                session: word_at(bytes, 1),
                echo: word_at(bytes, 2),
                args: word_at(bytes, 3),
                counters: word_at(bytes, 4),
                flags: word_at(bytes, 5),
                channels: word_at(bytes, 6),
                padding: word_at(bytes, 7),
            }),
        }
    }

    ghost sized = { λ at. refl };
}

/// The arguments of a channel, in the driver `struct xpc_openclose_args`.
#[derive(Clone, Copy, PartialEq)]
pub struct ArgsImage {
    /// The limit and the entries of a request to open: `limit + 65536 * entries`, or 0.
    pub request: u64,
    /// The place of the writer's entries, or 0.
    pub reply: u64,
    /// The code of the reason to close.
    pub reason: u64,
    pub padding: u64,
}

fn args_rows(at: &At) -> [Row; ARGS_WORDS as usize]
    ensures { result ≡ args_table at.now }
{
    [
        Row::new(Allowed::Request, PageCause::Length),
        place_or_zero(places::queue_word(at.partner, at.channel, 0)),
        Row::new(Allowed::Between(0, GREATEST_REASON), PageCause::Reason),
        Row::new(Allowed::Only(0), PageCause::Value),
    ]
}

impl ArgsImage {
    fn to_words(&self) -> [u64; ARGS_WORDS as usize]
        ensures { result ≡ self.now.request ∷ self.now.reply ∷ self.now.reason ∷ self.now.padding
            ∷ [] }
    {
        [self.request, self.reply, self.reason, self.padding]
    }
}

impl Image for ArgsImage {
    ghost size = { ARGS_WORDS };

    ghost words = { λ x. x.request ∷ x.reply ∷ x.reason ∷ x.padding ∷ [] };

    ghost table = { args_table };

    fn length() -> usize {
        WORD_BYTES * ARGS_WORDS as usize
    }

    fn write(&self, out: &mut Vec<u8>) -> Result<(), AllocError> {
        append(&self.to_words(), out)
    }

    fn read(bytes: &[u8], at: At) -> Result<ArgsImage, PageFault> {
        match first_fault(&args_rows(&at), bytes, at.offset) {
            Some(fault) => Err(fault),
            None => Ok(ArgsImage {
                request: word_at(bytes, 0),
                reply: word_at(bytes, 1),
                reason: word_at(bytes, 2),
                padding: word_at(bytes, 3),
            }),
        }
    }

    ghost sized = { λ at. refl };
}

/// The counters of a channel, in the driver `struct xpc_gp_sn2`.
#[derive(Clone, Copy)]
pub struct CountersImage {
    /// How many of the partner's messages were released without a gap.
    pub get: u64,
    /// How many messages were accepted.
    pub put: u64,
}

fn counters_rows() -> [Row; COUNTER_WORDS as usize]
    ensures { result ≡ rows_of_counters }
{
    [Row::any(), Row::any()]
}

impl CountersImage {
    fn to_words(&self) -> [u64; COUNTER_WORDS as usize]
        ensures { result ≡ self.now.get ∷ self.now.put ∷ [] }
    {
        [self.get, self.put]
    }
}

impl Image for CountersImage {
    ghost size = { COUNTER_WORDS };

    ghost words = { λ x. x.get ∷ x.put ∷ [] };

    ghost table = { counters_table };

    fn length() -> usize {
        WORD_BYTES * COUNTER_WORDS as usize
    }

    fn write(&self, out: &mut Vec<u8>) -> Result<(), AllocError> {
        append(&self.to_words(), out)
    }

    fn read(bytes: &[u8], at: At) -> Result<CountersImage, PageFault> {
        match first_fault(&counters_rows(), bytes, at.offset) {
            Some(fault) => Err(fault),
            None => Ok(CountersImage {
                get: word_at(bytes, 0),
                put: word_at(bytes, 1),
            }),
        }
    }

    ghost sized = { λ at. refl };
}
