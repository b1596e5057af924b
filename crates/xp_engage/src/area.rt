// The parts of what is kept for a partner.
ghost use Rattle.std.specs.Prelude.{◌≡◌, ◌+◌, ◌<◌, ◌≤◌, ◌&&◌, IfSome, nat_eq};
ghost use Rattle.xp_protocol.specs.Peering.{IsAreaWord};
ghost use Rattle.xp_plan.specs.PeerSteps.{field_of, unset_from};
ghost use Rattle.xp_engage.specs.Stored.{missing_in, words_missing_in};

use xp_base::layout::{ARGS_WORDS, CHANNELS, COUNTER_WORDS};
use xp_base::reason::Reason;
use xp_protocol::rule::{AreaWord, RecordField};

/// A bit for each word of a record that says where something stands, or how many channels it has.
const ALL_PLACES: u8 = 0b1111_1000;

/// The own memory for a partner.
#[derive(Clone, Copy)]
pub enum AreaState {
    /// Not written since the boot: the partner may still use what a former boot left there.
    Old,
    /// Free to be written.
    Off,
    /// Open to the partner.
    Ready,
    /// Closed, and perhaps still in use by the partner.
    Leaving,
}

/// How a partition stands to a partner.
#[derive(Clone, Copy)]
pub enum PartnerState {
    /// The partner isn't asked to be activated.
    Inactive,
    /// The partner was asked to be activated.
    Requested,
    /// The own bit stands at the partner.
    Activating,
    /// There is contact.
    Active,
    /// The own memory for the partner was closed, for this reason.
    Deactivating(Reason),
}

/// Which words of the own memory for a partner were stored since it is free: its session, its echo
/// and the flag word; and of the record's other words, of the arguments and of the counters a bit
/// for each.
#[derive(Clone, Copy)]
pub struct StoredWords {
    /// The session under which the memory is opened next.
    pub session: bool,
    /// The echo, as 0.
    pub echo: bool,
    /// The flag word, as 0.
    pub flags: bool,
    /// Bit n of the record's word n: 3 to 7 say where something stands, how many channels
    /// there are, and nothing.
    pub places: u8,
    /// Bit `ARGS_WORDS * c + f` of argument word f of channel c, as 0.
    pub args: u16,
    /// Bit `COUNTER_WORDS * c + f` of counter f of channel c, as 0.
    pub counters: u8,
}

/// The own memory for a partner, and what was stored in it.
#[derive(Clone, Copy)]
pub struct OwnArea {
    /// Whether the memory is as a former boot left it, free, open to the partner, or being left.
    pub state: AreaState,
    /// How many times the memory was opened in this boot.
    pub count: u32,
    /// What was stored in the memory since it is free.
    pub stored: StoredWords,
    /// Whether the partner's bit in the own deactivation word was cleared since the memory is free.
    pub deactivation_cleared: bool,
    /// Whether the second magic was stored.
    pub second: bool,
    /// Whether the partner was told that the memory was closed.
    pub told: bool,
    /// Whether the magic was stored as 0 in this boot.
    pub zeroed: bool,
}

/// The own bit in the partner's engagement word.
#[derive(Clone, Copy)]
pub struct OwnBit {
    /// Whether the bit stands there.
    pub is_in: bool,
    /// Whether the bit is to be cleared again, since the partner's memory isn't open.
    pub back_off: bool,
    /// In which turn of this boot the bit was cleared last.
    pub cleared_at: Option<u64>,
    /// Whether the bit was cleared in this boot, where a former boot may have left it.
    pub cleared: bool,
}

/// A copy of the partner's record that goes on.
#[derive(Clone, Copy)]
pub struct RecordCopy {
    /// How many words were loaded.
    pub done: u8,
    /// Whether the copy was begun after the own echo was stored.
    pub after_echo: bool,
    /// The magic that was loaded.
    pub magic: u64,
    /// The partner's echo: 0 until three words were loaded.
    pub echo: u64,
}

/// What was read of the partner's record, and what was stored of it.
#[derive(Clone, Copy)]
pub struct Exchange {
    /// The partner's session that was read since the own bit was set.
    pub read: Option<u64>,
    /// The session that was stored as the own echo.
    pub echo: Option<u64>,
    /// Whether the partner has shown its second magic and the own session.
    pub shown: bool,
    /// The copy that goes on.
    pub copy: Option<RecordCopy>,
}

impl StoredWords {
    /// The first word that wasn't stored, of all that are stored before the memory is opened.
    pub fn missing(&self) -> Option<AreaWord>
        ensures value { result ≡ missing_in self.now }
        ensures word { IfSome result (λ word. IsAreaWord word) }
    {
        if !self.session {
            Some(AreaWord::SessionWord)
        } else if !self.echo {
            Some(AreaWord::EchoWord)
        } else if !self.flags {
            Some(AreaWord::FlagWord)
        } else {
            self.missing_by_bits()
        }
    }

    // The first word that wasn't stored, of those that have a bit each.
    fn missing_by_bits(&self) -> Option<AreaWord>
        ensures value { result ≡ words_missing_in self.now }
        ensures word { IfSome result (λ word. IsAreaWord word) }
    {
        if let Some(number) = first_unset(self.places as u64, 3, 5) {
            return Some(AreaWord::PlaceWord(field_of(number)));
        }
        if let Some(number) = first_unset(self.args as u64, 0, CHANNELS * ARGS_WORDS as u8) {
            return Some(AreaWord::ArgsWord(number / ARGS_WORDS as u8, number % ARGS_WORDS as u8));
        }
        let number = first_unset(self.counters as u64, 0, CHANNELS * COUNTER_WORDS as u8)?;
        Some(AreaWord::CounterWord(number / COUNTER_WORDS as u8, number % COUNTER_WORDS as u8))
    }

    /// Whether each word was stored that is stored before the memory is opened.
    pub fn is_whole(&self) -> bool
        ensures { result ≡ (self.now.session && (self.now.echo && (self.now.flags
            && (nat_eq self.now.counters 255
            && (nat_eq self.now.places 248 && nat_eq self.now.args 65535))))) }
    {
        self.session
            && self.echo
            && self.flags
            && self.counters == u8::MAX
            && self.places == ALL_PLACES
            && self.args == u16::MAX
    }
}

// The first of `count` bits from bit `from` on that isn't set.
fn first_unset(mask: u64, from: u8, count: u8) -> Option<u8>
    requires { from + count ≤ 64 }
    ensures value { result ≡ unset_from from count mask }
    ensures range { IfSome result (λ n. n < from + count) }
{
    if count == 0 {
        None
    } else if (mask >> from) % 2 == 0 {
        Some(from)
    } else {
        first_unset(mask, from + 1, count - 1)
    }
}

// Which word of a record stands at this number.
fn field_of(number: u8) -> RecordField
    ensures { result ≡ field_of number }
{
    match number {
        3 => RecordField::ArgsPlace,
        4 => RecordField::CountersPlace,
        5 => RecordField::FlagPlace,
        6 => RecordField::ChannelCount,
        _ => RecordField::Spare,
    }
}
