// The two layouts of dumps. They differ only in how many partners a partition's words have room
// for.
ghost use Rattle.std.specs.Prelude.{◌≡◌, ◌<◌, ◌≤◌};
ghost use Rattle.xp_dump_table.specs.Layouts.{room, flags_at, args_at, counters_at, entries_at, pool_at, words_of, field_of, place_of, IsField};

use xp_base::layout::{
    ARGS_WORDS, BUFFER_WORDS, BUFFERS, CHANNELS, COUNTER_WORDS, OPEN_WORDS, PART_WORDS, PARTS,
    QUEUE_WORDS, RECORD_WORDS, RECORDS_AT,
};

/// How many partitions the older layout has room for.
pub const OLDER_PARTS: u32 = 8;

/// How the words of a partition stand in a dump.
#[derive(Clone, Copy)]
pub enum Layout {
    /// With room for eight partitions: dumps that begin with the bytes `XPDUMP01`.
    Older,
    /// With room for 64 partitions, as in memory: dumps that begin with the bytes `XPDUMP02`.
    Newer,
}

/// What a word of a partition belongs to.
#[derive(Clone, Copy)]
pub enum Field {
    /// A word of the reserved page or of the variables.
    Open {
        number: u32,
    },
    /// A word of the record for a partner.
    Record {
        partner: u32,
        field: u32,
    },
    /// The flag word of a partner.
    Flag {
        partner: u32,
    },
    /// A word of the arguments for a partner and a channel.
    Args {
        partner: u32,
        channel: u32,
        field: u32,
    },
    /// A counter for a partner and a channel.
    Counter {
        partner: u32,
        channel: u32,
        field: u32,
    },
    /// A word of the queue for a partner and a channel.
    Entry {
        partner: u32,
        channel: u32,
        word: u32,
    },
    /// A word of the network device's pool.
    Pool {
        word: u32,
    },
}

impl Layout {
    /// How many partitions there is room for.
    pub fn parts(self) -> u32
        ensures value { result ≡ room self }
        ensures range { result ≤ PARTS }
    {
        match self {
            Layout::Older => OLDER_PARTS,
            Layout::Newer => PARTS as u32,
        }
    }

    /// Where the flag words begin.
    fn flags_at(self) -> u32
        ensures value { result ≡ flags_at self }
        ensures range { result ≤ PART_WORDS }
    {
        RECORDS_AT + RECORD_WORDS * self.parts()
    }

    /// Where the arguments begin.
    fn args_at(self) -> u32
        ensures value { result ≡ args_at self }
        ensures range { result ≤ PART_WORDS }
    {
        self.flags_at() + self.parts()
    }

    /// Where the counters begin.
    fn counters_at(self) -> u32
        ensures value { result ≡ counters_at self }
        ensures range { result ≤ PART_WORDS }
    {
        self.args_at() + ARGS_WORDS * CHANNELS as u32 * self.parts()
    }

    /// Where the queues begin.
    fn entries_at(self) -> u32
        ensures value { result ≡ entries_at self }
        ensures range { result ≤ PART_WORDS }
    {
        self.counters_at() + COUNTER_WORDS * CHANNELS as u32 * self.parts()
    }

    /// Where the pool begins.
    fn pool_at(self) -> u32
        ensures value { result ≡ pool_at self }
        ensures range { result ≤ PART_WORDS }
    {
        self.entries_at() + QUEUE_WORDS * CHANNELS as u32 * self.parts()
    }

    /// How many words a partition has.
    pub fn words(self) -> u32
        ensures value { result ≡ words_of self }
        ensures range { result ≤ PART_WORDS }
        ensures some { OPEN_WORDS < result }
    {
        self.pool_at() + BUFFER_WORDS * BUFFERS
    }

    /// What word `index` of a partition belongs to.
    #[tactic(auto, using(std::proofs::lemmas::Bool::Decides::nat_tests), unfolding(crate::specs::Layouts::field_of))]
    pub fn field(self, index: u32) -> Field
        requires { index < words_of self }
        ensures value { result ≡ field_of self index }
        ensures within { IsField self result }
        ensures place { place_of self result ≡ index }
    {
        let channels = CHANNELS as u32;
        if index < OPEN_WORDS {
            Field::Open { number: index }
        } else if index < self.flags_at() {
            let word = index - RECORDS_AT;
            Field::Record {
                partner: word / RECORD_WORDS,
                field: word % RECORD_WORDS,
            }
        } else if index < self.args_at() {
            Field::Flag {
                partner: index - self.flags_at(),
            }
        } else if index < self.counters_at() {
            let word = index - self.args_at();
            Field::Args {
                partner: word / ARGS_WORDS / channels,
                channel: word / ARGS_WORDS % channels,
                field: word % ARGS_WORDS,
            }
        } else if index < self.entries_at() {
            let word = index - self.counters_at();
            Field::Counter {
                partner: word / COUNTER_WORDS / channels,
                channel: word / COUNTER_WORDS % channels,
                field: word % COUNTER_WORDS,
            }
        } else if index < self.pool_at() {
            let word = index - self.entries_at();
            Field::Entry {
                partner: word / QUEUE_WORDS / channels,
                channel: word / QUEUE_WORDS % channels,
                word: word % QUEUE_WORDS,
            }
        } else {
            Field::Pool {
                word: index - self.pool_at(),
            }
        }
    }

    /// Where a field stands among a partition's words.
    #[tactic(auto, using(std::proofs::lemmas::Bool::Decides::nat_tests), unfolding(crate::specs::Layouts::field_of))]
    pub fn place(self, field: Field) -> u32
        requires { IsField self field }
        ensures value { result ≡ place_of self field }
        ensures range { result < words_of self }
        ensures back { field_of self result ≡ field }
    {
        let channels = CHANNELS as u32;
        match field {
            Field::Open { number } => number,
            Field::Record { partner, field } => RECORDS_AT + RECORD_WORDS * partner + field,
            Field::Flag { partner } => self.flags_at() + partner,
            Field::Args {
                partner,
                channel,
                field,
            } => self.args_at() + ARGS_WORDS * (channels * partner + channel) + field,
            Field::Counter {
                partner,
                channel,
                field,
            } => self.counters_at() + COUNTER_WORDS * (channels * partner + channel) + field,
            Field::Entry {
                partner,
                channel,
                word,
            } => self.entries_at() + QUEUE_WORDS * (channels * partner + channel) + word,
            Field::Pool { word } => self.pool_at() + word,
        }
    }
}
