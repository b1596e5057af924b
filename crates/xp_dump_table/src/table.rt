// What each word of a partition may be, and what becomes of a word of the older layout.
ghost use Rattle.std.specs.Prelude.{◌≡◌, ◌<◌, length};
ghost use Rattle.xp_page.specs.Reading.{row_at};
ghost use Rattle.xp_dump_table.specs.Layouts.{room, place_of, IsField};
ghost use Rattle.xp_dump_table.specs.declared.layout.Layout.TheVariants.{Newer};
ghost use Rattle.xp_dump_table.specs.Table.{row_of, open_row, record_table, args_table, entry_row, request_of, moved_word, at_of, place_row};

use crate::layout::{Field, Layout};
use xp_base::ids::{Channel, PartId};
use xp_base::layout::{
    ARGS_WORDS, CHANNELS, LINE_WORDS, LINES_VERSION, OPEN_WORDS, QUEUE_WORDS, RECORD_WORDS,
    VARIABLES_AT,
};
use xp_page::At;
use xp_page::grammar::{Allowed, GREATEST_REASON, PageCause, Row};
use xp_page::page::{page_rows, vars_rows};

/// A partition of a dump, as far as it decides what its words may be.
#[derive(Clone, Copy)]
pub struct Part {
    pub layout: Layout,
    pub owner: PartId,
    /// How many partitions the dump has.
    pub count: u8,
    /// The partition's version word.
    pub version: u64,
}

// Row `k` of a table.
fn nth(rows: &[Row], k: u32) -> Row
    requires { k < length rows.now }
    ensures { result ≡ row_at rows.now k }
{
    rows[k as usize]
}

fn place(layout: Layout, field: Field) -> Row
    requires { IsField layout field }
    ensures { result ≡ place_row layout field }
{
    Row::new(
        Allowed::ZeroOr(layout.place(field) as u64),
        PageCause::Address,
    )
}

fn record_rows(layout: Layout, partner: u32) -> [Row; RECORD_WORDS as usize]
    requires { partner < room layout }
    ensures { result ≡ record_table layout partner }
{
    let args = Field::Args {
        partner,
        channel: 0,
        field: 0,
    };
    let counters = Field::Counter {
        partner,
        channel: 0,
        field: 0,
    };
    [
        Row::new(Allowed::Magic, PageCause::Magic),
        Row::any(),
        Row::any(),
        place(layout, args),
        place(layout, counters),
        place(layout, Field::Flag { partner }),
        Row::new(Allowed::ZeroOr(CHANNELS as u64), PageCause::Value),
        Row::new(Allowed::Only(0), PageCause::Value),
    ]
}

fn request(layout: Layout) -> Allowed
    ensures { result ≡ request_of layout }
{
    match layout {
        Layout::Older => Allowed::LineRequest,
        Layout::Newer => Allowed::Request,
    }
}

fn args_rows(layout: Layout, partner: u32, channel: u32) -> [Row; ARGS_WORDS as usize]
    requires partner { partner < room layout }
    requires channel { channel < CHANNELS }
    ensures { result ≡ args_table layout partner channel }
{
    let queue = Field::Entry {
        partner,
        channel,
        word: 0,
    };
    [
        Row::new(request(layout), PageCause::Length),
        place(layout, queue),
        Row::new(Allowed::Between(0, GREATEST_REASON), PageCause::Reason),
        Row::new(Allowed::Only(0), PageCause::Value),
    ]
}

impl Part {
    // Where the images of the part's open words stand; they name no partner and no channel.
    fn at(&self) -> At
        ensures { result ≡ at_of self.now }
    {
        At {
            offset: 0,
            owner: self.owner,
            count: self.count,
            partner: self.owner,
            channel: Channel::known(0),
        }
    }

    fn open_row(&self, number: u32) -> Row
        requires { number < OPEN_WORDS }
        ensures { result ≡ open_row self.now number }
    {
        if number < VARIABLES_AT {
            nth(&page_rows(&self.at()), number)
        } else {
            nth(&vars_rows(&self.at()), number - VARIABLES_AT)
        }
    }

    // A word of a queue: the first of each line tells a length, while entries have one line.
    fn entry_row(&self, word: u32) -> Row
        requires { word < QUEUE_WORDS }
        ensures { result ≡ entry_row self.now word }
    {
        let one_line = match self.layout {
            Layout::Older => true,
            Layout::Newer => self.version < LINES_VERSION,
        };
        if one_line && word % LINE_WORDS == 0 {
            Row::new(Allowed::Length, PageCause::Length)
        } else {
            Row::any()
        }
    }

    /// What a word of this partition may be, by what it belongs to.
    pub fn row(&self, field: Field) -> Row
        requires { IsField self.now.layout field }
        ensures { result ≡ row_of self.now field }
    {
        match field {
            Field::Open { number } => self.open_row(number),
            Field::Record { partner, field } => nth(&record_rows(self.layout, partner), field),
            Field::Flag { .. } => Row::new(Allowed::FlagBits, PageCause::FlagBits),
            Field::Args {
                partner,
                channel,
                field,
            } => nth(&args_rows(self.layout, partner, channel), field),
            Field::Counter { .. } => Row::any(),
            Field::Entry { word, .. } => self.entry_row(word),
            Field::Pool { .. } => Row::any(),
        }
    }
}

// Where a field of the newer layout stands, as a word.
fn newer(field: Field) -> u64
    requires { IsField Newer field }
    ensures { result ≡ place_of Newer field }
{
    Layout::Newer.place(field) as u64
}

/// What stands in memory for a word of the older layout: the places of a record and of arguments
/// become those of the newer layout, and all other words stay.
pub fn moved(field: Field, word: u64) -> u64
    requires { IsField Newer field }
    ensures { result ≡ moved_word field word }
{
    if word == 0 {
        return 0;
    }
    match field {
        Field::Record { partner, field: 3 } => newer(Field::Args {
            partner,
            channel: 0,
            field: 0,
        }),
        Field::Record { partner, field: 4 } => newer(Field::Counter {
            partner,
            channel: 0,
            field: 0,
        }),
        Field::Record { partner, field: 5 } => newer(Field::Flag { partner }),
        Field::Args {
            partner,
            channel,
            field: 1,
        } => newer(Field::Entry {
            partner,
            channel,
            word: 0,
        }),
        _ => word,
    }
}
