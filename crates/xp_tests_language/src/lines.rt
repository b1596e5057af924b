// Every kind of line, wrong in each way: cut short, with a word too much, in another section, and
// with each of its words wrong.
use std::alloc::{AllocError, Global};
use std::process::Abort;
use std::test::Fail;
use xp_forms::fault::LineCause;
use xp_scenario::fault::ScenarioFault;
use xp_scenario::text::parse;

/// What a word of a line says.
#[derive(Clone, Copy)]
enum Slot {
    /// The line's own word.
    Head,
    /// A word that stands so.
    Fixed,
    /// A number, some from 1 on.
    Number,
    Positive,
    /// A partition, and one other than 0.
    Part,
    Other,
    /// A channel, and one other than the device's.
    Channel,
    MessageChannel,
    Payload,
    Frame,
}

/// The lines before a line, its words, and the cause of a word behind them.
type Row = (&'static [u8], &'static [(&'static [u8], Slot)], LineCause);

const SETTINGS: &[u8] = b"xpsim 1\npartitions 3\n\n";

const SCRIPTS: &[u8] = b"xpsim 1\npartitions 3\nscript 0\n";

const SCHEDULE: &[u8] = b"xpsim 1\npartitions 3\nschedule\n";

/// The number of the line behind each of these.
const LINE: u64 = 4;

const ROWS: [Row; 28] = [
    (
        SETTINGS,
        &[(b"budget", Slot::Head), (b"5", Slot::Positive)],
        LineCause::Extra,
    ),
    (
        SETTINGS,
        &[(b"check", Slot::Head), (b"4096", Slot::Number)],
        LineCause::Extra,
    ),
    (
        SETTINGS,
        &[
            (b"minor", Slot::Head),
            (b"0", Slot::Part),
            (b"2", Slot::Positive),
        ],
        LineCause::Extra,
    ),
    (
        SETTINGS,
        &[
            (b"warm", Slot::Head),
            (b"0", Slot::Part),
            (b"1", Slot::Other),
            (b"0", Slot::Channel),
            (b"entries", Slot::Fixed),
            (b"4", Slot::Positive),
            (b"limit", Slot::Fixed),
            (b"112", Slot::Number),
        ],
        LineCause::Extra,
    ),
    (
        SETTINGS,
        &[
            (b"fault", Slot::Head),
            (b"0", Slot::Part),
            (b"get", Slot::Fixed),
            (b"1", Slot::Positive),
        ],
        LineCause::Word,
    ),
    (
        SETTINGS,
        &[
            (b"stop", Slot::Head),
            (b"0", Slot::Part),
            (b"put", Slot::Fixed),
            (b"1", Slot::Positive),
        ],
        LineCause::Extra,
    ),
    (
        SETTINGS,
        &[
            (b"restart", Slot::Head),
            (b"0", Slot::Part),
            (b"turn", Slot::Fixed),
            (b"0", Slot::Number),
        ],
        LineCause::Extra,
    ),
    (
        SETTINGS,
        &[
            (b"poke", Slot::Head),
            (b"0", Slot::Number),
            (b"0", Slot::Part),
            (b"0", Slot::Number),
            (b"0", Slot::Number),
        ],
        LineCause::Extra,
    ),
    (
        SETTINGS,
        &[(b"script", Slot::Head), (b"0", Slot::Part)],
        LineCause::Extra,
    ),
    (SETTINGS, &[(b"schedule", Slot::Head)], LineCause::Extra),
    (
        SCRIPTS,
        &[
            (b"register", Slot::Head),
            (b"1", Slot::Other),
            (b"1", Slot::Channel),
            (b"entries", Slot::Fixed),
            (b"8", Slot::Positive),
            (b"limit", Slot::Fixed),
            (b"0", Slot::Number),
        ],
        LineCause::Extra,
    ),
    (
        SCRIPTS,
        &[
            (b"unregister", Slot::Head),
            (b"1", Slot::Other),
            (b"1", Slot::Channel),
        ],
        LineCause::Extra,
    ),
    (
        SCRIPTS,
        &[
            (b"connected", Slot::Head),
            (b"1", Slot::Other),
            (b"1", Slot::Channel),
        ],
        LineCause::Extra,
    ),
    (
        SCRIPTS,
        &[
            (b"closed", Slot::Head),
            (b"1", Slot::Other),
            (b"1", Slot::Channel),
        ],
        LineCause::Extra,
    ),
    (
        SCRIPTS,
        &[
            (b"drain", Slot::Head),
            (b"1", Slot::Other),
            (b"1", Slot::Channel),
        ],
        LineCause::Extra,
    ),
    (
        SCRIPTS,
        &[
            (b"send", Slot::Head),
            (b"1", Slot::Other),
            (b"0", Slot::MessageChannel),
            (b"-", Slot::Payload),
        ],
        LineCause::Word,
    ),
    (
        SCRIPTS,
        &[
            (b"take", Slot::Head),
            (b"1", Slot::Other),
            (b"0", Slot::MessageChannel),
        ],
        LineCause::Word,
    ),
    (
        SCRIPTS,
        &[
            (b"release", Slot::Head),
            (b"1", Slot::Other),
            (b"0", Slot::MessageChannel),
            (b"0", Slot::Number),
        ],
        LineCause::Extra,
    ),
    (
        SCRIPTS,
        &[(b"net", Slot::Head), (b"14*00", Slot::Frame)],
        LineCause::Extra,
    ),
    (
        SCRIPTS,
        &[(b"frames", Slot::Head), (b"0", Slot::Number)],
        LineCause::Extra,
    ),
    (
        SCRIPTS,
        &[(b"deactivate", Slot::Head), (b"1", Slot::Other)],
        LineCause::Extra,
    ),
    (
        SCRIPTS,
        &[(b"activate", Slot::Head), (b"1", Slot::Other)],
        LineCause::Extra,
    ),
    (SCRIPTS, &[(b"leave", Slot::Head)], LineCause::Extra),
    (
        SCRIPTS,
        &[(b"idle", Slot::Head), (b"1", Slot::Positive)],
        LineCause::Extra,
    ),
    (SCRIPTS, &[(b"offline", Slot::Head)], LineCause::Extra),
    (SCRIPTS, &[(b"online", Slot::Head)], LineCause::Extra),
    (
        SCHEDULE,
        &[
            (b"turns", Slot::Head),
            (b"0", Slot::Part),
            (b"0", Slot::Number),
        ],
        LineCause::Extra,
    ),
    (
        SCHEDULE,
        &[(b"rounds", Slot::Head), (b"0", Slot::Number)],
        LineCause::Extra,
    ),
];

/// Words that may not stand for one that says this, and their cause.
fn wrong_words(slot: Slot) -> &'static [(&'static [u8], LineCause)] {
    match slot {
        Slot::Head | Slot::Fixed => &[(b"x", LineCause::Word), (b"\xc3\xa4", LineCause::Word)],
        Slot::Number => &[
            (b"x", LineCause::Number),
            (b"-1", LineCause::Number),
            (b"18446744073709551616", LineCause::Number),
            (b"0\x80", LineCause::Word),
        ],
        Slot::Positive => &[
            (b"0", LineCause::Number),
            (b"1x", LineCause::Number),
            (b"\xff", LineCause::Word),
        ],
        Slot::Part => &[
            (b"x", LineCause::Number),
            (b"3", LineCause::Partition),
            (b"18446744073709551616", LineCause::Partition),
            (b"0\x80", LineCause::Word),
        ],
        Slot::Other => &[
            (b"+1", LineCause::Number),
            (b"0", LineCause::Partition),
            (b"3", LineCause::Partition),
            (b"1\x80", LineCause::Word),
        ],
        Slot::Channel => &[
            (b"x", LineCause::Number),
            (b"4", LineCause::Channel),
            (b"0\x80", LineCause::Word),
        ],
        Slot::MessageChannel => &[
            (b"x", LineCause::Number),
            (b"1", LineCause::Channel),
            (b"4", LineCause::Channel),
            (b"1\x80", LineCause::Word),
        ],
        Slot::Payload => &[
            (b"6", LineCause::Payload),
            (b"4096*00+00", LineCause::Payload),
            (b"61\x80", LineCause::Word),
        ],
        Slot::Frame => &[
            (b"13*00", LineCause::Payload),
            (b"1515*00", LineCause::Payload),
            (b"-", LineCause::Payload),
            (b"14*00\x80", LineCause::Word),
        ],
    }
}

/// Lines, and the column of the word that is wrong in the last of them.
#[derive(Drop)]
struct Wrong {
    text: Vec<u8>,
    column: u64,
}

/// The first words of a line behind others, with one word more, which is wrong where there is one.
fn wrong_line(
    alloc: Global,
    before: &[u8],
    words: &[(&[u8], Slot)],
    wrong: &[u8],
) -> Result<Wrong, AllocError> {
    let mut line = Vec::new(alloc);
    for (word, _) in words {
        line.extend_from_slice(word)?;
        line.push(b' ')?;
    }
    let column = line.len() as u64 + 1;
    line.extend_from_slice(wrong)?;
    let mut text = before.to_vec(alloc)?;
    text.extend_from_slice(&line)?;
    Ok(Wrong { text, column })
}

/// The text has this fault alone, in its last line.
fn expect_fault(rt: &impl Abort, alloc: Global, text: &[u8], column: u64, cause: LineCause) {
    let wanted = ScenarioFault::BadLine {
        line: LINE,
        column,
        cause,
    };
    assert!(rt; parse(alloc, text).err() == Some(wanted), "{text:?}");
}

/// The first words of the line end too soon, and another word may not follow the last of them.
fn expect_cut(rt: &impl Abort, alloc: Global, row: Row, len: usize) -> Result<(), Fail> {
    let (before, words, behind) = row;
    assert!(rt; 1 <= len && len <= words.len());
    let wrong = wrong_line(alloc, before, &words[..len], b"x")?;
    if len == words.len() {
        expect_fault(rt, alloc, &wrong.text, wrong.column, behind);
    }
    let cut = wrong_line(alloc, before, &words[..len], b"")?;
    if len < words.len() {
        expect_fault(rt, alloc, &cut.text, cut.column, LineCause::Missing);
    } else {
        let text = &cut.text;
        assert!(rt; parse(alloc, text).is_ok(), "{text:?}");
    }
    Ok(())
}

/// A word of the line may not be another one.
fn expect_words(rt: &impl Abort, alloc: Global, row: Row, at: usize) -> Result<(), Fail> {
    let (before, words, _) = row;
    assert!(rt; at < words.len());
    for (word, cause) in wrong_words(words[at].1) {
        let wrong = wrong_line(alloc, before, &words[..at], word)?;
        expect_fault(rt, alloc, &wrong.text, wrong.column, *cause);
    }
    Ok(())
}

#[test]
fn lines_are_cut_and_longer(rt: HostRuntime) -> Result<(), Fail> {
    for row in ROWS {
        for last in 0..row.1.len() {
            expect_cut(&rt, rt.alloc(), row, last + 1)?;
        }
    }
    Ok(())
}

#[test]
fn words_are_wrong(rt: HostRuntime) -> Result<(), Fail> {
    for row in ROWS {
        for at in 0..row.1.len() {
            expect_words(&rt, rt.alloc(), row, at)?;
        }
    }
    Ok(())
}

/// A line has its place in its own section alone.
#[test]
fn sections_are_other(rt: HostRuntime) -> Result<(), Fail> {
    for (before, words, _) in ROWS {
        let other = if before == SCHEDULE {
            SCRIPTS
        } else {
            SCHEDULE
        };
        let wrong = wrong_line(rt.alloc(), other, words, b"")?;
        expect_fault(&rt, rt.alloc(), &wrong.text, 1, LineCause::Order);
    }
    Ok(())
}
