// What the lines of a report say, and what has to hold of every report.
use std::process::Abort;

/// What no report has where nobody but the partitions writes the words: reasons that refuse a word.
const BROKEN: [&str; 2] = ["bad-", "halted"];

/// A connection at one of its ends.
#[derive(Clone, Copy)]
pub struct Link<'a> {
    /// Whose end it is.
    pub part: u64,
    pub partner: u64,
    pub channel: u64,
    pub epoch: u64,
    pub own: &'a str,
    pub theirs: &'a str,
    pub accepted: u64,
    pub taken: u64,
    pub acked: u64,
    pub delivered: u64,
    pub ended: u64,
}

/// The word behind a key.
fn word_behind<'a>(line: &'a str, key: &str) -> &'a str {
    let mut found = false;
    for word in line.split_whitespace() {
        if found {
            return word;
        }
        found = word == key;
    }
    ""
}

/// The word of a line at this place, from 0.
pub fn word_of(line: &str, place: usize) -> &str {
    line.split_whitespace().nth(place).unwrap_or("")
}

/// The number that a word spells, and the greatest one where it spells none.
pub fn number_of(word: &str) -> u64 {
    word.parse::<u64>().unwrap_or(u64::MAX)
}

fn number_behind(line: &str, key: &str) -> u64 {
    number_of(word_behind(line, key))
}

/// The connection that a line of a partition tells, where it tells one.
fn link_of(part: u64, line: &str) -> Option<Link> {
    if !line.starts_with("  link ") {
        return None;
    }
    Some(Link {
        part,
        partner: number_behind(line, "link"),
        channel: number_of(word_of(line, 2)),
        epoch: number_behind(line, "epoch"),
        own: word_behind(line, "own"),
        theirs: word_of(line, 8),
        accepted: number_behind(line, "accepted"),
        taken: number_behind(line, "taken"),
        acked: number_behind(line, "acked"),
        delivered: number_behind(line, "delivered"),
        ended: number_behind(line, "ended"),
    })
}

/// Which partition the lines from here on are of: the one that a line begins, else the one of before.
pub fn part_from(line: &str, part: u64) -> u64 {
    if line.starts_with("partition ") {
        number_behind(line, "partition")
    } else {
        part
    }
}

/// Whether two ends are of one connection.
fn are_ends(one: &Link, other: &Link) -> bool {
    one.part == other.partner
        && one.partner == other.part
        && one.channel == other.channel
        && one.epoch == other.epoch
        && one.own == other.theirs
        && one.theirs == other.own
}

/// The other end of a connection, where the report has it.
fn other_end<'a>(report: &'a str, link: &Link) -> Option<Link<'a>> {
    let mut part = u64::MAX;
    for line in report.lines() {
        part = part_from(line, part);
        match link_of(part, line) {
            Some(other) if are_ends(link, &other) => return Some(other),
            _ => (),
        }
    }
    None
}

/// What a sending end tells of its messages beside what the receiving end tells of them: not more are taken than were accepted, not more
/// acknowledged than taken, and not more told as delivered than acknowledged. An end that isn't told has sent and taken nothing.
fn keeps_order(sender: &Link, receiver: Option<Link>) -> bool {
    let (taken, acked) = match receiver {
        Some(end) => (end.taken, end.acked),
        None => (0, 0),
    };
    taken <= sender.accepted
        && acked <= taken
        && sender.delivered <= acked
        && sender.delivered.saturating_add(sender.ended) <= sender.accepted
}

/// What a receiving end tells, where the report lacks the sending end.
fn has_sender(receiver: &Link, sender: Option<Link>) -> bool {
    sender.is_some() || receiver.taken == 0
}

/// Expects of each connection that the messages taken are as many as were accepted, or fewer.
fn expect_links(rt: &impl Abort, report: &str, name: &str) {
    let mut part = u64::MAX;
    for line in report.lines() {
        part = part_from(line, part);
        if let Some(link) = link_of(part, line) {
            let other = other_end(report, &link);
            assert!(rt; keeps_order(&link, other), "{name}: {line}");
            assert!(rt; has_sender(&link, other), "{name}: {line}");
        }
    }
}

/// Expects that a report refuses no word, and of each connection that its two ends fit.
pub fn expect_promises(rt: &impl Abort, report: &str, name: &str) {
    for text in BROKEN {
        assert!(rt; !report.contains(text), "{name}: {text}");
    }
    expect_links(rt, report, name);
}

/// How many commands of a partition have no answer.
pub fn waiting(report: &str, wanted: u64) -> u64 {
    let mut part = u64::MAX;
    let mut count: u64 = 0;
    for line in report.lines() {
        part = part_from(line, part);
        if part == wanted && line.contains(" unanswered") {
            count = count.saturating_add(1);
        }
    }
    count
}

/// The state of a partition, and how many boots it began.
pub fn state_of(report: &str, wanted: u64) -> (&str, u64) {
    for line in report.lines() {
        if line.starts_with("partition ") && number_behind(line, "partition") == wanted {
            return (word_of(line, 2), number_behind(line, "boots"));
        }
    }
    ("", 0)
}

/// Whether a report has a line.
pub fn has_line(report: &str, line: &str) -> bool {
    for found in report.lines() {
        if found == line {
            return true;
        }
    }
    false
}

/// Whether a line is of a command whose answer is given by its channel.
fn is_message_command(line: &str) -> bool {
    let verb = word_of(line, 2);
    line.starts_with("  1 ")
        && (verb == "send" || verb == "take" || verb == "release" || verb == "drain")
}

/// Whether the commands of messages are answered well or refused with one of these answers, and none is answered well after a refusal.
pub fn refusals(report: &str, refused: [&str; 2]) -> bool {
    let [closing, apart] = refused;
    let mut before = false;
    for line in report.lines() {
        if line.starts_with("partition ") {
            before = false;
        }
        if is_message_command(line) {
            let well = word_of(line, 3) == "ok";
            if well && before || !well && !line.ends_with(closing) && !line.ends_with(apart) {
                return false;
            }
            before = !well;
        }
    }
    true
}

/// A connection that ended at one of its ends, and its reason.
#[derive(Clone, Copy)]
struct Over<'a> {
    part: u64,
    partner: u64,
    channel: u64,
    epoch: u64,
    own: &'a str,
    theirs: &'a str,
    reason: &'a str,
}

/// The connection whose end a line of a partition tells, where it tells one.
fn over_of(part: u64, line: &str) -> Option<Over> {
    if !line.starts_with("  over ") {
        return None;
    }
    Some(Over {
        part,
        partner: number_behind(line, "over"),
        channel: number_of(word_of(line, 2)),
        epoch: number_behind(line, "epoch"),
        own: word_behind(line, "own"),
        theirs: word_of(line, 8),
        reason: word_of(line, 9),
    })
}

/// Whether the ends of a connection that both agreed to close tell reasons that fit: at least one was unregistered.
fn fits(one: &Over, other: &Over) -> bool {
    one.part == other.partner
        && one.partner == other.part
        && one.channel == other.channel
        && one.epoch == other.epoch
        && one.own == other.theirs
        && one.theirs == other.own
        && (one.reason == "unregistered" || other.reason == "unregistered")
}

fn has_fitting(report: &str, one: &Over) -> bool {
    let mut part = u64::MAX;
    for line in report.lines() {
        part = part_from(line, part);
        match over_of(part, line) {
            Some(other) if fits(one, &other) => return true,
            _ => (),
        }
    }
    false
}

/// Expects that each connection which ended did so at both of its ends, at one of them since it was unregistered.
pub fn expect_closings(rt: &impl Abort, report: &str, name: &str) {
    let mut part = u64::MAX;
    for line in report.lines() {
        part = part_from(line, part);
        if let Some(over) = over_of(part, line) {
            assert!(rt; has_fitting(report, &over), "{name}: {line}");
        }
    }
}

/// The sum of a count over all connections of a partition.
pub fn total(report: &str, wanted: u64, key: &str) -> u64 {
    let mut part = u64::MAX;
    let mut sum: u64 = 0;
    for line in report.lines() {
        part = part_from(line, part);
        if part == wanted && line.starts_with("  link ") {
            sum = sum.saturating_add(number_behind(line, key));
        }
    }
    sum
}
