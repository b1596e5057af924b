// Messages that a report tells as accepted and as taken, where each message begins with the number of its sender, of the boot and of the
// command that sent it, two digits each and four, and commands of even numbers are of channel 0, others of channel 2.
use crate::reports::{number_of, part_from, total, word_of};
use std::process::Abort;

/// A message that was accepted: its number, and the number of its connection among those of its channel that carried a message.
#[derive(Clone, Copy)]
struct Sent {
    number: u64,
    connection: u64,
}

/// A message that was taken, by what it tells: who sent it, in which boot, by which command.
#[derive(Clone, Copy)]
struct Taken {
    sender: u64,
    boot: u64,
    command: u64,
}

/// Whether a line tells that a command of this kind and of this channel was answered well.
fn is_well(line: &str, verb: &str, channel: u64) -> bool {
    word_of(line, 2) == verb
        && word_of(line, 3) == "ok"
        && channel_of(number_of(word_of(line, 1))) == channel
}

/// The channel of a command.
fn channel_of(command: u64) -> u64 {
    if command % 2 == 0 { 0 } else { 2 }
}

/// The number that digits from one place to another one spell.
fn digits(body: &[u8], from: usize, to: usize) -> u64 {
    let mut number: u64 = 0;
    for digit in body.get(from..to).unwrap_or(&[]) {
        let value = digit.saturating_sub(48) as u64;
        number = number.saturating_mul(10).saturating_add(value);
    }
    number
}

/// What stands in the message of a line that tells a take.
fn taken_of(line: &str) -> Taken {
    let body = match word_of(line, 5).split_once(":") {
        Some((_, body)) => body.as_bytes(),
        None => &[],
    };
    Taken {
        sender: digits(body, 0, 2),
        boot: digits(body, 2, 4),
        command: digits(body, 4, 8),
    }
}

/// The send of a message as its sender tells it, where it tells it as accepted.
fn sent_of(report: &str, taken: Taken, channel: u64) -> Option<Sent> {
    let mut part = u64::MAX;
    let mut connection: u64 = 0;
    for line in report.lines() {
        part = part_from(line, part);
        if part == taken.sender && is_well(line, "send", channel) {
            let number = number_of(word_of(line, 4));
            if number == 0 {
                connection = connection.saturating_add(1);
            }
            if number_of(word_of(line, 0)) == taken.boot
                && number_of(word_of(line, 1)) == taken.command
            {
                return Some(Sent { number, connection });
            }
        }
    }
    None
}

/// Whether a message comes right behind the one before: the next one of its connection, or the first one of a later connection.
fn follows(before: Option<Sent>, sent: Sent) -> bool {
    match before {
        Some(last) if last.connection == sent.connection => {
            sent.number == last.number.saturating_add(1)
        }
        Some(last) => sent.connection > last.connection && sent.number == 0,
        None => sent.number == 0,
    }
}

/// Expects of each message that a partition took on a channel that its partner sent it there, that both tell the same number of it, and
/// that it was taken behind all that stood before it in its connection.
fn expect_taken(rt: &impl Abort, report: &str, receiver: u64, channel: u64) {
    let mut part = u64::MAX;
    let mut before: Option<Sent> = None;
    for line in report.lines() {
        part = part_from(line, part);
        if part == receiver && is_well(line, "take", channel) {
            let taken = taken_of(line);
            let sent = sent_of(report, taken, channel);
            assert!(rt; taken.sender.saturating_add(receiver) == 1, "{line}");
            assert!(rt;
                is_right(before, sent, number_of(word_of(line, 4))),
                "{line}: {report}"
            );
            before = sent;
        }
    }
}

/// Whether a message was sent with this number, behind the one before.
fn is_right(before: Option<Sent>, sent: Option<Sent>, number: u64) -> bool {
    match sent {
        Some(sent) => sent.number == number && follows(before, sent),
        None => false,
    }
}

/// How many commands of a partition were answered well.
fn well(report: &str, wanted: u64, verb: &str) -> u64 {
    let mut part = u64::MAX;
    let mut count: u64 = 0;
    for line in report.lines() {
        part = part_from(line, part);
        if part == wanted && word_of(line, 2) == verb && word_of(line, 3) == "ok" {
            count = count.saturating_add(1);
        }
    }
    count
}

/// Expects of the messages of two partitions that they are taken as they were accepted, and that connections count them all.
pub fn expect_messages(rt: &impl Abort, report: &str) {
    for part in [0u64, 1] {
        expect_taken(rt, report, part, 0);
        expect_taken(rt, report, part, 2);
        assert!(rt;
            well(report, part, "send") == total(report, part, "accepted"),
            "{report}"
        );
        assert!(rt;
            well(report, part, "take") == total(report, part, "taken"),
            "{report}"
        );
    }
}
