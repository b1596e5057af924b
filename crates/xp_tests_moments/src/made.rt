// Scenarios that follow from their numbers, with reopenings, failed copies and restarts at odd moments, whose reports are held against the
// promises. Nothing but the report is read for that: a message tells who sent it, in which boot and by which command, and the number of a
// command tells its channel.
use crate::messages::expect_messages;
use crate::replays::replay;
use crate::reports::expect_promises;
use std::alloc::{AllocError, Global};
use std::process::Abort;
use std::test::Fail;

/// How many scenarios there are, in four tests.
const SCENARIOS: u64 = 50;

/// The boots for which a partition has scripts, and the commands of each behind which a partition waits.
const BOOTS_END: u64 = 4;

const COMMANDS_END: u64 = 49;

/// How many messages a queue has.
const QUEUE: u64 = 4;

/// The kinds of copies and their loads.
const LOADS: [(&str, u64); 6] = [
    ("page", 5),
    ("record", 8),
    ("args", 1),
    ("counters", 2),
    ("get", 1),
    ("entries", 16),
];

/// How many bytes stand behind the four that tell a message.
const MORE: [u64; 6] = [0, 1, 4, 11, 12, 28];

/// Before which turn a partition boots again.
const RESTARTS: [u64; 3] = [200, 900, 4_000];

/// Numbers that follow from the first one.
#[derive(Drop)]
struct Dice {
    word: u64,
}

impl Dice {
    /// A number below a limit, 0 below none.
    fn below(&mut self, limit: u64) -> u64 {
        self.word = self
            .word
            .wrapping_mul(6_364_136_223_846_793_005)
            .wrapping_add(1_442_695_040_888_963_407);
        let high = self.word >> 33;
        if limit == 0 { 0 } else { high % limit }
    }
}

/// What both partitions do by turns on a channel.
#[derive(Clone, Copy, PartialEq)]
enum Kind {
    /// Partition 0 sends, and partition 1 takes.
    Send,
    /// Partition 1 sends, and partition 0 takes.
    Answer,
    /// Each releases the next message, where there is one.
    Release,
    Register,
    Connected,
    /// Partition 0 unregisters.
    Close,
    /// Partition 1 unregisters.
    Refuse,
    /// Partition 0 deactivates its partner, and wants it again next.
    Down,
    Up,
    Rest,
}

/// Each kind as often as it is wanted.
const KINDS: [(Kind, u64); 8] = [
    (Kind::Send, 10),
    (Kind::Answer, 18),
    (Kind::Release, 27),
    (Kind::Connected, 30),
    (Kind::Close, 32),
    (Kind::Refuse, 34),
    (Kind::Down, 35),
    (Kind::Rest, 38),
];

/// A kind by chance.
fn chance(dice: &mut Dice) -> Kind {
    let number = dice.below(38);
    for (kind, end) in KINDS {
        if number < end {
            return kind;
        }
    }
    Kind::Rest
}

/// One channel of both scripts: what is to be done first, and how many messages each partition has sent and released.
#[derive(Drop)]
struct Flow {
    channel: u64,
    next: Option<Kind>,
    later: Option<Kind>,
    sent: (u64, u64),
    released: (u64, u64),
}

impl Flow {
    fn new(channel: u64) -> Flow {
        Flow {
            channel,
            next: Some(Kind::Register),
            later: Some(Kind::Connected),
            sent: (0, 0),
            released: (0, 0),
        }
    }

    /// A connection ends, and the next one comes behind this.
    fn end(&mut self, kind: Kind) {
        self.next = Some(kind);
        self.later = Some(Kind::Connected);
        self.sent = (0, 0);
        self.released = (0, 0);
    }

    /// What is done next: what waits, else something by chance, but for a send into a queue that may be full.
    fn kind(&mut self, dice: &mut Dice) -> Kind {
        if let Some(kind) = self.next {
            self.next = self.later;
            self.later = None;
            return kind;
        }
        let kind = chance(dice);
        let open = match kind {
            Kind::Send => self.sent.0.saturating_sub(self.released.1),
            Kind::Answer => self.sent.1.saturating_sub(self.released.0),
            _ => 0,
        };
        if open < QUEUE - 1 {
            kind
        } else {
            Kind::Release
        }
    }
}

/// The scripts of both partitions for one boot.
#[derive(Drop)]
struct Scripts {
    zero: String,
    one: String,
}

impl Scripts {
    /// The same command of both.
    fn write_both(&mut self, verb: &str, channel: u64, rest: &str) -> Result<(), AllocError> {
        write!(self.zero, "{verb} 1 {channel}{rest}\n")?;
        write!(self.one, "{verb} 0 {channel}{rest}\n")
    }

    /// A connection ends by one of both.
    fn write_end(&mut self, kind: Kind, channel: u64) -> Result<(), AllocError> {
        match kind {
            Kind::Close => {
                write!(self.zero, "unregister 1 {channel}\n")?;
                write!(self.one, "closed 0 {channel}\n")
            }
            Kind::Refuse => {
                write!(self.zero, "closed 1 {channel}\n")?;
                write!(self.one, "unregister 0 {channel}\n")
            }
            Kind::Down => {
                write!(self.zero, "deactivate 1\n")?;
                write!(self.one, "closed 0 {channel}\n")
            }
            _ => {
                write!(self.zero, "activate 1\n")?;
                write!(self.one, "idle 20\n")
            }
        }
    }
}

/// A message that tells its sender, its boot and its command, with bytes behind it that tell nothing. Its delivery may be asked for.
fn write_send(
    text: &mut String,
    part: u64,
    channel: u64,
    name: (u64, u64),
    dice: &mut Dice,
) -> Result<(), AllocError> {
    let (boot, command) = name;
    let partner = 1u64.saturating_sub(part);
    let more = MORE.get(dice.below(6) as usize).copied().unwrap_or(0);
    let notify = if dice.below(2) == 0 { "" } else { " notify" };
    write!(text, "send {partner} {channel} 0{part}0{boot}")?;
    write!(text, "00{}{}", command / 10, command % 10)?;
    if more > 0 {
        write!(text, "+{more}*5a")?;
    }
    write!(text, "{notify}\n")
}

/// A release of the next message of so many, where there is one.
fn write_release(
    text: &mut String,
    partner: u64,
    channel: u64,
    released: &mut u64,
    sent: u64,
) -> Result<(), AllocError> {
    let number = *released;
    if number >= sent {
        return write!(text, "idle 3\n");
    }
    *released = number.saturating_add(1);
    write!(text, "release {partner} {channel} {number}\n")
}

/// The commands of messages of both.
fn write_messages(
    scripts: &mut Scripts,
    flow: &mut Flow,
    kind: Kind,
    name: (u64, u64),
    dice: &mut Dice,
) -> Result<(), AllocError> {
    let channel = flow.channel;
    match kind {
        Kind::Send => {
            flow.sent.0 = flow.sent.0.saturating_add(1);
            write_send(&mut scripts.zero, 0, channel, name, dice)?;
            write!(scripts.one, "take 0 {channel}\n")
        }
        Kind::Answer => {
            flow.sent.1 = flow.sent.1.saturating_add(1);
            write_send(&mut scripts.one, 1, channel, name, dice)?;
            write!(scripts.zero, "take 1 {channel}\n")
        }
        _ => {
            let (zero, one) = flow.sent;
            write_release(&mut scripts.zero, 1, channel, &mut flow.released.0, one)?;
            write_release(&mut scripts.one, 0, channel, &mut flow.released.1, zero)
        }
    }
}

/// The next command of both.
fn write_command(
    scripts: &mut Scripts,
    flow: &mut Flow,
    name: (u64, u64),
    dice: &mut Dice,
) -> Result<(), AllocError> {
    let kind = flow.kind(dice);
    match kind {
        Kind::Send | Kind::Answer | Kind::Release => {
            write_messages(scripts, flow, kind, name, dice)
        }
        Kind::Register => scripts.write_both("register", flow.channel, " entries 4 limit 32"),
        Kind::Connected => scripts.write_both("connected", flow.channel, ""),
        Kind::Rest => {
            write!(scripts.zero, "idle {}\n", dice.below(40).saturating_add(1))?;
            write!(scripts.one, "idle {}\n", dice.below(40).saturating_add(1))
        }
        Kind::Down => {
            flow.end(Kind::Up);
            scripts.write_end(kind, flow.channel)
        }
        Kind::Up => scripts.write_end(kind, flow.channel),
        _ => {
            flow.end(Kind::Register);
            scripts.write_end(kind, flow.channel)
        }
    }
}

/// The scripts of a boot. Commands of even numbers are of channel 0, the others of channel 2.
fn scripts_of(alloc: Global, boot: u64, dice: &mut Dice) -> Result<Scripts, AllocError> {
    let mut scripts = Scripts {
        zero: String::new(alloc),
        one: String::new(alloc),
    };
    let mut even = Flow::new(0);
    let mut odd = Flow::new(2);
    for command in 1..COMMANDS_END {
        if command % 2 == 0 {
            write_command(&mut scripts, &mut even, (boot, command), dice)?;
        } else {
            write_command(&mut scripts, &mut odd, (boot, command), dice)?;
        }
    }
    Ok(scripts)
}

/// Failed copies and restarts at odd moments.
fn write_settings(text: &mut String, dice: &mut Dice) -> Result<(), AllocError> {
    for _ in 0..dice.below(3) {
        let (kind, loads) = LOADS
            .get(dice.below(6) as usize)
            .copied()
            .unwrap_or(("get", 1));
        let part = dice.below(2);
        let copy = dice.below(12).saturating_add(1);
        write!(
            text,
            "fault {part} {kind} {copy} at {}\n",
            dice.below(loads)
        )?;
    }
    for _ in 0..dice.below(3) {
        let part = dice.below(2);
        let before = RESTARTS.get(dice.below(3) as usize).copied().unwrap_or(1);
        write!(text, "restart {part} turn {}\n", dice.below(before))?;
    }
    Ok(())
}

/// Turns of one partition or of both, and enough of both at last.
fn write_schedule(text: &mut String, dice: &mut Dice) -> Result<(), AllocError> {
    write!(text, "schedule\n")?;
    for _ in 0..dice.below(8) {
        if dice.below(2) == 1 {
            write!(text, "rounds {}\n", dice.below(60))?;
        } else {
            let part = dice.below(2);
            write!(text, "turns {part} {}\n", dice.below(200))?;
        }
    }
    write!(text, "rounds 7000\n")
}

/// The text of the scenario of a number.
fn scenario(alloc: Global, number: u64) -> Result<Vec<u8>, AllocError> {
    let mut dice = Dice { word: number };
    let mut text = String::new(alloc);
    write!(text, "xpsim 1\npartitions 2\n")?;
    write_settings(&mut text, &mut dice)?;
    for boot in 1..BOOTS_END {
        let Scripts { zero, one } = scripts_of(alloc, boot, &mut dice)?;
        write!(text, "script 0\n{zero}idle 400\nscript 1\n{one}idle 400\n")?;
    }
    write_schedule(&mut text, &mut dice)?;
    Ok(text.into_bytes())
}

/// Replays the scenarios of so many numbers from one on, and holds each report against the promises.
fn expect_made(rt: &impl Abort, alloc: Global, first: u64) -> Result<(), Fail> {
    for offset in 0..SCENARIOS {
        let made = replay(rt, alloc, scenario(alloc, first.saturating_add(offset))?)?;
        expect_promises(rt, &made.report, "made");
        expect_messages(rt, &made.report);
    }
    Ok(())
}

#[test]
fn made_from_0(rt: HostRuntime) -> Result<(), Fail> {
    expect_made(&rt, rt.alloc(), 0)
}

#[test]
fn made_from_50(rt: HostRuntime) -> Result<(), Fail> {
    expect_made(&rt, rt.alloc(), 50)
}

#[test]
fn made_from_100(rt: HostRuntime) -> Result<(), Fail> {
    expect_made(&rt, rt.alloc(), 100)
}

#[test]
fn made_from_150(rt: HostRuntime) -> Result<(), Fail> {
    expect_made(&rt, rt.alloc(), 150)
}
