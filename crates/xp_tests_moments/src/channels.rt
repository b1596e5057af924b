// Tables of channels that open and close: their reports.
use crate::replays::{expect_exact, pair, replay};
use crate::reports::{expect_closings, expect_promises, has_line, part_from, state_of, waiting};
use std::alloc::{AllocError, Global};
use std::process::Abort;
use std::test::Fail;

/// A channel that keeps two partitions in contact, and is none of those that open and close.
const CONTACT: &str = "warm 0 1 3 entries 1 limit 16\n";

/// The turns through an opening or a closing.
const STEPS: u64 = 80;

/// Both sides: which partition plays the first part, and which the second one.
const SIDES: [(u8, u8); 2] = [(0, 1), (1, 0)];

/// The text in which a partition has the first script, and the other one the second.
fn sided(
    alloc: Global,
    side: u8,
    first: &str,
    second: &str,
    schedule: &str,
) -> Result<Vec<u8>, AllocError> {
    let scripts = if side == 0 {
        [first, second]
    } else {
        [second, first]
    };
    pair(alloc, CONTACT, scripts, schedule)
}

/// The report in which a partition has the first lines, and the other one the second.
fn sided_report(alloc: Global, side: u8, first: &str, second: &str) -> Result<String, AllocError> {
    let mut text = String::new(alloc);
    let (zero, one) = if side == 0 {
        (first, second)
    } else {
        (second, first)
    };
    write!(text, "report 1\n{zero}{one}")?;
    Ok(text)
}

/// The line of a connection of channel 0: its epoch, and how many messages were accepted, taken, acknowledged, told as delivered and told
/// as ended.
fn write_link(
    text: &mut String,
    partner: u8,
    epoch: u64,
    counts: [u64; 5],
) -> Result<(), AllocError> {
    let [accepted, taken, acked, delivered, ended] = counts;
    write!(
        text,
        "  link {partner} 0 epoch {epoch} own 1.1 partner 1.1 accepted {accepted} taken {taken}"
    )?;
    write!(text, " acked {acked} delivered {delivered} ended {ended}\n")
}

/// The line of a connection of channel 0 that ended.
fn write_over(text: &mut String, partner: u8, epoch: u64, reason: &str) -> Result<(), AllocError> {
    write!(
        text,
        "  over {partner} 0 epoch {epoch} own 1.1 partner 1.1 {reason}\n"
    )
}

/// The line of the channel that keeps both in contact.
fn write_contact(text: &mut String, partner: u8) -> Result<(), AllocError> {
    write!(
        text,
        "  link {partner} 3 epoch 0 own 1.1 partner 1.1 accepted 0 taken 0 acked 0 delivered 0 ended 0\n"
    )
}

/// Both register, and one unregisters some turns later.
fn opening_text(alloc: Global, (side, other): (u8, u8), turn: u64) -> Result<Vec<u8>, AllocError> {
    let mut first = String::new(alloc);
    let mut second = String::new(alloc);
    write!(
        first,
        "register {other} 0 entries 2 limit 16\nidle {turn}\nunregister {other} 0\nidle 300\n"
    )?;
    write!(
        second,
        "register {side} 0 entries 2 limit 16\nclosed {side} 0\n"
    )?;
    sided(alloc, side, &first, &second, "rounds 800\n")
}

/// Where the end that is unregistered had begun, it closes and its partner is told; else nothing is over, and the partner waits.
fn expect_opening(rt: &impl Abort, report: &str, (side, other): (u8, u8)) {
    let begun = report.contains("  over ");
    expect_closings(rt, report, "opening");
    assert!(rt; has_line(report, "  1 3 unregister ok"));
    assert!(rt;
        report.contains(" unregistered\n") == begun && report.contains("closed 1\n") == begun
    );
    assert!(rt; waiting(report, side as u64) == 0 && (waiting(report, other as u64) == 0) == begun);
}

#[test]
fn unregisters_at_each_turn(rt: HostRuntime) -> Result<(), Fail> {
    for sides in SIDES {
        for turn in 1..STEPS {
            let made = replay(&rt, rt.alloc(), opening_text(rt.alloc(), sides, turn)?)?;
            expect_promises(&rt, &made.report, "opening");
            expect_opening(&rt, &made.report, sides);
        }
    }
    Ok(())
}

/// One unregisters, and registers again some turns later, with a longer queue. The other one stays registered.
fn again_text(
    alloc: Global,
    (side, other): (u8, u8),
    turn: u64,
    schedule: &str,
) -> Result<Vec<u8>, AllocError> {
    let mut first = String::new(alloc);
    let mut second = String::new(alloc);
    write!(
        first,
        "register {other} 0 entries 2 limit 16\nconnected {other} 0\nunregister {other} 0\nidle {turn}\n"
    )?;
    write!(
        first,
        "register {other} 0 entries 4 limit 16\nconnected {other} 0\nsend {other} 0 6162\ndrain {other} 0\n"
    )?;
    write!(
        second,
        "register {side} 0 entries 2 limit 16\nconnected {side} 0\nclosed {side} 0\nconnected {side} 0\n"
    )?;
    write!(second, "take {side} 0\nrelease {side} 0 0\n")?;
    sided(alloc, side, &first, &second, schedule)
}

/// What the one tells that opens again.
fn reopener_lines(alloc: Global, side: u8, other: u8) -> Result<String, AllocError> {
    let mut text = String::new(alloc);
    write!(
        text,
        "partition {side} done boots 1\n  1 1 register ok\n  1 2 connected ok\n  1 3 unregister ok\n  1 4 idle ok\n"
    )?;
    write!(
        text,
        "  1 5 register ok\n  1 6 connected ok\n  1 7 send ok 0\n  1 8 drain ok\n"
    )?;
    write_link(&mut text, other, 0, [0, 0, 0, 0, 0])?;
    write_over(&mut text, other, 0, "unregistered")?;
    write_link(&mut text, other, 1, [1, 0, 0, 0, 0])?;
    write_contact(&mut text, other)?;
    Ok(text)
}

/// What the other one tells.
fn registered_lines(alloc: Global, side: u8, other: u8) -> Result<String, AllocError> {
    let mut text = String::new(alloc);
    write!(
        text,
        "partition {other} done boots 1\n  1 1 register ok\n  1 2 connected ok\n  1 3 closed partner-closed 1\n"
    )?;
    write!(
        text,
        "  1 4 connected ok\n  1 5 take ok 0 2:6162\n  1 6 release ok 1\n"
    )?;
    write_link(&mut text, side, 0, [0, 0, 0, 0, 0])?;
    write_over(&mut text, side, 0, "partner-closed 1")?;
    write_link(&mut text, side, 1, [0, 1, 1, 0, 0])?;
    write_contact(&mut text, side)?;
    Ok(text)
}

fn again_report(alloc: Global, (side, other): (u8, u8)) -> Result<String, AllocError> {
    let first = reopener_lines(alloc, side, other)?;
    let second = registered_lines(alloc, side, other)?;
    sided_report(alloc, side, &first, &second)
}

#[test]
fn registers_again_at_each_turn_of_a_closing(rt: HostRuntime) -> Result<(), Fail> {
    for sides in SIDES {
        let wanted = again_report(rt.alloc(), sides)?;
        for turn in 1..STEPS {
            let text = again_text(rt.alloc(), sides, turn, "rounds 1000\n")?;
            expect_exact(&rt, &replay(&rt, rt.alloc(), text)?, &wanted, "again");
        }
    }
    Ok(())
}

/// One partition alone makes 300 turns after some rounds, so it is far ahead of the other one there: the same comes of it.
fn expect_ahead(
    rt: &impl Abort,
    alloc: Global,
    sides: (u8, u8),
    rounds: u64,
    wanted: &str,
) -> Result<(), Fail> {
    for ahead in [0u8, 1] {
        let mut schedule = String::new(alloc);
        write!(
            schedule,
            "rounds {rounds}\nturns {ahead} 300\nrounds 1000\n"
        )?;
        let text = again_text(alloc, sides, 1, &schedule)?;
        expect_exact(rt, &replay(rt, alloc, text)?, wanted, "ahead");
    }
    Ok(())
}

#[test]
fn runs_ahead_at_each_turn(rt: HostRuntime) -> Result<(), Fail> {
    for sides in SIDES {
        let wanted = again_report(rt.alloc(), sides)?;
        for rounds in 0..STEPS {
            expect_ahead(&rt, rt.alloc(), sides, rounds, &wanted)?;
        }
    }
    Ok(())
}

/// Both unregister, one of them some turns after the other.
fn both_text(alloc: Global, (side, other): (u8, u8), turn: u64) -> Result<Vec<u8>, AllocError> {
    let mut first = String::new(alloc);
    let mut second = String::new(alloc);
    write!(
        first,
        "register {other} 0 entries 2 limit 16\nconnected {other} 0\nidle 30\nunregister {other} 0\nidle 300\n"
    )?;
    write!(
        second,
        "register {side} 0 entries 2 limit 16\nconnected {side} 0\nidle {turn}\nunregister {side} 0\nidle 300\n"
    )?;
    sided(alloc, side, &first, &second, "rounds 800\n")
}

#[test]
fn both_close_at_once(rt: HostRuntime) -> Result<(), Fail> {
    for sides in SIDES {
        for turn in 1..STEPS {
            let made = replay(&rt, rt.alloc(), both_text(rt.alloc(), sides, turn)?)?;
            expect_promises(&rt, &made.report, "both");
            expect_closings(&rt, &made.report, "both");
            assert!(rt; made.report.contains(" unregistered\n"));
            assert!(rt; waiting(&made.report, 0) == 0 && waiting(&made.report, 1) == 0);
        }
    }
    Ok(())
}

/// The minor versions of both, and the limits that they register first.
const LIMITS: [((u8, u8), (u16, u16)); 15] = [
    ((1, 1), (16, 16)),
    ((1, 1), (16, 48)),
    ((1, 1), (48, 16)),
    ((1, 1), (112, 0)),
    ((1, 2), (48, 48)),
    ((1, 2), (16, 48)),
    ((1, 2), (112, 240)),
    ((2, 1), (48, 48)),
    ((2, 1), (48, 16)),
    ((2, 1), (240, 112)),
    ((2, 2), (48, 48)),
    ((2, 2), (16, 48)),
    ((2, 2), (48, 16)),
    ((2, 2), (112, 240)),
    ((2, 2), (496, 113)),
];

/// The limit that is registered the second time.
const SECOND_LIMIT: u16 = 32;

/// The limit that both agree on: the lesser one where both have minor version 2, else that of both.
fn agreed(minors: (u8, u8), limits: (u16, u16)) -> Option<u16> {
    if minors == (2, 2) {
        Some(if limits.0 < limits.1 {
            limits.0
        } else {
            limits.1
        })
    } else if limits.0 == limits.1 {
        Some(limits.0)
    } else {
        None
    }
}

/// Both register a limit, later 32, and send more than each limit.
fn limits_text(alloc: Global, minors: (u8, u8), limits: (u16, u16)) -> Result<Vec<u8>, AllocError> {
    let mut text = String::new(alloc);
    write!(
        text,
        "xpsim 1\npartitions 2\nminor 0 {}\nminor 1 {}\n{CONTACT}",
        minors.0, minors.1
    )?;
    for (side, other, limit) in [(0u8, 1u8, limits.0), (1, 0, limits.1)] {
        write!(
            text,
            "script {side}\nregister {other} 0 entries 1 limit {limit}\nidle 150\n"
        )?;
        write!(
            text,
            "register {other} 0 entries 1 limit {SECOND_LIMIT}\nidle 150\nsend {other} 0 1008*61\n"
        )?;
    }
    write!(text, "schedule\nrounds 1000\n")?;
    Ok(text.into_bytes())
}

/// What one tells of its own limit, the other's and the agreed one.
fn write_limits(
    text: &mut String,
    (side, other): (u8, u8),
    (own, theirs): (u16, u16),
    agreed: Option<u16>,
) -> Result<(), AllocError> {
    let again = if agreed.is_some() { "already" } else { "ok" };
    let limit = agreed.unwrap_or(SECOND_LIMIT);
    write!(
        text,
        "partition {side} done boots 1\n  1 1 register ok\n  1 2 idle ok\n  1 3 register {again}\n"
    )?;
    write!(text, "  1 4 idle ok\n  1 5 send too-big 1008 {limit}\n")?;
    if agreed.is_some() {
        write_link(text, other, 0, [0, 0, 0, 0, 0])?;
    } else {
        write!(
            text,
            "  over {other} 0 epoch 0 own 1.1 partner 1.1 unequal-sizes {own} {theirs}\n"
        )?;
        write_link(text, other, 1, [0, 0, 0, 0, 0])?;
    }
    write_contact(text, other)
}

#[test]
fn limits_are_agreed(rt: HostRuntime) -> Result<(), Fail> {
    for (minors, limits) in LIMITS {
        let made = replay(&rt, rt.alloc(), limits_text(rt.alloc(), minors, limits)?)?;
        let mut wanted = String::new(rt.alloc());
        write!(wanted, "report 1\n")?;
        write_limits(&mut wanted, (0, 1), limits, agreed(minors, limits))?;
        write_limits(
            &mut wanted,
            (1, 0),
            (limits.1, limits.0),
            agreed(minors, limits),
        )?;
        expect_exact(&rt, &made, &wanted, "limits");
    }
    Ok(())
}

/// One goes down some turns after it registered. The other one stays registered.
fn opening_down_text(
    alloc: Global,
    (side, other): (u8, u8),
    turn: u64,
) -> Result<Vec<u8>, AllocError> {
    let mut first = String::new(alloc);
    let mut second = String::new(alloc);
    write!(
        first,
        "register {other} 0 entries 2 limit 16\nidle {turn}\ndeactivate {other}\nidle 300\n"
    )?;
    write!(second, "register {side} 0 entries 2 limit 16\nidle 600\n")?;
    sided(alloc, side, &first, &second, "rounds 800\n")
}

/// One goes down some turns after it began to close.
fn closing_down_text(
    alloc: Global,
    (side, other): (u8, u8),
    turn: u64,
) -> Result<Vec<u8>, AllocError> {
    let mut first = String::new(alloc);
    let mut second = String::new(alloc);
    write!(
        first,
        "register {other} 0 entries 2 limit 16\nconnected {other} 0\nunregister {other} 0\n"
    )?;
    write!(first, "idle {turn}\ndeactivate {other}\nidle 300\n")?;
    write!(
        second,
        "register {side} 0 entries 2 limit 16\nconnected {side} 0\nidle 600\n"
    )?;
    sided(alloc, side, &first, &second, "rounds 800\n")
}

/// The reasons of the one that goes down, and those of the other one.
fn expect_reasons(rt: &impl Abort, report: &str, side: u8, own: [&str; 2], theirs: [&str; 2]) {
    let mut part = u64::MAX;
    for line in report.lines() {
        part = part_from(line, part);
        if line.starts_with("  over ") {
            let is_told = if part == side as u64 {
                line.ends_with(own[0]) || line.ends_with(own[1])
            } else {
                line.ends_with(theirs[0]) || line.ends_with(theirs[1])
            };
            assert!(rt; is_told, "{line}");
        }
    }
}

/// The reason of the other one: the bit of the one that goes down.
fn going_down(side: u8) -> &'static str {
    if side == 0 {
        "other-going-down 1"
    } else {
        "other-going-down 2"
    }
}

#[test]
fn goes_down_at_each_turn_of_an_opening(rt: HostRuntime) -> Result<(), Fail> {
    for sides in SIDES {
        let theirs = [going_down(sides.0), going_down(sides.0)];
        for turn in 1..STEPS {
            let made = replay(&rt, rt.alloc(), opening_down_text(rt.alloc(), sides, turn)?)?;
            expect_promises(&rt, &made.report, "down");
            expect_reasons(
                &rt,
                &made.report,
                sides.0,
                ["unloading", "unloading"],
                theirs,
            );
            assert!(rt; waiting(&made.report, 0) == 0 && waiting(&made.report, 1) == 0);
        }
    }
    Ok(())
}

#[test]
fn goes_down_at_each_turn_of_a_closing(rt: HostRuntime) -> Result<(), Fail> {
    for sides in SIDES {
        let theirs = ["partner-closed 1", going_down(sides.0)];
        for turn in 1..STEPS {
            let made = replay(&rt, rt.alloc(), closing_down_text(rt.alloc(), sides, turn)?)?;
            expect_promises(&rt, &made.report, "down");
            expect_reasons(
                &rt,
                &made.report,
                sides.0,
                ["unregistered", "unloading"],
                theirs,
            );
            assert!(rt; waiting(&made.report, 0) == 0 && waiting(&made.report, 1) == 0);
        }
    }
    Ok(())
}

/// The turns through an opening, three messages and a closing.
const TURNS: u64 = 300;

/// What the sender does in each of its boots, and what the receiver does.
const SENDER: &str = "register 1 0 entries 4 limit 16
connected 1 0
send 1 0 01 notify
send 1 0 02 notify
send 1 0 03 notify
drain 1 0
unregister 1 0
idle 300
";

const RECEIVER: &str = "register 0 0 entries 4 limit 16
connected 0 0
take 0 0
release 0 0 0
take 0 0
release 0 0 1
take 0 0
release 0 0 2
closed 0 0
idle 300
";

fn restart_text(alloc: Global, part: u8, turn: u64) -> Result<Vec<u8>, AllocError> {
    let mut text = String::new(alloc);
    write!(
        text,
        "xpsim 1\npartitions 2\n{CONTACT}restart {part} turn {turn}\n"
    )?;
    write!(
        text,
        "script 0\n{SENDER}script 0\n{SENDER}script 1\n{RECEIVER}script 1\n{RECEIVER}"
    )?;
    write!(text, "schedule\nrounds 3000\n")?;
    Ok(text.into_bytes())
}

/// The reasons of one whose partner boots again, and of one that unregisters or is told so.
fn expect_restarted(rt: &impl Abort, report: &str, part: u8) {
    let own = ["unregistered", "partner-closed 1"];
    expect_promises(rt, report, "restart");
    let (_, boots) = state_of(report, part as u64);
    assert!(rt; boots == 2);
    for line in report.lines() {
        if line.starts_with("  over ") && !line.ends_with("reactivating 1 2") {
            let [one, another] = own;
            assert!(rt; line.ends_with(one) || line.ends_with(another), "{line}");
        }
    }
}

#[test]
fn boots_again_at_each_turn(rt: HostRuntime) -> Result<(), Fail> {
    for part in [0u8, 1] {
        for turn in 0..TURNS {
            let made = replay(&rt, rt.alloc(), restart_text(rt.alloc(), part, turn)?)?;
            expect_restarted(&rt, &made.report, part);
        }
    }
    Ok(())
}

/// All channels of messages open at once between partitions that boot: each carries a message.
const ALL_SCRIPTS: [&str; 2] = [
    "register 1 0 entries 1 limit 16
register 1 2 entries 2 limit 16
register 1 3 entries 4 limit 16
connected 1 0
connected 1 2
connected 1 3
send 1 0 a0
send 1 2 a2
send 1 3 a3
drain 1 0
drain 1 2
drain 1 3
",
    "register 0 3 entries 1 limit 16
register 0 2 entries 1 limit 16
register 0 0 entries 1 limit 16
connected 0 3
connected 0 2
connected 0 0
take 0 3
take 0 2
take 0 0
release 0 3 0
release 0 2 0
release 0 0 0
",
];

const ALL_REPORT: &str = "report 1
partition 0 done boots 1
  1 1 register ok
  1 2 register ok
  1 3 register ok
  1 4 connected ok
  1 5 connected ok
  1 6 connected ok
  1 7 send ok 0
  1 8 send ok 0
  1 9 send ok 0
  1 10 drain ok
  1 11 drain ok
  1 12 drain ok
  link 1 0 epoch 0 own 1.1 partner 1.1 accepted 1 taken 0 acked 0 delivered 0 ended 0
  link 1 2 epoch 0 own 1.1 partner 1.1 accepted 1 taken 0 acked 0 delivered 0 ended 0
  link 1 3 epoch 0 own 1.1 partner 1.1 accepted 1 taken 0 acked 0 delivered 0 ended 0
partition 1 done boots 1
  1 1 register ok
  1 2 register ok
  1 3 register ok
  1 4 connected ok
  1 5 connected ok
  1 6 connected ok
  1 7 take ok 0 1:a3
  1 8 take ok 0 1:a2
  1 9 take ok 0 1:a0
  1 10 release ok 1
  1 11 release ok 1
  1 12 release ok 1
  link 0 0 epoch 0 own 1.1 partner 1.1 accepted 0 taken 1 acked 1 delivered 0 ended 0
  link 0 2 epoch 0 own 1.1 partner 1.1 accepted 0 taken 1 acked 1 delivered 0 ended 0
  link 0 3 epoch 0 own 1.1 partner 1.1 accepted 0 taken 1 acked 1 delivered 0 ended 0
";

#[test]
fn all_channels_open_at_once(rt: HostRuntime) -> Result<(), Fail> {
    let text = pair(rt.alloc(), "", ALL_SCRIPTS, "rounds 4000\n")?;
    expect_exact(&rt, &replay(&rt, rt.alloc(), text)?, ALL_REPORT, "all");
    Ok(())
}

/// One of two channels closes, and the other one goes on.
const ONE_SCRIPTS: [&str; 2] = [
    "send 1 0 aa
unregister 1 2
closed 1 2
send 1 2 cc
send 1 0 bb
drain 1 0
",
    "closed 0 2
take 0 0
take 0 2
release 0 0 0
take 0 0
release 0 0 1
",
];

const ONE_REPORT: &str = "report 1
partition 0 done boots 1
  1 1 send ok 0
  1 2 unregister ok
  1 3 closed unregistered
  1 4 send not-connected
  1 5 send ok 1
  1 6 drain ok
  link 1 0 epoch 0 own 1.1 partner 1.1 accepted 2 taken 0 acked 0 delivered 0 ended 0
  link 1 2 epoch 0 own 1.1 partner 1.1 accepted 0 taken 0 acked 0 delivered 0 ended 0
  over 1 2 epoch 0 own 1.1 partner 1.1 unregistered
partition 1 done boots 1
  1 1 closed partner-closed 1
  1 2 take ok 0 1:aa
  1 3 take not-connected
  1 4 release ok 1
  1 5 take ok 1 1:bb
  1 6 release ok 2
  link 0 0 epoch 0 own 1.1 partner 1.1 accepted 0 taken 2 acked 2 delivered 0 ended 0
  link 0 2 epoch 0 own 1.1 partner 1.1 accepted 0 taken 0 acked 0 delivered 0 ended 0
  over 0 2 epoch 0 own 1.1 partner 1.1 partner-closed 1
";

#[test]
fn one_of_two_channels_closes(rt: HostRuntime) -> Result<(), Fail> {
    let settings = "warm 0 1 0 entries 2 limit 16\nwarm 0 1 2 entries 2 limit 16\n";
    let text = pair(rt.alloc(), settings, ONE_SCRIPTS, "rounds 1000\n")?;
    expect_exact(
        &rt,
        &replay(&rt, rt.alloc(), text)?,
        ONE_REPORT,
        "one of two",
    );
    Ok(())
}

/// How often a channel is opened.
const EPOCHS: u64 = 11;

/// One opens the channel again and again, and closes it behind a second message that nobody takes.
fn reopenings_text(alloc: Global, (side, other): (u8, u8)) -> Result<Vec<u8>, AllocError> {
    let mut first = String::new(alloc);
    let mut second = String::new(alloc);
    write!(second, "register {side} 0 entries 2 limit 16\n")?;
    for epoch in 0..EPOCHS {
        write!(
            first,
            "register {other} 0 entries 2 limit 16\nconnected {other} 0\n"
        )?;
        write!(
            first,
            "send {other} 0 {epoch:02}01\ndrain {other} 0\nsend {other} 0 {epoch:02}02 notify\n"
        )?;
        write!(first, "unregister {other} 0\nclosed {other} 0\n")?;
        write!(
            second,
            "connected {side} 0\ntake {side} 0\nrelease {side} 0 0\nclosed {side} 0\n"
        )?;
    }
    sided(alloc, side, &first, &second, "rounds 4000\n")
}

/// The lines of the commands of one opening, behind so many others.
fn write_opener(text: &mut String, before: u64) -> Result<(), AllocError> {
    let mut number = before;
    for answer in [
        "register ok",
        "connected ok",
        "send ok 0",
        "drain ok",
        "send ok 1",
        "unregister ok",
        "closed unregistered",
    ] {
        number = number.saturating_add(1);
        write!(text, "  1 {number} {answer}\n")?;
    }
    Ok(())
}

/// What the one tells that opens and closes. Of each second message it is told that the connection ended.
fn opener_lines(alloc: Global, side: u8, other: u8) -> Result<String, AllocError> {
    let mut text = String::new(alloc);
    write!(text, "partition {side} done boots 1\n")?;
    for epoch in 0..EPOCHS {
        write_opener(&mut text, epoch.saturating_mul(7))?;
    }
    for epoch in 0..EPOCHS {
        write_link(&mut text, other, epoch, [2, 0, 0, 0, 1])?;
        write_over(&mut text, other, epoch, "unregistered")?;
    }
    write_contact(&mut text, other)?;
    Ok(text)
}

/// The lines of the commands of one opening at the other end.
fn write_taker(text: &mut String, epoch: u64) -> Result<(), AllocError> {
    let mut number = epoch.saturating_mul(4).saturating_add(1);
    for answer in [
        "connected ok",
        "take ok 0 2:",
        "release ok 1",
        "closed partner-closed 1",
    ] {
        number = number.saturating_add(1);
        write!(text, "  1 {number} {answer}")?;
        if answer.ends_with(":") {
            write!(text, "{epoch:02}01")?;
        }
        write!(text, "\n")?;
    }
    Ok(())
}

/// What the other one tells: in each connection it took the first message alone.
fn taker_lines(alloc: Global, side: u8, other: u8) -> Result<String, AllocError> {
    let mut text = String::new(alloc);
    write!(text, "partition {other} done boots 1\n  1 1 register ok\n")?;
    for epoch in 0..EPOCHS {
        write_taker(&mut text, epoch)?;
    }
    for epoch in 0..EPOCHS {
        write_link(&mut text, side, epoch, [0, 1, 1, 0, 0])?;
        write_over(&mut text, side, epoch, "partner-closed 1")?;
    }
    write_contact(&mut text, side)?;
    Ok(text)
}

#[test]
fn opens_ten_times_again(rt: HostRuntime) -> Result<(), Fail> {
    for (side, other) in SIDES {
        let made = replay(&rt, rt.alloc(), reopenings_text(rt.alloc(), (side, other))?)?;
        let first = opener_lines(rt.alloc(), side, other)?;
        let second = taker_lines(rt.alloc(), side, other)?;
        let wanted = sided_report(rt.alloc(), side, &first, &second)?;
        expect_exact(&rt, &made, &wanted, "again and again");
    }
    Ok(())
}
