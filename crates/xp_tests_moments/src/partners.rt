// Tables of partners that come, go and come again: their reports, and the words that they leave.
use crate::replays::{Replayed, expect_exact, pair, replay};
use crate::reports::{expect_promises, has_line, refusals, waiting};
use crate::words::{expect_contact, has_engaged, record_of, session, word_at};
use std::alloc::{AllocError, Global};
use std::process::Abort;
use std::test::Fail;
use xp_base::layout::{ENGAGED, SECOND, STAMP};

/// How many partitions boot, for how many turns each waits then, and how many rounds there are.
const COLD: [(u8, u64, u64); 3] = [(2, 3_000, 4_000), (8, 6_000, 8_000), (64, 30_000, 40_000)];

/// Partitions that boot and do nothing else by themselves but wait.
fn cold_text(alloc: Global, count: u8, turns: u64, rounds: u64) -> Result<Vec<u8>, AllocError> {
    let mut text = String::new(alloc);
    write!(text, "xpsim 1\npartitions {count}\n")?;
    for part in 0..count {
        write!(text, "script {part}\nidle {turns}\n")?;
    }
    write!(text, "schedule\nrounds {rounds}\n")?;
    Ok(text.into_bytes())
}

/// The report of partitions of which each has these lines.
fn like_report(alloc: Global, count: u8, lines: &str) -> Result<String, AllocError> {
    let mut text = String::new(alloc);
    write!(text, "report 1\n")?;
    for part in 0..count {
        write!(text, "partition {part} done boots 1\n{lines}")?;
    }
    Ok(text)
}

/// Expects that each of two partitions or more is in contact with each other one.
fn expect_contacts(rt: &impl Abort, made: &Replayed, count: u8) {
    match &made.end {
        Some(world) => {
            for part in 0..count {
                for partner in 0..part {
                    expect_contact(rt, world, part, partner, "cold");
                }
            }
        }
        None => assert!(rt; false, "no world"),
    }
}

#[test]
fn cold_partitions_come_into_contact(rt: HostRuntime) -> Result<(), Fail> {
    for (count, turns, rounds) in COLD {
        let made = replay(
            &rt,
            rt.alloc(),
            cold_text(rt.alloc(), count, turns, rounds)?,
        )?;
        let wanted = like_report(rt.alloc(), count, "  1 1 idle ok\n")?;
        expect_exact(&rt, &made, &wanted, "cold");
        expect_contacts(&rt, &made, count);
    }
    Ok(())
}

/// How often the partner boots, and the boot behind the last one.
const BOOTS: u64 = 6;

const BOOTS_END: u64 = BOOTS + 1;

/// Partition 0 takes a message of each boot of its partner, and sees it boot again.
fn boots_text(alloc: Global) -> Result<Vec<u8>, AllocError> {
    let mut zero = String::new(alloc);
    let mut one = String::new(alloc);
    let mut settings = String::new(alloc);
    write!(zero, "register 1 0 entries 2 limit 16\n")?;
    for boot in 1..BOOTS_END {
        let end = if boot == BOOTS { "" } else { "closed 1 0\n" };
        write!(zero, "connected 1 0\ntake 1 0\n{end}")?;
        let script = if boot == 1 { "" } else { "script 1\n" };
        write!(
            one,
            "{script}register 0 0 entries 2 limit 16\nconnected 0 0\nsend 0 0 0{boot}\nidle 3500\n"
        )?;
    }
    for boot in 1..BOOTS {
        let turn = boot.saturating_mul(3_000);
        write!(settings, "restart 1 turn {turn}\n")?;
    }
    pair(alloc, &settings, [&zero, &one], "rounds 24000\n")
}

/// What partition 0 tells of its partner's boots: of each but the last one it saw the next one's stamp.
fn write_seen(text: &mut String) -> Result<(), AllocError> {
    let mut number: u64 = 1;
    write!(text, "partition 0 done boots 1\n  1 1 register ok\n")?;
    for boot in 1..BOOTS_END {
        number = number.saturating_add(3);
        let (first, second) = (number.saturating_sub(2), number.saturating_sub(1));
        let next = boot.saturating_add(1);
        write!(
            text,
            "  1 {first} connected ok\n  1 {second} take ok 0 1:0{boot}\n"
        )?;
        if boot < BOOTS {
            write!(text, "  1 {number} closed reactivating {boot} {next}\n")?;
        }
    }
    for boot in 1..BOOTS_END {
        let (name, next) = ("1 0 epoch 0 own 1.", boot.saturating_add(1));
        write!(
            text,
            "  link {name}{boot} partner {boot}.1 accepted 0 taken 1 acked 0 delivered 0 ended 0\n"
        )?;
        if boot < BOOTS {
            write!(
                text,
                "  over {name}{boot} partner {boot}.1 reactivating {boot} {next}\n"
            )?;
        }
    }
    Ok(())
}

/// What partition 1 tells: in each boot but the last one it still waited. A connection that a restart ends isn't told as over.
fn write_boots(text: &mut String) -> Result<(), AllocError> {
    write!(text, "partition 1 done boots {BOOTS}\n")?;
    for boot in 1..BOOTS_END {
        let idle = if boot == BOOTS { "ok" } else { "unanswered" };
        write!(text, "  {boot} 1 register ok\n  {boot} 2 connected ok\n")?;
        write!(text, "  {boot} 3 send ok 0\n  {boot} 4 idle {idle}\n")?;
    }
    for boot in 1..BOOTS_END {
        write!(
            text,
            "  link 0 0 epoch 0 own {boot}.1 partner 1.{boot} accepted 1 taken 0 acked 0 delivered 0 ended 0\n"
        )?;
    }
    Ok(())
}

/// The words of both after all boots: the last session of each, and the other's as echo.
fn expect_last_boot(rt: &impl Abort, made: &Replayed) {
    match &made.end {
        Some(world) => {
            expect_contact(rt, world, 0, 1, "boots");
            assert!(rt; record_of(world, 0, 1).session == session(1, BOOTS));
            assert!(rt; record_of(world, 1, 0).session == session(BOOTS, 1));
        }
        None => assert!(rt; false, "no world"),
    }
}

#[test]
fn boots_five_times_again(rt: HostRuntime) -> Result<(), Fail> {
    let made = replay(&rt, rt.alloc(), boots_text(rt.alloc())?)?;
    let mut wanted = String::new(rt.alloc());
    write!(wanted, "report 1\n")?;
    write_seen(&mut wanted)?;
    write_boots(&mut wanted)?;
    expect_exact(&rt, &made, &wanted, "boots");
    expect_last_boot(&rt, &made);
    Ok(())
}

/// The turns at which both partitions boot again.
const TOGETHER: [u64; 12] = [0, 1, 3, 6, 20, 43, 64, 80, 100, 130, 170, 300];

/// Both boot again after the same turn, and meet in their second boots.
fn together_text(alloc: Global, turn: u64) -> Result<Vec<u8>, AllocError> {
    let mut settings = String::new(alloc);
    write!(settings, "restart 0 turn {turn}\nrestart 1 turn {turn}\n")?;
    pair(alloc, &settings, TOGETHER_SCRIPTS, "rounds 6000\n")
}

/// The scripts of both boots.
const TOGETHER_SCRIPTS: [&str; 2] = [
    "register 1 0 entries 2 limit 16
connected 1 0
send 1 0 01
idle 5000
script 0
register 1 0 entries 2 limit 16
connected 1 0
send 1 0 02
drain 1 0
idle 300
",
    "register 0 0 entries 2 limit 16
connected 0 0
take 0 0
idle 5000
script 1
register 0 0 entries 2 limit 16
connected 0 0
take 0 0
release 0 0 0
idle 300
",
];

/// What both tell of their second boots.
const TOGETHER_LINES: [&str; 10] = [
    "partition 0 done boots 2",
    "  2 2 connected ok",
    "  2 3 send ok 0",
    "  2 4 drain ok",
    "  2 5 idle ok",
    "partition 1 done boots 2",
    "  2 1 register ok",
    "  2 3 take ok 0 1:02",
    "  2 4 release ok 1",
    "  2 5 idle ok",
];

/// The steps of a boot, of which the last one writes the stamp.
const BOOT_STEPS: u64 = 6;

fn expect_together(rt: &impl Abort, made: &Replayed, turn: u64) {
    let name = "at once";
    let stamp = if turn < BOOT_STEPS { 1 } else { 2 };
    expect_promises(rt, &made.report, name);
    for line in TOGETHER_LINES {
        assert!(rt; has_line(&made.report, line), "{name}: no {line}");
    }
    match &made.end {
        Some(world) => {
            expect_contact(rt, world, 0, 1, name);
            assert!(rt; word_at(world, 0, STAMP) == stamp && word_at(world, 1, STAMP) == stamp);
        }
        None => assert!(rt; false, "no world"),
    }
}

#[test]
fn both_boot_again_at_once(rt: HostRuntime) -> Result<(), Fail> {
    for turn in TOGETHER {
        let made = replay(&rt, rt.alloc(), together_text(rt.alloc(), turn)?)?;
        expect_together(&rt, &made, turn);
    }
    Ok(())
}

/// The turns at which partition 0 deactivates its partner, in each state of the engagement.
const STATES: u64 = 160;

/// Partition 0 deactivates its partner after some turns, and wants it again after more.
fn wanted_text(alloc: Global, first: u64, second: u64) -> Result<Vec<u8>, AllocError> {
    let mut zero = String::new(alloc);
    write!(
        zero,
        "idle {first}\ndeactivate 1\nidle {second}\nactivate 1\nidle 3000\n"
    )?;
    pair(alloc, "", [&zero, "idle 7000\n"], "rounds 8000\n")
}

const WANTED_REPORT: &str = "report 1
partition 0 done boots 1
  1 1 idle ok
  1 2 deactivate ok
  1 3 idle ok
  1 4 activate ok
  1 5 idle ok
partition 1 done boots 1
  1 1 idle ok
";

fn expect_wanted(rt: &impl Abort, alloc: Global, first: u64, second: u64) -> Result<(), Fail> {
    let made = replay(rt, alloc, wanted_text(alloc, first, second)?)?;
    expect_exact(rt, &made, WANTED_REPORT, "wanted");
    match &made.end {
        Some(world) => expect_contact(rt, world, 0, 1, "wanted"),
        None => assert!(rt; false, "no world"),
    }
    Ok(())
}

#[test]
fn deactivates_in_each_state(rt: HostRuntime) -> Result<(), Fail> {
    for turn in 1..STATES {
        expect_wanted(&rt, rt.alloc(), turn, 1)?;
    }
    Ok(())
}

#[test]
fn activates_in_each_state(rt: HostRuntime) -> Result<(), Fail> {
    for turn in 1..STATES {
        expect_wanted(&rt, rt.alloc(), 400, turn)?;
    }
    Ok(())
}

/// A partner that isn't wanted again finds no magic and no bit, whenever it was deactivated.
fn expect_unwanted(rt: &impl Abort, made: &Replayed) {
    match &made.end {
        Some(world) => {
            assert!(rt; record_of(world, 0, 1).magic == 0);
            assert!(rt; !has_engaged(world, 1, 0));
        }
        None => assert!(rt; false, "no world"),
    }
}

#[test]
fn stays_apart(rt: HostRuntime) -> Result<(), Fail> {
    for turn in 1..STATES {
        let mut zero = String::new(rt.alloc());
        write!(zero, "idle {turn}\ndeactivate 1\nidle 500\n")?;
        let text = pair(rt.alloc(), "", [&zero, "idle 800\n"], "rounds 1000\n")?;
        let made = replay(&rt, rt.alloc(), text)?;
        expect_unwanted(&rt, &made);
    }
    Ok(())
}

/// How many partitions leave.
const LEAVING: u8 = 8;

fn leave_text(alloc: Global) -> Result<Vec<u8>, AllocError> {
    let mut text = String::new(alloc);
    write!(text, "xpsim 1\npartitions {LEAVING}\n")?;
    for part in 0..LEAVING {
        write!(text, "script {part}\nidle 3000\nleave\nidle 1000\n")?;
    }
    write!(text, "schedule\nrounds 6000\n")?;
    Ok(text.into_bytes())
}

/// Expects that no partition shows a magic to another one, and none is engaged.
fn expect_left(rt: &impl Abort, made: &Replayed) {
    match &made.end {
        Some(world) => {
            for part in 0..LEAVING {
                assert!(rt; word_at(world, part, ENGAGED) == 0, "{part} is engaged");
                for partner in 0..LEAVING {
                    assert!(rt;
                        record_of(world, part, partner).magic == 0,
                        "{part}, {partner}"
                    );
                }
            }
        }
        None => assert!(rt; false, "no world"),
    }
}

#[test]
fn all_of_eight_leave(rt: HostRuntime) -> Result<(), Fail> {
    let made = replay(&rt, rt.alloc(), leave_text(rt.alloc())?)?;
    let lines = "  1 1 idle ok\n  1 2 leave ok\n  1 3 idle ok\n";
    expect_exact(
        &rt,
        &made,
        &like_report(rt.alloc(), LEAVING, lines)?,
        "leave",
    );
    expect_left(&rt, &made);
    Ok(())
}

/// Partition 1 stops while it is engaged, so partition 0 never has its memory back.
const KEPT_REPORT: &str = "report 1
partition 0 running boots 1
  1 1 idle ok
  1 2 leave unanswered
  link 1 0 epoch 0 own 1.1 partner 1.1 accepted 0 taken 0 acked 0 delivered 0 ended 0
partition 1 stopped boots 1
  1 1 idle unanswered
  link 0 0 epoch 0 own 1.1 partner 1.1 accepted 0 taken 0 acked 0 delivered 0 ended 0
";

/// The memory of partition 0 is closed and its bit is clear, and that of partition 1 stands for ever.
fn expect_kept(rt: &impl Abort, made: &Replayed) {
    match &made.end {
        Some(world) => {
            assert!(rt; record_of(world, 0, 1).magic == 0);
            assert!(rt; record_of(world, 1, 0).magic == SECOND);
            assert!(rt; has_engaged(world, 0, 1) && !has_engaged(world, 1, 0));
        }
        None => assert!(rt; false, "no world"),
    }
}

#[test]
fn a_stopped_partner_keeps_the_memory(rt: HostRuntime) -> Result<(), Fail> {
    let settings = "warm 0 1 0 entries 2 limit 16\nstop 1 turn 300\n";
    let scripts = ["idle 600\nleave\n", "idle 20000\n"];
    let text = pair(rt.alloc(), settings, scripts, "rounds 10000\n")?;
    let made = replay(&rt, rt.alloc(), text)?;
    expect_exact(&rt, &made, KEPT_REPORT, "kept");
    expect_kept(&rt, &made);
    Ok(())
}

/// The turns after which a partner goes down while messages are on their way.
const STAGES: u64 = 300;

/// A queue of one entry of eight lines: a message is 128 words to be stored, and as many to be copied.
const LONG: &str = "minor 0 2\nminor 1 2\nwarm 0 1 0 entries 1 limit 1008\n";

/// Partition 0 sends a message and one more that finds its queue full, and partition 1, which takes nothing, goes down.
fn sent_text(alloc: Global, turn: u64) -> Result<Vec<u8>, AllocError> {
    let mut zero = String::new(alloc);
    let mut one = String::new(alloc);
    write!(
        zero,
        "send 1 0 900*61 notify\nsend 1 0 900*62 notify\ndrain 1 0\nidle 300\n"
    )?;
    write!(one, "idle {turn}\ndeactivate 0\nidle 300\n")?;
    pair(alloc, LONG, [&zero, &one], "rounds 1500\n")
}

/// Partition 0 goes down behind a message, which partition 1 takes and releases.
fn taken_text(alloc: Global, turn: u64) -> Result<Vec<u8>, AllocError> {
    let mut zero = String::new(alloc);
    let mut one = String::new(alloc);
    write!(
        zero,
        "send 1 0 900*61 notify\nidle {turn}\ndeactivate 1\nidle 300\n"
    )?;
    write!(one, "take 0 0\nrelease 0 0 0\ntake 0 0\nidle 300\n")?;
    pair(alloc, LONG, [&zero, &one], "rounds 1500\n")
}

/// Expects that one partition went down by itself and the other one was told, and that the other one's commands were answered so, the
/// first ones well and all later ones by that reason.
fn expect_told(rt: &impl Abort, made: &Replayed, overs: [&str; 2], refused: [&str; 2], name: &str) {
    expect_promises(rt, &made.report, name);
    for line in overs {
        assert!(rt; has_line(&made.report, line), "{name}: no {line}");
    }
    assert!(rt;
        waiting(&made.report, 0) == 0 && waiting(&made.report, 1) == 0,
        "{name}"
    );
    assert!(rt; refusals(&made.report, refused), "{name}: {}", made.report);
}

#[test]
fn goes_down_in_each_stage_of_sending(rt: HostRuntime) -> Result<(), Fail> {
    let overs = [
        "  over 1 0 epoch 0 own 1.1 partner 1.1 other-going-down 2",
        "  over 0 0 epoch 0 own 1.1 partner 1.1 unloading",
    ];
    let refused = ["disconnecting other-going-down 2", "not-connected"];
    for turn in 1..STAGES {
        let made = replay(&rt, rt.alloc(), sent_text(rt.alloc(), turn)?)?;
        expect_told(&rt, &made, overs, refused, "sending");
    }
    Ok(())
}

#[test]
fn goes_down_in_each_stage_of_taking(rt: HostRuntime) -> Result<(), Fail> {
    let overs = [
        "  over 1 0 epoch 0 own 1.1 partner 1.1 unloading",
        "  over 0 0 epoch 0 own 1.1 partner 1.1 other-going-down 1",
    ];
    let refused = ["disconnecting other-going-down 1", "not-connected"];
    for turn in 1..STAGES {
        let made = replay(&rt, rt.alloc(), taken_text(rt.alloc(), turn)?)?;
        expect_told(&rt, &made, overs, refused, "taking");
    }
    Ok(())
}
