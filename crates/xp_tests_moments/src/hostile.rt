// Three scenarios of two partitions, of which one stops or boots again at each of its turns, or a load of its copies fails.
use crate::replays::{Replayed, failure, moment, replay};
use crate::reports::{expect_promises, state_of, waiting};
use crate::words::has_engaged;
use std::alloc::{AllocError, Global};
use std::process::Abort;
use std::test::Fail;

/// Two partitions that do the same in each boot, but for how its first boot begins.
#[derive(Clone, Copy)]
struct Base {
    settings: &'static str,
    /// What the first boot of each begins with.
    first: [&'static str; 2],
    /// What a later boot of each begins with.
    again: [&'static str; 2],
    /// What each does then.
    scripts: [&'static str; 2],
}

/// A channel that opens connected, whose queues have one entry of two lines: a copy of an entry has 32 loads. Each partition sends three
/// messages. The second one finds its queue full until the first one is released, and loads get meanwhile.
const WARM: Base = Base {
    settings: "minor 0 2\nminor 1 2\nwarm 0 1 0 entries 1 limit 240\n",
    first: ["", ""],
    again: [
        "register 1 0 entries 1 limit 240\nconnected 1 0\n",
        "register 0 0 entries 1 limit 240\nconnected 0 0\n",
    ],
    scripts: [
        "send 1 0 0001 notify
send 1 0 0002 notify
send 1 0 0003 notify
take 1 0
release 1 0 0
take 1 0
release 1 0 1
take 1 0
release 1 0 2
drain 1 0
idle 2600
deactivate 1
idle 300
",
        "take 0 0
release 0 0 0
take 0 0
release 0 0 1
take 0 0
release 0 0 2
send 0 0 0101 notify
send 0 0 0102 notify
send 0 0 0103 notify
drain 0 0
idle 2600
deactivate 0
idle 300
",
    ],
};

/// Partitions that boot first, and send three messages each way by turns: a copy of entries has one entry of one line.
const COLD: Base = Base {
    settings: "",
    first: COLD_OPENINGS,
    again: COLD_OPENINGS,
    scripts: [
        "send 1 0 0001 notify
take 1 0
release 1 0 0
send 1 0 0002 notify
take 1 0
release 1 0 1
send 1 0 0003 notify
take 1 0
release 1 0 2
drain 1 0
idle 2600
deactivate 1
idle 300
",
        "take 0 0
release 0 0 0
send 0 0 0101 notify
take 0 0
release 0 0 1
send 0 0 0102 notify
take 0 0
release 0 0 2
send 0 0 0103 notify
drain 0 0
idle 2600
deactivate 0
idle 300
",
    ],
};

const COLD_OPENINGS: [&str; 2] = [
    "register 1 0 entries 2 limit 112\nconnected 1 0\n",
    "register 0 0 entries 2 limit 112\nconnected 0 0\n",
];

/// Partition 0 goes down and makes contact again.
const AGAIN: Base = Base {
    settings: "warm 0 1 0 entries 2 limit 112\n",
    first: ["", ""],
    again: [
        "register 1 0 entries 2 limit 112\n",
        "register 0 0 entries 2 limit 112\n",
    ],
    scripts: [
        "send 1 0 0001 notify
drain 1 0
deactivate 1
idle 200
activate 1
connected 1 0
send 1 0 0002 notify
drain 1 0
send 1 0 0003 notify
drain 1 0
idle 2600
deactivate 1
idle 300
",
        "take 0 0
release 0 0 0
idle 600
connected 0 0
take 0 0
release 0 0 0
take 0 0
release 0 0 1
idle 2600
deactivate 0
idle 300
",
    ],
};

/// Both boots of a partition.
fn write_scripts(text: &mut String, base: Base, part: usize) -> Result<(), AllocError> {
    let first = base.first.get(part).copied().unwrap_or("");
    let again = base.again.get(part).copied().unwrap_or("");
    let script = base.scripts.get(part).copied().unwrap_or("");
    write!(text, "script {part}\n{first}{script}")?;
    write!(text, "script {part}\n{again}{script}")
}

/// The text of a scenario with a line of its own.
fn text_of(alloc: Global, base: Base, own: &str) -> Result<Vec<u8>, AllocError> {
    let mut text = String::new(alloc);
    let settings = base.settings;
    write!(text, "xpsim 1\npartitions 2\n{settings}{own}\n")?;
    write_scripts(&mut text, base, 0)?;
    write_scripts(&mut text, base, 1)?;
    write!(text, "schedule\nrounds 12000\n")?;
    Ok(text.into_bytes())
}

fn replay_base(rt: &impl Abort, alloc: Global, base: Base, own: &str) -> Result<Replayed, Fail> {
    replay(rt, alloc, text_of(alloc, base, own)?)
}

/// Expects that a partition has answered each command that it began, and has ended.
fn expect_answered(rt: &impl Abort, report: &str, part: u64, own: &str) {
    let (state, _) = state_of(report, part);
    assert!(rt; waiting(report, part) == 0, "{own}: waits");
    assert!(rt; state == "done", "{own}: not done");
}

/// A partition stops at a turn. The other one waits in one command at most, and has ended where it waits in none.
fn expect_stop(
    rt: &impl Abort,
    alloc: Global,
    base: Base,
    part: u8,
    turn: u64,
) -> Result<(), Fail> {
    let own = moment(alloc, "stop", part, turn)?;
    let made = replay_base(rt, alloc, base, &own)?;
    let other = if part == 0 { 1 } else { 0 };
    expect_promises(rt, &made.report, &own);
    let (state, boots) = state_of(&made.report, part as u64);
    assert!(rt; state == "stopped" && boots == 1, "{own}");
    let unanswered = waiting(&made.report, other);
    let wanted = if unanswered == 0 { "done" } else { "running" };
    let (state, _) = state_of(&made.report, other);
    assert!(rt; state == wanted && unanswered <= 1, "{own}");
    Ok(())
}

/// A partition boots again at a turn. The other one answers each command that it began.
fn expect_restart(
    rt: &impl Abort,
    alloc: Global,
    base: Base,
    part: u8,
    turn: u64,
) -> Result<(), Fail> {
    let own = moment(alloc, "restart", part, turn)?;
    let made = replay_base(rt, alloc, base, &own)?;
    let other = if part == 0 { 1 } else { 0 };
    expect_promises(rt, &made.report, &own);
    let (_, boots) = state_of(&made.report, part as u64);
    assert!(rt; boots == 2, "{own}");
    expect_answered(rt, &made.report, other, &own);
    Ok(())
}

/// The turns of a boot at which a partition stops or boots again.
const TURNS: u64 = 256;

/// The first turns of each partition.
const FIRST: [u64; 2] = [0, 0];

/// In the third scenario partition 0 clears its engagement bit in its turn 54 and partition 1 in its turn 66. The back-off is 2,048 turns.
const BACK: [u64; 2] = [54 + 2_048, 66 + 2_048];

fn expect_stops(rt: &impl Abort, alloc: Global, base: Base, from: [u64; 2]) -> Result<(), Fail> {
    let mut part = 0u8;
    for first in from {
        for turn in 0..TURNS {
            expect_stop(rt, alloc, base, part, first.saturating_add(turn))?;
        }
        part = 1;
    }
    Ok(())
}

fn expect_restarts(rt: &impl Abort, alloc: Global, base: Base, from: [u64; 2]) -> Result<(), Fail> {
    let mut part = 0u8;
    for first in from {
        for turn in 0..TURNS {
            expect_restart(rt, alloc, base, part, first.saturating_add(turn))?;
        }
        part = 1;
    }
    Ok(())
}

/// Whether the bit of a partition that stops at a turn stands at the other one.
fn is_engaged(rt: &impl Abort, alloc: Global, part: u8, turn: u64) -> Result<bool, Fail> {
    let own = moment(alloc, "stop", part, turn)?;
    let made = replay_base(rt, alloc, AGAIN, &own)?;
    let other = if part == 0 { 1 } else { 0 };
    Ok(match &made.end {
        Some(world) => has_engaged(world, other, part),
        None => false,
    })
}

/// From the end of the back-off on each partition sets its bit again in one of these turns.
#[test]
fn comes_back_in_these_turns(rt: HostRuntime) -> Result<(), Fail> {
    for (part, first) in [(0u8, BACK[0]), (1, BACK[1])] {
        let before = is_engaged(&rt, rt.alloc(), part, first)?;
        let after = is_engaged(&rt, rt.alloc(), part, first.saturating_add(TURNS))?;
        assert!(rt; !before && after);
    }
    Ok(())
}

#[test]
fn stops_in_a_warm_scenario(rt: HostRuntime) -> Result<(), Fail> {
    expect_stops(&rt, rt.alloc(), WARM, FIRST)
}

#[test]
fn stops_in_a_cold_scenario(rt: HostRuntime) -> Result<(), Fail> {
    expect_stops(&rt, rt.alloc(), COLD, FIRST)
}

#[test]
fn stops_before_going_down(rt: HostRuntime) -> Result<(), Fail> {
    expect_stops(&rt, rt.alloc(), AGAIN, FIRST)
}

#[test]
fn stops_when_back(rt: HostRuntime) -> Result<(), Fail> {
    expect_stops(&rt, rt.alloc(), AGAIN, BACK)
}

#[test]
fn restarts_in_a_warm_scenario(rt: HostRuntime) -> Result<(), Fail> {
    expect_restarts(&rt, rt.alloc(), WARM, FIRST)
}

#[test]
fn restarts_in_a_cold_scenario(rt: HostRuntime) -> Result<(), Fail> {
    expect_restarts(&rt, rt.alloc(), COLD, FIRST)
}

#[test]
fn restarts_before_going_down(rt: HostRuntime) -> Result<(), Fail> {
    expect_restarts(&rt, rt.alloc(), AGAIN, FIRST)
}

#[test]
fn restarts_when_back(rt: HostRuntime) -> Result<(), Fail> {
    expect_restarts(&rt, rt.alloc(), AGAIN, BACK)
}

/// The copies of a kind: how many loads one may have, and how many each of the first three has in a scenario, 0 where it isn't made.
type Copies = (&'static str, u64, [u64; 3]);

/// A load of a copy fails, where the copy is made and has this load. The other partition answers each command that it began.
fn expect_failure(
    rt: &impl Abort,
    alloc: Global,
    base: Base,
    part: u8,
    own: &str,
    reached: bool,
) -> Result<(), Fail> {
    let made = replay_base(rt, alloc, base, own)?;
    let other = if part == 0 { 1 } else { 0 };
    let failures = if reached { 1 } else { 0 };
    expect_promises(rt, &made.report, own);
    assert!(rt; made.failures() == failures, "{own}: reached");
    expect_answered(rt, &made.report, other, own);
    Ok(())
}

/// Each load of the first three copies of a kind fails in a scenario of its own.
fn expect_kind(
    rt: &impl Abort,
    alloc: Global,
    base: Base,
    part: u8,
    copies: Copies,
) -> Result<(), Fail> {
    let (kind, loads, made) = copies;
    let mut copy: u64 = 0;
    for reached in made {
        copy = copy.saturating_add(1);
        for load in 0..loads {
            let own = failure(alloc, part, kind, copy, load)?;
            expect_failure(rt, alloc, base, part, &own, load < reached)?;
        }
    }
    Ok(())
}

fn expect_failures(
    rt: &impl Abort,
    alloc: Global,
    base: Base,
    part: u8,
    kinds: [Copies; 5],
) -> Result<(), Fail> {
    for copies in kinds {
        expect_kind(rt, alloc, base, part, copies)?;
    }
    Ok(())
}

/// A warm scenario has no contact to make, so no record is copied. Each look has its five loads and each copy of the counters its two; a
/// copy of get has one, and each run is the one entry of two lines that a queue holds.
const WARM_COPIES: [Copies; 5] = [
    ("page", 5, [5, 5, 5]),
    ("record", 8, [0, 0, 0]),
    ("counters", 2, [2, 2, 2]),
    ("get", 1, [1, 1, 1]),
    ("entries", 32, [32, 32, 32]),
];

#[test]
fn copies_of_0_fail_in_a_warm_scenario(rt: HostRuntime) -> Result<(), Fail> {
    expect_failures(&rt, rt.alloc(), WARM, 0, WARM_COPIES)
}

#[test]
fn copies_of_1_fail_in_a_warm_scenario(rt: HostRuntime) -> Result<(), Fail> {
    expect_failures(&rt, rt.alloc(), WARM, 1, WARM_COPIES)
}

/// Partitions that boot copy each other's record twice: once for its session, and once with the own session as echo. Queues are never
/// full, and each run is one entry of one line.
const COLD_COPIES: [Copies; 5] = [
    ("page", 5, [5, 5, 5]),
    ("record", 8, [8, 8, 0]),
    ("counters", 2, [2, 2, 2]),
    ("get", 1, [0, 0, 0]),
    ("entries", 32, [16, 16, 16]),
];

#[test]
fn copies_of_0_fail_in_a_cold_scenario(rt: HostRuntime) -> Result<(), Fail> {
    expect_failures(&rt, rt.alloc(), COLD, 0, COLD_COPIES)
}

#[test]
fn copies_of_1_fail_in_a_cold_scenario(rt: HostRuntime) -> Result<(), Fail> {
    expect_failures(&rt, rt.alloc(), COLD, 1, COLD_COPIES)
}

/// Partition 0 takes nothing. It goes down in the turn behind the load of get that answers its drain, so its first copy of the counters
/// has one load. It comes back first, and copies a record once more that doesn't show its new session yet.
const BACK_COPIES_OF_0: [Copies; 5] = [
    ("page", 5, [5, 5, 5]),
    ("record", 8, [8, 8, 8]),
    ("counters", 2, [1, 2, 2]),
    ("get", 1, [0, 0, 0]),
    ("entries", 32, [0, 0, 0]),
];

#[test]
fn copies_of_0_fail_behind_going_down(rt: HostRuntime) -> Result<(), Fail> {
    expect_failures(&rt, rt.alloc(), AGAIN, 0, BACK_COPIES_OF_0)
}

/// Partition 1 takes three messages, each of which is a run by itself since its sender drains before the next one.
const BACK_COPIES_OF_1: [Copies; 5] = [
    ("page", 5, [5, 5, 5]),
    ("record", 8, [8, 8, 0]),
    ("counters", 2, [2, 2, 2]),
    ("get", 1, [0, 0, 0]),
    ("entries", 32, [16, 16, 16]),
];

#[test]
fn copies_of_1_fail_behind_going_down(rt: HostRuntime) -> Result<(), Fail> {
    expect_failures(&rt, rt.alloc(), AGAIN, 1, BACK_COPIES_OF_1)
}
