// Heartbeats and their checks: of a partner that stops, is offline, or boots again.
use crate::replays::{Frame, Told, expect_report, expect_stood_still, moment};
use std::alloc::{AllocError, Global};
use std::test::Fail;

/// The turns at which a partition stops.
const TURNS: u64 = 64;

/// A channel of two entries that opens connected, and checks of heartbeats.
const CHECKED: &str = "warm 0 1 0 entries 2 limit 16\ncheck 4096\n";

/// What no report has where nobody writes into the words.
const BROKEN: [&str; 3] = ["bad-", "halted", "  over"];

/// Both have messages on their way when partition 0 stops. The third send of partition 1 finds no
/// room: nobody releases a message.
const STOPPED: Frame = Frame {
    settings: CHECKED,
    scripts: "script 0
send 1 0 01
send 1 0 02
take 1 0
idle 1000
script 1
send 0 0 11
send 0 0 12
take 0 0 nowait
send 0 0 13
take 0 0
release 0 0 0
",
    schedule: "rounds 64\nturns 1 12000\n",
};

/// What partition 1 says then, before the words of a heartbeat that stood still. The first check of
/// a contact finds any count, so it is the second one that finds the same count again, in a mask
/// that has partition 1 alone.
const STOOD_STILL: [&str; 2] = [
    "  1 4 send disconnecting no-heartbeat",
    "  1 5 take disconnecting no-heartbeat",
];

/// A partner that stops without a word is noticed, whatever it had done.
#[test]
fn stops_at_each_of_its_first_turns(rt: HostRuntime) -> Result<(), Fail> {
    let told = Told {
        has: &[
            "partition 0 stopped boots 1",
            "partition 1 done boots 1",
            "  1 1 send ok 0",
            "  1 2 send ok 1",
            "  1 6 release not-connected",
        ],
        lacks: &BROKEN,
    };
    for turn in 0..TURNS {
        let line = moment(rt.alloc(), "stop", 0, turn)?;
        expect_stood_still(&rt, rt.alloc(), STOPPED, &line, told, &STOOD_STILL)?;
    }
    Ok(())
}

/// Partition 1 waits for a message of its partner, which stops at once.
const SILENT: &str = "script 1\ntake 0 0\n";

/// How many turns lie between two checks, and how many turns partition 1 makes. A check begins so
/// many turns after the last one is over, so two of them, with three loads each, aren't over within
/// twice as many turns and two. Each is over within a window of 1,024 turns after it is due, and
/// the own memory is closed within another one.
const PHASES: [(&str, &str, bool); 6] = [
    ("check 4096", "turns 1 8194\n", false),
    ("check 4096", "turns 1 11264\n", true),
    ("check 4097", "turns 1 8196\n", false),
    ("check 4097", "turns 1 11266\n", true),
    ("check 10000", "turns 1 20002\n", false),
    ("check 10000", "turns 1 23072\n", true),
];

#[test]
fn checks_no_earlier_and_no_later(rt: HostRuntime) -> Result<(), Fail> {
    for (check, schedule, is_noticed) in PHASES {
        let has: &[&str] = if is_noticed {
            &["  1 1 take disconnecting no-heartbeat 1 1 2"]
        } else {
            &["  1 1 take unanswered"]
        };
        let frame = Frame {
            settings: "warm 0 1 0 entries 2 limit 16\nstop 0 turn 0\n",
            scripts: SILENT,
            schedule,
        };
        expect_report(
            &rt,
            rt.alloc(),
            frame,
            check,
            Told {
                has,
                lacks: &BROKEN,
            },
        )?;
    }
    Ok(())
}

/// Without checks nobody notices.
#[test]
fn checks_nothing(rt: HostRuntime) -> Result<(), Fail> {
    let told = Told {
        has: &["partition 0 stopped boots 1", "  1 1 take unanswered"],
        lacks: &BROKEN,
    };
    let frame = Frame {
        settings: "warm 0 1 0 entries 2 limit 16\nstop 0 turn 0\n",
        scripts: SILENT,
        schedule: "turns 1 40000\n",
    };
    for line in ["", "check 0"] {
        expect_report(&rt, rt.alloc(), frame, line, told)?;
    }
    Ok(())
}

/// The script of partition 0: it is offline for some turns, and runs on while partition 1 checks
/// it.
fn offline_for(alloc: Global, turns: u64, rest: u64) -> Result<String, AllocError> {
    let mut line = String::new(alloc);
    write!(line, "script 0\noffline\nidle {turns}\nonline\nidle {rest}")?;
    Ok(line)
}

/// A partner that says it is offline is heard all the same, for less than a check, and for more.
#[test]
fn hears_of_one_that_is_offline(rt: HostRuntime) -> Result<(), Fail> {
    let told = Told {
        has: &[
            "partition 0 done boots 1",
            "  1 1 offline ok",
            "  1 2 idle ok",
            "  1 3 online ok",
            "  1 4 idle ok",
            "partition 1 done boots 1",
            "  1 1 idle ok",
            "  1 2 connected ok",
        ],
        lacks: &["bad-", "halted", "  over", "no-heartbeat"],
    };
    let frame = Frame {
        settings: CHECKED,
        scripts: "script 1\nidle 16000\nconnected 0 0\n",
        schedule: "rounds 30000\n",
    };
    for (turns, rest) in [
        (1u64, 17_000u64),
        (1_000, 16_000),
        (4_096, 13_000),
        (10_000, 7_000),
    ] {
        let line = offline_for(rt.alloc(), turns, rest)?;
        expect_report(&rt, rt.alloc(), frame, &line, told)?;
    }
    Ok(())
}

/// Commands of the offline count, and their answers. Each raises or lowers it by one.
const OFFLINE: Frame = Frame {
    settings: CHECKED,
    scripts: "script 0
online
offline
offline
online
online
online
",
    schedule: "rounds 3000\n",
};

#[test]
fn counts_what_is_offline(rt: HostRuntime) -> Result<(), Fail> {
    let told = Told {
        has: &[
            "  1 1 online not-offline",
            "  1 2 offline ok",
            "  1 3 offline ok",
            "  1 4 online ok",
            "  1 5 online ok",
            "  1 6 online not-offline",
        ],
        lacks: &BROKEN,
    };
    expect_report(&rt, rt.alloc(), OFFLINE, "", told)
}

/// One that stops while it is offline is never missed.
#[test]
fn misses_none_that_is_offline(rt: HostRuntime) -> Result<(), Fail> {
    let told = Told {
        has: &[
            "partition 0 stopped boots 1",
            "  1 1 offline ok",
            "  1 1 take unanswered",
        ],
        lacks: &BROKEN,
    };
    let frame = Frame {
        settings: CHECKED,
        scripts: "script 0\noffline\nidle 1000\nscript 1\ntake 0 0\n",
        schedule: "rounds 300\nturns 1 30000\n",
    };
    expect_report(&rt, rt.alloc(), frame, "stop 0 turn 300", told)
}

/// Partition 0 boots again between two checks of its partner. Its heartbeat begins anew, but the
/// next look at its page finds another boot.
#[test]
fn boots_again_between_two_checks(rt: HostRuntime) -> Result<(), Fail> {
    let told = Told {
        has: &[
            "partition 0 done boots 2",
            "  2 1 idle ok",
            "  1 1 closed reactivating 1 2",
            "  over 0 0 epoch 0 own 1.1 partner 1.1 reactivating 1 2",
        ],
        lacks: &["bad-", "halted", "no-heartbeat"],
    };
    let frame = Frame {
        settings: CHECKED,
        scripts: "script 0\nidle 20000\nscript 0\nidle 20000\nscript 1\nclosed 0 0\n",
        schedule: "rounds 30000\n",
    };
    for line in ["restart 0 turn 300", "restart 0 turn 6000"] {
        expect_report(&rt, rt.alloc(), frame, line, told)?;
    }
    Ok(())
}
