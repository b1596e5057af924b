// Copies that fail at each of their loads.
use crate::replays::{Frame, Told, expect_report, failure};
use std::test::Fail;

/// A channel of two entries that opens connected.
const JOINED: &str = "warm 0 1 0 entries 2 limit 16\n";

/// Partition 0 puts two messages, and has ended before partition 1 looks.
const ENDED: &str = "turns 0 2048\nturns 1 8192\n";

/// Partition 1 copies both messages in one run of 32 words.
const RUN: Frame = Frame {
    settings: JOINED,
    scripts: "script 0
send 1 0 01
send 1 0 02
script 1
take 0 0
",
    schedule: ENDED,
};

/// Partition 1 takes when two windows are over: in the first it has looked at its partner's page,
/// and in the second it has deactivated the partner where that failed.
const LATE: Frame = Frame {
    settings: JOINED,
    scripts: "script 0
send 1 0 01
send 1 0 02
script 1
idle 2048
take 0 0
",
    schedule: ENDED,
};

/// Partition 1 checks the heartbeat of its partner, which has ended, and then takes. In the window
/// after the check it has deactivated the partner where a load of the check failed.
const CHECKED: Frame = Frame {
    settings: "warm 0 1 0 entries 2 limit 16\ncheck 4096\n",
    scripts: "script 0
send 1 0 01
send 1 0 02
script 1
idle 6144
take 0 0
",
    schedule: ENDED,
};

/// Partition 0 puts three messages into a queue of two, so its third send loads get.
const FULL: Frame = Frame {
    settings: JOINED,
    scripts: "script 0
send 1 0 01
send 1 0 02
send 1 0 03
",
    schedule: "turns 0 8192\n",
};

/// Scenarios, kinds of copies, how many loads one has, and what the take answers where one of them
/// fails.
const KINDS: [(Frame, &str, u64, &str); 4] = [
    (
        LATE,
        "page",
        5,
        "  1 2 take disconnecting copy-error page 1",
    ),
    (
        CHECKED,
        "beat",
        3,
        "  1 2 take disconnecting copy-error beat 1",
    ),
    (
        RUN,
        "counters",
        2,
        "  1 1 take disconnecting copy-error counters 1",
    ),
    (
        RUN,
        "entries",
        32,
        "  1 1 take disconnecting copy-error entries 1",
    ),
];

/// What a report says where the take has this answer: both messages were put, and none was taken.
fn untaken(answer: &'static str) -> [&'static str; 6] {
    [
        answer,
        "partition 0 done boots 1",
        "  1 2 send ok 1",
        "  link 1 0 epoch 0 own 1.1 partner 1.1 accepted 2 taken 0 acked 0 delivered 0 ended 0",
        "partition 1 done boots 1",
        "  link 0 0 epoch 0 own 1.1 partner 1.1 accepted 0 taken 0 acked 0 delivered 0 ended 0",
    ]
}

/// Whichever load of a copy fails: nothing of it is known, its partner is deactivated for it, and
/// the partner, which has ended, stays.
#[test]
fn fails_at_each_load(rt: HostRuntime) -> Result<(), Fail> {
    for (frame, kind, loads, answer) in KINDS {
        let has = untaken(answer);
        let told = Told {
            has: &has,
            lacks: &["bad-", "halted", "  over", "take ok"],
        };
        for load in 0..loads {
            let line = failure(rt.alloc(), 1, kind, 1, load)?;
            expect_report(&rt, rt.alloc(), frame, &line, told)?;
        }
    }
    Ok(())
}

/// Queues that are full when the other looks: of eight messages, and of one that takes eight lines.
/// What a report says where the run fails.
const WHOLE_QUEUES: [(Frame, &[&str]); 2] = [
    (
        Frame {
            settings: "warm 0 1 0 entries 8 limit 112\n",
            scripts: "script 0
send 1 0 01
send 1 0 02
send 1 0 03
send 1 0 04
send 1 0 05
send 1 0 06
send 1 0 07
send 1 0 08
script 1
take 0 0
",
            schedule: ENDED,
        },
        &[
            "partition 0 done boots 1",
            "  1 8 send ok 7",
            "  link 1 0 epoch 0 own 1.1 partner 1.1 accepted 8 taken 0 acked 0 delivered 0 ended 0",
            "partition 1 done boots 1",
            "  1 1 take disconnecting copy-error entries 1",
            "  link 0 0 epoch 0 own 1.1 partner 1.1 accepted 0 taken 0 acked 0 delivered 0 ended 0",
        ],
    ),
    (
        Frame {
            settings: "minor 0 2\nminor 1 2\nwarm 0 1 0 entries 1 limit 1008\n",
            scripts: "script 0
send 1 0 1008*61
script 1
take 0 0
",
            schedule: ENDED,
        },
        &[
            "partition 0 done boots 1",
            "  1 1 send ok 0",
            "  link 1 0 epoch 0 own 1.1 partner 1.1 accepted 1 taken 0 acked 0 delivered 0 ended 0",
            "partition 1 done boots 1",
            "  1 1 take disconnecting copy-error entries 1",
            "  link 0 0 epoch 0 own 1.1 partner 1.1 accepted 0 taken 0 acked 0 delivered 0 ended 0",
        ],
    ),
];

/// Whichever of the 128 loads fails of a run that is a whole queue: none of its messages is taken.
#[test]
fn fails_at_each_load_of_a_whole_queue(rt: HostRuntime) -> Result<(), Fail> {
    for (frame, has) in WHOLE_QUEUES {
        let told = Told {
            has,
            lacks: &["bad-", "halted", "  over", "take ok"],
        };
        for load in 0..128u64 {
            let line = failure(rt.alloc(), 1, "entries", 1, load)?;
            expect_report(&rt, rt.alloc(), frame, &line, told)?;
        }
    }
    Ok(())
}

/// Beyond the loads of a copy nothing fails, nor does a kind of copy that isn't made.
#[test]
fn fails_at_no_other_load(rt: HostRuntime) -> Result<(), Fail> {
    let told = Told {
        has: &["  1 1 take ok 0 1:01"],
        lacks: &["bad-", "halted", "  over", "copy-error"],
    };
    let others = [
        ("page", 5u64),
        ("counters", 2),
        ("entries", 32),
        ("get", 0),
        ("record", 0),
        ("args", 0),
        ("beat", 0),
    ];
    for (kind, load) in others {
        let line = failure(rt.alloc(), 1, kind, 1, load)?;
        expect_report(&rt, rt.alloc(), RUN, &line, told)?;
    }
    Ok(())
}

/// A send whose load of get fails isn't accepted.
#[test]
fn fails_at_get(rt: HostRuntime) -> Result<(), Fail> {
    let told = Told {
        has: &[
            "partition 0 done boots 1",
            "  1 3 send disconnecting copy-error get 1",
            "  link 1 0 epoch 0 own 1.1 partner 1.1 accepted 2 taken 0 acked 0 delivered 0 ended 0",
        ],
        lacks: &["bad-", "halted", "  over", "send ok 2"],
    };
    let line = failure(rt.alloc(), 0, "get", 1, 0)?;
    expect_report(&rt, rt.alloc(), FULL, &line, told)
}
