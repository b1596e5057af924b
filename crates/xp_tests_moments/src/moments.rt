// Planned stops and restarts of two partitions, at each of their first turns.
use crate::replays::{Frame, Told, expect_report, moment};
use std::test::Fail;

/// The turns at which a partition stops, or boots again.
const TURNS: u64 = 64;

/// A channel of two entries that opens connected.
const JOINED: &str = "warm 0 1 0 entries 2 limit 16\n";

/// One sends three messages to the other. Neither ends, since its script waits at last.
const MESSAGES: &str = "script 0
send 1 0 01
send 1 0 02
send 1 0 03
idle 1000
script 1
take 0 0
release 0 0 0
take 0 0
release 0 0 1
take 0 0
release 0 0 2
idle 1000
";

/// Three messages over a channel that opens connected, while they are on their way.
const WARM: Frame = Frame {
    settings: JOINED,
    scripts: MESSAGES,
    schedule: "rounds 100\n",
};

/// Three messages over a channel that opens connected, with the turns that they need.
const WHOLE: Frame = Frame {
    settings: JOINED,
    scripts: MESSAGES,
    schedule: "rounds 400\n",
};

/// A message between partitions that boot first. A partition makes 64 steps at least before it asks
/// for a channel: 6 to boot, 36 to see its memory free, prepare it and open it, 5 to look at it, 2
/// to show its engagement, 12 to come into contact by two copies of the partner's record, and 3
/// before its flag. So a partition that has made fewer turns has opened no channel.
const COLD: Frame = Frame {
    settings: "",
    scripts: "script 0
register 1 0 entries 2 limit 16
connected 1 0
send 1 0 01
script 1
register 0 0 entries 2 limit 16
connected 0 0
take 0 0
",
    schedule: "rounds 100\n",
};

/// What no report has where nobody writes into the words: reasons that tell of broken words.
const BROKEN: [&str; 2] = ["bad-", "halted"];

/// A partition that stops has made just these turns in one boot, and its partner goes on.
#[test]
fn stops_at_each_of_its_first_turns(rt: HostRuntime) -> Result<(), Fail> {
    let stopped = [
        (
            0u8,
            ["partition 0 stopped boots 1", "partition 1 running boots 1"],
        ),
        (
            1,
            ["partition 0 running boots 1", "partition 1 stopped boots 1"],
        ),
    ];
    for (part, has) in stopped {
        let told = Told {
            has: &has,
            lacks: &BROKEN,
        };
        for turn in 0..TURNS {
            let line = moment(rt.alloc(), "stop", part, turn)?;
            expect_report(&rt, rt.alloc(), WARM, &line, told)?;
        }
    }
    Ok(())
}

/// A second boot has no script, so it ends before its first step; what stood in the words stays,
/// and the partner goes on.
#[test]
fn boots_again_at_each_of_its_first_turns(rt: HostRuntime) -> Result<(), Fail> {
    let again = [
        (
            0u8,
            ["partition 0 done boots 2", "partition 1 running boots 1"],
        ),
        (
            1,
            ["partition 0 running boots 1", "partition 1 done boots 2"],
        ),
    ];
    for (part, has) in again {
        let told = Told {
            has: &has,
            lacks: &["bad-", "halted", "  over"],
        };
        for turn in 0..TURNS {
            let line = moment(rt.alloc(), "restart", part, turn)?;
            expect_report(&rt, rt.alloc(), WARM, &line, told)?;
        }
    }
    Ok(())
}

/// One that stops before it could open a channel leaves its partner waiting for it.
#[test]
fn stops_before_it_opens_a_channel(rt: HostRuntime) -> Result<(), Fail> {
    let waiting = [
        (
            0u8,
            ["partition 0 stopped boots 1", "  1 2 connected unanswered"],
        ),
        (
            1,
            ["partition 1 stopped boots 1", "  1 2 connected unanswered"],
        ),
    ];
    for (part, has) in waiting {
        let told = Told {
            has: &has,
            lacks: &["bad-", "halted", "  link", "  over", "connected ok"],
        };
        for turn in 0..TURNS {
            let line = moment(rt.alloc(), "stop", part, turn)?;
            expect_report(&rt, rt.alloc(), COLD, &line, told)?;
        }
    }
    Ok(())
}

/// Partitions that boot first, of which the one boots again with the same script.
const TWICE: Frame = Frame {
    settings: "",
    scripts: "script 0
register 1 0 entries 2 limit 16
connected 1 0
send 1 0 01
script 0
register 1 0 entries 2 limit 16
connected 1 0
send 1 0 02
script 1
register 0 0 entries 2 limit 16
connected 0 0
take 0 0
",
    schedule: "rounds 8000\n",
};

/// One that boots again before it could open a channel opens it in its second boot.
#[test]
fn boots_again_before_it_opens_a_channel(rt: HostRuntime) -> Result<(), Fail> {
    let told = Told {
        has: &[
            "partition 0 done boots 2",
            "partition 1 done boots 1",
            "  2 2 connected ok",
            "  2 3 send ok 0",
            "  1 2 connected ok",
            "  1 3 take ok 0 1:02",
        ],
        lacks: &["bad-", "halted", "1:01", "  1 3 send"],
    };
    for turn in [0u64, 1, 6, 7, 20, 42, 43, 57, 63] {
        let line = moment(rt.alloc(), "restart", 0, turn)?;
        expect_report(&rt, rt.alloc(), TWICE, &line, told)?;
    }
    Ok(())
}

/// Partition 1 by itself: each of its boots waits.
const ALONE: Frame = Frame {
    settings: "",
    scripts: "script 1
idle 1
script 1
idle 2
script 1
idle 3
script 1
idle 4
",
    schedule: "rounds 300\n",
};

/// Lines of moments, and what comes of them. A boot takes six steps, and nothing is begun before
/// its last one; moments of one turn count once, a stop before a restart; and a partition that has
/// ended comes to no moment.
const PLANS: [(&str, &[&str], &[&str]); 7] = [
    (
        "",
        &["partition 1 done boots 1", "  1 1 idle ok"],
        &["  2 "],
    ),
    (
        "restart 1 turn 0",
        &["partition 1 done boots 2", "  2 1 idle ok"],
        &["  1 1"],
    ),
    (
        "restart 1 turn 3\nrestart 1 turn 5",
        &["partition 1 done boots 3", "  3 1 idle ok"],
        &["  1 1", "  2 1"],
    ),
    (
        "restart 1 turn 5\nrestart 1 turn 3\nrestart 1 turn 5",
        &["partition 1 done boots 3", "  3 1 idle ok"],
        &["  1 1", "  2 1"],
    ),
    (
        "restart 1 turn 0\nrestart 1 turn 1\nrestart 1 turn 2",
        &["partition 1 done boots 4", "  4 1 idle ok"],
        &["  1 1", "  2 1", "  3 1"],
    ),
    (
        "restart 1 turn 2\nstop 1 turn 4\nrestart 1 turn 4",
        &["partition 1 stopped boots 2"],
        &["idle"],
    ),
    (
        "restart 1 turn 250\nstop 1 turn 200",
        &["partition 1 done boots 1", "  1 1 idle ok"],
        &["  2 "],
    ),
];

#[test]
fn boots_as_often_as_planned(rt: HostRuntime) -> Result<(), Fail> {
    for (lines, has, lacks) in PLANS {
        let told = Told { has, lacks };
        expect_report(&rt, rt.alloc(), ALONE, lines, told)?;
    }
    Ok(())
}

/// Lines of moments at a store of put. The send that stores it has its answer.
const PUTS: [(&str, &[&str], &[&str]); 3] = [
    (
        "stop 0 put 1",
        &[
            "partition 0 stopped boots 1",
            "  1 1 send ok 0",
            "  link 1 0 epoch 0 own 1.1 partner 1.1 accepted 1 taken 0 acked 0 delivered 0 ended 0",
            "  1 1 take ok 0 1:01",
            "  1 2 release ok 1",
            "  1 3 take unanswered",
        ],
        &["send ok 1", "1:02"],
    ),
    (
        "restart 0 put 2",
        &[
            "partition 0 done boots 2",
            "  1 1 send ok 0",
            "  1 2 send ok 1",
            "  link 1 0 epoch 0 own 1.1 partner 1.1 accepted 2 taken 0 acked 0 delivered 0 ended 0",
            "  1 3 take ok 1 1:02",
            "  1 4 release ok 2",
            "  1 5 take unanswered",
        ],
        &["send ok 2", "1:03"],
    ),
    (
        "stop 0 put 3\nrestart 0 put 3",
        &["partition 0 stopped boots 1", "  1 3 send ok 2"],
        &["idle ok", "boots 2"],
    ),
];

#[test]
fn moments_of_puts(rt: HostRuntime) -> Result<(), Fail> {
    for (lines, has, lacks) in PUTS {
        let told = Told { has, lacks };
        expect_report(&rt, rt.alloc(), WHOLE, lines, told)?;
    }
    Ok(())
}
