// The first faults of texts: each cause at its place, and each limit that a text passes.
use std::alloc::{AllocError, Global};
use std::process::Abort;
use std::test::Fail;
use xp_forms::fault::LineCause;
use xp_scenario::fault::{ScenarioFault, What};
use xp_scenario::text::parse;

/// What stands behind three partitions, and the line and the column of its fault, from 1. Its own
/// first line is line 3.
type Row = (&'static [u8], u64, u64);

const THREE: &[u8] = b"xpsim 1\npartitions 3\n";

/// Also of bytes above 127 outside comments, whatever else holds of their word.
const WORDS: &[Row] = &[
    (b"frobnicate 3\n", 3, 1),
    (b"Budget 5\n", 3, 1),
    (b"budget\x0b5\n", 3, 1),
    (b"warm 0 1 0 entry 4 limit 8\n", 3, 12),
    (b"warm 0 1 0 entries 4 limits 8\n", 3, 22),
    (b"stop 0 puts 1\n", 3, 8),
    (b"restart 0 turns 1\n", 3, 11),
    (b"fault 0 gets 1\n", 3, 9),
    (b"fault 0 get 1 as 2\n", 3, 15),
    (b"script 0\nregister 1 0 entry 1 limit 0\n", 4, 14),
    (b"script 0\ntake 1 0 now\n", 4, 10),
    (b"script 0\nsend 1 0 - nowait now\n", 4, 19),
    (b"schedule\nround 1\n", 4, 1),
    (b"minor 0 1\x80\n", 3, 9),
    (b"budget 5#\x80\n", 3, 8),
    (b"warm 0 1 0 entries 4 limit 8 \xc3\xa4\n", 3, 30),
    (b"stop 0 put 1\nstop 0\x80 put 1\n", 4, 6),
    (b"script \xff0\n", 3, 8),
    (b"script 0\nsend 1 1\x80 61\n", 4, 8),
    (b"script 0\nsend 1 0 \x80\n", 4, 10),
    (b"script 0\nleave \xff\n", 4, 7),
    (b"schedule\nscript\x80 0\n", 4, 1),
];

const MISSING: &[Row] = &[
    (b"budget\n", 3, 7),
    (b"budget # 5\r\n", 3, 12),
    (b"budget #\xff\n", 3, 10),
    (b"budget\t\r\r\n", 3, 10),
    (b"minor 0\n", 3, 8),
    (b"warm 0 1 0 entries 4 limit", 3, 27),
    (b"fault 0 get 1 at", 3, 17),
    (b"fault 0 get 1 at\r\n", 3, 18),
    (b"stop 0 put\n", 3, 11),
    (b"poke 0 0 5\n", 3, 11),
    (b"script\n", 3, 7),
    (b"script 0\nregister 1 0 entries 4\n", 4, 23),
    (b"script 0\nrelease 1 0\n", 4, 12),
    (b"script 0\nnet # 14*00\n", 4, 12),
    (b"schedule\nturns 0\n", 4, 8),
    (b"schedule\nrounds", 4, 7),
];

const EXTRA: &[Row] = &[
    (b"budget 5 5\n", 3, 10),
    (b"fault 0 get 1 at 0 0\n", 3, 20),
    (b"stop 0 put 1 at 2\n", 3, 14),
    (b"poke 0 0 0 0 0\n", 3, 14),
    (b"script 0 0\n", 3, 10),
    (b"script 0\nclosed 1 0 nowait\n", 4, 12),
    (b"script 0\nsend 1 0 - notify now\n", 4, 19),
    (b"script 0\ntake 1 0 nowait nowait\n", 4, 17),
    (b"script 0\nnet 14*00 notify\n", 4, 11),
    (b"script 0\nframes 1 2\n", 4, 10),
    (b"script 0\nleave now\n", 4, 7),
    (b"script 0\noffline 1\n", 4, 9),
    (b"schedule 1\n", 3, 10),
];

/// Also of words that aren't digits where a partition or a channel is wanted, and of limits above
/// 112 bytes without the minor version or without the room for them.
const NUMBERS: &[Row] = &[
    (b"budget 4000001\n", 3, 8),
    (b"budget 18446744073709551616\n", 3, 8),
    (b"budget x \x80\n", 3, 8),
    (b"budget 5#\n", 3, 8),
    (b"budget 5\x00\n", 3, 8),
    (b"\tbudget\tx\n", 3, 9),
    (b"check 1000000001\n", 3, 7),
    (b"minor 0 0\n", 3, 9),
    (b"minor 0 3\n", 3, 9),
    (b"minor x 1\n", 3, 7),
    (b"warm 0 1 -1 entries 1 limit 0\n", 3, 10),
    (b"warm 0 1 0 entries 257 limit 0\n", 3, 20),
    (b"warm 0 1 0 entries 1 limit 65537\n", 3, 28),
    (b"minor 0 2\nwarm 0 1 0 entries 1 limit 113\n", 4, 28),
    (
        b"minor 0 2\nminor 1 2\nwarm 0 1 0 entries 8 limit 113\n",
        5,
        28,
    ),
    (b"fault 0 get 0\n", 3, 13),
    (b"stop 0 put 0\n", 3, 12),
    (b"restart 0 put 0\n", 3, 15),
    (b"poke 0 0 4294967296 0\n", 3, 10),
    (b"poke 0 0 0 18446744073709551616\n", 3, 12),
    (b"script 0x1\n", 3, 8),
    (b"script 0\nregister 1 0 entries 9 limit 0\n", 4, 22),
    (b"script 0\nregister 1 0 entries 8 limit 113\n", 4, 30),
    (
        b"minor 0 2\nscript 0\nregister 1 0 entries 8 limit 113\n",
        5,
        30,
    ),
    (
        b"minor 0 2\nscript 0\nregister 1 0 entries 4 limit 241\n",
        5,
        30,
    ),
    (
        b"minor 0 2\nscript 0\nregister 1 0 entries 1 limit 1009\n",
        5,
        30,
    ),
    (
        b"minor 1 2\nscript 0\nregister 1 0 entries 1 limit 113\n",
        5,
        30,
    ),
    (b"script 0\nrelease 1 0 18446744073709551616\n", 4, 13),
    (b"script 0\nframes -1\n", 4, 8),
    (b"script 0\nidle 1000001\n", 4, 6),
    (b"schedule\nturns 0 18446744073709551616\n", 4, 9),
    (b"schedule\nrounds 1e3\n", 4, 8),
];

const PAYLOADS: &[Row] = &[
    (b"script 0\nsend 1 0 6\n", 4, 10),
    (b"script 0\nsend 1 0 0*61\n", 4, 10),
    (b"script 0\nsend 1 0 1*6\n", 4, 10),
    (b"script 0\nsend 1 0 1*616\n", 4, 10),
    (b"script 0\nsend 1 0 *61\n", 4, 10),
    (b"script 0\nsend 1 0 61*\n", 4, 10),
    (b"script 0\nsend 1 0 +61\n", 4, 10),
    (b"script 0\nsend 1 0 61+\n", 4, 10),
    (b"script 0\nsend 1 0 61++62\n", 4, 10),
    (b"script 0\nsend 1 0 -+61\n", 4, 10),
    (b"script 0\nsend 1 0 18446744073709551617*61\n", 4, 10),
    (b"script 0\nnet -\n", 4, 5),
    (b"script 0\nnet 1515*00\n", 4, 5),
];

const PARTITIONS: &[Row] = &[
    (b"minor 3 1\n", 3, 7),
    (b"warm 0 1 0 entries 1 limit 0\nminor 3 1\n", 4, 7),
    (b"warm 3 0 0 entries 1 limit 0\n", 3, 6),
    (b"warm 0 3 0 entries 1 limit 0\n", 3, 8),
    (b"warm 0 18446744073709551616 0 entries 1 limit 0\n", 3, 8),
    (b"fault 3 get 1\n", 3, 7),
    (b"stop 256 put 1\n", 3, 6),
    (b"restart 3 put 1\n", 3, 9),
    (b"poke 0 3 0 0\n", 3, 8),
    (b"script 3\n", 3, 8),
    (b"script 18446744073709551616\n", 3, 8),
    (b"script 1\nregister 1 0 entries 1 limit 0\n", 4, 10),
    (b"script 1\nunregister 1 0\n", 4, 12),
    (b"script 1\nconnected 1 0\n", 4, 11),
    (b"script 1\nclosed 1 0\n", 4, 8),
    (b"script 1\ndrain 1 0\n", 4, 7),
    (b"script 1\ndeactivate 1\n", 4, 12),
    (b"script 1\nactivate 3\n", 4, 10),
    (b"schedule\nturns 3 1\n", 4, 7),
    (b"schedule\nturns 99999999999999999999 1\n", 4, 7),
];

const CHANNELS: &[Row] = &[
    (b"warm 0 1 4 entries 1 limit 0\n", 3, 10),
    (b"warm 0 1 18446744073709551616 entries 1 limit 0\n", 3, 10),
    (b"script 0\nregister 1 4 entries 1 limit 0\n", 4, 12),
    (b"script 0\nunregister 1 99999999999999999999\n", 4, 14),
    (b"script 0\nconnected 1 4\n", 4, 13),
    (b"script 0\nclosed 1 256\n", 4, 10),
    (b"script 0\nsend 1 1 61\n", 4, 8),
    (b"script 0\ntake 1 1 nowait\n", 4, 8),
    (b"script 0\nrelease 1 1 0\n", 4, 11),
    (b"script 0\ndrain 1 4\n", 4, 9),
];

const TWICE: &[Row] = &[
    (b"budget 1\nbudget 0\n", 4, 1),
    (b"budget 1\nscript 0\nbudget 2\n", 5, 1),
    (b"budget 1\nschedule\nbudget 1\n", 5, 1),
    (b"check 0\ncheck 0\n", 4, 1),
    (b"check 0\nschedule\ncheck 4096\n", 5, 1),
    (b"minor 0 1\nminor 0 2\n", 4, 7),
    (
        b"warm 0 1 0 entries 4 limit 8\nwarm 1 0 0 entries 9 limit 8\n",
        4,
        10,
    ),
    (b"stop 0 put 1\nstop 0 puts 1\n", 4, 6),
];

/// Also of a minor version behind a channel of its partition.
const ORDER: &[Row] = &[
    (b"xpsim 1\n", 3, 1),
    (b"take 1 0\n", 3, 1),
    (b"rounds 1\n", 3, 1),
    (b"script 0\nxpsim 1\n", 4, 1),
    (b"script 0\nbudget 1\n", 4, 1),
    (b"script 0\nfault\n", 4, 1),
    (b"script 0\nrounds 1\n", 4, 1),
    (b"script 0\nschedule\nscript 1\n", 5, 1),
    (b"schedule\nschedule 1\n", 4, 1),
    (b"schedule\ncheck 0\n", 4, 1),
    (b"schedule\nleave\n", 4, 1),
    (b"warm 0 1 0 entries 4 limit 8\nminor 1 1\n", 4, 1),
    (b"warm 0 1 0 entries 4 limit 8\nminor 1 9\n", 4, 1),
    (b"warm 0 1 0 entries 4 limit 8\nminor 1\n", 4, 1),
    (
        b"minor 0 1\nwarm 0 1 0 entries 4 limit 8\nminor 0 1\n",
        5,
        1,
    ),
];

/// The causes of lines behind the opening. The cause `PokeInRun` is of runs alone: a poke line is
/// right in a text.
const CAUSES: [(LineCause, &[Row]); 9] = [
    (LineCause::Word, WORDS),
    (LineCause::Missing, MISSING),
    (LineCause::Extra, EXTRA),
    (LineCause::Number, NUMBERS),
    (LineCause::Payload, PAYLOADS),
    (LineCause::Partition, PARTITIONS),
    (LineCause::Channel, CHANNELS),
    (LineCause::Twice, TWICE),
    (LineCause::Order, ORDER),
];

/// Lines behind the opening that are right.
const RIGHT: [&[u8]; 14] = [
    b"budget 5 # \xff\x80\n",
    b"\tbudget\t5\r\n",
    b"warm 0 1 0 entries 4 limit 8\nminor 2 2\n",
    b"warm 0 1 0 entries 4 limit 8\nwarm 0 1 1 entries 4 limit 8\nwarm 2 0 0 entries 4 limit 8\n",
    b"minor 0 2\nminor 1 2\nwarm 0 1 0 entries 4 limit 113\nwarm 1 0 2 entries 2 limit 368\n",
    b"minor 0 2\nscript 0\nregister 1 0 entries 4 limit 240\nregister 1 1 entries 1 limit 1008\n",
    b"fault 0 page 1\nfault 0 beat 1\nfault 0 record 1\nfault 0 args 1\nfault 0 counters 1\n",
    b"fault 0 get 1\nfault 0 entries 1\nfault 0 buffer 1 at 18446744073709551615\n",
    b"stop 0 turn 0\nrestart 0 turn 0\npoke 0 0 36431 18446744073709551615\n",
    b"script 2\nunregister 0 1\nconnected 0 1\nclosed 0 1\ndrain 1 1\ntake 1 0 nowait\n",
    b"script 2\nframes 0\nframes 18446744073709551615\ndeactivate 0\nactivate 1\nleave\n",
    b"script 2\nidle 1000000\noffline\nonline\nnet 14*00\nnet 1514*00\n",
    b"script 0\nsend 1 0 0004*61\nsend 1 0 4096*61\nsend 1 0 00+3*aF\n",
    b"schedule\nturns 0 0\nrounds 5333333\nturns 0 1\n",
];

/// What `parse` finds in a text.
#[derive(Clone, Copy)]
enum Finding {
    Right,
    /// The line, the column and the cause.
    Line(u64, u64, LineCause),
    /// What there is too much of, and its limit.
    Many(What, u64),
}

/// Whole texts.
const OPENINGS: [(&[u8], Finding); 16] = [
    (
        b"# first\n\r\n\txpsim\t1 # \xff\npartitions 0064",
        Finding::Right,
    ),
    (
        b"# no line with words\n\n",
        Finding::Line(3, 1, LineCause::Header),
    ),
    (b"Xpsim 1\n", Finding::Line(1, 1, LineCause::Header)),
    (
        b"# first\n  xpsim 01\n",
        Finding::Line(2, 9, LineCause::Header),
    ),
    (b"xpsim", Finding::Line(1, 6, LineCause::Missing)),
    (b"xpsim # 1\r\n", Finding::Line(1, 11, LineCause::Missing)),
    (b"xpsim \x80\n", Finding::Line(1, 7, LineCause::Word)),
    (
        b"xpsim 1\nfrobnicate\n",
        Finding::Line(2, 1, LineCause::Word),
    ),
    (
        b"xpsim 1\npartitions\n",
        Finding::Line(2, 11, LineCause::Missing),
    ),
    (
        b"xpsim 1\npartitions x\n",
        Finding::Line(2, 12, LineCause::Number),
    ),
    (
        b"xpsim 1\nbudget 5\n",
        Finding::Line(2, 1, LineCause::Order),
    ),
    (b"xpsim 1\n\n# c", Finding::Line(3, 4, LineCause::Order)),
    (b"xpsim 1\npartitions 5\nbudget 3200000\n", Finding::Right),
    (
        b"xpsim 1\npartitions 5\nbudget 3200001\n",
        Finding::Many(What::Turns, 16_000_000),
    ),
    (b"xpsim 1\npartitions 64\nbudget 250000\n", Finding::Right),
    (
        b"xpsim 1\npartitions 64\nbudget 250001\n",
        Finding::Many(What::Turns, 16_000_000),
    ),
];

/// A line, and how often it stands.
type Lines = (&'static [u8], u32);

/// Lines behind the opening that stand again and again, with those behind them.
const LONG: [(&[Lines], Finding); 13] = [
    (
        &[(b"restart 0 put 1\n", 63), (b"restart 1 turn 5\n", 63)],
        Finding::Right,
    ),
    (
        &[(b"restart 0 put 1\n", 63), (b"restart 0 turn 5\n", 1)],
        Finding::Line(66, 9, LineCause::Twice),
    ),
    (
        &[(b"fault 0 get 1\n", 1_024), (b"check 0\nbudget 1\n", 1)],
        Finding::Right,
    ),
    (
        &[(b"fault 0 get 1\n", 1_024), (b"poke 0 0 0 0\n", 1)],
        Finding::Many(What::Settings, 1_024),
    ),
    (&[(b"script 0\n", 64), (b"script 1\n", 64)], Finding::Right),
    (
        &[(b"script 0\n", 64), (b"script 1\n", 65)],
        Finding::Many(What::Scripts, 64),
    ),
    (
        &[(b"schedule\nrounds 5333333\nturns 0 1\n", 1)],
        Finding::Right,
    ),
    (
        &[(b"schedule\n", 1), (b"rounds 2666667\n", 2)],
        Finding::Many(What::Turns, 16_000_000),
    ),
    (
        &[
            (b"schedule\n", 1),
            (b"turns 0 18446744073709551615\nturns 0 1\n", 1),
        ],
        Finding::Many(What::Turns, 16_000_000),
    ),
    (
        &[
            (b"fault 0 get 1\n", 1_025),
            (b"schedule\nrounds 18446744073709551615\n", 1),
        ],
        Finding::Many(What::Turns, 16_000_000),
    ),
    (
        &[(b"fault 0 get 1\n", 1_025), (b"script 0\n", 65)],
        Finding::Many(What::Settings, 1_024),
    ),
    (
        &[(b"script 0\n", 65), (b"schedule\nrounds 5333334\n", 1)],
        Finding::Many(What::Turns, 16_000_000),
    ),
    (
        &[(b"script 0\n", 65), (b"leave now\n", 1)],
        Finding::Line(68, 7, LineCause::Extra),
    ),
];

/// As many bytes of payloads as a scenario may have, and one more; and too many bytes or commands beside too many of something else.
const HEAVY: [(&[Lines], Finding); 9] = [
    (
        &[(b"script 0\n", 1), (b"send 1 0 4096*61\n", 4_096)],
        Finding::Right,
    ),
    (
        &[
            (b"script 0\n", 1),
            (b"send 1 0 4096*61\n", 4_096),
            (b"script 1\nnet 14*00\nschedule\nrounds 5333334\n", 1),
        ],
        Finding::Many(What::PayloadBytes, 16_777_216),
    ),
    (
        &[
            (b"script 0\n", 1),
            (b"send 1 0 4096*61\n", 4_097),
            (b"leave\n", 95_904),
        ],
        Finding::Many(What::Commands, 100_000),
    ),
    (
        &[
            (b"script 0\n", 1),
            (b"send 1 0 4096*61\n", 4_096),
            (b"send 1 0 00\n", 1),
        ],
        Finding::Many(What::PayloadBytes, 16_777_216),
    ),
    (
        &[
            (b"fault 0 get 1\n", 1_025),
            (b"script 0\n", 1),
            (b"send 1 0 4096*61\n", 4_097),
        ],
        Finding::Many(What::PayloadBytes, 16_777_216),
    ),
    (
        &[(b"script 0\n", 65), (b"send 1 0 4096*61\n", 4_097)],
        Finding::Many(What::PayloadBytes, 16_777_216),
    ),
    (
        &[
            (b"script 0\n", 1),
            (b"leave\n", 100_001),
            (b"schedule\nrounds 5333334\n", 1),
        ],
        Finding::Many(What::Commands, 100_000),
    ),
    (
        &[
            (b"fault 0 get 1\n", 1_025),
            (b"script 0\n", 1),
            (b"leave\n", 100_001),
        ],
        Finding::Many(What::Commands, 100_000),
    ),
    (
        &[(b"script 0\n", 65), (b"leave\n", 100_001)],
        Finding::Many(What::Commands, 100_000),
    ),
];

/// The fault of a text, where it has one.
fn fault_of(alloc: Global, text: &[u8]) -> Option<ScenarioFault> {
    parse(alloc, text).err()
}

/// The fault of three partitions with these lines.
fn fault_behind(alloc: Global, lines: &[Lines]) -> Result<Option<ScenarioFault>, AllocError> {
    let mut text = THREE.to_vec(alloc)?;
    for (line, count) in lines {
        for _ in 0..*count {
            text.extend_from_slice(line)?;
        }
    }
    Ok(fault_of(alloc, &text))
}

fn fault(finding: Finding) -> Option<ScenarioFault> {
    match finding {
        Finding::Right => None,
        Finding::Line(line, column, cause) => Some(ScenarioFault::BadLine {
            line,
            column,
            cause,
        }),
        Finding::Many(what, limit) => Some(ScenarioFault::TooMany { what, limit }),
    }
}

/// Each row has the fault of this cause.
fn expect_cause(
    rt: &impl Abort,
    alloc: Global,
    cause: LineCause,
    rows: &[Row],
) -> Result<(), Fail> {
    for (lines, line, column) in rows {
        let found = fault_behind(alloc, &[(*lines, 1)])?;
        let wanted = fault(Finding::Line(*line, *column, cause));
        assert!(rt; found == wanted, "{lines:?}");
    }
    Ok(())
}

#[test]
fn finds_each_cause(rt: HostRuntime) -> Result<(), Fail> {
    for (cause, rows) in CAUSES {
        expect_cause(&rt, rt.alloc(), cause, rows)?;
    }
    Ok(())
}

#[test]
fn finds_no_fault(rt: HostRuntime) -> Result<(), Fail> {
    for lines in RIGHT {
        let found = fault_behind(rt.alloc(), &[(lines, 1)])?;
        assert!(rt; found.is_none(), "{lines:?}");
    }
    Ok(())
}

#[test]
fn judges_whole_texts(rt: HostRuntime) {
    for (text, finding) in OPENINGS {
        let found = fault_of(rt.alloc(), text);
        assert!(rt; found == fault(finding), "{text:?}");
    }
}

#[test]
fn finds_what_is_too_many(rt: HostRuntime) -> Result<(), Fail> {
    for (lines, finding) in LONG {
        let found = fault_behind(rt.alloc(), lines)?;
        assert!(rt; found == fault(finding), "{lines:?}");
    }
    Ok(())
}

#[test]
fn finds_too_many_bytes(rt: HostRuntime) -> Result<(), Fail> {
    for (lines, finding) in HEAVY {
        let found = fault_behind(rt.alloc(), lines)?;
        assert!(rt; found == fault(finding), "{lines:?}");
    }
    Ok(())
}
