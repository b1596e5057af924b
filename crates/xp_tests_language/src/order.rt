// Two faults in one text, on one line and on two: the line on standard error tells the first one,
// by the order of the words and, where both stand at one word, by the order of the causes.
use crate::replayed::expect_line;
use std::alloc::Global;
use std::process::Abort;
use std::test::Fail;

/// What is right before the faults, the lines with two faults, and the line on standard error.
type Row = (&'static [u8], &'static [u8], &'static str);

const NOTHING: &[u8] = b"";

const HEADER: &[u8] = b"xpsim 1\n";

const COUNT: &[u8] = b"xpsim 1\npartitions 3\n";

const SCRIPT: &[u8] = b"xpsim 1\npartitions 3\nscript 0\n";

const SCHEDULE: &[u8] = b"xpsim 1\npartitions 3\nschedule\n";

const HEADS: [Row; 11] = [
    (NOTHING, b"xpsims 2", "xpsim: line 1 column 1: header"),
    (NOTHING, b"xpsim 2 3", "xpsim: line 1 column 7: header"),
    (NOTHING, b"\xff 2", "xpsim: line 1 column 1: word"),
    (NOTHING, b"xpsim 1\x80", "xpsim: line 1 column 7: word"),
    (NOTHING, b"xpsim 1 \x80", "xpsim: line 1 column 9: word"),
    (NOTHING, b"\nbudget 0", "xpsim: line 2 column 1: header"),
    (HEADER, b"partitions", "xpsim: line 2 column 11: missing"),
    (
        HEADER,
        b"partitions 65 x",
        "xpsim: line 2 column 12: number",
    ),
    (HEADER, b"xpsim 2", "xpsim: line 2 column 1: order"),
    (HEADER, b"script 9", "xpsim: line 2 column 1: order"),
    (COUNT, b"partitions 1", "xpsim: line 3 column 1: order"),
];

const SETTINGS: [Row; 28] = [
    (COUNT, b"budget 0 6", "xpsim: line 3 column 8: number"),
    (COUNT, b"budget x\x80", "xpsim: line 3 column 8: word"),
    (COUNT, b"budget 5 \x80", "xpsim: line 3 column 10: word"),
    (
        COUNT,
        b"budget 5\nbudget 0",
        "xpsim: line 4 column 1: twice",
    ),
    (COUNT, b"check 1 2", "xpsim: line 3 column 7: number"),
    (COUNT, b"check 0\ncheck", "xpsim: line 4 column 1: twice"),
    (COUNT, b"minor 3 3", "xpsim: line 3 column 7: partition"),
    (COUNT, b"minor 0 3 1", "xpsim: line 3 column 9: number"),
    (
        COUNT,
        b"minor 0 2\nminor 0 3",
        "xpsim: line 4 column 7: twice",
    ),
    (
        COUNT,
        b"warm 0 1 0 entries 4 limit 112\nminor 0 3",
        "xpsim: line 4 column 1: order",
    ),
    (
        COUNT,
        b"minor 0 2\nwarm 0 1 0 entries 4 limit 112\nminor 0 2",
        "xpsim: line 5 column 1: order",
    ),
    (COUNT, b"warm 3 3 0", "xpsim: line 3 column 6: partition"),
    (COUNT, b"warm 0 0 4", "xpsim: line 3 column 8: partition"),
    (
        COUNT,
        b"warm 0 1 4 entries 9",
        "xpsim: line 3 column 10: channel",
    ),
    (
        COUNT,
        b"warm 0 1 0 entry 9",
        "xpsim: line 3 column 12: word",
    ),
    (
        COUNT,
        b"warm 0 1 0 entries 9 limit 113",
        "xpsim: line 3 column 20: number",
    ),
    (
        COUNT,
        b"warm 0 1 0 entries 4 limit 113 x",
        "xpsim: line 3 column 28: number",
    ),
    (
        COUNT,
        b"warm 0 1 0 entries 4 limit 112\nwarm 1 0 0 entry 9",
        "xpsim: line 4 column 10: twice",
    ),
    (
        COUNT,
        b"fault 3 pages 1",
        "xpsim: line 3 column 7: partition",
    ),
    (COUNT, b"fault 0 pages 0", "xpsim: line 3 column 9: word"),
    (
        COUNT,
        b"fault 0 get 0 at",
        "xpsim: line 3 column 13: number",
    ),
    (
        COUNT,
        b"fault 0 get 1 by x",
        "xpsim: line 3 column 15: word",
    ),
    (
        COUNT,
        b"fault 0 get 1 at x 2",
        "xpsim: line 3 column 18: number",
    ),
    (
        COUNT,
        b"stop 0 put 1\nstop 0 now",
        "xpsim: line 4 column 6: twice",
    ),
    (COUNT, b"restart 3 now", "xpsim: line 3 column 9: partition"),
    (COUNT, b"poke x 3 36432", "xpsim: line 3 column 6: number"),
    (
        COUNT,
        b"poke 0 3 36432",
        "xpsim: line 3 column 8: partition",
    ),
    (COUNT, b"poke 0 0 36432", "xpsim: line 3 column 10: number"),
];

const SCRIPTS: [Row; 25] = [
    (COUNT, b"script 3 x", "xpsim: line 3 column 8: partition"),
    (SCRIPT, b"budget x", "xpsim: line 4 column 1: order"),
    (
        COUNT,
        b"budget 5\nscript 0\nbudget x",
        "xpsim: line 5 column 1: twice",
    ),
    (
        COUNT,
        b"minor 0 2\nscript 0\nminor 0 2",
        "xpsim: line 5 column 1: order",
    ),
    (
        SCRIPT,
        b"register 0 4 size",
        "xpsim: line 4 column 10: partition",
    ),
    (
        SCRIPT,
        b"register 1 4 size",
        "xpsim: line 4 column 12: channel",
    ),
    (
        SCRIPT,
        b"register 1 0 size 9",
        "xpsim: line 4 column 14: word",
    ),
    (
        SCRIPT,
        b"register 1 0 entries 9 limit 113",
        "xpsim: line 4 column 22: number",
    ),
    (SCRIPT, b"closed 1 4 x", "xpsim: line 4 column 10: channel"),
    (SCRIPT, b"send 0 1 6", "xpsim: line 4 column 6: partition"),
    (SCRIPT, b"send 1 1 6", "xpsim: line 4 column 8: channel"),
    (
        SCRIPT,
        b"send 1 0 6 later",
        "xpsim: line 4 column 10: payload",
    ),
    (SCRIPT, b"send 1 0 6\x80", "xpsim: line 4 column 10: word"),
    (
        SCRIPT,
        b"send 1 0 61 later \x80",
        "xpsim: line 4 column 13: word",
    ),
    (
        SCRIPT,
        b"send 1 0 61 notify nowait \x80",
        "xpsim: line 4 column 20: extra",
    ),
    (
        SCRIPT,
        b"send 1 0 61 nowait nowait x",
        "xpsim: line 4 column 20: word",
    ),
    (SCRIPT, b"take x 4", "xpsim: line 4 column 6: number"),
    (
        SCRIPT,
        b"take 18446744073709551616 4",
        "xpsim: line 4 column 6: partition",
    ),
    (SCRIPT, b"take 1 1 wait", "xpsim: line 4 column 8: channel"),
    (SCRIPT, b"release 1 1 x", "xpsim: line 4 column 11: channel"),
    (
        SCRIPT,
        b"release 1 0 x 1",
        "xpsim: line 4 column 13: number",
    ),
    (SCRIPT, b"net 13*00 x", "xpsim: line 4 column 5: payload"),
    (
        SCRIPT,
        b"deactivate 0 1",
        "xpsim: line 4 column 12: partition",
    ),
    (SCRIPT, b"idle 0 1", "xpsim: line 4 column 6: number"),
    (SCRIPT, b"leave 1 \x80", "xpsim: line 4 column 7: extra"),
];

const SCHEDULES: [Row; 6] = [
    (SCHEDULE, b"schedule 1", "xpsim: line 4 column 1: order"),
    (SCHEDULE, b"turns 3 x", "xpsim: line 4 column 7: partition"),
    (SCHEDULE, b"turns 0 x 1", "xpsim: line 4 column 9: number"),
    (SCHEDULE, b"rounds x 1", "xpsim: line 4 column 8: number"),
    (SCHEDULE, b"take 3 4", "xpsim: line 4 column 1: order"),
    (
        COUNT,
        b"check 0\nschedule\ncheck 1",
        "xpsim: line 5 column 1: twice",
    ),
];

/// Faults on two lines, and a fault where there is too much or what isn't built besides.
const LINES: [Row; 8] = [
    (
        SCRIPT,
        b"take 1 # 4\nfrobnicate",
        "xpsim: line 4 column 11: missing",
    ),
    (
        SCRIPT,
        b"leave\tnow\r\nidle 0",
        "xpsim: line 4 column 7: extra",
    ),
    (
        SCRIPT,
        b"\n\tidle 0\nidle",
        "xpsim: line 5 column 7: number",
    ),
    (
        SCRIPT,
        b"idle 1\nidle\r\nidle 0",
        "xpsim: line 5 column 6: missing",
    ),
    (
        COUNT,
        b"poke 0 0 0 0\nminor 0 3",
        "xpsim: line 4 column 9: number",
    ),
    (
        SCRIPT,
        b"register 1 0 entries 4 limit 112\nconnected 3 0",
        "xpsim: line 5 column 11: partition",
    ),
    (
        HEADER,
        b"partitions 5\nbudget 4000000\nminor 0 3",
        "xpsim: line 4 column 9: number",
    ),
    (
        HEADER,
        b"partitions 9\nbudget 4000000",
        "xpsim: too many turns, limit 16000000",
    ),
];

/// The text of a row is refused with its line.
fn expect_row(rt: &impl Abort, alloc: Global, row: &Row) -> Result<(), Fail> {
    let (before, lines, line) = row;
    let mut text = before.to_vec(alloc)?;
    text.extend_from_slice(lines)?;
    expect_line(rt, alloc, &text, line)
}

#[test]
fn the_first_of_two_faults_is_told(rt: HostRuntime) -> Result<(), Fail> {
    let tables: [&[Row]; 5] = [&HEADS, &SETTINGS, &SCRIPTS, &SCHEDULES, &LINES];
    for rows in tables {
        for row in rows {
            expect_row(&rt, rt.alloc(), row)?;
        }
    }
    Ok(())
}
