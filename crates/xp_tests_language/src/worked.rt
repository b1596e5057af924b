// Worked scenarios with their reports, and worked texts that are refused, with their lines, by the
// top call.
use crate::replayed::{expect_line, replayed};
use std::alloc::{AllocError, Global};
use std::process::Abort;
use std::test::Fail;
use xp_tool::status::Status;

/// A scenario, and its report.
pub type Row = (&'static [u8], &'static [u8]);

const WORKED: [Row; 12] = [
    // One message is sent, taken and released.
    (
        b"xpsim 1
partitions 2
warm 0 1 0 entries 4 limit 112
script 0
send 1 0 6869
script 1
take 0 0
release 0 0 0
schedule
rounds 20000
",
        b"report 1
partition 0 done boots 1
  1 1 send ok 0
  link 1 0 epoch 0 own 1.1 partner 1.1 accepted 1 taken 0 acked 0 delivered 0 ended 0
partition 1 done boots 1
  1 1 take ok 0 2:6869
  1 2 release ok 1
  link 0 0 epoch 0 own 1.1 partner 1.1 accepted 0 taken 1 acked 1 delivered 0 ended 0
",
    ),
    // A message without bytes.
    (
        b"xpsim 1
partitions 2
warm 0 1 0 entries 4 limit 112
script 0
send 1 0 -
script 1
take 0 0
release 0 0 0
schedule
rounds 20000
",
        b"report 1
partition 0 done boots 1
  1 1 send ok 0
  link 1 0 epoch 0 own 1.1 partner 1.1 accepted 1 taken 0 acked 0 delivered 0 ended 0
partition 1 done boots 1
  1 1 take ok 0 0:
  1 2 release ok 1
  link 0 0 epoch 0 own 1.1 partner 1.1 accepted 0 taken 1 acked 1 delivered 0 ended 0
",
    ),
    // A payload as long as the limit, and one a byte longer.
    (
        b"xpsim 1
partitions 2
warm 0 1 0 entries 4 limit 112
script 0
send 1 0 112*61
send 1 0 113*61
script 1
take 0 0
release 0 0 0
schedule
rounds 20000
",
        b"report 1
partition 0 done boots 1
  1 1 send ok 0
  1 2 send too-big 113 112
  link 1 0 epoch 0 own 1.1 partner 1.1 accepted 1 taken 0 acked 0 delivered 0 ended 0
partition 1 done boots 1
  1 1 take ok 0 112:6161616161616161..6161616161616161
  1 2 release ok 1
  link 0 0 epoch 0 own 1.1 partner 1.1 accepted 0 taken 1 acked 1 delivered 0 ended 0
",
    ),
    // A full queue refuses a send that may not wait.
    (
        b"xpsim 1
partitions 2
warm 0 1 0 entries 1 limit 112
script 0
send 1 0 61 nowait
send 1 0 62 nowait
schedule
rounds 20000
",
        b"report 1
partition 0 done boots 1
  1 1 send ok 0
  1 2 send no-slot 1 0
  link 1 0 epoch 0 own 1.1 partner 1.1 accepted 1 taken 0 acked 0 delivered 0 ended 0
partition 1 done boots 1
  link 0 0 epoch 0 own 1.1 partner 1.1 accepted 0 taken 0 acked 0 delivered 0 ended 0
",
    ),
    // Five messages through a queue of two entries.
    (
        b"xpsim 1
partitions 2
warm 0 1 0 entries 2 limit 112
script 0
send 1 0 00
send 1 0 01
send 1 0 02
send 1 0 03
send 1 0 04
script 1
take 0 0
release 0 0 0
take 0 0
release 0 0 1
take 0 0
release 0 0 2
take 0 0
release 0 0 3
take 0 0
release 0 0 4
schedule
rounds 20000
",
        b"report 1
partition 0 done boots 1
  1 1 send ok 0
  1 2 send ok 1
  1 3 send ok 2
  1 4 send ok 3
  1 5 send ok 4
  link 1 0 epoch 0 own 1.1 partner 1.1 accepted 5 taken 0 acked 0 delivered 0 ended 0
partition 1 done boots 1
  1 1 take ok 0 1:00
  1 2 release ok 1
  1 3 take ok 1 1:01
  1 4 release ok 2
  1 5 take ok 2 1:02
  1 6 release ok 3
  1 7 take ok 3 1:03
  1 8 release ok 4
  1 9 take ok 4 1:04
  1 10 release ok 5
  link 0 0 epoch 0 own 1.1 partner 1.1 accepted 0 taken 5 acked 5 delivered 0 ended 0
",
    ),
    // Messages are released from the last one to the first.
    (
        b"xpsim 1
partitions 2
warm 0 1 0 entries 4 limit 112
script 0
send 1 0 0a
send 1 0 0b
send 1 0 0c
script 1
take 0 0
take 0 0
take 0 0
release 0 0 2
release 0 0 1
release 0 0 0
schedule
rounds 20000
",
        b"report 1
partition 0 done boots 1
  1 1 send ok 0
  1 2 send ok 1
  1 3 send ok 2
  link 1 0 epoch 0 own 1.1 partner 1.1 accepted 3 taken 0 acked 0 delivered 0 ended 0
partition 1 done boots 1
  1 1 take ok 0 1:0a
  1 2 take ok 1 1:0b
  1 3 take ok 2 1:0c
  1 4 release ok 0
  1 5 release ok 0
  1 6 release ok 3
  link 0 0 epoch 0 own 1.1 partner 1.1 accepted 0 taken 3 acked 3 delivered 0 ended 0
",
    ),
    // A message that was released is held no more.
    (
        b"xpsim 1
partitions 2
warm 0 1 0 entries 4 limit 112
script 0
send 1 0 6869
script 1
take 0 0
release 0 0 0
release 0 0 0
schedule
rounds 20000
",
        b"report 1
partition 0 done boots 1
  1 1 send ok 0
  link 1 0 epoch 0 own 1.1 partner 1.1 accepted 1 taken 0 acked 0 delivered 0 ended 0
partition 1 done boots 1
  1 1 take ok 0 2:6869
  1 2 release ok 1
  1 3 release not-held
  link 0 0 epoch 0 own 1.1 partner 1.1 accepted 0 taken 1 acked 1 delivered 0 ended 0
",
    ),
    // An empty queue, nothing held, a channel that is not connected.
    (
        b"xpsim 1
partitions 2
warm 0 1 0 entries 4 limit 112
script 1
take 0 0 nowait
release 0 0 0
take 0 2
schedule
rounds 20000
",
        b"report 1
partition 0 done boots 1
  link 1 0 epoch 0 own 1.1 partner 1.1 accepted 0 taken 0 acked 0 delivered 0 ended 0
partition 1 done boots 1
  1 1 take empty 0
  1 2 release not-held
  1 3 take not-connected
  link 0 0 epoch 0 own 1.1 partner 1.1 accepted 0 taken 0 acked 0 delivered 0 ended 0
",
    ),
    // The one has sent before the other one looks.
    (
        b"xpsim 1
partitions 2
warm 0 1 0 entries 4 limit 112
script 0
send 1 0 61
idle 40000
script 1
take 0 0 nowait
idle 40000
schedule
turns 0 32768
turns 1 100000
turns 0 100000
",
        b"report 1
partition 0 done boots 1
  1 1 send ok 0
  1 2 idle ok
  link 1 0 epoch 0 own 1.1 partner 1.1 accepted 1 taken 0 acked 0 delivered 0 ended 0
partition 1 done boots 1
  1 1 take ok 0 1:61
  1 2 idle ok
  link 0 0 epoch 0 own 1.1 partner 1.1 accepted 0 taken 1 acked 0 delivered 0 ended 0
",
    ),
    // The one sends after the other one looked.
    (
        b"xpsim 1
partitions 2
warm 0 1 0 entries 4 limit 112
script 0
send 1 0 61
idle 40000
script 1
take 0 0 nowait
idle 40000
schedule
turns 1 32768
turns 0 100000
turns 1 100000
",
        b"report 1
partition 0 done boots 1
  1 1 send ok 0
  1 2 idle ok
  link 1 0 epoch 0 own 1.1 partner 1.1 accepted 1 taken 0 acked 0 delivered 0 ended 0
partition 1 done boots 1
  1 1 take empty 0
  1 2 idle ok
  link 0 0 epoch 0 own 1.1 partner 1.1 accepted 0 taken 0 acked 0 delivered 0 ended 0
",
    ),
    // A load of get is planned to fail, and no send needs one.
    (
        b"xpsim 1
partitions 2
warm 0 1 0 entries 4 limit 112
fault 0 get 1
script 0
send 1 0 aa
send 1 0 bb
schedule
rounds 20000
",
        b"report 1
partition 0 done boots 1
  1 1 send ok 0
  1 2 send ok 1
  link 1 0 epoch 0 own 1.1 partner 1.1 accepted 2 taken 0 acked 0 delivered 0 ended 0
partition 1 done boots 1
  link 0 0 epoch 0 own 1.1 partner 1.1 accepted 0 taken 0 acked 0 delivered 0 ended 0
",
    ),
    // A message of a whole queue, and one a byte longer.
    (
        b"xpsim 1
partitions 2
minor 0 2
minor 1 2
warm 0 1 0 entries 1 limit 1008
script 0
send 1 0 1008*61
send 1 0 1009*61
script 1
take 0 0
release 0 0 0
schedule
rounds 20000
",
        b"report 1
partition 0 done boots 1
  1 1 send ok 0
  1 2 send too-big 1009 1008
  link 1 0 epoch 0 own 1.1 partner 1.1 accepted 1 taken 0 acked 0 delivered 0 ended 0
partition 1 done boots 1
  1 1 take ok 0 1008:6161616161616161..6161616161616161
  1 2 release ok 1
  link 0 0 epoch 0 own 1.1 partner 1.1 accepted 0 taken 1 acked 1 delivered 0 ended 0
",
    ),
];

/// The first and the last of 64 partitions share a channel.
const FIRST_AND_LAST: &[u8] = b"xpsim 1
partitions 64
warm 0 63 0 entries 4 limit 112
script 0
send 63 0 6869
script 63
take 0 0
release 0 0 0
schedule
rounds 40000
";

/// Its report: the partitions between the two are done before their first turn.
fn report_of_first_and_last(alloc: Global) -> Result<String, AllocError> {
    let mut text = String::new(alloc);
    writeln!(text, "report 1\npartition 0 done boots 1\n  1 1 send ok 0")?;
    write!(text, "  link 63 0 epoch 0 own 1.1 partner 1.1 ")?;
    writeln!(text, "accepted 1 taken 0 acked 0 delivered 0 ended 0")?;
    for part in 1..64u8 {
        writeln!(text, "partition {part} done boots 1")?;
    }
    writeln!(text, "  1 1 take ok 0 2:6869\n  1 2 release ok 1")?;
    write!(text, "  link 0 0 epoch 0 own 1.1 partner 1.1 ")?;
    writeln!(text, "accepted 0 taken 1 acked 1 delivered 0 ended 0")?;
    Ok(text)
}

/// Worked texts that are refused, each with its line on standard error.
const REFUSED: [(&[u8], &str); 3] = [
    // An empty text.
    (b"", "xpsim: line 1 column 1: header"),
    (
        b"xpsim 1
partitions 2
frobnicate 3
",
        "xpsim: line 3 column 1: word",
    ),
    // A queue has 8 lines, and each of two entries needs 8.
    (
        b"xpsim 1
partitions 2
minor 0 2
script 0
register 1 0 entries 2 limit 1008
",
        "xpsim: line 5 column 30: number",
    ),
];

/// The replay of a scenario leaves a world and writes this report.
pub fn expect_report(
    rt: &impl Abort,
    alloc: Global,
    scenario: &[u8],
    report: &[u8],
) -> Result<(), Fail> {
    let (done, written) = replayed(alloc, scenario)?;
    assert!(rt; done.status == Status::Ok && done.end.is_some());
    assert_eq!(rt; written.as_slice(), report);
    Ok(())
}

#[test]
fn worked_scenarios(rt: HostRuntime) -> Result<(), Fail> {
    for (scenario, report) in WORKED {
        expect_report(&rt, rt.alloc(), scenario, report)?;
    }
    Ok(())
}

#[test]
fn worked_first_and_last(rt: HostRuntime) -> Result<(), Fail> {
    let report = report_of_first_and_last(rt.alloc())?;
    expect_report(&rt, rt.alloc(), FIRST_AND_LAST, report.as_bytes())
}

#[test]
fn worked_texts_that_are_refused(rt: HostRuntime) -> Result<(), Fail> {
    for (text, line) in REFUSED {
        expect_line(&rt, rt.alloc(), text, line)?;
    }
    Ok(())
}
