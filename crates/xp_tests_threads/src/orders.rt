// What the partitions of a scenario report where a gate forces their order.
use crate::gates::HeldUntil;
use std::alloc::{AllocError, Global};
use std::test::Fail;
use std::thread::Threads;
use xp_tool::status::Status;
use xp_tool::tool::tool;
use xp_tool::words::Word;
use xp_tool::{Gate, OpenGate, WholeSink, WholeSource};

/// The report of a scenario that is run as threads; none where it isn't run.
pub fn run_report<R: Threads + Sync, G: Gate + Sync>(
    rt: &R,
    alloc: Global,
    scenario: &[u8],
    gate: &G,
) -> Result<Option<WholeSink>, AllocError> {
    let words: Vec<Word> = vec![in alloc; String::from_str(alloc, "run")?]?;
    let mut source = WholeSource::new(scenario.to_vec(alloc)?);
    let mut sink = WholeSink::new(alloc);
    let done = tool(rt, alloc, &words, &mut source, &mut sink, gate);
    if done.status == Status::Ok && done.end.is_some() {
        Ok(Some(sink))
    } else {
        Ok(None)
    }
}

const ONE_SEND_ONE_LOOK: &[u8] = b"xpsim 1
partitions 2
warm 0 1 0 entries 4 limit 112
script 0
send 1 0 61
idle 40000
script 1
take 0 0 nowait
idle 40000
";

const SENT_FIRST: &[u8] = b"report 1
partition 0 done boots 1
  1 1 send ok 0
  1 2 idle ok
  link 1 0 epoch 0 own 1.1 partner 1.1 accepted 1 taken 0 acked 0 delivered 0 ended 0
partition 1 done boots 1
  1 1 take ok 0 1:61
  1 2 idle ok
  link 0 0 epoch 0 own 1.1 partner 1.1 accepted 0 taken 1 acked 0 delivered 0 ended 0
";

const LOOKED_FIRST: &[u8] = b"report 1
partition 0 done boots 1
  1 1 send ok 0
  1 2 idle ok
  link 1 0 epoch 0 own 1.1 partner 1.1 accepted 1 taken 0 acked 0 delivered 0 ended 0
partition 1 done boots 1
  1 1 take empty 0
  1 2 idle ok
  link 0 0 epoch 0 own 1.1 partner 1.1 accepted 0 taken 0 acked 0 delivered 0 ended 0
";

/// A partition's first turn is held until the other has made 32,768 turns.
#[test]
fn two_opposite_orders(rt: HostRuntime) -> Result<(), Fail> {
    for (held, report) in [(1u8, SENT_FIRST), (0u8, LOOKED_FIRST)] {
        let gate = HeldUntil::new(held, 32_768, 1_000_000_000);
        let written = run_report(&rt, rt.alloc(), ONE_SEND_ONE_LOOK, &gate)?;
        assert!(rt; gate.came());
        let Some(sink) = written else {
            panic!(rt; "it isn't run");
        };
        assert_eq!(rt; sink.bytes(), report);
    }
    Ok(())
}

const ORDINARY_USE: &[u8] = b"xpsim 1
partitions 2
budget 4000000
script 0
register 1 0 entries 4 limit 112
connected 1 0
send 1 0 01 notify
send 1 0 02 notify
send 1 0 03 notify
drain 1 0
unregister 1 0
closed 1 0
script 1
register 0 0 entries 4 limit 112
connected 0 0
take 0 0
release 0 0 0
take 0 0
release 0 0 1
take 0 0
release 0 0 2
closed 0 0
schedule
rounds 100000
";

const ORDINARY_USE_REPORT: &[u8] = b"report 1
partition 0 done boots 1
  1 1 register ok
  1 2 connected ok
  1 3 send ok 0
  1 4 send ok 1
  1 5 send ok 2
  1 6 drain ok
  1 7 unregister ok
  1 8 closed unregistered
  link 1 0 epoch 0 own 1.1 partner 1.1 accepted 3 taken 0 acked 0 delivered 3 ended 0
  over 1 0 epoch 0 own 1.1 partner 1.1 unregistered
partition 1 done boots 1
  1 1 register ok
  1 2 connected ok
  1 3 take ok 0 1:01
  1 4 release ok 1
  1 5 take ok 1 1:02
  1 6 release ok 2
  1 7 take ok 2 1:03
  1 8 release ok 3
  1 9 closed partner-closed 1
  link 0 0 epoch 0 own 1.1 partner 1.1 accepted 0 taken 3 acked 3 delivered 0 ended 0
  over 0 0 epoch 0 own 1.1 partner 1.1 partner-closed 1
";

/// Two partitions meet, send, close: partition 0's first turn is held until partition 1 has made one.
#[test]
fn ordinary_use(rt: HostRuntime) -> Result<(), Fail> {
    let gate = HeldUntil::new(0, 1, 100_000_000);
    let written = run_report(&rt, rt.alloc(), ORDINARY_USE, &gate)?;
    assert!(rt; gate.came());
    let Some(sink) = written else {
        panic!(rt; "it isn't run");
    };
    assert_eq!(rt; sink.bytes(), ORDINARY_USE_REPORT);
    Ok(())
}

const NOTHING_TO_DO: &[u8] = b"xpsim 1
partitions 2
warm 0 1 0 entries 4 limit 112
budget 5
script 0
idle 100
";

const NOTHING_TO_DO_REPORT: &[u8] = b"report 1
partition 0 running boots 1
  1 1 idle unanswered
  link 1 0 epoch 0 own 1.1 partner 1.1 accepted 0 taken 0 acked 0 delivered 0 ended 0
partition 1 done boots 1
  link 0 0 epoch 0 own 1.1 partner 1.1 accepted 0 taken 0 acked 0 delivered 0 ended 0
";

/// A partition stops running at its budget, and one with an empty script is done at once.
#[test]
fn a_budget_ends_a_run(rt: HostRuntime) -> Result<(), Fail> {
    let Some(sink) = run_report(&rt, rt.alloc(), NOTHING_TO_DO, &OpenGate)? else {
        panic!(rt; "it isn't run");
    };
    assert_eq!(rt; sink.bytes(), NOTHING_TO_DO_REPORT);
    Ok(())
}
