// Texts that spell a scenario, and the first faults of others.
use std::alloc::{AllocError, Global};
use std::process::Abort;
use std::test::Fail;
use xp_forms::fault::LineCause;
use xp_scenario::fault::{ScenarioFault, What};
use xp_scenario::text::parse;
use xp_script::command::Command;
use xp_script::scenario::Scenario;
use xp_script::schedule::{Plan, Schedule};
use xp_script::script::{Boots, Script};
use xp_script::setting::Warm;

/// A place in a text and the cause of the fault there: line and column, from 1.
type Place = (u64, u64, LineCause);

const OPENING: &[u8] = b"xpsim 1\npartitions 2\nwarm 0 1 0 entries 8 limit 0\n";

/// What may stand behind the opening.
const SPELLED: [&[u8]; 17] = [
    b"",
    b"\n",
    b"schedule",
    b"schedule\n\n",
    b"schedule\r\n",
    b"schedule # of nothing\n",
    b"schedule\nrounds 0\nrounds 7\n",
    b"schedule\nrounds 03\n",
    b"schedule\nrounds\t3 \n",
    b"schedule\nturns 1 4\n",
    b"script 0\nscript 1\nscript 0\n",
    b"script 1\nsend 0 0 -\nschedule\n",
    b"script 0\nsend 1 0 aF00 nowait notify\n",
    b"script 0\nsend 1 0 2*07+ff\n",
    b"script 0\nrelease 1 0 5\ndrain 1 1\n",
    b"warm 1 0 2 entries 1 limit 112\n",
    b"check 4096\nbudget 4000000\n",
];

/// What may not stand behind the opening, and its first fault.
const FAULTS: [(&[u8], Place); 38] = [
    (b"schedule\nrounds \n", (5, 8, LineCause::Missing)),
    (b"schedule\nrounds +3\n", (5, 8, LineCause::Number)),
    (b"schedule\nrounds 3 4\n", (5, 10, LineCause::Extra)),
    (
        b"schedule\nrounds 18446744073709551616\n",
        (5, 8, LineCause::Number),
    ),
    (b"schedule\nschedule\n", (5, 1, LineCause::Order)),
    (b"schedule\nscript 0\n", (5, 1, LineCause::Order)),
    (b"schedule\n\x80\n", (5, 1, LineCause::Word)),
    (b"script 2\n", (4, 8, LineCause::Partition)),
    (b"script 0\ntake 0 0\n", (5, 6, LineCause::Partition)),
    (b"script 0\ntake 1 1\n", (5, 8, LineCause::Channel)),
    (b"script 0\ntake 1 4\n", (5, 8, LineCause::Channel)),
    (b"script 0\ntake 1\n", (5, 7, LineCause::Missing)),
    (b"script 0\ntake one 0\n", (5, 6, LineCause::Number)),
    (b"script 0\nsend 1 0\n", (5, 9, LineCause::Missing)),
    (b"script 0\nsend 1 0 686\n", (5, 10, LineCause::Payload)),
    (b"script 0\nsend 1 0 6g\n", (5, 10, LineCause::Payload)),
    (b"script 0\nsend 1 0 --\n", (5, 10, LineCause::Payload)),
    (b"script 0\nsend 1 0 0x41\n", (5, 10, LineCause::Payload)),
    (b"script 0\nsend 1 0 4097*00\n", (5, 10, LineCause::Payload)),
    (
        b"script 0\nsend 1 0 4096*00+00\n",
        (5, 10, LineCause::Payload),
    ),
    (
        b"script 0\nsend 1 0 - notify nowait\n",
        (5, 19, LineCause::Extra),
    ),
    (b"script 0\nsend 1 0 - now\n", (5, 12, LineCause::Word)),
    (b"script 0\nput 1 0\n", (5, 1, LineCause::Word)),
    (b"script 0\nidle 0\n", (5, 6, LineCause::Number)),
    (b"script 0\nnet 13*00\n", (5, 5, LineCause::Payload)),
    (
        b"warm 1 0 0 entries 4 limit 112\n",
        (4, 10, LineCause::Twice),
    ),
    (
        b"warm 0 0 2 entries 4 limit 112\n",
        (4, 8, LineCause::Partition),
    ),
    (
        b"warm 0 1 2 entries 0 limit 0\n",
        (4, 20, LineCause::Number),
    ),
    (
        b"warm 0 1 2 entries 9 limit 0\n",
        (4, 20, LineCause::Number),
    ),
    (
        b"warm 0 1 2 entries 8 limit 113\n",
        (4, 28, LineCause::Number),
    ),
    (b"budget 0\n", (4, 8, LineCause::Number)),
    (b"budget 1\nbudget 2\n", (5, 1, LineCause::Twice)),
    (b"check 4095\n", (4, 7, LineCause::Number)),
    (b"poke 0 0 36432 1\n", (4, 10, LineCause::Number)),
    (b"fault 0 entries 0\n", (4, 17, LineCause::Number)),
    (b"fault 0 entry 1\n", (4, 9, LineCause::Word)),
    (b"stop 0 put 1\nstop 0 turn 2\n", (5, 6, LineCause::Twice)),
    (b"partitions 2\n", (4, 1, LineCause::Order)),
];

/// Whole texts whose opening is wrong.
const OPENINGS: [(&[u8], Place); 8] = [
    (b"", (1, 1, LineCause::Header)),
    (b"xpsim 2\npartitions 2\n", (1, 7, LineCause::Header)),
    (b"partitions 2\nxpsim 1\n", (1, 1, LineCause::Header)),
    (b"xpsim 1\n", (2, 1, LineCause::Order)),
    (b"xpsim 1\nschedule\n", (2, 1, LineCause::Order)),
    (b"xpsim 1\npartitions 1\n", (2, 12, LineCause::Number)),
    (b"xpsim 1\npartitions 65\n", (2, 12, LineCause::Number)),
    (b"xpsim 1 1\npartitions 2\n", (1, 9, LineCause::Extra)),
];

/// The fault of a text, where it has one.
fn fault_of(alloc: Global, text: &[u8]) -> Option<ScenarioFault> {
    parse(alloc, text).err()
}

fn behind_opening(alloc: Global, ending: &[u8]) -> Result<Option<ScenarioFault>, AllocError> {
    let mut text = OPENING.to_vec(alloc)?;
    text.extend_from_slice(ending)?;
    Ok(fault_of(alloc, &text))
}

fn at(place: Place) -> Option<ScenarioFault> {
    let (line, column, cause) = place;
    Some(ScenarioFault::BadLine {
        line,
        column,
        cause,
    })
}

#[test]
fn reads_scenarios(rt: HostRuntime) -> Result<(), Fail> {
    for ending in SPELLED {
        let fault = behind_opening(rt.alloc(), ending)?;
        assert!(rt; fault.is_none(), "{ending:?}");
    }
    Ok(())
}

#[test]
fn finds_the_first_fault(rt: HostRuntime) -> Result<(), Fail> {
    for (ending, place) in FAULTS {
        let fault = behind_opening(rt.alloc(), ending)?;
        assert!(rt; fault == at(place), "{ending:?}");
    }
    Ok(())
}

#[test]
fn finds_faults_of_openings(rt: HostRuntime) {
    for (text, place) in OPENINGS {
        let fault = fault_of(rt.alloc(), text);
        assert!(rt; fault == at(place), "{text:?}");
    }
}

const ONE_MESSAGE: &[u8] = b"xpsim 1
partitions 2
warm 0 1 0 entries 4 limit 112
script 0
send 1 0 6869
script 1
take 0 0
release 0 0 0
schedule
rounds 20000
";

fn expect_channel(rt: &impl Abort, warms: &[Warm]) {
    assert_eq!(rt; warms.len(), 1);
    assert_eq!(rt; (warms[0].first.get(), warms[0].second.get()), (0, 1));
    assert_eq!(rt;
        (warms[0].channel.get(), warms[0].entries, warms[0].limit),
        (0, 4, 112)
    );
}

fn expect_send(rt: &impl Abort, script: &Script) {
    assert_eq!(rt; script.len(), 1);
    let is_send = match script.at(0) {
        Command::Send {
            payload,
            wait: true,
            notify: false,
            ..
        } => payload.bytes() == b"hi".as_slice(),
        _ => false,
    };
    assert!(rt; is_send);
}

fn expect_take_and_release(rt: &impl Abort, script: &Script) {
    assert_eq!(rt; script.len(), 2);
    assert!(rt; matches!(script.at(0), Command::Take { wait: true, .. }));
    assert!(rt; matches!(script.at(1), Command::Release { number: 0, .. }));
}

fn expect_scripts(rt: &impl Abort, parts: &[Boots]) {
    assert_eq!(rt; parts.len(), 2);
    let (first, second) = (&parts[0], &parts[1]);
    assert!(rt; first.list.len() == 1 && second.list.len() == 1);
    expect_send(rt, &first.list[0]);
    expect_take_and_release(rt, &second.list[0]);
}

fn expect_schedule(rt: &impl Abort, schedule: &Option<Schedule>) {
    let is_rounds = match schedule {
        Some(schedule) => matches!(schedule.list.as_slice(), [Plan::Rounds(20_000)]),
        None => false,
    };
    assert!(rt; is_rounds);
}

#[test]
fn reads_one_message(rt: HostRuntime) -> Result<(), Fail> {
    match parse(rt.alloc(), ONE_MESSAGE) {
        Ok(scenario) => expect_one_message(&rt, &scenario),
        Err(_) => return Err("no scenario".into()),
    }
    Ok(())
}

fn expect_one_message(rt: &impl Abort, scenario: &Scenario) {
    assert_eq!(rt; (scenario.count.get(), scenario.budget), (2, 1_000_000));
    expect_channel(rt, &scenario.warms.list);
    expect_scripts(rt, &scenario.scripts.list);
    expect_schedule(rt, &scenario.schedule);
}

/// The fault of the opening, a script of this many commands to take, and a second script of one.
fn fault_of_takes(alloc: Global, count: u32) -> Result<Option<ScenarioFault>, AllocError> {
    let mut text = OPENING.to_vec(alloc)?;
    text.extend_from_slice(b"script 0\n")?;
    for _ in 0..count {
        text.extend_from_slice(b"take 1 0\n")?;
    }
    text.extend_from_slice(b"script 1\ntake 0 0\n")?;
    Ok(fault_of(alloc, &text))
}

/// 100,000 commands are a scenario's most, of all partitions together.
#[test]
fn counts_commands(rt: HostRuntime) -> Result<(), Fail> {
    let too_many = ScenarioFault::TooMany {
        what: What::Commands,
        limit: 100_000,
    };
    assert!(rt; fault_of_takes(rt.alloc(), 99_999)?.is_none());
    assert!(rt; fault_of_takes(rt.alloc(), 100_000)? == Some(too_many));
    Ok(())
}

/// 16,000,000 turns are a schedule's most: a round of two partitions is two.
#[test]
fn counts_turns(rt: HostRuntime) -> Result<(), Fail> {
    let too_many = ScenarioFault::TooMany {
        what: What::Turns,
        limit: 16_000_000,
    };
    let most = b"schedule\nrounds 7999999\nturns 0 2\n";
    assert!(rt; behind_opening(rt.alloc(), most)?.is_none());
    let more = b"schedule\nrounds 7999999\nturns 0 3\n";
    assert!(rt; behind_opening(rt.alloc(), more)? == Some(too_many));
    Ok(())
}
