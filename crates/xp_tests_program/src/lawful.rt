// Which scenarios of three partitions are lawful, and which the rules can run: a setting, a command
// or a line of the schedule at a time.
use crate::tables::{Joined, scenario};
use std::alloc::{AllocError, Global};
use std::process::Abort;
use std::test::Fail;
use xp_base::ids::{Channel, PartId};
use xp_base::step::CopyKind;
use xp_lawful::built::is_built;
use xp_lawful::lawful::is_lawful;
use xp_script::command::Command;
use xp_script::made::{drain, release, send, take};
use xp_script::payload::Payload;
use xp_script::scenario::Scenario;
use xp_script::schedule::{Plan, Schedule};
use xp_script::script::Script;
use xp_script::setting::{Fault, Minor, Moment, Poke, Restart, Setting, Stop, Warm};

/// Three partitions with empty scripts; 0 and 1 are joined on channel 0.
fn three(rt: &impl Abort, alloc: Global) -> Result<Scenario, AllocError> {
    scenario(rt, alloc, &[Joined(0, 1, 0, 4)], &[&[], &[], &[]], 1)
}

fn part(number: u8) -> PartId {
    PartId::known(number % 64)
}

/// Adds a setting.
fn set(scenario: &mut Scenario, setting: Setting) -> Result<(), AllocError> {
    match setting {
        Setting::Budget(turns) => scenario.budget = turns,
        Setting::Check(turns) => scenario.check = turns,
        Setting::Minor(minor) => scenario.minors.list.push(minor)?,
        Setting::Warm(warm) => scenario.warms.list.push(warm)?,
        Setting::Fault(fault) => scenario.faults.list.push(fault)?,
        Setting::Stop(stop) => scenario.stops.list.push(stop)?,
        Setting::Restart(restart) => scenario.restarts.list.push(restart)?,
        Setting::Poke(poke) => scenario.pokes.list.push(poke)?,
    }
    Ok(())
}

/// How a scenario is judged.
#[derive(Clone, Copy, PartialEq, Eq)]
enum Judgement {
    Unlawful,
    /// Lawful, and more than the rules of today can run.
    Unbuilt,
    Built,
}

fn judge(scenario: &Scenario) -> Judgement {
    if !is_lawful(scenario) {
        Judgement::Unlawful
    } else if !is_built(scenario) {
        Judgement::Unbuilt
    } else {
        Judgement::Built
    }
}

/// Judges the three partitions with one setting more.
fn expect_setting(
    rt: &impl Abort,
    alloc: Global,
    setting: Setting,
    wanted: Judgement,
) -> Result<(), Fail> {
    let mut scenario = three(rt, alloc)?;
    set(&mut scenario, setting)?;
    assert!(rt; judge(&scenario) == wanted);
    Ok(())
}

const NUMBERS: [(Setting, Judgement); 7] = [
    (Setting::Budget(4_000_000), Judgement::Built),
    (Setting::Budget(4_000_001), Judgement::Unlawful),
    (Setting::Budget(0), Judgement::Unlawful),
    (Setting::Check(0), Judgement::Built),
    (Setting::Check(4_096), Judgement::Built),
    (Setting::Check(4_095), Judgement::Unlawful),
    (Setting::Check(1_000_000_001), Judgement::Unlawful),
];

#[test]
fn numbers(rt: HostRuntime) -> Result<(), Fail> {
    for (setting, wanted) in NUMBERS {
        expect_setting(&rt, rt.alloc(), setting, wanted)?;
    }
    Ok(())
}

fn warm(first: u8, second: u8, channel: u8, entries: u8, limit: u16) -> Setting {
    Setting::Warm(Warm {
        first: part(first),
        second: part(second),
        channel: Channel::known(channel % 4),
        entries,
        limit,
    })
}

#[test]
fn channels(rt: HostRuntime) -> Result<(), Fail> {
    let rows = [
        (warm(2, 1, 3, 1, 8), Judgement::Built),
        (warm(2, 1, 1, 1, 8), Judgement::Unbuilt),
        (warm(0, 1, 2, 8, 112), Judgement::Built),
        (warm(0, 1, 2, 9, 112), Judgement::Unlawful),
        (warm(0, 1, 2, 8, 113), Judgement::Unlawful),
        (warm(1, 0, 0, 4, 112), Judgement::Unlawful),
        (warm(2, 2, 3, 1, 8), Judgement::Unlawful),
        (warm(2, 3, 3, 1, 8), Judgement::Unlawful),
    ];
    for (setting, wanted) in rows {
        expect_setting(&rt, rt.alloc(), setting, wanted)?;
    }
    Ok(())
}

fn minor(number: u8, version: u8) -> Setting {
    Setting::Minor(Minor {
        part: part(number),
        version,
    })
}

fn fault(number: u8, copy: u64) -> Setting {
    Setting::Fault(Fault {
        part: part(number),
        kind: CopyKind::Entries,
        copy,
        load: 0,
    })
}

#[test]
fn versions_and_faults(rt: HostRuntime) -> Result<(), Fail> {
    let rows = [
        (minor(2, 2), Judgement::Built),
        (minor(2, 3), Judgement::Unlawful),
        (minor(2, 0), Judgement::Unlawful),
        (minor(3, 1), Judgement::Unlawful),
        (fault(2, 1), Judgement::Built),
        (fault(2, 0), Judgement::Unlawful),
        (fault(3, 1), Judgement::Unlawful),
    ];
    for (setting, wanted) in rows {
        expect_setting(&rt, rt.alloc(), setting, wanted)?;
    }
    Ok(())
}

fn stop(number: u8, moment: Moment) -> Setting {
    Setting::Stop(Stop {
        part: part(number),
        moment,
    })
}

fn restart(number: u8, moment: Moment) -> Setting {
    Setting::Restart(Restart {
        part: part(number),
        moment,
    })
}

fn poke(owner: u8, index: u32) -> Setting {
    Setting::Poke(Poke {
        turn: 0,
        owner: part(owner),
        index,
        word: u64::MAX,
    })
}

#[test]
fn moments_and_pokes(rt: HostRuntime) -> Result<(), Fail> {
    let rows = [
        (stop(0, Moment::Put(1)), Judgement::Built),
        (stop(0, Moment::Put(0)), Judgement::Unlawful),
        (stop(3, Moment::Turn(0)), Judgement::Unlawful),
        (restart(2, Moment::Turn(0)), Judgement::Built),
        (restart(2, Moment::Put(0)), Judgement::Unlawful),
        (restart(3, Moment::Put(1)), Judgement::Unlawful),
        (poke(2, 36_431), Judgement::Unbuilt),
        (poke(2, 36_432), Judgement::Unlawful),
        (poke(3, 0), Judgement::Unlawful),
    ];
    for (setting, wanted) in rows {
        expect_setting(&rt, rt.alloc(), setting, wanted)?;
    }
    Ok(())
}

/// Judges the three partitions, where the script of partition 2 is this command.
fn expect_command(
    rt: &impl Abort,
    alloc: Global,
    command: Command,
    wanted: Judgement,
) -> Result<(), Fail> {
    let mut scenario = three(rt, alloc)?;
    let script = Script::new(vec![in alloc; command]?);
    assert!(rt; scenario.scripts.list.len() == 3);
    let boots = &mut scenario.scripts.list[2];
    boots.list = vec![in alloc; script]?;
    assert!(rt; judge(&scenario) == wanted);
    Ok(())
}

/// A command to partner 0 or 3, or to partition 2 itself.
fn expect_partners(rt: &impl Abort, alloc: Global, channel: Channel) -> Result<(), Fail> {
    expect_command(rt, alloc, drain(part(0), channel), Judgement::Built)?;
    expect_command(rt, alloc, drain(part(2), channel), Judgement::Unlawful)?;
    expect_command(rt, alloc, drain(part(3), channel), Judgement::Unlawful)
}

/// Commands on channel 1, which is the device's.
fn expect_device(rt: &impl Abort, alloc: Global, channel: Channel) -> Result<(), Fail> {
    expect_command(rt, alloc, drain(part(0), channel), Judgement::Unbuilt)?;
    expect_command(rt, alloc, take(part(0), channel), Judgement::Unlawful)?;
    expect_command(rt, alloc, release(part(0), channel, 0), Judgement::Unlawful)
}

fn send_of(alloc: Global, length: usize) -> Result<Command, Fail> {
    let bytes = vec![in alloc; 0u8; length]?;
    Ok(send(part(0), Channel::known(2), bytes))
}

fn net_of(alloc: Global, length: usize) -> Result<Command, Fail> {
    let frame = Payload::new(vec![in alloc; 0u8; length]?);
    Ok(Command::Net { frame })
}

fn register(entries: u8, limit: u16) -> Command {
    Command::Register {
        partner: part(0),
        channel: Channel::known(1),
        entries,
        limit,
    }
}

#[test]
fn partners(rt: HostRuntime) -> Result<(), Fail> {
    expect_partners(&rt, rt.alloc(), Channel::known(2))?;
    expect_device(&rt, rt.alloc(), Channel::known(1))
}

#[test]
fn lengths(rt: HostRuntime) -> Result<(), Fail> {
    for (length, wanted) in [(4_096, Judgement::Built), (4_097, Judgement::Unlawful)] {
        expect_command(&rt, rt.alloc(), send_of(rt.alloc(), length)?, wanted)?;
    }
    for (length, wanted) in [
        (13, Judgement::Unlawful),
        (14, Judgement::Unbuilt),
        (1_514, Judgement::Unbuilt),
        (1_515, Judgement::Unlawful),
    ] {
        expect_command(&rt, rt.alloc(), net_of(rt.alloc(), length)?, wanted)?;
    }
    Ok(())
}

#[test]
fn sizes_and_turns(rt: HostRuntime) -> Result<(), Fail> {
    for (entries, limit, wanted) in [
        (8, 112, Judgement::Unbuilt),
        (9, 112, Judgement::Unlawful),
        (0, 112, Judgement::Unlawful),
        (8, 113, Judgement::Unlawful),
    ] {
        expect_command(&rt, rt.alloc(), register(entries, limit), wanted)?;
    }
    for (turns, wanted) in [
        (0, Judgement::Unlawful),
        (1_000_000, Judgement::Built),
        (1_000_001, Judgement::Unlawful),
    ] {
        expect_command(&rt, rt.alloc(), Command::Idle { turns }, wanted)?;
    }
    Ok(())
}

/// Judges the three partitions with this schedule of one line.
fn expect_plan(rt: &impl Abort, alloc: Global, plan: Plan, wanted: Judgement) -> Result<(), Fail> {
    let mut scenario = three(rt, alloc)?;
    scenario.schedule = Some(Schedule {
        list: vec![in alloc; plan]?,
    });
    assert!(rt; judge(&scenario) == wanted);
    Ok(())
}

fn turns(number: u8, turns: u64) -> Plan {
    Plan::Turns {
        part: part(number),
        turns,
    }
}

/// A schedule has at most 16,000,000 turns; a round of three partitions is three.
#[test]
fn schedules(rt: HostRuntime) -> Result<(), Fail> {
    for (plan, wanted) in [
        (Plan::Rounds(5_333_333), Judgement::Built),
        (Plan::Rounds(5_333_334), Judgement::Unlawful),
        (turns(2, 16_000_000), Judgement::Built),
        (turns(2, 16_000_001), Judgement::Unlawful),
        (turns(3, 1), Judgement::Unlawful),
    ] {
        expect_plan(&rt, rt.alloc(), plan, wanted)?;
    }
    Ok(())
}
