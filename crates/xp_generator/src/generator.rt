// The scenario of a number.
ghost use Rattle.std.specs.Prelude.{◌≡◌, ◌<◌, ◌++◌, IfOk, OnOk};
ghost use Rattle.xp_script.specs.Lawful.{IsLawful};
ghost use Rattle.xp_base.specs.declared.body.TheConstants.{LINE_BYTES};
ghost use Rattle.xp_generator.specs.Generated.{messages_of, next_of, previous_of, payload_of, opening, exchange, exchanges, script_between, script_of, scripts_of, generated};

use std::alloc::{AllocError, Global};
use xp_base::body::LINE_BYTES;
use xp_base::ids::{Channel, PartId};
use xp_script::command::Command;
use xp_script::count::Count;
use xp_script::made::{drain, release, send_with_notice, take};
use xp_script::scenario::Scenario;
use xp_script::schedule::{Plan, Schedule};
use xp_script::script::{Boots, Script, Scripts};
use xp_script::setting::{Faults, Minors, Pokes, Restarts, Stops, Warms};

/// The budget of each partition, and the rounds of the schedule.
pub const BUDGET: u64 = 2_000_000;

/// The entries of each queue.
pub const ENTRIES: u8 = 4;

/// The scenario of a number: 2 to 8 partitions in a ring, each of which sends some 100 to 190
/// messages to the next.
pub fn generate(alloc: Global, n: u32) -> Result<Scenario, AllocError>
    ensures scenario { IfOk result (λ scenario. scenario ≡ generated n) }
    ensures lawful { IfOk result IsLawful }
{
    ring(alloc, n)
}

fn ring(alloc: Global, n: u32) -> Result<Scenario, AllocError>
    ensures { IfOk result (λ scenario. scenario ≡ generated n) }
{
    let count = Count::known(2 + (n % 7) as u8);
    let scripts = scripts(alloc, n, count)?;
    let mut plans = Vec::new(alloc);
    plans.push(Plan::Rounds(BUDGET))?;
    Ok(Scenario {
        count,
        budget: BUDGET,
        check: 0,
        minors: Minors {
            list: Vec::new(alloc),
        },
        warms: Warms {
            list: Vec::new(alloc),
        },
        faults: Faults {
            list: Vec::new(alloc),
        },
        stops: Stops {
            list: Vec::new(alloc),
        },
        restarts: Restarts {
            list: Vec::new(alloc),
        },
        pokes: Pokes {
            list: Vec::new(alloc),
        },
        scripts,
        schedule: Some(Schedule { list: plans }),
    })
}

/// The scripts of all partitions.
fn scripts(alloc: Global, n: u32, count: Count) -> Result<Scripts, AllocError>
    ensures { IfOk result (λ scripts. scripts ≡ scripts_of n count count) }
{
    let mut list = Vec::new(alloc);
    for part in 0..count.get() {
        let mut boots = Vec::new(alloc);
        boots.push(script(alloc, n, count, PartId::known(part))?)?;
        list.push(Boots { list: boots })?;
    }
    Ok(Scripts { list })
}

/// The script of a partition.
fn script(alloc: Global, n: u32, count: Count, part: PartId) -> Result<Script, AllocError>
    requires { part < count }
    ensures { IfOk result (λ script. script ≡ script_of n count part) }
{
    let next = next(count, part);
    let previous = previous(count, part);
    let mut commands = Vec::new(alloc);
    push_opening(&mut commands, next, previous)?;
    for number in 0..messages(n) {
        push_exchange(alloc, &mut commands, n, part, next, previous, number)?;
    }
    commands.push(drain(next, Channel::known(0)))?;
    Ok(Script::new(commands))
}

/// The partition after this one in the ring.
fn next(count: Count, part: PartId) -> PartId
    requires { part < count }
    ensures { result ≡ next_of count part }
{
    if part.get() + 1 == count.get() {
        PartId::known(0)
    } else {
        PartId::known(part.get() + 1)
    }
}

/// The partition before this one in the ring.
fn previous(count: Count, part: PartId) -> PartId
    requires { part < count }
    ensures { result ≡ previous_of count part }
{
    if part.get() == 0 {
        PartId::known(count.get() - 1)
    } else {
        PartId::known(part.get() - 1)
    }
}

/// How many messages each partition sends.
fn messages(n: u32) -> u64
    ensures { result ≡ messages_of n }
{
    100 + 10 * (n as u64 % 10)
}

/// Appends the commands that register with the neighbours and wait for them.
fn push_opening(
    commands: &mut Vec<Command>,
    next: PartId,
    previous: PartId,
) -> Result<(), AllocError>
    ensures { OnOk result (commands.new.items ≡ commands.old.items ++ opening next previous) }
{
    if previous == next {
        commands.push(register(next))?;
        commands.push(connected(next))?;
        return Ok(());
    }
    commands.push(register(next))?;
    commands.push(register(previous))?;
    commands.push(connected(next))?;
    commands.push(connected(previous))?;
    Ok(())
}

fn register(partner: PartId) -> Command
    ensures { result ≡ Command.Register partner 0 ENTRIES LINE_BYTES }
{
    Command::Register {
        partner,
        channel: Channel::known(0),
        entries: ENTRIES,
        limit: LINE_BYTES as u16,
    }
}

fn connected(partner: PartId) -> Command
    ensures { result ≡ Command.Connected partner 0 }
{
    Command::Connected {
        partner,
        channel: Channel::known(0),
    }
}

/// Appends the commands that send one message, and take and release one.
fn push_exchange(
    alloc: Global,
    commands: &mut Vec<Command>,
    n: u32,
    part: PartId,
    next: PartId,
    previous: PartId,
    number: u64,
) -> Result<(), AllocError>
    requires { number < 1000 }
    ensures { OnOk result
        (commands.new.items ≡ commands.old.items ++ exchange n part next previous number) }
{
    let payload = payload(alloc, n, part, number)?;
    commands.push(send_with_notice(next, Channel::known(0), payload))?;
    commands.push(take(previous, Channel::known(0)))?;
    commands.push(release(previous, Channel::known(0), number))?;
    Ok(())
}

/// The payload of a message of a partition.
fn payload(alloc: Global, n: u32, part: PartId, number: u64) -> Result<Vec<u8>, AllocError>
    requires { number < 1000 }
    ensures { IfOk result (λ bytes. bytes.items ≡ payload_of n part number) }
{
    let part = part.get() as u64;
    let len = (n as u64 + 7 * number + 13 * part) % 113;
    let byte = (n as u64 + number + 31 * part) % 256;
    vec![in alloc; byte as u8; len as usize]
}
