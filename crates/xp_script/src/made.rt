// Scenarios and commands that are made in code.
ghost use Rattle.std.specs.Prelude.{◌≡◌, length, [], ◌∷◌, true, false, IfOk};
ghost use Rattle.xp_base.specs.declared.body.TheConstants.{LINE_BYTES};
ghost use Rattle.xp_script.specs.Sizes.{IsCount};
ghost use Rattle.xp_script.specs.Simple.{one_boot_each, simple};

use crate::command::Command;
use crate::count::Count;
use crate::limits::default_budget;
use crate::payload::Payload;
use crate::scenario::Scenario;
use crate::schedule::{Plan, Schedule};
use crate::script::{Boots, Script, Scripts};
use crate::setting::{Faults, Minors, Pokes, Restarts, Stops, Warm, Warms};
use std::alloc::{AllocError, Global};
use xp_base::body::LINE_BYTES;
use xp_base::ids::{Channel, PartId};

/// A send that waits for room, and asks for no notice.
pub fn send(partner: PartId, channel: Channel, bytes: Vec<u8>) -> Command
    ensures { result ≡ Command.Send partner channel bytes.items true false }
{
    Command::Send {
        partner,
        channel,
        payload: Payload::new(bytes),
        wait: true,
        notify: false,
    }
}

/// A send that a full queue refuses, and that asks for no notice.
pub fn send_now(partner: PartId, channel: Channel, bytes: Vec<u8>) -> Command
    ensures { result ≡ Command.Send partner channel bytes.items false false }
{
    Command::Send {
        partner,
        channel,
        payload: Payload::new(bytes),
        wait: false,
        notify: false,
    }
}

/// A send that waits for room, and asks for a notice of its delivery.
pub fn send_with_notice(partner: PartId, channel: Channel, bytes: Vec<u8>) -> Command
    ensures { result ≡ Command.Send partner channel bytes.items true true }
{
    Command::Send {
        partner,
        channel,
        payload: Payload::new(bytes),
        wait: true,
        notify: true,
    }
}

/// A take that waits for a message.
pub fn take(partner: PartId, channel: Channel) -> Command
    ensures { result ≡ Command.Take partner channel true }
{
    Command::Take {
        partner,
        channel,
        wait: true,
    }
}

/// A take that an empty queue refuses.
pub fn take_now(partner: PartId, channel: Channel) -> Command
    ensures { result ≡ Command.Take partner channel false }
{
    Command::Take {
        partner,
        channel,
        wait: false,
    }
}

/// The release of a message.
pub fn release(partner: PartId, channel: Channel, number: u64) -> Command
    ensures { result ≡ Command.Release partner channel number }
{
    Command::Release {
        partner,
        channel,
        number,
    }
}

/// A drain: it waits until all that was accepted is acknowledged.
pub fn drain(partner: PartId, channel: Channel) -> Command
    ensures { result ≡ Command.Drain partner channel }
{
    Command::Drain { partner, channel }
}

/// A channel that opens connected, and allows the longest payloads of entries of one line.
pub fn joined(first: PartId, second: PartId, channel: Channel, entries: u8) -> Warm
    ensures { result ≡ record {
      first = first;
      second = second;
      channel = channel;
      entries = entries;
      limit = LINE_BYTES;
    } }
{
    Warm {
        first,
        second,
        channel,
        entries,
        limit: LINE_BYTES as u16,
    }
}

/// A scenario of these channels and scripts, one script for each partition, with so many rounds.
pub fn simple(
    alloc: Global,
    warms: Vec<Warm>,
    scripts: Vec<Script>,
    rounds: u64,
) -> Result<Scenario, AllocError>
    requires { IsCount (length scripts.items) }
    ensures { IfOk result (λ scenario. scenario ≡ simple warms.items scripts.items rounds) }
{
    let count = scripts.len() as u8;
    Ok(Scenario {
        count: Count::known(count),
        budget: default_budget(count),
        check: 0,
        minors: Minors {
            list: Vec::new(alloc),
        },
        warms: Warms { list: warms },
        faults: Faults {
            list: Vec::new(alloc),
        },
        stops: Stops {
            list: Vec::new(alloc),
        },
        restarts: Restarts {
            list: Vec::new(alloc),
        },
        pokes: Pokes {
            list: Vec::new(alloc),
        },
        scripts: one_boot_each(alloc, &scripts)?,
        schedule: Some(Schedule {
            list: vec![in alloc; Plan::Rounds(rounds)]?,
        }),
    })
}

// Scripts of partitions that boot once.
fn one_boot_each(alloc: Global, scripts: &[Script]) -> Result<Scripts, AllocError>
    ensures { IfOk result (λ made. made ≡ one_boot_each scripts.now) }
{
    let mut list = Vec::new(alloc);
    for script in scripts {
        list.push(one_boot(alloc, script)?)?;
    }
    Ok(Scripts { list })
}

fn one_boot(alloc: Global, script: &Script) -> Result<Boots, AllocError>
    ensures { IfOk result (λ boots. boots ≡ script.now ∷ []) }
{
    let mut list = Vec::new(alloc);
    list.push(script.copy(alloc)?)?;
    Ok(Boots { list })
}
