// Scenarios as tables have them.
use std::alloc::{AllocError, Global};
use std::process::Abort;
use xp_base::ids::{Channel, PartId};
use xp_script::command::Command;
use xp_script::made::{joined, release, send, simple, take};
use xp_script::scenario::Scenario;
use xp_script::script::Script;
use xp_script::setting::Warm;

/// A command: its partner, its channel, and the rest. Each waits; a send asks for no notice.
#[derive(Clone, Copy)]
pub enum Line {
    Send(u8, u8, &'static [u8]),
    Take(u8, u8),
    Release(u8, u8, u64),
}

/// A channel that opens connected: its two partitions, the channel, and how many messages a queue
/// holds. Payloads have at most 112 bytes.
#[derive(Clone, Copy)]
pub struct Joined(pub u8, pub u8, pub u8, pub u8);

fn part(number: u8) -> PartId {
    PartId::known(number % 8)
}

fn channel(number: u8) -> Channel {
    Channel::known(number % 4)
}

/// The command of a line.
fn command(alloc: Global, line: Line) -> Result<Command, AllocError> {
    Ok(match line {
        Line::Send(q, c, bytes) => send(part(q), channel(c), bytes.to_vec(alloc)?),
        Line::Take(q, c) => take(part(q), channel(c)),
        Line::Release(q, c, number) => release(part(q), channel(c), number),
    })
}

/// A script.
pub fn script(alloc: Global, lines: &[Line]) -> Result<Script, AllocError> {
    let mut commands = Vec::new(alloc);
    for line in lines {
        commands.push(command(alloc, *line)?)?;
    }
    Ok(Script::new(commands))
}

fn channels(alloc: Global, joins: &[Joined]) -> Result<Vec<Warm>, AllocError> {
    let mut warms = Vec::new(alloc);
    for join in joins {
        warms.push(joined(part(join.0), part(join.1), channel(join.2), join.3))?;
    }
    Ok(warms)
}

/// A scenario of these channels and scripts, one for each partition, with so many rounds.
pub fn scenario(
    rt: &impl Abort,
    alloc: Global,
    joins: &[Joined],
    scripts: &[&[Line]],
    rounds: u64,
) -> Result<Scenario, AllocError> {
    let mut list = Vec::new(alloc);
    for lines in scripts {
        list.push(script(alloc, lines)?)?;
    }
    assert!(rt; 2 <= list.len() && list.len() <= 64);
    simple(alloc, channels(alloc, joins)?, list, rounds)
}
