// How much a scenario has in all, against a limit: commands, bytes of payloads and frames, turns
// and settings.
ghost use Rattle.std.specs.Prelude.{◌≡◌, length};
ghost use Rattle.xp_script.specs.Totals.{Leaves, command_bytes, script_bytes, boots_bytes, boots_commands, command_count, payload_bytes, plan_turns, turn_count, setting_count};

use crate::command::Command;
use crate::count::Count;
use crate::scenario::Scenario;
use crate::schedule::Plan;
use crate::script::{Boots, Script};

/// What the commands of all scripts leave of a limit; None where they pass it.
pub fn commands_left(scripts: &[Boots], limit: u64) -> Option<u64>
    ensures { Leaves result limit (command_count scripts.now) }
{
    let mut left = limit;
    for boots in scripts {
        left = script_commands_left(&boots.list, left)?;
    }
    Some(left)
}

#[tactic(auto, unfolding(crate::specs::Totals::boots_commands))]
fn script_commands_left(boots: &[Script], limit: u64) -> Option<u64>
    ensures { Leaves result limit (boots_commands boots.now) }
{
    let mut left = limit;
    for script in boots {
        left = left.checked_sub(script.commands.len() as u64)?;
    }
    Some(left)
}

/// What the bytes of payloads and frames of all scripts leave of a limit; None where they pass it.
pub fn payload_bytes_left(scripts: &[Boots], limit: u64) -> Option<u64>
    ensures { Leaves result limit (payload_bytes scripts.now) }
{
    let mut left = limit;
    for boots in scripts {
        left = boots_bytes_left(&boots.list, left)?;
    }
    Some(left)
}

#[tactic(auto, unfolding(crate::specs::Totals::boots_bytes))]
fn boots_bytes_left(boots: &[Script], limit: u64) -> Option<u64>
    ensures { Leaves result limit (boots_bytes boots.now) }
{
    let mut left = limit;
    for script in boots {
        left = script_bytes_left(&script.commands, left)?;
    }
    Some(left)
}

#[tactic(auto, unfolding(crate::specs::Totals::script_bytes))]
fn script_bytes_left(commands: &[Command], limit: u64) -> Option<u64>
    ensures { Leaves result limit (script_bytes commands.now) }
{
    let mut left = limit;
    for command in commands {
        left = left.checked_sub(command_bytes(command))?;
    }
    Some(left)
}

// How many bytes a command sends.
fn command_bytes(command: &Command) -> u64
    ensures { result ≡ command_bytes command.now }
{
    match command {
        Command::Send { payload, .. } => payload.bytes().len() as u64,
        Command::Net { frame } => frame.bytes().len() as u64,
        _ => 0,
    }
}

/// What the turns of a schedule's lines leave of a limit; None where they pass it.
pub fn turns_left(count: Count, plans: &[Plan], limit: u64) -> Option<u64>
    ensures { Leaves result limit (turn_count count plans.now) }
{
    let mut left = limit;
    for plan in plans {
        left = plan_turns_left(count, *plan, left)?;
    }
    Some(left)
}

fn plan_turns_left(count: Count, plan: Plan, limit: u64) -> Option<u64>
    ensures { Leaves result limit (plan_turns count plan) }
{
    match plan {
        Plan::Turns { turns, .. } => limit.checked_sub(turns),
        Plan::Rounds(rounds) => limit.checked_sub((count.get() as u64).checked_mul(rounds)?),
    }
}

/// What the settings of a scenario leave of a limit; None where they pass it.
pub fn settings_left(scenario: &Scenario, limit: u64) -> Option<u64>
    ensures { Leaves result limit (setting_count scenario.now) }
{
    let left = limit.checked_sub(scenario.minors.list.len() as u64)?;
    let left = left.checked_sub(scenario.warms.list.len() as u64)?;
    let left = left.checked_sub(scenario.faults.list.len() as u64)?;
    let left = left.checked_sub(scenario.stops.list.len() as u64)?;
    let left = left.checked_sub(scenario.restarts.list.len() as u64)?;
    left.checked_sub(scenario.pokes.list.len() as u64)
}
