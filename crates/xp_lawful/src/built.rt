// Which lawful scenarios the rules of today can run.
ghost use Rattle.std.specs.Prelude.{◌≡◌, ◌≢◌, ℕ, ◌<◌, ◌↔◌, length, IsTrue};
ghost use Rattle.std.specs.List.{AllByRecursion};
ghost use Rattle.xp_script.specs.Lawful.{IsLawful};
ghost use Rattle.xp_lawful.specs.Built.{HasBuiltSettings, IsBuilt, IsBuiltCommand, IsBuiltPart, IsBuiltWarm};
ghost use Rattle.xp_script.specs.declared.limits.TheConstants.{DEVICE_CHANNEL};

use xp_base::ids::{Channel, PartId};
use xp_script::command::Command;
use xp_script::limits::DEVICE_CHANNEL;
use xp_script::scenario::Scenario;
use xp_script::script::Script;
use xp_script::setting::Warm;

/// Whether the rules of today can run a scenario.
pub fn is_built(scenario: &Scenario) -> bool
    requires { IsLawful scenario.now }
    ensures { IsTrue result ↔ IsBuilt scenario.now }
{
    has_built_settings(scenario) && are_built_parts(scenario)
}

fn has_built_settings(scenario: &Scenario) -> bool
    ensures { IsTrue result ↔ HasBuiltSettings scenario.now }
{
    are_built_warms(&scenario.warms.list) && scenario.pokes.list.is_empty()
}

fn are_built_warms(warms: &[Warm]) -> bool
    ensures { IsTrue result ↔ AllByRecursion IsBuiltWarm warms.now }
{
    for warm in warms {
        if !is_built_channel(warm.channel) {
            return false;
        }
    }
    true
}

// Whether the scripts of each partition are built.
fn are_built_parts(scenario: &Scenario) -> bool
    requires { length scenario.now.scripts ≡ scenario.now.count }
    ensures { IsTrue result ↔ ((p : ℕ) → p < scenario.now.count → IsBuiltPart scenario.now p) }
{
    let end = scenario.count.get();
    for part in 0..end {
        if !is_built_part(scenario, PartId::known(part)) {
            return false;
        }
    }
    true
}

fn is_built_part(scenario: &Scenario, part: PartId) -> bool
    requires { part < length scenario.now.scripts }
    ensures { IsTrue result ↔ IsBuiltPart scenario.now part }
{
    are_built_boots(&scenario.scripts.list[part.get() as usize].list)
}

fn are_built_boots(boots: &[Script]) -> bool
    ensures { IsTrue result ↔ AllByRecursion (AllByRecursion IsBuiltCommand) boots.now }
{
    for script in boots {
        if !are_built_commands(&script.commands) {
            return false;
        }
    }
    true
}

fn are_built_commands(commands: &[Command]) -> bool
    ensures { IsTrue result ↔ AllByRecursion IsBuiltCommand commands.now }
{
    for command in commands {
        if !is_built_command(command) {
            return false;
        }
    }
    true
}

fn is_built_command(command: &Command) -> bool
    ensures { IsTrue result ↔ IsBuiltCommand command.now }
{
    match command {
        Command::Register { channel, .. } => is_built_channel(*channel),
        Command::Unregister { channel, .. } => is_built_channel(*channel),
        Command::Connected { channel, .. } => is_built_channel(*channel),
        Command::Closed { channel, .. } => is_built_channel(*channel),
        Command::Drain { channel, .. } => is_built_channel(*channel),
        Command::Net { .. } | Command::Frames { .. } => false,
        _ => true,
    }
}

// The network device isn't built.
fn is_built_channel(channel: Channel) -> bool
    ensures { IsTrue result ↔ (channel ≢ DEVICE_CHANNEL) }
{
    channel.get() != DEVICE_CHANNEL
}
