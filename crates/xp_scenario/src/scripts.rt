// The scripts that are read so far.
ghost use Rattle.std.specs.Prelude.{◌≡◌, [], replicate, OnOk, IfOk};
ghost use Rattle.xp_scenario.specs.Scripts.{script_begun, command_added, in_last};

use std::alloc::{AllocError, Global};
use xp_base::ids::PartId;
use xp_script::command::Command;
use xp_script::count::Count;
use xp_script::script::{Boots, Script, Scripts};

/// No script of any of so many partitions.
pub fn blank_scripts(alloc: Global, count: Count) -> Result<Scripts, AllocError>
    ensures { IfOk result (λ scripts. scripts ≡ replicate count []) }
{
    let mut list = Vec::new(alloc);
    for _ in 0..count.get() {
        list.push(Boots {
            list: Vec::new(alloc),
        })?;
    }
    Ok(Scripts { list })
}

/// Begins a script of the partition.
pub fn begin_script(alloc: Global, scripts: &mut Scripts, part: PartId) -> Result<(), AllocError>
    ensures { OnOk result (scripts.new ≡ script_begun part scripts.old) }
{
    if let Some(boots) = scripts.list.get_mut(part.get() as usize) {
        boots.list.push(Script {
            commands: Vec::new(alloc),
        })?;
    }
    Ok(())
}

/// Adds a command to the partition's last script.
pub fn add_command(scripts: &mut Scripts, part: PartId, command: Command) -> Result<(), AllocError>
    ensures { OnOk result (scripts.new ≡ command_added part command scripts.old) }
{
    match scripts.list.get_mut(part.get() as usize) {
        Some(boots) => add_to_last(boots, command),
        None => Ok(()),
    }
}

fn add_to_last(boots: &mut Boots, command: Command) -> Result<(), AllocError>
    ensures { OnOk result (boots.new ≡ in_last command boots.old) }
{
    if let Some(script) = boots.list.last_mut() {
        script.commands.push(command)?;
    }
    Ok(())
}
