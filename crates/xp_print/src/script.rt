// The scripts of a scenario, and its schedule.
ghost use Rattle.std.specs.Prelude.{◌≡◌, ◌≤◌, length};
ghost use Rattle.xp_base.specs.declared.layout.TheConstants.{PARTS};
ghost use Rattle.xp_print.specs.Lines.{Appends, line_text, written};
ghost use Rattle.xp_print.specs.Words.{plan_words};
ghost use Rattle.xp_print.specs.Text.{command_lines, script_text, boots_text, scripts_text, plan_lines};

use crate::command::write_command;
use std::alloc::AllocError;
use xp_base::layout::PARTS;
use xp_script::command::Command;
use xp_script::schedule::Plan;
use xp_script::script::{Boots, Script};

/// Writes the scripts of all partitions.
pub fn write_scripts(out: &mut String, scripts: &[Boots]) -> Result<(), AllocError>
    requires { length scripts.now ≤ PARTS }
    ensures { Appends result out.old out.new (scripts_text 0 scripts.now) }
{
    for (part, boots) in scripts.iter().enumerate() {
        write_boots(out, part as u8, &boots.list)?;
    }
    Ok(())
}

/// Writes the scripts of a partition, one for each boot.
fn write_boots(out: &mut String, part: u8, boots: &[Script]) -> Result<(), AllocError>
    ensures { Appends result out.old out.new (boots_text part boots.now) }
{
    for script in boots {
        write_script(out, part, &script.commands)?;
    }
    Ok(())
}

fn write_script(out: &mut String, part: u8, commands: &[Command]) -> Result<(), AllocError>
    ensures { Appends result out.old out.new (script_text part commands.now) }
{
    writeln!(out, "script {part}")?;
    write_commands(out, commands)
}

fn write_commands(out: &mut String, commands: &[Command]) -> Result<(), AllocError>
    ensures { Appends result out.old out.new (written (command_lines commands.now)) }
{
    for command in commands {
        write_command(out, command)?;
    }
    Ok(())
}

/// Writes the lines of a schedule.
pub fn write_plans(out: &mut String, plans: &[Plan]) -> Result<(), AllocError>
    ensures { Appends result out.old out.new (written (plan_lines plans.now)) }
{
    for plan in plans {
        write_plan(out, *plan)?;
    }
    Ok(())
}

fn write_plan(out: &mut String, plan: Plan) -> Result<(), AllocError>
    ensures { Appends result out.old out.new (line_text (plan_words plan)) }
{
    match plan {
        Plan::Turns { part, turns } => writeln!(out, "turns {} {turns}", part.get()),
        Plan::Rounds(rounds) => writeln!(out, "rounds {rounds}"),
    }
}
