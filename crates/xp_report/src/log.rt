// The lines of the commands that were begun.
ghost use Rattle.xp_report.specs.Lines.{Appends};
ghost use Rattle.xp_report.specs.Log.{command_text, entry_text, entries_text};

use crate::answers::write_answer;
use std::alloc::AllocError;
use xp_script::log::Entry;

#[tactic(auto, unfolding(crate::specs::Log::command_text))]
fn write_command(out: &mut String, entry: &Entry) -> Result<(), AllocError>
    ensures { Appends result out.old out.new (command_text entry.now) }
{
    write!(out, "  {} {} {} ", entry.boot, entry.number, entry.verb)
}

/// Writes the line of a command that was begun.
pub fn write_entry(out: &mut String, entry: &Entry) -> Result<(), AllocError>
    ensures { Appends result out.old out.new (entry_text entry.now) }
{
    write_command(out, entry)?;
    write_answer(out, &entry.answer)?;
    writeln!(out)
}

/// Writes the lines of the commands that were begun, in their order.
pub fn write_entries(out: &mut String, entries: &[Entry]) -> Result<(), AllocError>
    ensures { Appends result out.old out.new (entries_text entries.now) }
{
    for entry in entries {
        write_entry(out, entry)?;
    }
    Ok(())
}
