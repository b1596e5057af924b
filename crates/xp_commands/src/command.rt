// The readers of commands.
ghost use Rattle.std.specs.Prelude.{◌≡◌};
ghost use Rattle.xp_forms.specs.Forms.{Says, ends};
ghost use Rattle.xp_commands.specs.Lone.{net_form, frames_form, idle_form};

use std::alloc::Global;
use xp_base::body::SEND_BYTES;
use xp_base::frame::{FRAME_BYTES, HEADER_BYTES};
use xp_base::ids::{Channel, PartId};
use xp_base::layout::LINES;
use xp_forms::fault::{LineCause, LineError};
use xp_forms::fields::{bytes, channel, end, limit, messages, no_word, number, other};
use xp_script::command::Command;
use xp_script::count::Count;
use xp_script::limits::{IDLE_LIMIT, longest_limit};
use xp_script::log::Verb;
use xp_text::line::Line;

/// The partition whose script it is.
#[derive(Clone, Copy)]
pub struct Owner {
    /// How many partitions there are.
    pub count: Count,
    pub part: PartId,
    /// The minor version of the partition, 1 or 2.
    pub minor: u8,
    /// Whether the bytes of payloads are kept. Where they aren't, commands have none.
    pub keeps: bool,
}

impl Owner {
    ghost use Rattle.std.specs.Prelude.{◌≡◌, ◌<◌, ◌≤◌, ◌^◌};
    ghost use Rattle.xp_forms.specs.Forms.{Says};
    ghost use Rattle.xp_commands.specs.Commands.{command_form};
    ghost use Rattle.xp_script.specs.declared.log.Verb.TheVariants as verbs;

    /// Reads a command after its word.
    pub fn command(&self, alloc: Global, verb: Verb, line: &mut Line) -> Result<Command, LineError>
        ensures { Says result (command_form self.now verb) line.old }
    {
        match verb {
            Verb::Register => self.register(line),
            Verb::Unregister => self.unregister(line),
            Verb::Connected => self.connected(line),
            Verb::Closed => self.closed(line),
            Verb::Send => self.send(alloc, line),
            Verb::Take => self.take(line),
            Verb::Release => self.release(line),
            Verb::Drain => self.drain(line),
            Verb::Net => net(alloc, self.keeps, line),
            Verb::Frames => frames(line),
            Verb::Deactivate => self.deactivate(line),
            Verb::Activate => self.activate(line),
            Verb::Leave => bare(line, Command::Leave),
            Verb::Idle => idle(line),
            Verb::Offline => bare(line, Command::Offline),
            Verb::Online => bare(line, Command::Online),
        }
    }

    fn register(&self, line: &mut Line) -> Result<Command, LineError>
        ensures { Says result (command_form self.now verbs.Register) line.old }
    {
        let partner = other(line, self.count, self.part)?;
        let channel = channel(line)?;
        if !line.accept(b"entries") {
            return Err(no_word(line, LineCause::Word));
        }
        let entries = number(line, 1, LINES as u64)? as u8;
        if !line.accept(b"limit") {
            return Err(no_word(line, LineCause::Word));
        }
        let limit = limit(line, longest_limit(self.minor), entries)?;
        end(line, LineCause::Extra)?;
        Ok(Command::Register {
            partner,
            channel,
            entries,
            limit,
        })
    }

    fn unregister(&self, line: &mut Line) -> Result<Command, LineError>
        ensures { Says result (command_form self.now verbs.Unregister) line.old }
    {
        let partner = other(line, self.count, self.part)?;
        let channel = channel(line)?;
        end(line, LineCause::Extra)?;
        Ok(Command::Unregister { partner, channel })
    }

    fn connected(&self, line: &mut Line) -> Result<Command, LineError>
        ensures { Says result (command_form self.now verbs.Connected) line.old }
    {
        let partner = other(line, self.count, self.part)?;
        let channel = channel(line)?;
        end(line, LineCause::Extra)?;
        Ok(Command::Connected { partner, channel })
    }

    fn closed(&self, line: &mut Line) -> Result<Command, LineError>
        ensures { Says result (command_form self.now verbs.Closed) line.old }
    {
        let partner = other(line, self.count, self.part)?;
        let channel = channel(line)?;
        end(line, LineCause::Extra)?;
        Ok(Command::Closed { partner, channel })
    }

    fn drain(&self, line: &mut Line) -> Result<Command, LineError>
        ensures { Says result (command_form self.now verbs.Drain) line.old }
    {
        let partner = other(line, self.count, self.part)?;
        let channel = channel(line)?;
        end(line, LineCause::Extra)?;
        Ok(Command::Drain { partner, channel })
    }

    fn send(&self, alloc: Global, line: &mut Line) -> Result<Command, LineError>
        ensures { Says result (command_form self.now verbs.Send) line.old }
    {
        let partner = other(line, self.count, self.part)?;
        let channel = messages(line)?;
        let payload = bytes(alloc, line, self.keeps, 0, SEND_BYTES)?;
        let wait = !line.accept(b"nowait");
        let notify = line.accept(b"notify");
        end(
            line,
            if notify {
                LineCause::Extra
            } else {
                LineCause::Word
            },
        )?;
        Ok(Command::Send {
            partner,
            channel,
            payload,
            wait,
            notify,
        })
    }

    fn take(&self, line: &mut Line) -> Result<Command, LineError>
        ensures { Says result (command_form self.now verbs.Take) line.old }
    {
        let partner = other(line, self.count, self.part)?;
        let channel = messages(line)?;
        let wait = !line.accept(b"nowait");
        end(
            line,
            if wait {
                LineCause::Word
            } else {
                LineCause::Extra
            },
        )?;
        Ok(Command::Take {
            partner,
            channel,
            wait,
        })
    }

    fn release(&self, line: &mut Line) -> Result<Command, LineError>
        ensures { Says result (command_form self.now verbs.Release) line.old }
    {
        let partner = other(line, self.count, self.part)?;
        let channel = messages(line)?;
        let number = number(line, 0, u64::MAX)?;
        end(line, LineCause::Extra)?;
        Ok(Command::Release {
            partner,
            channel,
            number,
        })
    }

    fn deactivate(&self, line: &mut Line) -> Result<Command, LineError>
        ensures { Says result (command_form self.now verbs.Deactivate) line.old }
    {
        let partner = other(line, self.count, self.part)?;
        end(line, LineCause::Extra)?;
        Ok(Command::Deactivate { partner })
    }

    fn activate(&self, line: &mut Line) -> Result<Command, LineError>
        ensures { Says result (command_form self.now verbs.Activate) line.old }
    {
        let partner = other(line, self.count, self.part)?;
        end(line, LineCause::Extra)?;
        Ok(Command::Activate { partner })
    }
}

fn net(alloc: Global, keep: bool, line: &mut Line) -> Result<Command, LineError>
    ensures { Says result (net_form keep) line.old }
{
    let frame = bytes(alloc, line, keep, HEADER_BYTES, FRAME_BYTES)?;
    end(line, LineCause::Extra)?;
    Ok(Command::Net { frame })
}

fn frames(line: &mut Line) -> Result<Command, LineError>
    ensures { Says result frames_form line.old }
{
    let count = number(line, 0, u64::MAX)?;
    end(line, LineCause::Extra)?;
    Ok(Command::Frames { count })
}

fn idle(line: &mut Line) -> Result<Command, LineError>
    ensures { Says result idle_form line.old }
{
    let turns = number(line, 1, IDLE_LIMIT)?;
    end(line, LineCause::Extra)?;
    Ok(Command::Idle { turns })
}

/// A command that is its word alone.
fn bare(line: &mut Line, command: Command) -> Result<Command, LineError>
    ensures { Says result (ends command) line.old }
{
    end(line, LineCause::Extra)?;
    Ok(command)
}
