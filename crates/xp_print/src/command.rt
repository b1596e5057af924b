// The lines of commands.
ghost use Rattle.std.specs.Prelude.{◌≡◌};
ghost use Rattle.xp_print.specs.Lines.{Appends, line_text};
ghost use Rattle.xp_print.specs.Words.{command_words};
ghost use Rattle.xp_script.specs.declared.command.Command.TheVariants as commands;

use crate::payload::write_payload;
use std::alloc::AllocError;
use xp_base::ids::{Channel, PartId};
use xp_script::command::Command;
use xp_script::payload::Payload;

/// Writes the line of a command.
pub fn write_command(out: &mut String, command: &Command) -> Result<(), AllocError>
    ensures { Appends result out.old out.new (line_text (command_words command.now)) }
{
    match command {
        Command::Register {
            partner,
            channel,
            entries,
            limit,
        } => { write_register(out, *partner, *channel, *entries, *limit) }
        Command::Unregister { partner, channel } => {
            writeln!(out, "unregister {} {}", partner.get(), channel.get())
        }
        Command::Connected { partner, channel } => {
            writeln!(out, "connected {} {}", partner.get(), channel.get())
        }
        Command::Closed { partner, channel } => {
            writeln!(out, "closed {} {}", partner.get(), channel.get())
        }
        Command::Send {
            partner,
            channel,
            payload,
            wait,
            notify,
        } => { write_send(out, *partner, *channel, payload, *wait, *notify) }
        Command::Take {
            partner,
            channel,
            wait,
        } => write_take(out, *partner, *channel, *wait),
        Command::Release {
            partner,
            channel,
            number,
        } => { writeln!(out, "release {} {} {number}", partner.get(), channel.get()) }
        Command::Drain { partner, channel } => {
            writeln!(out, "drain {} {}", partner.get(), channel.get())
        }
        Command::Net { frame } => write_net(out, frame),
        Command::Frames { count } => writeln!(out, "frames {count}"),
        Command::Deactivate { partner } => writeln!(out, "deactivate {}", partner.get()),
        Command::Activate { partner } => writeln!(out, "activate {}", partner.get()),
        Command::Leave => writeln!(out, "leave"),
        Command::Idle { turns } => writeln!(out, "idle {turns}"),
        Command::Offline => writeln!(out, "offline"),
        Command::Online => writeln!(out, "online"),
    }
}

fn write_register(
    out: &mut String,
    partner: PartId,
    channel: Channel,
    entries: u8,
    limit: u16,
) -> Result<(), AllocError>
    ensures { Appends result out.old out.new
        (line_text (command_words (commands.Register partner channel entries limit))) }
{
    let partner = partner.get();
    let channel = channel.get();
    writeln!(
        out,
        "register {partner} {channel} entries {entries} limit {limit}"
    )
}

fn write_send(
    out: &mut String,
    partner: PartId,
    channel: Channel,
    payload: &Payload,
    wait: bool,
    notify: bool,
) -> Result<(), AllocError>
    ensures { Appends result out.old out.new
        (line_text (command_words (commands.Send partner channel payload.now wait notify))) }
{
    let partner = partner.get();
    let channel = channel.get();
    write!(out, "send {partner} {channel} ")?;
    write_payload(out, payload.bytes())?;
    match (wait, notify) {
        (true, true) => writeln!(out, " notify"),
        (true, false) => writeln!(out),
        (false, true) => {
            write!(out, " nowait")?;
            writeln!(out, " notify")
        }
        (false, false) => writeln!(out, " nowait"),
    }
}

fn write_take(
    out: &mut String,
    partner: PartId,
    channel: Channel,
    wait: bool,
) -> Result<(), AllocError>
    ensures { Appends result out.old out.new
        (line_text (command_words (commands.Take partner channel wait))) }
{
    let partner = partner.get();
    let channel = channel.get();
    if wait {
        writeln!(out, "take {partner} {channel}")
    } else {
        writeln!(out, "take {partner} {channel} nowait")
    }
}

fn write_net(out: &mut String, frame: &Payload) -> Result<(), AllocError>
    ensures { Appends result out.old out.new (line_text (command_words (commands.Net frame.now))) }
{
    write!(out, "net ")?;
    write_payload(out, frame.bytes())?;
    writeln!(out)
}
