// The lines of settings.
ghost use Rattle.std.specs.Prelude.{◌≡◌};
ghost use Rattle.xp_print.specs.Lines.{Appends, line_text, written};
ghost use Rattle.xp_print.specs.Words.{minor_words, warm_words, fault_words, stop_words, restart_words, poke_words};
ghost use Rattle.xp_print.specs.Text.{minor_lines, warm_lines, fault_lines, stop_lines, restart_lines, poke_lines};

use std::alloc::AllocError;
use xp_script::setting::{Fault, Minor, Moment, Poke, Restart, Stop, Warm};

/// Writes the lines of minor versions.
pub fn write_minors(out: &mut String, minors: &[Minor]) -> Result<(), AllocError>
    ensures { Appends result out.old out.new (written (minor_lines minors.now)) }
{
    for minor in minors {
        write_minor(out, *minor)?;
    }
    Ok(())
}

fn write_minor(out: &mut String, minor: Minor) -> Result<(), AllocError>
    ensures { Appends result out.old out.new (line_text (minor_words minor)) }
{
    let part = minor.part.get();
    let version = minor.version;
    writeln!(out, "minor {part} {version}")
}

/// Writes the lines of channels that open connected.
pub fn write_warms(out: &mut String, warms: &[Warm]) -> Result<(), AllocError>
    ensures { Appends result out.old out.new (written (warm_lines warms.now)) }
{
    for warm in warms {
        write_warm(out, *warm)?;
    }
    Ok(())
}

fn write_warm(out: &mut String, warm: Warm) -> Result<(), AllocError>
    ensures { Appends result out.old out.new (line_text (warm_words warm)) }
{
    let first = warm.first.get();
    let second = warm.second.get();
    let channel = warm.channel.get();
    let entries = warm.entries;
    let limit = warm.limit;
    writeln!(
        out,
        "warm {first} {second} {channel} entries {entries} limit {limit}"
    )
}

/// Writes the lines of loads that fail.
pub fn write_faults(out: &mut String, faults: &[Fault]) -> Result<(), AllocError>
    ensures { Appends result out.old out.new (written (fault_lines faults.now)) }
{
    for fault in faults {
        write_fault(out, *fault)?;
    }
    Ok(())
}

fn write_fault(out: &mut String, fault: Fault) -> Result<(), AllocError>
    ensures { Appends result out.old out.new (line_text (fault_words fault)) }
{
    let part = fault.part.get();
    let kind = fault.kind;
    let copy = fault.copy;
    let load = fault.load;
    writeln!(out, "fault {part} {kind} {copy} at {load}")
}

/// Writes the lines of partitions that stop.
pub fn write_stops(out: &mut String, stops: &[Stop]) -> Result<(), AllocError>
    ensures { Appends result out.old out.new (written (stop_lines stops.now)) }
{
    for stop in stops {
        write_stop(out, *stop)?;
    }
    Ok(())
}

fn write_stop(out: &mut String, stop: Stop) -> Result<(), AllocError>
    ensures { Appends result out.old out.new (line_text (stop_words stop)) }
{
    let part = stop.part.get();
    match stop.moment {
        Moment::Put(put) => writeln!(out, "stop {part} put {put}"),
        Moment::Turn(turn) => writeln!(out, "stop {part} turn {turn}"),
    }
}

/// Writes the lines of restarts.
pub fn write_restarts(out: &mut String, restarts: &[Restart]) -> Result<(), AllocError>
    ensures { Appends result out.old out.new (written (restart_lines restarts.now)) }
{
    for restart in restarts {
        write_restart(out, *restart)?;
    }
    Ok(())
}

fn write_restart(out: &mut String, restart: Restart) -> Result<(), AllocError>
    ensures { Appends result out.old out.new (line_text (restart_words restart)) }
{
    let part = restart.part.get();
    match restart.moment {
        Moment::Put(put) => writeln!(out, "restart {part} put {put}"),
        Moment::Turn(turn) => writeln!(out, "restart {part} turn {turn}"),
    }
}

/// Writes the lines of words that are written from outside.
pub fn write_pokes(out: &mut String, pokes: &[Poke]) -> Result<(), AllocError>
    ensures { Appends result out.old out.new (written (poke_lines pokes.now)) }
{
    for poke in pokes {
        write_poke(out, *poke)?;
    }
    Ok(())
}

fn write_poke(out: &mut String, poke: Poke) -> Result<(), AllocError>
    ensures { Appends result out.old out.new (line_text (poke_words poke)) }
{
    let turn = poke.turn;
    let owner = poke.owner.get();
    let index = poke.index;
    let word = poke.word;
    writeln!(out, "poke {turn} {owner} {index} {word}")
}
