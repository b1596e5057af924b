// The lines of a partition itself.
ghost use Rattle.std.specs.Prelude.{◌≡◌};
ghost use Rattle.xp_report.specs.Lines.{Appends};
ghost use Rattle.xp_report.specs.Report.{state_text, head_text, pool_text};

use std::alloc::AllocError;
use xp_node::ended::Ended;

/// How a partition stands, as one word.
fn state_name(ended: Option<Ended>) -> &'static str
    ensures { result.now ≡ state_text ended }
{
    match ended {
        None => "running",
        Some(Ended::Done) => "done",
        Some(Ended::Stopped) => "stopped",
        Some(Ended::Halted { word: _ }) => "halted",
    }
}

/// Writes how a partition stands, and how often it has booted.
#[tactic(auto, unfolding(crate::specs::Report::head_text))]
pub fn write_head(
    out: &mut String,
    part: u8,
    ended: Option<Ended>,
    boots: u8,
) -> Result<(), AllocError>
    ensures { Appends result out.old out.new (head_text part ended boots) }
{
    let state = state_name(ended);
    writeln!(out, "partition {part} {state} boots {boots}")
}

/// Writes how many buffers of the network device are in use, where any is.
#[tactic(auto, unfolding(crate::specs::Report::pool_text))]
pub fn write_pool(out: &mut String, in_use: u8) -> Result<(), AllocError>
    ensures { Appends result out.old out.new (pool_text in_use) }
{
    if in_use > 0 {
        writeln!(out, "  pool {in_use}")
    } else {
        Ok(())
    }
}
