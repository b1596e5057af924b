// Why a text isn't a scenario.
ghost use Rattle.std.specs.Prelude.{◌≡◌, Some};
ghost use Rattle.xp_scenario.specs.Faults.{what_text};

use std::fmt;
use xp_forms::fault::LineCause;

/// What a scenario has too many of.
#[derive(Clone, Copy, Debug, PartialEq, Eq)]
pub enum What {
    Commands,
    /// Bytes of payloads and of frames.
    PayloadBytes,
    /// Turns of the schedule, or of all partitions' budgets.
    Turns,
    /// Setting lines, but for the budget and the interval of heartbeat checks.
    Settings,
    /// Scripts of one partition.
    Scripts,
}

impl fmt::Display for What {
    ghost output = { λ what. Some (what_text what) };

    fn fmt<W: fmt::Write>(&self, f: &mut fmt::Formatter<W>) -> fmt::Result {
        f.write_str(match self {
            What::Commands => "commands",
            What::PayloadBytes => "payload-bytes",
            What::Turns => "turns",
            What::Settings => "settings",
            What::Scripts => "scripts",
        })
    }
}

/// Why a text isn't a scenario: its first fault. Lines and columns count from 1.
#[derive(Clone, Copy, Debug, PartialEq, Eq)]
pub enum ScenarioFault {
    /// The first line that isn't right, and the column of the word that shows it. Where a word is
    /// missing it is one past the line's last byte, and at the end of the text the column after the
    /// last byte.
    BadLine {
        line: u64,
        column: u64,
        cause: LineCause,
    },
    /// Every line is right, but there is more than this limit of something.
    TooMany {
        what: What,
        limit: u64,
    },
    Memory,
}
