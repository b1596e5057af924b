// The program's commands.
ghost use Rattle.std.specs.Prelude.{◌≡◌};
ghost use Rattle.xp_tool.specs.Command.{is_plain};

/// What the program is asked to do.
#[derive(Clone, Copy)]
pub enum ToolCommand {
    /// Replays a scenario, and writes the report.
    Replay,
    /// Runs the partitions of a scenario as threads, and writes the report.
    Run,
    /// Replays a scenario, and writes the dump of the words that it leaves.
    Dump,
    /// Reads a dump, and writes its listing.
    Decode,
    /// Writes the text of the scenario that is made from a number.
    Gen { n: u32 },
    /// Replays the scenario that is made from a number, and writes its summary.
    Big { n: u32 },
}

/// How many bytes a scenario has at most.
pub const SCENARIO_LIMIT: usize = 1_048_576;
/// How many bytes a dump has at most.
pub const DUMP_LIMIT: usize = 33_554_432;

impl ToolCommand {
    /// Whether the command needs no threads, so that `plain` does it.
    pub fn is_plain(&self) -> bool
        ensures { result ≡ is_plain self.now }
    {
        match self {
            ToolCommand::Replay
            | ToolCommand::Dump
            | ToolCommand::Decode
            | ToolCommand::Gen { .. }
            | ToolCommand::Big { .. } => true,
            ToolCommand::Run => false,
        }
    }
}
