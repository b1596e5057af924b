// What the lines of a text have said so far.
ghost use Rattle.std.specs.Prelude.{◌≡◌};
ghost use Rattle.xp_script.specs.Totals.{command_bytes};

use crate::scripts::{add_command, begin_script, blank_scripts};
use std::alloc::{AllocError, Global};
use xp_base::ids::PartId;
use xp_commands::command::Owner;
use xp_script::command::Command;
use xp_script::count::Count;
use xp_script::limits::{COMMAND_LIMIT, FEWEST_PARTS, PAYLOAD_BYTES_LIMIT};
use xp_script::schedule::{Plan, Schedule};
use xp_script::script::Scripts;
use xp_settings::settings::Settings;

/// Where in the text the next line stands.
#[derive(Clone, Copy, PartialEq, Eq)]
pub enum Section {
    /// Before the line `xpsim 1`.
    Opening,
    /// Before the line `partitions`.
    Counting,
    Settings,
    Scripts,
    Schedule,
}

/// What the lines of a text have said so far.
#[derive(Drop)]
pub struct Draft {
    pub section: Section,
    /// How many partitions there are. 2 until a line says it.
    pub count: Count,
    pub settings: Settings,
    /// Whose script the next command belongs to. 0 until a line says it.
    pub own: PartId,
    pub scripts: Scripts,
    /// The commands so far, up to one past the limit. No more than these are kept.
    pub commands: u64,
    /// The bytes of payloads and frames so far, up to one past the limit. Past it no payload is
    /// kept.
    pub payload_bytes: u64,
    pub plans: Schedule,
}

impl Draft {
    ghost use Rattle.std.specs.Prelude.{◌≡◌, ◌<◌, ◌≤◌, ◌^◌, OnOk};
    ghost use Rattle.xp_scenario.specs.Drafts.{fresh, counted, with_script, owner_of, with_command, with_plan};

    pub fn new(alloc: Global) -> Draft
        ensures { result ≡ fresh }
    {
        Draft {
            section: Section::Opening,
            count: Count::known(FEWEST_PARTS),
            settings: Settings::new(alloc),
            own: PartId::known(0),
            scripts: Scripts {
                list: Vec::new(alloc),
            },
            commands: 0,
            payload_bytes: 0,
            plans: Schedule {
                list: Vec::new(alloc),
            },
        }
    }

    /// So many partitions there are; the settings follow.
    pub fn set_count(&mut self, alloc: Global, count: Count) -> Result<(), AllocError>
        ensures { OnOk result (self.new ≡ counted count self.old) }
    {
        self.section = Section::Settings;
        self.count = count;
        self.scripts = blank_scripts(alloc, count)?;
        Ok(())
    }

    /// Begins a script of the partition.
    pub fn begin_script(&mut self, alloc: Global, part: PartId) -> Result<(), AllocError>
        ensures { OnOk result (self.new ≡ with_script part self.old) }
    {
        self.section = Section::Scripts;
        self.own = part;
        begin_script(alloc, &mut self.scripts, part)
    }

    /// The partition whose script the next command belongs to.
    pub fn owner(&self) -> Owner
        ensures { result ≡ owner_of self.now }
    {
        Owner {
            count: self.count,
            part: self.own,
            minor: self.settings.minors.of(self.own),
            keeps: self.payload_bytes <= PAYLOAD_BYTES_LIMIT,
        }
    }

    /// Adds a command to the last script of its partition, where the limit isn't passed yet.
    pub fn add_command(&mut self, command: Command) -> Result<(), AllocError>
        ensures { OnOk result (self.new ≡ with_command command self.old) }
    {
        if self.commands > COMMAND_LIMIT {
            return Ok(());
        }
        self.commands += 1;
        self.payload_bytes = self
            .payload_bytes
            .saturating_add(bytes_of(&command))
            .min(PAYLOAD_BYTES_LIMIT + 1);
        add_command(&mut self.scripts, self.own, command)
    }

    /// Adds a line of the schedule.
    pub fn add_plan(&mut self, plan: Plan) -> Result<(), AllocError>
        ensures { OnOk result (self.new ≡ with_plan plan self.old) }
    {
        self.plans.list.push(plan)?;
        Ok(())
    }
}

/// How many bytes a command sends.
fn bytes_of(command: &Command) -> u64
    ensures { result ≡ command_bytes command.now }
{
    match command {
        Command::Send { payload, .. } => payload.bytes().len() as u64,
        Command::Net { frame } => frame.bytes().len() as u64,
        _ => 0,
    }
}
