// The settings of a scenario.
ghost use Rattle.std.specs.Prelude.{◌≡◌};
ghost use Rattle.xp_script.specs.Settings.{joins, minor_of, names};

use std::marker::Model;
use xp_base::ids::{Channel, PartId};
use xp_base::layout::FIRST_MINOR;
use xp_base::step::{CopyKind, CopyMark};

/// The minor version of a partition.
#[derive(Clone, Copy)]
pub struct Minor {
    pub part: PartId,
    /// 1 or 2: its page says version 3.1 or 3.2.
    pub version: u8,
}

/// A channel whose both ends open registered and connected.
#[derive(Clone, Copy)]
pub struct Warm {
    pub first: PartId,
    pub second: PartId,
    pub channel: Channel,
    /// How many messages each queue holds: 1 to 8.
    pub entries: u8,
    /// The longest payload, in bytes: 0 to `LINE_BYTES`, and to `BODY_BYTES` where both have minor
    /// version 2.
    pub limit: u16,
}

/// A load of a copy that fails. A load beyond those of the copy never comes, so nothing fails then.
#[derive(Clone, Copy)]
pub struct Fault {
    pub part: PartId,
    pub kind: CopyKind,
    /// The copy's number among the partition's copies of its kind, over all boots, from 1.
    pub copy: u64,
    /// How many loads of the copy come before.
    pub load: u64,
}

/// A moment in the life of a partition, counted over all its boots.
#[derive(Clone, Copy)]
pub enum Moment {
    /// After the partition's store of put of this number, from 1, over all channels. Each store of
    /// put accepts a message; the zeros of an area that is prepared or of a channel that opens
    /// don't count.
    Put(u64),
    /// When the partition has made so many turns.
    Turn(u64),
}

/// A partition stops, and makes no turn any more.
#[derive(Clone, Copy)]
pub struct Stop {
    pub part: PartId,
    pub moment: Moment,
}

/// A partition loses its private state, and boots again. Its memory keeps its words.
#[derive(Clone, Copy)]
pub struct Restart {
    pub part: PartId,
    pub moment: Moment,
}

/// A word of memory is written from outside.
#[derive(Clone, Copy)]
pub struct Poke {
    /// Before which turn of the schedule, from 0. One past the last turn never comes.
    pub turn: u64,
    pub owner: PartId,
    /// The place of the word in its partition's memory.
    pub index: u32,
    pub word: u64,
}

/// One setting.
#[derive(Clone, Copy)]
pub enum Setting {
    /// How many turns a partition may take where nothing schedules it: 1 to 4,000,000.
    Budget(u64),
    /// How many of its own turns a partition makes between two heartbeat checks of a partner: 0 for
    /// no checks, else four windows to 1,000,000,000.
    Check(u64),
    Minor(Minor),
    Warm(Warm),
    Fault(Fault),
    Stop(Stop),
    Restart(Restart),
    Poke(Poke),
}

/// Minor versions of partitions. Contracts see the list of them.
#[derive(Drop)]
pub struct Minors {
    pub list: Vec<Minor>,
}

impl Model for Minors {
    ghost use Rattle.std.specs.Prelude.{List};
    ghost use Rattle.xp_script.specs.declared.setting.Minor.{Minor};

    ghost Value = { List Minor };

    ghost view = { λ x. x.list.items };
}

/// Channels that open connected. Contracts see the list of them.
#[derive(Drop)]
pub struct Warms {
    pub list: Vec<Warm>,
}

impl Model for Warms {
    ghost use Rattle.std.specs.Prelude.{List};
    ghost use Rattle.xp_script.specs.declared.setting.Warm.{Warm};

    ghost Value = { List Warm };

    ghost view = { λ x. x.list.items };
}

/// Loads that fail. Contracts see the list of them.
#[derive(Drop)]
pub struct Faults {
    pub list: Vec<Fault>,
}

impl Model for Faults {
    ghost use Rattle.std.specs.Prelude.{List};
    ghost use Rattle.xp_script.specs.declared.setting.Fault.{Fault};

    ghost Value = { List Fault };

    ghost view = { λ x. x.list.items };
}

/// Partitions that stop. Contracts see the list of them.
#[derive(Drop)]
pub struct Stops {
    pub list: Vec<Stop>,
}

impl Model for Stops {
    ghost use Rattle.std.specs.Prelude.{List};
    ghost use Rattle.xp_script.specs.declared.setting.Stop.{Stop};

    ghost Value = { List Stop };

    ghost view = { λ x. x.list.items };
}

/// Restarts of partitions. Contracts see the list of them.
#[derive(Drop)]
pub struct Restarts {
    pub list: Vec<Restart>,
}

impl Model for Restarts {
    ghost use Rattle.std.specs.Prelude.{List};
    ghost use Rattle.xp_script.specs.declared.setting.Restart.{Restart};

    ghost Value = { List Restart };

    ghost view = { λ x. x.list.items };
}

/// Words that are written from outside. Contracts see the list of them.
#[derive(Drop)]
pub struct Pokes {
    pub list: Vec<Poke>,
}

impl Model for Pokes {
    ghost use Rattle.std.specs.Prelude.{List};
    ghost use Rattle.xp_script.specs.declared.setting.Poke.{Poke};

    ghost Value = { List Poke };

    ghost view = { λ x. x.list.items };
}

impl Minors {
    /// The minor version of a partition: 1 where no line names it.
    pub fn of(&self, part: PartId) -> u8
        ensures { result ≡ minor_of part self.now }
    {
        for minor in &self.list {
            if minor.part == part {
                return minor.version;
            }
        }
        FIRST_MINOR
    }
}

impl Warm {
    /// Whether the two ends of the line are these partitions, in either order, and it is of this
    /// channel.
    pub fn joins(&self, part: PartId, partner: PartId, channel: Channel) -> bool
        ensures { result ≡ joins part partner channel self.now }
    {
        let in_order = self.first == part && self.second == partner;
        let turned = self.first == partner && self.second == part;
        (in_order || turned) && self.channel == channel
    }
}

impl Fault {
    /// Whether the load of a mark is the one that fails.
    pub fn names(&self, mark: CopyMark) -> bool
        ensures { result ≡ names mark self.now }
    {
        self.kind as u8 == mark.kind as u8
            && self.copy == mark.number
            && self.load == mark.word as u64
    }
}
