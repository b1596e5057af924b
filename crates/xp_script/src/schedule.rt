// The schedule of a replay.
use std::marker::Model;
use xp_base::ids::PartId;

/// A line of a schedule.
#[derive(Clone, Copy)]
pub enum Plan {
    /// So many turns of one partition in a row.
    Turns { part: PartId, turns: u64 },
    /// So many rounds. In a round each partition takes one turn, in ascending order.
    Rounds(u64),
}

/// The lines of a schedule. Contracts see the list of them.
#[derive(Drop)]
pub struct Schedule {
    pub list: Vec<Plan>,
}

impl Model for Schedule {
    ghost use Rattle.std.specs.Prelude.{List};
    ghost use Rattle.xp_script.specs.declared.schedule.Plan.{Plan};

    ghost Value = { List Plan };

    ghost view = { λ s. s.list.items };
}
