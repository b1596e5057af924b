// A scenario.
use crate::count::Count;
use crate::schedule::Schedule;
use crate::script::Scripts;
use crate::setting::{Faults, Minors, Pokes, Restarts, Stops, Warms};

/// A scenario. The settings stand by their kinds, each kind in the order of the text.
#[derive(Drop)]
pub struct Scenario {
    /// How many partitions there are.
    pub count: Count,
    /// How many turns a partition may take where nothing schedules it: 1 to 4,000,000.
    pub budget: u64,
    /// How many of its own turns a partition makes between two heartbeat checks of a partner: 0 for
    /// no checks, else four windows to 1,000,000,000.
    pub check: u64,
    /// The minor versions, at most one for each partition.
    pub minors: Minors,
    /// The channels that open connected, at most one line for each pair of partitions and channel.
    pub warms: Warms,
    pub faults: Faults,
    /// The planned stops, at most one for each partition.
    pub stops: Stops,
    /// The planned restarts, at most 63 for each partition.
    pub restarts: Restarts,
    pub pokes: Pokes,
    /// The scripts of each partition, at most 64.
    pub scripts: Scripts,
    /// The schedule, where the scenario has one. It may have no lines.
    pub schedule: Option<Schedule>,
}
