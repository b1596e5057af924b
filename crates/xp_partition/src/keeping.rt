// What a partition keeps beside its visits.
ghost use Rattle.std.specs.Prelude.{◌≡◌, ◌+◌, ◌-◌, ◌<◌, length, slice_get};
ghost use Rattle.std.specs.Option.{option_copied};
ghost use Rattle.xp_protocol.specs.Parts.{script_in};
ghost use Rattle.xp_protocol.specs.Acts.{current, upcoming};
ghost use Rattle.xp_protocol.specs.Runs.{is_done, is_over, has_ended};
ghost use Rattle.xp_partition.specs.Keeping.{state_of};

mod asking;
mod ending;
mod scripting;

use crate::clock::Clock;
use crate::life::Life;
use crate::partners::Partners;
use crate::progress::Progress;
use xp_beat::beat::Beat;
use xp_discover::boot::Boot;
use xp_script::part::ScenarioPart;

/// What a partition keeps beside its visits: its part of the scenario, whether it stopped as
/// planned, its boot and the stamp of it, its heartbeat as it was stored last, what it counts over
/// all boots, how far the script of this boot has come, and its partners.
#[derive(Drop)]
pub struct Keeping {
    pub part: ScenarioPart,
    pub stopped: bool,
    pub life: Life,
    pub boot: Boot,
    /// The stamp of the boot, once the boot is over, and 0 before.
    pub stamp: u32,
    pub beat: Beat,
    pub clock: Clock,
    pub script: Progress,
    pub partners: Partners,
}
