// The ranges and limits of a scenario.
ghost use Rattle.std.specs.Prelude.{◌≡◌, ◌<◌, ◌≤◌};
ghost use Rattle.xp_script.specs.Sizes.{default_budget, longest_limit};
ghost use Rattle.xp_base.specs.declared.layout.TheConstants.{PARTS};
ghost use Rattle.xp_base.specs.declared.body.TheConstants.{BODY_BYTES};

use xp_base::body::{BODY_BYTES, LINE_BYTES};
use xp_base::layout::FIRST_MINOR;

/// The fewest partitions that a scenario has. It has at most `xp_base::layout::PARTS`.
pub const FEWEST_PARTS: u8 = 2;

/// The most turns that a scenario's budget gives each partition.
pub const BUDGET_LIMIT: u64 = 4_000_000;
/// How many turns the default budget gives each of few partitions.
pub const DEFAULT_BUDGET: u64 = 1_000_000;
/// How many partitions are few for the default budget. More share what it gives these.
pub const DEFAULT_BUDGET_PARTS: u8 = 16;

/// How many windows the shortest interval between two heartbeat checks has.
pub const CHECK_WINDOWS: u64 = 4;
/// The longest interval between two heartbeat checks, in the partition's own turns.
pub const CHECK_LIMIT: u64 = 1_000_000_000;

/// The most planned restarts of one partition.
pub const RESTART_LIMIT: u64 = 63;

/// The channel of the network device. Scripts send, take and release on the others.
pub const DEVICE_CHANNEL: u8 = 1;

/// The most turns that one `idle` lets pass.
pub const IDLE_LIMIT: u64 = 1_000_000;

/// The most commands of all scripts together.
pub const COMMAND_LIMIT: u64 = 100_000;
/// The most bytes of payloads and frames of all scripts together.
pub const PAYLOAD_BYTES_LIMIT: u64 = 16_777_216;
/// The most turns of a schedule, and of all partitions' budgets together.
pub const TURN_LIMIT: u64 = 16_000_000;
/// The most settings. The budget and the interval of heartbeat checks don't count.
pub const SETTING_LIMIT: u64 = 1_024;
/// The most scripts of one partition.
pub const SCRIPT_LIMIT: usize = 64;

/// The budget of a scenario that sets none, in turns of each partition.
pub fn default_budget(count: u8) -> u64
    ensures { result ≡ default_budget count }
{
    if count > DEFAULT_BUDGET_PARTS {
        TURN_LIMIT / count as u64
    } else {
        DEFAULT_BUDGET
    }
}

/// The longest payload, in bytes, that a partition of a minor version may allow on a channel.
pub fn longest_limit(minor: u8) -> u16
    ensures value { result ≡ longest_limit minor }
    ensures range { result ≤ BODY_BYTES }
{
    if minor > FIRST_MINOR {
        BODY_BYTES as u16
    } else {
        LINE_BYTES as u16
    }
}
