// The limits of a scenario.
ghost use Rattle.std.specs.Prelude.{◌≡◌};
ghost use Rattle.std.specs.List.{list_any};
ghost use Rattle.xp_scenario.specs.Limits.{is_many, has_many_turns, too_many};

use crate::fault::What;
use xp_script::limits::{
    COMMAND_LIMIT, PAYLOAD_BYTES_LIMIT, SCRIPT_LIMIT, SETTING_LIMIT, TURN_LIMIT,
};
use xp_script::scenario::Scenario;
use xp_script::script::Boots;
use xp_script::totals::{commands_left, payload_bytes_left, settings_left, turns_left};

/// The first limit that the scenario passes.
pub fn too_many(scenario: &Scenario) -> Option<(What, u64)>
    ensures { result ≡ too_many scenario.now }
{
    if commands_left(&scenario.scripts.list, COMMAND_LIMIT).is_none() {
        return Some((What::Commands, COMMAND_LIMIT));
    }
    if payload_bytes_left(&scenario.scripts.list, PAYLOAD_BYTES_LIMIT).is_none() {
        return Some((What::PayloadBytes, PAYLOAD_BYTES_LIMIT));
    }
    if has_many_turns(scenario) {
        return Some((What::Turns, TURN_LIMIT));
    }
    if settings_left(scenario, SETTING_LIMIT).is_none() {
        return Some((What::Settings, SETTING_LIMIT));
    }
    if has_many_scripts(&scenario.scripts.list) {
        return Some((What::Scripts, SCRIPT_LIMIT as u64));
    }
    None
}

fn has_many_turns(scenario: &Scenario) -> bool
    ensures { result ≡ has_many_turns scenario.now }
{
    let count = scenario.count;
    let planned = match &scenario.schedule {
        Some(schedule) => turns_left(count, &schedule.list, TURN_LIMIT).is_none(),
        None => false,
    };
    planned || count.get() as u64 * scenario.budget.min(TURN_LIMIT + 1) > TURN_LIMIT
}

fn has_many_scripts(scripts: &[Boots]) -> bool
    ensures { result ≡ list_any is_many scripts.now }
{
    for boots in scripts {
        if boots.list.len() > SCRIPT_LIMIT {
            return true;
        }
    }
    false
}
