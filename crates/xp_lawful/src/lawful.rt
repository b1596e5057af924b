// Which scenarios are lawful: a test for those that are made in code.
ghost use Rattle.std.specs.Prelude.{◌≡◌, ℕ, ◌*◌, ◌<◌, ◌≤◌, ◌↔◌, length, count_by, IsTrue};
ghost use Rattle.std.specs.List.{list_any, AllByRecursion};
ghost use Rattle.xp_base.specs.declared.body.TheConstants.{SEND_BYTES};
ghost use Rattle.xp_base.specs.declared.frame.TheConstants.{FRAME_BYTES, HEADER_BYTES};
ghost use Rattle.xp_script.specs.declared.limits.TheConstants.{COMMAND_LIMIT, PAYLOAD_BYTES_LIMIT, RESTART_LIMIT, SETTING_LIMIT, TURN_LIMIT};
ghost use Rattle.xp_script.specs.Sizes.{longest_limit, IsSize};
ghost use Rattle.xp_script.specs.Settings.{minor_of};
ghost use Rattle.xp_script.specs.Totals.{command_count, payload_bytes, plans_of, setting_count, turn_count};
ghost use Rattle.xp_script.specs.Lawful.{is_minor_of, is_stop_of, is_restart_of, join_the_same, AreBytes, AreDistinctWarms, AreLawfulBoots, AreLawfulCommands, AreLawfulMinors, AreLawfulRestarts, AreLawfulStops, AreLawfulWarms, HasLawfulBoots, HasLawfulNumbers, HasLawfulScripts, HasLawfulSettings, IsEnd, IsLawful, IsLawfulCheck, IsLawfulCommand, IsLawfulFault, IsLawfulMinor, IsLawfulMoment, IsLawfulPlan, IsLawfulPoke, IsLawfulRestart, IsLawfulStop, IsLawfulWarm, IsMessageEnd, IsPeer, IsWithinLimits};

use xp_base::body::{SEND_BYTES, lines};
use xp_base::frame::{FRAME_BYTES, HEADER_BYTES};
use xp_base::ids::{Channel, PartId};
use xp_base::layout::{FIRST_MINOR, LAST_MINOR, LINES, PART_WORDS, window};
use xp_script::command::Command;
use xp_script::count::Count;
use xp_script::limits::{
    BUDGET_LIMIT, CHECK_LIMIT, CHECK_WINDOWS, COMMAND_LIMIT, DEVICE_CHANNEL, IDLE_LIMIT,
    PAYLOAD_BYTES_LIMIT, RESTART_LIMIT, SCRIPT_LIMIT, SETTING_LIMIT, TURN_LIMIT, longest_limit,
};
use xp_script::scenario::Scenario;
use xp_script::schedule::{Plan, Schedule};
use xp_script::script::{Boots, Script};
use xp_script::setting::{Fault, Minor, Minors, Moment, Poke, Restart, Stop, Warm};
use xp_script::totals::{commands_left, payload_bytes_left, settings_left, turns_left};

/// Whether a scenario is lawful. One that `parse` gives is.
pub fn is_lawful(scenario: &Scenario) -> bool
    ensures { IsTrue result ↔ IsLawful scenario.now }
{
    has_lawful_numbers(scenario)
        && has_lawful_settings(scenario)
        && has_lawful_scripts(scenario)
        && are_lawful_lines(scenario.count, &scenario.schedule)
        && is_within_limits(scenario)
}

fn has_lawful_numbers(scenario: &Scenario) -> bool
    ensures { IsTrue result ↔ HasLawfulNumbers scenario.now }
{
    let _count = scenario.count.get();
    1 <= scenario.budget
        && scenario.budget <= BUDGET_LIMIT
        && is_lawful_check(scenario.count, scenario.check)
}

fn is_lawful_check(count: Count, check: u64) -> bool
    ensures { IsTrue result ↔ IsLawfulCheck count check }
{
    let shortest = CHECK_WINDOWS * window(count.get());
    (check == 0 || shortest <= check) && check <= CHECK_LIMIT
}

fn has_lawful_settings(scenario: &Scenario) -> bool
    ensures { IsTrue result ↔ HasLawfulSettings scenario.now }
{
    are_lawful_minors(scenario.count, &scenario.minors.list)
        && are_lawful_warms(scenario.count, &scenario.minors, &scenario.warms.list)
        && are_lawful_faults(scenario.count, &scenario.faults.list)
        && are_lawful_stops(scenario.count, &scenario.stops.list)
        && are_lawful_restarts(scenario.count, &scenario.restarts.list)
        && are_lawful_pokes(scenario.count, &scenario.pokes.list)
}

fn are_lawful_minors(count: Count, minors: &[Minor]) -> bool
    ensures { IsTrue result ↔ AreLawfulMinors count minors.now }
{
    is_each_minor_lawful(count, minors) && is_one_minor_each(count, minors)
}

fn is_each_minor_lawful(count: Count, minors: &[Minor]) -> bool
    ensures { IsTrue result ↔ AllByRecursion (IsLawfulMinor count) minors.now }
{
    for minor in minors {
        if !is_lawful_minor(count, minor) {
            return false;
        }
    }
    true
}

fn is_lawful_minor(count: Count, minor: &Minor) -> bool
    ensures { IsTrue result ↔ IsLawfulMinor count minor.now }
{
    minor.part.get() < count.get() && FIRST_MINOR <= minor.version && minor.version <= LAST_MINOR
}

fn is_one_minor_each(count: Count, minors: &[Minor]) -> bool
    ensures { IsTrue result ↔ ((p : ℕ) → p < count → count_by (is_minor_of p) minors.now ≤ 1) }
{
    let end = count.get();
    for part in 0..end {
        if minor_count(minors, PartId::known(part)) > 1 {
            return false;
        }
    }
    true
}

fn minor_count(minors: &[Minor], part: PartId) -> u64
    ensures { result ≡ count_by (is_minor_of part) minors.now }
{
    let mut number = 0;
    for minor in minors {
        if minor.part == part {
            number += 1;
        }
    }
    number
}

fn are_lawful_warms(count: Count, minors: &Minors, warms: &[Warm]) -> bool
    ensures { IsTrue result ↔ AreLawfulWarms count minors.now warms.now }
{
    is_each_warm_lawful(count, minors, warms) && are_distinct_warms(warms)
}

fn is_each_warm_lawful(count: Count, minors: &Minors, warms: &[Warm]) -> bool
    ensures { IsTrue result ↔ AllByRecursion (IsLawfulWarm count minors.now) warms.now }
{
    for warm in warms {
        if !is_lawful_warm(count, minors, warm) {
            return false;
        }
    }
    true
}

fn is_lawful_warm(count: Count, minors: &Minors, warm: &Warm) -> bool
    ensures { IsTrue result ↔ IsLawfulWarm count minors.now warm.now }
{
    let _channel = warm.channel.get();
    warm.first.get() < count.get()
        && warm.second.get() < count.get()
        && warm.first.get() != warm.second.get()
        && is_size(minors.of(warm.first), warm.entries, warm.limit)
        && is_size(minors.of(warm.second), warm.entries, warm.limit)
}

// Whether a partition of a minor version may register a queue of this size.
fn is_size(minor: u8, entries: u8, limit: u16) -> bool
    ensures { IsTrue result ↔ IsSize (longest_limit minor) entries limit }
{
    1 <= entries
        && entries as u32 <= LINES
        && limit <= longest_limit(minor)
        && entries as u32 * lines(limit) as u32 <= LINES
}

fn are_distinct_warms(warms: &[Warm]) -> bool
    ensures { IsTrue result ↔ AreDistinctWarms warms.now }
{
    for place in 0..warms.len() {
        if is_joined(&warms[place], &warms[place + 1..]) {
            return false;
        }
    }
    true
}

// Whether one of the lines joins the same partitions on the same channel as `warm`.
fn is_joined(warm: &Warm, warms: &[Warm]) -> bool
    ensures { result ≡ list_any (join_the_same warm.now) warms.now }
{
    for other in warms {
        if other.joins(warm.first, warm.second, warm.channel) {
            return true;
        }
    }
    false
}

fn are_lawful_faults(count: Count, faults: &[Fault]) -> bool
    ensures { IsTrue result ↔ AllByRecursion (IsLawfulFault count) faults.now }
{
    for fault in faults {
        if !is_lawful_fault(count, fault) {
            return false;
        }
    }
    true
}

fn is_lawful_fault(count: Count, fault: &Fault) -> bool
    ensures { IsTrue result ↔ IsLawfulFault count fault.now }
{
    let _load = fault.load;
    fault.part.get() < count.get() && 1 <= fault.copy
}

fn is_lawful_moment(moment: Moment) -> bool
    ensures { IsTrue result ↔ IsLawfulMoment moment }
{
    match moment {
        Moment::Put(number) => 1 <= number,
        Moment::Turn(_turn) => true,
    }
}

fn are_lawful_stops(count: Count, stops: &[Stop]) -> bool
    ensures { IsTrue result ↔ AreLawfulStops count stops.now }
{
    is_each_stop_lawful(count, stops) && is_one_stop_each(count, stops)
}

fn is_each_stop_lawful(count: Count, stops: &[Stop]) -> bool
    ensures { IsTrue result ↔ AllByRecursion (IsLawfulStop count) stops.now }
{
    for stop in stops {
        if !is_lawful_stop(count, stop) {
            return false;
        }
    }
    true
}

fn is_lawful_stop(count: Count, stop: &Stop) -> bool
    ensures { IsTrue result ↔ IsLawfulStop count stop.now }
{
    stop.part.get() < count.get() && is_lawful_moment(stop.moment)
}

fn is_one_stop_each(count: Count, stops: &[Stop]) -> bool
    ensures { IsTrue result ↔ ((p : ℕ) → p < count → count_by (is_stop_of p) stops.now ≤ 1) }
{
    let end = count.get();
    for part in 0..end {
        if stop_count(stops, PartId::known(part)) > 1 {
            return false;
        }
    }
    true
}

fn stop_count(stops: &[Stop], part: PartId) -> u64
    ensures { result ≡ count_by (is_stop_of part) stops.now }
{
    let mut number = 0;
    for stop in stops {
        if stop.part == part {
            number += 1;
        }
    }
    number
}

fn are_lawful_restarts(count: Count, restarts: &[Restart]) -> bool
    ensures { IsTrue result ↔ AreLawfulRestarts count restarts.now }
{
    is_each_restart_lawful(count, restarts) && are_few_restarts_each(count, restarts)
}

fn is_each_restart_lawful(count: Count, restarts: &[Restart]) -> bool
    ensures { IsTrue result ↔ AllByRecursion (IsLawfulRestart count) restarts.now }
{
    for restart in restarts {
        if !is_lawful_restart(count, restart) {
            return false;
        }
    }
    true
}

fn is_lawful_restart(count: Count, restart: &Restart) -> bool
    ensures { IsTrue result ↔ IsLawfulRestart count restart.now }
{
    restart.part.get() < count.get() && is_lawful_moment(restart.moment)
}

fn are_few_restarts_each(count: Count, restarts: &[Restart]) -> bool
    ensures { IsTrue result
        ↔ ((p : ℕ) → p < count → count_by (is_restart_of p) restarts.now ≤ RESTART_LIMIT) }
{
    let end = count.get();
    for part in 0..end {
        if restart_count(restarts, PartId::known(part)) > RESTART_LIMIT {
            return false;
        }
    }
    true
}

fn restart_count(restarts: &[Restart], part: PartId) -> u64
    ensures { result ≡ count_by (is_restart_of part) restarts.now }
{
    let mut number = 0;
    for restart in restarts {
        if restart.part == part {
            number += 1;
        }
    }
    number
}

fn are_lawful_pokes(count: Count, pokes: &[Poke]) -> bool
    ensures { IsTrue result ↔ AllByRecursion (IsLawfulPoke count) pokes.now }
{
    for poke in pokes {
        if !is_lawful_poke(count, poke) {
            return false;
        }
    }
    true
}

fn is_lawful_poke(count: Count, poke: &Poke) -> bool
    ensures { IsTrue result ↔ IsLawfulPoke count poke.now }
{
    let _turn = poke.turn;
    let _word = poke.word;
    poke.owner.get() < count.get() && poke.index < PART_WORDS
}

fn has_lawful_scripts(scenario: &Scenario) -> bool
    ensures { IsTrue result ↔ HasLawfulScripts scenario.now }
{
    let end = scenario.count.get();
    scenario.scripts.list.len() == end as usize && are_lawful_parts(scenario)
}

// Whether the scripts of each partition are lawful.
fn are_lawful_parts(scenario: &Scenario) -> bool
    requires { length scenario.now.scripts ≡ scenario.now.count }
    ensures { IsTrue result ↔ ((p : ℕ) → p < scenario.now.count → HasLawfulBoots scenario.now p) }
{
    let end = scenario.count.get();
    for part in 0..end {
        if !has_lawful_boots(scenario, PartId::known(part)) {
            return false;
        }
    }
    true
}

fn has_lawful_boots(scenario: &Scenario, part: PartId) -> bool
    requires { part < length scenario.now.scripts }
    ensures { IsTrue result ↔ HasLawfulBoots scenario.now part }
{
    let boots = &scenario.scripts.list[part.get() as usize];
    boots.list.len() <= SCRIPT_LIMIT
        && are_lawful_boots(scenario.count, part, scenario.minors.of(part), &boots.list)
}

fn are_lawful_boots(count: Count, own: PartId, minor: u8, boots: &[Script]) -> bool
    ensures { IsTrue result ↔ AreLawfulBoots count own minor boots.now }
{
    for script in boots {
        if !are_lawful_commands(count, own, minor, &script.commands) {
            return false;
        }
    }
    true
}

fn are_lawful_commands(count: Count, own: PartId, minor: u8, commands: &[Command]) -> bool
    ensures { IsTrue result ↔ AreLawfulCommands count own minor commands.now }
{
    for command in commands {
        if !is_lawful_command(count, own, minor, command) {
            return false;
        }
    }
    true
}

fn is_lawful_command(count: Count, own: PartId, minor: u8, command: &Command) -> bool
    ensures { IsTrue result ↔ IsLawfulCommand count own minor command.now }
{
    match command {
        Command::Register {
            partner,
            channel,
            entries,
            limit,
        } => is_end(count, own, *partner, *channel) && is_size(minor, *entries, *limit),
        Command::Unregister { partner, channel } => is_end(count, own, *partner, *channel),
        Command::Connected { partner, channel } => is_end(count, own, *partner, *channel),
        Command::Closed { partner, channel } => is_end(count, own, *partner, *channel),
        Command::Send {
            partner,
            channel,
            payload,
            ..
        } => is_message_end(count, own, *partner, *channel) && may_be_sent(payload.bytes()),
        Command::Take {
            partner,
            channel,
            ..
        } => is_message_end(count, own, *partner, *channel),
        Command::Release {
            partner,
            channel,
            number,
        } => {
            let _number = *number;
            is_message_end(count, own, *partner, *channel)
        }
        Command::Drain { partner, channel } => is_end(count, own, *partner, *channel),
        Command::Net { frame } => is_frame(frame.bytes()),
        Command::Frames { count } => {
            let _count = *count;
            true
        }
        Command::Deactivate { partner } => is_peer(count, own, *partner),
        Command::Activate { partner } => is_peer(count, own, *partner),
        Command::Leave => true,
        Command::Idle { turns } => 1 <= *turns && *turns <= IDLE_LIMIT,
        Command::Offline => true,
        Command::Online => true,
    }
}

fn is_peer(count: Count, own: PartId, partner: PartId) -> bool
    ensures { IsTrue result ↔ IsPeer count own partner }
{
    partner.get() < count.get() && partner.get() != own.get()
}

fn is_end(count: Count, own: PartId, partner: PartId, channel: Channel) -> bool
    ensures { IsTrue result ↔ IsEnd count own partner channel }
{
    let _channel = channel.get();
    is_peer(count, own, partner)
}

fn is_message_end(count: Count, own: PartId, partner: PartId, channel: Channel) -> bool
    ensures { IsTrue result ↔ IsMessageEnd count own partner channel }
{
    channel.get() != DEVICE_CHANNEL && is_end(count, own, partner, channel)
}

fn may_be_sent(bytes: &[u8]) -> bool
    ensures { IsTrue result ↔ ((length bytes.now ≤ SEND_BYTES) × AreBytes bytes.now) }
{
    bytes.len() <= SEND_BYTES
}

fn is_frame(bytes: &[u8]) -> bool
    ensures { IsTrue result
        ↔ ((HEADER_BYTES ≤ length bytes.now) × (length bytes.now ≤ FRAME_BYTES)
        × AreBytes bytes.now) }
{
    HEADER_BYTES <= bytes.len() && bytes.len() <= FRAME_BYTES
}

fn are_lawful_lines(count: Count, schedule: &Option<Schedule>) -> bool
    ensures { IsTrue result ↔ AllByRecursion (IsLawfulPlan count) (plans_of schedule.now) }
{
    match schedule {
        Some(schedule) => are_lawful_plans(count, &schedule.list),
        None => true,
    }
}

fn are_lawful_plans(count: Count, plans: &[Plan]) -> bool
    ensures { IsTrue result ↔ AllByRecursion (IsLawfulPlan count) plans.now }
{
    for plan in plans {
        if !is_lawful_plan(count, *plan) {
            return false;
        }
    }
    true
}

fn is_lawful_plan(count: Count, plan: Plan) -> bool
    ensures { IsTrue result ↔ IsLawfulPlan count plan }
{
    match plan {
        Plan::Turns {
            part,
            turns: _turns,
        } => part.get() < count.get(),
        Plan::Rounds(_rounds) => true,
    }
}

fn is_within_limits(scenario: &Scenario) -> bool
    ensures { IsTrue result ↔ IsWithinLimits scenario.now }
{
    are_few_turns(scenario)
        && are_few_commands(&scenario.scripts.list)
        && are_few_settings(scenario)
}

// Whether neither the schedule nor the budgets give more turns than there may be.
fn are_few_turns(scenario: &Scenario) -> bool
    ensures { IsTrue result
        ↔ ((turn_count scenario.now.count (plans_of scenario.now.schedule) ≤ TURN_LIMIT)
        × (scenario.now.count * scenario.now.budget ≤ TURN_LIMIT)) }
{
    are_few_budget_turns(scenario.count, scenario.budget)
        && are_few_written_turns(scenario.count, &scenario.schedule)
}

// Whether the scripts have neither more commands nor more bytes to send than there may be.
fn are_few_commands(scripts: &[Boots]) -> bool
    ensures { IsTrue result ↔ ((command_count scripts.now ≤ COMMAND_LIMIT)
        × (payload_bytes scripts.now ≤ PAYLOAD_BYTES_LIMIT)) }
{
    commands_left(scripts, COMMAND_LIMIT).is_some()
        && payload_bytes_left(scripts, PAYLOAD_BYTES_LIMIT).is_some()
}

fn are_few_settings(scenario: &Scenario) -> bool
    ensures { IsTrue result ↔ (setting_count scenario.now ≤ SETTING_LIMIT) }
{
    settings_left(scenario, SETTING_LIMIT).is_some()
}

fn are_few_written_turns(count: Count, schedule: &Option<Schedule>) -> bool
    ensures { IsTrue result ↔ (turn_count count (plans_of schedule.now) ≤ TURN_LIMIT) }
{
    match schedule {
        Some(schedule) => turns_left(count, &schedule.list, TURN_LIMIT).is_some(),
        None => true,
    }
}

/// Whether the budgets of all partitions together give at most so many turns as there may be.
pub fn are_few_budget_turns(count: Count, budget: u64) -> bool
    ensures { IsTrue result ↔ (count * budget ≤ TURN_LIMIT) }
{
    budget <= TURN_LIMIT && count.get() as u64 * budget <= TURN_LIMIT
}
