// The text of a scenario.
ghost use Rattle.std.specs.Prelude.{◌≡◌, IfOk};
ghost use Rattle.xp_script.specs.Lawful.{IsLawful};
ghost use Rattle.xp_print.specs.Lines.{Appends};
ghost use Rattle.xp_print.specs.Text.{header_text, count_text, numbers_text, settings_text, schedule_text, text_of};

use crate::script::{write_plans, write_scripts};
use crate::setting::{
    write_faults, write_minors, write_pokes, write_restarts, write_stops, write_warms,
};
use std::alloc::{AllocError, Global};
use xp_script::scenario::Scenario;
use xp_script::schedule::Schedule;

/// The text of a scenario: the header, the settings by their kinds, the scripts by partition, and
/// the schedule.
#[tactic(auto, unfolding(crate::specs::Text::text_of))]
pub fn print(alloc: Global, scenario: &Scenario) -> Result<Vec<u8>, AllocError>
    requires { IsLawful scenario.now }
    ensures { IfOk result (λ text. text.items ≡ text_of scenario.now) }
{
    let mut out = String::new(alloc);
    write_count(&mut out, scenario.count.get())?;
    write_numbers(&mut out, scenario.budget, scenario.check)?;
    write_settings(&mut out, scenario)?;
    write_scripts(&mut out, &scenario.scripts.list)?;
    write_schedule(&mut out, &scenario.schedule)?;
    Ok(out.into_bytes())
}

#[tactic(auto, unfolding(crate::specs::Text::count_text))]
fn write_count(out: &mut String, count: u8) -> Result<(), AllocError>
    ensures { Appends result out.old out.new (count_text count) }
{
    write_header(out)?;
    writeln!(out, "partitions {count}")
}

#[tactic(auto, unfolding(crate::specs::Text::header_text))]
fn write_header(out: &mut String) -> Result<(), AllocError>
    ensures { Appends result out.old out.new header_text }
{
    writeln!(out, "xpsim 1")
}

#[tactic(auto, unfolding(crate::specs::Text::numbers_text))]
fn write_numbers(out: &mut String, budget: u64, check: u64) -> Result<(), AllocError>
    ensures { Appends result out.old out.new (numbers_text budget check) }
{
    writeln!(out, "budget {budget}")?;
    writeln!(out, "check {check}")
}

#[tactic(auto, unfolding(crate::specs::Text::settings_text))]
fn write_settings(out: &mut String, scenario: &Scenario) -> Result<(), AllocError>
    ensures { Appends result out.old out.new (settings_text scenario.now) }
{
    write_minors(out, &scenario.minors.list)?;
    write_warms(out, &scenario.warms.list)?;
    write_faults(out, &scenario.faults.list)?;
    write_stops(out, &scenario.stops.list)?;
    write_restarts(out, &scenario.restarts.list)?;
    write_pokes(out, &scenario.pokes.list)
}

fn write_schedule(out: &mut String, schedule: &Option<Schedule>) -> Result<(), AllocError>
    ensures { Appends result out.old out.new (schedule_text schedule.now) }
{
    match schedule {
        Some(schedule) => {
            writeln!(out, "schedule")?;
            write_plans(out, &schedule.list)
        }
        None => Ok(()),
    }
}
