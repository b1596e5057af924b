// The text of a scenario.
ghost use Rattle.std.specs.Prelude.{◌≡◌, ◌+◌, ℕ, Ok, Err, IfOk};
ghost use Rattle.xp_script.specs.Lawful.{IsLawful};
ghost use Rattle.xp_text.specs.Lines.{parts_of};
ghost use Rattle.xp_script.specs.declared.scenario.Scenario as scenarios;
ghost use Rattle.xp_forms.specs.declared.fault.LineCause.{LineCause};
ghost use Rattle.xp_scenario.specs.declared.fault.What.{What};
ghost use Rattle.xp_scenario.specs.declared.fault.ScenarioFault.TheVariants as faults;
ghost use Rattle.xp_scenario.specs.Drafts.{fresh};
ghost use Rattle.xp_scenario.specs.Spelled.{Spells, IsBadLine, Passes};
ghost use Rattle.xp_scenario.specs.Limits.{scenario_of, too_many};
ghost use Rattle.xp_scenario.specs.Text.{Tells, lines_say, limited, line_fault, ended, scenario_in};

use crate::draft::{Draft, Section};
use crate::fault::ScenarioFault;
use crate::limits::too_many;
use crate::line::read_line;
use std::alloc::Global;
use xp_forms::fault::{LineCause, LineError};
use xp_script::limits::default_budget;
use xp_script::scenario::Scenario;
use xp_text::parts::{LINE_END, first_part};

/// The scenario that a text spells, or its first fault. Past 16,777,216 bytes of payloads and past
/// 100,000 commands only their numbers are kept.
pub fn parse(alloc: Global, text: &[u8]) -> Result<Scenario, ScenarioFault>
    ensures scenario { Tells (λ s. s) result (scenario_in text.now) }
    ensures lawful { IfOk result IsLawful }

    // A scenario is what the text spells, and what it spells is found, unless memory runs out.
    ensures found { IfOk result (λ s. Spells text.now s) }
    ensures each_found { (s : scenarios.Scenario) → Spells text.now s
        → Tells (λ s. s) result (Ok s) }

    // A bad line is the first one, and a text that has one is refused with it.
    ensures bad { (line column : ℕ) (cause : LineCause)
        → result ≡ Err (faults.BadLine line column cause) → IsBadLine text.now line column cause }
    ensures each_bad { (line column : ℕ) (cause : LineCause) → IsBadLine text.now line column cause
        → Tells (λ s. s) result (Err (faults.BadLine line column cause)) }

    // There is too much exactly where every line is right.
    ensures much { (what : What) (limit : ℕ)
        → result ≡ Err (faults.TooMany what limit) → Passes text.now what limit }
    ensures each_much { (what : What) (limit : ℕ) → Passes text.now what limit
        → Tells (λ s. s) result (Err (faults.TooMany what limit)) }
{
    read(alloc, text)
}

#[tactic(auto, unfolding(crate::specs::Text::scenario_in))]
fn read(alloc: Global, text: &[u8]) -> Result<Scenario, ScenarioFault>
    ensures { Tells (λ s. s) result (scenario_in text.now) }
{
    let draft = draft_of(alloc, text)?;
    within_limits(scenario(draft))
}

/// The scenario, where it is within its limits.
fn within_limits(scenario: Scenario) -> Result<Scenario, ScenarioFault>
    ensures { Tells (λ s. s) result (limited scenario (too_many scenario)) }
{
    match too_many(&scenario) {
        None => Ok(scenario),
        Some((what, limit)) => Err(ScenarioFault::TooMany { what, limit }),
    }
}

/// The scenario that a draft means.
fn scenario(draft: Draft) -> Scenario
    ensures { result ≡ scenario_of draft }
{
    Scenario {
        count: draft.count,
        budget: draft
            .settings
            .budget
            .unwrap_or(default_budget(draft.count.get())),
        check: draft.settings.check.unwrap_or(0),
        minors: draft.settings.minors,
        warms: draft.settings.warms,
        faults: draft.settings.faults,
        stops: draft.settings.stops,
        restarts: draft.settings.restarts,
        pokes: draft.settings.pokes,
        scripts: draft.scripts,
        schedule: match draft.section {
            Section::Schedule => Some(draft.plans),
            _ => None,
        },
    }
}

/// What all lines say.
fn draft_of(alloc: Global, text: &[u8]) -> Result<Draft, ScenarioFault>
    ensures { Tells (λ d. d) result (lines_say 1 (parts_of LINE_END text.now) fresh) }
{
    let mut draft = Draft::new(alloc);
    let mut rest = text;
    let mut number: u64 = 1;
    loop {
        let (bytes, behind) = first_part(LINE_END, rest);
        match read_line(alloc, &mut draft, bytes) {
            Ok(()) => {}
            Err(error) => return Err(at_line(number, error)),
        }
        match behind {
            Some(more) => {
                rest = more;
                number += 1;
            }
            None => return at_end(draft, number, 1 + bytes.len() as u64),
        }
    }
}

/// The fault of a line of this number.
fn at_line(line: u64, error: LineError) -> ScenarioFault
    ensures { result ≡ line_fault line error }
{
    match error {
        LineError::Memory => ScenarioFault::Memory,
        LineError::Fault(fault) => ScenarioFault::BadLine {
            line,
            column: fault.column,
            cause: fault.cause,
        },
    }
}

/// The draft, where no section is missing at the end of the text.
fn at_end(draft: Draft, line: u64, column: u64) -> Result<Draft, ScenarioFault>
    ensures { Tells (λ d. d) result (ended draft.section line column draft) }
{
    let cause = match draft.section {
        Section::Opening => LineCause::Header,
        Section::Counting => LineCause::Order,
        Section::Settings | Section::Scripts | Section::Schedule => return Ok(draft),
    };
    Err(ScenarioFault::BadLine {
        line,
        column,
        cause,
    })
}
