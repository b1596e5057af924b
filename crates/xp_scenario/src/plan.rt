// The lines of the schedule.
ghost use Rattle.std.specs.Prelude.{◌≡◌};
ghost use Rattle.xp_forms.specs.Forms.{Says};
ghost use Rattle.xp_scenario.specs.Plans.{plan_form};

use crate::head::PlanWord;
use xp_forms::fault::{LineCause, LineError};
use xp_forms::fields::{end, number, part};
use xp_script::count::Count;
use xp_script::schedule::Plan;
use xp_text::line::Line;

/// Reads a line of the schedule after its word.
pub fn plan(word: PlanWord, count: Count, line: &mut Line) -> Result<Plan, LineError>
    ensures { Says result (plan_form count word) line.old }
{
    match word {
        PlanWord::Turns => {
            let part = part(line, count)?;
            let turns = number(line, 0, u64::MAX)?;
            end(line, LineCause::Extra)?;
            Ok(Plan::Turns { part, turns })
        }
        PlanWord::Rounds => {
            let rounds = number(line, 0, u64::MAX)?;
            end(line, LineCause::Extra)?;
            Ok(Plan::Rounds(rounds))
        }
    }
}
