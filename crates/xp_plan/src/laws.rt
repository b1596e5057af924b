// What is proved of the plan by itself.
ghost use Rattle.std.specs.Prelude.{◌≡◌, ◌≤◌, Some};
ghost use Rattle.xp_rounds.specs.declared.rounds.TheConstants.{VISIT_TURNS};
ghost use Rattle.xp_rounds.specs.Visit.{Visit, planned, cost};
ghost use Rattle.xp_script.specs.declared.part.ScenarioPart.{ScenarioPart};
ghost use Rattle.xp_protocol.specs.declared.rule.Rule.{Rule};
ghost use Rattle.xp_protocol.specs.Parts.{IsLawfulPart};
ghost use Rattle.xp_protocol.specs.State.{State};
ghost use Rattle.xp_protocol.specs.Rules.{Can};
ghost use Rattle.xp_plan.specs.declared.errand.Agenda.{Agenda};
ghost use Rattle.xp_plan.specs.declared.errand.Errand.{Errand};
ghost use Rattle.xp_plan.specs.Plan.{errands_of, plan_of, IsVisit, first_visit};
ghost use Rattle.xp_plan.specs.Sound.{IsSound};

/// The errands of each agenda fit into a visit, so that no errand is cut by a visit's end.
pub fn visits_fit()
    ensures { (s : ScenarioPart) → (x : Agenda)
        → cost (plan_of s) (errands_of x) ≤ VISIT_TURNS }
{}

/// Each planned step is permitted.
pub fn planned_can()
    ensures { (s : ScenarioPart) → IsLawfulPart s → (st : State) → IsSound s st
        → (v : Visit Errand) → IsVisit s v → (rule : Rule)
        → (planned (plan_of s) v st).rule ≡ Some rule → Can s st rule }
{}

/// A partition's visits begin at its own place, and go on.
pub fn visits_go_on()
    ensures first { (s : ScenarioPart) → IsLawfulPart s → IsVisit s (first_visit s) }
    ensures next { (s : ScenarioPart) → (st : State) → (v : Visit Errand) → IsVisit s v
        → IsVisit s (planned (plan_of s) v st).visit }
{}
