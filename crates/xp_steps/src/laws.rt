// What is proved of planned steps.
ghost use Rattle.std.specs.Prelude.{◌≡◌, Some};
ghost use Rattle.xp_rounds.specs.Visit.{Visit, planned};
ghost use Rattle.xp_script.specs.declared.part.ScenarioPart.{ScenarioPart};
ghost use Rattle.xp_protocol.specs.declared.rule.Rule.{Rule};
ghost use Rattle.xp_protocol.specs.State.{State, Booting};
ghost use Rattle.xp_protocol.specs.Rules.{Can};
ghost use Rattle.xp_plan.specs.declared.errand.Errand.{Errand};
ghost use Rattle.xp_plan.specs.PeerSteps.{boot_at};
ghost use Rattle.xp_plan.specs.Plan.{plan_of, IsVisit};
ghost use Rattle.xp_steps.specs.Stepping.{HasSession};

/// What a step needs beside the leave of the rules holds of a planned one: in a boot it is the one
/// that comes next, and where the own memory is prepared there is a session left.
pub fn planned_can_be_made()
    ensures boot { (s : ScenarioPart) → (st : State) → (v : Visit Errand) → IsVisit s v
        → (rule : Rule) → (planned (plan_of s) v st).rule ≡ Some rule
        → st.life ≡ Booting → boot_at s.part st ≡ Some rule }
    ensures session { (s : ScenarioPart) → (st : State) → (v : Visit Errand) → IsVisit s v
        → (rule : Rule) → (planned (plan_of s) v st).rule ≡ Some rule
        → Can s st rule → HasSession st rule }
{}
