// What is proved of what a partition knows, from its permitted turns alone.
ghost use Rattle.std.specs.Prelude.{◌≡◌, ℕ, ◌≤◌, List, length, Some};
ghost use Rattle.xp_base.specs.declared.layout.TheConstants.{LINES};
ghost use Rattle.xp_base.specs.declared.step.Answer.{Answer};
ghost use Rattle.xp_base.specs.History.{Act, Turn};
ghost use Rattle.xp_rounds.specs.Visit.{Visit, planned};
ghost use Rattle.xp_script.specs.declared.part.ScenarioPart.{ScenarioPart};
ghost use Rattle.xp_protocol.specs.declared.rule.LinkRule.TheVariants.{Ring};
ghost use Rattle.xp_protocol.specs.declared.rule.RingRule.TheVariants.{AcceptMessage};
ghost use Rattle.xp_protocol.specs.declared.rule.Rule.{Rule};
ghost use Rattle.xp_protocol.specs.declared.rule.Rule.TheVariants.{Link};
ghost use Rattle.xp_protocol.specs.Parts.{IsLawfulPart};
ghost use Rattle.xp_protocol.specs.State.{State, Up, end_of};
ghost use Rattle.xp_protocol.specs.Rules.{Can, after_answer};
ghost use Rattle.xp_protocol.specs.Acts.{MayActs, after_acts};
ghost use Rattle.xp_protocol.specs.Runs.{start, turn_counted, moment, May, after_turn};
ghost use Rattle.xp_protocol.specs.Runs.{Runs, state_after};
ghost use Rattle.xp_plan.specs.declared.errand.Errand.{Errand};
ghost use Rattle.xp_plan.specs.Plan.{plan_of, IsVisit};
ghost use Rattle.xp_plan.specs.Sound.{IsSound};
ghost use Rattle.xp_sound.specs.Consistent.{IsConsistent};
ghost use Rattle.xp_sound.specs.Told.{AllTold, HasNoticeRoom};

/// What a partition knows is consistent from the opening on: each act, each permitted step however
/// it is answered, where no notice is due before it, and the end of a turn keep it so. What is
/// consistent is sound. So each step that is planned after permitted turns is permitted, whatever
/// the memory answered.
pub fn soundness_kept()
    ensures sound { (s : ScenarioPart) → (st : State) → IsConsistent s st → IsSound s st }
    ensures start { (s : ScenarioPart) → IsLawfulPart s → IsConsistent s (start s) }
    ensures acts { (s : ScenarioPart) → IsLawfulPart s → (st : State) → (acts : List Act)
        → IsConsistent s st → IsConsistent s (after_acts s st acts) }
    ensures step { (s : ScenarioPart) → (st : State) → (rule : Rule) → (answer : Answer)
        → Can s st rule → IsConsistent s st → AllTold s st
        → IsConsistent s (after_answer s st rule answer) }
    ensures end { (s : ScenarioPart) → (earlier : ℕ) → (st : State)
        → IsConsistent s st → IsConsistent s (moment s earlier (turn_counted st)) }
    ensures turn { (s : ScenarioPart) → IsLawfulPart s → (st : State) → (t : Turn) → May s st t
        → IsConsistent s st → AllTold s st → IsConsistent s (after_turn s st t) }
    ensures history { (s : ScenarioPart) → IsLawfulPart s → (turns : List Turn) → Runs s turns
        → IsConsistent s (state_after s (start s) turns) }
    ensures planning { (s : ScenarioPart) → IsLawfulPart s → (turns : List Turn) → Runs s turns
        → (acts : List Act) → IsSound s (after_acts s (state_after s (start s) turns) acts) }
    ensures planned { (s : ScenarioPart) → IsLawfulPart s → (turns : List Turn) → Runs s turns
        → (acts : List Act) → let st = after_acts s (state_after s (start s) turns) acts in
        (v : Visit Errand) → IsVisit s v → (rule : Rule)
        → (planned (plan_of s) v st).rule ≡ Some rule → Can s st rule }
{}

/// Between turns no notice is due, and neither the acts before a step nor the steps of a boot make
/// one due.
pub fn notices_given()
    ensures start { (s : ScenarioPart) → AllTold s (start s) }
    ensures acts { (s : ScenarioPart) → (st : State) → (acts : List Act)
        → MayActs s st acts → AllTold s st → AllTold s (after_acts s st acts) }
    ensures boot { (s : ScenarioPart) → (st : State) → (rule : Rule) → (answer : Answer)
        → Can s st rule → ((after_answer s st rule answer).life ≡ Up → ⊥)
        → AllTold s st → AllTold s (after_answer s st rule answer) }
    ensures turn { (s : ScenarioPart) → (st : State) → (t : Turn)
        → May s st t → AllTold s (after_turn s st t) }
    ensures history { (s : ScenarioPart) → (turns : List Turn) → Runs s turns
        → AllTold s (state_after s (start s) turns) }
{}

/// No more numbers wait for their notices at an end than a queue has lines, and one more may wait
/// wherever a message may be accepted. So a message whose send asks for a notice can always be
/// accepted.
pub fn notices_have_room()
    ensures few { (s : ScenarioPart) → (st : State) → IsConsistent s st → (q c : ℕ)
        → length (end_of st q c).sides.pending_notices ≤ LINES }
    ensures room { (s : ScenarioPart) → (st : State) → IsConsistent s st → AllTold s st
        → (q c : ℕ) → Can s st (Link q c (Ring AcceptMessage)) → HasNoticeRoom (end_of st q c) }
    ensures history { (s : ScenarioPart) → IsLawfulPart s → (turns : List Turn) → Runs s turns
        → (acts : List Act) → MayActs s (state_after s (start s) turns) acts
        → let st = after_acts s (state_after s (start s) turns) acts in
        (q c : ℕ) → Can s st (Link q c (Ring AcceptMessage)) → HasNoticeRoom (end_of st q c) }
{}
