// What is proved of the counts of a partition.
ghost use Rattle.std.specs.Prelude.{◌≡◌, ℕ, ◌+◌, ◌*◌, ◌^◌, ◌<◌, ◌≤◌, List, length};
ghost use Rattle.std.specs.List.{AllByRecursion};
ghost use Rattle.xp_base.specs.declared.step.Answer.{Answer};
ghost use Rattle.xp_base.specs.History.{Act, Turn};
ghost use Rattle.xp_script.specs.declared.limits.TheConstants.{COMMAND_LIMIT, RESTART_LIMIT};
ghost use Rattle.xp_script.specs.declared.part.ScenarioPart.{ScenarioPart};
ghost use Rattle.xp_script.specs.declared.scenario.Scenario.{Scenario};
ghost use Rattle.xp_script.specs.Lawful.{IsLawful};
ghost use Rattle.xp_script.specs.Parts.{part_of};
ghost use Rattle.xp_protocol.specs.declared.rule.Rule.{Rule};
ghost use Rattle.xp_protocol.specs.State.{State};
ghost use Rattle.xp_protocol.specs.Rules.{after_answer};
ghost use Rattle.xp_protocol.specs.Acts.{after_acts};
ghost use Rattle.xp_protocol.specs.Runs.{start, turn_counted, moment, after_turn, state_after, May, Runs};
ghost use Rattle.xp_counts.specs.Counted.{AreCounted, IsBounded, calls_in, raised_by, HasCalls};
ghost use Rattle.xp_counts.specs.Planned.{IsAsPlanned, HasFewPlans};

/// Up to how many turns of a partition the counts are shown to fit: 2^48.
pub const COUNTED_TURNS: u64 = 281_474_976_710_656;

/// How many commands a turn begins and answers at most, where the counts are to fit.
pub const MOST_CALLS: u64 = 16_384;

/// What a turn raises. Each command that it begins and each answer raises the counts by 1 at most,
/// its step by 1, whatever it is and however it is answered, and its end, with what comes at its
/// moment, by 1.
pub fn counts_raised()
    ensures acts { (s : ScenarioPart) → (st : State) → (acts : List Act) → (n : ℕ)
        → AreCounted n st → AreCounted (n + calls_in acts) (after_acts s st acts) }
    ensures step { (s : ScenarioPart) → (st : State) → (rule : Rule) → (answer : Answer) → (n : ℕ)
        → AreCounted n st → AreCounted (n + 1) (after_answer s st rule answer) }
    ensures end { (s : ScenarioPart) → (earlier : ℕ) → (st : State) → (n : ℕ)
        → AreCounted n st → AreCounted (n + 1) (moment s earlier (turn_counted st)) }
    ensures turn { (s : ScenarioPart) → (st : State) → (t : Turn) → (n : ℕ)
        → AreCounted n st → AreCounted (n + raised_by t) (after_turn s st t) }
{}

/// The number of turns that were made bounds all counts, where each turn begins and answers so many
/// commands at most: from the opening on, after each turn, and so after all turns of a history.
pub fn turns_bound_counts()
    ensures start { (s : ScenarioPart) → (most : ℕ) → IsBounded most (start s) }
    ensures turn { (s : ScenarioPart) → (st : State) → (t : Turn) → (most : ℕ) → HasCalls most t
        → IsBounded most st → IsBounded most (after_turn s st t) }
    ensures history { (s : ScenarioPart) → (turns : List Turn) → (most : ℕ)
        → AllByRecursion (HasCalls most) turns
        → AreCounted ((most + 2) * length turns + 2) (state_after s (start s) turns) }
{}

/// Before a partition has made `COUNTED_TURNS` turns, no count is above 2^63: each
/// can be raised as often again before the end of 64 bits.
pub fn counts_fit()
    ensures more { (a b : ℕ) → (st : State) → a ≤ b → AreCounted a st → AreCounted b st }
    ensures fit { (st : State) → (most : ℕ) → most ≤ MOST_CALLS → st.clock.turns ≤ COUNTED_TURNS
        → IsBounded most st → AreCounted (2 ^ 63) st }
{}

/// A partition begins no boot that isn't planned: one, and one at each planned restart; and a boot
/// begins no command but those of its script.
pub fn boots_planned()
    ensures start { (s : ScenarioPart) → IsAsPlanned s (start s) }
    ensures turn { (s : ScenarioPart) → (st : State) → (t : Turn) → May s st t
        → IsAsPlanned s st → IsAsPlanned s (after_turn s st t) }
    ensures history { (s : ScenarioPart) → (turns : List Turn) → Runs s turns
        → IsAsPlanned s (state_after s (start s) turns) }
{}

/// A lawful scenario plans few restarts of a partition and few commands of a boot. So few boots are
/// begun, and few commands of each.
pub fn plans_few()
    ensures lawful { (s : Scenario) → (p : ℕ) → IsLawful s → p < s.count
        → HasFewPlans (part_of s p) }
    ensures boots { (s : ScenarioPart) → (st : State) → HasFewPlans s → IsAsPlanned s st
        → st.clock.boots ≤ RESTART_LIMIT + 1 }
    ensures begun { (s : ScenarioPart) → (st : State) → HasFewPlans s → IsAsPlanned s st
        → st.script.begun ≤ COMMAND_LIMIT }
{}
