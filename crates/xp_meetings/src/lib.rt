//! Laws of boots, areas, engagement and contact, of every history that partitions make by the
//! rules.
#![tactic(auto)]

ghost use Rattle.std.specs.Prelude.{List};
ghost use Rattle.xp_base.specs.History.{Event};
ghost use Rattle.xp_base.specs.Memory.{Memory};
ghost use Rattle.xp_meetings.specs.Agreed.{SessionsAgree};
ghost use Rattle.xp_script.specs.declared.scenario.Scenario.{Scenario};
ghost use Rattle.xp_protocol.specs.Reached.{ReachedWords};
ghost use Rattle.xp_script.specs.Lawful.{IsLawful};

/// Whatever history the rules reach in a lawful scenario: where two partitions are both in contact
/// with each other, they are in the same contact.
pub fn sessions_agree()
    ensures { (s : Scenario) → IsLawful s →
        (h : List Event) (m : Memory) → ReachedWords s h m → SessionsAgree s h }
{}
