// The turns of a partition that nothing is due to.
ghost use Rattle.std.specs.Prelude.{◌≡◌};

use xp_base::ids::PartId;
use xp_plan::errand::{Agenda, Errand};
use xp_planner::affairs::Affairs;
use xp_planner::planner::Planner;
use xp_protocol::rule::{OwnRule, PeerRule, Rule};
use xp_rounds::rounds::Place;

// A partition that is up, has no script, and was never in contact with its one partner. A look at
// it never goes on.
struct Idle;

impl Affairs for Idle {
    ghost use Rattle.xp_tests_machines.specs.Idle.{part as idle_part, state as idle_state};

    ghost part = { λ x. idle_part };

    ghost state = { λ x. idle_state };

    ghost can_ask = { λ x. Unit {0} };

    fn agenda(&self, place: &Place) -> Agenda {
        match place {
            Place::Own => Agenda::Own,
            Place::Partner(_) => Agenda::Apart,
        }
    }

    fn step(&self, place: &Place, errand: Errand, used: u8) -> Option<Rule> {
        match (place, errand) {
            (Place::Own, Errand::Beat) => Some(Rule::Own(OwnRule::StoreBeat)),
            (Place::Own, Errand::Activations) => Some(Rule::Own(OwnRule::TakeActivation)),
            (Place::Own, Errand::Deactivations) => Some(Rule::Own(OwnRule::TakeDeactivation)),
            (Place::Partner(partner), Errand::Look) => {
                if used == 0 {
                    Some(Rule::Peer(partner.get(), PeerRule::LookAtPage))
                } else {
                    None
                }
            }
            _ => None,
        }
    }
}

fn beats(rule: Option<Rule>) -> bool {
    matches!(rule, Some(Rule::Own(OwnRule::StoreBeat)))
}

fn takes_activation(rule: Option<Rule>) -> bool {
    matches!(rule, Some(Rule::Own(OwnRule::TakeActivation)))
}

fn takes_deactivation(rule: Option<Rule>) -> bool {
    matches!(rule, Some(Rule::Own(OwnRule::TakeDeactivation)))
}

fn looks(rule: Option<Rule>) -> bool {
    matches!(rule, Some(Rule::Peer(1, PeerRule::LookAtPage)))
}

#[test]
fn an_idle_partition_beats_takes_its_words_and_looks(rt: HostRuntime) {
    let mut planner = Planner::new(PartId::known(0), 2);
    assert!(rt; beats(planner.next(&Idle)));
    assert!(rt; takes_activation(planner.next(&Idle)));
    assert!(rt; takes_deactivation(planner.next(&Idle)));
    assert!(rt; looks(planner.next(&Idle)));
    assert!(rt; beats(planner.next(&Idle)));
    assert!(rt; takes_activation(planner.next(&Idle)));
    assert!(rt; takes_deactivation(planner.next(&Idle)));
    assert!(rt; looks(planner.next(&Idle)));
}
