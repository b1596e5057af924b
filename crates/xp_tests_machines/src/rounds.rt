// The rounds of some partitions, turn by turn.
ghost use Rattle.std.specs.Prelude.{◌<◌, ◌≤◌};
ghost use Rattle.xp_base.specs.declared.layout.TheConstants.{PARTS};

use xp_base::ids::PartId;
use xp_rounds::rounds::{Place, Rounds, VISIT_TURNS};

fn rounds(own: u8, count: u8) -> Rounds
    requires own { own < count }
    requires count { count ≤ PARTS }
{
    Rounds::new(PartId::known(own), count)
}

fn partner(part: u8) -> Place
    requires { part < PARTS }
{
    Place::Partner(PartId::known(part))
}

#[test]
fn partition_1_of_3_goes_round(rt: HostRuntime) {
    let mut rounds = rounds(1, 3);
    assert_eq!(rt; rounds.at(), Place::Own);
    rounds.pass();
    assert_eq!(rt; rounds.at(), partner(0));
    rounds.made(false);
    assert_eq!(rt; rounds.at(), partner(2));
    rounds.made(true);
    assert_eq!(rt; rounds.at(), partner(2));
    rounds.made(false);
    assert_eq!(rt; rounds.at(), Place::Own);
}

#[test]
fn a_busy_place_is_left_after_100_turns(rt: HostRuntime) {
    let mut rounds = rounds(63, 64);
    for _ in 0..VISIT_TURNS {
        assert_eq!(rt; rounds.at(), Place::Own);
        rounds.made(true);
    }
    assert_eq!(rt; rounds.at(), partner(0));
    for _ in 0..6_300u32 {
        rounds.made(true);
    }
    assert_eq!(rt; rounds.at(), Place::Own);
}
