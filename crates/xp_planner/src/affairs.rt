// What a planner asks of a partition.
ghost use Rattle.std.specs.Prelude.{◌≡◌, ◌<◌};
ghost use Rattle.xp_script.specs.declared.part.ScenarioPart.{ScenarioPart};
ghost use Rattle.xp_protocol.specs.State.{State};
ghost use Rattle.xp_plan.specs.Plan.{quota, agenda_at, ask_by, IsErrand};
ghost use Rattle.xp_planner.specs.Places.{IsPlaceOf};

use xp_plan::errand::{Agenda, Errand};
use xp_protocol::rule::Rule;
use xp_rounds::rounds::Place;

/// What a partition has to do at the places of its rounds.
///
/// Contracts see `part`, the partition's part of the scenario; `state`, what it knows; and
/// `can_ask`, at which values it may be asked.
pub trait Affairs {
    ghost part: { Self → ScenarioPart };

    ghost state: { Self → State };

    ghost can_ask: { Self → Type 0 };

    /// The agenda of a place that is come to now.
    fn agenda(&self, place: &Place) -> Agenda
        requires can { can_ask self.now }
        requires place { IsPlaceOf (part self.now) place.now }
        ensures { result ≡ agenda_at place.now (state self.now) };

    /// The step that an errand asks for at a place, after so many turns that it had in the visit.
    fn step(&self, place: &Place, errand: Errand, used: u8) -> Option<Rule>
        requires can { can_ask self.now }
        requires place { IsPlaceOf (part self.now) place.now }
        requires errand { IsErrand errand }
        requires used { used < quota errand }
        ensures { result
            ≡ ask_by (state self.now).life (part self.now) place.now errand used (state self.now) };
}
