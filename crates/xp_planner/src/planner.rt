// Which step a partition makes next on its rounds.
ghost use Rattle.std.specs.Prelude.{◌≡◌, ℕ, ◌<◌, ◌≤◌, ◌+◌, [], Option, None, Some, drop};
ghost use Rattle.xp_base.specs.declared.layout.TheConstants.{PARTS};
ghost use Rattle.xp_rounds.specs.declared.rounds.TheConstants.{VISIT_TURNS};
ghost use Rattle.xp_rounds.specs.Ring.{at_start};
ghost use Rattle.xp_rounds.specs.Visit.{planned, seek, seek_on};
ghost use Rattle.xp_plan.specs.Plan.{plan_of, errands_of, agenda_at, IsVisit};
ghost use Rattle.xp_planner.specs.Sought.{found_in, entered, spent};

use crate::affairs::Affairs;
use crate::agenda::{errand_at, quota};
use std::marker::Model;
use xp_base::ids::PartId;
use xp_base::layout::PARTS;
use xp_plan::errand::Agenda;
use xp_protocol::rule::Rule;
use xp_rounds::rounds::Rounds;

/// The visits of a partition: where it is on its rounds, the errands that are left there, and how
/// many turns the first of them has had. Contracts see them as a `Visit`.
#[derive(Drop)]
pub struct Planner {
    rounds: Rounds,
    agenda: Agenda,
    /// The first errand that is left, by its place in the agenda.
    at: u8,
    used: u8,
}

impl Model for Planner {
    ghost use Rattle.xp_rounds.specs.Visit.{Visit};
    ghost use Rattle.xp_plan.specs.declared.errand.Errand.{Errand};

    ghost Value = { Visit Errand };

    ghost use Rattle.xp_planner.specs.PlannerInside.{view_of};

    ghost view = { view_of };
}

impl Planner {
    /// The visits of partition `own` among `count`, at its own place, before the first turn.
    pub fn new(own: PartId, count: u8) -> Planner
        requires own { own < count }
        requires count { count ≤ PARTS }
        ensures { result ≡ record { ring = at_start own count; rest = []; used = 0 } }
    {
        Planner {
            rounds: Rounds::new(own, count),
            agenda: Agenda::Boot,
            at: 1,
            used: 0,
        }
    }

    /// The step of the next turn, where it makes one. The turn is counted.
    pub fn next<A: Affairs>(&mut self, affairs: &A) -> Option<Rule>
        requires can { A.can_ask affairs.now }
        requires visit { IsVisit (A.part affairs.now) self.old }
        ensures rule { result
            ≡ (planned (plan_of (A.part affairs.now)) self.old (A.state affairs.now)).rule }
        ensures visit { self.new
            ≡ (planned (plan_of (A.part affairs.now)) self.old (A.state affairs.now)).visit }
        ensures goes_on { IsVisit (A.part affairs.now) self.new }
    {
        self.arrive(affairs);
        let rule = self.seek(affairs);
        if rule.is_some() {
            self.spend();
            return rule;
        }
        self.rounds.pass();
        self.enter(affairs);
        let next_rule = self.seek(affairs);
        if next_rule.is_some() {
            self.spend();
        }
        next_rule
    }

    // The agenda of a place that was come to just now is fixed.
    fn arrive<A: Affairs>(&mut self, affairs: &A)
        requires can { A.can_ask affairs.now }
        requires visit { IsVisit (A.part affairs.now) self.old }
        ensures ring { self.new.ring ≡ self.old.ring }
        ensures left { seek (plan_of (A.part affairs.now)) self.new.ring.at (A.state affairs.now)
            self.new.rest self.new.used
            ≡ seek_on (plan_of (A.part affairs.now)) self.old (A.state affairs.now) }
    {
        if self.rounds.is_fresh() {
            self.enter(affairs);
        }
    }

    fn enter<A: Affairs>(&mut self, affairs: &A)
        requires can { A.can_ask affairs.now }
        requires own { self.old.ring.own ≡ (A.part affairs.now).part }
        requires count { self.old.ring.count ≡ (A.part affairs.now).count }
        ensures { self.new ≡ entered (plan_of (A.part affairs.now)) self.old.ring
            (A.state affairs.now) }
    {
        let place = self.rounds.at();
        self.agenda = affairs.agenda(&place);
        self.at = 0;
        self.used = 0;
    }

    // The first errand that is left is the one that asks for a step.
    #[tactic(auto, using(crate::proofs::Seeking::nothing_left))]
    fn seek<A: Affairs>(&mut self, affairs: &A) -> Option<Rule>
        requires can { A.can_ask affairs.now }
        requires own { self.old.ring.own ≡ (A.part affairs.now).part }
        requires count { self.old.ring.count ≡ (A.part affairs.now).count }
        ensures ring { self.new.ring ≡ self.old.ring }
        ensures found { found_in self.new result
            ≡ seek (plan_of (A.part affairs.now)) self.old.ring.at (A.state affairs.now)
            self.old.rest self.old.used }
        ensures few { self.new.used < VISIT_TURNS }
        ensures none { result ≡ None → (self.new.rest ≡ []) × (self.new.used ≡ 0) }
    {
        let place = self.rounds.at();
        while let Some(errand) = errand_at(self.agenda, self.at) {
            if self.used < quota(errand) {
                let rule = affairs.step(&place, errand, self.used);
                if rule.is_some() {
                    return rule;
                }
            }
            self.at += 1;
            self.used = 0;
        }
        self.used = 0;
        None
    }

    // The first errand that is left has the turn.
    fn spend(&mut self)
        requires { self.old.used < VISIT_TURNS }
        ensures { self.new ≡ spent self.old }
    {
        self.rounds.made(true);
        self.used += 1;
    }
}
