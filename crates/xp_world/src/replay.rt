// A replay: the partitions of a scenario take the written turns over one plain memory.
ghost use Rattle.std.specs.Prelude.{◌≡◌, ◌<◌, length, replicate, OnOk};
ghost use Rattle.std.specs.List.{AllByRecursion};
ghost use Rattle.xp_script.specs.Lawful.{IsLawfulPlan};
ghost use Rattle.xp_script.specs.Totals.{plans_of};
ghost use Rattle.xp_script.specs.Turns.{one_round, some_rounds, plan_parts, written_plans};
ghost use Rattle.xp_world.specs.Replay.{IsReadyReplay, ReplayTurns, ReplayTakes};

use crate::turning::take_turn;
use std::alloc::AllocError;
use xp_base::ids::PartId;
use xp_fabric::plain::PlainMemory;
use xp_node::node::Node;
use xp_script::count::Count;
use xp_script::schedule::{Plan, Schedule};

/// The partitions of a scenario, and the memory that keeps their words and their steps until the
/// replay's end.
#[derive(Drop)]
pub struct Replay {
    pub count: Count,
    pub memory: PlainMemory,
    pub nodes: Vec<Node>,
}

impl Replay {
    // One turn of a partition; nothing where it has ended.
    fn turn(&mut self, part: PartId) -> Result<(), AllocError>
        requires part { part < length self.old.nodes.items }
        requires ready { IsReadyReplay self.old }
        ensures ok { OnOk result (ReplayTurns self.old self.new part) }
        ensures ready { OnOk result (IsReadyReplay self.new) }
        ensures count { length self.new.nodes.items ≡ length self.old.nodes.items }
    {
        take_turn(&mut self.memory, &mut self.nodes[part.get() as usize], part)
    }

    // One turn of each partition, in ascending order.
    fn round(&mut self) -> Result<(), AllocError>
        requires { IsReadyReplay self.old }
        ensures ok { OnOk result
            (ReplayTakes (one_round 0 (length self.old.nodes.items)) self.old self.new) }
        ensures ready { OnOk result (IsReadyReplay self.new) }
        ensures count { length self.new.nodes.items ≡ length self.old.nodes.items }
    {
        for number in 0..self.count.get() {
            self.turn(PartId::known(number))?;
        }
        Ok(())
    }

    fn rounds(&mut self, rounds: u64) -> Result<(), AllocError>
        requires { IsReadyReplay self.old }
        ensures ok { OnOk result
            (ReplayTakes (some_rounds (length self.old.nodes.items) rounds) self.old self.new) }
        ensures ready { OnOk result (IsReadyReplay self.new) }
        ensures count { length self.new.nodes.items ≡ length self.old.nodes.items }
    {
        for _round in 0..rounds {
            self.round()?;
        }
        Ok(())
    }

    // So many turns of one partition.
    fn turns(&mut self, part: PartId, turns: u64) -> Result<(), AllocError>
        requires part { part < length self.old.nodes.items }
        requires ready { IsReadyReplay self.old }
        ensures ok { OnOk result (ReplayTakes (replicate turns part) self.old self.new) }
        ensures ready { OnOk result (IsReadyReplay self.new) }
        ensures count { length self.new.nodes.items ≡ length self.old.nodes.items }
    {
        for _turn in 0..turns {
            self.turn(part)?;
        }
        Ok(())
    }

    // The turns that one line of a schedule gives.
    fn follow_plan(&mut self, plan: &Plan) -> Result<(), AllocError>
        requires plan { IsLawfulPlan (length self.old.nodes.items) plan.now }
        requires ready { IsReadyReplay self.old }
        ensures ok { OnOk result
            (ReplayTakes (plan_parts (length self.old.nodes.items) plan.now) self.old self.new) }
        ensures ready { OnOk result (IsReadyReplay self.new) }
        ensures count { length self.new.nodes.items ≡ length self.old.nodes.items }
    {
        match plan {
            Plan::Turns { part, turns } => self.turns(*part, *turns),
            Plan::Rounds(rounds) => self.rounds(*rounds),
        }
    }

    // The turns that the lines of a schedule give.
    fn follow_plans(&mut self, schedule: &Schedule) -> Result<(), AllocError>
        requires plans { AllByRecursion (IsLawfulPlan (length self.old.nodes.items)) schedule.now }
        requires ready { IsReadyReplay self.old }
        ensures ok { OnOk result
            (ReplayTakes (written_plans (length self.old.nodes.items) schedule.now)
            self.old self.new) }
        ensures ready { OnOk result (IsReadyReplay self.new) }
        ensures count { length self.new.nodes.items ≡ length self.old.nodes.items }
    {
        for plan in &schedule.list {
            self.follow_plan(plan)?;
        }
        Ok(())
    }

    /// The written turns: none where there is no schedule.
    pub fn follow(&mut self, schedule: &Option<Schedule>) -> Result<(), AllocError>
        requires plans { AllByRecursion (IsLawfulPlan (length self.old.nodes.items))
            (plans_of schedule.now) }
        requires ready { IsReadyReplay self.old }
        ensures ok { OnOk result
            (ReplayTakes (written_plans (length self.old.nodes.items) (plans_of schedule.now))
            self.old self.new) }
        ensures ready { OnOk result (IsReadyReplay self.new) }
        ensures count { length self.new.nodes.items ≡ length self.old.nodes.items }
    {
        match schedule {
            Some(schedule) => self.follow_plans(schedule),
            None => Ok(()),
        }
    }
}
