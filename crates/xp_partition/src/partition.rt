// One whole partition.
ghost use Rattle.std.specs.Prelude.{◌≡◌, ℕ, ◌-◌, ◌<◌, ◌^◌, IfOk, OnOk, OnErr};
ghost use Rattle.xp_base.specs.declared.layout.TheConstants.{CHANNELS};
ghost use Rattle.xp_rounds.specs.Visit.{planned};
ghost use Rattle.xp_protocol.specs.Parts.{IsLawfulPart};
ghost use Rattle.xp_protocol.specs.State.{opened_state, opening_life, opening_stamp};
ghost use Rattle.xp_protocol.specs.Logged.{opened_records};
ghost use Rattle.xp_plan.specs.Plan.{first_visit, plan_of};
ghost use Rattle.xp_partition.specs.Keeping.{state_of, records_at};
ghost use Rattle.xp_partition.specs.Partners.{AllHaveTurnRoom, AreSameButRoom};
ghost use Rattle.xp_partition.specs.Life.{life_seen};
ghost use Rattle.xp_partition.specs.Partition.{IsPartition};

mod moments;

use crate::clock::Clock;
use crate::keeping::Keeping;
use crate::life::Life;
use crate::partners::Partners;
use crate::progress::Progress;
use std::alloc::{AllocError, Global};
use xp_beat::beat::Beat;
use xp_discover::boot::Boot;
use xp_planner::planner::Planner;
use xp_protocol::rule::Rule;
use xp_script::part::{Links, ScenarioPart};

/// One whole partition: what it keeps, and its visits.
#[derive(Drop)]
pub struct Partition {
    pub keeping: Keeping,
    pub planner: Planner,
}

// A partition with a link opens booted; one without boots first.
fn opening_life(links: &Links) -> Life
    ensures { life_seen result ≡ opening_life links.now }
{
    if links.list.is_empty() {
        Life::Booting
    } else {
        Life::Up
    }
}

// The stamp that a partition opens with.
fn opening_stamp(links: &Links) -> u32
    ensures { result ≡ opening_stamp links.now }
{
    if links.list.is_empty() { 0 } else { 1 }
}

impl Partition {
    /// A partition at the opening, before any moment of it: the ends of its links are connected.
    #[tactic(auto, using(crate::proofs::Kept::opening))]
    pub fn open(alloc: Global, part: ScenarioPart) -> Result<Partition, AllocError>
        requires { IsLawfulPart part }
        ensures state { IfOk result (λ x. state_of x.keeping ≡ opened_state part) }
        ensures visit { IfOk result (λ x. x.planner ≡ first_visit part) }
        ensures records { IfOk result (λ x. (q c : ℕ) → q < part.count → c < CHANNELS →
            records_at x.keeping q c ≡ opened_records part.links q c) }
        ensures part { IfOk result (λ x. x.keeping.part ≡ part) }
        ensures partition { IfOk result (λ x. IsPartition x) }
    {
        let (partners, mask) = Partners::open(alloc, &part)?;
        let own = part.part;
        let count = part.count.get();
        let life = opening_life(&part.links);
        let stamp = opening_stamp(&part.links);
        Ok(Partition {
            keeping: Keeping {
                part,
                stopped: false,
                life,
                boot: Boot::new(own, count),
                stamp,
                beat: Beat::masked(mask),
                clock: Clock::new(),
                script: Progress::new(),
                partners,
            },
            planner: Planner::new(own, count),
        })
    }

    /// The step of the next turn, where it makes one. The turn is counted in the visit.
    pub fn next(&mut self) -> Option<Rule>
        requires partition { IsPartition self.old }
        requires turns { self.old.keeping.clock.turns < 2 ^ 64 - 1 }
        ensures rule { result ≡ (planned (plan_of self.old.keeping.part) self.old.planner
            (state_of self.old.keeping)).rule }
        ensures visit { self.new.planner ≡ (planned (plan_of self.old.keeping.part)
            self.old.planner (state_of self.old.keeping)).visit }
        ensures keeping { self.new.keeping ≡ self.old.keeping }
        ensures partition { IsPartition self.new }
    {
        self.planner.next(&self.keeping)
    }

    /// Makes room for a turn at the ends of the partners that were touched since room was made.
    /// After want of memory all is as before, but for more room.
    #[tactic(auto, using(crate::proofs::Kept::reserving))]
    pub fn reserve(&mut self) -> Result<(), AllocError>
        requires { IsPartition self.old }
        ensures ok { OnOk result (AllHaveTurnRoom self.new.keeping.partners) }
        ensures same { AreSameButRoom self.old.keeping.partners self.new.keeping.partners }
        ensures state { state_of self.new.keeping ≡ state_of self.old.keeping }
        ensures visit { self.new.planner ≡ self.old.planner }
        ensures part { self.new.keeping.part ≡ self.old.keeping.part }
        ensures partition { IsPartition self.new }
    {
        self.keeping.partners.reserve()
    }
}
