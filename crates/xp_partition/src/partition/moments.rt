// The moments of a partition: it stops or restarts as planned.
ghost use Rattle.std.specs.Prelude.{◌≡◌, ℕ, ◌-◌, ◌<◌, ◌^◌, nat_eq, if◌then◌else◌};
ghost use Rattle.xp_script.specs.declared.setting.Moment.{Moment};
ghost use Rattle.xp_protocol.specs.Parts.{comes_at, any_comes, some_comes};
ghost use Rattle.xp_protocol.specs.Runs.{moment, restarted, stopped, stop_comes, restart_comes};
ghost use Rattle.xp_plan.specs.Plan.{first_visit};
ghost use Rattle.xp_partition.specs.Keeping.{state_of, records_at};
ghost use Rattle.xp_partition.specs.Partition.{IsPartition};

use crate::life::Life;
use crate::partition::Partition;
use crate::progress::Progress;
use xp_beat::beat::Beat;
use xp_discover::boot::Boot;
use xp_planner::planner::Planner;
use xp_script::setting::Moment;

impl Partition {
    /// A boot begins: nothing is known but what counts over all boots, and the visits begin
    /// again at the own place.
    #[tactic(auto, using(crate::proofs::Kept::restarting))]
    pub fn restart(&mut self)
        requires partition { IsPartition self.old }
        requires boots { self.old.keeping.clock.boots < 2 ^ 64 - 1 }
        ensures state { state_of self.new.keeping
            ≡ restarted self.old.keeping.part (state_of self.old.keeping) }
        ensures visit { self.new.planner ≡ first_visit self.old.keeping.part }
        ensures records { (q c : ℕ) → q < self.old.keeping.part.count →
            records_at self.new.keeping q c ≡ records_at self.old.keeping q c }
        ensures part { self.new.keeping.part ≡ self.old.keeping.part }
        ensures partition { IsPartition self.new }
    {
        let own = self.keeping.part.part;
        let count = self.keeping.part.count.get();
        self.keeping.stopped = false;
        self.keeping.life = Life::Booting;
        self.keeping.boot = Boot::new(own, count);
        self.keeping.stamp = 0;
        self.keeping.beat = Beat::new();
        self.keeping.clock.count_boot();
        self.keeping.script = Progress::new();
        self.keeping.partners.boot();
        self.planner = Planner::new(own, count);
    }

    /// The partition stops, and keeps what it knows.
    pub fn stop(&mut self)
        requires { IsPartition self.old }
        ensures state { state_of self.new.keeping ≡ stopped (state_of self.old.keeping) }
        ensures visit { self.new.planner ≡ self.old.planner }
        ensures records { (q c : ℕ) → q < self.old.keeping.part.count →
            records_at self.new.keeping q c ≡ records_at self.old.keeping q c }
        ensures part { self.new.keeping.part ≡ self.old.keeping.part }
        ensures partition { IsPartition self.new }
    {
        self.keeping.stopped = true;
    }

    /// What is planned after a turn, before which `earlier` messages were put: it stops, or else
    /// restarts. Nothing comes any more once it stopped or halted.
    #[tactic(auto, using(crate::proofs::Begins::moments))]
    pub fn moment(&mut self, earlier: u64)
        requires partition { IsPartition self.old }
        requires boots { self.old.keeping.clock.boots < 2 ^ 64 - 1 }
        ensures state { state_of self.new.keeping
            ≡ moment self.old.keeping.part earlier (state_of self.old.keeping) }
        ensures visit { self.new.planner ≡
            (if nat_eq self.new.keeping.clock.boots self.old.keeping.clock.boots
            then self.old.planner else first_visit self.old.keeping.part) }
        ensures records { (q c : ℕ) → q < self.old.keeping.part.count →
            records_at self.new.keeping q c ≡ records_at self.old.keeping q c }
        ensures part { self.new.keeping.part ≡ self.old.keeping.part }
        ensures partition { IsPartition self.new }
    {
        if self.keeping.is_over() {
            return;
        }
        if self.stop_comes(earlier) {
            self.stop();
        } else if self.restart_comes(earlier) {
            self.restart();
        }
    }

    // Whether a stop is planned for now.
    fn stop_comes(&self, earlier: u64) -> bool
        ensures { result ≡ stop_comes self.now.keeping.part earlier (state_of self.now.keeping) }
    {
        match &self.keeping.part.stop {
            Some(moment) => self.comes(*moment, earlier),
            None => false,
        }
    }

    // Whether a restart is planned for now.
    fn restart_comes(&self, earlier: u64) -> bool
        ensures { result ≡ any_comes self.now.keeping.clock.turns earlier
            self.now.keeping.clock.puts self.now.keeping.part.restarts }
    {
        for moment in &self.keeping.part.restarts.list {
            if self.comes(*moment, earlier) {
                return true;
            }
        }
        false
    }

    // Whether a moment is now.
    fn comes(&self, moment: Moment, earlier: u64) -> bool
        ensures { result ≡ comes_at self.now.keeping.clock.turns earlier
            self.now.keeping.clock.puts moment }
    {
        match moment {
            Moment::Turn(turn) => self.keeping.clock.turns() == turn,
            Moment::Put(number) => {
                let puts = self.keeping.clock.puts();
                puts == number && earlier < puts
            }
        }
    }
}
