// When a partition has ended.
ghost use Rattle.std.specs.Prelude.{◌≡◌};
ghost use Rattle.xp_protocol.specs.Runs.{is_done, is_over, has_ended};
ghost use Rattle.xp_partition.specs.Keeping.{state_of};

use crate::keeping::Keeping;

impl Keeping {
    /// Whether the script is answered to its end, and no store of get and no flag is owed.
    pub fn is_done(&self) -> bool
        ensures { result ≡ is_done self.now.part (state_of self.now) }
    {
        let is_begun = self.script.begun() == self.commands() as u64;
        is_begun && !self.script.is_doing() && !self.partners.owe()
    }

    /// Whether the partition stopped as planned, or halted.
    pub fn is_over(&self) -> bool
        ensures { result ≡ is_over (state_of self.now) }
    {
        self.stopped || self.life.is_halted()
    }

    /// Whether the partition makes no turn any more.
    pub fn has_ended(&self) -> bool
        ensures { result ≡ has_ended self.now.part (state_of self.now) }
    {
        self.is_over() || self.is_done()
    }
}
