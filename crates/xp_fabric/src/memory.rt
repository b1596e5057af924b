// What a partition makes its steps through.
ghost use Rattle.std.specs.Prelude.{◌≡◌, ℕ, List, ◌<◌, ◌≤◌, ◌+◌, [], ◌∷◌, ◌++◌};
ghost use Rattle.xp_base.specs.declared.layout.TheConstants.{PART_WORDS};
ghost use Rattle.xp_base.specs.declared.step.Step.{Step};
ghost use Rattle.xp_base.specs.declared.step.OpKind.TheVariants.{Load};
ghost use Rattle.xp_base.specs.declared.step.Answer.TheVariants.{Word, Failed};
ghost use Rattle.xp_fabric.specs.Steps.{step_of};
ghost use Rattle.xp_fabric.specs.Openings.{Opening};

use xp_base::ids::PartId;
use xp_base::step::Op;

/// A partition's port to the words of all partitions.
///
/// Contracts see `partition`, the port's own partition; `count`, how many partitions there are;
/// `opening`, the opening of a memory that it is a port of; `history`, the steps made through it,
/// in order; and `room`, how many more steps there is room for. `loan` is the name under which a
/// plain memory is lent to its port, and 0 for a shared memory.
pub trait Memory {
    ghost partition: { Self → ℕ };

    ghost count: { Self → ℕ };

    ghost opening: { Self → Opening };

    ghost loan: { Self → ℕ };

    ghost history: { Self → List Step };

    ghost room: { Self → ℕ };

    /// The port's own partition.
    fn part(&self) -> PartId
        ensures { result ≡ partition self.now };

    /// Makes one atomic step and answers the word that it found; a store answers 0.
    fn perform(&mut self, op: Op) -> u64
        requires owner { op.owner < count self.old }
        requires index { op.index < PART_WORDS }
        requires room { 0 < room self.old }
        ensures history { history self.new ≡ history self.old ++ step_of op (Word result) ∷ [] }
        ensures partition { partition self.new ≡ partition self.old }
        ensures count { count self.new ≡ count self.old }
        ensures opening { opening self.new ≡ opening self.old }
        ensures loan { loan self.new ≡ loan self.old }
        ensures room { room self.old ≤ room self.new + 1 };

    /// Notes that a load of a copy failed. No word is touched.
    fn miss(&mut self, op: Op)
        requires owner { op.owner < count self.old }
        requires index { op.index < PART_WORDS }
        requires load { op.kind ≡ Load }
        requires room { 0 < room self.old }
        ensures history { history self.new ≡ history self.old ++ step_of op Failed ∷ [] }
        ensures partition { partition self.new ≡ partition self.old }
        ensures count { count self.new ≡ count self.old }
        ensures opening { opening self.new ≡ opening self.old }
        ensures loan { loan self.new ≡ loan self.old }
        ensures room { room self.old ≤ room self.new + 1 };
}
