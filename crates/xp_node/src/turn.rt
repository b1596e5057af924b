// The parts of a turn: its beginning, its step, and its end.
ghost use Rattle.std.specs.Prelude.{◌≡◌, ℕ, ◌+◌, ◌-◌, ◌<◌, ◌^◌, Some, IfSome};
ghost use Rattle.xp_base.specs.declared.layout.TheConstants.{LINES};
ghost use Rattle.xp_protocol.specs.Parts.{fails_at};
ghost use Rattle.xp_protocol.specs.Rules.{wanted_of};
ghost use Rattle.xp_protocol.specs.Runs.{is_failed, turn_counted};
ghost use Rattle.xp_counts.specs.Counted.{AreCounted};
ghost use Rattle.xp_partition.specs.Keeping.{state_of, records_at, IsKept};
ghost use Rattle.xp_partition.specs.Partition.{IsPartition};
ghost use Rattle.xp_partition.specs.Partners.{AreRoomy, AllHaveNotes, AllHaveNotesLeft, LeavesUntouched};
ghost use Rattle.xp_acts.specs.Commands.{CanLog};
ghost use Rattle.xp_steps.specs.Stepping.{CanStep};
ghost use Rattle.xp_node.specs.Node.{answered_by};
ghost use Rattle.xp_node.specs.Turning.{CanTurn, Began, CanEnd, Told, Begins, Makes, Ends};

use xp_acts::answering::answer;
use xp_acts::beginning::begin;
use xp_acts::noticing::notice;
use xp_base::step::{Answer, Wanted};
use xp_partition::keeping::Keeping;
use xp_partition::partition::Partition;
use xp_protocol::rule::Rule;
use xp_script::log::{Entry, LogAnswer};
use xp_steps::stepping::step;

/// How many turns a partition makes at most: 2^29, far more than any scenario schedules. So each of
/// its counts stays below 2^32.
pub const MOST_TURNS: u64 = 536_870_912;

/// What a turn begins with: the command that it begins, and the rule that is planned after it.
#[derive(Drop)]
pub struct Beginning {
    pub entry: Option<Entry>,
    pub rule: Option<Rule>,
}

/// A step that waits for its answer: its rule, what it does, which command its turn began, and how
/// many messages were put before the turn.
#[derive(Drop)]
pub struct Waiting {
    pub rule: Rule,
    pub wanted: Wanted,
    pub entry: Option<Entry>,
    pub earlier: u64,
}

impl Waiting {
    /// The step that is wanted.
    pub fn wanted(&self) -> Wanted
        ensures { result ≡ self.now.wanted }
    {
        self.wanted
    }
}

// The next command is begun, where it can be.
#[tactic(auto, using(crate::proofs::Beginning::began))]
fn begin_command(keeping: &mut Keeping) -> Option<Entry>
    requires kept { IsKept keeping.old }
    requires counts { AreCounted (2 ^ 63) (state_of keeping.old) }
    requires log { CanLog keeping.old }
    requires room { AllHaveNotes (LINES + 3) keeping.old.partners }
    ensures began { Began keeping.old keeping.new result }
    ensures room { AllHaveNotes (LINES + 2) keeping.new.partners }
    ensures roomy { AreRoomy keeping.old.partners → AreRoomy keeping.new.partners }
{
    begin(keeping)
}

/// A turn begins: the next command, where it can be begun, and the rule that is planned then.
#[tactic(auto, using(crate::proofs::Beginning::beginning))]
pub fn begin_turn(partition: &mut Partition) -> Beginning
    requires { CanTurn partition.old }
    ensures begins { Begins partition.old.keeping.part (state_of partition.old.keeping)
        partition.old partition.new result.entry result.rule }
    ensures can { IfSome result.rule (λ rule. CanStep partition.new.keeping rule) }
    ensures room { AllHaveNotes (LINES + 2) partition.new.keeping.partners }
{
    let entry = begin_command(&mut partition.keeping);
    let rule = partition.next();
    Beginning { entry, rule }
}

/// The step that waits is made.
#[tactic(auto, using(crate::proofs::Making::making))]
pub fn make_step(partition: &mut Partition, waiting: &Waiting, answer: Answer)
    requires partition { IsPartition partition.old }
    requires can { CanStep partition.old.keeping waiting.now.rule }
    requires wanted { waiting.now.wanted ≡ wanted_of partition.old.keeping.part
        (state_of partition.old.keeping) waiting.now.rule }
    requires room { AllHaveNotes (LINES + 2) partition.old.keeping.partners }
    requires planned { is_failed answer
        ≡ fails_at partition.old.keeping.part waiting.now.wanted.mark }
    ensures makes { Makes partition.old.keeping.part (state_of partition.old.keeping)
        partition.old partition.new (Some waiting.now.rule)
        (Some (answered_by waiting.now.wanted answer)) }
    ensures left { AllHaveNotesLeft (LINES + 1) partition.new.keeping.partners }
    ensures untouched { LeavesUntouched partition.old.keeping.partners
        partition.new.keeping.partners }
{
    step(
        &mut partition.keeping,
        waiting.rule,
        waiting.wanted.mark,
        answer,
    );
}

// The notices that are due are given, and then the answer.
#[tactic(auto, using(crate::proofs::Ending::telling))]
fn tell(keeping: &mut Keeping) -> Option<LogAnswer>
    requires { CanEnd keeping.old }
    ensures told { Told keeping.old keeping.new result }
    ensures roomy { AreRoomy keeping.old.partners → AreRoomy keeping.new.partners }
{
    notice(keeping);
    answer(keeping)
}

// A turn is counted.
#[tactic(auto, using(crate::proofs::Ending::counting))]
fn count(partition: &mut Partition)
    requires partition { IsPartition partition.old }
    requires turns { partition.old.keeping.clock.turns < 2 ^ 64 - 1 }
    ensures state { state_of partition.new.keeping
        ≡ turn_counted (state_of partition.old.keeping) }
    ensures records { (q c : ℕ) → records_at partition.new.keeping q c
        ≡ records_at partition.old.keeping q c }
    ensures part { partition.new.keeping.part ≡ partition.old.keeping.part }
    ensures visit { partition.new.planner ≡ partition.old.planner }
    ensures partition { IsPartition partition.new }
{
    partition.keeping.clock.count_turn();
}

/// A turn ends, before which so many messages were put: the notices that are due are given, and the
/// answer; it is counted, and what is planned for its moment comes.
#[tactic(auto, using(crate::proofs::Ending::ending))]
pub fn end_turn(partition: &mut Partition, earlier: u64) -> Option<LogAnswer>
    requires partition { IsPartition partition.old }
    requires can { CanEnd partition.old.keeping }
    ensures { Ends partition.old.keeping.part (state_of partition.old.keeping) earlier
        partition.old partition.new result }
{
    let answer = tell(&mut partition.keeping);
    count(partition);
    partition.moment(earlier);
    answer
}
