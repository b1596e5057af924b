// A node: one partition, what it shows of its turns, and the step that waits for its answer.
ghost use Rattle.std.specs.Prelude.{◌≡◌, ◌<◌, ◌≤◌, ◌^◌, [], None, IfSome, IfNone, IfOk, IsSome, OnOk, map, reverse};
ghost use Rattle.xp_script.specs.Lawful.{IsLawful};
ghost use Rattle.xp_script.specs.Parts.{part_of};
ghost use Rattle.xp_protocol.specs.Parts.{IsLawfulPart, is_among, fails_at};
ghost use Rattle.xp_protocol.specs.Runs.{is_failed};
ghost use Rattle.xp_counts.specs.Planned.{HasFewPlans};
ghost use Rattle.xp_connections.specs.Page.{said_of};
ghost use Rattle.xp_node.specs.Node.{records_at, IsEnded, ended_of, answered_by, MakesTurn, IsStep, HasMade};

use crate::ended::Ended;
use crate::journal::Journal;
use crate::turn::{MOST_TURNS, Waiting, begin_turn, end_turn, make_step};
use std::alloc::{AllocError, Global};
use std::marker::Model;
use std::snapshot::Snapshot;
use xp_base::ids::{Channel, PartId};
use xp_base::step::{Answer, CopyMark, Step, Wanted};
use xp_connections::record::Record;
use xp_partition::life::Life;
use xp_partition::partition::Partition;
use xp_script::count::Count;
use xp_script::log::Entry;
use xp_script::part::ScenarioPart;
use xp_script::scenario::Scenario;
use xp_script::setting::Faults;
use xp_steps::wanting::wanted;

/// One partition, turn by turn. Contracts see its part of the scenario, what it knows, where it is
/// on its rounds, its log, its records and its steps, the step that waits for its answer, and for
/// how many turns there is room. While a step waits, all but that is as it was before the turn.
#[derive(Drop)]
pub struct Node {
    partition: Partition,
    journal: Journal,
    waiting: Option<Waiting>,
    /// The partition before the turn whose step waits.
    before: Snapshot<Partition>,
    /// Whether no turn comes any more.
    ended: bool,
    /// Whether there is room for a turn.
    ready: bool,
}

impl Model for Node {
    ghost use Rattle.xp_node.specs.Node.{NodeView};

    ghost Value = { NodeView };

    ghost use Rattle.xp_node.specs.NodeInside.{view_of, IsNode};

    ghost view = { view_of };

    ghost invariant = { IsNode };
}

impl Node {
    /// A partition of a scenario, before its first turn.
    pub fn new(alloc: Global, scenario: &Scenario, part: PartId) -> Result<Node, AllocError>
        requires lawful { IsLawful scenario.now }
        requires part { part < scenario.now.count }
        ensures part { IfOk result (λ node. node.part ≡ part_of scenario.now part) }
        ensures made { IfOk result (λ node. HasMade node []) }
        ensures waiting { IfOk result (λ node. node.waiting ≡ None) }
    {
        Node::open(alloc, scenario.part(alloc, part)?)
    }

    // The partition that is told this of a scenario, before its first turn.
    fn open(alloc: Global, part: ScenarioPart) -> Result<Node, AllocError>
        requires lawful { IsLawfulPart part }
        requires few { HasFewPlans part }
        ensures part { IfOk result (λ node. node.part ≡ part) }
        ensures made { IfOk result (λ node. HasMade node []) }
        ensures waiting { IfOk result (λ node. node.waiting ≡ None) }
    {
        let mut partition = Partition::open(alloc, part)?;
        partition.moment(0);
        let ended = partition.keeping.has_ended();
        let before = Snapshot::of(&partition);
        Ok(Node {
            partition,
            journal: Journal::new(alloc),
            waiting: None,
            before,
            ended,
            ready: false,
        })
    }

    /// Makes room for a turn. There is none after `MOST_TURNS` turns.
    pub fn reserve_turn(&mut self) -> Result<(), AllocError>
        ensures ok { OnOk result (0 < self.new.room) }
        ensures same { self.new ≡ record self.old { room = self.new.room } }
        ensures room { self.old.room ≤ self.new.room }
    {
        if self.ready {
            return Ok(());
        }
        if self.partition.keeping.clock.turns() >= MOST_TURNS {
            return Err(AllocError);
        }
        self.partition.reserve()?;
        self.journal.reserve()?;
        self.ready = true;
        Ok(())
    }

    /// Begins a turn. The step that it wants waits for its answer; with none the turn is over.
    pub fn next(&mut self) -> Option<Wanted>
        requires room { 0 < self.old.room }
        requires running { IsEnded self.old → ⊥ }
        requires idle { self.old.waiting ≡ None }
        ensures some { IfSome result
            (λ wanted. self.new ≡ record self.old { waiting = Some wanted }) }
        ensures none { IfNone result (MakesTurn self.old self.new None) }
        ensures step { IfSome result (λ wanted. IsStep self.old.part wanted) }
    {
        let before = Snapshot::of(&self.partition);
        let earlier = self.partition.keeping.clock.puts();
        let begun = begin_turn(&mut self.partition);
        match begun.rule {
            Some(rule) => {
                let waiting = Waiting {
                    rule,
                    wanted: wanted(&self.partition.keeping, rule),
                    entry: begun.entry,
                    earlier,
                };
                let wanted = waiting.wanted();
                self.before = before;
                self.waiting = Some(waiting);
                Some(wanted)
            }
            None => {
                let answer = end_turn(&mut self.partition, earlier);
                self.journal.write(begun.entry, None, answer);
                self.ended = self.partition.keeping.has_ended();
                self.ready = false;
                None
            }
        }
    }

    /// Takes the answer of the step that waits, and ends the turn. The answer is that the load
    /// failed exactly where that is planned.
    pub fn feed(&mut self, answer: Answer)
        requires room { 0 < self.old.room }
        requires waits { IsSome self.old.waiting }
        requires planned { IfSome self.old.waiting
            (λ wanted. is_failed answer ≡ fails_at self.old.part wanted.mark) }
        ensures made { IfSome self.old.waiting
            (λ wanted. MakesTurn self.old self.new (Some (answered_by wanted answer))) }
    {
        let Some(waiting) = self.waiting.take() else {
            return;
        };
        make_step(&mut self.partition, &waiting, answer);
        let answered = end_turn(&mut self.partition, waiting.earlier);
        let step = Step {
            op: waiting.wanted.op,
            answer,
        };
        self.journal.write(waiting.entry, Some(step), answered);
        self.ended = self.partition.keeping.has_ended();
        self.ready = false;
    }
}

impl Node {
    /// How the partition has ended, where it has.
    pub fn ended(&self) -> Option<Ended>
        requires { self.now.waiting ≡ None }
        ensures { result ≡ ended_of self.now }
    {
        if !self.ended {
            return None;
        }
        if self.partition.keeping.stopped {
            return Some(Ended::Stopped);
        }
        match self.partition.keeping.life {
            Life::Halted { word } => Some(Ended::Halted { word }),
            Life::Booting | Life::Up => Some(Ended::Done),
        }
    }

    /// How many turns were made.
    pub fn turns(&self) -> u64
        ensures { result ≡ self.now.state.clock.turns }
    {
        self.partition.keeping.clock.turns()
    }

    /// How many boots were begun, the present one among them.
    pub fn boots(&self) -> u8
        ensures { result ≡ self.now.state.clock.boots }
    {
        self.partition.keeping.clock.boots() as u8
    }

    /// How many buffers of the network device are in use: there is no device.
    pub fn pool(&self) -> u8
        ensures { result ≡ 0 }
    {
        0
    }

    /// The scenario's number of turns where nothing schedules them.
    pub fn budget(&self) -> u64
        ensures { result ≡ self.now.part.budget }
    {
        self.partition.keeping.part.budget
    }

    /// Whether the scenario plans that the load of a mark fails.
    pub fn fails(&self, mark: CopyMark) -> bool
        ensures { result ≡ is_among mark self.now.part.faults }
    {
        is_named(&self.partition.keeping.part.faults, mark)
    }

    /// The number of the partition.
    pub fn part(&self) -> u8
        ensures { result ≡ self.now.part.part }
    {
        self.partition.keeping.part.part.get()
    }

    /// How many partitions there are.
    pub fn count(&self) -> Count
        ensures { result ≡ self.now.part.count }
    {
        self.partition.keeping.part.count
    }

    /// The steps of all turns, in their order.
    pub fn trace(&self) -> &[Step]
        ensures { result.now ≡ self.now.steps }
    {
        self.journal.trace()
    }

    /// The commands that were begun, with their answers.
    pub fn log(&self) -> &[Entry]
        ensures { result.now ≡ self.now.entries }
    {
        self.journal.log()
    }

    /// The records of an end's connections, in the order in which they were begun.
    pub fn records(&self, partner: PartId, channel: Channel) -> &[Record]
        requires partner { partner < self.now.part.count }
        requires idle { self.now.waiting ≡ None }
        ensures { map said_of (reverse result.now) ≡ records_at self.now partner channel }
    {
        let _number = channel.get();
        let partner = self.partition.keeping.partners.at(partner);
        partner.end(channel).records()
    }
}

// Whether one of the lines says that the load of a mark fails.
fn is_named(faults: &Faults, mark: CopyMark) -> bool
    ensures { result ≡ is_among mark faults.now }
{
    for fault in &faults.list {
        if fault.names(mark) {
            return true;
        }
    }
    false
}
