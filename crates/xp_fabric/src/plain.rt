// The words of all partitions in plain memory, and the steps that were made on them.
ghost use Rattle.std.specs.Prelude.{◌≡◌, ℕ, ◌<◌, ◌≤◌, ◌+◌, [], ◌∷◌, ◌++◌, length, IfOk, OnOk};
ghost use Rattle.xp_base.specs.declared.layout.TheConstants.{PART_WORDS};
ghost use Rattle.xp_base.specs.declared.step.OpKind.TheVariants.{Load};
ghost use Rattle.xp_base.specs.declared.step.Answer.TheVariants.{Word, Failed};
ghost use Rattle.xp_base.specs.Memory.{word_at, answer_of, memory_after};
ghost use Rattle.xp_fabric.specs.Steps.{part_step, step_of, steps_from, LegalSteps, IsExtendedBy};

use crate::memory::Memory;
use crate::part_item::PartItem;
use std::alloc::{AllocError, Global};
use std::marker::Model;
use std::snapshot::Snapshot;
use xp_base::ids::PartId;
use xp_base::layout::PART_WORDS;
use xp_base::step::{Answer, Op, OpKind, Step};
use xp_base::words::Words;
use xp_ghost_list::GhostList;

/// Words in plain memory. Contracts see the words that it was opened with, all steps that its ports
/// made since, each with its port's partition and in the order in which they were made, and how
/// many more there is room for.
#[derive(Drop)]
pub struct PlainMemory {
    words: Words,
    history: GhostList<PartItem<Step>>,
    opening: Snapshot<Words>,
}

impl Model for PlainMemory {
    ghost use Rattle.std.specs.Prelude.{◌≡◌, length};
    ghost use Rattle.xp_fabric.specs.Views.{PlainView};
    ghost use Rattle.xp_fabric.specs.Steps.{LegalSteps};

    ghost Value = { PlainView };

    ghost view = { λ m. record { opening = m.opening.value; history = m.history; room = 1 } };

    ghost invariant = { λ m. LegalSteps m.opening.value m.history m.words
        × (length m.words ≡ length m.opening.value) };
}

impl PlainMemory {
    /// A memory with a copy of these words, on which no step was made.
    pub fn open(alloc: Global, words: &Words) -> Result<PlainMemory, AllocError>
        ensures opening { IfOk result (λ m. m.opening ≡ words.now) }
        ensures history { IfOk result (λ m. m.history ≡ []) }
    {
        let mut copy = Words::open(alloc, words.count())?;
        copy.put_all(words);
        Ok(PlainMemory {
            words: copy,
            history: GhostList::new(),
            opening: Snapshot::of(words),
        })
    }

    /// Makes room for one step. The history takes no memory, so there always is room.
    pub fn reserve(&mut self) -> Result<(), AllocError>
        ensures ok { OnOk result (0 < self.new.room) }
        ensures same { self.new ≡ record self.old { room = self.new.room } }
        ensures room { self.old.room ≤ self.new.room }
    {
        let _ = &self.history;
        Ok(())
    }

    /// Puts the words into `into`. The steps that were made, in their order, lead from the opening
    /// to these words.
    pub fn close(self, into: &mut Words)
        requires { length into.old ≡ length self.opening }
        ensures legal { LegalSteps self.opening self.history into.new }
        ensures count { length into.new ≡ length into.old }
    {
        into.put_all(&self.words);
    }

    /// The port of a partition, whose history is empty. When it is dropped, its steps stand at the
    /// end of the memory's history.
    pub fn port(&mut self, part: PartId) -> PlainPort<'_>
        requires part { part < length self.old.opening }
        requires room { 0 < self.old.room }
        ensures same_reference { result.memory.ghost_name ≡ self.entry.ghost_name }
        ensures memory { result.memory.now ≡ self.old }
        ensures part { result.part ≡ part }
        ensures before { result.before.value ≡ self.old }
        ensures fresh { steps_from (length result.before.value.history)
            result.memory.now.history ≡ [] }
    {
        let before = Snapshot::of(&*self);
        PlainPort {
            memory: self,
            part,
            before,
        }
    }

    // Makes a step of a partition.
    fn perform(&mut self, part: PartId, op: Op) -> u64
        requires owner { op.owner < length self.old.opening }
        requires index { op.index < PART_WORDS }
        requires room { 0 < self.old.room }
        ensures history { self.new.history
            ≡ self.old.history ++ part_step part (step_of op (Word result)) ∷ [] }
        ensures opening { self.new.opening ≡ self.old.opening }
        ensures room { self.old.room ≤ self.new.room + 1 }
    {
        let word = perform_on(&mut self.words, &op);
        self.history.push(&item_of(part, op, Answer::Word(word)));
        word
    }

    // Notes a failed load of a partition.
    fn miss(&mut self, part: PartId, op: Op)
        requires load { op.kind ≡ Load }
        requires room { 0 < self.old.room }
        ensures history { self.new.history
            ≡ self.old.history ++ part_step part (step_of op Failed) ∷ [] }
        ensures opening { self.new.opening ≡ self.old.opening }
        ensures room { self.old.room ≤ self.new.room + 1 }
    {
        self.history.push(&item_of(part, op, Answer::Failed));
    }
}

fn item_of(part: PartId, op: Op, answer: Answer) -> PartItem<Step>
    ensures { result ≡ part_step part (step_of op answer) }
{
    PartItem {
        part,
        item: Step { op, answer },
    }
}

// Makes a step on the words, and gives its answer.
fn perform_on(words: &mut Words, op: &Op) -> u64
    requires owner { op.now.owner < length words.old }
    requires index { op.now.index < PART_WORDS }
    ensures words { words.new ≡ memory_after words.old op.now }
    ensures answer { result ≡ answer_of op.now.kind (word_at words.old op.now.owner op.now.index) }
    ensures count { length words.new ≡ length words.old }
{
    let old = words.at(op.owner, op.index);
    match op.kind {
        OpKind::Load => old,
        OpKind::Store(word) => {
            words.set(op.owner, op.index, word);
            0
        }
        OpKind::Or(word) => {
            words.set(op.owner, op.index, old | word);
            old
        }
        OpKind::And(word) => {
            words.set(op.owner, op.index, old & word);
            old
        }
        OpKind::Take => {
            words.set(op.owner, op.index, 0);
            old
        }
    }
}

/// The port of one partition to a plain memory, which it keeps borrowed.
pub struct PlainPort<'a> {
    memory: &'a mut PlainMemory,
    part: PartId,
    before: Snapshot<PlainMemory>,
    pub ghost extended: { IsExtendedBy part before.value.history memory.now.history },
}

impl<'a> Memory for PlainPort<'a> {
    ghost use Rattle.std.specs.Prelude.{length};
    ghost use Rattle.xp_fabric.specs.Ports.{plain_opening, plain_history};

    ghost partition = { λ p. p.part };

    ghost count = { λ p. length p.memory.now.opening };

    ghost opening = { plain_opening };

    ghost loan = { λ p. p.memory.ghost_name };

    ghost history = { plain_history };

    ghost room = { λ p. p.memory.now.room };

    fn part(&self) -> PartId {
        self.part
    }

    fn perform(&mut self, op: Op) -> u64 {
        self.memory.perform(self.part, op)
    }

    fn miss(&mut self, op: Op) {
        self.memory.miss(self.part, op);
    }
}

impl Drop for PlainPort<'_> {
    fn drop(self)
        ensures { self.exit.0.now ≡ self.entry.memory.now }
    {
        let PlainPort {
            memory: _,
            part: _,
            before: _,
        } = self;
    }
}
