// The words of all partitions, shared by threads.
ghost use Rattle.std.specs.Prelude.{◌≡◌, ℕ, ◌<◌, ◌≤◌, ◌+◌, ◌*◌, [], ◌∷◌, ◌++◌, length, IfOk, OnOk};
ghost use Rattle.std.specs.Mem.Slots.{slots_items, slots_len, IsFull};
ghost use Rattle.xp_base.specs.declared.layout.TheConstants.{PARTS, PART_WORDS};
ghost use Rattle.xp_base.specs.declared.step.OpKind.TheVariants.{Load};
ghost use Rattle.xp_base.specs.declared.step.Answer.TheVariants.{Word, Failed};
ghost use Rattle.xp_base.specs.Rows.{rows};
ghost use Rattle.xp_fabric.specs.Passes.{answered_steps, OnlyLoadsFail, OnlyLoadsFailIn, joined_view, AreFresh, AreOfTable, AllPasses, Merges};
ghost use Rattle.xp_fabric.specs.Rule.{StandsForOne, with_step, part_steps, fresh_parts};
ghost use Rattle.xp_fabric.specs.Steps.{step_of};

use crate::memory::Memory;
use crate::rule::{
    AndStep, HistoryRule, JoinSeat, LoadStep, MakeSeat, OrStep, StoreStep, TakeStep, View,
};
use atomic_table::{Closed, Seat, Shared, Table};
use std::alloc::{AllocError, Global};
use std::marker::Model;
use xp_base::ids::PartId;
use xp_base::layout::PART_WORDS;
use xp_base::step::{Answer, Op, OpKind, Step};
use xp_base::words::Words;
use xp_ghost_list::GhostList;

/// Words that threads share, each changed by single sequentially consistent steps. Contracts see
/// the words that it was opened with, and its table, which no other memory has.
#[derive(Drop)]
pub struct SharedMemory {
    table: Table<u8, View, Words, HistoryRule, Global>,
}

impl Model for SharedMemory {
    ghost use Rattle.std.specs.Prelude.{◌≡◌, ◌*◌, ◌<◌, length};
    ghost use Rattle.xp_base.specs.declared.layout.TheConstants.{PART_WORDS};
    ghost use Rattle.xp_fabric.specs.Views.{SharedView};

    ghost Value = { SharedView };

    ghost view = { λ m. record { opening = m.table.shared.key; table = m.table.shared.table_id } };

    ghost invariant = { λ m.
        (m.table.shared.table_id.words ≡ PART_WORDS * length m.table.shared.key)
        × (m.table.shared.table_id.slots ≡ 0)
        × (0 < length m.table.shared.key) };
}

/// The right to make one partition's steps on a shared memory: the partition's seat at the table,
/// and the history of its ports. In memory it is the partition's number alone. Contracts see the
/// partition, the table, the history, and how many more steps there is room for.
#[derive(Drop)]
pub struct Pass {
    part: PartId,
    seat: Seat<u8, View>,
    history: GhostList<Step>,
}

impl Model for Pass {
    ghost use Rattle.std.specs.Prelude.{◌≡◌, [], ◌∷◌};
    ghost use Rattle.xp_fabric.specs.Passes.{answered_steps, OnlyLoadsFail};
    ghost use Rattle.xp_fabric.specs.Rule.{part_steps};
    ghost use Rattle.xp_fabric.specs.Views.{PassView};

    ghost Value = { PassView };

    ghost view = { λ p.
        record { part = p.part; table = p.seat.table_id; history = p.history; room = 1 } };

    ghost invariant = { λ p.
        (p.seat.me ≡ (part_steps p.part (answered_steps p.history) ∷ [], []))
        × OnlyLoadsFail p.history };
}

impl Pass {
    fn new(part: PartId, seat: Seat<u8, View>) -> Pass
        requires { seat.me ≡ (part_steps part [] ∷ [], []) }
        ensures part { result.part ≡ part }
        ensures table { result.table ≡ seat.table_id }
        ensures history { result.history ≡ [] }
    {
        Pass {
            part,
            seat,
            history: GhostList::new(),
        }
    }

    fn part(&self) -> PartId
        ensures { result ≡ self.now.part }
    {
        self.part
    }

    fn into_seat(self) -> Seat<u8, View>
        ensures table { result.table_id ≡ self.table }
        ensures seat { result.me ≡ (part_steps self.part (answered_steps self.history) ∷ [], []) }
        ensures loads { OnlyLoadsFail self.history }
    {
        self.seat
    }

    fn reserve(&mut self) -> Result<(), AllocError>
        ensures ok { OnOk result (0 < self.new.room) }
        ensures same { self.new ≡ record self.old { room = self.new.room } }
        ensures room { self.old.room ≤ self.new.room }
    {
        let _ = &self.history;
        Ok(())
    }

    // Makes a step on the words.
    fn perform(&mut self, memory: &SharedMemory, op: Op) -> u64
        requires table { self.old.table ≡ memory.now.table }
        requires owner { op.owner < length memory.now.opening }
        requires index { op.index < PART_WORDS }
        requires room { 0 < self.old.room }
        ensures history { self.new.history ≡ self.old.history ++ step_of op (Word result) ∷ [] }
        ensures part { self.new.part ≡ self.old.part }
        ensures table { self.new.table ≡ self.old.table }
        ensures room { self.old.room ≤ self.new.room + 1 }
    {
        let word = perform_at(&memory.table.shared, &mut self.seat, &op);
        self.history.push(&step(op, Answer::Word(word)));
        word
    }

    // Notes a failed load beside the seat's own view.
    fn miss(&mut self, op: Op)
        requires load { op.kind ≡ Load }
        requires room { 0 < self.old.room }
        ensures history { self.new.history ≡ self.old.history ++ step_of op Failed ∷ [] }
        ensures part { self.new.part ≡ self.old.part }
        ensures table { self.new.table ≡ self.old.table }
        ensures room { self.old.room ≤ self.new.room + 1 }
    {
        self.history.push(&step(op, Answer::Failed));
    }
}

fn step(op: Op, answer: Answer) -> Step
    ensures { result ≡ step_of op answer }
{
    Step { op, answer }
}

// Makes a step at the seat of a partition.
fn perform_at(
    shared: &Shared<u8, View, Words, HistoryRule>,
    seat: &mut Seat<u8, View>,
    op: &Op,
) -> u64
    requires table { seat.old.table_id ≡ shared.now.table_id }
    requires words { shared.now.table_id.words ≡ PART_WORDS * length shared.now.key }
    requires seat { StandsForOne seat.old.me }
    requires owner { op.now.owner < length shared.now.key }
    requires index { op.now.index < PART_WORDS }
    ensures table { seat.new.table_id ≡ seat.old.table_id }
    ensures seat { seat.new.me ≡ (with_step (step_of op.now (Word result)) seat.old.me.0, []) }
{
    let place = PART_WORDS as usize * op.owner.get() as usize + op.index as usize;
    match op.kind {
        OpKind::Load => shared.load::<LoadStep>(seat, place),
        OpKind::Store(word) => {
            shared.store::<StoreStep>(seat, place, word);
            0
        }
        OpKind::Or(word) => shared.fetch_or::<OrStep>(seat, place, word),
        OpKind::And(word) => shared.fetch_and::<AndStep>(seat, place, word),
        OpKind::Take => shared.swap::<TakeStep>(seat, place, 0),
    }
}

/// The port of one partition to words that threads share. Its steps take no lock and no memory, and
/// never wait.
#[derive(Drop)]
pub struct Port<'a> {
    memory: &'a SharedMemory,
    pass: Pass,
    pub ghost of_memory: { pass.table ≡ memory.now.table },
}

impl<'a> Port<'a> {
    /// The pass, with the steps of this port at the end of its history.
    pub fn pass(self) -> Pass
        ensures { result ≡ self.entry.pass }
    {
        let Port { memory: _, pass } = self;
        pass
    }

    /// Makes room for one step. The history takes no memory, so there always is room.
    pub fn reserve(&mut self) -> Result<(), AllocError>
        ensures ok { OnOk result (0 < self.new.pass.room) }
        ensures same { self.new.pass ≡ record self.old.pass { room = self.new.pass.room } }
        ensures room { self.old.pass.room ≤ self.new.pass.room }
        ensures memory { self.new.memory ≡ self.old.memory }
    {
        self.pass.reserve()
    }
}

impl<'a> Memory for Port<'a> {
    ghost use Rattle.std.specs.Prelude.{length};
    ghost use Rattle.xp_fabric.specs.Ports.{shared_opening};

    ghost partition = { λ p. p.pass.part };

    ghost count = { λ p. length p.memory.now.opening };

    ghost opening = { shared_opening };

    ghost loan = { λ _. 0 };

    ghost history = { λ p. p.pass.history };

    ghost room = { λ p. p.pass.room };

    fn part(&self) -> PartId {
        self.pass.part()
    }

    fn perform(&mut self, op: Op) -> u64 {
        self.pass.perform(self.memory, op)
    }

    fn miss(&mut self, op: Op) {
        self.pass.miss(op);
    }
}

impl SharedMemory {
    /// A shared copy of these words, and a pass for each partition, in ascending order, each with
    /// an empty history.
    pub fn open(alloc: Global, words: &Words) -> Result<(SharedMemory, Vec<Pass>), AllocError>
        requires { 0 < length words.now }
        ensures opening { IfOk result (λ r. r.0.opening ≡ words.now) }
        ensures passes { IfOk result (λ r. AllPasses r.0 r.1.items) }
        ensures fresh { IfOk result (λ r. AreFresh r.0.table r.1.items) }
    {
        let (table, seat) = Table::of_words(alloc, words.flat(), words)?;
        let passes = passes_of(alloc, &table.shared, seat, words.count())?;
        Ok((SharedMemory { table }, passes))
    }

    /// Puts the words into `into`. One legal history leads from the opening to these words, and its
    /// part of each partition is that pass's history.
    pub fn close(self, passes: Vec<Pass>, into: &mut Words)
        requires passes { AllPasses self passes.items }
        requires count { length into.old ≡ length self.opening }
        ensures merged { Merges self.opening passes.items into.new }
        ensures count { length into.new ≡ length into.old }
    {
        let SharedMemory { table } = self;
        let seat = joined(&table.shared, passes);
        let closed = table.close_with(seat);
        put_words(&closed, into);
        closed.free();
    }

    /// The port of a pass, which goes on with the pass's history.
    pub fn port(&self, pass: Pass) -> Port<'_>
        requires { pass.table ≡ self.now.table }
        ensures pass { result.pass ≡ pass }
        ensures memory { result.memory.now ≡ self.now }
    {
        Port { memory: self, pass }
    }
}

// A pass for each partition, cut from the seat that stands for all.
fn passes_of(
    alloc: Global,
    shared: &Shared<u8, View, Words, HistoryRule>,
    mut seat: Seat<u8, View>,
    count: u8,
) -> Result<Vec<Pass>, AllocError>
    requires table { seat.table_id ≡ shared.now.table_id }
    requires words { 0 < shared.now.table_id.words }
    requires seat { seat.me ≡ (fresh_parts 0 count, []) }
    requires count { count ≤ PARTS }
    ensures count { IfOk result (λ v. length v.items ≡ count) }
    ensures each { IfOk result (λ v. AreFresh shared.now.table_id v.items) }
{
    let mut passes = Vec::new(alloc);
    for number in 0..count {
        let own = shared.split_seat::<MakeSeat>(&mut seat);
        passes.push(Pass::new(PartId::known(number), own))?;
    }
    Ok(passes)
}

// One seat for the partitions of all passes.
fn joined(shared: &Shared<u8, View, Words, HistoryRule>, mut passes: Vec<Pass>) -> Seat<u8, View>
    requires some { 0 < length passes.items }
    requires words { 0 < shared.now.table_id.words }
    requires table { AreOfTable shared.now.table_id passes.items }
    ensures table { result.table_id ≡ shared.now.table_id }
    ensures seat { result.me ≡ (joined_view passes.items, []) }
    ensures loads { OnlyLoadsFailIn passes.items }
{
    let Some(last) = passes.pop() else {
        unreachable!()
    };
    let mut seat = last.into_seat();
    while let Some(pass) = passes.pop() {
        shared.join_seat::<JoinSeat>(&mut seat, pass.into_seat());
    }
    seat
}

// Puts the words of a closed table where they are to be.
fn put_words(closed: &Closed<u8, Global>, into: &mut Words)
    requires full { IsFull closed.now.words }
    requires count { slots_len closed.now.words ≡ PART_WORDS * length into.old }
    requires items { length (slots_items closed.now.words) ≡ PART_WORDS * length into.old }
    ensures words { into.new ≡ rows PART_WORDS (length into.old) (slots_items closed.now.words) }
    ensures count { length into.new ≡ length into.old }
{
    let _count = into.count();
    let all = into.flat().len();
    for place in 0..all {
        let owner = PartId::known((place / PART_WORDS as usize) as u8);
        into.set(
            owner,
            (place % PART_WORDS as usize) as u32,
            closed.word(place),
        );
    }
}
