// What a partition shows of its turns: its log and its steps.
ghost use Rattle.std.specs.Prelude.{◌≡◌, ◌<◌, ◌≤◌, ◌+◌, [], OnOk, Some, None, IsSome};
ghost use Rattle.xp_node.specs.Journal.{with_entry, with_answer, with_step};

use std::alloc::{AllocError, Global};
use std::marker::Model;
use xp_base::step::Step;
use xp_script::log::{Entry, LogAnswer};

// For how many entries and steps room is made at once.
const ROOM: usize = 8;

/// The commands that were begun, with their answers, and the steps that were made. Contracts see
/// them, and for how many more of each there is room.
#[derive(Drop)]
pub struct Journal {
    log: Vec<Entry>,
    trace: Vec<Step>,
}

impl Model for Journal {
    ghost use Rattle.xp_node.specs.Journal.{Journal};
    ghost use Rattle.xp_node.specs.JournalInside.{view_of};

    ghost Value = { Journal };

    ghost view = { view_of };
}

impl Journal {
    /// Nothing was begun, and no step was made.
    pub fn new(alloc: Global) -> Journal
        ensures entries { result.entries ≡ [] }
        ensures steps { result.steps ≡ [] }
    {
        Journal {
            log: Vec::new(alloc),
            trace: Vec::new(alloc),
        }
    }

    /// Makes room for one more entry and one more step.
    pub fn reserve(&mut self) -> Result<(), AllocError>
        ensures entry { OnOk result (0 < self.new.entry_room) }
        ensures step { OnOk result (0 < self.new.step_room) }
        ensures entries { self.new.entries ≡ self.old.entries }
        ensures steps { self.new.steps ≡ self.old.steps }
    {
        self.log.reserve(ROOM)?;
        self.trace.reserve(ROOM)
    }

    /// The commands that were begun, with their answers.
    pub fn log(&self) -> &[Entry]
        ensures { result.now ≡ self.now.entries }
    {
        &self.log
    }

    /// The steps that were made.
    pub fn trace(&self) -> &[Step]
        ensures { result.now ≡ self.now.steps }
    {
        &self.trace
    }

    /// A turn was made: which command it began, which step it made, and what it answered.
    pub fn write(&mut self, begun: Option<Entry>, made: Option<Step>, answer: Option<LogAnswer>)
        requires entry { 0 < self.old.entry_room }
        requires step { 0 < self.old.step_room }
        ensures entries { self.new.entries
            ≡ with_answer answer (with_entry begun self.old.entries) }
        ensures steps { self.new.steps ≡ with_step made self.old.steps }
    {
        if let Some(entry) = begun {
            let _ = self.log.push(entry);
        }
        if let Some(step) = made {
            let _ = self.trace.push(step);
        }
        if let Some(answer) = answer {
            answer_last(&mut self.log, answer);
        }
    }
}

// The last command that was begun is answered.
fn answer_last(log: &mut Vec<Entry>, answer: LogAnswer)
    ensures { log.new.items ≡ with_answer (Some answer) log.old.items }
{
    let count = log.len();
    if count > 0 {
        let entry = &mut log[count - 1];
        entry.answer = Some(answer);
    }
}
