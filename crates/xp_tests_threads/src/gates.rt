// Gates that force an order, and look a bounded number of times.
use std::sync::atomic::{AtomicU64, Ordering};
use std::thread;
use xp_base::ids::PartId;
use xp_tool::Gate;

/// Holds a partition's first turn until the other one has made so many turns.
#[derive(Drop)]
pub struct HeldUntil {
    held: u8,
    turns: u64,
    looks: u64,
    come: AtomicU64,
    missed: AtomicU64,
}

impl HeldUntil {
    /// A gate for partitions 0 and 1 that looks so many times at most.
    pub fn new(held: u8, turns: u64, looks: u64) -> HeldUntil {
        HeldUntil {
            held,
            turns,
            looks,
            come: AtomicU64::new(0),
            missed: AtomicU64::new(0),
        }
    }

    /// Whether the other partition came as far before the last look.
    pub fn came(&self) -> bool {
        self.come.load(Ordering::SeqCst) == 1 && self.missed.load(Ordering::SeqCst) == 0
    }
}

impl Gate for HeldUntil {
    fn pass(&self, part: PartId, turn: u64) {
        if part.get() != self.held {
            if turn >= self.turns {
                self.come.store(1, Ordering::SeqCst);
            }
        } else if turn == 0 && !has_come(&self.come, 1, self.looks) {
            self.missed.store(1, Ordering::SeqCst);
        }
    }
}

/// Lets partitions 0 and 1 make their turns in rounds, as far as both go.
#[derive(Drop)]
pub struct InRounds {
    last: [u64; 2],
    made: [AtomicU64; 2],
    looks: u64,
}

impl InRounds {
    /// A gate for partitions that will make so many turns each, which looks so many times at most.
    pub fn new(turns: [u64; 2], looks: u64) -> InRounds {
        InRounds {
            last: [turns[0].saturating_sub(1), turns[1].saturating_sub(1)],
            made: [AtomicU64::new(0), AtomicU64::new(0)],
            looks,
        }
    }
}

impl Gate for InRounds {
    fn pass(&self, part: PartId, turn: u64) {
        let (own, other, before) = match part.get() {
            0 => (0usize, 1usize, turn),
            _ => (1usize, 0usize, turn.saturating_add(1)),
        };
        self.made[own].store(turn, Ordering::SeqCst);
        let wanted = before.min(self.last[other]);
        let _ = has_come(&self.made[other], wanted, self.looks);
    }
}

// Looks until a number has come to another.
fn has_come(number: &AtomicU64, wanted: u64, looks: u64) -> bool {
    for _look in 0..looks {
        if number.load(Ordering::SeqCst) >= wanted {
            return true;
        }
        thread::yield_now();
    }
    false
}
