// What each worker calls before a turn.
use xp_base::ids::PartId;

/// A gate that each worker passes before each of its turns. It may hold the worker for a while, so
/// that a test can force an order; no contract depends on what it does.
pub trait Gate {
    /// Is called with the worker's partition, and with the number of turns that its node has made.
    fn pass(&self, part: PartId, turn: u64);
}

/// A gate that holds nobody.
pub struct OpenGate;

impl Gate for OpenGate {
    fn pass(&self, part: PartId, turn: u64) {
        let _ = (part, turn);
    }
}
