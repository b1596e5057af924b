// How a partition ends.

/// How a partition ended.
#[derive(Clone, Copy)]
pub enum Ended {
    /// The script is answered to the end, and nothing is owed.
    Done,
    /// A planned stop.
    Stopped,
    /// The stamp of the partition, this word, couldn't be raised.
    Halted { word: u64 },
}
