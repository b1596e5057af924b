// Why a line isn't right.
ghost use Rattle.std.specs.Prelude.{◌≡◌, Some};
ghost use Rattle.xp_forms.specs.Causes.{cause_text};
ghost use Rattle.xp_forms.specs.declared.fault.LineError.TheVariants.{Memory};

use std::alloc::{AllocError, AllocFailed};
use std::fmt;

/// What is wrong with a line. Where several hold of one word, the first of this list is told, but a
/// byte above 127 makes its word `Word`, whatever else holds of it.
#[derive(Clone, Copy, Debug, PartialEq, Eq)]
pub enum LineCause {
    /// The text doesn't begin with the line `xpsim 1`.
    Header,
    /// The word isn't one that may stand here.
    Word,
    /// The line ends too soon.
    Missing,
    /// Only the line's end may stand here.
    Extra,
    /// The word isn't a number, or one out of range, other than that of a partition or a channel.
    Number,
    /// The word spells no payload, or one of a length that may not be.
    Payload,
    /// The number isn't below the count of partitions, or it names a partition that may not stand
    /// here.
    Partition,
    /// The number isn't one of a channel, or it names a channel that may not stand here.
    Channel,
    /// What may be said once is said again; so too a 64th restart of one partition.
    Twice,
    /// The line has its place elsewhere, or a section is missing at the end of the text.
    Order,
    /// A poke line, where threads run the scenario.
    PokeInRun,
}

impl fmt::Display for LineCause {
    ghost output = { λ cause. Some (cause_text cause) };

    fn fmt<W: fmt::Write>(&self, f: &mut fmt::Formatter<W>) -> fmt::Result {
        f.write_str(match self {
            LineCause::Header => "header",
            LineCause::Word => "word",
            LineCause::Missing => "missing",
            LineCause::Extra => "extra",
            LineCause::Number => "number",
            LineCause::Payload => "payload",
            LineCause::Partition => "partition",
            LineCause::Channel => "channel",
            LineCause::Twice => "twice",
            LineCause::Order => "order",
            LineCause::PokeInRun => "poke-in-run",
        })
    }
}

/// What is wrong with a line, and the column of the word that shows it, from 1.
#[derive(Clone, Copy)]
pub struct WordFault {
    pub column: u64,
    pub cause: LineCause,
}

/// Why a line isn't read.
#[derive(Clone, Copy)]
pub enum LineError {
    Memory,
    Fault(WordFault),
}

impl From<AllocError> for LineError {
    ghost from_gives = { λ _ e. e ≡ Memory };

    fn from(_e: AllocError) -> LineError {
        LineError::Memory
    }
}

impl<T: Drop> From<AllocFailed<T>> for LineError {
    ghost from_gives = { λ _ e. e ≡ Memory };

    fn from(_e: AllocFailed<T>) -> LineError {
        LineError::Memory
    }
}
