// Why bytes are no dump.
ghost use Rattle.std.specs.Prelude.{Some};
ghost use Rattle.xp_dump.specs.Texts.{fault_text};

use std::error::Error;
use std::fmt;
use xp_page::PageFault;

/// Why bytes are no dump: the first fault, in the order of the words.
#[derive(Clone, Copy, Debug)]
pub enum DumpFault {
    /// A word that isn't allowed, at the offset of its first byte; or bytes are missing, at the
    /// offset of the end.
    Page(PageFault),
    /// A byte behind a whole dump: the offset of the first.
    Trailing { offset: u64 },
    /// There was no memory for the words.
    Memory,
}

impl fmt::Display for DumpFault {
    ghost output = { λ fault. Some (fault_text fault) };

    fn fmt<W: fmt::Write>(&self, f: &mut fmt::Formatter<W>) -> fmt::Result {
        match self {
            DumpFault::Page(PageFault { offset, cause }) => write!(f, "offset {offset}: {cause}"),
            DumpFault::Trailing { offset } => write!(f, "offset {offset}: trailing"),
            DumpFault::Memory => f.write_str("no memory"),
        }
    }
}

impl Error for DumpFault {}
