// How a call ended: its status, the number that the process ends with, and its line on standard
// error.
ghost use Rattle.std.specs.Prelude.{◌≡◌, IfOk, string_bytes};
ghost use Rattle.xp_tool.specs.Status.{code_of, input_line_of, line_of};

use std::alloc::{AllocError, Global};
use xp_forms::fault::LineCause;
use xp_page::PageFault;
use xp_scenario::fault::What;

/// Why an input was refused.
#[derive(Clone, Copy, PartialEq, Eq)]
pub enum InputFault {
    /// A line isn't right. Lines and columns count from 1; the column is that of the word's first
    /// byte, or one past the last byte where a word is missing.
    BadLine {
        line: u64,
        column: u64,
        cause: LineCause,
    },
    /// Every line is right, but there is more than this limit of something.
    TooMany {
        what: What,
        limit: u64,
    },
    /// The input spells a scenario that the rules of today can't run.
    Unbuilt,
    /// A word of a dump isn't allowed, at the offset of its first byte; or bytes are missing, at
    /// the offset of the end.
    Page(PageFault),
    /// There are bytes behind a whole dump: the offset of the first.
    Trailing {
        offset: u64,
    },
}

/// How a call ended.
#[derive(Clone, Copy, PartialEq, Eq)]
pub enum Status {
    /// The input was read to its end and all text was written.
    Ok,
    /// The words aren't a command.
    Usage,
    /// A read failed.
    ReadFault,
    /// A write failed.
    WriteFault,
    /// The input was read to its end and refused.
    BadInput(InputFault),
    /// The input has more bytes than the command's limit.
    TooLong { limit: u64 },
    /// There was no memory.
    NoMemory,
}

impl Status {
    /// The number that the process ends with.
    pub fn code(&self) -> u8
        ensures { result ≡ code_of self.now }
    {
        match self {
            Status::Ok => 0,
            Status::Usage => 2,
            Status::ReadFault => 3,
            Status::WriteFault => 4,
            Status::BadInput(_) => 5,
            Status::TooLong { .. } => 6,
            Status::NoMemory => 7,
        }
    }
}

// The line of an input that was refused.
#[tactic(auto, unfolding(crate::specs::Status::input_line_of))]
fn input_text(alloc: Global, fault: &InputFault) -> Result<String, AllocError>
    ensures { IfOk result (λ line. string_bytes line ≡ input_line_of fault.now) }
{
    match fault {
        InputFault::BadLine {
            line,
            column,
            cause,
        } => format!(in alloc; "xpsim: line {line} column {column}: {cause}"),
        InputFault::TooMany { what, limit } => {
            format!(in alloc; "xpsim: too many {what}, limit {limit}")
        }
        InputFault::Unbuilt => String::from_str(alloc, "xpsim: not built"),
        InputFault::Page(PageFault { offset, cause }) => {
            format!(in alloc; "xpsim: offset {offset}: {cause}")
        }
        InputFault::Trailing { offset } => { format!(in alloc; "xpsim: offset {offset}: trailing") }
    }
}

/// The line on standard error, without its end; none for `Ok`.
pub fn fault_text(alloc: Global, status: &Status) -> Result<String, AllocError>
    ensures { IfOk result (λ line. string_bytes line ≡ line_of status.now) }
{
    let line = match status {
        Status::Ok => "",
        Status::Usage => "xpsim: usage: replay, run, dump, decode, gen N, big N",
        Status::ReadFault => "xpsim: read failed",
        Status::WriteFault => "xpsim: write failed",
        Status::BadInput(fault) => return input_text(alloc, fault),
        Status::TooLong { limit } => {
            return format!(in alloc; "xpsim: input longer than {limit} bytes");
        }
        Status::NoMemory => "xpsim: no memory",
    };
    String::from_str(alloc, line)
}
