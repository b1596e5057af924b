// What a command reads: a text whole, a dump piece by piece.
ghost use Rattle.std.specs.Prelude.{◌≡◌, ℕ, ◌<◌, ◌-◌, ◌^◌, List, Some, IfOk, IfErr, OnOk};
ghost use Rattle.xp_dump.specs.Grammar.{IsDump};
ghost use Rattle.xp_tool.specs.Input.{IsUnread, dump_refusal_of, read_refusal_of};
ghost use Rattle.xp_tool.specs.Made.{MakesNothing};
ghost use Rattle.xp_tool.specs.Plain.{ReadsWithin};

use crate::command::{DUMP_LIMIT, SCENARIO_LIMIT, ToolCommand};
use crate::status::{InputFault, Status};
use std::alloc::{AllocError, Global};
use std::marker::Model;
use xp_base::words::Words;
use xp_dump::{DumpFault, Reader};
use xp_outside::source::{ReadError, Source, feed_all, read_all};
use xp_outside::taker::Taker;

// Takes an input as a dump. Behind its first fault it takes all and keeps nothing. Contracts
// see how far the reader is.
#[derive(Drop)]
struct DumpInput {
    reader: Reader,
}

impl Model for DumpInput {
    ghost use Rattle.xp_dump.specs.Progress.{Progress};

    ghost Value = { Progress };

    ghost view = { λ input. input.reader };
}

impl Taker for DumpInput {
    ghost use Rattle.xp_tool.specs.Input.{Took, took_nothing, took_joined};

    ghost takes = { Took };

    ghost nothing = { took_nothing };

    ghost joined = { took_joined };

    fn take(&mut self, piece: &[u8]) -> Result<(), AllocError> {
        match self.reader.feed(piece) {
            Err(DumpFault::Memory) => Err(AllocError),
            // The reader tells another fault again at the end of the input.
            Ok(()) | Err(_) => Ok(()),
        }
    }
}

/// The text of a scenario: all bytes of a source, where they are no more than a scenario's limit.
pub fn read_text<S: Source>(alloc: Global, source: &mut S) -> Result<Vec<u8>, Status>
    requires { S.faults source.old < 2 ^ 64 - 1 }
    ensures read { IfOk result (λ text.
        ReadsWithin (Some SCENARIO_LIMIT) (S.left source.old) (S.left source.new) text.items) }
    ensures kept { OnOk result (S.faults source.new ≡ S.faults source.old) }
    ensures unread { IfErr result (λ status.
        IsUnread SCENARIO_LIMIT (S.left source.old) (S.left source.new)
        (S.faults source.old) (S.faults source.new) status) }
{
    match read_all(alloc, source, SCENARIO_LIMIT) {
        Ok(text) => Ok(text),
        Err(error) => Err(read_refusal(error, SCENARIO_LIMIT)),
    }
}

/// The words that a source tells as a dump, where its bytes are no more than a dump's limit. They
/// are read to the end of the source also where the first of them are wrong, and no byte is kept.
pub fn read_dump<S: Source>(alloc: Global, source: &mut S) -> Result<Words, Status>
    requires { S.faults source.old < 2 ^ 64 - 1 }
    ensures told { IfOk result (λ words. (input : List ℕ)
        × ReadsWithin (Some DUMP_LIMIT) (S.left source.old) (S.left source.new) input
        × IsDump input words) }
    ensures kept { OnOk result (S.faults source.new ≡ S.faults source.old) }
    ensures unmade { IfErr result (λ status.
        MakesNothing ToolCommand.Decode (S.left source.old) (S.left source.new)
        (S.faults source.old) (S.faults source.new) status) }
{
    let mut input = match Reader::new(alloc) {
        Ok(reader) => DumpInput { reader },
        Err(_) => return Err(Status::NoMemory),
    };
    if let Err(error) = feed_all(source, &mut input, DUMP_LIMIT) {
        return Err(read_refusal(error, DUMP_LIMIT));
    }
    let DumpInput { reader } = input;
    match reader.finish() {
        Ok(words) => Ok(words),
        Err(fault) => Err(dump_refusal(fault)),
    }
}

// The status of an input that wasn't read to its end; the limit is in bytes.
fn read_refusal(error: ReadError, limit: usize) -> Status
    ensures { result ≡ read_refusal_of error limit }
{
    match error {
        ReadError::Failed => Status::ReadFault,
        ReadError::TooLong => Status::TooLong {
            limit: limit as u64,
        },
        ReadError::Memory => Status::NoMemory,
    }
}

// The status of bytes that are no dump.
fn dump_refusal(fault: DumpFault) -> Status
    ensures { result ≡ dump_refusal_of fault }
{
    match fault {
        DumpFault::Page(fault) => Status::BadInput(InputFault::Page(fault)),
        DumpFault::Trailing { offset } => Status::BadInput(InputFault::Trailing { offset }),
        DumpFault::Memory => Status::NoMemory,
    }
}
