// The top call without threads: a command's words, its input and its output.
ghost use Rattle.std.specs.Prelude.{◌≡◌, ◌≢◌, ℕ, ◌<◌, ◌≤◌, ◌-◌, ◌^◌, ◌↔◌, ◌⊎◌, List, length, true, None, IfOk, IfErr, IfSome, IsSome, IsSomeAnd};
ghost use Rattle.xp_outside.specs.Causes.{Rose};
ghost use Rattle.xp_tool.specs.Command.{is_plain, LeavesWorld};
ghost use Rattle.xp_tool.specs.Plain.{plain_command_of, ReadsNothing, Headline, Cut, WritesFront, IsBad, IsTooLong, IsGood, IsWrong, IsPastLimit};
ghost use Rattle.xp_tool.specs.Made.{Outcome};

use crate::command::ToolCommand;
pub use crate::ending::Done;
use crate::ending::{failed, write_out};
use crate::product::make;
use crate::status::{InputFault, Status};
use crate::words::{Word, command};
use std::alloc::{AllocError, Global};
use xp_outside::sink::Sink;
use xp_outside::source::Source;

/// Does the command that some words are, where it needs no threads. Nothing is written before the
/// whole text is made.
pub fn plain<S: Source, K: Sink>(
    alloc: Global,
    words: &[Word],
    source: &mut S,
    sink: &mut K,
) -> Done
    requires reads { S.faults source.old < 2 ^ 64 - 1 }
    requires writes { K.faults sink.old < 2 ^ 64 - 1 }

    // Each status has its cause.
    ensures usage { result.status ≡ Status.Usage → plain_command_of words.now ≡ None }
    ensures read { result.status ≡ Status.ReadFault
        → Rose (S.faults source.old) (S.faults source.new) }
    ensures write { result.status ≡ Status.WriteFault
        → Rose (K.faults sink.old) (K.faults sink.new) }
    ensures bad { (fault : InputFault) → result.status ≡ Status.BadInput fault
        → IsSomeAnd (plain_command_of words.now)
        (λ command. IsBad command (S.left source.old) (S.left source.new) fault) }
    ensures too_long { (limit : ℕ) → result.status ≡ Status.TooLong limit
        → IsSomeAnd (plain_command_of words.now)
        (λ command. IsTooLong command (S.left source.old) (S.left source.new) limit) }

    // At Ok the input was read to its end, what the command does was done with it, and the bytes
    // written are exactly its text.
    ensures ok { result.status ≡ Status.Ok
        → IsSomeAnd (plain_command_of words.now)
        (λ command. Headline command (S.left source.old) (S.left source.new)
        (K.held sink.old) (K.held sink.new) result.end) }

    // With a fault of the sink a front of the text was written, for want of memory nothing or such
    // a front. With every other refusal the sink is as before. Where the words aren't a command, or
    // are one that reads nothing, the source is as before too.
    ensures cut { result.status ≡ Status.WriteFault
        → IsSomeAnd (plain_command_of words.now)
        (λ command. Cut command (S.left source.old) (S.left source.new)
        (K.held sink.old) (K.held sink.new) result.end) }
    ensures memory { result.status ≡ Status.NoMemory
        → (sink.new ≡ sink.old) ⊎ IsSomeAnd (plain_command_of words.now)
        (λ command. WritesFront command (S.left source.old) (S.left source.new)
        (K.held sink.old) (K.held sink.new)) }
    ensures kept { result.status ≢ Status.Ok → result.status ≢ Status.WriteFault
        → result.status ≢ Status.NoMemory → sink.new ≡ sink.old }
    ensures unread { result.status ≡ Status.Usage → source.new ≡ source.old }
    ensures reads_nothing { IsSomeAnd (plain_command_of words.now) ReadsNothing → source.new ≡ source.old }

    // A count of faults rises only with the status that tells it.
    ensures count_of_reads { result.status ≢ Status.ReadFault
        → S.faults source.new ≡ S.faults source.old }
    ensures count_of_writes { result.status ≢ Status.WriteFault
        → K.faults sink.new ≡ K.faults sink.old }

    // There is an end exactly where something was done that leaves a world.
    ensures end { IsSome result.end ↔ (IsSomeAnd (plain_command_of words.now) LeavesWorld
        × ((result.status ≡ Status.Ok) ⊎ (result.status ≡ Status.WriteFault))) }

    // Words that are no command are refused. So is input that is too long or wrong, and good input
    // is done, but for faults. Want of memory may stand in place of each.
    ensures no_command { plain_command_of words.now ≡ None
        → (result.status ≡ Status.Usage) ⊎ (result.status ≡ Status.NoMemory) }
    ensures complete { IsSomeAnd (plain_command_of words.now)
        (λ command. IsGood command (S.left source.old))
        → S.faults source.new ≡ S.faults source.old → K.faults sink.new ≡ K.faults sink.old
        → (result.status ≡ Status.Ok) ⊎ (result.status ≡ Status.NoMemory) }
    ensures refuses { IsSomeAnd (plain_command_of words.now)
        (λ command. IsWrong command (S.left source.old))
        → S.faults source.new ≡ S.faults source.old
        → ((fault : InputFault) × (result.status ≡ Status.BadInput fault))
        ⊎ (result.status ≡ Status.NoMemory) }
    ensures refuses_long { IsSomeAnd (plain_command_of words.now)
        (λ command. IsPastLimit command (S.left source.old))
        → S.faults source.new ≡ S.faults source.old
        → ((limit : ℕ) × (result.status ≡ Status.TooLong limit))
        ⊎ (result.status ≡ Status.NoMemory) }
{
    perform(alloc, words, source, sink)
}

/// Does the command where it needs no threads, and says of each status when it comes.
pub fn perform<S: Source, K: Sink>(
    alloc: Global,
    words: &[Word],
    source: &mut S,
    sink: &mut K,
) -> Done
    requires reads { S.faults source.old < 2 ^ 64 - 1 }
    requires writes { K.faults sink.old < 2 ^ 64 - 1 }
    ensures outcome { Outcome S.left S.faults K.held K.faults (plain_command_of words.now)
        source.old source.new sink.old sink.new result.end result.status }
    ensures unread { IsSomeAnd (plain_command_of words.now) ReadsNothing
        → source.new ≡ source.old }
{
    let command = match plain_command(alloc, words) {
        Ok(Some(command)) => command,
        Ok(None) => return failed(Status::Usage),
        Err(_) => return failed(Status::NoMemory),
    };
    match make(alloc, command, source) {
        Ok(made) => write_out(sink, made),
        Err(status) => failed(status),
    }
}

// The command that some words are, where it needs no threads.
fn plain_command(alloc: Global, words: &[Word]) -> Result<Option<ToolCommand>, AllocError>
    ensures is { IfOk result (λ command. command ≡ plain_command_of words.now) }
    ensures plain { IfOk result
        (λ command. IfSome command (λ command. is_plain command ≡ true)) }
{
    match command(alloc, words)? {
        Some(command) if command.is_plain() => Ok(Some(command)),
        _ => Ok(None),
    }
}
