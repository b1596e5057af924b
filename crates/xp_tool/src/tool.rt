// The top call: a command's words, its input and its output, and threads for a run.
ghost use Rattle.std.specs.Prelude.{◌≡◌, ◌≢◌, ℕ, ◌<◌, ◌≤◌, ◌-◌, ◌^◌, ◌↔◌, ◌⊎◌, List, length, None, IfOk, IfErr, IsSome, IsSomeAnd};
ghost use Rattle.xp_outside.specs.Causes.{Rose};
ghost use Rattle.xp_tool.specs.Command.{LeavesWorld, needs_threads};
ghost use Rattle.xp_tool.specs.Words.{command_of};
ghost use Rattle.xp_tool.specs.Plain.{ReadsNothing, Headline, Cut, WritesFront, IsBad, IsTooLong, IsGood, IsWrong, IsPastLimit};
ghost use Rattle.xp_tool.specs.Made.{Outcome};

use crate::command::ToolCommand;
use crate::ending::{Done, failed, write_out};
use crate::plain::perform;
use crate::product::make_run;
use crate::status::{InputFault, Status};
use crate::words::{Word, command};
use std::alloc::Global;
use std::thread::Threads;
use xp_outside::sink::Sink;
use xp_outside::source::Source;
use xp_threads::gate::Gate;

/// Does the command that some words are; where it runs threads, each of them passes the gate before
/// each turn. Nothing is written before the whole text is made.
pub fn tool<R: Threads + Sync, S: Source, K: Sink, G: Gate + Sync>(
    rt: &R,
    alloc: Global,
    words: &[Word],
    source: &mut S,
    sink: &mut K,
    gate: &G,
) -> Done
    requires reads { S.faults source.old < 2 ^ 64 - 1 }
    requires writes { K.faults sink.old < 2 ^ 64 - 1 }

    // Each status has its cause.
    ensures usage { result.status ≡ Status.Usage → command_of words.now ≡ None }
    ensures read { result.status ≡ Status.ReadFault
        → Rose (S.faults source.old) (S.faults source.new) }
    ensures write { result.status ≡ Status.WriteFault
        → Rose (K.faults sink.old) (K.faults sink.new) }
    ensures bad { (fault : InputFault) → result.status ≡ Status.BadInput fault
        → IsSomeAnd (command_of words.now)
        (λ command. IsBad command (S.left source.old) (S.left source.new) fault) }
    ensures too_long { (limit : ℕ) → result.status ≡ Status.TooLong limit
        → IsSomeAnd (command_of words.now)
        (λ command. IsTooLong command (S.left source.old) (S.left source.new) limit) }

    // At Ok the input was read to its end, what the command does was done with it, and the bytes
    // written are exactly its text.
    ensures ok { result.status ≡ Status.Ok
        → IsSomeAnd (command_of words.now)
        (λ command. Headline command (S.left source.old) (S.left source.new)
        (K.held sink.old) (K.held sink.new) result.end) }

    // With a fault of the sink a front of the text was written, for want of memory nothing or such
    // a front. With every other refusal the sink is as before. Where the words aren't a command, or
    // are one that reads nothing, the source is as before too.
    ensures cut { result.status ≡ Status.WriteFault
        → IsSomeAnd (command_of words.now)
        (λ command. Cut command (S.left source.old) (S.left source.new)
        (K.held sink.old) (K.held sink.new) result.end) }
    ensures memory { result.status ≡ Status.NoMemory
        → (sink.new ≡ sink.old) ⊎ IsSomeAnd (command_of words.now)
        (λ command. WritesFront command (S.left source.old) (S.left source.new)
        (K.held sink.old) (K.held sink.new)) }
    ensures kept { result.status ≢ Status.Ok → result.status ≢ Status.WriteFault
        → result.status ≢ Status.NoMemory → sink.new ≡ sink.old }
    ensures unread { result.status ≡ Status.Usage → source.new ≡ source.old }
    ensures reads_nothing { IsSomeAnd (command_of words.now) ReadsNothing → source.new ≡ source.old }

    // A count of faults rises only with the status that tells it.
    ensures count_of_reads { result.status ≢ Status.ReadFault
        → S.faults source.new ≡ S.faults source.old }
    ensures count_of_writes { result.status ≢ Status.WriteFault
        → K.faults sink.new ≡ K.faults sink.old }

    // There is an end exactly where something was done that leaves a world.
    ensures end { IsSome result.end ↔ (IsSomeAnd (command_of words.now) LeavesWorld
        × ((result.status ≡ Status.Ok) ⊎ (result.status ≡ Status.WriteFault))) }

    // Words that are no command are refused. So is input that is too long or wrong, and good input
    // is done, but for faults. Want of memory may stand in place of each.
    ensures no_command { command_of words.now ≡ None
        → (result.status ≡ Status.Usage) ⊎ (result.status ≡ Status.NoMemory) }
    ensures complete { IsSomeAnd (command_of words.now)
        (λ command. IsGood command (S.left source.old))
        → S.faults source.new ≡ S.faults source.old → K.faults sink.new ≡ K.faults sink.old
        → (result.status ≡ Status.Ok) ⊎ (result.status ≡ Status.NoMemory) }
    ensures refuses { IsSomeAnd (command_of words.now)
        (λ command. IsWrong command (S.left source.old))
        → S.faults source.new ≡ S.faults source.old
        → ((fault : InputFault) × (result.status ≡ Status.BadInput fault))
        ⊎ (result.status ≡ Status.NoMemory) }
    ensures refuses_long { IsSomeAnd (command_of words.now)
        (λ command. IsPastLimit command (S.left source.old))
        → S.faults source.new ≡ S.faults source.old
        → ((limit : ℕ) × (result.status ≡ Status.TooLong limit))
        ⊎ (result.status ≡ Status.NoMemory) }
{
    perform_any(rt, alloc, words, source, sink, gate)
}

// Does the command, and says of each status when it comes.
fn perform_any<R: Threads + Sync, S: Source, K: Sink, G: Gate + Sync>(
    rt: &R,
    alloc: Global,
    words: &[Word],
    source: &mut S,
    sink: &mut K,
    gate: &G,
) -> Done
    requires reads { S.faults source.old < 2 ^ 64 - 1 }
    requires writes { K.faults sink.old < 2 ^ 64 - 1 }
    ensures outcome { Outcome S.left S.faults K.held K.faults (command_of words.now)
        source.old source.new sink.old sink.new result.end result.status }
    ensures unread { IsSomeAnd (command_of words.now) ReadsNothing → source.new ≡ source.old }
{
    let command = match command(alloc, words) {
        Ok(command) => command,
        Err(_) => return failed(Status::NoMemory),
    };
    if !has_threads(command) {
        return perform(alloc, words, source, sink);
    }
    match make_run(rt, alloc, source, gate) {
        Ok(made) => write_out(sink, made),
        Err(status) => failed(status),
    }
}

// Whether there is a command, and it needs threads.
fn has_threads(command: Option<ToolCommand>) -> bool
    ensures { result ≡ needs_threads command }
{
    match command {
        Some(command) => !command.is_plain(),
        None => false,
    }
}
