//! xpsim: simulates partitions that send messages to each other over shared words.
#![tactic(auto)]

use std::process::ExitCode;
use std::thread::Threads;
use std::vec::Vec;
use std::{env, io};
use xp_tool::status::{Status, fault_text};
use xp_tool::tool::tool;
use xp_tool::words::Word;
use xp_tool::{OpenGate, StdSink, StdSource};

fn arguments(rt: &HostRuntime) -> io::Result<Vec<Word>> {
    let mut words = Vec::new(rt.alloc());
    for word in env::args(rt)?.skip(1) {
        words.push(word)?;
    }
    Ok(words)
}

// Why the words of the command line can't be had: there is no memory for them, or one isn't UTF-8,
// and so is no command.
fn refusal(error: &io::Error) -> Status {
    match error.kind() {
        io::ErrorKind::OutOfMemory => Status::NoMemory,
        _ => Status::Usage,
    }
}

fn run<R: Threads + Sync>(rt: &HostRuntime, threads: &R) -> Status {
    let words = match arguments(rt) {
        Ok(words) => words,
        Err(error) => return refusal(&error),
    };
    let mut source = StdSource::new(rt.stdin());
    let mut sink = StdSink::new(rt.stdout());
    tool(
        threads,
        rt.alloc(),
        &words,
        &mut source,
        &mut sink,
        &OpenGate,
    )
    .status
}

fn main(rt: HostRuntime) -> ExitCode {
    let status = run(&rt, &rt);
    if status != Status::Ok
        && let Ok(line) = fault_text(rt.alloc(), &status)
    {
        // Where the line can't be written, the status is all that is told.
        let _ = eprintln!(rt; "{line}");
    }
    ExitCode::from(status.code())
}
