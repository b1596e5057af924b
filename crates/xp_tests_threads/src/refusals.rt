// What `run` refuses, and what needs no threads.
use std::alloc::{AllocError, Global};
use std::test::Fail;
use std::thread::Threads;
use xp_forms::fault::LineCause;
use xp_tool::plain::plain;
use xp_tool::status::{InputFault, Status};
use xp_tool::tool::tool;
use xp_tool::words::Word;
use xp_tool::{OpenGate, WholeSink, WholeSource};

/// How a command on a text ends.
fn status_of<R: Threads + Sync>(
    rt: &R,
    alloc: Global,
    word: &str,
    text: &[u8],
) -> Result<Status, AllocError> {
    let words: Vec<Word> = vec![in alloc; String::from_str(alloc, word)?]?;
    let mut source = WholeSource::new(text.to_vec(alloc)?);
    let mut sink = WholeSink::new(alloc);
    Ok(tool(rt, alloc, &words, &mut source, &mut sink, &OpenGate).status)
}

/// The status of a text whose line of this number isn't right.
fn bad_line(line: u64, column: u64, cause: LineCause) -> Status {
    Status::BadInput(InputFault::BadLine {
        line,
        column,
        cause,
    })
}

/// The first line that pokes a word is refused at its word, also where the rules can't run the rest;
/// any other fault of the text comes before it.
#[test]
fn pokes_are_refused(rt: HostRuntime) -> Result<(), Fail> {
    let poked = bad_line(4, 3, LineCause::PokeInRun);
    for (text, wanted) in [
        (
            b"xpsim 1\npartitions 2\nwarm 0 1 0 entries 4 limit 112\n  poke 0 0 16 1\npoke 1 0 16 1\n".as_slice(),
            poked,
        ),
        (
            b"xpsim 1\npartitions 2\ncheck 4096\n\t\rpoke 0 0 16 1\n",
            poked,
        ),
        (
            b"xpsim 1\npartitions 2\n\n  poke 0 0 16 1\nscript 2\n",
            bad_line(5, 8, LineCause::Partition),
        ),
    ] {
        let status = status_of(&rt, rt.alloc(), "run", text)?;
        assert!(rt; status == wanted, "{text:?}");
    }
    Ok(())
}

/// What can't be run isn't run in threads either.
#[test]
fn what_is_not_built_is_refused(rt: HostRuntime) -> Result<(), Fail> {
    let text = b"xpsim 1\npartitions 2\nscript 0\nframes 1\n";
    let status = status_of(&rt, rt.alloc(), "run", text)?;
    assert!(rt; status == Status::BadInput(InputFault::Unbuilt));
    Ok(())
}

/// Without threads there is no run; every other command is the same with them and without.
#[test]
fn only_run_needs_threads(rt: HostRuntime) -> Result<(), Fail> {
    let text =
        b"xpsim 1\npartitions 2\nwarm 0 1 0 entries 4 limit 112\nschedule\nrounds 3\n".as_slice();
    for (word, wanted) in [
        ("run", Status::Usage),
        ("replay", Status::Ok),
        ("dump", Status::Ok),
    ] {
        let alloc = rt.alloc();
        let words: Vec<Word> = vec![in alloc; String::from_str(alloc, word)?]?;
        let mut source = WholeSource::new(text.to_vec(alloc)?);
        let mut sink = WholeSink::new(alloc);
        let done = plain(alloc, &words, &mut source, &mut sink);
        assert!(rt; done.status == wanted);
        assert!(rt; status_of(&rt, alloc, word, text)? == Status::Ok);
    }
    assert!(rt; status_of(&rt, rt.alloc(), "runs", text)? == Status::Usage);
    Ok(())
}
