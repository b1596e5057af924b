// Replays over a source and a sink in memory.
use std::alloc::{AllocError, Global};
use std::process::Abort;
use std::test::Fail;
use xp_tool::plain::{Done, plain};
use xp_tool::status::fault_text;
use xp_tool::{WholeSink, WholeSource};

/// How the replay of a text ended, and what it wrote.
pub fn replayed(alloc: Global, text: &[u8]) -> Result<(Done, Vec<u8>), AllocError> {
    let mut words = Vec::new(alloc);
    words.push(String::from_str(alloc, "replay")?)?;
    let mut source = WholeSource::new(text.to_vec(alloc)?);
    let mut sink = WholeSink::new(alloc);
    let done = plain(alloc, &words, &mut source, &mut sink);
    Ok((done, sink.bytes().to_vec(alloc)?))
}

/// The replay of a text is refused with this line, and writes nothing.
pub fn expect_line(rt: &impl Abort, alloc: Global, text: &[u8], line: &str) -> Result<(), Fail> {
    let (done, written) = replayed(alloc, text)?;
    assert!(rt; done.end.is_none() && written.is_empty());
    assert_eq!(rt; done.status.code(), 5);
    let found = fault_text(alloc, &done.status)?;
    assert_eq!(rt; found.as_str(), line);
    Ok(())
}
