// Dumps by the top call: of worked scenarios, and one of the older layout, each listed or refused
// in pieces of several lengths.
use std::alloc::{AllocError, Global};
use std::process::Abort;
use std::test::Fail;
use xp_tool::plain::plain;
use xp_tool::status::{Status, fault_text};
use xp_tool::{MemorySource, WholeSink};

/// What a command makes of some bytes that come in pieces of at most so many.
fn made(
    rt: &impl Abort,
    alloc: Global,
    name: &str,
    bytes: &[u8],
    largest: usize,
) -> Result<(Status, Vec<u8>), AllocError> {
    assert!(rt; largest >= 1);
    let mut words = Vec::new(alloc);
    words.push(String::from_str(alloc, name)?)?;
    let mut source = MemorySource::new(bytes.to_vec(alloc)?, largest, Vec::new(alloc));
    let mut sink = WholeSink::new(alloc);
    let done = plain(alloc, &words, &mut source, &mut sink);
    let written = sink.bytes().to_vec(alloc)?;
    Ok((done.status, written))
}

/// The dump of what a scenario's replay leaves.
fn dump_of(rt: &impl Abort, alloc: Global, scenario: &[u8]) -> Result<Vec<u8>, AllocError> {
    let (status, dump) = made(rt, alloc, "dump", scenario, 4096)?;
    assert!(rt; status == Status::Ok);
    Ok(dump)
}

/// How many bytes a piece has at most.
const PIECES: [usize; 3] = [1, 7, 4096];

/// The dump is listed so, in pieces of each length.
fn expect_listing(rt: &impl Abort, alloc: Global, dump: &[u8], listing: &[u8]) -> Result<(), Fail> {
    for largest in PIECES {
        let (status, written) = made(rt, alloc, "decode", dump, largest)?;
        assert!(rt;
            status == Status::Ok && written.as_slice() == listing,
            "by {largest} bytes"
        );
    }
    Ok(())
}

/// The dump is refused with this line, in pieces of each length.
fn expect_refusal(rt: &impl Abort, alloc: Global, dump: &[u8], line: &str) -> Result<(), Fail> {
    for largest in PIECES {
        let (status, written) = made(rt, alloc, "decode", dump, largest)?;
        assert!(rt;
            status.code() == 5 && written.is_empty(),
            "by {largest} bytes"
        );
        let found = fault_text(alloc, &status)?;
        assert_eq!(rt; found.as_str(), line, "by {largest} bytes");
    }
    Ok(())
}

/// Partition 1 has minor version 2; there are no turns.
const VERSIONS: &[u8] = b"xpsim 1
partitions 2
minor 1 2
warm 0 1 0 entries 4 limit 112
";

const VERSIONS_LISTING: &[u8] = b"listing 1
partition 0 version 3.1 stamp 1 partitions 3
  vars beat 1 mask 2 offline 0 activation 0 engaged 2 deactivate 0
  record 1 second session 1.1 echo 1.1
  args 1 0 entries 4 limit 112 queue 2640 reason 0
partition 1 version 3.2 stamp 1 partitions 3
  vars beat 1 mask 1 offline 0 activation 0 engaged 1 deactivate 0
  record 0 second session 1.1 echo 1.1
  args 0 0 entries 4 limit 112 queue 2128 reason 0
";

#[test]
fn versions_are_listed(rt: HostRuntime) -> Result<(), Fail> {
    let dump = dump_of(&rt, rt.alloc(), VERSIONS)?;
    expect_listing(&rt, rt.alloc(), &dump, VERSIONS_LISTING)
}

/// Partition 0 closes its channel, which partition 1 answers, and begins to open it anew while
/// partition 1 takes no turn.
const CLOSED: &[u8] = b"xpsim 1
partitions 2
warm 0 1 0 entries 2 limit 16
script 0
unregister 1 0
closed 1 0
register 1 0 entries 2 limit 16
idle 2048
unregister 1 0
closed 1 0
script 1
closed 0 0
closed 0 0
schedule
turns 0 8192
turns 1 8192
turns 0 16384
";

/// The lines of a text that have a word as their first.
fn lines_with(alloc: Global, text: &[u8], word: &[u8]) -> Result<Vec<u8>, AllocError> {
    let mut found = Vec::new(alloc);
    for line in text.split(|byte| *byte == b'\n') {
        if line.starts_with(word) {
            found.extend_from_slice(line)?;
            found.push(b'\n')?;
        }
    }
    Ok(found)
}

#[test]
fn flags_are_listed(rt: HostRuntime) -> Result<(), Fail> {
    let dump = dump_of(&rt, rt.alloc(), CLOSED)?;
    for largest in PIECES {
        let (_, written) = made(&rt, rt.alloc(), "decode", &dump, largest)?;
        let flags = lines_with(rt.alloc(), &written, b"  flags")?;
        let wanted = b"  flags 0 0 closerequest closereply openrequest\n".as_slice();
        assert!(rt; flags.as_slice() == wanted, "by {largest} bytes");
    }
    Ok(())
}

/// Another owner in the dump of partition 0, and a byte behind the dump.
#[test]
fn another_owner_is_refused(rt: HostRuntime) -> Result<(), Fail> {
    let mut dump = dump_of(&rt, rt.alloc(), VERSIONS)?;
    dump.push(b'x')?;
    expect_refusal(&rt, rt.alloc(), &dump, "xpsim: offset 582928: trailing")?;
    if 32 < dump.len() {
        dump[32] = 7;
    }
    expect_refusal(&rt, rt.alloc(), &dump, "xpsim: offset 32: value")
}

/// The words of a dump of the older layout that aren't 0, by their numbers.
const OLDER_WORDS: [(u16, u64); 39] = [
    (0, 3_544_421_199_813_824_600),
    (1, 2),
    (2, 3_550_322_227_096_539_224),
    (3, 49),
    (5, 8),
    (6, 1),
    (7, 3),
    (10, 1),
    (11, 2),
    (14, 2),
    (16, 16),
    (26, 4_921_945_407_791_255_640),
    (27, 4_294_967_297),
    (28, 4_294_967_297),
    (29, 104),
    (30, 224),
    (31, 81),
    (32, 4),
    (106, 262_256),
    (107, 792),
    (5914, 3_550_322_227_096_539_224),
    (5915, 49),
    (5916, 1),
    (5917, 8),
    (5918, 1),
    (5919, 3),
    (5922, 1),
    (5923, 1),
    (5926, 1),
    (5928, 16),
    (5930, 4_921_945_407_791_255_640),
    (5931, 4_294_967_297),
    (5932, 4_294_967_297),
    (5933, 88),
    (5934, 216),
    (5935, 80),
    (5936, 4),
    (6002, 262_256),
    (6003, 280),
];

/// Their listing, with the places of today.
const OLDER_LISTING: &[u8] = b"listing 1
partition 0 version 3.1 stamp 1 partitions 3
  vars beat 1 mask 2 offline 0 activation 0 engaged 2 deactivate 0
  record 1 second session 1.1 echo 1.1
  args 1 0 entries 4 limit 112 queue 2640 reason 0
partition 1 version 3.1 stamp 1 partitions 3
  vars beat 1 mask 1 offline 0 activation 0 engaged 1 deactivate 0
  record 0 second session 1.1 echo 1.1
  args 0 0 entries 4 limit 112 queue 2128 reason 0
";

#[test]
fn older_dumps_are_listed(rt: HostRuntime) -> Result<(), Fail> {
    let mut dump = Vec::new(rt.alloc());
    for (number, word) in OLDER_WORDS {
        dump.resize(8 * usize::from(number), 0)?;
        dump.extend_from_slice(&word.to_le_bytes())?;
    }
    dump.resize(94_608, 0)?;
    expect_listing(&rt, rt.alloc(), &dump, OLDER_LISTING)
}
