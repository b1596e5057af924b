// The top call: faults of the source and of the sink, words that are no command, input that is
// refused, and the lines of the statuses.
use std::alloc::{AllocError, Global};
use std::process::Abort;
use std::test::Fail;
use xp_forms::fault::LineCause;
use xp_page::{PageCause, PageFault};
use xp_scenario::fault::What;
use xp_tool::command::{DUMP_LIMIT, SCENARIO_LIMIT};
use xp_tool::plain::plain;
use xp_tool::status::{InputFault, Status, fault_text};
use xp_tool::words::Word;
use xp_tool::{MemorySink, MemorySource, WholeSink, WholeSource};

const ONE_MESSAGE: &[u8] = b"xpsim 1
partitions 2
warm 0 1 0 entries 4 limit 112
script 0
send 1 0 6869
script 1
take 0 0
release 0 0 0
schedule
rounds 20000
";

const ONE_MESSAGE_REPORT: &[u8] = b"report 1
partition 0 done boots 1
  1 1 send ok 0
  link 1 0 epoch 0 own 1.1 partner 1.1 accepted 1 taken 0 acked 0 delivered 0 ended 0
partition 1 done boots 1
  1 1 take ok 0 2:6869
  1 2 release ok 1
  link 0 0 epoch 0 own 1.1 partner 1.1 accepted 0 taken 1 acked 1 delivered 0 ended 0
";

/// The status of a text whose line of this number isn't right.
fn bad_line(line: u64, column: u64, cause: LineCause) -> Status {
    Status::BadInput(InputFault::BadLine {
        line,
        column,
        cause,
    })
}

/// The words of a command line.
fn words(alloc: Global, list: &[&str]) -> Result<Vec<Word>, AllocError> {
    let mut words = Vec::new(alloc);
    for word in list {
        words.push(String::from_str(alloc, word)?)?;
    }
    Ok(words)
}

/// Replays one message, whose write of a number fails, into pieces of 16 bytes.
fn expect_cut(rt: &impl Abort, alloc: Global, words: &[Word]) -> Result<(), Fail> {
    let mut source = WholeSource::new(ONE_MESSAGE.to_vec(alloc)?);
    let mut sink = MemorySink::new(alloc, 16, vec![in alloc; 2u64]?);
    let done = plain(alloc, words, &mut source, &mut sink);
    assert!(rt; done.status == Status::WriteFault && done.end.is_some());
    assert_eq!(rt; sink.bytes(), b"report 1\npartiti".as_slice());
    Ok(())
}

#[test]
fn a_write_fails(rt: HostRuntime) -> Result<(), Fail> {
    let words = words(rt.alloc(), &["replay"])?;
    expect_cut(&rt, rt.alloc(), &words)
}

/// Replays one message, whose first read fails.
fn expect_unread(rt: &impl Abort, alloc: Global, words: &[Word]) -> Result<(), Fail> {
    let first = vec![in alloc; 1u64]?;
    let mut source = MemorySource::new(ONE_MESSAGE.to_vec(alloc)?, 4096, first);
    let mut sink = WholeSink::new(alloc);
    let done = plain(alloc, words, &mut source, &mut sink);
    assert!(rt; done.status == Status::ReadFault && done.end.is_none());
    assert!(rt; sink.bytes().is_empty());
    Ok(())
}

#[test]
fn a_read_fails(rt: HostRuntime) -> Result<(), Fail> {
    let words = words(rt.alloc(), &["replay"])?;
    expect_unread(&rt, rt.alloc(), &words)
}

/// Replays one message in pieces of at most some length, in and out.
fn expect_report(
    rt: &impl Abort,
    alloc: Global,
    words: &[Word],
    largest: usize,
) -> Result<(), Fail> {
    assert!(rt; largest >= 1);
    let text = ONE_MESSAGE.to_vec(alloc)?;
    let mut source = MemorySource::new(text, largest, Vec::new(alloc));
    let mut sink = MemorySink::new(alloc, largest, Vec::new(alloc));
    let done = plain(alloc, words, &mut source, &mut sink);
    assert!(rt; done.status == Status::Ok && done.end.is_some());
    assert_eq!(rt; sink.bytes(), ONE_MESSAGE_REPORT);
    Ok(())
}

#[test]
fn pieces_make_no_difference(rt: HostRuntime) -> Result<(), Fail> {
    let words = words(rt.alloc(), &["replay"])?;
    for largest in [1usize, 7, 4096] {
        expect_report(&rt, rt.alloc(), &words, largest)?;
    }
    Ok(())
}

/// The status of a call with an input, where nothing is written.
fn silent_status(alloc: Global, words: &[Word], text: Vec<u8>) -> Option<Status> {
    let mut source = WholeSource::new(text);
    let mut sink = WholeSink::new(alloc);
    let done = plain(alloc, words, &mut source, &mut sink);
    if sink.bytes().is_empty() {
        Some(done.status)
    } else {
        None
    }
}

/// Words that are no command: other words, flags, commands that aren't there yet, and more words
/// than one.
const NO_COMMANDS: [&[&str]; 33] = [
    &[],
    &[""],
    &["repla"],
    &["replays"],
    &["Replay"],
    &["replay "],
    &["-"],
    &["--"],
    &["-h"],
    &["--help"],
    &["--replay"],
    &["help"],
    &["run"],
    &["dumps"],
    &["decode "],
    &["gen"],
    &["big"],
    &["gen", ""],
    &["gen", "x"],
    &["gen", "1x"],
    &["gen", "+1"],
    &["gen", "-1"],
    &["gen", "1 "],
    &["gen", "1234567"],
    &["gen", "0000000"],
    &["gen", "1", "2"],
    &["gen", "--", "1"],
    &["big", "1e3"],
    &["1", "gen"],
    &["replay", "1"],
    &["replay", "replay"],
    &["replay", ""],
    &["dump", "decode"],
];

#[test]
fn no_other_words(rt: HostRuntime) -> Result<(), Fail> {
    for list in NO_COMMANDS {
        let words = words(rt.alloc(), list)?;
        let status = silent_status(rt.alloc(), &words, ONE_MESSAGE.to_vec(rt.alloc())?);
        assert!(rt; status == Some(Status::Usage), "{list:?}");
    }
    Ok(())
}

/// What `gen 0` begins with.
const GENERATED: &[u8] = b"xpsim 1
partitions 2
budget 2000000
check 0
script 0
register 1 0 entries 4 limit 112
connected 1 0
send 1 0 - notify
take 1 0
release 1 0 0
send 1 0 7*01 notify
";

/// The texts that `gen` writes of a number as it is spelled; nothing is read.
fn expect_generated(
    rt: &impl Abort,
    alloc: Global,
    number: &str,
    front: &[u8],
) -> Result<(), Fail> {
    let words = words(alloc, &["gen", number])?;
    let mut source = MemorySource::new(Vec::new(alloc), 1, vec![in alloc; 1u64]?);
    let mut sink = WholeSink::new(alloc);
    let done = plain(alloc, &words, &mut source, &mut sink);
    assert!(rt; done.status == Status::Ok && done.end.is_none());
    assert!(rt; sink.bytes().starts_with(front));
    Ok(())
}

#[test]
fn scenarios_of_numbers(rt: HostRuntime) -> Result<(), Fail> {
    for (number, front) in [
        ("0", GENERATED),
        ("000000", GENERATED),
        ("000006", b"xpsim 1\npartitions 8\n"),
        ("999999", b"xpsim 1\npartitions 2\n"),
    ] {
        expect_generated(&rt, rt.alloc(), number, front)?;
    }
    Ok(())
}

/// What the summary of a number says; nothing is read.
fn expect_summary(
    rt: &impl Abort,
    alloc: Global,
    number: &str,
    summary: &[u8],
) -> Result<(), Fail> {
    let words = words(alloc, &["big", number])?;
    let mut source = MemorySource::new(Vec::new(alloc), 1, vec![in alloc; 1u64]?);
    let mut sink = WholeSink::new(alloc);
    let done = plain(alloc, &words, &mut source, &mut sink);
    assert!(rt; done.status == Status::Ok && done.end.is_some());
    assert_eq!(rt; sink.bytes(), summary);
    Ok(())
}

/// Each partition sends 100 messages, or 110, to its next one, and each of them is taken, released
/// and told as delivered.
#[test]
fn summaries_of_numbers(rt: HostRuntime) -> Result<(), Fail> {
    for (number, summary) in [
        (
            "0",
            b"big 0 partitions 2 accepted 200 taken 200 acked 200 delivered 200 done 2\n".as_slice(),
        ),
        (
            "000001",
            b"big 1 partitions 3 accepted 330 taken 330 acked 330 delivered 330 done 3\n",
        ),
    ] {
        expect_summary(&rt, rt.alloc(), number, summary)?;
    }
    Ok(())
}

/// Texts that spell no scenario, or one that the rules can't run yet.
fn expect_no_scenario(rt: &impl Abort, alloc: Global, words: &[Word]) -> Result<(), Fail> {
    let unbuilt = Status::BadInput(InputFault::Unbuilt);
    for (text, wanted) in [
        (b"".as_slice(), bad_line(1, 1, LineCause::Header)),
        (b"\x80\n", bad_line(1, 1, LineCause::Word)),
        (
            b"xpsim 1\npartitions 2\nfrobnicate 3\n",
            bad_line(3, 1, LineCause::Word),
        ),
        (b"xpsim 1\npartitions 2\npoke 0 0 16 1\n", unbuilt),
    ] {
        let status = silent_status(alloc, words, text.to_vec(alloc)?);
        assert!(rt; status == Some(wanted), "{text:?}");
    }
    Ok(())
}

#[test]
fn refuses_other_input(rt: HostRuntime) -> Result<(), Fail> {
    for name in ["replay", "dump"] {
        let words = words(rt.alloc(), &[name])?;
        expect_no_scenario(&rt, rt.alloc(), &words)?;
    }
    Ok(())
}

/// The status of a dump with this fault.
fn bad_page(offset: u64, cause: PageCause) -> Status {
    Status::BadInput(InputFault::Page(PageFault { offset, cause }))
}

/// Bytes that are no dump: other headers, and fronts of one.
#[test]
fn refuses_other_dumps(rt: HostRuntime) -> Result<(), Fail> {
    let words = words(rt.alloc(), &["decode"])?;
    for (bytes, wanted) in [
        (b"".as_slice(), bad_page(0, PageCause::Truncated)),
        (b"XPDUMP02\x02", bad_page(9, PageCause::Truncated)),
        (b"XPDUMP03", bad_page(0, PageCause::Signature)),
        (b"XPDUMP02\x41\0\0\0\0\0\0\0", bad_page(8, PageCause::Value)),
    ] {
        let status = silent_status(rt.alloc(), &words, bytes.to_vec(rt.alloc())?);
        assert!(rt; status == Some(wanted), "{bytes:?}");
    }
    Ok(())
}

/// A dump has at most as many bytes as its limit.
#[test]
fn the_limit_of_dumps_is_exact(rt: HostRuntime) -> Result<(), Fail> {
    let words = words(rt.alloc(), &["decode"])?;
    let no_header = bad_page(0, PageCause::Signature);
    let too_long = Status::TooLong { limit: 33_554_432 };
    for (count, wanted) in [(DUMP_LIMIT, no_header), (DUMP_LIMIT + 1, too_long)] {
        let zeros = vec![in rt.alloc(); 0u8; count]?;
        let status = silent_status(rt.alloc(), &words, zeros);
        assert!(rt; status == Some(wanted), "{count} bytes");
    }
    Ok(())
}

/// Two partitions with a channel, and no turn.
const OPENING: &[u8] = b"xpsim 1
partitions 2
warm 0 1 0 entries 4 limit 112
";

const OPENING_LISTING: &[u8] = b"listing 1
partition 0 version 3.1 stamp 1 partitions 3
  vars beat 1 mask 2 offline 0 activation 0 engaged 2 deactivate 0
  record 1 second session 1.1 echo 1.1
  args 1 0 entries 4 limit 112 queue 2640 reason 0
partition 1 version 3.1 stamp 1 partitions 3
  vars beat 1 mask 1 offline 0 activation 0 engaged 1 deactivate 0
  record 0 second session 1.1 echo 1.1
  args 0 0 entries 4 limit 112 queue 2128 reason 0
";

/// How many bytes a dump of two partitions has.
const TWO_PARTITIONS: u64 = 582_928;

/// The dump of the opening, with some bytes behind it.
fn dumped_opening(rt: &impl Abort, alloc: Global, behind: &[u8]) -> Result<Vec<u8>, Fail> {
    let words = words(alloc, &["dump"])?;
    let mut source = WholeSource::new(OPENING.to_vec(alloc)?);
    let mut sink = WholeSink::new(alloc);
    let done = plain(alloc, &words, &mut source, &mut sink);
    assert!(rt; done.status == Status::Ok && done.end.is_some());
    assert!(rt; sink.bytes().len() as u64 == TWO_PARTITIONS);
    let mut bytes = sink.bytes().to_vec(alloc)?;
    bytes.extend_from_slice(behind)?;
    Ok(bytes)
}

/// Lists the dump of the opening, which comes in pieces of at most some length.
fn expect_listing(
    rt: &impl Abort,
    alloc: Global,
    words: &[Word],
    largest: usize,
) -> Result<(), Fail> {
    assert!(rt; largest >= 1);
    let bytes = dumped_opening(rt, alloc, b"")?;
    let mut source = MemorySource::new(bytes, largest, Vec::new(alloc));
    let mut sink = WholeSink::new(alloc);
    let done = plain(alloc, words, &mut source, &mut sink);
    assert!(rt; done.status == Status::Ok && done.end.is_none());
    assert_eq!(rt; sink.bytes(), OPENING_LISTING);
    Ok(())
}

/// A dump is listed, in whichever pieces it comes, and leaves no world.
#[test]
fn a_dump_is_listed(rt: HostRuntime) -> Result<(), Fail> {
    let words = words(rt.alloc(), &["decode"])?;
    for largest in [1usize, 7, 4096] {
        expect_listing(&rt, rt.alloc(), &words, largest)?;
    }
    Ok(())
}

#[test]
fn a_byte_behind_a_dump(rt: HostRuntime) -> Result<(), Fail> {
    let words = words(rt.alloc(), &["decode"])?;
    let status = silent_status(rt.alloc(), &words, dumped_opening(&rt, rt.alloc(), b"x")?);
    let wanted = Status::BadInput(InputFault::Trailing {
        offset: TWO_PARTITIONS,
    });
    assert!(rt; status == Some(wanted));
    Ok(())
}

/// As many bytes as the limit are read, and one more is too many.
#[test]
fn the_limit_is_exact(rt: HostRuntime) -> Result<(), Fail> {
    let words = words(rt.alloc(), &["replay"])?;
    let no_header = bad_line(1_048_577, 1, LineCause::Header);
    let too_long = Status::TooLong { limit: 1_048_576 };
    for (count, wanted) in [(SCENARIO_LIMIT, no_header), (SCENARIO_LIMIT + 1, too_long)] {
        let lines = vec![in rt.alloc(); b'\n'; count]?;
        let status = silent_status(rt.alloc(), &words, lines);
        assert!(rt; status == Some(wanted), "{count} bytes");
    }
    Ok(())
}

/// The statuses, their numbers, and their lines on standard error.
const STATUSES: [(Status, u8, &str); 11] = [
    (Status::Ok, 0, ""),
    (
        Status::Usage,
        2,
        "xpsim: usage: replay, run, dump, decode, gen N, big N",
    ),
    (Status::ReadFault, 3, "xpsim: read failed"),
    (Status::WriteFault, 4, "xpsim: write failed"),
    (Status::BadInput(InputFault::Unbuilt), 5, "xpsim: not built"),
    (
        Status::BadInput(InputFault::BadLine {
            line: 4,
            column: 10,
            cause: LineCause::Payload,
        }),
        5,
        "xpsim: line 4 column 10: payload",
    ),
    (
        Status::BadInput(InputFault::TooMany {
            what: What::Commands,
            limit: 100_000,
        }),
        5,
        "xpsim: too many commands, limit 100000",
    ),
    (
        Status::BadInput(InputFault::Page(PageFault {
            offset: 9,
            cause: PageCause::Truncated,
        })),
        5,
        "xpsim: offset 9: truncated",
    ),
    (
        Status::BadInput(InputFault::Trailing { offset: 582_928 }),
        5,
        "xpsim: offset 582928: trailing",
    ),
    (
        Status::TooLong { limit: 1_048_576 },
        6,
        "xpsim: input longer than 1048576 bytes",
    ),
    (Status::NoMemory, 7, "xpsim: no memory"),
];

#[test]
fn lines_of_the_statuses(rt: HostRuntime) -> Result<(), Fail> {
    for (status, code, line) in &STATUSES {
        assert_eq!(rt; status.code(), *code);
        let text = fault_text(rt.alloc(), status)?;
        assert_eq!(rt; text.as_str(), *line);
    }
    Ok(())
}
