// Queues of each size, each of which is filled three times: the report of all its messages.
use crate::replayed::replayed;
use std::alloc::{AllocError, Global};
use std::process::Abort;
use std::test::Fail;
use xp_tool::status::Status;

/// Each number of entries with the limits between which an entry has as many lines: the entries,
/// the least limit and the greatest one.
const SIZES: [(u64, u64, u64); 20] = [
    (1, 0, 112),
    (1, 113, 240),
    (1, 241, 368),
    (1, 369, 496),
    (1, 497, 624),
    (1, 625, 752),
    (1, 753, 880),
    (1, 881, 1008),
    (2, 0, 112),
    (2, 113, 240),
    (2, 241, 368),
    (2, 369, 496),
    (3, 0, 112),
    (3, 113, 240),
    (4, 0, 112),
    (4, 113, 240),
    (5, 0, 112),
    (6, 0, 112),
    (7, 0, 112),
    (8, 0, 112),
];

/// The payload of a message as a script spells it: the byte of its number, as often as the limit
/// lets.
fn write_payload(text: &mut String, limit: u64, number: u64) -> Result<(), AllocError> {
    if limit == 0 {
        write!(text, "-")
    } else {
        write!(text, "{limit}*{number:02x}")
    }
}

/// One partition sends so many messages, and the other one takes and releases each of them.
fn scenario(alloc: Global, entries: u64, limit: u64, count: u64) -> Result<String, AllocError> {
    let mut text = String::new(alloc);
    writeln!(text, "xpsim 1\npartitions 2\nminor 0 2\nminor 1 2")?;
    writeln!(text, "warm 0 1 0 entries {entries} limit {limit}\nscript 0")?;
    for number in 0..count {
        write!(text, "send 1 0 ")?;
        write_payload(&mut text, limit, number)?;
        writeln!(text)?;
    }
    writeln!(text, "script 1")?;
    for number in 0..count {
        writeln!(text, "take 0 0\nrelease 0 0 {number}")?;
    }
    writeln!(text, "schedule\nrounds 20000")?;
    Ok(text)
}

/// The payload of a message as a report prints it: of more than 32 bytes the first 8 and the last
/// 8.
fn write_taken(text: &mut String, limit: u64, number: u64) -> Result<(), AllocError> {
    write!(text, "{limit}:")?;
    let printed = if limit > 32 { 16 } else { limit };
    for at in 0..printed {
        if limit > 32 && at == 8 {
            write!(text, "..")?;
        }
        write!(text, "{number:02x}")?;
    }
    writeln!(text)
}

fn report(alloc: Global, limit: u64, count: u64) -> Result<String, AllocError> {
    let mut text = String::new(alloc);
    writeln!(text, "report 1\npartition 0 done boots 1")?;
    for number in 0..count {
        let line = number.saturating_add(1);
        writeln!(text, "  1 {line} send ok {number}")?;
    }
    write!(text, "  link 1 0 epoch 0 own 1.1 partner 1.1 ")?;
    writeln!(text, "accepted {count} taken 0 acked 0 delivered 0 ended 0")?;
    writeln!(text, "partition 1 done boots 1")?;
    for number in 0..count {
        let front = number.saturating_add(1);
        let line = number.saturating_mul(2).saturating_add(1);
        write!(text, "  1 {line} take ok {number} ")?;
        write_taken(&mut text, limit, number)?;
        let line = line.saturating_add(1);
        writeln!(text, "  1 {line} release ok {front}")?;
    }
    write!(text, "  link 0 0 epoch 0 own 1.1 partner 1.1 ")?;
    writeln!(
        text,
        "accepted 0 taken {count} acked {count} delivered 0 ended 0"
    )?;
    Ok(text)
}

/// Three times as many messages as entries go through a queue.
fn expect_wraps(rt: &impl Abort, alloc: Global, entries: u64, limit: u64) -> Result<(), Fail> {
    let count = entries.saturating_mul(3);
    let text = scenario(alloc, entries, limit, count)?;
    let (done, written) = replayed(alloc, text.as_bytes())?;
    assert!(rt; done.status == Status::Ok, "{entries} of {limit}");
    let wanted = report(alloc, limit, count)?;
    assert!(rt;
        written.as_slice() == wanted.as_bytes(),
        "{entries} of {limit}"
    );
    Ok(())
}

#[test]
fn queues_wrap_twice(rt: HostRuntime) -> Result<(), Fail> {
    for (entries, least, greatest) in SIZES {
        expect_wraps(&rt, rt.alloc(), entries, least)?;
        expect_wraps(&rt, rt.alloc(), entries, greatest)?;
    }
    Ok(())
}
