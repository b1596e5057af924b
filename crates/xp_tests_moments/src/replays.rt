// Replays of scenarios that differ in a few places.
use crate::reports::has_line;
use std::alloc::{AllocError, Global};
use std::process::Abort;
use std::test::Fail;
use xp_base::step::Answer;
use xp_tool::plain::{Done, plain};
use xp_tool::status::Status;
use xp_tool::words::Word;
use xp_tool::{WholeSink, WholeSource};
use xp_world::world::World;

/// A scenario of two partitions: settings, behind which lines of its own stand, scripts, and
/// the lines of the schedule.
#[derive(Clone, Copy)]
pub struct Frame {
    pub settings: &'static str,
    pub scripts: &'static str,
    pub schedule: &'static str,
}

/// What a report says: lines that it has, and texts that it has not.
#[derive(Clone, Copy)]
pub struct Told<'a> {
    pub has: &'a [&'static str],
    pub lacks: &'a [&'static str],
}

/// The text of a scenario with lines of its own.
fn scenario(alloc: Global, frame: Frame, own: &str) -> Result<Vec<u8>, AllocError> {
    let mut text = String::new(alloc);
    let Frame {
        settings,
        scripts,
        schedule,
    } = frame;
    write!(
        text,
        "xpsim 1\npartitions 2\n{settings}{own}\n{scripts}schedule\n{schedule}"
    )?;
    Ok(text.into_bytes())
}

fn replay_word(alloc: Global) -> Result<Vec<Word>, AllocError> {
    let mut words = Vec::new(alloc);
    words.push(String::from_str(alloc, "replay")?)?;
    Ok(words)
}

fn expect_text(rt: &impl Abort, report: &str, own: &str, told: Told) {
    for line in told.has {
        assert!(rt; has_line(report, line), "{own}: no {line}");
    }
    for text in told.lacks {
        assert!(rt; !report.contains(*text), "{own}: {text}");
    }
}

/// A replay that was made: its report, and the world that it leaves.
#[derive(Drop)]
pub struct Replayed {
    pub report: String,
    pub end: Option<World>,
}

impl Replayed {
    /// How many loads failed.
    pub fn failures(&self) -> u64 {
        match &self.end {
            Some(world) => failures(world),
            None => 0,
        }
    }
}

/// How many steps of all partitions failed.
fn failures(world: &World) -> u64 {
    let mut count: u64 = 0;
    for node in &world.nodes {
        for step in node.trace() {
            if step.answer == Answer::Failed {
                count = count.saturating_add(1);
            }
        }
    }
    count
}

/// Replays the scenario of a text, which has to be one that runs.
pub fn replay(rt: &impl Abort, alloc: Global, text: Vec<u8>) -> Result<Replayed, Fail> {
    let words = replay_word(alloc)?;
    let mut source = WholeSource::new(text);
    let mut sink = WholeSink::new(alloc);
    let Done { status, end } = plain(alloc, &words, &mut source, &mut sink);
    assert!(rt; status == Status::Ok);
    let report = match str::from_utf8(sink.bytes()) {
        Ok(report) => String::from_str(alloc, report)?,
        Err(_) => String::new(alloc),
    };
    Ok(Replayed { report, end })
}

/// The text of two partitions: settings, the scripts of each, and the lines of the schedule.
pub fn pair(
    alloc: Global,
    settings: &str,
    scripts: [&str; 2],
    schedule: &str,
) -> Result<Vec<u8>, AllocError> {
    let mut text = String::new(alloc);
    let [zero, one] = scripts;
    write!(
        text,
        "xpsim 1\npartitions 2\n{settings}script 0\n{zero}script 1\n{one}schedule\n{schedule}"
    )?;
    Ok(text.into_bytes())
}

/// Expects that a report is this one.
pub fn expect_exact(rt: &impl Abort, made: &Replayed, wanted: &str, name: &str) {
    assert!(rt; made.report.as_str() == wanted, "{name}: {}", made.report);
}

/// Replays a scenario with lines of its own.
pub fn replay_with(
    rt: &impl Abort,
    alloc: Global,
    frame: Frame,
    own: &str,
) -> Result<Replayed, Fail> {
    replay(rt, alloc, scenario(alloc, frame, own)?)
}

/// Replays a scenario with lines of its own, and expects that its report says this.
pub fn expect_report(
    rt: &impl Abort,
    alloc: Global,
    frame: Frame,
    own: &str,
    told: Told,
) -> Result<(), Fail> {
    let made = replay_with(rt, alloc, frame, own)?;
    expect_text(rt, &made.report, own, told);
    Ok(())
}

/// Whether a report has a line of this beginning, with a count that stood still.
fn has_stood_still(alloc: Global, report: &str, begin: &str) -> Result<bool, AllocError> {
    for count in 1u64..65 {
        let mut line = String::new(alloc);
        write!(line, "{begin} {count} {count} 2")?;
        if has_line(report, &line) {
            return Ok(true);
        }
    }
    Ok(false)
}

/// Replays a scenario with lines of its own, and expects that its report says this, and has a line
/// of each beginning, which tells of a heartbeat that stood still: of the same count twice, from 1
/// to 64, in the mask of partition 1 alone.
pub fn expect_stood_still(
    rt: &impl Abort,
    alloc: Global,
    frame: Frame,
    own: &str,
    told: Told,
    begins: &[&str],
) -> Result<(), Fail> {
    let made = replay_with(rt, alloc, frame, own)?;
    expect_text(rt, &made.report, own, told);
    for begin in begins {
        let found = has_stood_still(alloc, &made.report, begin)?;
        assert!(rt; found, "{own}: {begin}");
    }
    Ok(())
}

/// The line of a moment of a partition, as `stop` or `restart`.
pub fn moment(alloc: Global, verb: &str, part: u8, turn: u64) -> Result<String, AllocError> {
    let mut line = String::new(alloc);
    write!(line, "{verb} {part} turn {turn}")?;
    Ok(line)
}

/// The line of a load that fails: of the copies of a kind, one with its number from 1.
pub fn failure(
    alloc: Global,
    part: u8,
    kind: &str,
    copy: u64,
    load: u64,
) -> Result<String, AllocError> {
    let mut line = String::new(alloc);
    write!(line, "fault {part} {kind} {copy} at {load}")?;
    Ok(line)
}
