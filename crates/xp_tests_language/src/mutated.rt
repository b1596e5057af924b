// Texts that are changed here and there: each is read, or has its first fault at a place of the
// text; and what is read is written and read back.
ghost use Rattle.std.specs.Prelude.{◌<◌};
ghost use Rattle.xp_script.specs.Lawful.{IsLawful};

use std::alloc::{AllocError, Global};
use std::process::Abort;
use std::test::Fail;
use xp_print::text::print;
use xp_scenario::fault::ScenarioFault;
use xp_scenario::text::parse;
use xp_script::scenario::Scenario;

/// How many texts are changed, once and again: twice as many are tried.
const TEXTS: u32 = 2_000;

const SEEDS: [&[u8]; 4] = [
    b"xpsim 1\npartitions 2\nwarm 0 1 0 entries 4 limit 112\nscript 0\nsend 1 0 6869\nscript 1\ntake 0 0\nrelease 0 0 0\nschedule\nrounds 20\n",
    b"xpsim 1 # all settings\npartitions 3\nbudget 5\ncheck 4096\nminor 0 2\nminor 1 2\nwarm 0 1 2 entries 1 limit 1008\nfault 0 get 1 at 2\nstop 1 put 3\nrestart 2 turn 7\npoke 0 1 225 99\n",
    b"xpsim 1\npartitions 3\nscript 0\nregister 1 0 entries 4 limit 112\nconnected 1 0\nsend 1 0 3*61+62 nowait notify\ndrain 1 0\nunregister 1 0\nclosed 1 0\nscript 0\nidle 9\nleave\n",
    b"xpsim 1\npartitions 64\nscript 63\nnet 6*ff+85*33\nframes 1\ndeactivate 0\nactivate 0\noffline\nonline\ntake 5 3 nowait\nschedule\nturns 63 4\n",
];

/// What is put into a text.
const PIECES: [&[u8]; 24] = [
    b"",
    b" ",
    b"\n",
    b"#",
    b"\r",
    b"-",
    b"+",
    b"*",
    b"0",
    b"1",
    b"7",
    b"113",
    b"4096",
    b"18446744073709551616",
    b"\xff",
    b"\nschedule\n",
    b"\nscript 0\n",
    b"\ncheck 0\n",
    b"\nwarm 0 1 0 entries 4 limit 8\n",
    b"\nrestart 0 put 1\n",
    b" nowait",
    b" at 0",
    b"4096*61",
    b"\nsend 1 0 ",
];

/// Numbers, each made of the one before it.
#[derive(Drop)]
struct Numbers {
    last: u64,
}

impl Numbers {
    /// The next number below one above 0.
    fn below(&mut self, above: usize) -> usize
        requires { 0 < above }
        ensures { result < above }
    {
        self.last = self
            .last
            .wrapping_mul(6_364_136_223_846_793_005)
            .wrapping_add(1_442_695_040_888_963_407);
        (self.last >> 33) as usize % above
    }
}

/// The text with some of its bytes, eight at most, replaced by a piece.
fn changed(alloc: Global, text: &[u8], numbers: &mut Numbers) -> Result<Vec<u8>, AllocError> {
    let from = numbers.below(text.len() + 1);
    let to = text.len().min(from + numbers.below(9));
    let piece = PIECES[numbers.below(PIECES.len())];
    let mut changed = text[..from].to_vec(alloc)?;
    changed.extend_from_slice(piece)?;
    changed.extend_from_slice(&text[to..])?;
    Ok(changed)
}

/// Whether a line and a column lie in the text, or one behind it.
fn is_place(text: &[u8], line: u64, column: u64) -> bool {
    let mut number: u64 = 1;
    for bytes in text.split(|byte| *byte == b'\n') {
        if number == line {
            return 1 <= column && column <= bytes.len() as u64 + 1;
        }
        number = number.saturating_add(1);
    }
    false
}

/// Whether a scenario's text spells a scenario with the same text.
fn is_read_back(alloc: Global, scenario: &Scenario) -> Result<bool, AllocError>
    requires { IsLawful scenario.now }
{
    let text = print(alloc, scenario)?;
    match parse(alloc, &text) {
        Ok(again) => Ok(print(alloc, &again)? == text),
        Err(_) => Ok(false),
    }
}

/// What is wrong with how a text is read, if something is.
fn is_judged(alloc: Global, text: &[u8]) -> Result<bool, AllocError> {
    match parse(alloc, text) {
        Ok(scenario) => is_read_back(alloc, &scenario),
        Err(ScenarioFault::BadLine { line, column, .. }) => Ok(is_place(text, line, column)),
        Err(ScenarioFault::TooMany { .. }) => Ok(true),
        Err(ScenarioFault::Memory) => Ok(false),
    }
}

#[test]
fn texts_that_are_changed(rt: HostRuntime) -> Result<(), Fail> {
    let mut numbers = Numbers { last: 1 };
    for _ in 0..TEXTS {
        let seed = SEEDS[numbers.below(SEEDS.len())];
        let once = changed(rt.alloc(), seed, &mut numbers)?;
        let twice = changed(rt.alloc(), &once, &mut numbers)?;
        assert!(rt; is_judged(rt.alloc(), &once)?, "{once:?}");
        assert!(rt; is_judged(rt.alloc(), &twice)?, "{twice:?}");
    }
    Ok(())
}
