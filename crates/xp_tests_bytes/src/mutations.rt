// Dumps and network messages that are changed at random: each ends with an answer, and the fault of
// a dump stands at a word that was changed.
ghost use Rattle.std.specs.Prelude.{◌≡◌, ◌<◌, ◌≤◌, length};

use crate::dumps::{NEWER, OLDER, Place, Sample, bytes_of, fault_of, put, word_of};
use crate::messages::{BUFFERED, EMBEDDED};
use std::alloc::{AllocError, Global};
use std::process::Abort;
use std::test::Fail;
use xp_page::PageCause;
use xpnet_frame::{decode, encode};

/// How many dumps are tried. `bench/dumps.sh` tries more, with the whole program.
const DUMPS: u32 = 2_000;

/// How many messages are tried. `bench/messages.sh` tries more.
const MESSAGES: u32 = 2_000;

/// One dump of so many is in the layout of 64 partitions, whose dumps are long.
const NEWER_EACH: u32 = 8;

/// Numbers that look random: the linear congruential generator of Knuth's MMIX.
#[derive(Drop)]
struct Numbers {
    last: u64,
}

impl Numbers {
    fn below(&mut self, end: u64) -> u64
        requires { 0 < end }
        ensures { result < end }
    {
        self.last = self
            .last
            .wrapping_mul(6_364_136_223_846_793_005)
            .wrapping_add(1_442_695_040_888_963_407);
        (self.last >> 32) % end
    }
}

/// The number of a word to be changed: one in four is one of the first words that aren't 0, and
/// most of the others stand before the queues. The count isn't changed, since what other words may
/// be depends on it.
fn number_to_change(sample: &Sample, numbers: &mut Numbers) -> usize {
    let any = match numbers.below(50) {
        0 => numbers.below(11_826),
        _ => numbers.below(700),
    };
    let listed = numbers.below(80);
    let number = match sample.words.get(listed as usize) {
        Some((number, _)) if listed < 20 => *number,
        _ => any as usize,
    };
    if number == 1 { 2 } else { number }
}

/// Another word, or by chance the same.
fn changed(word: u64, numbers: &mut Numbers) -> u64 {
    match numbers.below(5) {
        0 => 0,
        1 => word.wrapping_add(1),
        2 => word.wrapping_sub(1),
        3 => word ^ (1 << numbers.below(64)),
        _ => numbers.below(600_000),
    }
}

/// Whether an answer is right for a dump of which two words were changed, or only its front came.
fn is_right(answer: Option<Place>, first: usize, second: usize, cut: Option<usize>) -> bool {
    match answer {
        None => cut.is_none(),
        Some((offset, Some(PageCause::Truncated))) => cut == Some(offset as usize),
        Some((offset, Some(_))) => {
            offset == 8u64.wrapping_mul(first as u64) || offset == 8u64.wrapping_mul(second as u64)
        }
        Some((_, None)) => false,
    }
}

/// How many bytes are given: mostly a few behind the last word that was changed.
fn length_of(last: usize, numbers: &mut Numbers) -> usize {
    match numbers.below(64) {
        0 => usize::MAX,
        _ => last
            .saturating_mul(8)
            .saturating_add(numbers.below(32) as usize),
    }
}

/// Changes two words, looks at the answers, and puts them back.
fn is_mutation_answered(
    rt: &impl Abort,
    alloc: Global,
    sample: &Sample,
    bytes: &mut [u8],
    numbers: &mut Numbers,
) {
    let first = number_to_change(sample, numbers);
    let second = number_to_change(sample, numbers);
    let before = (word_of(bytes, first), word_of(bytes, second));
    put(bytes, first, changed(before.0, numbers));
    put(bytes, second, changed(before.1, numbers));
    let length = length_of(first.max(second), numbers).min(bytes.len());
    let cut = if length < bytes.len() {
        Some(length)
    } else {
        None
    };
    let answer = fault_of(alloc, &bytes[..length], 64);
    assert!(rt;
        is_right(answer, first, second, cut),
        "words {first} and {second}"
    );
    let in_bytes = fault_of(alloc, &bytes[..length], 1);
    assert!(rt; in_bytes == answer, "words {first} and {second} in pieces");
    put(bytes, second, before.1);
    put(bytes, first, before.0);
}

fn are_answered(
    rt: &impl Abort,
    alloc: Global,
    sample: &Sample,
    count: u32,
) -> Result<(), AllocError> {
    let mut bytes = bytes_of(alloc, sample)?;
    let mut numbers = Numbers { last: 17 };
    for _ in 0..count {
        is_mutation_answered(rt, alloc, sample, &mut bytes, &mut numbers);
    }
    Ok(())
}

#[test]
fn dumps(rt: HostRuntime) -> Result<(), Fail> {
    let newer = DUMPS / NEWER_EACH;
    are_answered(&rt, rt.alloc(), &NEWER, newer)?;
    are_answered(&rt, rt.alloc(), &OLDER, DUMPS - newer)?;
    Ok(())
}

/// Changes two bytes of a message, cuts it or makes it longer, and looks at the answer: where it is
/// a message, its bytes are these.
fn is_message_answered(rt: &impl Abort, message: &[u8], numbers: &mut Numbers) {
    let mut bytes = [0u8; 48];
    let whole = message.len().min(36);
    bytes[..whole].copy_from_slice(&message[..whole]);
    for _ in 0..2u32 {
        let place = numbers.below(36) as usize;
        bytes[place] = changed(u64::from(bytes[place]), numbers).to_le_bytes()[0];
    }
    let length = match numbers.below(4) {
        0 => numbers.below(48) as usize,
        _ => whole,
    };
    let given = &bytes[..length];
    if let Ok(message) = decode(given) {
        assert!(rt; encode(&message).bytes() == given, "{length} bytes");
    }
}

#[test]
fn messages(rt: HostRuntime) {
    let mut numbers = Numbers { last: 18 };
    for k in 0..MESSAGES {
        if k % 2 == 0 {
            is_message_answered(&rt, &BUFFERED, &mut numbers);
        } else {
            is_message_answered(&rt, &EMBEDDED, &mut numbers);
        }
    }
}
