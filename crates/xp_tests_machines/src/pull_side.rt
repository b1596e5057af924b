// The receiving side by itself, of the whole protocol, over a partner's queue of eight messages:
// message k has one byte, 40 + k.
use std::process::Abort;
use xp_base::answer::TakeAnswer;
use xp_base::ids::{Channel, PartId};
use xp_base::link::LinkState;
use xp_base::places::{counters, entry};
use xp_base::reason::Reason;
use xp_base::step::Answer;
use xp_pull::side::PullSide;

fn own() -> PartId {
    PartId::known(1)
}

fn channel() -> Channel {
    Channel::known(2)
}

fn side() -> PullSide {
    PullSide::new(own(), PartId::known(0), channel(), 8, 112)
}

/// The partner's word at a place: its get is 0 and its put 8.
fn partner_word(index: u32) -> u64 {
    let first = entry(own(), channel(), 0, 0);
    let Some(place) = index.checked_sub(first) else {
        return if index == counters(own(), channel(), 1) {
            8
        } else {
            0
        };
    };
    let number = (place / 16) as u64;
    match place % 16 {
        0 => 65_537,
        1 => number,
        2 => 40 + number,
        _ => 0,
    }
}

/// Feeds the step that is wanted; nothing where there is none.
fn feed(side: &mut PullSide, answer: Answer) -> Result<Option<TakeAnswer>, Reason> {
    if side.next().is_none() {
        return Ok(None);
    }
    side.feed(answer, 0, 8, 0)
}

/// Makes the steps that the side wants, up to so many. It tells how many were made without an
/// error.
fn steps(side: &mut PullSide, most: u32) -> u32 {
    for made in 0..most {
        let Some(wanted) = side.next() else {
            return made;
        };
        let word = partner_word(wanted.op.index);
        if side.feed(Answer::Word(word), 0, 8, 0).is_err() {
            return made;
        }
    }
    most
}

/// The number and the bytes' first one of a message that was taken.
fn taken(answer: Option<TakeAnswer>) -> Option<(u64, u8)> {
    match answer {
        Some(TakeAnswer::Taken { number, body }) => match body.bytes() {
            [byte] => Some((number, *byte)),
            _ => None,
        },
        _ => None,
    }
}

/// A whole run of eight entries is pulled, and none of them before the last word.
#[test]
fn eight_messages(rt: HostRuntime) {
    let mut side = side();
    side.pull();
    assert_eq!(rt; steps(&mut side, 2 + 8 * 16 - 1), 2 + 8 * 16 - 1);
    assert!(rt; side.copying() && side.known_get() == 0);
    assert_eq!(rt; steps(&mut side, 9), 1);
    for number in 0..8u8 {
        let answer = side.begin(LinkState::Connected, false);
        assert_eq!(rt; taken(answer), Some((number as u64, 40 + number)));
    }
    assert!(rt; side.begin(LinkState::Connected, true).is_none());
}

/// The queue is shown empty to a take that may not wait, by the put that is loaded for it.
#[test]
fn empty_queue(rt: HostRuntime) {
    let mut side = side();
    assert!(rt; side.begin(LinkState::Connected, false).is_none());
    assert!(rt; matches!(feed(&mut side, Answer::Word(0)), Ok(None)));
    let answer = feed(&mut side, Answer::Word(0));
    assert!(rt; matches!(answer, Ok(Some(TakeAnswer::Empty { put: 0 }))));
    assert!(rt; side.next().is_none());
}

/// The step at which the side gives a reason, and the reason's code, where the step of a place
/// answers this word.
fn reason_at(side: &mut PullSide, place: u32, word: u64) -> Option<(u32, u64)> {
    for made in 0..130u32 {
        let wanted = side.next()?;
        let there = partner_word(wanted.op.index);
        let answer = if made == place { word } else { there };
        if let Err(reason) = side.feed(Answer::Word(answer), 0, 8, 0) {
            return Some((made, reason.code() as u64));
        }
    }
    None
}

/// Words that the partner can't have stored, each at its step, and the step and the code of the
/// reason to deactivate the partner: a get above the own put, a put above the room, two lengths
/// beside the limits, the number of another message; and a length at the limit.
const BROKEN: [(u32, u64, Option<(u32, u64)>); 6] = [
    (0, 9, Some((0, 12))),
    (1, 9, Some((1, 12))),
    (2, 65_649, Some((129, 13))),
    (2, 65_535, Some((129, 13))),
    (3, 1, Some((129, 14))),
    (2, 65_648, None),
];

#[test]
fn broken_words(rt: HostRuntime) {
    for (place, word, reason) in BROKEN {
        let mut side = side();
        side.pull();
        assert_eq!(rt;
            reason_at(&mut side, place, word),
            reason,
            "{word} at {place}"
        );
    }
}

/// A failed load ends the copy of its run, which begins anew. A side that is stopped gives up its
/// take and makes no step.
#[test]
fn failed_and_stopped(rt: HostRuntime) {
    let mut side = side();
    side.pull();
    assert_eq!(rt; steps(&mut side, 2 + 5), 7);
    assert!(rt; feed(&mut side, Answer::Failed).is_err());
    assert!(rt; !side.copying());
    assert_eq!(rt; steps(&mut side, 200), 128);
    let answer = side.begin(LinkState::Connected, true);
    assert_eq!(rt; taken(answer), Some((0, 40)));
    side.pull();
    let answer = side.stop(Reason::Unregistered);
    assert!(rt; answer.is_none() && side.next().is_none());
}
