// Queues of each size: the words that the sending side stores, and what the receiving side makes of
// them, in runs of each length from each entry on, and with a load that fails at each place of a
// run.
use std::process::Abort;
use xp_base::answer::{SendAnswer, TakeAnswer};
use xp_base::body::lines;
use xp_base::ids::{Channel, PartId};
use xp_base::link::LinkState;
use xp_base::places::{counters, queue_word};
use xp_base::reason::Reason;
use xp_base::step::{Answer, CopyKind, OpKind};
use xp_pull::side::PullSide;
use xp_ring::side::SendSide;

/// The words of the queue of partition 0 for partition 1 on channel 2.
type Queue = [u64; 128];

/// Each number of entries with each number of lines that an entry can have then: the entries, and
/// the greatest limit of these lines.
const SIZES: [(u8, u16); 20] = [
    (1, 112),
    (1, 240),
    (1, 368),
    (1, 496),
    (1, 624),
    (1, 752),
    (1, 880),
    (1, 1008),
    (2, 112),
    (2, 240),
    (2, 368),
    (2, 496),
    (3, 112),
    (3, 240),
    (4, 112),
    (4, 240),
    (5, 112),
    (6, 112),
    (7, 112),
    (8, 112),
];

/// The sizes whose queue is full of entries of equal lines.
const WHOLE: [(u8, u16); 4] = [(1, 1008), (2, 496), (4, 240), (8, 112)];

fn channel() -> Channel {
    Channel::known(2)
}

fn send_side(rt: &impl Abort, size: (u8, u16)) -> SendSide {
    let (entries, limit) = size;
    assert!(rt; 0 < entries && entries <= 8 && limit <= 1008);
    assert!(rt; entries as u32 * lines(limit) as u32 <= 8);
    SendSide::new(
        PartId::known(0),
        PartId::known(1),
        channel(),
        entries,
        limit,
    )
}

fn pull_side(rt: &impl Abort, size: (u8, u16)) -> PullSide {
    let (entries, limit) = size;
    assert!(rt; 0 < entries && entries <= 8 && limit <= 1008);
    assert!(rt; entries as u32 * lines(limit) as u32 <= 8);
    PullSide::new(
        PartId::known(1),
        PartId::known(0),
        channel(),
        entries,
        limit,
    )
}

/// How many words an entry has.
fn words_each(rt: &impl Abort, size: (u8, u16)) -> u32 {
    assert!(rt; size.1 <= 1008);
    16 * lines(size.1) as u32
}

/// The payload of a message: its bytes differ from place to place, and from message to message.
fn payload(number: u8) -> [u8; 1009] {
    let mut bytes = [0u8; 1009];
    let mut byte = number;
    for at in 0..1009usize {
        bytes[at] = byte;
        byte = byte.wrapping_mul(5).wrapping_add(7);
    }
    bytes
}

/// The number of a word of the queue by its place; none where another word stands there.
fn word_in_queue(index: u32) -> Option<usize> {
    let place = index.checked_sub(queue_word(PartId::known(1), channel(), 0))?;
    if place < 128 {
        Some(place as usize)
    } else {
        None
    }
}

/// Sends a payload over a side whose queue has room by the get that it knows, and stores what it
/// wants; whether the message is accepted under this number, and no load was wanted.
fn is_sent(
    rt: &impl Abort,
    side: &mut SendSide,
    queue: &mut Queue,
    bytes: &[u8],
    number: u64,
) -> bool {
    assert!(rt; bytes.len() <= 4096);
    if side
        .begin(LinkState::Connected, bytes, true, false)
        .is_some()
    {
        return false;
    }
    for _ in 0..129u32 {
        assert!(rt; side.put() < 100);
        let Some(wanted) = side.next() else {
            return false;
        };
        let OpKind::Store(word) = wanted.op.kind else {
            return false;
        };
        if let Some(place) = word_in_queue(wanted.op.index) {
            queue[place % 128] = word;
        }
        match side.feed(Answer::Word(0)) {
            Ok(None) => {}
            Ok(Some(SendAnswer::Ok(accepted))) => return accepted == number,
            _ => return false,
        }
    }
    false
}

/// A queue that is full of messages of the greatest length, whose sender has loaded no get.
fn full_queue(rt: &impl Abort, size: (u8, u16)) -> Queue {
    let mut side = send_side(rt, size);
    let mut queue = [0u64; 128];
    let length = (size.1 as usize).min(1009);
    for number in 0..size.0 {
        let bytes = payload(number);
        let sent = is_sent(rt, &mut side, &mut queue, &bytes[..length], number as u64);
        assert!(rt; sent, "message {number} of {size:?}");
    }
    queue
}

/// The partner's word at a place: its get is 0.
fn partner_word(queue: &Queue, put: u64, index: u32) -> u64 {
    match word_in_queue(index) {
        Some(place) => queue[place % 128],
        None if index == counters(PartId::known(1), channel(), 1) => put,
        None => 0,
    }
}

/// Makes the loads that the side wants, up to so many; how many were made and not refused.
fn loads(side: &mut PullSide, queue: &Queue, put: u64, most: u32) -> u32 {
    for made in 0..most {
        let Some(wanted) = side.next() else {
            return made;
        };
        let word = partner_word(queue, put, wanted.op.index);
        if side.feed(Answer::Word(word), 0, 8, 0).is_err() {
            return made;
        }
    }
    most
}

/// How many loads the run had before the one that is wanted; none where another one is wanted.
fn loads_of_run(side: &PullSide) -> Option<u32> {
    let mark = side.next()?.mark?;
    if mark.kind == CopyKind::Entries {
        Some(mark.word)
    } else {
        None
    }
}

/// Whether the next message is there, with this number and these bytes.
fn is_taken(side: &mut PullSide, number: u64, bytes: &[u8]) -> bool {
    match side.begin(LinkState::Connected, false) {
        Some(
            TakeAnswer::Taken {
                number: found,
                body,
            },
        ) => found == number && body.bytes() == bytes,
        _ => false,
    }
}

/// The messages up to this number are there, and no other one.
fn are_taken(rt: &impl Abort, side: &mut PullSide, size: (u8, u16), count: u8) {
    let length = (size.1 as usize).min(1009);
    for number in 0..count {
        let bytes = payload(number);
        let taken = is_taken(side, number as u64, &bytes[..length]);
        assert!(rt; taken, "message {number} of {size:?}");
    }
    assert!(rt; side.next().is_none() && !side.copying());
}

/// A run of so many entries behind so many others is one copy.
fn is_run_pulled(rt: &impl Abort, queue: &Queue, size: (u8, u16), before: u8, run: u8) {
    assert!(rt; before <= 8 && 0 < run && run <= 8);
    let each = words_each(rt, size);
    let first = each.saturating_mul(before as u32);
    let last = each.saturating_mul(run as u32);
    let mut side = pull_side(rt, size);
    side.pull();
    let loaded = loads(&mut side, queue, before as u64, 2000);
    assert!(rt; loaded == first.saturating_add(2), "{before} of {size:?}");
    side.pull();
    let put = before as u64 + run as u64;
    let most = last.saturating_add(1);
    assert!(rt;
        loads(&mut side, queue, put, most) == most,
        "{run} behind {before} of {size:?}"
    );
    assert!(rt; side.copying() && loads_of_run(&side) == Some(last.saturating_sub(1)));
    assert!(rt; loads(&mut side, queue, put, 2000) == 1);
    are_taken(rt, &mut side, size, before + run);
}

/// Runs of each length from each entry of a queue on, for each size of a queue.
#[test]
fn runs_of_each_length_from_each_entry(rt: HostRuntime) {
    for size in SIZES {
        let queue = full_queue(&rt, size);
        for before in 0..size.0 {
            for run in 1..=size.0.saturating_sub(before) {
                is_run_pulled(&rt, &queue, size, before, run);
            }
        }
    }
}

/// The load at a place of a run of a whole queue fails: nothing of the run is pulled, and it is
/// copied anew from its first word.
fn is_run_copied_anew(rt: &impl Abort, queue: &Queue, size: (u8, u16), place: u32) {
    assert!(rt; place < 128 && size.0 <= 8);
    let put = size.0 as u64;
    let mut side = pull_side(rt, size);
    side.pull();
    assert!(rt; loads(&mut side, queue, put, 2 + place) == 2 + place);
    assert!(rt; loads_of_run(&side) == Some(place), "{place} of {size:?}");
    if side.next().is_some() {
        let fed = side.feed(Answer::Failed, 0, 8, 0);
        let (kind, number) = (CopyKind::Entries, 0);
        assert!(rt; matches!(fed, Err(reason) if reason == Reason::CopyError { kind, number }));
    }
    assert!(rt; !side.copying() && loads_of_run(&side) == Some(0));
    assert!(rt; loads(&mut side, queue, put, 2000) == 128);
    are_taken(rt, &mut side, size, size.0);
}

#[test]
fn a_load_fails_at_each_place(rt: HostRuntime) {
    for size in WHOLE {
        let queue = full_queue(&rt, size);
        for place in 0..128u32 {
            is_run_copied_anew(&rt, &queue, size, place);
        }
    }
}

/// A payload of this length is too big for the limit, or arrives as it was sent.
fn is_length_answered(rt: &impl Abort, limit: u16, length: u16) {
    assert!(rt; limit <= 1008 && length <= 1009);
    let size = (8 / lines(limit), limit);
    let (mut sender, mut receiver) = (send_side(rt, size), pull_side(rt, size));
    let bytes = payload(9);
    let bytes = &bytes[..length as usize];
    if length > limit {
        let answer = sender.begin(LinkState::Connected, bytes, true, false);
        let length = length as u32;
        assert!(rt;
            answer == Some(SendAnswer::TooBig { length, limit }),
            "{length} of {limit}"
        );
        return;
    }
    let mut queue = [u64::MAX; 128];
    let sent = is_sent(rt, &mut sender, &mut queue, bytes, 0);
    assert!(rt; sent, "{length} of {limit}");
    receiver.pull();
    assert_eq!(rt;
        loads(&mut receiver, &queue, 1, 2000),
        2 + words_each(rt, size).min(128)
    );
    assert!(rt; is_taken(&mut receiver, 0, bytes), "{length} of {limit}");
}

#[test]
fn lengths_under_each_limit(rt: HostRuntime) {
    for limit in 0..=1008u16 {
        for length in [0u16, 1, 112, 113, 1007, 1008, 1009] {
            is_length_answered(&rt, limit, length);
        }
    }
}

/// Whether the side wants to load get.
fn wants_get(rt: &impl Abort, side: &SendSide) -> bool {
    assert!(rt; side.put() < 100);
    match side.next() {
        Some(wanted) => wanted.op.kind == OpKind::Load && wanted.op.index == get_place(),
        None => false,
    }
}

/// The place of the partner's get.
fn get_place() -> u32 {
    counters(PartId::known(0), channel(), 0)
}

/// Whether the send goes on where the step that it wants is answered by this get.
fn is_get_heard(rt: &impl Abort, side: &mut SendSide, get: u64) -> bool {
    assert!(rt; side.put() < 100);
    if side.next().is_none() {
        return false;
    }
    matches!(side.feed(Answer::Word(get)), Ok(None))
}

/// A side whose queue is full loads get, until that shows room.
fn is_get_loaded_late(rt: &impl Abort, size: (u8, u16)) {
    let mut side = send_side(rt, size);
    let mut queue = [0u64; 128];
    for number in 0..size.0 as u64 {
        let sent = is_sent(rt, &mut side, &mut queue, b"", number);
        assert!(rt; sent, "message {number} of {size:?}");
    }
    assert!(rt; side.begin(LinkState::Connected, b"", true, false).is_none());
    for get in [0u64, 0, 1] {
        assert!(rt; wants_get(rt, &side) && side.known_get() == 0, "{size:?}");
        assert!(rt; is_get_heard(rt, &mut side, get), "{size:?}");
    }
    assert!(rt; !wants_get(rt, &side) && side.known_get() == 1, "{size:?}");
}

#[test]
fn get_is_loaded_where_the_queue_is_full(rt: HostRuntime) {
    for size in SIZES {
        is_get_loaded_late(&rt, size);
    }
}
