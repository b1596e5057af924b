// The sending side by itself, of the whole protocol, whose steps are answered by hand: tables of
// acts with what each tells.
use std::process::Abort;
use xp_base::answer::SendAnswer;
use xp_base::ids::{Channel, PartId};
use xp_base::link::LinkState;
use xp_base::places::{counters, entry};
use xp_base::reason::Reason;
use xp_base::step::{Answer, OpKind};
use xp_ring::side::SendSide;

/// What is done with a side.
#[derive(Clone, Copy)]
enum Act {
    /// A payload of so many bytes is sent over a link in this state.
    Begin {
        state: LinkState,
        bytes: usize,
        wait: bool,
    },
    /// The step that is wanted is answered by this word.
    Feed(u64),
    /// So many stores of words are made, up to the one of put.
    Stores(u32),
    /// The load that is wanted fails.
    Fail,
    /// A get becomes known otherwise.
    Know(u64),
    Stop(Reason),
}

/// What an act tells: which answer it was, and a number from it.
type Outcome = (&'static str, u64);

const NOTHING: Outcome = ("nothing", 0);

fn answered(answer: Option<SendAnswer>) -> Outcome {
    match answer {
        None => NOTHING,
        Some(SendAnswer::Ok(number)) => ("sent", number),
        Some(SendAnswer::TooBig { limit, .. }) => ("too big", limit as u64),
        Some(SendAnswer::Disconnecting { reason }) => ("disconnecting", reason.code() as u64),
        Some(SendAnswer::NotConnected) => ("not connected", 0),
        Some(SendAnswer::NoSlot { put, get }) => ("no slot", put.saturating_sub(get)),
    }
}

fn outcome(fed: Result<Option<SendAnswer>, Reason>) -> Outcome {
    match fed {
        Ok(answer) => answered(answer),
        Err(reason) => ("error", reason.code() as u64),
    }
}

fn begin(side: &mut SendSide, state: LinkState, bytes: usize, wait: bool) -> Outcome {
    let payload = [7u8; 8];
    answered(side.begin(state, &payload[..bytes % 9], wait, false))
}

fn feed(rt: &impl Abort, side: &mut SendSide, word: u64) -> Outcome {
    assert!(rt; side.put() < 100);
    if side.next().is_none() {
        return ("no step", 0);
    }
    outcome(side.feed(Answer::Word(word)))
}

/// The place and the word of the store that a side wants.
fn stored(rt: &impl Abort, side: &SendSide) -> Option<(u32, u64)> {
    assert!(rt; side.put() < 100);
    let wanted = side.next()?;
    match wanted.op.kind {
        OpKind::Store(word) => Some((wanted.op.index, word)),
        _ => None,
    }
}

/// Makes stores of words, up to so many; it tells how many were made.
fn stores(rt: &impl Abort, side: &mut SendSide, most: u32) -> Outcome {
    let put = counters(PartId::known(1), Channel::known(2), 1);
    for made in 0..most {
        match stored(rt, side) {
            Some((index, _)) if index != put => {
                feed(rt, side, 0);
            }
            _ => return ("stores", made as u64),
        }
    }
    ("stores", most as u64)
}

fn fail(rt: &impl Abort, side: &mut SendSide) -> Outcome {
    assert!(rt; side.put() < 100);
    match side.next() {
        Some(wanted) if wanted.mark.is_some() => outcome(side.feed(Answer::Failed)),
        _ => ("no load", 0),
    }
}

fn know(side: &mut SendSide, get: u64) -> Outcome {
    if get < side.known_get() || side.put() < get {
        return ("no get", get);
    }
    side.know(get);
    NOTHING
}

fn perform(rt: &impl Abort, side: &mut SendSide, act: Act) -> Outcome {
    match act {
        Act::Begin { state, bytes, wait } => begin(side, state, bytes, wait),
        Act::Feed(word) => feed(rt, side, word),
        Act::Stores(most) => stores(rt, side, most),
        Act::Fail => fail(rt, side),
        Act::Know(get) => know(side, get),
        Act::Stop(reason) => answered(side.stop(reason)),
    }
}

/// A side of partition 0 for partition 1 on channel 2, with a queue of one message of at most 4
/// bytes.
fn side() -> SendSide {
    SendSide::new(PartId::known(0), PartId::known(1), Channel::known(2), 1, 4)
}

const SEND: Act = Act::Begin {
    state: LinkState::Connected,
    bytes: 2,
    wait: true,
};

const SEND_NOW: Act = Act::Begin {
    state: LinkState::Connected,
    bytes: 2,
    wait: false,
};

/// A send that finds the queue full by the get that is known loads one until there is room, or
/// doesn't wait. One that is stopped amid its stores begins with the first word again.
const ACTS: [(Act, Outcome); 26] = [
    (
        Act::Begin {
            state: LinkState::Idle,
            bytes: 5,
            wait: true,
        },
        ("too big", 4),
    ),
    (
        Act::Begin {
            state: LinkState::Opening,
            bytes: 4,
            wait: true,
        },
        ("not connected", 0),
    ),
    (
        Act::Begin {
            state: LinkState::Closing(Reason::Unloading),
            bytes: 4,
            wait: true,
        },
        ("disconnecting", 8),
    ),
    (Act::Feed(0), ("no step", 0)),
    (SEND, NOTHING),
    (Act::Stores(20), ("stores", 16)),
    (Act::Feed(0), ("sent", 0)),
    (SEND_NOW, NOTHING),
    (Act::Stores(1), ("stores", 0)),
    (Act::Feed(0), ("no slot", 1)),
    (Act::Feed(0), ("no step", 0)),
    (SEND, NOTHING),
    (Act::Feed(0), NOTHING),
    (Act::Fail, ("error", 4)),
    (Act::Feed(2), ("error", 12)),
    (Act::Feed(1), NOTHING),
    (Act::Fail, ("no load", 0)),
    (Act::Stores(9), ("stores", 9)),
    (Act::Stop(Reason::Unregistered), ("disconnecting", 1)),
    (Act::Stop(Reason::Unregistered), NOTHING),
    (SEND, NOTHING),
    (Act::Stores(20), ("stores", 16)),
    (Act::Feed(0), ("sent", 1)),
    (Act::Know(2), NOTHING),
    (SEND_NOW, NOTHING),
    (Act::Stores(20), ("stores", 16)),
];

#[test]
fn sends(rt: HostRuntime) {
    let mut side = side();
    for (place, (act, wanted)) in ACTS.iter().enumerate() {
        assert!(rt; perform(&rt, &mut side, *act) == *wanted, "act {place}");
    }
}

/// The words of an entry that holds the two bytes `hi` as message 0, and then put.
#[test]
fn words_of_a_message(rt: HostRuntime) {
    let (partner, channel) = (PartId::known(1), Channel::known(2));
    let mut side = side();
    assert!(rt;
        side.begin(LinkState::Connected, b"hi", true, true)
            .is_none()
    );
    for field in 0..16u32 {
        let word = match field {
            0 => 65_538,
            2 => 0x6968,
            _ => 0,
        };
        let place = entry(partner, channel, 0, field);
        assert_eq!(rt; stored(&rt, &side), Some((place, word)), "{field}");
        feed(&rt, &mut side, 0);
    }
    let put = counters(partner, channel, 1);
    assert_eq!(rt; stored(&rt, &side), Some((put, 1)));
}
