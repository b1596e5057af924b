// Flag words and their sets, and the order in which kinds are handled.
use xp_base::ids::Channel;
use xp_flags::{Flags, Kind};

const KINDS: [Kind; 6] = [
    Kind::CloseRequest,
    Kind::CloseReply,
    Kind::OpenRequest,
    Kind::OpenReply,
    Kind::OpenComplete,
    Kind::MsgRequest,
];

/// Words, a channel, and which of the six kinds are set there; none where the word is refused.
const WORDS: [(u64, u8, Option<[bool; 6]>); 7] = [
    (0x2800, 1, Some([false, false, false, true, false, true])),
    (0x2800, 0, Some([false; 6])),
    (0x3f3f_3f3f, 3, Some([true; 6])),
    (
        0xffff_ffff_0100_c0c0,
        3,
        Some([true, false, false, false, false, false]),
    ),
    (0x40, 0, None),
    (0x80, 0, None),
    (0xff, 0, None),
];

fn kinds_of(word: u64, channel: u8) -> Option<[bool; 6]> {
    let flags = Flags::of_word(word, Channel::known(channel % 4))?;
    Some(KINDS.map(|kind| flags.contains(kind)))
}

#[test]
fn words(rt: HostRuntime) {
    for (word, channel, kinds) in WORDS {
        assert!(rt; kinds_of(word, channel) == kinds, "{word}");
    }
}

#[test]
fn order(rt: HostRuntime) {
    let closing = Flags::empty()
        .with(Kind::CloseReply)
        .with(Kind::OpenRequest)
        .with(Kind::CloseRequest);
    assert!(rt; closing.next_kind(true) == Some(Kind::CloseReply));
    assert!(rt; closing.next_kind(false) == Some(Kind::OpenRequest));
    let left = closing.without(Kind::OpenRequest);
    assert!(rt; left.next_kind(false) == Some(Kind::CloseRequest));
    assert!(rt; Flags::empty().next_kind(true).is_none());
}

#[test]
fn both_ways(rt: HostRuntime) {
    let opening = Flags::empty().with(Kind::OpenRequest).with(Kind::OpenReply);
    let message = Flags::empty().with(Kind::MsgRequest);
    let word = opening.merge(message).to_word(Channel::known(2));
    assert_eq!(rt; word, 0x2c_0000);
}
