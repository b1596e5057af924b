// The layout by numbers, the codes and texts of reasons, the text of payloads, and the limits of
// lengths.
use std::alloc::{AllocError, Global};
use std::test::Fail;
use xp_base::body::Body;
use xp_base::frame::Frame;
use xp_base::ids::PartId;
use xp_base::layout::{self, Region};
use xp_base::places;
use xp_base::reason::Reason;
use xp_base::session::Session;
use xp_base::show::{show, write_payload};
use xp_base::step::CopyKind;
use xp_base::words::Words;

/// Whose words stand at a place.
#[derive(Clone, Copy)]
enum Whose {
    Everyones,
    Partners(u8),
    Devices,
    Nobodys,
}

const PLACES: [(u32, Whose); 16] = [
    (0, Whose::Everyones),
    (15, Whose::Everyones),
    (16, Whose::Partners(0)),
    (527, Whose::Partners(63)),
    (528, Whose::Partners(0)),
    (591, Whose::Partners(63)),
    (592, Whose::Partners(0)),
    (1615, Whose::Partners(63)),
    (2128, Whose::Partners(0)),
    (2640, Whose::Partners(1)),
    (4376, Whose::Partners(4)),
    (5912, Whose::Partners(7)),
    (34895, Whose::Partners(63)),
    (34896, Whose::Devices),
    (36431, Whose::Devices),
    (36432, Whose::Nobodys),
];

fn region_of(whose: Whose) -> Option<Region> {
    match whose {
        Whose::Everyones => Some(Region::Open),
        Whose::Partners(q) => Some(Region::Area(PartId::known(q % 64))),
        Whose::Devices => Some(Region::Pool),
        Whose::Nobodys => None,
    }
}

#[test]
fn regions(rt: HostRuntime) {
    for (place, whose) in PLACES {
        assert!(rt; places::region(place) == region_of(whose), "at {place}");
    }
    assert!(rt; places::region(places::pool(7, 191)) == Some(Region::Pool));
}

/// Each reason, its code and its text.
const REASONS: [(Reason, u8, &str); 15] = [
    (Reason::Unregistered, 1, "unregistered"),
    (Reason::PartnerClosed { code: 8 }, 2, "partner-closed 8"),
    (
        Reason::UnequalSizes {
            own: 112,
            theirs: 64,
        },
        3,
        "unequal-sizes 112 64",
    ),
    (
        Reason::CopyError {
            kind: CopyKind::Entries,
            number: 12,
        },
        4,
        "copy-error entries 12",
    ),
    (
        Reason::NoHeartbeat {
            last: 7,
            now: 8,
            mask: 0,
        },
        5,
        "no-heartbeat 7 8 0",
    ),
    (
        Reason::Reactivating { old: 1, new: 2 },
        6,
        "reactivating 1 2",
    ),
    (Reason::OtherGoingDown { word: 3 }, 7, "other-going-down 3"),
    (Reason::Unloading, 8, "unloading"),
    (Reason::BadVersion { word: 64 }, 9, "bad-version 64"),
    (Reason::BadMagic { word: 5 }, 10, "bad-magic 5"),
    (Reason::BadArgs { word: 6 }, 11, "bad-args 6"),
    (
        Reason::BadCounters { get: 9, put: 8 },
        12,
        "bad-counters 9 8",
    ),
    (Reason::BadLength { word: 1 }, 13, "bad-length 1"),
    (
        Reason::BadNumber { wanted: 4, word: 5 },
        14,
        "bad-number 4 5",
    ),
    (
        Reason::BadFlags { word: u64::MAX },
        15,
        "bad-flags 18446744073709551615",
    ),
];

#[test]
fn reasons(rt: HostRuntime) -> Result<(), Fail> {
    for (reason, code, text) in REASONS {
        assert_eq!(rt; reason.code(), code);
        let shown = format!(in rt.alloc(); "{reason}")?;
        assert_eq!(rt; shown.as_str(), text);
    }
    Ok(())
}

/// Payloads and their texts.
const PAYLOADS: [(&[u8], &str); 5] = [
    (b"", "0:"),
    (b"hi", "2:6869"),
    (b"\x00\x9f\xf0", "3:009ff0"),
    (
        b"abcdefghijklmnopqrstuvwxyz012345",
        "32:6162636465666768696a6b6c6d6e6f707172737475767778797a303132333435",
    ),
    (
        b"abcdefghijklmnopqrstuvwxyz0123456",
        "33:6162636465666768..7a30313233343536",
    ),
];

fn written(alloc: Global, bytes: &[u8]) -> Result<String, AllocError> {
    let mut text = String::new(alloc);
    write_payload(&mut text, bytes)?;
    Ok(text)
}

/// The text behind another one.
fn shown(alloc: Global, bytes: &[u8]) -> Result<Vec<u8>, AllocError> {
    let mut text = b"> ".to_vec(alloc)?;
    show(bytes, &mut text)?;
    Ok(text)
}

#[test]
fn payloads(rt: HostRuntime) -> Result<(), Fail> {
    for (bytes, text) in PAYLOADS {
        assert_eq!(rt; written(rt.alloc(), bytes)?.as_str(), text);
        let shown = shown(rt.alloc(), bytes)?;
        assert!(rt;
            shown.strip_prefix(b"> ") == Some(text.as_bytes()),
            "{text}"
        );
    }
    Ok(())
}

/// A frame has at most 1,514 bytes, a body 1,008.
#[test]
fn lengths(rt: HostRuntime) {
    let bytes = [9u8; 1515];
    assert!(rt; Frame::new(&bytes).is_none());
    assert!(rt; Body::new(&bytes[..1008]).is_some() && Body::new(&bytes[..1009]).is_none());
    let copy = Frame::new(&bytes[..1514]).map(|frame| frame.copy());
    assert!(rt; matches!(copy, Some(copy) if copy.bytes() == &bytes[..1514]));
}

#[test]
fn sessions(rt: HostRuntime) {
    let session = Session { stamp: 3, count: 4 };
    assert_eq!(rt; session.word(), 0x0000_0003_0000_0004);
    let back = Session::of_word(0x0000_0003_0000_0004);
    assert_eq!(rt; (back.stamp, back.count), (3, 4));
}

#[test]
fn words_of_two(rt: HostRuntime) -> Result<(), Fail> {
    let mut words = Words::open(rt.alloc(), 2)?;
    words.set(PartId::known(1), 36431, 77);
    assert_eq!(rt; words.at(PartId::known(1), 36431), 77);
    assert_eq!(rt; words.at(PartId::known(0), 36431), 0);
    Ok(())
}

/// The words of the page and of the variables, by their places.
const WORDS: [(u32, u32); 13] = [
    (layout::SIGNATURE_AT, 0),
    (layout::VERSION_AT, 1),
    (layout::PART_AT, 2),
    (layout::VARIABLES_PLACE_AT, 3),
    (layout::STAMP, 4),
    (layout::PARTS_MASK_AT, 5),
    (layout::BEAT, 8),
    (layout::MASK, 9),
    (layout::OFFLINE, 10),
    (layout::ACTIVATION, 11),
    (layout::ENGAGED, 12),
    (layout::DEACTIVATION, 13),
    (layout::RECORDS_PLACE_AT, 14),
];

/// The windows of some counts of partitions.
const WINDOWS: [(u8, u64); 4] = [(2, 1024), (8, 1024), (9, 1152), (64, 8192)];

#[test]
fn numbers(rt: HostRuntime) {
    for (place, wanted) in WORDS {
        assert!(rt; place == wanted, "word {wanted}");
    }
    for (count, turns) in WINDOWS {
        let twice = layout::back_off(count);
        assert!(rt;
            layout::window(count) == turns && twice == 2 * turns,
            "{count} partitions"
        );
    }
}
