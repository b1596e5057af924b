// Network messages: their bytes, and the first fault of bytes that are none.
ghost use Rattle.std.specs.Prelude.{◌≡◌, ◌<◌, ◌≤◌, length};

use std::process::Abort;
use xp_base::body::Body;
use xpnet_frame::{NetFault, NetMessage, decode, encode};

/// A frame of 91 bytes in the first buffer.
pub const BUFFERED: [u8; 22] = [
    1, 0, 0, 0, 0x58, 0x4e, 0x45, 0x54, 0x50, 0x88, 0, 0, 0, 0, 0, 0, 0x60, 0, 0, 0, 2, 3,
];

/// A frame of 14 bytes that stands in the message.
pub const EMBEDDED: [u8; 36] = [
    1, 0, 14, 0, 0x58, 0x4e, 0x45, 0x54, 0, 0, 0, 0, 0, 0, 0, 0, 14, 0, 0, 0, 0, 0, 7, 7, 7, 7, 7,
    7, 7, 7, 7, 7, 7, 7, 7, 7,
];

fn fault(rt: &impl Abort, bytes: &[u8], wanted: NetFault) {
    match decode(bytes) {
        Ok(_) => assert!(rt; false, "a message"),
        Err(found) => assert!(rt; found == wanted, "{found:?}"),
    }
}

/// A message that names a buffer, with one byte changed.
fn changed(at: usize, byte: u8) -> [u8; 22]
    requires { at < 22 }
{
    let mut bytes = BUFFERED;
    bytes[at] = byte;
    bytes
}

#[test]
fn buffered(rt: HostRuntime) {
    let message = NetMessage::Buffered {
        place: 34_896,
        length: 91,
    };
    assert_eq!(rt; encode(&message).bytes(), BUFFERED.as_slice());
    assert!(rt;
        matches!(
            decode(&BUFFERED),
            Ok(NetMessage::Buffered {
                place: 34_896,
                length: 91
            })
        )
    );
}

/// The longest frame, in the last buffer: 1,514 bytes, 2 before them and 4 behind.
#[test]
fn longest(rt: HostRuntime) {
    let message = NetMessage::Buffered {
        place: 36_240,
        length: 1514,
    };
    let mut bytes = changed(8, 0x90);
    bytes[9] = 0x8d;
    bytes[16] = 0xf0;
    bytes[17] = 5;
    bytes[21] = 4;
    assert_eq!(rt; encode(&message).bytes(), bytes.as_slice());
    bytes[8] = 0x50;
    bytes[9] = 0x8e;
    fault(&rt, &bytes, NetFault::Address);
}

/// The frame that a message carries itself.
fn embedded(bytes: &[u8]) -> Option<Body> {
    match decode(bytes) {
        Ok(NetMessage::Embedded { frame }) => Some(frame),
        _ => None,
    }
}

#[test]
fn embedded_frame(rt: HostRuntime) {
    match Body::new(&[7u8; 14]) {
        Some(frame) => {
            let message = NetMessage::Embedded { frame };
            assert_eq!(rt; encode(&message).bytes(), EMBEDDED.as_slice());
        }
        None => assert!(rt; false, "no frame"),
    }
    match embedded(&EMBEDDED) {
        Some(frame) => assert_eq!(rt; frame.bytes(), [7u8; 14].as_slice()),
        None => assert!(rt; false, "no message"),
    }
}

/// A byte of a message with an embedded frame, what may not stand there, and the fault.
const EMBEDDED_FAULTS: [(usize, u8, NetFault); 8] = [
    (0, 2, NetFault::Version),
    (1, 1, NetFault::Version),
    (7, 0x55, NetFault::Magic),
    (2, 13, NetFault::Embedded),
    (8, 1, NetFault::Embedded),
    (16, 15, NetFault::Embedded),
    (20, 2, NetFault::Embedded),
    (21, 1, NetFault::Embedded),
];

#[test]
fn faults_of_embedded_frames(rt: HostRuntime) {
    for (at, byte, wanted) in &EMBEDDED_FAULTS {
        let mut bytes = EMBEDDED;
        if *at < 36 {
            bytes[*at] = *byte;
        }
        fault(&rt, &bytes, *wanted);
    }
    fault(&rt, &EMBEDDED[..35], NetFault::Embedded);
    // No embedded bytes, and no place of a buffer.
    let mut bytes = EMBEDDED;
    bytes[2] = 0;
    fault(&rt, &bytes, NetFault::Address);
}

#[test]
fn faults(rt: HostRuntime) {
    fault(&rt, &changed(0, 2), NetFault::Version);
    fault(&rt, &BUFFERED[..21], NetFault::Size);
    fault(&rt, &changed(8, 0x51), NetFault::Address);
    fault(&rt, &changed(4, 0x59), NetFault::Magic);
    fault(&rt, &changed(2, 14), NetFault::Embedded);
    fault(&rt, &changed(16, 0x61), NetFault::Size);
    fault(&rt, &changed(16, 0x58), NetFault::Size);
    fault(&rt, &changed(20, 3), NetFault::Size);
    fault(&rt, &changed(21, 8), NetFault::Size);
    fault(&rt, &[], NetFault::Size);
}
