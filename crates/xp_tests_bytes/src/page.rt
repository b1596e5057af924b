// Hostile bytes against each image's table of words, which stands here once more: the words allowed
// as ranges, and the cause. Each image is written as it was read.
ghost use Rattle.std.specs.Prelude.{◌≡◌, ◌+◌, ◌*◌, ◌<◌, ◌≤◌, ◌^◌, length};

use byteorder::{ByteOrder, LittleEndian};
use std::alloc::{AllocError, Global};
use std::process::Abort;
use std::test::Fail;
use xp_base::ids::{Channel, PartId};
use xp_page::{
    ArgsImage, At, CountersImage, EntryImage, Image, PageCause, PageImage, RecordImage, VarsImage,
};

/// The words allowed at a place, as ranges with both ends, and the cause of the fault where another
/// one stands there.
#[derive(Clone, Copy)]
struct Word {
    ranges: &'static [(u64, u64)],
    cause: PageCause,
}

const ANY: Word = Word {
    ranges: &[(0, u64::MAX)],
    cause: PageCause::Value,
};

const ZERO: Word = Word {
    ranges: &[(0, 0)],
    cause: PageCause::Value,
};

/// The bits of the first and the third of three partitions: those of the others than the second.
const OTHERS: Word = Word {
    ranges: &[(0, 1), (4, 5)],
    cause: PageCause::Mask,
};

/// The second of three partitions, its third as the partner, and the last channel.
fn here() -> At
    ensures { result.offset ≡ 100 }
{
    At {
        offset: 100,
        owner: PartId::known(1),
        count: 3,
        partner: PartId::known(2),
        channel: Channel::known(3),
    }
}

fn is_allowed(word: &Word, value: u64) -> bool {
    word.ranges
        .iter()
        .any(|range| range.0 <= value && value <= range.1)
}

/// The place of the first fault of some bytes by a table, and its cause.
fn expected(words: &[Word], bytes: &[u8]) -> Option<(u64, PageCause)> {
    let mut left = bytes;
    let mut offset = 100u64;
    for word in words {
        if left.len() < 8 {
            return Some((100 + bytes.len() as u64, PageCause::Truncated));
        }
        if !is_allowed(word, LittleEndian::read_u64(&left[..8])) {
            return Some((offset, word.cause));
        }
        left = &left[8..];
        offset = offset.saturating_add(8);
    }
    None
}

fn outcome<I: Image + Drop>(bytes: &[u8]) -> Option<(u64, PageCause)>
    requires { 100 + 8 * I.size < 2 ^ 64 }
{
    match I::read(bytes, here()) {
        Ok(_) => None,
        Err(fault) => Some((fault.offset, fault.cause)),
    }
}

fn check_lengths<I: Image + Drop>(rt: &impl Abort, words: &[Word], image: &[u8])
    requires { 100 + 8 * I.size < 2 ^ 64 }
{
    assert!(rt; outcome::<I>(image).is_none() && I::length() == image.len());
    for n in 0..image.len() {
        let cut = &image[..n];
        assert!(rt; outcome::<I>(cut) == expected(words, cut), "{n} bytes");
    }
}

fn check_bytes<I: Image + Drop>(rt: &impl Abort, words: &[Word], image: &mut [u8])
    requires { 100 + 8 * I.size < 2 ^ 64 }
{
    for i in 0..image.len() {
        let old = image[i];
        image[i] = 255;
        assert!(rt; outcome::<I>(image) == expected(words, image), "byte {i}");
        image[i] = old;
    }
}

fn check_past<I: Image + Drop>(
    rt: &impl Abort,
    words: &[Word],
    image: &mut [u8],
    k: usize,
    last: u64,
)
    requires { 100 + 8 * I.size < 2 ^ 64 }
{
    if last < u64::MAX && k < 16 && 8 * k + 8 <= image.len() {
        let old = LittleEndian::read_u64(&image[8 * k..8 * k + 8]);
        LittleEndian::write_u64(&mut image[8 * k..8 * k + 8], last + 1);
        assert!(rt;
            outcome::<I>(image) == expected(words, image),
            "word {k} past {last}"
        );
        LittleEndian::write_u64(&mut image[8 * k..8 * k + 8], old);
    }
}

fn check_words<I: Image + Drop>(rt: &impl Abort, words: &[Word], image: &mut [u8])
    requires { 100 + 8 * I.size < 2 ^ 64 }
{
    for (k, word) in words.iter().enumerate() {
        for range in word.ranges {
            check_past::<I>(rt, words, image, k, range.1);
        }
    }
}

/// The bytes that an image is written as behind one byte, where these bytes read as one.
fn written<I: Image + Drop>(alloc: Global, bytes: &[u8]) -> Result<Vec<u8>, AllocError>
    requires { 100 + 8 * I.size < 2 ^ 64 }
{
    let mut out = vec![in alloc; 7u8]?;
    if let Ok(image) = I::read(bytes, here()) {
        image.write(&mut out)?;
    }
    Ok(out)
}

/// Every length, every byte set to 255, every word one past each of its ranges, and the image
/// itself, which is written as it was read.
fn check<I: Image + Drop>(
    rt: &impl Abort,
    alloc: Global,
    words: &[Word],
    image: &mut [u8],
) -> Result<(), Fail>
    requires { 100 + 8 * I.size < 2 ^ 64 }
{
    check_lengths::<I>(rt, words, image);
    check_bytes::<I>(rt, words, image);
    check_words::<I>(rt, words, image);
    let out = written::<I>(alloc, image)?;
    assert!(rt; out.split_first() == Some((&7u8, &*image)));
    Ok(())
}

const PAGE: [Word; 8] = [
    Word {
        ranges: &[(3_550_322_227_096_539_224, 3_550_322_227_096_539_224)],
        cause: PageCause::Signature,
    },
    Word {
        ranges: &[(48, 63)],
        cause: PageCause::Version,
    },
    Word {
        ranges: &[(1, 1)],
        cause: PageCause::Value,
    },
    Word {
        ranges: &[(8, 8)],
        cause: PageCause::Address,
    },
    Word {
        ranges: &[(0, 4_294_967_295)],
        cause: PageCause::Value,
    },
    Word {
        ranges: &[(7, 7)],
        cause: PageCause::Mask,
    },
    ZERO,
    ZERO,
];

#[test]
fn page(rt: HostRuntime) -> Result<(), Fail> {
    let mut image = [0u8; 64];
    LittleEndian::write_u64_into(
        &[3_550_322_227_096_539_224, 49, 1, 8, 5, 7, 0, 0],
        &mut image,
    );
    assert_eq!(rt; &image[..8], b"XPCPAGE1".as_slice());
    check::<PageImage>(&rt, rt.alloc(), &PAGE, &mut image)
}

const VARS: [Word; 8] = [
    ANY,
    OTHERS,
    ANY,
    OTHERS,
    OTHERS,
    OTHERS,
    Word {
        ranges: &[(16, 16)],
        cause: PageCause::Address,
    },
    ZERO,
];

#[test]
fn vars(rt: HostRuntime) -> Result<(), Fail> {
    let mut image = [0u8; 64];
    LittleEndian::write_u64_into(&[900, 5, 0, 1, 4, 0, 16, 0], &mut image);
    check::<VarsImage>(&rt, rt.alloc(), &VARS, &mut image)
}

const RECORD: [Word; 8] = [
    Word {
        ranges: &[
            (0, 0),
            (6_076_290_796_917_837_912, 6_076_290_796_917_837_912),
            (4_921_945_407_791_255_640, 4_921_945_407_791_255_640),
        ],
        cause: PageCause::Magic,
    },
    ANY,
    ANY,
    Word {
        ranges: &[(0, 0), (624, 624)],
        cause: PageCause::Address,
    },
    Word {
        ranges: &[(0, 0), (1632, 1632)],
        cause: PageCause::Address,
    },
    Word {
        ranges: &[(0, 0), (530, 530)],
        cause: PageCause::Address,
    },
    Word {
        ranges: &[(0, 0), (4, 4)],
        cause: PageCause::Value,
    },
    ZERO,
];

#[test]
fn record(rt: HostRuntime) -> Result<(), Fail> {
    let mut image = [0u8; 64];
    let second = [
        4_921_945_407_791_255_640,
        4_294_967_297,
        0,
        624,
        1632,
        530,
        4,
        0,
    ];
    LittleEndian::write_u64_into(&second, &mut image);
    assert_eq!(rt; &image[..8], b"XPCSECND".as_slice());
    check::<RecordImage>(&rt, rt.alloc(), &RECORD, &mut image)
}

const ARGS: [Word; 4] = [
    Word {
        ranges: &[
            (0, 0),
            (65_536, 66_544),
            (131_072, 131_568),
            (196_608, 196_848),
            (262_144, 262_384),
            (327_680, 327_792),
            (393_216, 393_328),
            (458_752, 458_864),
            (524_288, 524_400),
        ],
        cause: PageCause::Length,
    },
    Word {
        ranges: &[(0, 0), (3536, 3536)],
        cause: PageCause::Address,
    },
    Word {
        ranges: &[(0, 15)],
        cause: PageCause::Reason,
    },
    ZERO,
];

#[test]
fn args(rt: HostRuntime) -> Result<(), Fail> {
    let mut image = [0u8; 32];
    LittleEndian::write_u64_into(&[262_256, 3536, 3, 0], &mut image);
    check::<ArgsImage>(&rt, rt.alloc(), &ARGS, &mut image)
}

#[test]
fn counters(rt: HostRuntime) -> Result<(), Fail> {
    let mut image = [0u8; 16];
    LittleEndian::write_u64_into(&[7, u64::MAX], &mut image);
    check::<CountersImage>(&rt, rt.alloc(), &[ANY, ANY], &mut image)
}

/// The words of an entry: its length with the mark, and any others.
fn entry_words() -> [Word; 16] {
    let mut words = [ANY; 16];
    words[0] = Word {
        ranges: &[(0, 0), (65_536, 65_648)],
        cause: PageCause::Length,
    };
    words
}

#[test]
fn entries(rt: HostRuntime) -> Result<(), Fail> {
    let mut image = [0u8; 128];
    LittleEndian::write_u64(&mut image[..8], 65_538);
    LittleEndian::write_u64(&mut image[16..24], 26_984);
    check::<EntryImage>(&rt, rt.alloc(), &entry_words(), &mut image)
}

/// The first of two partitions, its partner, and the first channel.
fn first() -> At
    ensures { result.offset ≡ 100 }
{
    At {
        offset: 100,
        owner: PartId::known(0),
        count: 2,
        partner: PartId::known(1),
        channel: Channel::known(0),
    }
}

/// The arguments for four entries of at most 112 bytes, with their fields.
#[test]
fn worked_arguments(rt: HostRuntime) {
    let mut bytes = [0u8; 32];
    LittleEndian::write_u64_into(&[262_256, 2640, 0, 0], &mut bytes);
    let args = ArgsImage {
        request: 262_256,
        reply: 2640,
        reason: 0,
        padding: 0,
    };
    assert!(rt; matches!(ArgsImage::read(&bytes, first()), Ok(found) if found == args));
}
