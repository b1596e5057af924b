// Broken and hostile dumps, each with its fault: it is the same in pieces of 1 byte and of 64. What
// is wanted stands in the tables, or is told by the rule of the test; it is never what the reader
// answered.
ghost use Rattle.std.specs.Prelude.{◌≡◌, ◌<◌, ◌≤◌, length};

use crate::dumps::{NEWER, OLDER, Place, Sample, bytes_of, fault_of, put, word_of};
use byteorder::{ByteOrder, LittleEndian};
use std::alloc::{AllocError, Global};
use std::process::Abort;
use std::test::Fail;
use xp_dump::{DumpFault, Reader};
use xp_page::{PageCause, PageFault};

fn is_answered(rt: &impl Abort, alloc: Global, bytes: &[u8], wanted: Option<Place>, row: u64) {
    assert!(rt;
        fault_of(alloc, bytes, 1) == wanted,
        "row {row}, bytes one by one"
    );
    assert!(rt;
        fault_of(alloc, bytes, 64) == wanted,
        "row {row}, by 64 bytes"
    );
}

/// Cut at each length to 200, one byte short, one byte long.
fn are_lengths_told(rt: &impl Abort, alloc: Global, sample: &Sample) -> Result<(), AllocError> {
    let mut bytes = bytes_of(alloc, sample)?;
    let length = bytes.len();
    for cut in 0..201usize {
        let wanted = Some((cut as u64, Some(PageCause::Truncated)));
        is_answered(rt, alloc, &bytes[..cut.min(length)], wanted, cut as u64);
    }
    let short = length.saturating_sub(1);
    let wanted = Some((short as u64, Some(PageCause::Truncated)));
    is_answered(rt, alloc, &bytes[..short], wanted, short as u64);
    is_answered(rt, alloc, &bytes, None, length as u64);
    bytes.push(255)?;
    is_answered(
        rt,
        alloc,
        &bytes,
        Some((length as u64, None)),
        length as u64,
    );
    Ok(())
}

#[test]
fn lengths(rt: HostRuntime) -> Result<(), Fail> {
    are_lengths_told(&rt, rt.alloc(), &OLDER)?;
    are_lengths_told(&rt, rt.alloc(), &NEWER)?;
    Ok(())
}

/// Which bytes of the first 128 may not be 255, and the cause; the others may.
const FIRST_BYTES: [(usize, usize, Option<PageCause>); 14] = [
    (0, 8, Some(PageCause::Signature)),
    (8, 16, Some(PageCause::Value)),
    (16, 24, Some(PageCause::Signature)),
    (24, 32, Some(PageCause::Version)),
    (32, 40, Some(PageCause::Value)),
    (40, 48, Some(PageCause::Address)),
    // The boot stamp is any number of 32 bits.
    (48, 52, None),
    (52, 56, Some(PageCause::Value)),
    (56, 64, Some(PageCause::Mask)),
    (64, 80, Some(PageCause::Value)),
    (80, 88, None),
    (88, 96, Some(PageCause::Mask)),
    (96, 104, None),
    (104, 128, Some(PageCause::Mask)),
];

/// The first 17 words are given, so that a byte that is allowed leaves them cut.
fn are_first_bytes_told(rt: &impl Abort, alloc: Global, sample: &Sample) -> Result<(), AllocError> {
    let mut bytes = bytes_of(alloc, sample)?;
    let length = bytes.len().min(136);
    let front = &mut bytes[..length];
    for (first, end, cause) in &FIRST_BYTES {
        for place in *first..*end {
            if place < front.len() {
                let before = front[place];
                front[place] = 255;
                let wanted = match cause {
                    Some(cause) => (place as u64 / 8 * 8, Some(*cause)),
                    None => (136, Some(PageCause::Truncated)),
                };
                is_answered(rt, alloc, front, Some(wanted), place as u64);
                front[place] = before;
            }
        }
    }
    Ok(())
}

#[test]
fn first_bytes(rt: HostRuntime) -> Result<(), Fail> {
    are_first_bytes_told(&rt, rt.alloc(), &OLDER)?;
    are_first_bytes_told(&rt, rt.alloc(), &NEWER)?;
    Ok(())
}

/// The number of a word, the cause why none of some words may stand there, and these words; without
/// a cause each of them may.
type Row = (usize, Option<PageCause>, &'static [u64]);

/// The page and the variables of partition 0 and the record for its partner, but for the places
/// that the record names: they are the same in both layouts.
const SAME_ROWS: [Row; 32] = [
    (
        2,
        Some(PageCause::Signature),
        &[3_550_322_227_096_539_223, 3_550_322_227_096_539_225, 0],
    ),
    (3, None, &[48, 50, 63]),
    (3, Some(PageCause::Version), &[0, 47, 64, u64::MAX]),
    (4, Some(PageCause::Value), &[1, 2, u64::MAX]),
    (5, Some(PageCause::Address), &[0, 7, 9, 16]),
    (6, None, &[0, 4_294_967_295]),
    (6, Some(PageCause::Value), &[4_294_967_296, u64::MAX]),
    (7, Some(PageCause::Mask), &[0, 1, 2, 4, 7, u64::MAX]),
    (8, Some(PageCause::Value), &[1, u64::MAX]),
    (9, Some(PageCause::Value), &[1, u64::MAX]),
    (10, None, &[0, u64::MAX]),
    (11, None, &[0, 2]),
    (11, Some(PageCause::Mask), &[1, 3, 4, u64::MAX]),
    (12, None, &[0, u64::MAX]),
    (13, None, &[0, 2]),
    (13, Some(PageCause::Mask), &[1, 3, 4, u64::MAX]),
    (14, None, &[0, 2]),
    (14, Some(PageCause::Mask), &[1, 3, 4, u64::MAX]),
    (15, None, &[0, 2]),
    (15, Some(PageCause::Mask), &[1, 3, 4, u64::MAX]),
    (16, Some(PageCause::Address), &[0, 15, 17]),
    (17, Some(PageCause::Value), &[1, u64::MAX]),
    (26, None, &[0, 6_076_290_796_917_837_912]),
    (
        26,
        Some(PageCause::Magic),
        &[1, 6_076_290_796_917_837_913, 4_921_945_407_791_255_641],
    ),
    (27, None, &[0, u64::MAX]),
    (28, None, &[0, u64::MAX]),
    (29, None, &[0]),
    (30, None, &[0]),
    (31, None, &[0]),
    (32, None, &[0]),
    (32, Some(PageCause::Value), &[1, 3, 5, u64::MAX]),
    (33, Some(PageCause::Value), &[1, u64::MAX]),
];

/// Flag words with one bit too many.
const SPARE: [u64; 10] = [
    1 << 6,
    1 << 7,
    1 << 14,
    1 << 15,
    1 << 22,
    1 << 23,
    1 << 30,
    1 << 31,
    1 << 32,
    1 << 63,
];

const OLDER_ROWS: [Row; 28] = [
    (
        0,
        Some(PageCause::Signature),
        &[0, 3_544_421_199_813_824_601],
    ),
    (1, Some(PageCause::Value), &[0, 1, 9, 64, 65, u64::MAX]),
    (29, Some(PageCause::Address), &[103, 105, 88, 608]),
    (30, Some(PageCause::Address), &[223, 225, 216, 1624]),
    (31, Some(PageCause::Address), &[80, 82, 529]),
    // The record for the last partner that there is room for, which the machine hasn't got.
    (74, Some(PageCause::Magic), &[1]),
    (77, None, &[200]),
    (77, Some(PageCause::Address), &[199, 201]),
    (83, None, &[0, 0x3f3f_3f3f]),
    (83, Some(PageCause::FlagBits), &SPARE),
    (89, Some(PageCause::FlagBits), &SPARE),
    (
        106,
        None,
        &[
            0, 65_536, 65_648, 131_184, 196_720, 327_792, 393_328, 458_864, 524_400,
        ],
    ),
    (
        106,
        Some(PageCause::Length),
        &[1, 112, 65_535, 65_649, 131_185, 196_721, 262_257, 327_793],
    ),
    (
        106,
        Some(PageCause::Length),
        &[393_329, 458_865, 524_401, 589_824, 66_544, u64::MAX],
    ),
    (107, None, &[0]),
    (107, Some(PageCause::Address), &[791, 793, 280, 2640]),
    (108, None, &[15]),
    (108, Some(PageCause::Reason), &[16, u64::MAX]),
    (109, Some(PageCause::Value), &[1, u64::MAX]),
    (226, None, &[u64::MAX]),
    (227, None, &[u64::MAX]),
    (794, None, &[65_536, 65_648]),
    (794, Some(PageCause::Length), &[1, 65_535, 65_649, u64::MAX]),
    (795, None, &[u64::MAX]),
    (810, Some(PageCause::Length), &[1, 65_535, 65_649, u64::MAX]),
    (
        4362,
        Some(PageCause::Length),
        &[1, 65_535, 65_649, u64::MAX],
    ),
    (5913, None, &[u64::MAX]),
    // The second partition: its own bit.
    (5923, Some(PageCause::Mask), &[2, 3, 4]),
];

const NEWER_ROWS: [Row; 28] = [
    (
        0,
        Some(PageCause::Signature),
        &[0, 3_616_478_793_851_752_537],
    ),
    (1, Some(PageCause::Value), &[0, 1, 65, u64::MAX]),
    (29, Some(PageCause::Address), &[607, 609, 592, 104]),
    (30, Some(PageCause::Address), &[1623, 1625, 1616, 224]),
    (31, Some(PageCause::Address), &[528, 530, 81]),
    // The record for the last partner that there is room for, which the machine hasn't got.
    (522, Some(PageCause::Magic), &[1]),
    (525, None, &[1600]),
    (525, Some(PageCause::Address), &[1599, 1601]),
    (531, None, &[0, 0x3f3f_3f3f]),
    (531, Some(PageCause::FlagBits), &SPARE),
    (593, Some(PageCause::FlagBits), &SPARE),
    (
        610,
        None,
        &[
            0, 65_536, 66_544, 131_568, 196_848, 262_384, 327_792, 393_328, 524_400,
        ],
    ),
    (
        610,
        Some(PageCause::Length),
        &[1, 112, 65_535, 66_545, 131_569, 196_849, 262_385, 327_793],
    ),
    (
        610,
        Some(PageCause::Length),
        &[393_329, 458_865, 524_401, 589_824, u64::MAX],
    ),
    (611, None, &[0]),
    (611, Some(PageCause::Address), &[2639, 2641, 2128, 792]),
    (612, None, &[15]),
    (612, Some(PageCause::Reason), &[16, u64::MAX]),
    (613, Some(PageCause::Value), &[1, u64::MAX]),
    (1626, None, &[u64::MAX]),
    (1627, None, &[u64::MAX]),
    (2642, None, &[65_536, 65_648]),
    (
        2642,
        Some(PageCause::Length),
        &[1, 65_535, 65_649, u64::MAX],
    ),
    (2643, None, &[u64::MAX]),
    (
        2658,
        Some(PageCause::Length),
        &[1, 65_535, 65_649, u64::MAX],
    ),
    (
        34_882,
        Some(PageCause::Length),
        &[1, 65_535, 65_649, u64::MAX],
    ),
    (36_433, None, &[u64::MAX]),
    // The second partition: its own bit.
    (36_443, Some(PageCause::Mask), &[2, 3, 4]),
];

/// In a partition of version 3.2 entries of several lines aren't tested.
const LINES_ROWS: [Row; 3] = [
    (2642, None, &[1, 65_535, 65_649, u64::MAX]),
    (2658, None, &[1, 65_535, 65_649, u64::MAX]),
    (610, Some(PageCause::Length), &[66_545, 131_569]),
];

/// In the older layout entries have one line in every version.
const OLDER_LINES_ROWS: [Row; 2] = [
    (794, Some(PageCause::Length), &[1, 65_535, 65_649]),
    (106, Some(PageCause::Length), &[66_544, 131_185]),
];

/// Only the words up to this one are given, so that those that are allowed are cut behind it.
fn is_row_told(rt: &impl Abort, alloc: Global, bytes: &mut [u8], row: &Row) {
    let (number, cause, words) = *row;
    let before = word_of(bytes, number);
    let start = 8u64.wrapping_mul(number as u64);
    let end = start.wrapping_add(8);
    let wanted = match cause {
        Some(cause) => (start, Some(cause)),
        None => (end, Some(PageCause::Truncated)),
    };
    for word in words {
        put(bytes, number, *word);
        let given = &bytes[..bytes.len().min(end as usize)];
        is_answered(rt, alloc, given, Some(wanted), number as u64);
    }
    put(bytes, number, before);
}

fn are_rows_told(
    rt: &impl Abort,
    alloc: Global,
    sample: &Sample,
    version: u64,
    rows: &[Row],
) -> Result<(), AllocError> {
    let mut bytes = bytes_of(alloc, sample)?;
    put(&mut bytes, 3, version);
    for row in rows {
        is_row_told(rt, alloc, &mut bytes, row);
    }
    Ok(())
}

#[test]
fn older_words(rt: HostRuntime) -> Result<(), Fail> {
    are_rows_told(&rt, rt.alloc(), &OLDER, 49, &SAME_ROWS)?;
    are_rows_told(&rt, rt.alloc(), &OLDER, 49, &OLDER_ROWS)?;
    are_rows_told(&rt, rt.alloc(), &OLDER, 50, &OLDER_LINES_ROWS)?;
    Ok(())
}

#[test]
fn newer_words(rt: HostRuntime) -> Result<(), Fail> {
    are_rows_told(&rt, rt.alloc(), &NEWER, 49, &SAME_ROWS)?;
    are_rows_told(&rt, rt.alloc(), &NEWER, 49, &NEWER_ROWS)?;
    are_rows_told(&rt, rt.alloc(), &NEWER, 50, &LINES_ROWS)?;
    Ok(())
}

/// The counts of partitions that a header may have, in the older layout and in the newer one.
const COUNTS: [(u64, bool, bool); 7] = [
    (0, false, false),
    (1, false, false),
    (8, true, true),
    (9, false, true),
    (64, false, true),
    (65, false, false),
    (u64::MAX, false, false),
];

/// A header with a count and nothing behind it.
fn is_count_told(rt: &impl Abort, alloc: Global, sample: &Sample, count: u64, may_be: bool) {
    let mut bytes = [0u8; 16];
    if let Some((_, header)) = sample.words.first() {
        LittleEndian::write_u64(&mut bytes[..8], *header);
    }
    LittleEndian::write_u64(&mut bytes[8..], count);
    let wanted = if may_be {
        (16, Some(PageCause::Truncated))
    } else {
        (8, Some(PageCause::Value))
    };
    is_answered(rt, alloc, &bytes, Some(wanted), count);
}

#[test]
fn counts(rt: HostRuntime) {
    for (count, in_older, in_newer) in &COUNTS {
        is_count_told(&rt, rt.alloc(), &OLDER, *count, *in_older);
        is_count_told(&rt, rt.alloc(), &NEWER, *count, *in_newer);
    }
}

fn is_no_signature(fault: DumpFault) -> bool {
    match fault {
        DumpFault::Page(PageFault { offset, cause }) => {
            offset == 0 && cause == PageCause::Signature
        }
        _ => false,
    }
}

/// Zeros are refused as soon as their first word is whole.
#[test]
fn zeros_in_pieces(rt: HostRuntime) {
    for (count, wanted) in [
        (0usize, (0, PageCause::Truncated)),
        (7, (7, PageCause::Truncated)),
        (8, (0, PageCause::Signature)),
        (4096, (0, PageCause::Signature)),
    ] {
        let zeros = [0u8; 4096];
        let wanted = Some((wanted.0, Some(wanted.1)));
        is_answered(
            &rt,
            rt.alloc(),
            &zeros[..count.min(4096)],
            wanted,
            count as u64,
        );
    }
}

/// Endless zeros, and a dump behind them: the first fault is told again, whatever comes.
#[test]
fn zeros(rt: HostRuntime) -> Result<(), Fail> {
    let bytes = bytes_of(rt.alloc(), &OLDER)?;
    let mut reader = Reader::new(rt.alloc())?;
    for _ in 0..1000u32 {
        match reader.feed(&[0u8; 4096]) {
            Ok(()) => assert!(rt; false, "zeros are taken"),
            Err(fault) => assert!(rt; is_no_signature(fault)),
        }
    }
    match reader.feed(&bytes) {
        Ok(()) => assert!(rt; false, "the fault is forgotten"),
        Err(fault) => assert!(rt; is_no_signature(fault)),
    }
    match reader.finish() {
        Ok(_) => assert!(rt; false, "the fault is forgotten at the end"),
        Err(fault) => assert!(rt; is_no_signature(fault)),
    }
    Ok(())
}
