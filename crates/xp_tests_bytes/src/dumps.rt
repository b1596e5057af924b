// The dump of two partitions of which a channel is connected, in both layouts: its listing, in
// pieces of any length, and the text of a fault.
ghost use Rattle.std.specs.Prelude.{◌≡◌, ◌<◌, ◌≤◌, length};

use byteorder::{ByteOrder, LittleEndian};
use std::alloc::{AllocError, Global};
use std::process::Abort;
use std::test::Fail;
use xp_base::words::Words;
use xp_dump::{DumpFault, Reader, dump, listing};
use xp_page::{PageCause, PageFault};

/// A dump: how many bytes it has, and its words that aren't 0, by their number.
pub struct Sample {
    pub length: usize,
    pub words: &'static [(usize, u64)],
}

/// In the layout of eight partitions: header and count, then the words of partition 0 and those of
/// partition 1, which begin at word 5,914.
pub const OLDER: Sample = Sample {
    length: 94_608,
    words: &[
        (0, 3_544_421_199_813_824_600),
        (1, 2),
        (2, 3_550_322_227_096_539_224),
        (3, 49),
        (5, 8),
        (6, 1),
        (7, 3),
        (10, 1),
        (11, 2),
        (14, 2),
        (16, 16),
        (26, 4_921_945_407_791_255_640),
        (27, 4_294_967_297),
        (28, 4_294_967_297),
        (29, 104),
        (30, 224),
        (31, 81),
        (32, 4),
        (106, 262_256),
        (107, 792),
        (5914, 3_550_322_227_096_539_224),
        (5915, 49),
        (5916, 1),
        (5917, 8),
        (5918, 1),
        (5919, 3),
        (5922, 1),
        (5923, 1),
        (5926, 1),
        (5928, 16),
        (5930, 4_921_945_407_791_255_640),
        (5931, 4_294_967_297),
        (5932, 4_294_967_297),
        (5933, 88),
        (5934, 216),
        (5935, 80),
        (5936, 4),
        (6002, 262_256),
        (6003, 280),
    ],
};

/// In the layout of 64 partitions: the words of partition 1 begin at word 36,434.
pub const NEWER: Sample = Sample {
    length: 582_928,
    words: &[
        (0, 3_616_478_793_851_752_536),
        (1, 2),
        (2, 3_550_322_227_096_539_224),
        (3, 49),
        (5, 8),
        (6, 1),
        (7, 3),
        (10, 1),
        (11, 2),
        (14, 2),
        (16, 16),
        (26, 4_921_945_407_791_255_640),
        (27, 4_294_967_297),
        (28, 4_294_967_297),
        (29, 608),
        (30, 1624),
        (31, 529),
        (32, 4),
        (610, 262_256),
        (611, 2640),
        (36_434, 3_550_322_227_096_539_224),
        (36_435, 49),
        (36_436, 1),
        (36_437, 8),
        (36_438, 1),
        (36_439, 3),
        (36_442, 1),
        (36_443, 1),
        (36_446, 1),
        (36_448, 16),
        (36_450, 4_921_945_407_791_255_640),
        (36_451, 4_294_967_297),
        (36_452, 4_294_967_297),
        (36_453, 592),
        (36_454, 1616),
        (36_455, 528),
        (36_456, 4),
        (37_026, 262_256),
        (37_027, 2128),
    ],
};

/// The listing of both.
const LISTING: &str = "listing 1
partition 0 version 3.1 stamp 1 partitions 3
  vars beat 1 mask 2 offline 0 activation 0 engaged 2 deactivate 0
  record 1 second session 1.1 echo 1.1
  args 1 0 entries 4 limit 112 queue 2640 reason 0
partition 1 version 3.1 stamp 1 partitions 3
  vars beat 1 mask 1 offline 0 activation 0 engaged 1 deactivate 0
  record 0 second session 1.1 echo 1.1
  args 0 0 entries 4 limit 112 queue 2128 reason 0
";

/// Word `number` of some bytes, 0 where they haven't got it.
pub fn word_of(bytes: &[u8], number: usize) -> u64 {
    if number < bytes.len() / 8 {
        LittleEndian::read_u64(&bytes[8 * number..8 * number + 8])
    } else {
        0
    }
}

pub fn put(bytes: &mut [u8], number: usize, word: u64)
    ensures { length bytes.new ≡ length bytes.old }
{
    if number < bytes.len() / 8 {
        LittleEndian::write_u64(&mut bytes[8 * number..8 * number + 8], word);
    }
}

pub fn bytes_of(alloc: Global, sample: &Sample) -> Result<Vec<u8>, AllocError> {
    let mut bytes = vec![in alloc; 0u8; sample.length]?;
    for (number, word) in sample.words {
        put(&mut bytes, *number, *word);
    }
    Ok(bytes)
}

/// What a reader makes of these bytes in pieces of `size` bytes.
pub fn read(alloc: Global, bytes: &[u8], size: usize) -> Result<Words, DumpFault>
    requires { 0 < size }
{
    let mut reader = match Reader::new(alloc) {
        Ok(reader) => reader,
        Err(_) => return Err(DumpFault::Memory),
    };
    let mut left = bytes;
    while !left.is_empty() {
        let n = left.len().min(size);
        reader.feed(&left[..n])?;
        left = &left[n..];
    }
    reader.finish()
}

/// The offset of a fault and its cause, which a byte behind the dump hasn't got.
pub type Place = (u64, Option<PageCause>);

/// The place of the fault of these bytes in pieces of `size` bytes; none where they are a dump.
pub fn fault_of(alloc: Global, bytes: &[u8], size: usize) -> Option<Place>
    requires { 0 < size }
{
    match read(alloc, bytes, size) {
        Ok(_) => None,
        Err(DumpFault::Page(PageFault { offset, cause })) => Some((offset, Some(cause))),
        Err(DumpFault::Trailing { offset }) => Some((offset, None)),
        Err(DumpFault::Memory) => Some((u64::MAX, None)),
    }
}

/// How many bytes a piece has.
const PIECES: [usize; 3] = [1, 7, 4096];

/// The dump is listed so, in pieces of each length.
fn is_listed_in_pieces(
    rt: &impl Abort,
    alloc: Global,
    bytes: &[u8],
    wanted: &str,
) -> Result<(), Fail> {
    for size in &PIECES {
        if *size > 0 {
            let words = read(alloc, bytes, *size)?;
            let text = listing(alloc, &words)?;
            assert!(rt; text.as_slice() == wanted.as_bytes(), "by {size} bytes");
        }
    }
    Ok(())
}

#[test]
fn listed_in_pieces(rt: HostRuntime) -> Result<(), Fail> {
    for sample in [&OLDER, &NEWER] {
        let bytes = bytes_of(rt.alloc(), sample)?;
        is_listed_in_pieces(&rt, rt.alloc(), &bytes, LISTING)?;
    }
    Ok(())
}

/// Partition 1 has minor version 2, and partition 0 has set three flags there: the version word and the flag word of each
/// layout, by their numbers.
const FLAGGED: [(&Sample, usize, usize); 2] = [(&OLDER, 5915, 5994), (&NEWER, 36_435, 36_962)];

/// The listing of both.
const FLAGGED_LISTING: &str = "listing 1
partition 0 version 3.1 stamp 1 partitions 3
  vars beat 1 mask 2 offline 0 activation 0 engaged 2 deactivate 0
  record 1 second session 1.1 echo 1.1
  args 1 0 entries 4 limit 112 queue 2640 reason 0
partition 1 version 3.2 stamp 1 partitions 3
  vars beat 1 mask 1 offline 0 activation 0 engaged 1 deactivate 0
  record 0 second session 1.1 echo 1.1
  flags 0 0 closerequest closereply openrequest
  args 0 0 entries 4 limit 112 queue 2128 reason 0
";

#[test]
fn flags_listed_in_pieces(rt: HostRuntime) -> Result<(), Fail> {
    for (sample, version, flags) in FLAGGED {
        let mut bytes = bytes_of(rt.alloc(), sample)?;
        put(&mut bytes, version, 50);
        put(&mut bytes, flags, 7);
        is_listed_in_pieces(&rt, rt.alloc(), &bytes, FLAGGED_LISTING)?;
    }
    Ok(())
}

/// The first nine bytes, one byte more, and another owner, in pieces.
fn is_refused_in_pieces(rt: &impl Abort, alloc: Global, size: usize) -> Result<(), AllocError>
    requires { 0 < size }
{
    let mut bytes = bytes_of(alloc, &NEWER)?;
    let cut = &bytes[..bytes.len().min(9)];
    assert!(rt; fault_of(alloc, cut, size) == Some((9, Some(PageCause::Truncated))));
    bytes.push(0)?;
    assert!(rt; fault_of(alloc, &bytes, size) == Some((582_928, None)));
    put(&mut bytes, 4, 7);
    assert!(rt; fault_of(alloc, &bytes, size) == Some((32, Some(PageCause::Value))));
    Ok(())
}

#[test]
fn refused_in_pieces(rt: HostRuntime) -> Result<(), Fail> {
    is_refused_in_pieces(&rt, rt.alloc(), 1)?;
    is_refused_in_pieces(&rt, rt.alloc(), 7)?;
    is_refused_in_pieces(&rt, rt.alloc(), 4096)?;
    Ok(())
}

/// The words of the older dump are written as the newer one.
#[test]
fn dumped(rt: HostRuntime) -> Result<(), Fail> {
    let older = bytes_of(rt.alloc(), &OLDER)?;
    let words = read(rt.alloc(), &older, 4096)?;
    let bytes = dump(rt.alloc(), &words)?;
    let newer = bytes_of(rt.alloc(), &NEWER)?;
    assert!(rt; bytes.as_slice() == newer.as_slice());
    assert!(rt; bytes.as_slice().starts_with(b"XPDUMP02"));
    Ok(())
}

#[test]
fn texts(rt: HostRuntime) -> Result<(), Fail> {
    let cut = DumpFault::Page(PageFault {
        offset: 9,
        cause: PageCause::Truncated,
    });
    let text = format!(in rt.alloc(); "{cut}")?;
    assert_eq!(rt; text.as_str(), "offset 9: truncated");
    let past = DumpFault::Trailing { offset: 94_608 };
    let text = format!(in rt.alloc(); "{past}")?;
    assert_eq!(rt; text.as_str(), "offset 94608: trailing");
    Ok(())
}
