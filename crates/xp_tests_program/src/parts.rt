// What three partitions open with, and what one of them is told of the scenario.
use crate::tables::{Joined, scenario};
use std::alloc::{AllocError, Global};
use std::process::Abort;
use std::test::Fail;
use xp_base::ids::{Channel, PartId};
use xp_base::layout::{
    BEAT, ENGAGED, MASK, PART_AT, PART_WORDS, PARTS_MASK_AT, RECORDS_PLACE_AT, SIGNATURE_AT, STAMP,
    VARIABLES_PLACE_AT, VERSION_AT,
};
use xp_base::places::{args, counters, record};
use xp_base::step::CopyKind;
use xp_base::words::Words;
use xp_lawful::lawful::is_lawful;
use xp_script::part::Link;
use xp_script::scenario::Scenario;
use xp_script::setting::Fault;

/// Partitions 0 and 1 are joined on channel 0, and 2 and 1 on channel 3.
fn three(rt: &impl Abort, alloc: Global) -> Result<Scenario, AllocError> {
    let joins = [Joined(2, 1, 3, 1), Joined(0, 1, 0, 4)];
    scenario(rt, alloc, &joins, &[&[], &[], &[]], 1)
}

/// A word of a partition, 0 beyond its words.
pub fn word_at(words: &Words, part: u8, place: u32) -> u64 {
    if part < words.count() && part < 64 && place < PART_WORDS {
        words.at(PartId::known(part), place)
    } else {
        0
    }
}

/// Words of the pages and of the variables.
const PAGES: [(u8, u32, u64); 10] = [
    (0, SIGNATURE_AT, 0x3145_4741_5043_5058),
    (1, VERSION_AT, 49),
    (2, PART_AT, 2),
    (0, VARIABLES_PLACE_AT, 8),
    (1, STAMP, 1),
    (2, PARTS_MASK_AT, 7),
    (0, BEAT, 1),
    (0, MASK, 2),
    (1, ENGAGED, 5),
    (2, RECORDS_PLACE_AT, 16),
];

fn expect_words(rt: &impl Abort, words: &Words, expected: &[(u8, u32, u64)]) {
    for (part, place, word) in expected {
        assert_eq!(rt;
            word_at(words, *part, *place),
            *word,
            "word {place} of {part}"
        );
    }
}

/// The record that partition 0 keeps for partition 1.
fn expect_record(rt: &impl Abort, words: &Words) {
    let partner = PartId::known(1);
    let rows = [
        (0, record(partner, 0), 0x444e_4345_5343_5058),
        (0, record(partner, 1), 0x0000_0001_0000_0001),
        (0, record(partner, 2), 0x0000_0001_0000_0001),
        (0, record(partner, 3), 608),
        (0, record(partner, 4), 1_624),
        (0, record(partner, 5), 529),
        (0, record(partner, 6), 4),
        (0, counters(partner, Channel::known(0), 0), 0),
    ];
    expect_words(rt, words, &rows);
}

/// The requests and replies of both channels.
fn expect_requests(rt: &impl Abort, words: &Words) {
    let (first, last) = (Channel::known(0), Channel::known(3));
    let (zero, one, two) = (PartId::known(0), PartId::known(1), PartId::known(2));
    let rows = [
        (0, args(one, first, 0), 262_256),
        (0, args(one, first, 1), 2_640),
        (1, args(zero, first, 0), 262_256),
        (1, args(zero, first, 1), 2_128),
        (1, args(two, last, 0), 65_648),
        (1, args(two, last, 1), 3_536),
        (2, args(one, last, 1), 3_024),
        (2, args(one, first, 0), 0),
    ];
    expect_words(rt, words, &rows);
}

#[test]
fn opening_of_two_channels(rt: HostRuntime) -> Result<(), Fail> {
    let scenario = three(&rt, rt.alloc())?;
    assert!(rt; is_lawful(&scenario));
    let words = scenario.opening(rt.alloc())?;
    expect_words(&rt, &words, &PAGES);
    expect_record(&rt, &words);
    expect_requests(&rt, &words);
    Ok(())
}

/// The partner, the channel and the size of a link.
fn link_row(link: &Link) -> (u8, u8, u8, u16) {
    (
        link.partner.get(),
        link.channel.get(),
        link.entries,
        link.limit,
    )
}

fn expect_links(rt: &impl Abort, links: &[Link]) {
    assert_eq!(rt; links.len(), 2);
    assert_eq!(rt; link_row(&links[0]), (0, 0, 4, 112));
    assert_eq!(rt; link_row(&links[1]), (2, 3, 1, 112));
}

fn expect_faults(rt: &impl Abort, faults: &[Fault]) {
    assert_eq!(rt; faults.len(), 1);
    assert!(rt; faults[0].part.get() == 1 && faults[0].kind == CopyKind::Buffer);
}

fn fault(part: u8, kind: CopyKind) -> Fault {
    Fault {
        part: PartId::known(part % 64),
        kind,
        copy: 1,
        load: 0,
    }
}

/// Partition 1 is told of both channels, and of its own fault alone.
#[test]
fn part_of_the_middle(rt: HostRuntime) -> Result<(), Fail> {
    let mut scenario = three(&rt, rt.alloc())?;
    scenario.faults.list.push(fault(2, CopyKind::Get))?;
    scenario.faults.list.push(fault(1, CopyKind::Buffer))?;
    assert!(rt; is_lawful(&scenario) && scenario.count.get() == 3);
    let told = scenario.part(rt.alloc(), PartId::known(1))?;
    expect_links(&rt, &told.links.list);
    expect_faults(&rt, &told.faults.list);
    Ok(())
}
