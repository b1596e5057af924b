// What two partitions know of each other by the words that they leave.
use std::process::Abort;
use xp_base::ids::PartId;
use xp_base::layout::{ENGAGED, PART_WORDS, SECOND, STAMP};
use xp_base::masks::contains;
use xp_base::places::record;
use xp_world::world::World;

/// A word of a partition, 0 beyond its words.
pub fn word_at(world: &World, part: u8, place: u32) -> u64 {
    let words = &world.words;
    if part < words.count() && part < 64 && place < PART_WORDS {
        words.at(PartId::known(part), place)
    } else {
        0
    }
}

/// A partition's record for another one: its magic, the own session and the echo of the other's.
#[derive(Clone, Copy, PartialEq)]
pub struct Record {
    pub magic: u64,
    pub session: u64,
    pub echo: u64,
}

pub fn record_of(world: &World, part: u8, partner: u8) -> Record {
    let partner = PartId::known(partner % 64);
    Record {
        magic: word_at(world, part, record(partner, 0)),
        session: word_at(world, part, record(partner, 1)),
        echo: word_at(world, part, record(partner, 2)),
    }
}

/// The word of a session.
pub fn session(stamp: u64, count: u64) -> u64 {
    stamp.wrapping_mul(4_294_967_296).wrapping_add(count)
}

/// Whether a partition's engagement word has the bit of another one.
pub fn has_engaged(world: &World, part: u8, partner: u8) -> bool {
    contains(word_at(world, part, ENGAGED), PartId::known(partner % 64))
}

/// Whether a partition has made contact with another one: it shows the second magic and a session of this boot, has the other's session as
/// echo, and its bit stands there.
fn has_contact(world: &World, part: u8, partner: u8) -> bool {
    let own = record_of(world, part, partner);
    let other = record_of(world, partner, part);
    own.magic == SECOND
        && own.echo == other.session
        && own.session >> 32 == word_at(world, part, STAMP)
        && has_engaged(world, partner, part)
}

/// Expects that two partitions are in contact with each other.
pub fn expect_contact(rt: &impl Abort, world: &World, part: u8, partner: u8, name: &str) {
    assert!(rt;
        has_contact(world, part, partner),
        "{name}: {part} with {partner}"
    );
    assert!(rt;
        has_contact(world, partner, part),
        "{name}: {partner} with {part}"
    );
}
