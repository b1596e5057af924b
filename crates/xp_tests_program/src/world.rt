// Three partitions of which one sends a message to another one: the words that it leaves, and a
// load that fails.
use crate::parts::word_at;
use crate::tables::{Joined, Line, scenario};
use std::alloc::{AllocError, Global};
use std::process::Abort;
use std::test::Fail;
use xp_base::ids::{Channel, PartId};
use xp_base::places::{counters, entry, flag_word};
use xp_base::step::CopyKind;
use xp_base::words::Words;
use xp_lawful::built::is_built;
use xp_lawful::lawful::is_lawful;
use xp_script::scenario::Scenario;
use xp_script::schedule::{Plan, Schedule};
use xp_script::setting::Fault;
use xp_world::world::World;

/// Partitions 0 and 1 are joined on channel 0, and 2 and 1 on channel 3. Partition 0 sends
/// two bytes, which partition 1 takes and releases. A load of this partition fails; there are
/// 100 rounds in three lines.
fn three(rt: &impl Abort, alloc: Global, part: u8, kind: CopyKind) -> Result<Scenario, AllocError> {
    let scripts: [&[Line]; 3] = [
        &[Line::Send(1, 0, b"hi")],
        &[Line::Take(0, 0), Line::Release(0, 0, 0)],
        &[],
    ];
    let joins = [Joined(2, 1, 3, 1), Joined(0, 1, 0, 4)];
    let mut scenario = scenario(rt, alloc, &joins, &scripts, 1)?;
    let plans = vec![in alloc; Plan::Rounds(1), Plan::Rounds(0), Plan::Rounds(99)]?;
    scenario.schedule = Some(Schedule { list: plans });
    scenario.faults.list.push(Fault {
        part: PartId::known(part % 8),
        kind,
        copy: 1,
        load: 0,
    })?;
    Ok(scenario)
}

/// The entry that partition 0 wrote for partition 1.
fn expect_entry(rt: &impl Abort, words: &Words) {
    for (field, word) in [(0u32, 65_538u64), (1, 0), (2, 0x6968), (3, 0)] {
        let place = entry(PartId::known(1), Channel::known(0), 0, field);
        assert_eq!(rt; word_at(words, 0, place), word, "word {field}");
    }
}

/// The get and the put of partitions 0 and 1 for each other.
fn expect_counters(rt: &impl Abort, words: &Words) {
    let channel = Channel::known(0);
    for (part, partner, get, put) in [(0u8, 1u8, 0u64, 1u64), (1, 0, 1, 0)] {
        let partner = PartId::known(partner % 8);
        let own_get = word_at(words, part, counters(partner, channel, 0));
        let own_put = word_at(words, part, counters(partner, channel, 1));
        assert_eq!(rt; (own_get, own_put), (get, put), "partition {part}");
    }
}

/// Partition 1 has taken the request that a message was put; partition 0 had ended when
/// it was told of the get.
fn expect_flags(rt: &impl Abort, words: &Words) {
    for (part, partner, word) in [(1u8, 0u8, 0u64), (0, 1, 32), (1, 2, 0)] {
        let place = flag_word(PartId::known(partner));
        assert_eq!(rt; word_at(words, part, place), word, "of {partner} at {part}");
    }
}

/// A fault of a partition that makes no such load changes nothing.
#[test]
fn replay_of_one_message(rt: HostRuntime) -> Result<(), Fail> {
    let scenario = three(&rt, rt.alloc(), 2, CopyKind::Get)?;
    assert!(rt; is_lawful(&scenario) && is_built(&scenario));
    let world = World::replay(rt.alloc(), &scenario)?;
    expect_entry(&rt, &world.words);
    expect_counters(&rt, &world.words);
    expect_flags(&rt, &world.words);
    Ok(())
}

/// Where the load of the first entry fails, nothing is taken, and no get is stored.
#[test]
fn replay_with_a_failed_load(rt: HostRuntime) -> Result<(), Fail> {
    let scenario = three(&rt, rt.alloc(), 1, CopyKind::Entries)?;
    assert!(rt; is_lawful(&scenario) && is_built(&scenario));
    let world = World::replay(rt.alloc(), &scenario)?;
    expect_entry(&rt, &world.words);
    let get = counters(PartId::known(0), Channel::known(0), 0);
    assert_eq!(rt; word_at(&world.words, 1, get), 0);
    Ok(())
}
