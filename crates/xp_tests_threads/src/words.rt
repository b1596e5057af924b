// The words that partitions leave over shared memory, and over plain memory.
use crate::gates::InRounds;
use std::test::Fail;
use xp_scenario::text::parse;
use xp_threads::run::run_threads;
use xp_world::world::World;

const ONE_MESSAGE: &[u8] = b"xpsim 1
partitions 2
warm 0 1 0 entries 4 limit 112
script 0
send 1 0 6869
idle 500
script 1
take 0 0
release 0 0 0
idle 500
schedule
rounds 20000
";

/// The turns of a replay, made over shared words by two threads, leave the same words. A gate isn't
/// passed after the last turn; that one changes no word, since each partition ends by being idle.
#[test]
fn shared_words_are_those_of_a_replay(rt: HostRuntime) -> Result<(), Fail> {
    let Ok(scenario) = parse(rt.alloc(), ONE_MESSAGE) else {
        panic!(rt; "it is no scenario");
    };
    let replayed = World::replay(rt.alloc(), &scenario)?;
    let [first, second] = replayed.nodes.as_slice() else {
        panic!(rt; "there are other partitions");
    };
    let gate = InRounds::new([first.turns(), second.turns()], 100_000_000);
    let ran = run_threads(&rt, rt.alloc(), &scenario, &gate)?;
    assert!(rt; ran.words.flat() == replayed.words.flat());
    Ok(())
}
