// What a node tells of its turns: of a first turn by itself, and of both partitions of a
// message after the replay.
ghost use Rattle.std.specs.Prelude.{◌≡◌};
ghost use Rattle.xp_protocol.specs.Runs.{is_failed};
ghost use Rattle.xp_protocol.specs.Parts.{fails_at};

use crate::tables::{Joined, Line, scenario};
use std::alloc::{AllocError, Global};
use std::process::Abort;
use std::test::Fail;
use xp_base::ids::PartId;
use xp_base::layout::BEAT;
use xp_base::step::{Answer, OpKind, Step, Wanted};
use xp_lawful::built::is_built;
use xp_lawful::lawful::is_lawful;
use xp_node::node::Node;
use xp_script::scenario::Scenario;
use xp_world::world::World;

/// Partition 0 sends two bytes, which partition 1 takes and releases.
fn one_message(rt: &impl Abort, alloc: Global) -> Result<Scenario, AllocError> {
    let scripts: [&[Line]; 2] = [
        &[Line::Send(1, 0, b"hi")],
        &[Line::Take(0, 0), Line::Release(0, 0, 0)],
    ];
    scenario(rt, alloc, &[Joined(0, 1, 0, 4)], &scripts, 100)
}

/// How many steps store, but for those of the own heartbeat, or set bits.
fn counted(trace: &[Step]) -> (u64, u64) {
    let mut stores: u64 = 0;
    let mut sets: u64 = 0;
    for step in trace {
        match step.op.kind {
            OpKind::Store(_) if step.op.index != BEAT => stores = stores.saturating_add(1),
            OpKind::Or(_) => sets = sets.saturating_add(1),
            _ => (),
        }
    }
    (stores, sets)
}

fn expect_part(rt: &impl Abort, node: &Node, part: u8) {
    assert_eq!(rt; node.part(), part);
    assert_eq!(rt; (node.boots(), node.pool()), (1, 0));
    assert_eq!(rt; node.budget(), 1_000_000);
}

/// A node's steps that store and that set bits, and the entries of its log.
fn expect_turns(rt: &impl Abort, node: &Node, steps: (u64, u64), entries: usize) {
    assert_eq!(rt; counted(node.trace()), steps);
    assert!(rt; node.turns() >= node.trace().len() as u64);
    assert_eq!(rt; node.log().len(), entries);
}

/// The sender stores 16 words and put; the receiver stores get. Each sets the other's message
/// request once.
#[test]
fn tells_of_its_turns(rt: HostRuntime) -> Result<(), Fail> {
    let scenario = one_message(&rt, rt.alloc())?;
    assert!(rt; is_lawful(&scenario) && is_built(&scenario));
    let world = World::replay(rt.alloc(), &scenario)?;
    assert_eq!(rt; world.nodes.len(), 2);
    expect_part(&rt, &world.nodes[0], 0);
    expect_turns(&rt, &world.nodes[0], (17, 1), 1);
    expect_part(&rt, &world.nodes[1], 1);
    expect_turns(&rt, &world.nodes[1], (1, 1), 2);
    Ok(())
}

/// The answer of a step that is wanted: a load that is planned to fail fails, and each other word
/// is 0.
fn answer_of(node: &Node, wanted: Wanted) -> Answer
    ensures { is_failed result ≡ fails_at node.now.part wanted.mark }
{
    match wanted.mark {
        Some(mark) if node.fails(mark) => Answer::Failed,
        _ => Answer::Word(0),
    }
}

/// The first turn of a node makes a step, which it keeps.
#[test]
fn makes_a_first_turn(rt: HostRuntime) -> Result<(), Fail> {
    let scenario = one_message(&rt, rt.alloc())?;
    assert!(rt; is_lawful(&scenario) && is_built(&scenario) && scenario.count.get() == 2);
    let mut node = Node::new(rt.alloc(), &scenario, PartId::known(0))?;
    assert_eq!(rt; node.turns(), 0);
    node.reserve_turn()?;
    assert!(rt; node.ended().is_none());
    if let Some(wanted) = node.next() {
        let answer = answer_of(&node, wanted);
        node.feed(answer);
    }
    assert!(rt; node.turns() == 1 && node.trace().len() == 1);
    Ok(())
}
