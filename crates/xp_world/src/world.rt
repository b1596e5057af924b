// All partitions and their words, turn by turn.
ghost use Rattle.std.specs.Prelude.{◌≡◌, ◌<◌, [], length, IfOk, OnOk, OnErr};
ghost use Rattle.xp_script.specs.Lawful.{IsLawful};
ghost use Rattle.xp_world.specs.World.{Reached, Replayed, AreNew, IsReady, WorldTurns, IsSameWorld, StaysReached, StaysPromised};

use crate::replay::Replay;
use crate::turning::turn_node;
use std::alloc::{AllocError, Global};
use xp_base::ids::PartId;
use xp_base::words::Words;
use xp_fabric::plain::PlainMemory;
use xp_node::node::Node;
use xp_records::records::all_promised;
use xp_script::scenario::Scenario;
use xp_windows::duties::visits_serve;

/// The partitions of a scenario and the words of their memories.
#[derive(Drop)]
pub struct World {
    pub words: Words,
    pub nodes: Vec<Node>,
}

impl World {
    /// The world before the first turn.
    pub fn open(alloc: Global, scenario: &Scenario) -> Result<World, AllocError>
        requires { IsLawful scenario.now }
        ensures reached { IfOk result (λ world. Reached scenario.now [] world) }
        ensures ready { IfOk result (λ world. IsReady world) }
    {
        Ok(World {
            words: scenario.opening(alloc)?,
            nodes: new_nodes(alloc, scenario)?,
        })
    }

    /// One turn of a partition; nothing where it has ended. After want of memory all is as before,
    /// but for room. It opens a memory with a copy of all words, and closes it into them: `replay`
    /// is for many turns.
    pub fn turn(&mut self, part: PartId) -> Result<(), AllocError>
        requires part { part < length self.old.nodes.items }
        requires ready { IsReady self.old }
        ensures ok { OnOk result (WorldTurns self.old self.new part) }
        ensures err { OnErr result (IsSameWorld self.old self.new part) }
        ensures reached { StaysReached part self.old self.new }
        ensures promised { StaysPromised part self.old self.new }
        ensures ready { IsReady self.new }
        ensures count { length self.new.nodes.items ≡ length self.old.nodes.items }
    {
        all_promised();
        visits_serve();
        let alloc = *self.nodes.allocator();
        turn_node(
            alloc,
            &mut self.words,
            &mut self.nodes[part.get() as usize],
            part,
        )
    }

    /// The world after the turns of the schedule, or after none where there is no schedule. Its
    /// history keeps all that is promised.
    pub fn replay(alloc: Global, scenario: &Scenario) -> Result<World, AllocError>
        requires { IsLawful scenario.now }
        ensures replayed { IfOk result (λ world. Replayed scenario.now world) }
        ensures ready { IfOk result (λ world. IsReady world) }
    {
        all_promised();
        visits_serve();
        let World { mut words, nodes } = World::open(alloc, scenario)?;
        let mut replay = Replay {
            count: scenario.count,
            memory: PlainMemory::open(alloc, &words)?,
            nodes,
        };
        replay.follow(&scenario.schedule)?;
        let Replay {
            count: _,
            memory,
            nodes,
        } = replay;
        memory.close(&mut words);
        Ok(World { words, nodes })
    }
}

// The partitions of a scenario, before their first turns.
fn new_nodes(alloc: Global, scenario: &Scenario) -> Result<Vec<Node>, AllocError>
    requires { IsLawful scenario.now }
    ensures nodes { IfOk result (λ nodes. AreNew scenario.now nodes.items) }
    ensures count { IfOk result (λ nodes. length nodes.items ≡ scenario.now.count) }
{
    let mut nodes = Vec::new(alloc);
    for number in 0..scenario.count.get() {
        let node = Node::new(alloc, scenario, PartId::known(number))?;
        nodes.push(node)?;
    }
    Ok(nodes)
}
