// A scenario's partitions as threads.
ghost use Rattle.std.specs.Prelude.{◌≡◌, length, IfOk};
ghost use Rattle.xp_fabric.specs.Passes.{AllPasses, AreFresh};
ghost use Rattle.xp_script.specs.Lawful.{IsLawful};
ghost use Rattle.xp_world.specs.World.{IsReady};
ghost use Rattle.xp_threads.specs.Jobs.{AreReady, AreDone};
ghost use Rattle.xp_threads.specs.Running.{RanThreads};

use crate::gate::Gate;
use crate::jobs::{do_all, jobs_of, parts_of};
use std::alloc::{AllocError, Global};
use std::thread::Threads;
use xp_fabric::shared::{Pass, SharedMemory};
use xp_node::node::Node;
use xp_records::records::all_promised;
use xp_script::scenario::Scenario;
use xp_windows::duties::visits_serve;
use xp_world::world::World;

/// The world after each partition has run in a thread of its own, until it had ended or had made
/// the scenario's budget of turns. Some history reaches the world, and keeps all that is promised.
pub fn run_threads<R: Threads + Sync, G: Gate + Sync>(
    rt: &R,
    alloc: Global,
    scenario: &Scenario,
    gate: &G,
) -> Result<World, AllocError>
    requires { IsLawful scenario.now }
    ensures ran { IfOk result (λ world. RanThreads scenario.now world) }
    ensures ready { IfOk result (λ world. IsReady world) }
{
    all_promised();
    visits_serve();
    let World { mut words, nodes } = World::open(alloc, scenario)?;
    let (memory, passes) = SharedMemory::open(alloc, &words)?;
    let (nodes, passes) = run_nodes(rt, alloc, &memory, nodes, passes, gate)?;
    memory.close(passes, &mut words);
    Ok(World { words, nodes })
}

// All nodes at work, each over the port of the pass at its place. The nodes and the passes after it.
fn run_nodes<R: Threads + Sync, G: Gate + Sync>(
    rt: &R,
    alloc: Global,
    memory: &SharedMemory,
    nodes: Vec<Node>,
    passes: Vec<Pass>,
    gate: &G,
) -> Result<(Vec<Node>, Vec<Pass>), AllocError>
    requires nodes { AreReady (length memory.now.opening) nodes.items }
    requires count { length nodes.items ≡ length memory.now.opening }
    requires passes { AllPasses memory.now passes.items }
    requires fresh { AreFresh memory.now.table passes.items }
    ensures nodes { IfOk result (λ parts. length parts.0.items ≡ length memory.now.opening) }
    ensures passes { IfOk result (λ parts. length parts.1.items ≡ length memory.now.opening) }
    ensures done { IfOk result
        (λ parts. AreDone memory.now nodes.items parts.0.items parts.1.items) }
{
    let mut jobs = jobs_of(alloc, memory, nodes, passes)?;
    do_all(rt, jobs.as_mut_slice(), gate);
    parts_of(alloc, jobs)
}
