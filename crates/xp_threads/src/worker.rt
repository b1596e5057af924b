// The work of one thread.
ghost use Rattle.std.specs.Prelude.{◌≡◌, ◌≤◌, length, OnOk, None};
ghost use Rattle.xp_threads.specs.Working.{Works, IsFinished, IsWithin};

use crate::gate::Gate;
use std::alloc::AllocError;
use xp_fabric::memory::Memory;
use xp_fabric::shared::Port;
use xp_node::node::Node;
use xp_world::turning::turn_over;

/// Makes the turns of a node through its partition's port, until the node has ended or has made its
/// budget of turns. After a refusal the turns made so far stand.
#[tactic(auto, using(crate::proofs::Works::working))]
pub fn worker<G: Gate>(node: &mut Node, port: &mut Port<'_>, gate: &G) -> Result<(), AllocError>
    requires part { node.old.part.part ≡ port.old.pass.part }
    requires count { node.old.part.count ≡ length port.old.memory.now.opening }
    requires budget { node.old.state.clock.turns ≤ node.old.part.budget }
    requires idle { node.old.waiting ≡ None }
    ensures works { Works node.old port.old.pass.history node.new port.new.pass.history }
    ensures finished { OnOk result (IsFinished node.new) }
    ensures within { IsWithin node.new }
    ensures part { port.new.pass.part ≡ port.old.pass.part }
    ensures memory { port.new.memory.now ≡ port.old.memory.now }
{
    for turn in node.turns()..node.budget() {
        if node.ended().is_some() {
            return Ok(());
        }
        gate.pass(port.part(), turn);
        node.reserve_turn()?;
        port.reserve()?;
        turn_over(node, port);
    }
    Ok(())
}
