// One turn of one node.
ghost use Rattle.std.specs.Prelude.{◌≡◌, ◌<◌, ◌++◌, [], ◌∷◌, length, OnOk, OnErr, None};
ghost use Rattle.xp_fabric.specs.Steps.{step_of};
ghost use Rattle.xp_protocol.specs.Parts.{fails_at};
ghost use Rattle.xp_protocol.specs.Runs.{is_failed};
ghost use Rattle.xp_node.specs.Node.{IsStep, IsEnded};
ghost use Rattle.xp_world.specs.Turning.{TakesTurn, TurnsOver, TurnsPlain, TakesPlain, IsSameNode};

use std::alloc::{AllocError, Global};
use xp_base::ids::PartId;
use xp_base::step::{Answer, CopyMark, Wanted};
use xp_base::words::Words;
use xp_fabric::memory::Memory;
use xp_fabric::plain::PlainMemory;
use xp_node::node::Node;

// Whether a step with this mark, where it has one, is a load that is to fail.
fn is_to_fail(node: &Node, mark: Option<CopyMark>) -> bool
    ensures { result ≡ fails_at node.now.part mark }
{
    match mark {
        Some(mark) => node.fails(mark),
        None => false,
    }
}

// Answers the step that a node wants: a load that is to fail touches no word.
#[tactic(auto, using(crate::proofs::Turned::answering))]
fn answer<M: Memory>(port: &mut M, node: &Node, wanted: &Wanted) -> Answer
    requires step { IsStep node.now.part wanted.now }
    requires count { node.now.part.count ≡ M.count port.old }
    requires room { 0 < M.room port.old }
    ensures history { M.history port.new ≡ M.history port.old ++ step_of wanted.now.op result ∷ [] }
    ensures failed { is_failed result ≡ fails_at node.now.part wanted.now.mark }
    ensures partition { M.partition port.new ≡ M.partition port.old }
    ensures count { M.count port.new ≡ M.count port.old }
    ensures opening { M.opening port.new ≡ M.opening port.old }
    ensures loan { M.loan port.new ≡ M.loan port.old }
{
    if is_to_fail(node, wanted.mark) {
        port.miss(wanted.op);
        Answer::Failed
    } else {
        Answer::Word(port.perform(wanted.op))
    }
}

/// One turn of a node through the port of its partition. The port's history grows by the turn's
/// step, where it makes one. The node and the port have room for it, and no step of the node waits.
#[tactic(auto, using(crate::proofs::Turned::turned))]
pub fn turn_over<M: Memory>(node: &mut Node, port: &mut M)
    requires part { node.old.part.part ≡ M.partition port.old }
    requires count { node.old.part.count ≡ M.count port.old }
    requires running { IsEnded node.old → ⊥ }
    requires idle { node.old.waiting ≡ None }
    requires room { 0 < node.old.room }
    requires port_room { 0 < M.room port.old }
    ensures turns { TurnsOver node.old (M.history port.old) node.new (M.history port.new) }
    ensures partition { M.partition port.new ≡ M.partition port.old }
    ensures count { M.count port.new ≡ M.count port.old }
    ensures opening { M.opening port.new ≡ M.opening port.old }
    ensures loan { M.loan port.new ≡ M.loan port.old }
{
    if let Some(wanted) = node.next() {
        let given = answer(port, node, &wanted);
        node.feed(given);
    }
}

// One turn of a node that hasn't ended, over plain memory.
fn turn_plain(memory: &mut PlainMemory, node: &mut Node, part: PartId)
    requires part { node.old.part.part ≡ part }
    requires low { part < length memory.old.opening }
    requires count { node.old.part.count ≡ length memory.old.opening }
    requires running { IsEnded node.old → ⊥ }
    requires idle { node.old.waiting ≡ None }
    requires room { 0 < node.old.room }
    requires memory_room { 0 < memory.old.room }
    ensures turns { TurnsPlain part node.old memory.old.history node.new memory.new.history }
    ensures opening { memory.new.opening ≡ memory.old.opening }
{
    let mut port = memory.port(part);
    turn_over(node, &mut port);
}

/// One turn of a partition's node over plain memory; nothing where it has ended.
#[tactic(auto, using(crate::proofs::Turned::taken))]
pub fn take_turn(memory: &mut PlainMemory, node: &mut Node, part: PartId) -> Result<(), AllocError>
    requires part { node.old.part.part ≡ part }
    requires low { part < length memory.old.opening }
    requires count { node.old.part.count ≡ length memory.old.opening }
    requires idle { node.old.waiting ≡ None }
    ensures ok { OnOk result
        (TakesPlain part node.old memory.old.history node.new memory.new.history) }
    ensures err { OnErr result (IsSameNode node.old node.new) }
    ensures opening { memory.new.opening ≡ memory.old.opening }
{
    if node.ended().is_some() {
        return Ok(());
    }
    node.reserve_turn()?;
    memory.reserve()?;
    turn_plain(memory, node, part);
    Ok(())
}

/// One turn of a partition's node over the words of all partitions; nothing where it has ended. It
/// is made over a copy of the words.
pub fn turn_node(
    alloc: Global,
    words: &mut Words,
    node: &mut Node,
    part: PartId,
) -> Result<(), AllocError>
    requires part { node.old.part.part ≡ part }
    requires low { part < length words.old }
    requires count { node.old.part.count ≡ length words.old }
    requires idle { node.old.waiting ≡ None }
    ensures ok { OnOk result (TakesTurn words.old node.old words.new node.new) }
    ensures err { OnErr result (IsSameNode node.old node.new) }
    ensures err_words { OnErr result (words.new ≡ words.old) }
    ensures count { length words.new ≡ length words.old }
{
    let mut memory = PlainMemory::open(alloc, words)?;
    take_turn(&mut memory, node, part)?;
    memory.close(words);
    Ok(())
}
