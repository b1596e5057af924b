// The jobs of a run: each partition's node with its port, for a thread of its own.
ghost use Rattle.std.specs.Prelude.{◌≡◌, ℕ, length, IfOk, false};
ghost use Rattle.xp_fabric.specs.Passes.{AllPasses, AreFresh};
ghost use Rattle.xp_threads.specs.Jobs.{AreReady, AreReadyJobs, AreParted, EachDone, EachReady, IsDoneJob, IsReadyJob};

use crate::gate::Gate;
use crate::worker::worker;
use std::alloc::{AllocError, Global};
use std::thread;
use std::thread::Threads;
use xp_fabric::shared::{Pass, Port, SharedMemory};
use xp_node::node::Node;

/// A partition's node with its port, and whether memory was refused to it.
#[derive(Drop)]
pub struct Job<'a> {
    pub node: Node,
    pub port: Port<'a>,
    pub refused: bool,
}

/// Does each job in a thread of its own.
pub fn do_all<R: Threads + Sync, G: Gate + Sync>(rt: &R, jobs: &mut [Job<'_>], gate: &G)
    requires { EachReady jobs.old }
    ensures each { EachDone jobs.old jobs.new }
    ensures count { length jobs.new ≡ length jobs.old }
{
    let threads = jobs.len().max(1);
    thread::for_each_mut(
        rt,
        jobs,
        threads,
        &|_, job: &mut Job<'_>|
            requires { (k : ℕ) × IsReadyJob k job.now }
            ensures { IsDoneJob job.entry.now job.exit.now }
        { do_one(job, gate) },
    );
}

fn do_one<G: Gate>(job: &mut Job<'_>, gate: &G)
    requires { (k : ℕ) × IsReadyJob k job.old }
    ensures { IsDoneJob job.old job.new }
{
    job.refused = worker(&mut job.node, &mut job.port, gate).is_err();
}

/// A job for each node and the pass at its place, the last ones first.
pub fn jobs_of<'a>(
    alloc: Global,
    memory: &'a SharedMemory,
    mut nodes: Vec<Node>,
    mut passes: Vec<Pass>,
) -> Result<Vec<Job<'a>>, AllocError>
    requires nodes { AreReady (length memory.now.opening) nodes.items }
    requires count { length nodes.items ≡ length memory.now.opening }
    requires passes { AllPasses memory.now passes.items }
    requires fresh { AreFresh memory.now.table passes.items }
    ensures count { IfOk result (λ jobs. length jobs.items ≡ length memory.now.opening) }
    ensures each { IfOk result (λ jobs. AreReadyJobs memory.now nodes.items jobs.items) }
{
    let mut jobs = Vec::new(alloc);
    while let Some(node) = nodes.pop() {
        let Some(pass) = passes.pop() else {
            unreachable!()
        };
        jobs.push(job_of(memory, node, pass))?;
    }
    Ok(jobs)
}

fn job_of<'a>(memory: &'a SharedMemory, node: Node, pass: Pass) -> Job<'a>
    requires { pass.table ≡ memory.now.table }
    ensures node { result.node ≡ node }
    ensures pass { result.port.pass ≡ pass }
    ensures memory { result.port.memory.now ≡ memory.now }
    ensures refused { result.refused ≡ false }
{
    Job {
        node,
        port: memory.port(pass),
        refused: false,
    }
}

/// The nodes of some jobs and the passes of their ports, the last ones first. Memory was refused
/// to none of them.
pub fn parts_of(alloc: Global, mut jobs: Vec<Job<'_>>) -> Result<(Vec<Node>, Vec<Pass>), AllocError>
    ensures nodes { IfOk result (λ parts. length parts.0.items ≡ length jobs.entry.items) }
    ensures passes { IfOk result (λ parts. length parts.1.items ≡ length jobs.entry.items) }
    ensures each { IfOk result
        (λ parts. AreParted jobs.entry.items parts.0.items parts.1.items) }
{
    let mut nodes = Vec::new(alloc);
    let mut passes = Vec::new(alloc);
    while let Some(job) = jobs.pop() {
        let Job {
            node,
            port,
            refused,
        } = job;
        if refused {
            return Err(AllocError);
        }
        nodes.push(node)?;
        passes.push(port.pass())?;
    }
    Ok((nodes, passes))
}
