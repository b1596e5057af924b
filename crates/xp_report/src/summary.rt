// The summary: one line that says what came of all connections together.
ghost use Rattle.std.specs.Prelude.{◌≡◌, ◌<◌, ◌+◌, IfOk, OnOk, None, Some, map};
ghost use Rattle.xp_connections.specs.Page.{said_of};
ghost use Rattle.xp_report.specs.Lines.{Appends};
ghost use Rattle.xp_report.specs.Begun.{begun_with};
ghost use Rattle.xp_report.specs.Report.{AreNodes};
ghost use Rattle.xp_report.specs.Summary.{no_totals, plus, record_totals, records_totals, node_totals, totals_of, done_of, is_done, totals_text, summary_text, summary_of};

use std::alloc::{AllocError, Global};
use std::fmt;
use xp_base::ids::{Channel, PartId};
use xp_base::layout::CHANNELS;
use xp_connections::record::Record;
use xp_node::ended::Ended;
use xp_node::node::Node;

/// What came of some connections together: how many messages were accepted and taken, the sum of
/// the gets that were stored last, and of how many messages the delivery was told.
#[derive(Clone, Copy)]
pub struct Totals {
    pub accepted: u64,
    pub taken: u64,
    pub acked: u64,
    pub delivered: u64,
}

impl Totals {
    fn none() -> Totals
        ensures { result ≡ no_totals }
    {
        Totals {
            accepted: 0,
            taken: 0,
            acked: 0,
            delivered: 0,
        }
    }

    // Counts what came of one more connection.
    fn add(&mut self, connection: &Record) -> Result<(), AllocError>
        ensures { OnOk result
            (self.new ≡ plus self.old (record_totals (said_of connection.now))) }
    {
        self.accepted = sum(self.accepted, connection.accepted.len())?;
        self.taken = sum(self.taken, connection.taken.len())?;
        self.acked = sum(self.acked, connection.acked)?;
        self.delivered = sum(self.delivered, connection.delivered.len())?;
        Ok(())
    }

    // Counts what came of some more connections.
    fn add_all(&mut self, connections: &[Record]) -> Result<(), AllocError>
        ensures { OnOk result
            (self.new ≡ plus self.old (records_totals (map said_of connections.now))) }
    {
        for connection in connections {
            self.add(connection)?;
        }
        Ok(())
    }

    // Counts what came of the connections of a node to a partner.
    fn add_partner(&mut self, node: &Node, partner: PartId) -> Result<(), AllocError>
        requires partner { partner < node.now.part.count }
        requires idle { node.now.waiting ≡ None }
        ensures { OnOk result
            (self.new ≡ plus self.old (records_totals (begun_with node.now partner))) }
    {
        for channel in 0..CHANNELS {
            self.add_all(node.records(partner, Channel::known(channel)))?;
        }
        Ok(())
    }

    // Counts what came of all connections of a node.
    fn add_node(&mut self, node: &Node) -> Result<(), AllocError>
        requires { node.now.waiting ≡ None }
        ensures { OnOk result (self.new ≡ plus self.old (node_totals node.now)) }
    {
        for partner in 0..node.count().get() {
            self.add_partner(node, PartId::known(partner))?;
        }
        Ok(())
    }
}

// A sum, where it is a number of 64 bits: else as for want of memory.
fn sum(count: u64, more: u64) -> Result<u64, AllocError>
    ensures { IfOk result (λ sum. sum ≡ count + more) }
{
    match count.checked_add(more) {
        Some(sum) => Ok(sum),
        None => Err(AllocError),
    }
}

impl fmt::Display for Totals {
    ghost output = { λ totals. Some (totals_text totals) };

    #[tactic(auto, unfolding(crate::specs::Summary::totals_text))]
    fn fmt<W: fmt::Write>(&self, f: &mut fmt::Formatter<W>) -> fmt::Result {
        write!(
            f,
            "accepted {} taken {} acked {} delivered {}",
            self.accepted, self.taken, self.acked, self.delivered
        )
    }
}

// What came of all connections of some nodes.
fn all_totals(nodes: &[Node]) -> Result<Totals, AllocError>
    requires { AreNodes nodes.now }
    ensures { IfOk result (λ totals. totals ≡ totals_of nodes.now) }
{
    let mut totals = Totals::none();
    for node in nodes {
        totals.add_node(node)?;
    }
    Ok(totals)
}

fn is_done(ended: Option<Ended>) -> bool
    ensures { result ≡ is_done ended }
{
    matches!(ended, Some(Ended::Done))
}

// How many nodes are done.
fn done(nodes: &[Node]) -> u64
    requires { AreNodes nodes.now }
    ensures { result ≡ done_of nodes.now }
{
    let mut done = 0;
    for node in nodes {
        if is_done(node.ended()) {
            done += 1;
        }
    }
    done
}

#[tactic(auto, unfolding(crate::specs::Summary::summary_text))]
fn write_summary(
    out: &mut String,
    n: u32,
    parts: usize,
    totals: Totals,
    done: u64,
) -> Result<(), AllocError>
    ensures { Appends result out.old out.new (summary_text n parts totals done) }
{
    writeln!(out, "big {n} partitions {parts} {totals} done {done}")
}

/// The summary of the nodes that the scenario of a number led to: how many there are, what came of
/// all their connections, and how many are done. A sum that has more than 64 bits, which would take
/// more turns than nodes can make, is answered as want of memory.
pub fn summary(alloc: Global, n: u32, nodes: &[Node]) -> Result<Vec<u8>, AllocError>
    requires { AreNodes nodes.now }
    ensures { IfOk result (λ text. text.items ≡ summary_of n nodes.now) }
{
    let totals = all_totals(nodes)?;
    let mut out = String::new(alloc);
    write_summary(&mut out, n, nodes.len(), totals, done(nodes))?;
    Ok(out.into_bytes())
}
