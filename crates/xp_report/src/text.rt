// The whole report.
ghost use Rattle.std.specs.Prelude.{◌≡◌, IfOk, None};
ghost use Rattle.xp_report.specs.Lines.{Appends};
ghost use Rattle.xp_report.specs.Report.{AreNodes, links_text, node_text, report_of};

use crate::head::{write_head, write_pool};
use crate::links::write_records;
use crate::log::write_entries;
use crate::order::records_printed;
use std::alloc::{AllocError, Global};
use xp_base::ids::PartId;
use xp_node::node::Node;

// Writes the lines of the connections of a node, by partner.
fn write_links(out: &mut String, node: &Node) -> Result<(), AllocError>
    requires { node.now.waiting ≡ None }
    ensures { Appends result out.old out.new (links_text node.now) }
{
    let alloc = *out.allocator();
    for partner in 0..node.count().get() {
        let records = records_printed(alloc, node, PartId::known(partner))?;
        write_records(out, &records)?;
    }
    Ok(())
}

// Writes the lines of a node: how it stands, its commands, its buffers in use, and its connections.
fn write_node(out: &mut String, node: &Node) -> Result<(), AllocError>
    requires { node.now.waiting ≡ None }
    ensures { Appends result out.old out.new (node_text node.now) }
{
    write_head(out, node.part(), node.ended(), node.boots())?;
    write_entries(out, node.log())?;
    write_pool(out, node.pool())?;
    write_links(out, node)
}

/// The report of the nodes of all partitions.
pub fn report(alloc: Global, nodes: &[Node]) -> Result<Vec<u8>, AllocError>
    requires { AreNodes nodes.now }
    ensures { IfOk result (λ text. text.items ≡ report_of nodes.now) }
{
    let mut out = String::new(alloc);
    writeln!(out, "report 1")?;
    for node in nodes {
        write_node(&mut out, node)?;
    }
    Ok(out.into_bytes())
}
