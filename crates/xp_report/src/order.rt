// The order in which the connections of a node print.
ghost use Rattle.std.specs.Prelude.{◌≡◌, ◌<◌, ◌++◌, IfOk, OnErr, OnOk, None, List, map};
ghost use Rattle.std.specs.List.Sorted.{IsSorted, IsStable};
ghost use Rattle.xp_protocol.specs.Records.{Recorded};
ghost use Rattle.xp_connections.specs.Page.{said_of};
ghost use Rattle.xp_report.specs.Begun.{begun_with};
ghost use Rattle.xp_report.specs.Order.{record_cmp, as_printed};
ghost use Rattle.xp_report.specs.Place.{place_of};

use std::alloc::{AllocError, Global};
use xp_base::ids::{Channel, PartId};
use xp_base::layout::CHANNELS;
use xp_connections::record::Record;
use xp_node::node::Node;

/// Where a record prints among those of its partner.
#[derive(Clone, Copy, PartialEq, Eq, PartialOrd, Ord)]
pub struct Place {
    /// The session of this end, as a word.
    pub own: u64,
    /// The session of the partner's end, as a word.
    pub theirs: u64,
    pub channel: u8,
    pub epoch: u64,
}

impl Place {
    fn of(connection: &Record) -> Place
        ensures { result ≡ place_of (said_of connection.now) }
    {
        Place {
            own: connection.own.word(),
            theirs: connection.theirs.word(),
            channel: connection.channel.get(),
            epoch: connection.epoch,
        }
    }
}

/// Puts the records of a partner into the order in which they print. For want of memory they are
/// as before.
pub fn sort_records(records: &mut Vec<&Record>) -> Result<(), AllocError>
    ensures ok { OnOk result (map (λ r. said_of r.now) records.new.items
        ≡ as_printed (map (λ r. said_of r.now) records.old.items)) }
    ensures err { OnErr result (records.new.items ≡ records.old.items) }
{
    records.sort_by_key(|record| Place::of(record))
}

/// What the order of records is: none prints before one that comes before it by sessions, channel
/// and epoch, and those that are equal in these stay as they stand.
pub fn order_is_stable()
    ensures sorted { (records : List Recorded) → IsSorted record_cmp (as_printed records) }
    ensures stable { (records : List Recorded) → IsStable record_cmp records (as_printed records) }
{}

// Appends some records.
fn push_records<'a>(list: &mut Vec<&'a Record>, records: &'a [Record]) -> Result<(), AllocError>
    ensures { OnOk result (map (λ r. said_of r.now) list.new.items
        ≡ map (λ r. said_of r.now) list.old.items ++ map said_of records.now) }
{
    for record in records {
        list.push(record)?;
    }
    Ok(())
}

// The records of the connections to a partner, by channel, and in the order in which they were
// begun.
fn records_begun(alloc: Global, node: &Node, partner: PartId) -> Result<Vec<&Record>, AllocError>
    requires partner { partner < node.now.part.count }
    requires idle { node.now.waiting ≡ None }
    ensures { IfOk result (λ records. map (λ r. said_of r.now) records.items
        ≡ begun_with node.now partner) }
{
    let mut records = Vec::new(alloc);
    for channel in 0..CHANNELS {
        push_records(&mut records, node.records(partner, Channel::known(channel)))?;
    }
    Ok(records)
}

/// The records of the connections to a partner, in the order in which they print.
pub fn records_printed(
    alloc: Global,
    node: &Node,
    partner: PartId,
) -> Result<Vec<&Record>, AllocError>
    requires partner { partner < node.now.part.count }
    requires idle { node.now.waiting ≡ None }
    ensures { IfOk result (λ records. map (λ r. said_of r.now) records.items
        ≡ as_printed (begun_with node.now partner)) }
{
    let mut records = records_begun(alloc, node, partner)?;
    sort_records(&mut records)?;
    Ok(records)
}
