// The lines of the connections.
ghost use Rattle.std.specs.Prelude.{map, Some};
ghost use Rattle.xp_report.specs.Lines.{Appends};
ghost use Rattle.xp_report.specs.Links.{connection_text, counts_text, link_text, over_text, connected_text, ended_text, record_text, records_text};
ghost use Rattle.xp_connections.specs.Page.{said_of};

use std::alloc::AllocError;
use std::fmt;
use xp_base::reason::Reason;
use xp_connections::record::Record;

// Which connection a line is of.
#[derive(Drop)]
struct Name<'a>(&'a Record);

impl fmt::Display for Name<'_> {
    ghost output = { λ name. Some (connection_text (said_of name.0.now)) };

    #[tactic(auto, unfolding(crate::specs::Links::connection_text))]
    fn fmt<W: fmt::Write>(&self, f: &mut fmt::Formatter<W>) -> fmt::Result {
        let of = self.0;
        write!(
            f,
            "{} {} epoch {} own {}.{} partner {}.{}",
            of.partner.get(),
            of.channel.get(),
            of.epoch,
            of.own.stamp,
            of.own.count,
            of.theirs.stamp,
            of.theirs.count
        )
    }
}

// What came of a connection, in numbers.
#[derive(Drop)]
struct Counts<'a>(&'a Record);

impl fmt::Display for Counts<'_> {
    ghost output = { λ counts. Some (counts_text (said_of counts.0.now)) };

    #[tactic(auto, unfolding(crate::specs::Links::counts_text))]
    fn fmt<W: fmt::Write>(&self, f: &mut fmt::Formatter<W>) -> fmt::Result {
        let of = self.0;
        write!(
            f,
            "accepted {} taken {} acked {} delivered {} ended {}",
            of.accepted.len(),
            of.taken.len(),
            of.acked,
            of.delivered.len(),
            of.ended.len()
        )
    }
}

#[tactic(auto, unfolding(crate::specs::Links::link_text))]
fn write_link(out: &mut String, connection: &Record) -> Result<(), AllocError>
    ensures { Appends result out.old out.new (link_text (said_of connection.now)) }
{
    writeln!(out, "  link {} {}", Name(connection), Counts(connection))
}

#[tactic(auto, unfolding(crate::specs::Links::over_text))]
fn write_over(out: &mut String, connection: &Record, reason: Reason) -> Result<(), AllocError>
    ensures { Appends result out.old out.new (over_text (said_of connection.now) reason) }
{
    writeln!(out, "  over {} {reason}", Name(connection))
}

fn write_connected(out: &mut String, connection: &Record) -> Result<(), AllocError>
    ensures { Appends result out.old out.new (connected_text (said_of connection.now)) }
{
    if connection.connected {
        write_link(out, connection)
    } else {
        Ok(())
    }
}

fn write_ended(out: &mut String, connection: &Record) -> Result<(), AllocError>
    ensures { Appends result out.old out.new (ended_text (said_of connection.now)) }
{
    match connection.over {
        Some(reason) => write_over(out, connection, reason),
        None => Ok(()),
    }
}

/// Writes what came of a connection, and why it ended.
pub fn write_record(out: &mut String, connection: &Record) -> Result<(), AllocError>
    ensures { Appends result out.old out.new (record_text (said_of connection.now)) }
{
    write_connected(out, connection)?;
    write_ended(out, connection)
}

/// Writes what came of some connections, in their order.
pub fn write_records(out: &mut String, records: &[&Record]) -> Result<(), AllocError>
    ensures { Appends result out.old out.new
        (records_text (map (λ r. said_of r.now) records.now)) }
{
    for connection in records {
        write_record(out, connection)?;
    }
    Ok(())
}
