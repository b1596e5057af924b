// The answers of the network device.
ghost use Rattle.std.specs.Prelude.{◌≡◌};
ghost use Rattle.xp_report.specs.Lines.{Appends};
ghost use Rattle.xp_report.specs.Device.{cause_text, partner_text, partners_text, queued_text, transmit_text};

use std::alloc::AllocError;
use xp_base::answer::{DropCause, TransmitAnswer};
use xp_base::ids::PartId;
use xp_base::layout::PARTS;
use xp_base::masks::contains;

fn cause_word(cause: DropCause) -> &'static str
    ensures { result.now ≡ cause_text cause }
{
    match cause {
        DropCause::Multicast => "multicast",
        DropCause::NoPartner => "no-partner",
        DropCause::Refused => "refused",
    }
}

#[tactic(auto, unfolding(crate::specs::Device::partner_text))]
fn write_partner(out: &mut String, first: bool, q: u8) -> Result<(), AllocError>
    ensures { Appends result out.old out.new (partner_text first q) }
{
    if first {
        write!(out, "{q}")
    } else {
        write!(out, ",{q}")
    }
}

// Writes the numbers of the partitions of a set, ascending, with a comma between each two.
fn write_partners(out: &mut String, set: u64) -> Result<(), AllocError>
    ensures { Appends result out.old out.new (partners_text set) }
{
    let mut first = true;
    for q in 0..PARTS {
        if contains(set, PartId::known(q)) {
            write_partner(out, first, q)?;
            first = false;
        }
    }
    Ok(())
}

fn write_queued(out: &mut String, to: u64) -> Result<(), AllocError>
    ensures { Appends result out.old out.new (queued_text to) }
{
    out.push_str("queued ")?;
    write_partners(out, to)
}

/// Writes the answer of the network device to a frame.
#[tactic(auto, unfolding(crate::specs::Device::transmit_text))]
pub fn write_transmit_answer(out: &mut String, answer: &TransmitAnswer) -> Result<(), AllocError>
    ensures { Appends result out.old out.new (transmit_text answer.now) }
{
    match answer {
        TransmitAnswer::Queued { to } => write_queued(out, *to),
        TransmitAnswer::Dropped { cause } => {
            let cause = cause_word(*cause);
            write!(out, "dropped {cause}")
        }
        TransmitAnswer::NoBuffer { in_use } => write!(out, "no-buffer {in_use}"),
    }
}
