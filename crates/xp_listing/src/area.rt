// The lines of records, arguments and counters.
ghost use Rattle.std.specs.Prelude.{◌≡◌, ◌++◌, ◌<◌, OnOk, length, string_bytes, ◌/◌, ◌%◌};
ghost use Rattle.xp_listing.specs.Listing.{each, record_line, record_text, magic_text, args_line, args_text, counters_line, counters_text, records_text, all_args_text, all_counters_text};

use std::alloc::AllocError;
use xp_base::ids::{Channel, PartId};
use xp_base::layout::{CHANNELS, FIRST, PARTS, REQUEST_ENTRY};
use xp_base::places;
use xp_base::session::Session;
use xp_base::words::Words;

/// How many channels there are for all partners.
pub const AREA_CHANNELS: u32 = PARTS as u32 * CHANNELS as u32;

/// The partner of channel `i` among those of all partners.
pub fn partner_of(i: u32) -> PartId
    requires { i < AREA_CHANNELS }
    ensures { result ≡ i / CHANNELS }
{
    PartId::known((i / CHANNELS as u32) as u8)
}

/// Which of its partner's channels channel `i` is among those of all partners.
pub fn channel_of(i: u32) -> Channel
    requires { i < AREA_CHANNELS }
    ensures { result ≡ i % CHANNELS }
{
    Channel::known((i % CHANNELS as u32) as u8)
}

#[tactic(auto, unfolding(crate::specs::Listing::record_text))]
fn write_record_text(
    out: &mut String,
    partner: u8,
    name: &str,
    session: Session,
    echo: Session,
) -> Result<(), AllocError>
    ensures { OnOk result
        (string_bytes out.new ≡ string_bytes out.old ++ record_text partner name.now session echo) }
{
    writeln!(
        out,
        "  record {partner} {name} session {}.{} echo {}.{}",
        session.stamp, session.count, echo.stamp, echo.count
    )
}

// The name of a record's magic.
fn magic_name(magic: u64) -> &'static str
    ensures { result.now ≡ magic_text magic }
{
    if magic == FIRST { "first" } else { "second" }
}

fn write_record(
    out: &mut String,
    words: &Words,
    owner: PartId,
    partner: PartId,
) -> Result<(), AllocError>
    requires { owner < length words.now }
    ensures { OnOk result
        (string_bytes out.new ≡ string_bytes out.old ++ record_line words.now owner partner) }
{
    let magic = words.at(owner, places::record(partner, 0));
    if magic == 0 {
        return Ok(());
    }
    let session = Session::of_word(words.at(owner, places::record(partner, 1)));
    let echo = Session::of_word(words.at(owner, places::record(partner, 2)));
    write_record_text(out, partner.get(), magic_name(magic), session, echo)
}

/// Writes the line of each record whose magic is stored.
pub fn write_records(out: &mut String, words: &Words, owner: PartId) -> Result<(), AllocError>
    requires { owner < length words.now }
    ensures { OnOk result
        (string_bytes out.new ≡ string_bytes out.old ++ records_text words.now owner) }
{
    for partner in 0..PARTS {
        write_record(out, words, owner, PartId::known(partner))?;
    }
    Ok(())
}

// The arguments that are listed.
#[derive(Clone, Copy)]
pub struct Args {
    pub request: u64,
    pub reply: u64,
    pub reason: u64,
}

#[tactic(auto, unfolding(crate::specs::Listing::args_text))]
fn write_args_text(out: &mut String, partner: u8, channel: u8, args: Args) -> Result<(), AllocError>
    ensures { OnOk result
        (string_bytes out.new ≡ string_bytes out.old ++ args_text partner channel args) }
{
    let entries = args.request / REQUEST_ENTRY;
    let limit = args.request % REQUEST_ENTRY;
    writeln!(
        out,
        "  args {partner} {channel} entries {entries} limit {limit} queue {} reason {}",
        args.reply, args.reason
    )
}

fn write_args(out: &mut String, words: &Words, owner: PartId, i: u32) -> Result<(), AllocError>
    requires owner { owner < length words.now }
    requires channel { i < AREA_CHANNELS }
    ensures { OnOk result
        (string_bytes out.new ≡ string_bytes out.old ++ args_line words.now owner i) }
{
    let partner = partner_of(i);
    let channel = channel_of(i);
    let args = Args {
        request: words.at(owner, places::args(partner, channel, 0)),
        reply: words.at(owner, places::args(partner, channel, 1)),
        reason: words.at(owner, places::args(partner, channel, 2)),
    };
    if args.request == 0 && args.reply == 0 && args.reason == 0 {
        return Ok(());
    }
    write_args_text(out, partner.get(), channel.get(), args)
}

/// Writes the line of the arguments of each channel of which one is stored.
pub fn write_all_args(out: &mut String, words: &Words, owner: PartId) -> Result<(), AllocError>
    requires { owner < length words.now }
    ensures { OnOk result
        (string_bytes out.new ≡ string_bytes out.old ++ all_args_text words.now owner) }
{
    for i in 0..AREA_CHANNELS {
        write_args(out, words, owner, i)?;
    }
    Ok(())
}

#[tactic(auto, unfolding(crate::specs::Listing::counters_text))]
fn write_counters_text(
    out: &mut String,
    partner: u8,
    channel: u8,
    get: u64,
    put: u64,
) -> Result<(), AllocError>
    ensures { OnOk result
        (string_bytes out.new ≡ string_bytes out.old ++ counters_text partner channel get put) }
{
    writeln!(out, "  counters {partner} {channel} get {get} put {put}")
}

fn write_counters(out: &mut String, words: &Words, owner: PartId, i: u32) -> Result<(), AllocError>
    requires owner { owner < length words.now }
    requires channel { i < AREA_CHANNELS }
    ensures { OnOk result
        (string_bytes out.new ≡ string_bytes out.old ++ counters_line words.now owner i) }
{
    let partner = partner_of(i);
    let channel = channel_of(i);
    let get = words.at(owner, places::counters(partner, channel, 0));
    let put = words.at(owner, places::counters(partner, channel, 1));
    if get == 0 && put == 0 {
        return Ok(());
    }
    write_counters_text(out, partner.get(), channel.get(), get, put)
}

/// Writes the line of the counters of each channel of which one isn't 0.
pub fn write_all_counters(out: &mut String, words: &Words, owner: PartId) -> Result<(), AllocError>
    requires { owner < length words.now }
    ensures { OnOk result
        (string_bytes out.new ≡ string_bytes out.old ++ all_counters_text words.now owner) }
{
    for i in 0..AREA_CHANNELS {
        write_counters(out, words, owner, i)?;
    }
    Ok(())
}
