// The lines of flags.
ghost use Rattle.std.specs.Prelude.{◌≡◌, ◌++◌, ◌<◌, ◌%◌, OnOk, length, string_bytes, List, ◌∷◌, []};
ghost use Rattle.xp_base.specs.Kinds.{kinds_in, has};
ghost use Rattle.xp_listing.specs.Listing.{flags_line, flags_start, flags_text, kind_name, kind_names, all_flags_text, all_kinds};

use crate::area::{AREA_CHANNELS, channel_of, partner_of};
use std::alloc::AllocError;
use xp_base::ids::{Channel, PartId};
use xp_base::link::Kind;
use xp_base::places;
use xp_base::words::Words;
use xp_flags::Flags;

fn kinds() -> [Kind; 6]
    ensures { result ≡ all_kinds }
{
    [
        Kind::CloseRequest,
        Kind::CloseReply,
        Kind::OpenRequest,
        Kind::OpenReply,
        Kind::OpenComplete,
        Kind::MsgRequest,
    ]
}

fn write_kind(out: &mut String, flags: Flags, kind: Kind) -> Result<(), AllocError>
    ensures { OnOk result (string_bytes out.new ≡ string_bytes out.old ++ kind_name flags kind) }
{
    if flags.contains(kind) {
        write!(out, " {kind}")
    } else {
        Ok(())
    }
}

// Writes the kinds of a set, in the order of their bits.
fn write_kinds(out: &mut String, flags: Flags) -> Result<(), AllocError>
    ensures { OnOk result
        (string_bytes out.new ≡ string_bytes out.old ++ kind_names flags all_kinds) }
{
    let kinds = kinds();
    for kind in &kinds {
        write_kind(out, flags, *kind)?;
    }
    Ok(())
}

#[tactic(auto, unfolding(crate::specs::Listing::flags_start))]
fn write_start(out: &mut String, partner: u8, channel: u8) -> Result<(), AllocError>
    ensures { OnOk result
        (string_bytes out.new ≡ string_bytes out.old ++ flags_start partner channel) }
{
    write!(out, "  flags {partner} {channel}")
}

// Writes the line of some flags.
fn write_set(out: &mut String, partner: u8, channel: u8, flags: Flags) -> Result<(), AllocError>
    ensures { OnOk result
        (string_bytes out.new ≡ string_bytes out.old ++ flags_text partner channel flags) }
{
    write_start(out, partner, channel)?;
    write_kinds(out, flags)?;
    out.push_str("\n")
}

fn write_flags(out: &mut String, words: &Words, owner: PartId, i: u32) -> Result<(), AllocError>
    requires owner { owner < length words.now }
    requires channel { i < AREA_CHANNELS }
    ensures { OnOk result
        (string_bytes out.new ≡ string_bytes out.old ++ flags_line words.now owner i) }
{
    let partner = partner_of(i);
    let channel = channel_of(i);
    let word = words.at(owner, places::flag_word(partner));
    match Flags::of_word(word, channel) {
        Some(flags) if flags.next_kind(false).is_some() => {
            write_set(out, partner.get(), channel.get(), flags)
        }
        _ => Ok(()),
    }
}

/// Writes the line of the flags of each channel that has some.
pub fn write_all_flags(out: &mut String, words: &Words, owner: PartId) -> Result<(), AllocError>
    requires { owner < length words.now }
    ensures { OnOk result
        (string_bytes out.new ≡ string_bytes out.old ++ all_flags_text words.now owner) }
{
    for i in 0..AREA_CHANNELS {
        write_flags(out, words, owner, i)?;
    }
    Ok(())
}
