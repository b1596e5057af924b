// The lines of entries, of a partition whose entries have one line each.
ghost use Rattle.std.specs.Prelude.{◌≡◌, ◌++◌, ◌<◌, ◌≤◌, ◌+◌, OnOk, length, string_bytes, slice_index};
ghost use Rattle.xp_base.specs.Entries.{body_of};
ghost use Rattle.xp_listing.specs.Listing.{entry_words, entry_start, entry_text, entry_line, entries_text};

use crate::area::{AREA_CHANNELS, channel_of, partner_of};
use std::alloc::AllocError;
use xp_base::body::{Body, LINE_BYTES};
use xp_base::ids::PartId;
use xp_base::layout::{LENGTH_MARK, LINE_WORDS, LINES, LINES_VERSION, VERSION_AT};
use xp_base::places;
use xp_base::show::write_payload;
use xp_base::words::Words;

/// How many entries of one line there are for all partners and channels.
pub const AREA_ENTRIES: u32 = AREA_CHANNELS * LINES;

// The words of entry `i` among those of all partners and channels.
fn words_of_entry(words: &Words, owner: PartId, i: u32) -> [u64; LINE_WORDS as usize]
    requires owner { owner < length words.now }
    requires entry { i < AREA_ENTRIES }
    ensures { result ≡ entry_words words.now owner i }
{
    let partner = partner_of(i / LINES);
    let channel = channel_of(i / LINES);
    let mut entry = [0u64; LINE_WORDS as usize];
    for field in 0..LINE_WORDS {
        entry[field as usize] = words.at(owner, places::entry(partner, channel, i % LINES, field));
    }
    entry
}

#[tactic(auto, unfolding(crate::specs::Listing::entry_start))]
fn write_start(out: &mut String, i: u32, number: u64) -> Result<(), AllocError>
    requires { i < AREA_ENTRIES }
    ensures { OnOk result (string_bytes out.new ≡ string_bytes out.old ++ entry_start i number) }
{
    let partner = partner_of(i / LINES).get();
    let channel = channel_of(i / LINES).get();
    let k = i % LINES;
    write!(out, "  entry {partner} {channel} {k} number {number} ")
}

fn write_words(out: &mut String, i: u32, words: &[u64]) -> Result<(), AllocError>
    requires entry { i < AREA_ENTRIES }
    requires size { length words.now ≡ LINE_WORDS }
    requires low { LENGTH_MARK ≤ slice_index words.now 0 }
    requires high { slice_index words.now 0 ≤ LENGTH_MARK + LINE_BYTES }
    ensures { OnOk result (string_bytes out.new ≡ string_bytes out.old ++ entry_text i words.now) }
{
    write_start(out, i, words[1])?;
    write_payload(out, Body::of_words(words).bytes())?;
    out.push_str("\n")
}

fn write_entry(out: &mut String, words: &Words, owner: PartId, i: u32) -> Result<(), AllocError>
    requires owner { owner < length words.now }
    requires entry { i < AREA_ENTRIES }
    ensures { OnOk result
        (string_bytes out.new ≡ string_bytes out.old ++ entry_line words.now owner i) }
{
    let entry = words_of_entry(words, owner, i);
    if LENGTH_MARK <= entry[0] && entry[0] <= LENGTH_MARK + LINE_BYTES as u64 {
        write_words(out, i, &entry)
    } else {
        Ok(())
    }
}

/// Writes the line of each entry that was used, where the partition's version says that entries
/// have one line.
pub fn write_entries(out: &mut String, words: &Words, owner: PartId) -> Result<(), AllocError>
    requires { owner < length words.now }
    ensures { OnOk result
        (string_bytes out.new ≡ string_bytes out.old ++ entries_text words.now owner) }
{
    if words.at(owner, VERSION_AT) >= LINES_VERSION {
        return Ok(());
    }
    for i in 0..AREA_ENTRIES {
        write_entry(out, words, owner, i)?;
    }
    Ok(())
}
