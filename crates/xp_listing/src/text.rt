// The whole listing.
ghost use Rattle.std.specs.Prelude.{◌≡◌, ◌++◌, ◌<◌, IfOk, OnOk, length, string_bytes};
ghost use Rattle.xp_listing.specs.Listing.{part_text, listing_of};

use crate::area::{write_all_args, write_all_counters, write_records};
use crate::entries::write_entries;
use crate::flags::write_all_flags;
use crate::open::{write_partition, write_vars};
use std::alloc::{AllocError, Global};
use xp_base::ids::PartId;
use xp_base::words::Words;

// Writes the lines of a partition.
fn write_part(out: &mut String, words: &Words, owner: PartId) -> Result<(), AllocError>
    requires { owner < length words.now }
    ensures { OnOk result
        (string_bytes out.new ≡ string_bytes out.old ++ part_text words.now owner) }
{
    write_partition(out, words, owner)?;
    write_vars(out, words, owner)?;
    write_records(out, words, owner)?;
    write_all_flags(out, words, owner)?;
    write_all_args(out, words, owner)?;
    write_all_counters(out, words, owner)?;
    write_entries(out, words, owner)
}

/// The listing of the words of all partitions: for each partition a line of its page, a line of its
/// variables, and for each partner and channel the lines of what was stored. Areas for partners
/// that there aren't are listed too. Bytes that aren't of their form, as flags with spare bits or
/// an entry of no length, have no line.
pub fn listing(alloc: Global, words: &Words) -> Result<Vec<u8>, AllocError>
    ensures { IfOk result (λ text. text.items ≡ listing_of words.now) }
{
    let mut out = String::new(alloc);
    writeln!(out, "listing 1")?;
    for owner in 0..words.count() {
        write_part(&mut out, words, PartId::known(owner))?;
    }
    Ok(out.into_bytes())
}
