// The lines of a partition's reserved page and of its variables.
ghost use Rattle.std.specs.Prelude.{◌≡◌, ◌++◌, ◌<◌, OnOk, length, string_bytes};
ghost use Rattle.xp_base.specs.Memory.{word_at};
ghost use Rattle.xp_listing.specs.Listing.{partition_line, page_text, vars_line, vars_text, beat_text, masks_text};

use std::alloc::AllocError;
use xp_base::ids::PartId;
use xp_base::layout::{
    ACTIVATION, BEAT, DEACTIVATION, ENGAGED, MASK, OFFLINE, PARTS_MASK_AT, STAMP, VERSION_AT,
};
use xp_base::words::Words;

// How many minor versions a major version has.
const MINORS: u64 = 16;

#[tactic(auto, unfolding(crate::specs::Listing::page_text))]
fn write_page(
    out: &mut String,
    owner: u8,
    version: u64,
    stamp: u64,
    partitions: u64,
) -> Result<(), AllocError>
    ensures { OnOk result
        (string_bytes out.new ≡ string_bytes out.old ++ page_text owner version stamp partitions) }
{
    let major = version / MINORS;
    let minor = version % MINORS;
    writeln!(
        out,
        "partition {owner} version {major}.{minor} stamp {stamp} partitions {partitions:x}"
    )
}

/// Writes the line of the reserved page.
pub fn write_partition(out: &mut String, words: &Words, owner: PartId) -> Result<(), AllocError>
    requires { owner < length words.now }
    ensures { OnOk result
        (string_bytes out.new ≡ string_bytes out.old ++ partition_line words.now owner) }
{
    let version = words.at(owner, VERSION_AT);
    let stamp = words.at(owner, STAMP);
    let partitions = words.at(owner, PARTS_MASK_AT);
    write_page(out, owner.get(), version, stamp, partitions)
}

// The variables that are listed.
#[derive(Clone, Copy)]
pub struct Vars {
    pub beat: u64,
    pub mask: u64,
    pub offline: u64,
    pub activation: u64,
    pub engaged: u64,
    pub deactivation: u64,
}

#[tactic(auto, unfolding(crate::specs::Listing::beat_text))]
fn write_beat(out: &mut String, vars: &Vars) -> Result<(), AllocError>
    ensures { OnOk result (string_bytes out.new ≡ string_bytes out.old ++ beat_text vars.now) }
{
    write!(
        out,
        "  vars beat {} mask {:x} offline {}",
        vars.beat, vars.mask, vars.offline
    )
}

#[tactic(auto, unfolding(crate::specs::Listing::masks_text))]
fn write_masks(out: &mut String, vars: &Vars) -> Result<(), AllocError>
    ensures { OnOk result (string_bytes out.new ≡ string_bytes out.old ++ masks_text vars.now) }
{
    writeln!(
        out,
        " activation {:x} engaged {:x} deactivate {:x}",
        vars.activation, vars.engaged, vars.deactivation
    )
}

fn write_variables(out: &mut String, vars: &Vars) -> Result<(), AllocError>
    ensures { OnOk result (string_bytes out.new ≡ string_bytes out.old ++ vars_text vars.now) }
{
    write_beat(out, vars)?;
    write_masks(out, vars)
}

/// Writes the line of the variables.
pub fn write_vars(out: &mut String, words: &Words, owner: PartId) -> Result<(), AllocError>
    requires { owner < length words.now }
    ensures { OnOk result
        (string_bytes out.new ≡ string_bytes out.old ++ vars_line words.now owner) }
{
    let vars = Vars {
        beat: words.at(owner, BEAT),
        mask: words.at(owner, MASK),
        offline: words.at(owner, OFFLINE),
        activation: words.at(owner, ACTIVATION),
        engaged: words.at(owner, ENGAGED),
        deactivation: words.at(owner, DEACTIVATION),
    };
    write_variables(out, &vars)
}
