// What a look at a partner's page shows.
ghost use Rattle.std.specs.Prelude.{◌≡◌};
ghost use Rattle.xp_discover.specs.Looking.{look_answer};

use xp_base::layout::{RECORDS_AT, SIGNATURE, VARIABLES_AT, VERSION_BASE, VERSION_END};

/// What a whole look at a partner's page showed.
#[derive(Clone, Copy)]
pub enum LookAnswer {
    /// A page of this layout, by the stamp of the partner's boot and the version that it speaks.
    Good { stamp: u32, version: u64 },
    /// No page of this layout, or one whose owner didn't boot yet.
    Absent,
    /// A page of this layout in a version that this program doesn't know.
    BadVersion { word: u64 },
}

/// What the words of a look show: the page's signature and version, the place of the variables, the
/// place of the records, and the stamp of the boot, in the order in which they were loaded. The
/// driver looks at a partner in the same way when it discovers which partitions there are.
pub fn judge(words: [u64; 5]) -> LookAnswer
    ensures { result ≡ look_answer words }
{
    let [signature, version, variables, records, stamp] = words;
    let is_page = signature == SIGNATURE
        && variables == VARIABLES_AT as u64
        && records == RECORDS_AT as u64;
    if !is_page || stamp == 0 || stamp > u32::MAX as u64 {
        LookAnswer::Absent
    } else if version < VERSION_BASE || version >= VERSION_END {
        LookAnswer::BadVersion { word: version }
    } else {
        LookAnswer::Good {
            stamp: stamp as u32,
            version,
        }
    }
}
