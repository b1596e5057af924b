// The reserved page and the variables: the open words of a partition.
ghost use Rattle.std.specs.Prelude.{◌≡◌, [], ◌∷◌, refl};
ghost use Rattle.xp_page.specs.declared.page.TheConstants.{PAGE_WORDS, VARIABLES_WORDS};
ghost use Rattle.xp_page.specs.Grammar.{page_table, vars_table, others};

use crate::grammar::{Allowed, PageCause, PageFault, Row};
use crate::image::{At, Image};
use crate::reading::{append, first_fault, word_at};
use std::alloc::AllocError;
use xp_base::layout::{
    OPEN_WORDS, RECORDS_AT, SIGNATURE, VARIABLES_AT, VERSION_BASE, VERSION_END, WORD_BYTES,
};

/// How many words the reserved page has.
pub const PAGE_WORDS: u32 = VARIABLES_AT;
/// How many words the variables have.
pub const VARIABLES_WORDS: u32 = OPEN_WORDS - VARIABLES_AT;

/// The reserved page, in the driver `struct xpc_rsvd_page`.
#[derive(Clone, Copy)]
pub struct PageImage {
    pub signature: u64,
    /// The major version in the bits from 4 on and the minor version below them: 3.0 to 3.15 are
    /// read.
    pub version: u64,
    /// The partition's own number.
    pub owner: u64,
    /// The place of the variables.
    pub variables: u64,
    /// The boot stamp, 0 before the first boot.
    pub stamp: u64,
    /// A bit for each partition of the machine.
    pub partitions: u64,
    pub padding_six: u64,
    pub padding_seven: u64,
}

/// What each word of the reserved page may be.
pub fn page_rows(at: &At) -> [Row; PAGE_WORDS as usize]
    ensures { result ≡ page_table at.now }
{
    [
        Row::new(Allowed::Only(SIGNATURE), PageCause::Signature),
        Row::new(
            Allowed::Between(VERSION_BASE, VERSION_END - 1),
            PageCause::Version,
        ),
        Row::new(Allowed::Only(at.owner.get() as u64), PageCause::Value),
        Row::new(Allowed::Only(VARIABLES_AT as u64), PageCause::Address),
        Row::new(Allowed::Between(0, u32::MAX as u64), PageCause::Value),
        Row::new(Allowed::AllOf(at.count), PageCause::Mask),
        Row::new(Allowed::Only(0), PageCause::Value),
        Row::new(Allowed::Only(0), PageCause::Value),
    ]
}

impl PageImage {
    fn to_words(&self) -> [u64; PAGE_WORDS as usize]
        ensures { result ≡ self.now.signature ∷ self.now.version ∷ self.now.owner
            ∷ self.now.variables ∷ self.now.stamp ∷ self.now.partitions ∷ self.now.padding_six
            ∷ self.now.padding_seven ∷ [] }
    {
        [
            self.signature,
            self.version,
            self.owner,
            self.variables,
            self.stamp,
            self.partitions,
            self.padding_six,
            self.padding_seven,
        ]
    }
}

impl Image for PageImage {
    ghost size = { PAGE_WORDS };

    ghost words = { λ x. x.signature ∷ x.version ∷ x.owner ∷ x.variables ∷ x.stamp ∷ x.partitions
        ∷ x.padding_six ∷ x.padding_seven ∷ [] };

    ghost table = { page_table };

    fn length() -> usize {
        WORD_BYTES * PAGE_WORDS as usize
    }

    fn write(&self, out: &mut Vec<u8>) -> Result<(), AllocError> {
        append(&self.to_words(), out)
    }

    fn read(bytes: &[u8], at: At) -> Result<PageImage, PageFault> {
        match first_fault(&page_rows(&at), bytes, at.offset) {
            Some(fault) => Err(fault),
            None => Ok(PageImage {
                signature: word_at(bytes, 0),
                version: word_at(bytes, 1),
                owner: word_at(bytes, 2),
                variables: word_at(bytes, 3),
                stamp: word_at(bytes, 4),
                partitions: word_at(bytes, 5),
                padding_six: word_at(bytes, 6),
                padding_seven: word_at(bytes, 7),
            }),
        }
    }

    ghost sized = { λ at. refl };
}

/// The variables, in the driver `struct xpc_vars_sn2`.
#[derive(Clone, Copy)]
pub struct VarsImage {
    /// The heartbeat count.
    pub beat: u64,
    /// The partners that the owner beats to.
    pub mask: u64,
    /// The offline count.
    pub offline: u64,
    /// The partners that ask for activation.
    pub activation: u64,
    /// The partners that are engaged.
    pub engaged: u64,
    /// The partners that say that they go down.
    pub deactivation: u64,
    /// The place of the records.
    pub records: u64,
    pub padding: u64,
}

// A mask of partitions other than the owner.
fn other_bits(at: &At) -> Row
    ensures { result ≡ others at.now }
{
    let others = Allowed::Others {
        count: at.count,
        owner: at.owner.get(),
    };
    Row::new(others, PageCause::Mask)
}

/// What each word of the variables may be.
pub fn vars_rows(at: &At) -> [Row; VARIABLES_WORDS as usize]
    ensures { result ≡ vars_table at.now }
{
    [
        Row::any(),
        other_bits(at),
        Row::any(),
        other_bits(at),
        other_bits(at),
        other_bits(at),
        Row::new(Allowed::Only(RECORDS_AT as u64), PageCause::Address),
        Row::new(Allowed::Only(0), PageCause::Value),
    ]
}

impl VarsImage {
    fn to_words(&self) -> [u64; VARIABLES_WORDS as usize]
        ensures { result ≡ self.now.beat ∷ self.now.mask ∷ self.now.offline ∷ self.now.activation
            ∷ self.now.engaged ∷ self.now.deactivation ∷ self.now.records ∷ self.now.padding ∷ [] }
    {
        [
            self.beat,
            self.mask,
            self.offline,
            self.activation,
            self.engaged,
            self.deactivation,
            self.records,
            self.padding,
        ]
    }
}

impl Image for VarsImage {
    ghost size = { VARIABLES_WORDS };

    ghost words = { λ x. x.beat ∷ x.mask ∷ x.offline ∷ x.activation ∷ x.engaged ∷ x.deactivation
        ∷ x.records ∷ x.padding ∷ [] };

    ghost table = { vars_table };

    fn length() -> usize {
        WORD_BYTES * VARIABLES_WORDS as usize
    }

    fn write(&self, out: &mut Vec<u8>) -> Result<(), AllocError> {
        append(&self.to_words(), out)
    }

    fn read(bytes: &[u8], at: At) -> Result<VarsImage, PageFault> {
        match first_fault(&vars_rows(&at), bytes, at.offset) {
            Some(fault) => Err(fault),
            None => Ok(VarsImage {
                beat: word_at(bytes, 0),
                mask: word_at(bytes, 1),
                offline: word_at(bytes, 2),
                activation: word_at(bytes, 3),
                engaged: word_at(bytes, 4),
                deactivation: word_at(bytes, 5),
                records: word_at(bytes, 6),
                padding: word_at(bytes, 7),
            }),
        }
    }

    ghost sized = { λ at. refl };
}
