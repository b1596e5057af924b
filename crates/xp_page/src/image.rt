// What every image has in common.
ghost use Rattle.std.specs.Prelude.{◌≡◌, ◌+◌, ◌*◌, ◌<◌, ◌^◌, ◌++◌, ℕ, List, length, Result, Ok, OnOk, OnErr};
ghost use Rattle.xp_page.specs.declared.grammar.Row.{Row};
ghost use Rattle.xp_page.specs.declared.grammar.PageFault.{PageFault as FaultOf};
ghost use Rattle.xp_page.specs.declared.image.At.{At as Spot};
ghost use Rattle.xp_page.specs.Reading.{IsReadOf, IsOf, bytes_of_words};

use crate::grammar::PageFault;
use std::alloc::AllocError;
use xp_base::ids::{Channel, PartId};
use xp_base::layout::WORD_BYTES;

/// Where an image stands: its first byte's offset, whose partition it is of and how many partitions
/// there are, and the partner and the channel that it is for, where it is for one.
#[derive(Clone, Copy)]
pub struct At {
    pub offset: u64,
    pub owner: PartId,
    pub count: u8,
    pub partner: PartId,
    pub channel: Channel,
}

/// Words with a fixed number and grammar, as bytes, the lowest byte of each word first.
pub trait Image: Sized {
    // How many words there are.
    ghost size: { ℕ };

    // The words, in their order.
    ghost words: { Self → List ℕ };

    // What each word may be.
    ghost table: { Spot → List Row };

    /// How many bytes the image has.
    fn length() -> usize
        ensures { result ≡ WORD_BYTES * size };

    /// Appends the image.
    fn write(&self, out: &mut Vec<u8>) -> Result<(), AllocError>
        ensures ok { OnOk result
            (out.new.items ≡ out.old.items ++ bytes_of_words (words self.now)) }
        ensures err { OnErr result (out.new.items ≡ out.old.items) }
        // What is written is read back, whatever stands behind it.
        ensures back { (at : Spot) (rest : List ℕ) (r : Result Self FaultOf)
            → IsOf (table at) (words self.now)
            → IsReadOf words (table at) at.offset (bytes_of_words (words self.now) ++ rest) r
            → r ≡ Ok self.now };

    /// Reads the image from the first bytes; what stands behind it isn't looked at.
    fn read(bytes: &[u8], at: At) -> Result<Self, PageFault>
        requires { at.offset + WORD_BYTES * size < 2 ^ 64 }
        ensures { IsReadOf words (table at) at.offset bytes.now result };

    ghost sized: { (at : Spot) → length (table at) ≡ size };
}
