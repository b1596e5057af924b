// The words of the partitions, as they come in.
ghost use Rattle.std.specs.Prelude.{◌≡◌, ◌↔◌, true, IsOk, IfErr, OnOk};
ghost use Rattle.xp_page.specs.Grammar.{allows};
ghost use Rattle.xp_dump.specs.Parts.{IsOpen, after_word, row_next, kept, advanced};

use xp_base::ids::PartId;
use xp_base::layout::VERSION_AT;
use xp_base::words::Words;
use xp_dump_table::table::moved;
use xp_dump_table::{Layout, Part};
use xp_page::PageCause;

/// The words that came so far, and where the next one belongs.
#[derive(Drop)]
pub struct Parts {
    pub layout: Layout,
    pub words: Words,
    /// The partition whose word comes next; as many as there are once all words came.
    pub owner: u8,
    /// The next word among those of its partition.
    pub index: u32,
    /// The version word of that partition, 0 before it came.
    pub version: u64,
}

impl Parts {
    /// Takes the next word, or tells why it isn't allowed.
    pub fn put(&mut self, word: u64) -> Result<(), PageCause>
        requires { IsOpen self.old }
        ensures accepted { IsOk result ↔ (allows (row_next self.old).allowed word ≡ true) }
        ensures cause { IfErr result (λ cause. cause ≡ (row_next self.old).cause) }
        ensures after { OnOk result (self.new ≡ after_word self.old word) }
    {
        let part = Part {
            layout: self.layout,
            owner: PartId::known(self.owner),
            count: self.words.count(),
            version: self.version,
        };
        let row = part.row(self.layout.field(self.index));
        if !row.allowed.allows(word) {
            return Err(row.cause);
        }
        self.keep(word);
        self.advance(word);
        Ok(())
    }

    // Stores a word where it stands in memory.
    fn keep(&mut self, word: u64)
        requires { IsOpen self.old }
        ensures { self.new ≡ kept self.old word }
    {
        let owner = PartId::known(self.owner);
        match self.layout {
            Layout::Older => {
                let field = self.layout.field(self.index);
                self.words
                    .set(owner, Layout::Newer.place(field), moved(field, word));
            }
            Layout::Newer => self.words.set(owner, self.index, word),
        }
    }

    // Goes on to the next word.
    fn advance(&mut self, word: u64)
        requires { IsOpen self.old }
        ensures { self.new ≡ advanced self.old word }
    {
        if self.index + 1 == self.layout.words() {
            self.owner += 1;
            self.index = 0;
            self.version = 0;
        } else {
            if self.index == VERSION_AT {
                self.version = word;
            }
            self.index += 1;
        }
    }
}
