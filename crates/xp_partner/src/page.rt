// A look at a partner's page that goes on.
ghost use Rattle.std.specs.Prelude.{◌≡◌, ℕ, ◌<◌, ◌≤◌, ◌++◌, ◌∷◌, [], length, nat_eq, nat_lt, Some, None, if◌then◌else◌};
ghost use Rattle.xp_protocol.specs.Peering.{page_word};
ghost use Rattle.xp_discover.specs.Looking.{look_answer};
ghost use Rattle.xp_partner.specs.Page.{words_after, shown_after};

use std::marker::Model;
use xp_discover::look::{LookAnswer, judge};

/// The words of a whole look.
pub const LOOK_WORDS: u8 = 5;

/// The words of a partner's page that were loaded by a look that goes on: fewer than all. Contracts
/// see them as a list.
#[derive(Drop)]
pub struct PageCopy {
    words: [u64; 5],
    done: u8,
}

impl Model for PageCopy {
    ghost use Rattle.std.specs.Prelude.{ℕ, List};
    ghost use Rattle.xp_partner.specs.PageInside.{words_seen, IsShort};

    ghost Value = { List ℕ };

    ghost view = { words_seen };

    ghost invariant = { IsShort };
}

impl PageCopy {
    /// No look goes on.
    pub fn new() -> PageCopy
        ensures { result ≡ [] }
    {
        PageCopy {
            words: [0; 5],
            done: 0,
        }
    }

    /// How many words were loaded.
    pub fn len(&self) -> u8
        ensures value { result ≡ length self.now }
        ensures few { length self.now < LOOK_WORDS }
    {
        self.done
    }

    /// The next word was loaded. Gives what the look shows, where it is whole: then none goes on.
    #[tactic(auto, using(crate::proofs::Paging::paging))]
    pub fn add(&mut self, word: u64) -> Option<LookAnswer>
        ensures words { self.new ≡ words_after (self.old ++ word ∷ []) }
        ensures shown { result ≡ shown_after (self.old ++ word ∷ []) }
    {
        self.words[self.done as usize] = word;
        if self.done + 1 < LOOK_WORDS {
            self.done += 1;
            return None;
        }
        self.done = 0;
        Some(judge(self.words))
    }

    /// A load failed: the look is over.
    pub fn fail(&mut self)
        ensures { self.new ≡ [] }
    {
        self.done = 0;
    }
}
