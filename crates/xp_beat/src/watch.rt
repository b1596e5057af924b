// How a partner's heartbeat is watched.
ghost use Rattle.std.specs.Prelude.{◌≡◌, ◌<◌, ◌≤◌, ◌+◌, ◌++◌, ◌∷◌, [], length, nat_le, true};
ghost use Rattle.xp_base.specs.declared.step.CopyKind.{CopyKind};
ghost use Rattle.xp_protocol.specs.State.{new_watch};
ghost use Rattle.xp_protocol.specs.Peering.{watch_read, watch_reason, watch_failed};

use crate::check::check;
use std::marker::Model;
use xp_base::ids::PartId;
use xp_base::reason::Reason;

/// The words of a check: the partner's heartbeat count, its mask, and its offline count.
pub const CHECK_WORDS: u8 = 3;

/// Which words of a check that goes on were loaded.
#[derive(Clone, Copy)]
pub enum Loaded {
    /// No check goes on.
    Nothing,
    /// The count.
    Count(u64),
    /// The count and the mask.
    Mask(u64, u64),
}

/// How a partner's heartbeat is watched: when the last check was over, what it read, and how far
/// the check that goes on has come. Contracts see it as the definitions do.
#[derive(Drop)]
pub struct Watch {
    /// The turn of the contact, and then that of the last check.
    since: u64,
    last: Option<u64>,
    loaded: Loaded,
}

impl Model for Watch {
    ghost use Rattle.xp_protocol.specs.State.{Watch};
    ghost use Rattle.xp_beat.specs.WatchInside.{watch_seen};

    ghost Value = { Watch };

    ghost view = { watch_seen };
}

impl Watch {
    /// A partner with which contact was made in this turn.
    pub fn new(turn: u64) -> Watch
        ensures { result ≡ new_watch turn }
    {
        Watch {
            since: turn,
            last: None,
            loaded: Loaded::Nothing,
        }
    }

    /// How many words of the check that goes on were loaded; 0 where none goes on.
    pub fn len(&self) -> u8
        ensures value { result ≡ length self.now.words }
        ensures few { length self.now.words < CHECK_WORDS }
    {
        match self.loaded {
            Loaded::Nothing => 0,
            Loaded::Count(_) => 1,
            Loaded::Mask(_, _) => 2,
        }
    }

    /// Whether so many turns have passed since the last check or the contact.
    pub fn is_due(&self, check: u64, turn: u64) -> bool
        ensures value { result ≡ nat_le (self.now.since + check) turn }
        ensures due { result ≡ true → self.now.since + check ≤ turn }
    {
        self.since <= turn && turn - self.since >= check
    }

    /// The next word was loaded in this turn. Gives the reason to deactivate the partner, where the
    /// check is over and shows no heartbeat.
    pub fn add(&mut self, own: PartId, turn: u64, word: u64) -> Option<Reason>
        ensures watch { self.new ≡ watch_read own turn (self.old.words ++ word ∷ []) self.old }
        ensures reason { result ≡ watch_reason own (self.old.words ++ word ∷ []) self.old }
    {
        match self.loaded {
            Loaded::Nothing => {
                self.loaded = Loaded::Count(word);
                None
            }
            Loaded::Count(count) => {
                self.loaded = Loaded::Mask(count, word);
                None
            }
            Loaded::Mask(count, mask) => self.judge(own, turn, [count, mask, word]),
        }
    }

    // All words of the check were loaded.
    fn judge(&mut self, own: PartId, turn: u64, words: [u64; 3]) -> Option<Reason>
        ensures watch { self.new ≡ watch_read own turn words self.old }
        ensures reason { result ≡ watch_reason own words self.old }
    {
        let [count, mask, offline] = words;
        let reason = check(own, self.last, count, mask, offline).reason();
        if reason.is_none() {
            self.last = Some(count);
        }
        self.since = turn;
        self.loaded = Loaded::Nothing;
        reason
    }

    /// A load failed: the check counts as the last one.
    pub fn fail(&mut self, turn: u64)
        ensures { self.new ≡ watch_failed turn CopyKind.Beat self.old }
    {
        self.since = turn;
        self.loaded = Loaded::Nothing;
    }

    /// The check that goes on is over, since the own memory was closed.
    pub fn stop(&mut self)
        ensures { self.new ≡ record self.old { words = [] } }
    {
        self.loaded = Loaded::Nothing;
    }
}
