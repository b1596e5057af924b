// The own heartbeat.
ghost use Rattle.std.specs.Prelude.{◌≡◌, not, nat_eq};
ghost use Rattle.xp_protocol.specs.State.{masked_beats};
ghost use Rattle.xp_protocol.specs.Peering.{next_beat};

use std::marker::Model;

/// The own heartbeat as it was stored last: the mask, the count and the offline count. Contracts
/// see it as the definitions do.
#[derive(Drop)]
pub struct Beat {
    mask: u64,
    count: u64,
    offline: u64,
    /// The number of the script's command for which the offline count was stored, 0 for none.
    stored_for: u64,
}

impl Model for Beat {
    ghost use Rattle.xp_protocol.specs.State.{Beats};
    ghost use Rattle.xp_beat.specs.BeatInside.{beat_seen};

    ghost Value = { Beats };

    ghost view = { beat_seen };
}

impl Beat {
    /// Nothing was stored in this boot.
    pub fn new() -> Beat
        ensures { result ≡ masked_beats 0 }
    {
        Beat::masked(0)
    }

    /// This mask stands from the opening, and nothing else was stored.
    pub fn masked(mask: u64) -> Beat
        ensures { result ≡ masked_beats mask }
    {
        Beat {
            mask,
            count: 0,
            offline: 0,
            stored_for: 0,
        }
    }

    /// The mask that was stored last: bit q where the own memory for partition q is open, or about
    /// to be (the driver's `heartbeating_to_mask`).
    pub fn mask(&self) -> u64
        ensures { result ≡ self.now.mask }
    {
        self.mask
    }

    /// The offline count that was stored last (the driver's `heartbeat_offline`).
    pub fn offline(&self) -> u64
        ensures { result ≡ self.now.offline }
    {
        self.offline
    }

    /// Whether no heartbeat is stored.
    pub fn is_offline(&self) -> bool
        ensures { result ≡ not (nat_eq self.now.offline 0) }
    {
        self.offline != 0
    }

    /// Whether the offline count was stored for the script's command of this number.
    pub fn has_stored(&self, command: u64) -> bool
        ensures { result ≡ nat_eq self.now.stored_for command }
    {
        self.stored_for == command
    }

    /// The count of the next heartbeat, from 1. A count of 64 bits goes round.
    pub fn next(&self) -> u64
        ensures { result ≡ next_beat self.now.count }
    {
        self.count.wrapping_add(1)
    }

    /// The next heartbeat is stored: gives its count.
    pub fn tick(&mut self) -> u64
        ensures count { result ≡ next_beat self.old.count }
        ensures beat { self.new ≡ record self.old { count = next_beat self.old.count } }
    {
        self.count = self.next();
        self.count
    }

    /// The mask is stored.
    pub fn store_mask(&mut self, mask: u64)
        ensures { self.new ≡ record self.old { mask = mask } }
    {
        self.mask = mask;
    }

    /// The offline count is stored for the script's command of this number.
    pub fn store_offline(&mut self, count: u64, command: u64)
        ensures { self.new ≡ record self.old { offline = count; stored_for = command } }
    {
        self.offline = count;
        self.stored_for = command;
    }
}
