// What a partition counts over all its boots.
ghost use Rattle.std.specs.Prelude.{◌≡◌, ◌+◌, ◌-◌, ◌<◌, ◌^◌};
ghost use Rattle.xp_protocol.specs.Rules.{begun_of, one_more};
ghost use Rattle.xp_partition.specs.Clock.{first_clock};

use crate::copies::CopyCounts;
use std::marker::Model;
use xp_base::step::CopyKind;

/// How many boots were begun, how many turns were made, how many messages were put, and how many
/// copies of each kind were begun.
#[derive(Drop)]
pub struct Clock {
    boots: u64,
    turns: u64,
    puts: u64,
    copies: CopyCounts,
}

impl Model for Clock {
    ghost use Rattle.xp_protocol.specs.State.{Clock};
    ghost use Rattle.xp_partition.specs.ClockInside.{clock_seen};

    ghost Value = { Clock };

    ghost view = { clock_seen };
}

impl Clock {
    /// Before the first turn of the first boot.
    pub fn new() -> Clock
        ensures { result ≡ first_clock }
    {
        Clock {
            boots: 1,
            turns: 0,
            puts: 0,
            copies: CopyCounts::new(),
        }
    }

    /// How many boots were begun, the present one among them.
    pub fn boots(&self) -> u64
        ensures { result ≡ self.now.boots }
    {
        self.boots
    }

    /// How many turns were made.
    pub fn turns(&self) -> u64
        ensures { result ≡ self.now.turns }
    {
        self.turns
    }

    /// How many messages were put.
    pub fn puts(&self) -> u64
        ensures { result ≡ self.now.puts }
    {
        self.puts
    }

    /// How many copies of a kind were begun.
    pub fn copies(&self, kind: CopyKind) -> u64
        ensures { result ≡ begun_of kind self.now.copies }
    {
        self.copies.begun(kind)
    }

    /// A boot is begun.
    pub fn count_boot(&mut self)
        requires { self.old.boots < 2 ^ 64 - 1 }
        ensures { self.new ≡ record self.old { boots = self.old.boots + 1 } }
    {
        self.boots += 1;
    }

    /// A turn was made.
    pub fn count_turn(&mut self)
        requires { self.old.turns < 2 ^ 64 - 1 }
        ensures { self.new ≡ record self.old { turns = self.old.turns + 1 } }
    {
        self.turns += 1;
    }

    /// A message was put.
    pub fn count_put(&mut self)
        requires { self.old.puts < 2 ^ 64 - 1 }
        ensures { self.new ≡ record self.old { puts = self.old.puts + 1 } }
    {
        self.puts += 1;
    }

    /// A copy of a kind is begun.
    pub fn count_copy(&mut self, kind: CopyKind)
        requires { begun_of kind self.old.copies < 2 ^ 64 - 1 }
        ensures { self.new ≡ record self.old { copies = one_more kind self.old.copies } }
    {
        self.copies.begin(kind);
    }
}
