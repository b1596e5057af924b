// How many copies of each kind a partition has begun.
ghost use Rattle.std.specs.Prelude.{◌≡◌, ◌-◌, ◌<◌, ◌^◌};
ghost use Rattle.xp_protocol.specs.Rules.{begun_of, one_more};
ghost use Rattle.xp_partition.specs.Clock.{no_copies};

use std::marker::Model;
use xp_base::step::CopyKind;

/// How many copies of each kind were begun.
#[derive(Drop)]
pub struct CopyCounts {
    pages: u64,
    beats: u64,
    records: u64,
    args: u64,
    counters: u64,
    get: u64,
    entries: u64,
}

impl Model for CopyCounts {
    ghost use Rattle.xp_protocol.specs.State.{Copies};
    ghost use Rattle.xp_partition.specs.CopiesInside.{copies_seen};

    ghost Value = { Copies };

    ghost view = { copies_seen };
}

impl CopyCounts {
    /// No copy was begun.
    pub fn new() -> CopyCounts
        ensures { result ≡ no_copies }
    {
        CopyCounts {
            pages: 0,
            beats: 0,
            records: 0,
            args: 0,
            counters: 0,
            get: 0,
            entries: 0,
        }
    }

    /// How many copies of a kind were begun: 0 of a kind that isn't counted.
    pub fn begun(&self, kind: CopyKind) -> u64
        ensures { result ≡ begun_of kind self.now }
    {
        match kind {
            CopyKind::Page => self.pages,
            CopyKind::Beat => self.beats,
            CopyKind::Record => self.records,
            CopyKind::Args => self.args,
            CopyKind::Counters => self.counters,
            CopyKind::Get => self.get,
            CopyKind::Entries => self.entries,
            CopyKind::Buffer => 0,
        }
    }

    /// A copy of a kind is begun.
    pub fn begin(&mut self, kind: CopyKind)
        requires { begun_of kind self.old < 2 ^ 64 - 1 }
        ensures { self.new ≡ one_more kind self.old }
    {
        match kind {
            CopyKind::Page => self.pages += 1,
            CopyKind::Beat => self.beats += 1,
            CopyKind::Record => self.records += 1,
            CopyKind::Args => self.args += 1,
            CopyKind::Counters => self.counters += 1,
            CopyKind::Get => self.get += 1,
            CopyKind::Entries => self.entries += 1,
            CopyKind::Buffer => {}
        }
    }
}
