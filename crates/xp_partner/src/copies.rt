// The numbers of the copies for a partner that go on.
ghost use Rattle.std.specs.Prelude.{◌≡◌};
ghost use Rattle.xp_protocol.specs.Rules.{with_going, no_going, going_of, peer_going};
ghost use Rattle.xp_protocol.specs.Peering.{numbers_after};
ghost use Rattle.xp_protocol.specs.State.{no_numbers};

use std::marker::Model;
use xp_base::step::{CopyKind, CopyMark};

/// The numbers of the copies of a channel that go on: of its counters, and of a run of entries.
#[derive(Drop)]
pub struct ChannelCopies {
    counters: u64,
    entries: u64,
}

impl Model for ChannelCopies {
    ghost use Rattle.xp_protocol.specs.State.{Going};

    ghost Value = { Going };

    ghost view = { λ x. record { counters = x.counters; entries = x.entries } };
}

/// The numbers of the copies of a partner's page, of its record and of its heartbeat that go on.
#[derive(Drop)]
pub struct PartnerCopies {
    pages: u64,
    records: u64,
    beats: u64,
}

impl Model for PartnerCopies {
    ghost use Rattle.xp_protocol.specs.State.{PeerGoing};

    ghost Value = { PeerGoing };

    ghost view = { λ x. record { pages = x.pages; records = x.records; beats = x.beats } };
}

impl ChannelCopies {
    /// No copy was begun.
    pub fn new() -> ChannelCopies
        ensures { result ≡ no_going }
    {
        ChannelCopies {
            counters: 0,
            entries: 0,
        }
    }

    /// A copy goes on under its number. Those whose number isn't asked for again are left out.
    pub fn keep(&mut self, mark: CopyMark)
        ensures { self.new ≡ with_going mark.kind mark.number self.old }
    {
        match mark.kind {
            CopyKind::Counters => self.counters = mark.number,
            CopyKind::Entries => self.entries = mark.number,
            CopyKind::Get
            | CopyKind::Page
            | CopyKind::Beat
            | CopyKind::Record
            | CopyKind::Args
            | CopyKind::Buffer => {}
        }
    }
}

impl ChannelCopies {
    /// The number of the copy of a kind that goes on, 0 of one whose number isn't asked for again.
    pub fn number(&self, kind: CopyKind) -> u64
        ensures { result ≡ going_of kind self.now }
    {
        match kind {
            CopyKind::Counters => self.counters,
            CopyKind::Entries => self.entries,
            CopyKind::Get
            | CopyKind::Page
            | CopyKind::Beat
            | CopyKind::Record
            | CopyKind::Args
            | CopyKind::Buffer => 0,
        }
    }
}

impl PartnerCopies {
    /// The number of the copy of a kind that goes on, 0 of one whose number isn't asked for again.
    pub fn number(&self, kind: CopyKind) -> u64
        ensures { result ≡ peer_going kind self.now }
    {
        match kind {
            CopyKind::Page => self.pages,
            CopyKind::Record => self.records,
            CopyKind::Beat => self.beats,
            CopyKind::Counters
            | CopyKind::Get
            | CopyKind::Entries
            | CopyKind::Args
            | CopyKind::Buffer => 0,
        }
    }

    /// No copy was begun.
    pub fn new() -> PartnerCopies
        ensures { result ≡ no_numbers }
    {
        PartnerCopies {
            pages: 0,
            records: 0,
            beats: 0,
        }
    }

    /// A copy goes on under its number. Those whose number isn't asked for again are left out.
    pub fn keep(&mut self, mark: CopyMark)
        ensures { self.new ≡ numbers_after mark.kind mark.number self.old }
    {
        match mark.kind {
            CopyKind::Page => self.pages = mark.number,
            CopyKind::Record => self.records = mark.number,
            CopyKind::Beat => self.beats = mark.number,
            CopyKind::Counters
            | CopyKind::Get
            | CopyKind::Entries
            | CopyKind::Args
            | CopyKind::Buffer => {}
        }
    }
}
