// One partner of a partition: what it knows, and the room that it has.
ghost use Rattle.std.specs.Prelude.{◌≡◌, ℕ, ◌+◌, ◌-◌, ◌<◌, ◌≤◌, ◌^◌, ◌*◌, ◌&&◌, ◌||◌, [], OnOk, true, false};
ghost use Rattle.xp_protocol.specs.State.{Off, booted_engage, cold_engage};
ghost use Rattle.xp_engage.specs.Partner.{new_partner as new_standing};
ghost use Rattle.xp_partner.specs.Named.{AreNamed};
ghost use Rattle.xp_partner.specs.Partner.{peer_seen, channel_of, of_standing, four_going, four_channels, with_channel, rooms_of};
ghost use Rattle.xp_engage.specs.Learning.{faulted};
ghost use Rattle.xp_partner.specs.Room.{HaveTurnRoom, HaveNotes, HaveNotesLeft, AreNoLess};

mod commanding;
mod flags;
mod making;
mod opening;
mod planning;
mod reserving;
mod stepping;
mod telling;
mod wanting;

use crate::copies::{ChannelCopies, PartnerCopies};
use crate::page::PageCopy;
use std::alloc::{AllocError, Global};
use std::marker::Model;
use xp_base::ids::{Channel, PartId};
use xp_base::reason::Reason;
use xp_channel::end::ChannelEnd;
use xp_engage::partner::PartnerEnd;

/// One partner of a partition, whole. Contracts see how the partition stands to it, the words of a
/// look at its page that goes on, the numbers of the copies that go on, and the ends of their
/// channels.
#[derive(Drop)]
pub struct Partner {
    standing: PartnerEnd,
    page: PageCopy,
    numbers: PartnerCopies,
    going: [ChannelCopies; 4],
    ends: [ChannelEnd; 4],
}

impl Model for Partner {
    ghost use Rattle.xp_partner.specs.Partner.{Partner};
    ghost use Rattle.xp_partner.specs.PartnerInside.{partner_seen, IsSound};

    ghost Value = { Partner };

    ghost view = { partner_seen };

    ghost invariant = { IsSound };
}

// No copy of a channel was begun.
fn no_copies() -> [ChannelCopies; 4]
    ensures { result ≡ four_going }
{
    [
        ChannelCopies::new(),
        ChannelCopies::new(),
        ChannelCopies::new(),
        ChannelCopies::new(),
    ]
}

// Four ends that were never in contact.
fn new_ends(alloc: Global, own: PartId, partner: PartId) -> [ChannelEnd; 4]
    ensures { result ≡ four_channels own partner }
{
    [
        ChannelEnd::new(alloc, own, partner, Channel::known(0)),
        ChannelEnd::new(alloc, own, partner, Channel::known(1)),
        ChannelEnd::new(alloc, own, partner, Channel::known(2)),
        ChannelEnd::new(alloc, own, partner, Channel::known(3)),
    ]
}

impl Partner {
    /// A partner in a boot of this stamp: the own memory for it is as a former boot left it.
    /// `version` is the word of the own version, and `window` the scenario's: no engagement bit is
    /// set within two windows after it was cleared. `check` turns lie between two checks of the
    /// partner's heartbeat, 0 for no checks.
    #[tactic(auto, using(crate::proofs::Channels::four_named))]
    pub fn new(
        alloc: Global,
        own: PartId,
        partner: PartId,
        version: u64,
        stamp: u32,
        window: u64,
        check: u64,
    ) -> Partner
        requires { 2 * window < 2 ^ 64 }
        ensures { result ≡
            of_standing (new_standing own partner version stamp booted_engage window check) }
    {
        Partner {
            standing: PartnerEnd::new(own, partner, version, stamp, window, check),
            page: PageCopy::new(),
            numbers: PartnerCopies::new(),
            going: no_copies(),
            ends: new_ends(alloc, own, partner),
        }
    }

    /// A partner that isn't in contact, of a partition that opens booted.
    #[tactic(auto, using(crate::proofs::Channels::four_named))]
    pub fn off(
        alloc: Global,
        own: PartId,
        partner: PartId,
        version: u64,
        window: u64,
        check: u64,
    ) -> Partner
        requires { 2 * window < 2 ^ 64 }
        ensures { result ≡
            of_standing (new_standing own partner version 1 (cold_engage Off) window check) }
    {
        Partner {
            standing: PartnerEnd::off(own, partner, version, window, check),
            page: PageCopy::new(),
            numbers: PartnerCopies::new(),
            going: no_copies(),
            ends: new_ends(alloc, own, partner),
        }
    }

    /// How the partition stands to the partner.
    pub fn standing(&self) -> &PartnerEnd
        ensures { result.now ≡ self.now.standing }
    {
        &self.standing
    }

    /// Each end is that of its channel, between the partition and the partner.
    pub fn names(&self)
        ensures { AreNamed self.now.standing.own self.now.standing.partner self.now.channels }
    {
        let _standing = &self.standing;
    }

    /// The end of a channel.
    pub fn end(&self, channel: Channel) -> &ChannelEnd
        ensures { result.now ≡ channel_of self.now channel }
    {
        &self.ends[channel.get() as usize]
    }

    // A reason to deactivate the partner, where there is one.
    #[tactic(auto, using(crate::proofs::Channels::faulted_none))]
    fn give(&mut self, reason: Option<Reason>)
        ensures { self.new ≡ record self.old { standing = faulted reason self.old.standing } }
    {
        if let Some(reason) = reason {
            self.standing.fault(reason);
        }
    }
}
