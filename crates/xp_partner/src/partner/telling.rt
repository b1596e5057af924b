// What a partition tells a partner: that it is wanted or not, words of the own memory that were
// taken or loaded, a mask that was stored, and a boot.
ghost use Rattle.std.specs.Prelude.{◌≡◌, [], true, false};
ghost use Rattle.xp_protocol.specs.Acts.{unwanted, wanted_again};
ghost use Rattle.xp_protocol.specs.Peering.{deactivation_heard, peer_read};
ghost use Rattle.xp_partner.specs.Partner.{peer_seen, rooms_of};
ghost use Rattle.xp_partner.specs.Making.{after_effect, known_as};
ghost use Rattle.xp_partner.specs.Booting.{booted};
ghost use Rattle.xp_partner.specs.Room.{KeepLeft};

use crate::copies::PartnerCopies;
use crate::ends;
use crate::page::PageCopy;
use crate::partner::{Partner, no_copies};

impl Partner {
    /// The partner isn't wanted any more: it is deactivated (`Unloading`).
    #[tactic(auto, using(crate::proofs::Telling::unwanted_made))]
    pub fn deactivate(&mut self)
        ensures partner { self.new ≡ known_as (unwanted (peer_seen self.old)) (λ c. []) self.old }
        ensures left { KeepLeft self.old.channels self.new.channels }
    {
        self.standing.want(false);
    }

    /// The partner is wanted again.
    #[tactic(auto, using(crate::proofs::Telling::wanted_made))]
    pub fn activate(&mut self)
        ensures partner { self.new ≡
            known_as (wanted_again (peer_seen self.old)) (λ c. []) self.old }
        ensures left { KeepLeft self.old.channels self.new.channels }
    {
        self.standing.want(true);
    }

    /// The own deactivation word was taken: where it has the bit of a partner whose session was
    /// stored, this partner goes down.
    #[tactic(auto, using(crate::proofs::Telling::heard_made))]
    pub fn told(&mut self, word: u64)
        ensures partner { self.new ≡ after_effect
            (deactivation_heard word self.old.standing.partner (peer_seen self.old)) self.old }
        ensures left { KeepLeft self.old.channels self.new.channels }
    {
        self.standing.told(word);
    }

    /// The own engagement word was loaded: memory that the partner has left is free, and the
    /// connections to it are over.
    #[tactic(auto, using(crate::proofs::Telling::engaging))]
    pub fn engaged(&mut self, word: u64)
        ensures partner { self.new ≡ rooms_of (after_effect
            (peer_read word self.old.standing.partner (peer_seen self.old)) self.old) self.new }
        ensures left { KeepLeft self.old.channels self.new.channels }
    {
        let is_freed = self.standing.engaged(word);
        if is_freed {
            ends::finish(&mut self.ends);
        }
    }

    /// The own heartbeat mask was stored, with the partner's bit or without it.
    pub fn masked(&mut self, stored: bool)
        ensures { self.new ≡ record self.old {
          standing = record self.old.standing { masked = stored };
        } }
    {
        self.standing.masked(stored);
    }

    /// The partition boots: nothing is known of the partner, and no channel is registered. What was
    /// recorded stays.
    #[tactic(auto, using(crate::proofs::Making::own_rooms))]
    pub fn boot(&mut self)
        ensures { self.new ≡ rooms_of (booted self.old) self.new }
    {
        self.standing.boot();
        self.page = PageCopy::new();
        self.numbers = PartnerCopies::new();
        self.going = no_copies();
        ends::boot(&mut self.ends);
    }

    /// The boot is over, with this stamp.
    pub fn set_stamp(&mut self, stamp: u32)
        ensures { self.new ≡ record self.old {
          standing = record self.old.standing { stamp = stamp };
        } }
    {
        self.standing.set_stamp(stamp);
    }
}
